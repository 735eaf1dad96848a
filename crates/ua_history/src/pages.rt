//! Pages of a node's history.

ghost use Rattle.std.specs.Prelude.{◌≡◌, ◌+◌, min, [], length, take, reverse, nat_le, None, IfOk, OnOk, if◌then◌else◌};
ghost use Rattle.std.specs.BTreeMap.Range.{IsLeBy, IsLtBy, entries_between};
ghost use Rattle.std.specs.Ordering.{int_cmp};
ghost use Rattle.std.specs.Range.Bound.{IsForward};
ghost use Rattle.ua_history.specs.Intervals.{is_forward as is_forward_spec, in_order, raw};
ghost use Rattle.ua_history.specs.Pages.{IsCut, last_time as last_time_spec, filled_by};

use crate::intervals::Interval;
use crate::kept_values::{KeptValues, Run};
use collections::Segments;
use std::alloc::{AllocError, Global};
use std::marker::Model;
use std::ops::Bound;
use ua_types::{DataValue, Moment};

/// The first values of a node in an interval, in its order.
#[derive(Debug, Drop)]
pub struct Cut<'a> {
    pub values: KeptValues<'a>,
    /// The time of the last of them, where the interval has more.
    pub last_given: Option<Moment>,
}

impl<'a> Cut<'a> {
    /// No value, and no more of them. Takes no memory.
    pub(crate) fn none(alloc: Global) -> Cut<'a>
        ensures values { result.values ≡ [] }
        ensures last { result.last_given ≡ None }
    {
        Cut {
            values: KeptValues::none(alloc),
            last_given: None,
        }
    }
}

// The first values of a run in an order, so many of them as there are.
fn first_of(is_falling: bool, run: Run<'_>, most: usize) -> Run<'_>
    ensures values { in_order is_falling result.now ≡ take most (in_order is_falling run.now) }
    ensures len { length result.now ≡ min most (length run.now) }
{
    let count = most.min(run.len());
    if is_falling {
        &run[run.len() - count..]
    } else {
        &run[..count]
    }
}

// The time of the last value of a run in an order.
fn last_time(is_falling: bool, run: Run<'_>) -> Option<Moment>
    ensures { result ≡ last_time_spec (in_order is_falling run.now) }
{
    let last = if is_falling { run.first() } else { run.last() };
    match last {
        None => None,
        Some((time, _)) => Some(Moment(*time)),
    }
}

// A page that is being filled. Contracts see its order, how many values it has at most, and those that it has.
#[derive(Drop)]
struct Filling<'a> {
    is_falling: bool,
    size: usize,
    runs: Vec<Run<'a>>,
    // How many values they have.
    len: usize,
    // The time of the last of them.
    last: Option<Moment>,
}

impl<'a> Model for Filling<'a> {
    ghost use Rattle.std.specs.Prelude.{◌≡◌, ◌≤◌, length};
    ghost use Rattle.ua_history.specs.Pages.{FillingState, last_time};
    ghost use Rattle.ua_history.specs.Runs.{told};

    ghost Value = { FillingState };

    ghost view = { λ p. record { is_falling = p.is_falling; size = p.size; values = told p.is_falling p.runs.items } };

    ghost invariant = { λ p. (p.len ≡ length (told p.is_falling p.runs.items)) × (p.len ≤ p.size) × (p.last ≡ last_time (told p.is_falling p.runs.items)) };
}

impl<'a> Filling<'a> {
    fn new(alloc: Global, is_falling: bool, size: usize) -> Filling<'a>
        ensures { result ≡ record { is_falling = is_falling; size = size; values = [] } }
    {
        Filling {
            is_falling,
            size,
            runs: Vec::new(alloc),
            len: 0,
            last: None,
        }
    }

    // The first values of one more run, as many as there is room for. Answers whether there was room for all.
    fn take(&mut self, run: Run<'a>) -> Result<bool, AllocError>
        ensures all { IfOk result (λ all. all ≡ nat_le (length self.old.values + length run.now) self.old.size) }
        ensures values { OnOk result (self.new ≡ filled_by self.old (in_order self.old.is_falling run.now)) }
    {
        let given = first_of(self.is_falling, run, self.size - self.len);
        self.runs.push(given)?;
        self.len += given.len();
        self.last = last_time(self.is_falling, given).or(self.last);
        Ok(given.len() == run.len())
    }

    // The page as it is, where the interval has more values or where it hasn't.
    fn cut(self, is_more: bool) -> Cut<'a>
        ensures values { result.values ≡ self.entry.values }
        ensures last { result.last_given ≡ (if is_more then last_time_spec self.entry.values else None) }
    {
        Cut {
            values: KeptValues::in_runs(self.is_falling, self.runs, self.len),
            last_given: if is_more { self.last } else { None },
        }
    }
}

/// The first of the values between these times, rising. At most one run is asked for whose values aren't wanted.
pub(crate) fn rising_page<'a>(
    alloc: Global,
    values: &'a Segments<DataValue>,
    low: Bound<i64>,
    high: Bound<i64>,
    count: u32,
) -> Result<Cut<'a>, AllocError>
    requires { IsForward (IsLeBy int_cmp) (IsLtBy int_cmp) low high }
    ensures { IfOk result (λ cut. IsCut cut count (entries_between int_cmp low high values.now)) }
{
    let mut page = Filling::new(alloc, false, count as usize);
    for run in values.range(low, high) {
        if !page.take(run)? {
            return Ok(page.cut(true));
        }
    }
    Ok(page.cut(false))
}

/// The first of the values between these times, falling. At most one run is asked for whose values aren't wanted.
pub(crate) fn falling_page<'a>(
    alloc: Global,
    values: &'a Segments<DataValue>,
    low: Bound<i64>,
    high: Bound<i64>,
    count: u32,
) -> Result<Cut<'a>, AllocError>
    requires { IsForward (IsLeBy int_cmp) (IsLtBy int_cmp) low high }
    ensures { IfOk result (λ cut. IsCut cut count (reverse (entries_between int_cmp low high values.now))) }
{
    let mut page = Filling::new(alloc, true, count as usize);
    let mut left = values.range(low, high);
    while let Some(run) = left.next_back() {
        if !page.take(run)? {
            return Ok(page.cut(true));
        }
    }
    Ok(page.cut(false))
}

// Whether times may lie between these.
fn is_forward(low: Bound<i64>, high: Bound<i64>) -> bool
    ensures { result ≡ is_forward_spec low high }
{
    match (low, high) {
        (Bound::Unbounded, _) => true,
        (_, Bound::Unbounded) => true,
        (Bound::Excluded(a), Bound::Excluded(b)) => a.cmp(&b).is_lt(),
        (Bound::Excluded(a), Bound::Included(b)) => !a.cmp(&b).is_gt(),
        (Bound::Included(a), Bound::Excluded(b)) => !a.cmp(&b).is_gt(),
        (Bound::Included(a), Bound::Included(b)) => !a.cmp(&b).is_gt(),
    }
}

/// The first of the values in an interval, in its order, each where it stands. The first of them is found in logarithmic
/// time; then they are taken run by run, with no look at each of their values.
#[tactic(auto, using(crate::proofs::Between::goes_forward, crate::proofs::Between::none_backward))]
pub(crate) fn page<'a>(
    alloc: Global,
    values: &'a Segments<DataValue>,
    interval: Interval,
    count: u32,
) -> Result<Cut<'a>, AllocError>
    ensures { IfOk result (λ cut. IsCut cut count (raw values.now interval)) }
{
    let Interval {
        low,
        high,
        is_falling,
    } = interval;
    if !is_forward(low, high) {
        return Ok(Cut::none(alloc));
    }
    if is_falling {
        falling_page(alloc, values, low, high, count)
    } else {
        rising_page(alloc, values, low, high, count)
    }
}

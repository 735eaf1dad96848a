//! A part of one segment, read in place.

ghost use Rattle.std.specs.Prelude.{◌≡◌, true, [], length, take, drop};
ghost use Rattle.std.specs.BTreeMap.Range.{entries_between};
ghost use Rattle.std.specs.List.Sorted.{IsStrictlySortedBy};
ghost use Rattle.std.specs.Map.{keys_of};
ghost use Rattle.std.specs.Ordering.{int_cmp};
ghost use Rattle.collections.specs.Parts.{IsCountBefore, IsCountUpTo, IsStartIn, IsEndIn};
ghost use Rattle.collections.specs.Runs.{TakesRun, TakesLastRun};

use crate::segment::place;
use std::collections::VecDeque;
use std::marker::Model;
use std::mem;
use std::ops::Bound;

// Whether the first entry lies at a time or later, and so do all.
fn is_from<V>(segment: &VecDeque<(i64, V)>, time: i64) -> bool
    requires { IsStrictlySortedBy int_cmp (keys_of segment.now.items) }
    ensures { result ≡ true → IsCountBefore time segment.now.items 0 }
{
    match segment.front() {
        None => false,
        Some((first, _)) => time <= *first,
    }
}

// Whether the first entry lies past a time, and so do all.
fn is_past<V>(segment: &VecDeque<(i64, V)>, time: i64) -> bool
    requires { IsStrictlySortedBy int_cmp (keys_of segment.now.items) }
    ensures { result ≡ true → IsCountUpTo time segment.now.items 0 }
{
    match segment.front() {
        None => false,
        Some((first, _)) => time < *first,
    }
}

// Whether the last entry lies before a time, and so do all.
fn is_before<V>(segment: &VecDeque<(i64, V)>, time: i64) -> bool
    requires { IsStrictlySortedBy int_cmp (keys_of segment.now.items) }
    ensures { result ≡ true → IsCountBefore time segment.now.items (length segment.now.items) }
{
    match segment.back() {
        None => false,
        Some((last, _)) => *last < time,
    }
}

// Whether the last entry lies before a time or at it, and so do all.
fn is_up_to<V>(segment: &VecDeque<(i64, V)>, time: i64) -> bool
    requires { IsStrictlySortedBy int_cmp (keys_of segment.now.items) }
    ensures { result ≡ true → IsCountUpTo time segment.now.items (length segment.now.items) }
{
    match segment.back() {
        None => false,
        Some((last, _)) => *last <= time,
    }
}

// How many entries lie before a time. Of most segments that are read the first or the last entry tells; others are searched.
fn count_before<V>(segment: &VecDeque<(i64, V)>, time: i64) -> usize
    requires { IsStrictlySortedBy int_cmp (keys_of segment.now.items) }
    ensures { IsCountBefore time segment.now.items result }
{
    if is_from(segment, time) {
        return 0;
    }
    if is_before(segment, time) {
        return segment.len();
    }
    match place(segment, time) {
        Ok(at) => at,
        Err(at) => at,
    }
}

// How many entries lie before a time or at it, told likewise.
fn count_up_to<V>(segment: &VecDeque<(i64, V)>, time: i64) -> usize
    requires { IsStrictlySortedBy int_cmp (keys_of segment.now.items) }
    ensures { IsCountUpTo time segment.now.items result }
{
    if is_past(segment, time) {
        return 0;
    }
    if is_up_to(segment, time) {
        return segment.len();
    }
    match place(segment, time) {
        Ok(at) => at + 1,
        Err(at) => at,
    }
}

// How many entries lie before a start.
fn start_in<V>(segment: &VecDeque<(i64, V)>, low: Bound<i64>) -> usize
    requires { IsStrictlySortedBy int_cmp (keys_of segment.now.items) }
    ensures { IsStartIn low segment.now.items result }
{
    match low {
        Bound::Included(time) => count_before(segment, time),
        Bound::Excluded(time) => count_up_to(segment, time),
        Bound::Unbounded => 0,
    }
}

// How many entries lie up to an end.
fn end_in<V>(segment: &VecDeque<(i64, V)>, high: Bound<i64>) -> usize
    requires { IsStrictlySortedBy int_cmp (keys_of segment.now.items) }
    ensures { IsEndIn high segment.now.items result }
{
    match high {
        Bound::Included(time) => count_up_to(segment, time),
        Bound::Excluded(time) => count_before(segment, time),
        Bound::Unbounded => segment.len(),
    }
}

// The entries of a slice from one place to another, as far as there are so many.
fn cut<V>(entries: &[(i64, V)], start: usize, end: usize) -> &[(i64, V)]
    ensures { result.now ≡ drop start (take end entries.now) }
{
    let before = &entries[..end.min(entries.len())];
    &before[start.min(before.len())..]
}

/// Entries of a segment that are still to be read: two runs, one behind the other, since a segment's entries may go round
/// the end of its memory. Contracts see the list of them.
#[derive(Drop)]
pub(crate) struct Part<'a, V> {
    // Either may be empty.
    first: &'a [(i64, V)],
    second: &'a [(i64, V)],
}

impl<'a, V> Model for Part<'a, V> {
    ghost use Rattle.std.specs.Prelude.{ℤ, List, ◌++◌};

    ghost Value = { List (ℤ × V) };

    ghost view = { λ p. p.first.now ++ p.second.now };
}

impl<'a, V> Part<'a, V> {
    pub(crate) fn none() -> Part<'a, V>
        ensures { result ≡ [] }
    {
        Part {
            first: &[],
            second: &[],
        }
    }

    /// Those between two times, found by binary searches.
    pub(crate) fn within(
        segment: &'a VecDeque<(i64, V)>,
        low: Bound<i64>,
        high: Bound<i64>,
    ) -> Part<'a, V>
        requires { IsStrictlySortedBy int_cmp (keys_of segment.now.items) }
        ensures { result ≡ entries_between int_cmp low high segment.now.items }
    {
        let start = start_in(segment, low);
        let end = end_in(segment, high);
        let (first, second) = segment.as_slices();
        let seam = first.len();
        Part {
            first: cut(first, start, end),
            second: cut(second, start.saturating_sub(seam), end.saturating_sub(seam)),
        }
    }

    /// The first of its runs.
    pub(crate) fn next(&mut self) -> Option<&'a [(i64, V)]>
        ensures { TakesRun self.old result self.new }
    {
        if !self.first.is_empty() {
            return Some(mem::take(&mut self.first));
        }
        if !self.second.is_empty() {
            return Some(mem::take(&mut self.second));
        }
        None
    }

    /// The last of its runs.
    pub(crate) fn next_back(&mut self) -> Option<&'a [(i64, V)]>
        ensures { TakesLastRun self.old result self.new }
    {
        if !self.second.is_empty() {
            return Some(mem::take(&mut self.second));
        }
        if !self.first.is_empty() {
            return Some(mem::take(&mut self.first));
        }
        None
    }
}

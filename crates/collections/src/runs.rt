//! The entries between two times, read in place from either end, run by run.

ghost use Rattle.std.specs.Prelude.{◌≡◌};
ghost use Rattle.std.specs.BTreeMap.Range.{IsLeBy, IsLtBy, entries_between};
ghost use Rattle.std.specs.Iterator.{at_most};
ghost use Rattle.std.specs.List.Sorted.{IsStrictlySortedBy};
ghost use Rattle.std.specs.Map.{keys_of};
ghost use Rattle.std.specs.Ordering.{int_cmp};
ghost use Rattle.std.specs.Prelude.{length};
ghost use Rattle.std.specs.Range.Bound.{IsForward};
ghost use Rattle.collections.specs.Laid.{joined, IsLaid};
ghost use Rattle.collections.specs.Parts.{IsFirstFor};
ghost use Rattle.collections.specs.Runs.{TakesRun, TakesLastRun};

use crate::laid::start_for;
use crate::part::Part;
use std::collections::{BTreeMap, VecDeque, btree_map};
use std::marker::Model;
use std::ops::Bound;

/// The entries between two times that are still to be read, in runs: slices, each of entries as they stand in memory, by
/// rising time, and none of them empty. The first run is taken by `next`, the last by `next_back`. Contracts see the list
/// of the entries, by rising time.
#[derive(Drop)]
pub struct Runs<'a, V> {
    low: Bound<i64>,
    high: Bound<i64>,
    // What is left of the first segment.
    front: Part<'a, V>,
    // The segments that no entry was read of.
    segments: btree_map::Range<'a, i64, VecDeque<(i64, V)>>,
    // What is left of the last one.
    back: Part<'a, V>,
}

impl<'a, V> Model for Runs<'a, V> {
    ghost use Rattle.std.specs.Prelude.{ℤ, List, ◌++◌};
    ghost use Rattle.std.specs.BTreeMap.Range.{entries_between};
    ghost use Rattle.std.specs.List.Sorted.{IsStrictlySortedBy};
    ghost use Rattle.std.specs.Map.{keys_of};
    ghost use Rattle.std.specs.Ordering.{int_cmp};
    ghost use Rattle.collections.specs.Laid.{joined};

    ghost Value = { List (ℤ × V) };

    ghost view = { λ r. (r.front ++ entries_between int_cmp r.low r.high (joined r.segments)) ++ r.back };

    ghost invariant = { λ r. IsStrictlySortedBy int_cmp (keys_of (joined r.segments)) };
}

// The time under which the first of the segments stands that may have entries from a time on.
fn first_from<V>(segments: &BTreeMap<i64, VecDeque<(i64, V)>>, time: i64) -> Bound<i64>
    requires { IsLaid segments.now.entries }
    ensures at { IsFirstFor (Bound.Included time) segments.now.entries result }
    ensures past { IsFirstFor (Bound.Excluded time) segments.now.entries result }
{
    match start_for(segments, time) {
        None => Bound::Unbounded,
        Some(start) => Bound::Included(start),
    }
}

// The time under which the first of the segments stands that may have entries from a start on.
fn first_for<V>(segments: &BTreeMap<i64, VecDeque<(i64, V)>>, low: Bound<i64>) -> Bound<i64>
    requires { IsLaid segments.now.entries }
    ensures { IsFirstFor low segments.now.entries result }
{
    match low {
        Bound::Unbounded => Bound::Unbounded,
        Bound::Included(time) => first_from(segments, time),
        Bound::Excluded(time) => first_from(segments, time),
    }
}

impl<'a, V> Runs<'a, V> {
    pub(crate) fn between(
        segments: &'a BTreeMap<i64, VecDeque<(i64, V)>>,
        low: Bound<i64>,
        high: Bound<i64>,
    ) -> Runs<'a, V>
        requires forward { IsForward (IsLeBy int_cmp) (IsLtBy int_cmp) low high }
        requires laid { IsLaid segments.now.entries }
        requires sorted { IsStrictlySortedBy int_cmp (keys_of (joined segments.now.entries)) }
        ensures { result ≡ entries_between int_cmp low high (joined segments.now.entries) }
    {
        let first = first_for(segments, low);
        Runs {
            low,
            high,
            front: Part::none(),
            segments: segments.range((first, high)),
            back: Part::none(),
        }
    }
}

impl<'a, V> Iterator for Runs<'a, V> {
    type Item = &'a [(i64, V)];

    ghost next_gives = { TakesRun };

    ghost remaining = { λ s. at_most (length s) };

    fn next(&mut self) -> Option<&'a [(i64, V)]> {
        if let Some(run) = self.front.next() {
            return Some(run);
        }
        while let Some((_, segment)) = self.segments.next() {
            self.front = Part::within(segment, self.low, self.high);
            if let Some(run) = self.front.next() {
                return Some(run);
            }
        }
        self.back.next()
    }
}

impl<'a, V> DoubleEndedIterator for Runs<'a, V> {
    ghost next_back_gives = { TakesLastRun };

    fn next_back(&mut self) -> Option<&'a [(i64, V)]> {
        if let Some(run) = self.back.next_back() {
            return Some(run);
        }
        while let Some((_, segment)) = self.segments.next_back() {
            self.back = Part::within(segment, self.low, self.high);
            if let Some(run) = self.back.next_back() {
                return Some(run);
            }
        }
        self.front.next_back()
    }
}

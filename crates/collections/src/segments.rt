//! Values under times.

ghost use Rattle.std.specs.Prelude.{◌≡◌, ◌<◌, ◌^◌, [], length, drop, slice_get, IfOk, OnOk, OnErr};
ghost use Rattle.std.specs.BTreeMap.{insert_entry, is_at};
ghost use Rattle.std.specs.BTreeMap.Range.{IsLeBy, IsLtBy, entries_between};
ghost use Rattle.std.specs.List.Sorted.{IsStrictlySortedBy};
ghost use Rattle.std.specs.Map.{keys_of, lookup};
ghost use Rattle.std.specs.Option.{option_copied};
ghost use Rattle.std.specs.Ordering.{int_cmp};
ghost use Rattle.std.specs.Range.Bound.{IsForward};

use crate::laid::{put_among, take_first, value_at};
use crate::runs::Runs;
use std::alloc::{AllocError, Global};
use std::collections::{BTreeMap, VecDeque};
use std::marker::Model;
use std::ops::Bound;

/// Values under times, one for each. Contracts see the list of them, by rising time.
///
/// They are kept in segments of at most 64 entries, each with room for about as many as it has. The segments stand in a
/// tree, so one is found in logarithmic time, and an entry in it by a binary search. What is read lies in slices. The first segment stands under the least time that there is,
/// so an earlier value always has a place in it.
#[derive(Drop)]
pub struct Segments<V> {
    // Each under a time that is none of its entries' later, and later than all of those in earlier segments.
    segments: BTreeMap<i64, VecDeque<(i64, V)>>,
    // How many entries there are.
    len: usize,
}

impl<V> Model for Segments<V> {
    ghost use Rattle.std.specs.Prelude.{◌≡◌, ℤ, List, length};
    ghost use Rattle.std.specs.List.Sorted.{IsStrictlySortedBy};
    ghost use Rattle.std.specs.Map.{keys_of};
    ghost use Rattle.std.specs.Ordering.{int_cmp};
    ghost use Rattle.collections.specs.Laid.{joined, IsLaid};

    ghost Value = { List (ℤ × V) };

    ghost view = { λ s. joined s.segments.entries };

    ghost invariant = { λ s. IsLaid s.segments.entries × IsStrictlySortedBy int_cmp (keys_of (joined s.segments.entries)) × (s.len ≡ length (joined s.segments.entries)) };
}

impl<V> Segments<V> {
    /// No value yet. Takes no memory.
    pub fn new(alloc: Global) -> Segments<V>
        ensures { result ≡ [] }
    {
        Segments {
            segments: BTreeMap::new(alloc),
            len: 0,
        }
    }

    /// Says that the times rise. It does nothing.
    pub fn soundness(&self)
        ensures { IsStrictlySortedBy int_cmp (keys_of self.now) }
    {
        let _ = &self.segments;
    }

    /// How many values there are.
    pub fn len(&self) -> usize
        ensures { result ≡ length self.now }
    {
        self.len
    }

    /// The value at a time, found in logarithmic time.
    pub fn get(&self, time: i64) -> Option<&V>
        ensures { option_copied result ≡ lookup (is_at (int_cmp time)) self.now }
    {
        value_at(&self.segments, time)
    }

    /// The values between two times, run by run where they stand. The first and the last of them are found in
    /// logarithmic time, and a segment has two runs at most.
    pub fn range(&self, low: Bound<i64>, high: Bound<i64>) -> Runs<'_, V>
        requires { IsForward (IsLeBy int_cmp) (IsLtBy int_cmp) low high }
        ensures { result ≡ entries_between int_cmp low high self.now }
    {
        Runs::between(&self.segments, low, high)
    }
}

impl<V: Drop> Segments<V> {
    /// Puts a value at a time, and answers the one that was there.
    ///
    /// A value that is later than all others goes to the end of the last segment, the only one that is looked at, or
    /// into a new one where that is full; it moves none. For another its segment is found in logarithmic time, a full
    /// one is split in two, and no more than half of the segment's entries make room. Memory is taken where a segment
    /// has no room for one more, which then has about twice as much; for a new segment; and for the tree. At an `Err`
    /// nothing changed.
    pub fn insert(&mut self, alloc: Global, time: i64, value: V) -> Result<Option<V>, AllocError>
        requires { length self.old < 2 ^ 63 }
        ensures old { IfOk result (λ old. old ≡ lookup (is_at (int_cmp time)) self.old) }
        ensures ok { OnOk result (self.new ≡ insert_entry int_cmp self.old time value) }
        ensures err { OnErr result (self.new ≡ self.old) }
    {
        let old = put_among(&mut self.segments, alloc, time, value)?;
        if old.is_none() {
            self.len += 1;
        }
        Ok(old)
    }

    /// Takes the value with the least time, if there is one, from the front of the first segment. None of the others
    /// moves.
    pub fn pop_first(&mut self) -> Option<(i64, V)>
        ensures first { result ≡ slice_get self.old 0 }
        ensures rest { self.new ≡ drop 1 self.old }
    {
        let first = take_first(&mut self.segments)?;
        self.len -= 1;
        Some(first)
    }
}

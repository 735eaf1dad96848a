//! One segment: entries by rising time.

ghost use Rattle.std.specs.Prelude.{◌≡◌, [], ◌∷◌, OnOk, OnErr, IfOk, MatchResult};
ghost use Rattle.std.specs.BTreeMap.{insert_entry, is_at};
ghost use Rattle.std.specs.List.Sorted.{IsStrictlySortedBy};
ghost use Rattle.std.specs.Map.{keys_of, lookup};
ghost use Rattle.std.specs.Option.{option_copied};
ghost use Rattle.std.specs.Ordering.{int_cmp};
ghost use Rattle.collections.specs.Places.{IsAt, IsGapFor};

use std::alloc::{AllocError, Global};
use std::collections::VecDeque;
use std::mem;

/// How many entries a segment has at most.
pub(crate) const MOST: usize = 64;

/// A segment of one entry.
pub(crate) fn segment_of<V: Drop>(
    alloc: Global,
    time: i64,
    value: V,
) -> Result<VecDeque<(i64, V)>, AllocError>
    ensures { IfOk result (λ segment. segment.items ≡ (time, value) ∷ []) }
{
    let mut segment = VecDeque::new(alloc);
    segment.push_back((time, value))?;
    Ok(segment)
}

/// Where the entry of a time stands, or would.
pub(crate) fn place<V>(segment: &VecDeque<(i64, V)>, time: i64) -> Result<usize, usize>
    requires { IsStrictlySortedBy int_cmp (keys_of segment.now.items) }
    ensures { MatchResult result (IsAt time segment.now.items) (IsGapFor time segment.now.items) }
{
    segment.binary_search_by_key(&time, |entry| entry.0)
}

/// The value at a time.
pub(crate) fn value_in<V>(segment: &VecDeque<(i64, V)>, time: i64) -> Option<&V>
    requires { IsStrictlySortedBy int_cmp (keys_of segment.now.items) }
    ensures { option_copied result ≡ lookup (is_at (int_cmp time)) segment.now.items }
{
    match place(segment, time) {
        Ok(at) => Some(&segment[at].1),
        Err(_) => None,
    }
}

/// An entry for a time, in the place of the one that was there. At an `Err` nothing changed.
pub(crate) fn put<V: Drop>(
    segment: &mut VecDeque<(i64, V)>,
    time: i64,
    value: V,
) -> Result<Option<V>, AllocError>
    requires { IsStrictlySortedBy int_cmp (keys_of segment.old.items) }
    ensures old { IfOk result (λ old. old ≡ lookup (is_at (int_cmp time)) segment.old.items) }
    ensures ok { OnOk result (segment.new.items ≡ insert_entry int_cmp segment.old.items time value) }
    ensures err { OnErr result (segment.new.items ≡ segment.old.items) }
{
    match place(segment, time) {
        Ok(at) => {
            let entry = &mut segment[at];
            Ok(Some(mem::replace(&mut entry.1, value)))
        }
        Err(at) => {
            segment.insert(at, (time, value))?;
            Ok(None)
        }
    }
}

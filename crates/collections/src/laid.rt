//! Segments, each under a time: the last that stands under a time or an earlier one has the entry of that time.

ghost use Rattle.std.specs.Prelude.{◌≡◌, true, false, cond, int_lt, drop, slice_get, IfOk, OnOk, OnErr, MatchOption};
ghost use Rattle.std.specs.BTreeMap.{insert_entry, is_at};
ghost use Rattle.std.specs.List.Sorted.{IsStrictlySortedBy};
ghost use Rattle.std.specs.Map.{keys_of, lookup};
ghost use Rattle.std.specs.Option.{option_copied};
ghost use Rattle.std.specs.Ordering.{int_cmp};
ghost use Rattle.collections.specs.Laid.{AllBefore, joined, IsLaid};
ghost use Rattle.collections.specs.Places.{BelongsTo, BelongsToNone, HasRoom, HasRoomAtEnd, IsFull};

use crate::segment::{MOST, place, put, segment_of, value_in};
use std::alloc::{AllocError, Global};
use std::collections::{BTreeMap, VecDeque};
use std::ops::Bound;

// The segment to which a time belongs, by the time under which it stands.
pub(crate) fn start_for<V>(segments: &BTreeMap<i64, VecDeque<(i64, V)>>, time: i64) -> Option<i64>
    ensures { MatchOption result (BelongsToNone time segments.now.entries) (BelongsTo time segments.now.entries) }
{
    let mut earlier = segments.range((Bound::Unbounded, Bound::Included(time)));
    match earlier.next_back() {
        None => None,
        Some((start, _)) => Some(*start),
    }
}

/// The value at a time.
pub(crate) fn value_at<V>(segments: &BTreeMap<i64, VecDeque<(i64, V)>>, time: i64) -> Option<&V>
    requires laid { IsLaid segments.now.entries }
    requires sorted { IsStrictlySortedBy int_cmp (keys_of (joined segments.now.entries)) }
    ensures { option_copied result ≡ lookup (is_at (int_cmp time)) (joined segments.now.entries) }
{
    let Some(start) = start_for(segments, time) else {
        return None;
    };
    match segments.get(&start) {
        None => None,
        Some(segment) => value_in(segment, time),
    }
}

// Whether the segment under this start, to which a time belongs, has an entry of it or room for one.
fn has_room<V>(segments: &BTreeMap<i64, VecDeque<(i64, V)>>, start: i64, time: i64) -> bool
    requires belongs { BelongsTo time segments.now.entries start }
    requires laid { IsLaid segments.now.entries }
    requires sorted { IsStrictlySortedBy int_cmp (keys_of (joined segments.now.entries)) }
    ensures room { result ≡ true → HasRoom time start segments.now.entries }
    ensures full { result ≡ false → IsFull start segments.now.entries }
{
    let Some(segment) = segments.get(&start) else {
        return false;
    };
    if segment.len() < MOST {
        return true;
    }
    match place(segment, time) {
        Ok(_) => true,
        Err(_) => false,
    }
}

// Whether a time lies past all entries.
fn is_past_all<V>(segments: &BTreeMap<i64, VecDeque<(i64, V)>>, time: i64) -> bool
    requires { IsStrictlySortedBy int_cmp (keys_of (joined segments.now.entries)) }
    ensures { result ≡ true → AllBefore time (joined segments.now.entries) }
{
    let Some((_, segment)) = segments.last_key_value() else {
        return true;
    };
    let Some((last, _)) = segment.back() else {
        return false;
    };
    *last < time
}

// An entry before all segments, in one of its own. It stands under the least time, so that each earlier entry has
// its place there.
fn open_first<V: Drop>(
    segments: &mut BTreeMap<i64, VecDeque<(i64, V)>>,
    alloc: Global,
    time: i64,
    value: V,
) -> Result<(), AllocError>
    requires none { BelongsToNone time segments.old.entries }
    requires laid { IsLaid segments.old.entries }
    ensures ok { OnOk result (joined segments.new.entries ≡ insert_entry int_cmp (joined segments.old.entries) time value) }
    ensures err { OnErr result (joined segments.new.entries ≡ joined segments.old.entries) }
    ensures laid { IsLaid segments.new.entries }
{
    let segment = segment_of(alloc, time, value)?;
    segments.insert(i64::MIN, segment)?;
    Ok(())
}

// An entry past all others, in a segment of its own.
fn open_last<V: Drop>(
    segments: &mut BTreeMap<i64, VecDeque<(i64, V)>>,
    alloc: Global,
    time: i64,
    value: V,
) -> Result<(), AllocError>
    requires past { AllBefore time (joined segments.old.entries) }
    requires laid { IsLaid segments.old.entries }
    ensures ok { OnOk result (joined segments.new.entries ≡ insert_entry int_cmp (joined segments.old.entries) time value) }
    ensures err { OnErr result (joined segments.new.entries ≡ joined segments.old.entries) }
    ensures laid { IsLaid segments.new.entries }
{
    let segment = segment_of(alloc, time, value)?;
    segments.insert(time, segment)?;
    Ok(())
}

// Whether the last segment has room for one more entry.
fn has_room_at_end<V>(segments: &BTreeMap<i64, VecDeque<(i64, V)>>) -> bool
    ensures { result ≡ true → HasRoomAtEnd segments.now.entries }
{
    match segments.last_key_value() {
        None => false,
        Some((_, segment)) => segment.len() < MOST,
    }
}

// An entry past all others, in the last segment.
fn push_last<V: Drop>(
    segments: &mut BTreeMap<i64, VecDeque<(i64, V)>>,
    time: i64,
    value: V,
) -> Result<(), AllocError>
    requires past { AllBefore time (joined segments.old.entries) }
    requires room { HasRoomAtEnd segments.old.entries }
    requires laid { IsLaid segments.old.entries }
    ensures ok { OnOk result (joined segments.new.entries ≡ insert_entry int_cmp (joined segments.old.entries) time value) }
    ensures err { OnErr result (joined segments.new.entries ≡ joined segments.old.entries) }
    ensures laid { IsLaid segments.new.entries }
{
    let Some(last) = segments.last_entry() else {
        unreachable!()
    };
    last.into_mut().push_back((time, value))?;
    Ok(())
}

// An entry past all others, in the last segment or in one of its own.
fn append<V: Drop>(
    segments: &mut BTreeMap<i64, VecDeque<(i64, V)>>,
    alloc: Global,
    time: i64,
    value: V,
) -> Result<(), AllocError>
    requires past { AllBefore time (joined segments.old.entries) }
    requires laid { IsLaid segments.old.entries }
    ensures ok { OnOk result (joined segments.new.entries ≡ insert_entry int_cmp (joined segments.old.entries) time value) }
    ensures err { OnErr result (joined segments.new.entries ≡ joined segments.old.entries) }
    ensures laid { IsLaid segments.new.entries }
{
    if has_room_at_end(segments) {
        push_last(segments, time, value)
    } else {
        open_last(segments, alloc, time, value)
    }
}

// The later half of a full segment comes to stand under its own first time. Under the start that is answered stands
// the half to which a time of the segment belongs. At an `Err`, too, each entry is there.
fn split<V: Drop>(
    segments: &mut BTreeMap<i64, VecDeque<(i64, V)>>,
    start: i64,
    time: i64,
) -> Result<i64, AllocError>
    requires full { IsFull start segments.old.entries }
    requires belongs { BelongsTo time segments.old.entries start }
    requires laid { IsLaid segments.old.entries }
    requires sorted { IsStrictlySortedBy int_cmp (keys_of (joined segments.old.entries)) }
    ensures belongs { IfOk result (BelongsTo time segments.new.entries) }
    ensures room { IfOk result (λ half. HasRoom time half segments.new.entries) }
    ensures same { joined segments.new.entries ≡ joined segments.old.entries }
    ensures laid { IsLaid segments.new.entries }
{
    let Some(segment) = segments.get_mut(&start) else {
        unreachable!()
    };
    let later = segment.split_off(MOST / 2)?;
    let middle = later[0].0;
    match segments.insert(middle, later) {
        Ok(_) => Ok(half_for(start, middle, time)),
        Err(failed) => {
            // Its room is still there, so what was split off goes back.
            let (_, mut later) = failed.value;
            if let Some(segment) = segments.get_mut(&start) {
                let _ = segment.append(&mut later);
            }
            Err(AllocError)
        }
    }
}

// In which half of a segment a time belongs.
fn half_for(start: i64, middle: i64, time: i64) -> i64
    ensures { result ≡ cond (int_lt time middle) start middle }
{
    if time < middle { start } else { middle }
}

// An entry for a time, in the segment under this start to which the time belongs.
pub(crate) fn put_under<V: Drop>(
    segments: &mut BTreeMap<i64, VecDeque<(i64, V)>>,
    start: i64,
    time: i64,
    value: V,
) -> Result<Option<V>, AllocError>
    requires belongs { BelongsTo time segments.old.entries start }
    requires room { HasRoom time start segments.old.entries }
    requires laid { IsLaid segments.old.entries }
    requires sorted { IsStrictlySortedBy int_cmp (keys_of (joined segments.old.entries)) }
    ensures old { IfOk result (λ old. old ≡ lookup (is_at (int_cmp time)) (joined segments.old.entries)) }
    ensures ok { OnOk result (joined segments.new.entries ≡ insert_entry int_cmp (joined segments.old.entries) time value) }
    ensures err { OnErr result (joined segments.new.entries ≡ joined segments.old.entries) }
    ensures laid { IsLaid segments.new.entries }
{
    match segments.get_mut(&start) {
        None => unreachable!(),
        Some(segment) => put(segment, time, value),
    }
}

/// An entry for a time, in the place of the one that was there. At an `Err` no entry changed.
pub(crate) fn put_among<V: Drop>(
    segments: &mut BTreeMap<i64, VecDeque<(i64, V)>>,
    alloc: Global,
    time: i64,
    value: V,
) -> Result<Option<V>, AllocError>
    requires laid { IsLaid segments.old.entries }
    requires sorted { IsStrictlySortedBy int_cmp (keys_of (joined segments.old.entries)) }
    ensures old { IfOk result (λ old. old ≡ lookup (is_at (int_cmp time)) (joined segments.old.entries)) }
    ensures ok { OnOk result (joined segments.new.entries ≡ insert_entry int_cmp (joined segments.old.entries) time value) }
    ensures err { OnErr result (joined segments.new.entries ≡ joined segments.old.entries) }
    ensures laid { IsLaid segments.new.entries }
{
    if is_past_all(segments, time) {
        append(segments, alloc, time, value)?;
        return Ok(None);
    }
    let Some(start) = start_for(segments, time) else {
        open_first(segments, alloc, time, value)?;
        return Ok(None);
    };
    if has_room(segments, start, time) {
        return put_under(segments, start, time, value);
    }
    let half = split(segments, start, time)?;
    put_under(segments, half, time, value)
}

/// The first of all entries, taken from the front of the first segment. None of the others moves.
pub(crate) fn take_first<V: Drop>(
    segments: &mut BTreeMap<i64, VecDeque<(i64, V)>>,
) -> Option<(i64, V)>
    requires { IsLaid segments.old.entries }
    ensures first { result ≡ slice_get (joined segments.old.entries) 0 }
    ensures rest { joined segments.new.entries ≡ drop 1 (joined segments.old.entries) }
    ensures laid { IsLaid segments.new.entries }
{
    let Some((start, _)) = segments.first_key_value() else {
        return None;
    };
    let start = *start;
    let Some(segment) = segments.get_mut(&start) else {
        unreachable!()
    };
    let first = segment.pop_front();
    if segment.is_empty() {
        segments.pop_first();
    }
    first
}

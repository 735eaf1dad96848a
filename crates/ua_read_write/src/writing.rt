//! The service Write.

ghost use Rattle.std.specs.Prelude.{◌≡◌, ◌≢◌, ◌⊎◌, ◌++◌, true, length, Some, Ok, Err, IfErr, IfOk, IfSome, IsOk, OnOk, OnErr};
ghost use Rattle.std.specs.Result.{result_map_both};
ghost use Rattle.ua_read_write.specs.Writing.{stored_of, judged, change_of, accepted_of, status_of, nodes_after, changes_of, write_of, WroteSome};
ghost use Rattle.ua_space.specs.NodePlaces.{place_of};
ghost use Rattle.ua_space.specs.Values.{takes_at};
ghost use Rattle.ua_types.specs.Refusals.{GivesOrRefuses};
ghost use Rattle.ua_types.specs.declared.refusal.Refusal.TheVariants.{Memory};
ghost use Rattle.ua_types.specs.Plain.{IsPlainValue};
ghost use Rattle.ua_views.specs.Views.{or_none};

use crate::judging::{judged, made};
use collections::Near;
use std::alloc::{AllocError, Global};
use ua_service_messages::WriteValueView;
use ua_space::Space;
use ua_types::{Copyable, DataValue, Listed, Moment, NodeId, Refusal, Status, Variant};
use ua_views::{ArrayView, DataValueView};

/// A variable that was written.
#[derive(Debug, Drop)]
pub struct Change {
    /// The variable.
    pub node_id: NodeId,
    /// Its value as it was stored, with both times.
    pub value: DataValue,
}

/// What became of the values of a Write.
#[derive(Debug, Drop)]
pub struct Written {
    /// The outcome of each, in the order of the request.
    pub statuses: Listed<Status>,
    /// The accepted ones, in the order of the request. A variable that was written twice is there twice.
    pub changed: Listed<Change>,
}

// What a variable is to hold, as it is stored.
fn stored(value: Variant, written: &DataValueView<'_>, clock: Moment) -> DataValue
    ensures { result ≡ stored_of clock (record written.now { value = Some value }) }
{
    DataValue {
        value: Some(value),
        status: written.status,
        source_time: Some(written.source_time.unwrap_or(clock)),
        server_time: Some(clock),
    }
}

/// A value of a Write that was accepted, for a caller that stores it itself ([`Space::set_value_in`]), and looks at it before.
#[derive(Debug, Drop)]
pub struct AcceptedValue {
    /// The place of the variable that gets it ([`Space::place`]).
    pub place: usize,
    /// It as it is stored, with both times.
    pub value: DataValue,
}

/// A value of a Write as it is stored at this clock, with the place of the variable that gets it. Its node is searched for once.
///
/// It is judged where it stands in the request's bytes, and refused as [`write`] says. Only what is accepted is copied,
/// once, so a refusal takes no memory, nor does a value that holds no text, no bytes and no list; where an index range is
/// given, the list as it stands is copied too, which the value has whole. It is never refused as exhausted.
// Inlined into the loop over a request's list: a call for each element costs more than it does.
#[tactic(auto, unfolding(crate::specs::Writing::judged))]
#[inline(always)]
pub fn accepted<'a>(
    alloc: Global,
    space: &Space,
    near: &mut Near,
    clock: Moment,
    write: &WriteValueView<'a>,
) -> Result<AcceptedValue, Refusal>
    ensures answer { GivesOrRefuses (result_map_both (change_of write.now) (λ refusal. refusal) result) (accepted_of clock write.now (judged space.now.nodes write.now)) }
    ensures memory { result ≡ Err Memory → IsOk (judged space.now.nodes write.now) }
    ensures plain { IfSome write.now.value.value IsPlainValue → result ≢ Err Memory }
    ensures place { IfOk result (λ accepted. place_of write.now.node_id space.now.nodes ≡ Some accepted.place) }
    ensures taken { IfOk result (λ accepted. takes_at write.now.node_id accepted.value space.now.nodes ≡ true) }
{
    let Some(place) = space.place(near, &write.node_id) else {
        return Err(Refusal::Service(Status::BAD_NODE_ID_UNKNOWN));
    };
    let new = judged(space.node_in_order(place), write)?;
    // Told by a match, since `?` would move the value once more.
    match made(alloc, new) {
        Ok(value) => Ok(AcceptedValue {
            place,
            value: stored(value, &write.value, clock),
        }),
        Err(AllocError) => Err(Refusal::Memory),
    }
}

// Writes one value where it is accepted, and answers its outcome.
fn write_one<'a>(
    alloc: Global,
    space: &mut Space,
    near: &mut Near,
    clock: Moment,
    write: &WriteValueView<'a>,
    changed: &mut Vec<Change>,
) -> Result<Status, AllocError>
    ensures status { IfOk result (λ status. status ≡ status_of (judged space.old.nodes write.now)) }
    ensures nodes { OnOk result (space.new.nodes ≡ nodes_after clock write.now (judged space.old.nodes write.now) space.old.nodes) }
    ensures changed { OnOk result (changed.new.items ≡ changed.old.items ++ changes_of clock write.now (judged space.old.nodes write.now)) }
    ensures triples { space.new.triples ≡ space.old.triples }
    ensures refused { IfErr (judged space.old.nodes write.now) (λ status. result ≡ Ok status) }
    ensures err { OnErr result ((space.new.nodes ≡ space.old.nodes) ⊎ (space.new.nodes ≡ nodes_after clock write.now (judged space.old.nodes write.now) space.old.nodes)) }
{
    let AcceptedValue { place, value } = match accepted(alloc, space, near, clock, write) {
        Ok(accepted) => accepted,
        Err(Refusal::Service(status)) => return Ok(status),
        Err(Refusal::Memory) => return Err(AllocError),
        Err(Refusal::Exhausted) => unreachable!(),
    };
    let node_id = write.node_id.to_value(alloc)?;
    space.set_value_in(place, value.copy(alloc)?);
    changed.push(Change { node_id, value })?;
    Ok(Status::GOOD)
}

/// Does what the service Write is asked for, at this clock (IEC 62541-4, "Write"): gives variables new values,
/// one after the other, in the order of the request.
///
/// A value is refused in this order: no node has the id, `BAD_NODE_ID_UNKNOWN`; the node's class doesn't
/// have the attribute, `BAD_ATTRIBUTE_ID_INVALID`; it isn't the value, `BAD_NOT_WRITABLE`; an index range is
/// given that can't be read, `BAD_INDEX_RANGE_INVALID`; there is no value, `BAD_WRITE_NOT_SUPPORTED`; AccessLevel doesn't
/// let it be written, `BAD_NOT_WRITABLE`. Then, without an index range: it isn't of the variable's type and rank,
/// `BAD_TYPE_MISMATCH`; a list has to be flat, which is one that isn't null and has at most one dimension. With
/// one: the variable's value isn't a list that has all these elements, `BAD_INDEX_RANGE_NO_DATA`; what is written isn't a
/// flat list of the variable's type, `BAD_TYPE_MISMATCH`; it has another number of elements, `BAD_INDEX_RANGE_INVALID`.
/// The others are good. They are stored with the clock as the server's time, and as the source's where none was written; a
/// list is stored without dimensions, and elements that were written stand in the list in the place of others.
///
/// Where memory runs out, some of the values were written, from the first on.
pub fn write<'a>(
    alloc: Global,
    space: &mut Space,
    clock: Moment,
    values: ArrayView<'a, WriteValueView<'a>>,
) -> Result<Written, AllocError>
    ensures nodes { OnOk result (space.new.nodes ≡ (write_of clock space.old.nodes (or_none values.entry)).nodes) }
    ensures statuses { IfOk result (λ written. written.statuses ≡ (write_of clock space.old.nodes (or_none values.entry)).statuses) }
    ensures changed { IfOk result (λ written. written.changed ≡ (write_of clock space.old.nodes (or_none values.entry)).changed) }
    ensures count { IfOk result (λ written. length written.statuses ≡ length (or_none values.entry)) }
    ensures triples { space.new.triples ≡ space.old.triples }
    ensures err { OnErr result (WroteSome clock space.old.nodes space.new.nodes (or_none values.entry)) }
{
    let mut statuses = Vec::with_capacity(alloc, values.len())?;
    let mut changed = Vec::new(alloc);
    let mut near = Near::new();
    for value in values {
        let status = write_one(alloc, space, &mut near, clock, &value, &mut changed)?;
        statuses.push(status)?;
    }
    Ok(Written {
        statuses: Listed::from_vec(statuses),
        changed: Listed::from_vec(changed),
    })
}

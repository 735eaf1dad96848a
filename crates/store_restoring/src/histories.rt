//! Histories that were kept are put into a space.

ghost use Rattle.std.specs.Prelude.{◌≡◌, ◌<◌, length, Some, IfOk, OnOk};
ghost use Rattle.std.specs.Map.{keys_of};
ghost use Rattle.store_restoring.specs.Opened.{IsOpenedAt, IsWithin, closed};
ghost use Rattle.store_restoring.specs.Restored.{TakesPast, TakesPasts};

use crate::fitting::place_for;
use crate::opened::Opened;
use collections::Near;
use server_messages::KeptValue;
use std::alloc::{AllocError, Global};
use ua_space::Space;

// Opens the history of the node at a place, unless it is the one that is open.
fn opened_at(
    alloc: Global,
    space: &mut Space,
    current: Option<Opened>,
    place: usize,
) -> Result<Opened, AllocError>
    requires place { place < length space.old.nodes }
    requires within { IsWithin (length space.old.nodes) current }
    ensures opened { IfOk result (λ opened. IsOpenedAt place (closed space.old.nodes current) space.new.nodes opened) }
    ensures ids { OnOk result (keys_of space.new.nodes ≡ keys_of space.old.nodes) }
    ensures triples { space.new.triples ≡ space.old.triples }
{
    match current {
        None => {}
        Some(opened) => {
            if opened.place() == place {
                return Ok(opened);
            }
            opened.close(alloc, space)?;
        }
    }
    Opened::new(alloc, space, place)
}

// Puts the history that is open back in its place.
fn close(alloc: Global, space: &mut Space, current: Option<Opened>) -> Result<(), AllocError>
    requires { IsWithin (length space.old.nodes) current }
    ensures nodes { OnOk result (space.new.nodes ≡ closed space.old.nodes current) }
    ensures ids { keys_of space.new.nodes ≡ keys_of space.old.nodes }
    ensures triples { space.new.triples ≡ space.old.triples }
{
    match current {
        None => Ok(()),
        Some(opened) => opened.close(alloc, space),
    }
}

// Puts one value into the history of its node, where it fits.
fn put_past(
    alloc: Global,
    space: &mut Space,
    near: &mut Near,
    current: Option<Opened>,
    kept: KeptValue,
) -> Result<Option<Opened>, AllocError>
    requires { IsWithin (length space.old.nodes) current }
    ensures past { IfOk result (λ now. TakesPast kept (closed space.old.nodes current) (closed space.new.nodes now)) }
    ensures within { IfOk result (λ now. IsWithin (length space.old.nodes) now) }
    ensures ids { OnOk result (keys_of space.new.nodes ≡ keys_of space.old.nodes) }
    ensures triples { space.new.triples ≡ space.old.triples }
{
    let place = match place_for(space, near, &kept, true) {
        Ok(place) => place,
        Err(_) => return Ok(current),
    };
    let KeptValue { node_id: _, value } = kept;
    let Some(time) = value.source_time else {
        unreachable!();
    };
    let mut opened = opened_at(alloc, space, current, place)?;
    opened.insert(time, value)?;
    Ok(Some(opened))
}

/// Puts values into the histories of their nodes, those that fit.
///
/// The history of one node at a time is open. So they go by their nodes' ids, and each history is opened once.
pub(crate) fn restore_histories(
    alloc: Global,
    space: &mut Space,
    mut histories: Vec<KeptValue>,
) -> Result<(), AllocError>
    ensures histories { OnOk result (TakesPasts histories.items space.old.nodes space.new.nodes) }
    ensures ids { OnOk result (keys_of space.new.nodes ≡ keys_of space.old.nodes) }
    ensures triples { space.new.triples ≡ space.old.triples }
{
    let mut near = Near::new();
    let mut current = None;
    while let Some(kept) = histories.pop() {
        current = put_past(alloc, space, &mut near, current, kept)?;
    }
    close(alloc, space, current)?;
    Ok(())
}

//! What a store has kept is put into a space.

ghost use Rattle.std.specs.Prelude.{◌≡◌, ◌++◌, true, false, IfOk, OnOk};
ghost use Rattle.std.specs.Map.{keys_of};
ghost use Rattle.store_restoring.specs.Fitting.{left_out};
ghost use Rattle.store_restoring.specs.Restored.{AreRestored, TakesValue, TakesValues, kept_for};

use crate::fitting::{place_for, sort_out};
use crate::histories::restore_histories;
use crate::left_out::LeftOut;
use collections::Near;
use server_messages::{KeptValue, KeptValues};
use std::alloc::{AllocError, Global};
use ua_space::Space;

/// What became of the values that a store has kept.
#[derive(Debug, Drop)]
pub struct Restoring {
    /// Those that the space doesn't take: values first, and then those of histories, each in the order in which they came.
    pub left_out: Vec<LeftOut>,
}

// Makes one value its variable's, where it fits.
fn put_value(space: &mut Space, near: &mut Near, kept: KeptValue)
    ensures nodes { TakesValue kept space.old.nodes space.new.nodes }
    ensures ids { keys_of space.new.nodes ≡ keys_of space.old.nodes }
    ensures triples { space.new.triples ≡ space.old.triples }
{
    let Ok(place) = place_for(space, near, &kept, false) else {
        return;
    };
    let KeptValue { node_id: _, value } = kept;
    space.set_value_in(place, value);
}

// Makes the values their variables', those that fit.
fn restore_values(space: &mut Space, mut values: Vec<KeptValue>)
    ensures nodes { TakesValues values.items space.old.nodes space.new.nodes }
    ensures ids { keys_of space.new.nodes ≡ keys_of space.old.nodes }
    ensures triples { space.new.triples ≡ space.old.triples }
{
    let mut near = Near::new();
    while let Some(kept) = values.pop() {
        put_value(space, &mut near, kept);
    }
}

/// Puts what a store has kept into a space, before a server is made of it.
///
/// A value becomes its variable's, where the variable takes it ([`ua_space::Variable::takes`]). The values of a history are merged
/// with those that the node had: a kept one stands in the place of one at the same time. So the history rises by its
/// source times. What doesn't fit is left out, and answered. Nodes for which nothing was kept stay as they were, and so do all other
/// attributes and the references. Of two values that were kept for the same, the first counts.
///
/// At an `Err` nothing is known of the space's values and histories.
pub fn restore(alloc: Global, space: &mut Space, kept: KeptValues) -> Result<Restoring, AllocError>
    ensures nodes { OnOk result (AreRestored (kept_for space.old.nodes kept.values.items kept.histories.items) space.old.nodes space.new.nodes) }
    ensures left_out { IfOk result (λ restoring. restoring.left_out.items ≡ left_out false space.old.nodes kept.values.items ++ left_out true space.old.nodes kept.histories.items) }
    ensures ids { OnOk result (keys_of space.new.nodes ≡ keys_of space.old.nodes) }
    ensures triples { space.new.triples ≡ space.old.triples }
{
    let KeptValues { values, histories } = kept;
    let mut left_out = Vec::new(alloc);
    let values = sort_out(alloc, space, values, false, &mut left_out)?;
    let histories = sort_out(alloc, space, histories, true, &mut left_out)?;
    restore_values(space, values);
    restore_histories(alloc, space, histories)?;
    Ok(Restoring { left_out })
}

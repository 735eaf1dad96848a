//! A history into which values are put.

ghost use Rattle.std.specs.Prelude.{◌≡◌, ◌<◌, ℤ, Some, is_some, true, length, IfOk, OnOk};
ghost use Rattle.std.specs.Map.{keys_of, values_of};
ghost use Rattle.server_messages.specs.Kept.{put_at};
ghost use Rattle.ua_space.specs.Histories.{rises, with_history_in};
ghost use Rattle.store_restoring.specs.Opened.{IsOpenedAt, has_added, no_values};
ghost use Rattle.store_restoring.specs.Restored.{past_of};

use std::alloc::{AllocError, Global};
use std::collections::BTreeMap;
use std::marker::Model;
use ua_space::Space;
use ua_types::{DataValue, Listed, Moment};

/// The history of a node while values are put into it: it is moved out of the space, and later put back.
///
/// Contracts see the place of the node in the order of ids, and the values by rising time.
#[derive(Drop)]
pub(crate) struct Opened {
    place: usize,
    values: BTreeMap<i64, DataValue>,
}

impl Model for Opened {
    ghost use Rattle.store_restoring.specs.Opened.{IsOpened, OpenedState};

    ghost Value = { OpenedState };

    ghost view = { λ o. record { place = o.place; values = o.values.entries } };

    ghost invariant = { λ o. IsOpened (view o) };
}

impl Opened {
    // No values, for the node at a place.
    fn nothing(alloc: Global, place: usize) -> Opened
        ensures { result ≡ no_values place }
    {
        Opened {
            place,
            values: BTreeMap::new(alloc),
        }
    }

    /// The place of the node.
    pub(crate) fn place(&self) -> usize
        ensures { result ≡ self.now.place }
    {
        self.place
    }

    // Whether it has a value at a time.
    fn contains(&self, time: Moment) -> bool
        ensures { result ≡ is_some (past_of (values_of self.now.values) time.0) }
    {
        self.values.contains_key(&time.0)
    }

    /// Puts a value in at its time, in the place of one that is there.
    pub(crate) fn insert(&mut self, time: Moment, value: DataValue) -> Result<(), AllocError>
        requires { value.source_time ≡ Some time }
        ensures place { self.new.place ≡ self.old.place }
        ensures rising { OnOk result (rises (values_of self.new.values) ≡ true) }
        ensures past { OnOk result ((t : ℤ) → past_of (values_of self.new.values) t ≡ put_at value.source_time value (past_of (values_of self.old.values)) t) }
    {
        self.values.insert(time.0, value)?;
        Ok(())
    }

    // Adds a value that it had before, unless it has no time, or there is one at its time.
    fn add(&mut self, value: DataValue) -> Result<(), AllocError>
        ensures place { self.new.place ≡ self.old.place }
        ensures past { OnOk result ((t : ℤ) → past_of (values_of self.new.values) t ≡ has_added value (past_of (values_of self.old.values)) t) }
    {
        let Some(time) = value.source_time else {
            return Ok(());
        };
        if self.contains(time) {
            return Ok(());
        }
        self.insert(time, value)
    }

    // These values, of the node at a place.
    fn of(alloc: Global, place: usize, values: Vec<DataValue>) -> Result<Opened, AllocError>
        ensures place { IfOk result (λ opened. opened.place ≡ place) }
        ensures past { IfOk result (λ opened. (t : ℤ) → past_of (values_of opened.values) t ≡ past_of values.items t) }
    {
        let mut opened = Opened::nothing(alloc, place);
        for value in values {
            opened.add(value)?;
        }
        Ok(opened)
    }

    /// The history of the node at a place. It is moved out of the space.
    pub(crate) fn new(alloc: Global, space: &mut Space, place: usize) -> Result<Opened, AllocError>
        requires { place < length space.old.nodes }
        ensures opened { IfOk result (λ opened. IsOpenedAt place space.old.nodes space.new.nodes opened) }
        ensures ids { keys_of space.new.nodes ≡ keys_of space.old.nodes }
        ensures triples { space.new.triples ≡ space.old.triples }
    {
        let values = space.take_history(place, alloc);
        let opened = Opened::of(alloc, place, values.into_vec())?;
        Ok(opened)
    }

    // Its values, by rising time.
    fn into_values(self, alloc: Global) -> Result<Vec<DataValue>, AllocError>
        ensures { IfOk result (λ values. values.items ≡ values_of self.values) }
    {
        self.values.into_values().collect(alloc)
    }

    /// Puts the history back in its place.
    pub(crate) fn close(self, alloc: Global, space: &mut Space) -> Result<(), AllocError>
        requires { self.place < length space.old.nodes }
        ensures nodes { OnOk result (space.new.nodes ≡ with_history_in self.place (values_of self.values) space.old.nodes) }
        ensures ids { keys_of space.new.nodes ≡ keys_of space.old.nodes }
        ensures triples { space.new.triples ≡ space.old.triples }
    {
        let place = self.place;
        let values = self.into_values(alloc)?;
        space.put_history(place, Listed::from_vec(values));
        Ok(())
    }
}

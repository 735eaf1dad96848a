//! The nodes of a space in the order of their ids, found by a guess or by binary search.

ghost use Rattle.std.specs.Prelude.{◌≡◌, length, true, Ok, IfOk, option_map, slice_get};
ghost use Rattle.std.specs.Option.{option_copied};
ghost use Rattle.ua_types.specs.declared.node_id.NodeId.{NodeId};
ghost use Rattle.ua_space.specs.Histories.{history_in, with_history_in, without_history_in};
ghost use Rattle.ua_space.specs.Nodes.{node_at};
ghost use Rattle.ua_space.specs.NodePlaces.{IsPlaceOf, place_of, takes_in, with_value_in};
ghost use Rattle.ua_space.specs.Values.{takes_at, with_value};

use crate::guesses::Guesses;
use crate::node::{Node, NodeDetails};
use collections::Near;
use std::alloc::{AllocError, Global};
use std::cmp::Ordering;
use std::collections::BTreeMap;
use std::marker::Model;
use std::mem;
use ua_types::{DataValue, Listed, NodeId};
use ua_views::{NodeIdView, compare};

/// Nodes under their ids.
///
/// Which ids there are never changes: the table is sorted once, by the map that it is made from. A map can be
/// asked for an id of its own type alone, and the table for one that stands in the bytes of a request.
#[derive(Drop)]
pub(crate) struct NodeTable {
    // In the order of ids, none twice.
    entries: Vec<(NodeId, Node)>,
    // Where most of them stand.
    guesses: Guesses,
}

impl Model for NodeTable {
    ghost use Rattle.std.specs.List.Sorted.{IsStrictlySortedBy};
    ghost use Rattle.std.specs.Map.{keys_of};
    ghost use Rattle.ua_types.specs.NodeIdOrder.{id_cmp};
    ghost use Rattle.ua_space.specs.Nodes.{Nodes};

    ghost Value = { Nodes };

    ghost view = { λ t. t.entries.items };

    ghost invariant = { λ t. IsStrictlySortedBy id_cmp (keys_of t.entries.items) };
}

// Whether the node with an id stands at this place.
#[inline(always)]
fn stands_at(entries: &Vec<(NodeId, Node)>, place: usize, id: &NodeIdView<'_>) -> bool
    ensures { result ≡ true → IsPlaceOf id.now entries.now.items (Ok place) }
{
    match entries.get(place) {
        Some(entry) => compare(&entry.0, id) == Ordering::Equal,
        None => false,
    }
}

// Where the search for an id ends, which looks first where most nodes stand.
fn search(
    entries: &Vec<(NodeId, Node)>,
    guesses: &Guesses,
    id: &NodeIdView<'_>,
) -> Result<usize, usize>
    ensures { IsPlaceOf id.now entries.now.items result }
{
    let guess = guesses.place(id);
    if stands_at(entries, guess, id) {
        return Ok(guess);
    }
    entries.binary_search_by(|entry| compare(&entry.0, id))
}

// The same, looked for first at two other places at which its node is likely to be.
fn search_near(
    entries: &Vec<(NodeId, Node)>,
    guesses: &Guesses,
    near: &mut Near,
    id: &NodeIdView<'_>,
) -> Result<usize, usize>
    ensures { IsPlaceOf id.now entries.now.items result }
{
    let first = near.first();
    if stands_at(entries, first, id) {
        near.found(first);
        return Ok(first);
    }
    let second = near.second();
    if stands_at(entries, second, id) {
        near.found(second);
        return Ok(second);
    }
    let end = search(entries, guesses, id);
    if let Ok(place) = end {
        near.found(place);
    }
    end
}

// Gives the variable at this place a new value.
fn set_in(entries: &mut Vec<(NodeId, Node)>, place: usize, value: DataValue)
    requires { takes_in (slice_get entries.old.items place) value ≡ true }
    ensures { entries.new.items ≡ with_value_in place value entries.old.items }
{
    match entries.get_mut(place) {
        None => {}
        Some(entry) => match &mut entry.1.details {
            NodeDetails::Variable(variable) => variable.set(value),
            _ => {}
        },
    }
}

// Moves out what the node at this place has from before.
fn take_in(entries: &mut Vec<(NodeId, Node)>, place: usize, alloc: Global) -> Listed<DataValue>
    ensures taken { result ≡ history_in (slice_get entries.old.items place) }
    ensures left { entries.new.items ≡ without_history_in place entries.old.items }
{
    match entries.get_mut(place) {
        None => Listed::new(alloc),
        Some(entry) => mem::replace(&mut entry.1.history, Listed::new(alloc)),
    }
}

// Gives the node at this place these values from before.
fn put_in(entries: &mut Vec<(NodeId, Node)>, place: usize, values: Listed<DataValue>)
    ensures { entries.new.items ≡ with_history_in place values entries.old.items }
{
    match entries.get_mut(place) {
        None => {}
        Some(entry) => {
            let _ = mem::replace(&mut entry.1.history, values);
        }
    }
}

impl NodeTable {
    /// The nodes of a map.
    pub(crate) fn new(alloc: Global, nodes: BTreeMap<NodeId, Node>) -> Result<NodeTable, AllocError>
        ensures { IfOk result (λ table. table ≡ nodes.entries) }
    {
        let entries: Vec<(NodeId, Node)> = nodes.into_iter().collect(alloc)?;
        let guesses = Guesses::new(alloc, entries.as_slice())?;
        Ok(NodeTable { entries, guesses })
    }

    /// The place of the node with an id that is looked at in place, looked for first where it is likely to be.
    pub(crate) fn place(&self, near: &mut Near, id: &NodeIdView<'_>) -> Option<usize>
        ensures { result ≡ place_of id.now self.now }
    {
        match search_near(&self.entries, &self.guesses, near, id) {
            Err(_) => None,
            Ok(place) => Some(place),
        }
    }

    /// The node with an id that is looked at in place, looked for first where it is likely to be.
    pub(crate) fn find_near(&self, near: &mut Near, id: &NodeIdView<'_>) -> Option<&Node>
        ensures { option_copied result ≡ node_at id.now self.now }
    {
        match search_near(&self.entries, &self.guesses, near, id) {
            Err(_) => None,
            Ok(place) => self.node_in_order(place),
        }
    }

    /// The node with an id that is looked at in place.
    pub(crate) fn find(&self, id: &NodeIdView<'_>) -> Option<&Node>
        ensures { option_copied result ≡ node_at id.now self.now }
    {
        match search(&self.entries, &self.guesses, id) {
            Err(_) => None,
            Ok(place) => self.node_in_order(place),
        }
    }

    /// The node with this id.
    pub(crate) fn get(&self, id: &NodeId) -> Option<&Node>
        ensures { option_copied result ≡ node_at id.now self.now }
    {
        self.find(&NodeIdView::of(id))
    }

    /// Gives the variable with this id a new value.
    pub(crate) fn set_value(&mut self, id: &NodeId, value: DataValue)
        requires { takes_at id.now value self.old ≡ true }
        ensures { self.new ≡ with_value id.now value self.old }
    {
        match search(&self.entries, &self.guesses, &NodeIdView::of(id)) {
            Err(_) => {}
            Ok(place) => set_in(&mut self.entries, place, value),
        }
    }

    /// Gives the variable at a place in the order of ids a new value.
    pub(crate) fn set_value_in(&mut self, place: usize, value: DataValue)
        requires { takes_in (slice_get self.old place) value ≡ true }
        ensures { self.new ≡ with_value_in place value self.old }
    {
        set_in(&mut self.entries, place, value);
    }

    /// The node at a place in the order of ids.
    pub(crate) fn node_in_order(&self, place: usize) -> Option<&Node>
        ensures { option_copied result ≡ option_map (λ e. e.1) (slice_get self.now place) }
    {
        match self.entries.get(place) {
            None => None,
            Some(entry) => Some(&entry.1),
        }
    }

    /// Moves out what the node at a place has from before.
    pub(crate) fn take_history(&mut self, place: usize, alloc: Global) -> Listed<DataValue>
        ensures taken { result ≡ history_in (slice_get self.old place) }
        ensures left { self.new ≡ without_history_in place self.old }
    {
        take_in(&mut self.entries, place, alloc)
    }

    /// Gives the node at a place these values from before, in the place of those that it had.
    pub(crate) fn put_history(&mut self, place: usize, values: Listed<DataValue>)
        ensures { self.new ≡ with_history_in place values self.old }
    {
        put_in(&mut self.entries, place, values);
    }

    /// How many nodes there are.
    pub(crate) fn len(&self) -> usize
        ensures { result ≡ length self.now }
    {
        self.entries.len()
    }
}

//! The histories of nodes.

ghost use Rattle.std.specs.Prelude.{◌≡◌, ◌<◌, [], length, slice_get, None, option_map, IfOk, IsOk, OnOk, OnErr};
ghost use Rattle.std.specs.Option.{option_copied};
ghost use Rattle.ua_history.specs.HistoryLaws.{IsByTime};
ghost use Rattle.ua_history.specs.Intervals.{raw};
ghost use Rattle.ua_history.specs.Pages.{IsCut};
ghost use Rattle.ua_history.specs.Histories.{no_histories, kept, kept_in, time_of as time_of_spec, dropped, dropped_in, history_of, with_all, with_node_if, histories_begun, value_at as value_at_spec};
ghost use Rattle.ua_space.specs.Histories.{history_in, without_history_in, without_histories};

use crate::intervals::Interval;
use crate::pages::{Cut, page};
use collections::Segments;
use std::alloc::{AllocError, Global};
use std::collections::BTreeMap;
use std::marker::Model;
use ua_space::Space;
use ua_types::{Config, Copyable, DataValue, Listed, Moment, NodeId};

/// The values of one node, by the times of their source. Contracts see a list, by rising time.
#[derive(Drop)]
pub struct NodeHistory {
    values: Segments<DataValue>,
}

impl Model for NodeHistory {
    ghost use Rattle.std.specs.Prelude.{◌<◌, ◌^◌, length};
    ghost use Rattle.ua_history.specs.Histories.{Values};

    ghost Value = { Values };

    ghost view = { λ h. h.values };

    // As many as may be kept are counted in 32 bits.
    ghost invariant = { λ h. length h.values < 2 ^ 32 };
}

// The time of a value that is taken out.
fn time_of(taken: Option<(i64, DataValue)>) -> Option<Moment>
    ensures { result ≡ option_map time_of_spec taken }
{
    match taken {
        None => None,
        Some((time, _)) => Some(Moment(time)),
    }
}

impl NodeHistory {
    fn new(alloc: Global) -> NodeHistory
        ensures { result ≡ [] }
    {
        NodeHistory {
            values: Segments::new(alloc),
        }
    }

    fn soundness(&self)
        ensures { IsByTime self.now }
    {
        self.values.soundness();
    }

    // One more value, in the place of one that was there at that time. Where it is one too many, the one with the
    // least time goes; that time is answered.
    fn keep(
        &mut self,
        alloc: Global,
        most: u32,
        time: i64,
        value: DataValue,
    ) -> Result<Option<Moment>, AllocError>
        ensures ok { OnOk result (self.new ≡ kept_in most time value self.old) }
        ensures dropped { IfOk result (λ gone. gone ≡ dropped_in most time value self.old) }
        ensures err { OnErr result (self.new ≡ self.old) }
    {
        self.values.insert(alloc, time, value)?;
        if self.values.len() > most as usize {
            return Ok(time_of(self.values.pop_first()));
        }
        Ok(None)
    }
}

/// The values that variables had, by the times of their sources.
///
/// Contracts see a record: the most values of a node, and under each id that node's values by rising time.
#[derive(Drop)]
pub struct History {
    // How many values of a node are kept at most.
    most: u32,
    nodes: BTreeMap<NodeId, NodeHistory>,
}

impl Model for History {
    ghost use Rattle.ua_history.specs.Histories.{HistoryState};

    ghost Value = { HistoryState };

    ghost view = { λ h. record { most = h.most; nodes = h.nodes.entries } };
}

impl History {
    /// Nothing was kept yet, under this configuration. Takes no memory.
    pub fn new(alloc: Global, config: &Config) -> History
        ensures { result ≡ no_histories config.now }
    {
        History {
            most: config.history,
            nodes: BTreeMap::new(alloc),
        }
    }

    /// Keeps a value of a node by its source's time. One that has none isn't kept.
    ///
    /// A value that was kept for that time is replaced. Where the node has more values than may be kept, the one
    /// with the least time is dropped, be it the new one, and its time is answered. A value that is later than all
    /// others, as usual, shifts none of them. At an `Err` nothing changed.
    pub fn keep(
        &mut self,
        alloc: Global,
        node: &NodeId,
        value: DataValue,
    ) -> Result<Option<Moment>, AllocError>
        ensures ok { OnOk result (self.new ≡ kept self.old node.now value) }
        ensures dropped { IfOk result (λ gone. gone ≡ dropped self.old node.now value) }
        ensures untimed { value.source_time ≡ None → IsOk result }
        ensures err { OnErr result (self.new ≡ self.old) }
    {
        let Some(time) = value.source_time else {
            return Ok(None);
        };
        if let Some(values) = self.nodes.get_mut(node) {
            return values.keep(alloc, self.most, time.0, value);
        }
        let mut values = NodeHistory::new(alloc);
        let gone = values.keep(alloc, self.most, time.0, value)?;
        self.nodes.insert(node.copy(alloc)?, values)?;
        Ok(gone)
    }

    // Keeps the values that a node had before, one after the other.
    fn keep_all(
        &mut self,
        alloc: Global,
        node: &NodeId,
        values: Listed<DataValue>,
    ) -> Result<(), AllocError>
        ensures all { OnOk result (self.new ≡ with_all self.old node.now values) }
        ensures memory { values ≡ [] → IsOk result }
    {
        for value in values.into_vec() {
            self.keep(alloc, node, value)?;
        }
        Ok(())
    }

    // Keeps the values that the node at a place had before. They are moved out of the space.
    fn begin_with(
        &mut self,
        alloc: Global,
        space: &mut Space,
        place: usize,
    ) -> Result<(), AllocError>
        requires { place < length space.old.nodes }
        ensures history { OnOk result (self.new ≡ with_node_if self.old (slice_get space.old.nodes place)) }
        ensures memory { history_in (slice_get space.old.nodes place) ≡ [] → IsOk result }
        ensures nodes { space.new.nodes ≡ without_history_in place space.old.nodes }
        ensures triples { space.new.triples ≡ space.old.triples }
    {
        let values = space.take_history(place, alloc);
        match space.node_in_order(place) {
            None => Ok(()),
            Some(node) => self.keep_all(alloc, &node.id, values),
        }
    }

    /// The histories with which a server over this space begins: of each node the values that it had before
    /// ([`ua_space::Node::history`]), at most as many as the configuration lets be kept. They are moved out of the space. Takes
    /// no memory where no node has any. At an `Err` nothing is known of the space's values from before.
    pub fn beginning(
        alloc: Global,
        config: &Config,
        space: &mut Space,
    ) -> Result<History, AllocError>
        ensures histories { IfOk result (λ history. history ≡ histories_begun config.now space.old.nodes) }
        ensures memory { without_histories space.old.nodes ≡ space.old.nodes → IsOk result }
        ensures nodes { OnOk result (space.new.nodes ≡ without_histories space.old.nodes) }
        ensures triples { space.new.triples ≡ space.old.triples }
    {
        let mut history = History::new(alloc, config);
        for place in 0..space.node_count() {
            history.begin_with(alloc, space, place)?;
        }
        Ok(history)
    }

    /// Says that the times of a node's history rise. It does nothing.
    #[tactic(auto, using(crate::proofs::Keeping::none_by_time))]
    pub fn soundness(&self, node: &NodeId)
        ensures { IsByTime (history_of node.now self.now) }
    {
        match self.nodes.get(node) {
            None => {}
            Some(values) => values.soundness(),
        }
    }

    /// How many values of a node are kept.
    pub fn len(&self, node: &NodeId) -> usize
        ensures { result ≡ length (history_of node.now self.now) }
    {
        match self.nodes.get(node) {
            None => 0,
            Some(values) => values.values.len(),
        }
    }

    /// The value of a node that is kept for this time, found in logarithmic time.
    pub fn value_at(&self, node: &NodeId, time: Moment) -> Option<&DataValue>
        ensures { option_copied result ≡ value_at_spec time.0 (history_of node.now self.now) }
    {
        match self.nodes.get(node) {
            None => None,
            Some(values) => values.values.get(time.0),
        }
    }

    /// The first values of a node in an interval, in its order, each where it stands. The first of them is found in
    /// logarithmic time; then they are taken run by run. Of a run the value at its end is looked at, and of a segment the
    /// first and the last time, or those that a search meets where the interval ends in it. Where more are left,
    /// [`Interval::past`] the last one's time has them.
    #[tactic(auto, using(crate::proofs::Between::none_raw))]
    pub fn read<'a>(
        &'a self,
        alloc: Global,
        node: &NodeId,
        interval: Interval,
        count: u32,
    ) -> Result<Cut<'a>, AllocError>
        ensures { IfOk result (λ cut. IsCut cut count (raw (history_of node.now self.now) interval)) }
    {
        match self.nodes.get(node) {
            None => Ok(Cut::none(alloc)),
            Some(values) => page(alloc, &values.values, interval, count),
        }
    }
}

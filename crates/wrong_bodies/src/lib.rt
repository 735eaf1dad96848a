//! Calls of public functions of `ua_types`, `ua_binary`, `ua_space`, `ua_item_queue` and `ua_state_table`, each under the
//! clauses that its callers rely on. That the crate is proved says that the contracts below give these clauses; each edit in
//! `must-fail` puts a wrong body in the place of a call, which the clauses have to refuse. Nothing calls these functions.
#![tactic(auto)]

ghost use Rattle.std.specs.Prelude.{◌≡◌, ◌≢◌, ◌↔◌, ◌++◌, ◌∷◌, [], Err, OnOk, OnErr, IfOk, IsTrue, string_bytes, true};
ghost use Rattle.ua_types.specs.Answers.{Gives};
ghost use Rattle.ua_types.specs.IdTexts.{id_of, id_text};
ghost use Rattle.ua_types.specs.declared.id_texts.IdFault.TheVariants as id_fault;
ghost use Rattle.ua_binary.specs.Reading.{Reads};
ghost use Rattle.ua_binary.specs.Arrays.{array_reading};
ghost use Rattle.ua_binary.specs.NodeIds.{node_id_reading};
ghost use Rattle.ua_binary.specs.Texts.{ClaimsTooMany};
ghost use Rattle.ua_binary.specs.declared.fault.TakeFault.TheVariants as take_fault;
ghost use Rattle.ua_space.specs.Build.{space_of};
ghost use Rattle.ua_space.specs.Values.{takes_at, with_value};
ghost use Rattle.ua_space.specs.declared.fault.SpaceFault.TheVariants as space_fault;
ghost use Rattle.ua_item_queue.specs.ItemQueue.{sampled as value_sampled_into};
ghost use Rattle.ua_state_table.specs.Events.{fits};
ghost use Rattle.ua_state_table.specs.Sound.{IsSound};
ghost use Rattle.ua_state_table.specs.StateTable.{actions_of as actions_by_table, fires};

use std::alloc::{AllocError, Global};
use ua_binary::{Cursor, TakeFault, Wire};
use ua_item_queue::ItemQueue;
use ua_space::{Node, Space, SpaceFault, Triple};
use ua_state_table::{Action, RowId, TableEvent, Vars, actions_of, choose, reachable};
use ua_types::{Array, Config, DataValue, IdFault, Listed, NodeId, write_id};

/// As [`Listed::append`].
pub fn listed_append<T: Drop>(list: &mut Listed<T>, other: Listed<T>) -> Result<(), AllocError>
    ensures ok { OnOk result (list.new ≡ list.old ++ other) }
    ensures err { OnErr result (list.new ≡ list.old) }
{
    list.append(other)
}

/// As [`NodeId::parse`].
pub fn id_parsed(alloc: Global, text: &str) -> Result<NodeId, IdFault>
    ensures { Gives id_fault.Memory result (id_of text.now) }
{
    NodeId::parse(alloc, text)
}

/// As [`write_id`].
pub fn id_written(alloc: Global, id: &NodeId) -> Result<String, AllocError>
    ensures { IfOk result (λ text. string_bytes text ≡ id_text id.now) }
{
    write_id(alloc, id)
}

/// As [`Wire::take`] of a node id.
pub fn node_id_taken(alloc: Global, cursor: &mut Cursor<'_>) -> Result<NodeId, TakeFault>
    ensures reads { Reads result cursor.new (node_id_reading cursor.old) }
    ensures err { OnErr result (cursor.new ≡ cursor.old) }
{
    NodeId::take(alloc, cursor)
}

/// As [`Wire::take`] of a list.
pub fn list_taken<T: Wire>(alloc: Global, cursor: &mut Cursor<'_>) -> Result<Array<T>, TakeFault>
    ensures reads { Reads result cursor.new (array_reading T.reading cursor.old) }
    ensures claim { ClaimsTooMany cursor.old → result ≢ Err take_fault.Memory }
    ensures err { OnErr result (cursor.new ≡ cursor.old) }
{
    Array::<T>::take(alloc, cursor)
}

/// As [`Space::build`].
pub fn space_built(
    alloc: Global,
    config: &Config,
    nodes: Vec<Node>,
    triples: Vec<Triple>,
) -> Result<Space, SpaceFault>
    ensures { Gives space_fault.Memory result (space_of config.now nodes.items triples.items) }
{
    Space::build(alloc, config, nodes, triples)
}

/// As [`Space::set_value`].
pub fn value_set(space: &mut Space, id: &NodeId, value: DataValue)
    requires { takes_at id.now value space.old.nodes ≡ true }
    ensures nodes { space.new.nodes ≡ with_value id.now value space.old.nodes }
    ensures triples { space.new.triples ≡ space.old.triples }
{
    space.set_value(id, value);
}

/// As [`ItemQueue::sample`].
pub fn value_sampled<T: Drop>(queue: &mut ItemQueue<T>, value: T) -> Result<(), AllocError>
    ensures ok { OnOk result (queue.new ≡ value_sampled_into queue.old value) }
    ensures err { OnErr result (queue.new ≡ queue.old) }
{
    queue.sample(value)
}

/// As [`reachable`].
pub fn is_reachable(vars: &Vars) -> bool
    ensures { IsTrue result ↔ IsSound vars.now }
{
    reachable(vars)
}

/// As [`choose`].
pub fn row_chosen(vars: &Vars, event: TableEvent) -> RowId
    ensures { IsSound vars.now → IsTrue (fits vars.now.state event) → fires vars.now event ≡ result ∷ [] }
{
    choose(vars, event)
}

/// As [`actions_of`].
pub fn row_actions(row: RowId) -> &'static [Action]
    ensures { result.now ≡ actions_by_table row }
{
    actions_of(row)
}

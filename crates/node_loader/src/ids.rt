//! Node ids in a file: the texts of ids, whose namespace the server must have.

ghost use Rattle.std.specs.Prelude.{◌≡◌, ◌≤◌, Err, IfErr, IfOk};
ghost use Rattle.toml.specs.View.{table_view};
ghost use Rattle.ua_types.specs.NodeIds.{numeric_id};
ghost use Rattle.ua_types.specs.Answers.{Gives};
ghost use Rattle.node_loader.specs.declared.fault.Cause.TheVariants.{Memory};
ghost use Rattle.node_loader.specs.Ids.{id_within, id_at, id_or, id_if_any};
ghost use Rattle.node_loader.specs.Keys.{required_word, word_at};

use crate::fault::Cause;
use crate::keys::{required_word, word_at};
use std::alloc::Global;
use toml::Table;
use ua_types::{IdFault, Identifier, NodeId};

/// The id with this number in namespace 0.
pub(crate) fn standard_id(number: u32) -> NodeId
    ensures { result ≡ numeric_id 0 number }
{
    NodeId {
        namespace: 0,
        identifier: Identifier::Numeric(number),
    }
}

/// The id that a text says, of a namespace up to the highest.
#[tactic(auto, unfolding(crate::specs::Ids::id_within))]
pub(crate) fn id_within(alloc: Global, highest: u16, text: &str) -> Result<NodeId, Cause>
    ensures given { Gives Memory result (id_within highest text.now) }
    ensures served { IfOk result (λ id. id.namespace ≤ highest) }
{
    match NodeId::parse(alloc, text) {
        Ok(id) => {
            if id.namespace <= highest {
                Ok(id)
            } else {
                Err(Cause::OutOfRange)
            }
        }
        Err(IdFault::Memory) => Err(Cause::Memory),
        Err(_) => Err(Cause::BadId),
    }
}

/// The id at a key that the part must have.
#[tactic(auto, unfolding(crate::specs::Ids::id_at))]
pub(crate) fn id_at(alloc: Global, highest: u16, table: &Table, key: &str) -> Result<NodeId, Cause>
    ensures given { Gives Memory result (id_at highest key.now (table_view table.now)) }
    ensures refused { IfErr (required_word key.now (table_view table.now)) (λ cause. result ≡ Err cause) }
    ensures served { IfOk result (λ id. id.namespace ≤ highest) }
{
    let text = required_word(table, key)?;
    id_within(alloc, highest, text)
}

/// The id at a key, or the standard's id with this number.
#[tactic(auto, unfolding(crate::specs::Ids::id_or))]
pub(crate) fn id_or(
    alloc: Global,
    highest: u16,
    table: &Table,
    key: &str,
    fallback: u32,
) -> Result<NodeId, Cause>
    ensures given { Gives Memory result (id_or highest key.now fallback (table_view table.now)) }
    ensures refused { IfErr (word_at key.now (table_view table.now)) (λ cause. result ≡ Err cause) }
{
    match word_at(table, key)? {
        None => Ok(standard_id(fallback)),
        Some(text) => id_within(alloc, highest, text),
    }
}

/// The id at a key, if the part has it.
#[tactic(auto, unfolding(crate::specs::Ids::id_if_any))]
pub(crate) fn id_if_any(
    alloc: Global,
    highest: u16,
    table: &Table,
    key: &str,
) -> Result<Option<NodeId>, Cause>
    ensures given { Gives Memory result (id_if_any highest key.now (table_view table.now)) }
    ensures refused { IfErr (word_at key.now (table_view table.now)) (λ cause. result ≡ Err cause) }
{
    match word_at(table, key)? {
        None => Ok(None),
        Some(text) => match id_within(alloc, highest, text) {
            Ok(id) => Ok(Some(id)),
            Err(cause) => Err(cause),
        },
    }
}

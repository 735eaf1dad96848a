//! An entry of the list `reference`.

ghost use Rattle.std.specs.Prelude.{◌≡◌, None, Err, IfErr, IfSome};
ghost use Rattle.toml.specs.Data.{as_table};
ghost use Rattle.toml.specs.View.{table_view, view};
ghost use Rattle.ua_types.specs.Answers.{Gives};
ghost use Rattle.node_loader.specs.declared.fault.Cause.TheVariants as Cause;
ghost use Rattle.node_loader.specs.declared.fault.Cause.TheVariants.{Memory};
ghost use Rattle.node_loader.specs.Keys.{only};
ghost use Rattle.node_loader.specs.Reference.{reference_keys, reference_of, listed_reference_of};

use crate::fault::Cause;
use crate::ids::id_at;
use crate::keys::only;
use std::alloc::Global;
use toml::{Table, Value};
use ua_space::{Part, Triple};

#[tactic(auto, unfolding(crate::specs::Reference::reference_of))]
fn reference_in(alloc: Global, highest: u16, part: Part, table: &Table) -> Result<Triple, Cause>
    ensures given { Gives Memory result (reference_of highest part (table_view table.now)) }
    ensures refused { IfErr (only reference_keys (table_view table.now)) (λ cause. result ≡ Err cause) }
{
    only(&["from", "type", "to"], table)?;
    let source = id_at(alloc, highest, table, "from")?;
    let reference_type = id_at(alloc, highest, table, "type")?;
    let target = id_at(alloc, highest, table, "to")?;
    Ok(Triple {
        source,
        reference_type,
        target,
        part,
    })
}

/// One entry of the list.
pub(crate) fn reference(
    alloc: Global,
    highest: u16,
    part: Part,
    value: &Value,
) -> Result<Triple, Cause>
    ensures given { Gives Memory result (listed_reference_of highest part (as_table (view value.now))) }
    ensures refused { as_table (view value.now) ≡ None → result ≡ Err Cause.WrongKind }
    ensures keys { IfSome (as_table (view value.now)) (λ ms. IfErr (only reference_keys ms) (λ cause. result ≡ Err cause)) }
{
    match value.as_table() {
        Some(table) => reference_in(alloc, highest, part, table),
        None => Err(Cause::WrongKind),
    }
}

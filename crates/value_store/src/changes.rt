//! What values that are stored make of the rows.

ghost use Rattle.std.specs.Prelude.{◌≡◌, IfErr, IfOk, OnOk};
ghost use Rattle.std.specs.List.{AllByRecursion};
ghost use Rattle.ua_types.specs.IdTexts.{IsNamed};
ghost use Rattle.server_messages.specs.Kept.{put_at, dropped_at, with_stored, AreAlike};
ghost use Rattle.value_store.specs.Faults.{IsOfRow};
ghost use Rattle.value_store.specs.Keeping.{HasValue, HasHistory, Grows, AreChanges};

use crate::fault::Fault;
use crate::forms::{key_of, row_of};
use crate::rows::{RowChange, TableName};
use server_messages::Stored;
use std::alloc::Global;
use ua_types::{Moment, NodeId};

// The variable has the value.
fn push_value(alloc: Global, stored: &Stored, changes: &mut Vec<RowChange>) -> Result<(), Fault>
    ensures changes { OnOk result (Grows (HasValue stored.now.node_id stored.now.value) changes.old.items changes.new.items) }
    ensures fault { IfErr result IsOfRow }
    ensures named { IfErr result (λ e. e ≡ Fault.Unreadable → IsNamed stored.now.node_id.identifier → ⊥) }
{
    let row = row_of(alloc, &stored.node_id, &stored.value)?;
    changes.push(RowChange::Put(TableName::Value, row))?;
    Ok(())
}

// The variable had the value at its source's time.
fn push_past(alloc: Global, stored: &Stored, changes: &mut Vec<RowChange>) -> Result<(), Fault>
    ensures changes { OnOk result (Grows (HasHistory stored.now.node_id (put_at stored.now.value.source_time stored.now.value)) changes.old.items changes.new.items) }
    ensures fault { IfErr result IsOfRow }
    ensures named { IfErr result (λ e. e ≡ Fault.Unreadable → IsNamed stored.now.node_id.identifier → ⊥) }
{
    match stored.value.source_time {
        None => Ok(()),
        Some(_) => {
            let row = row_of(alloc, &stored.node_id, &stored.value)?;
            changes.push(RowChange::Put(TableName::History, row))?;
            Ok(())
        }
    }
}

// The value of a time falls out of the variable's history.
fn push_dropped(
    alloc: Global,
    id: &NodeId,
    dropped: Option<Moment>,
    changes: &mut Vec<RowChange>,
) -> Result<(), Fault>
    ensures changes { OnOk result (Grows (HasHistory id.now (dropped_at dropped)) changes.old.items changes.new.items) }
    ensures fault { IfErr result IsOfRow }
    ensures named { IfErr result (λ e. e ≡ Fault.Unreadable → IsNamed id.now.identifier → ⊥) }
{
    match dropped {
        None => Ok(()),
        Some(time) => {
            let key = key_of(alloc, id, time)?;
            changes.push(RowChange::Forget(key))?;
            Ok(())
        }
    }
}

fn push_all(alloc: Global, stored: &Stored, changes: &mut Vec<RowChange>) -> Result<(), Fault>
    ensures changes { OnOk result (Grows (λ a b. AreAlike (with_stored a stored.now) b) changes.old.items changes.new.items) }
    ensures fault { IfErr result IsOfRow }
    ensures named { IfErr result (λ e. e ≡ Fault.Unreadable → IsNamed stored.now.node_id.identifier → ⊥) }
{
    push_value(alloc, stored, changes)?;
    if !stored.is_historical {
        return Ok(());
    }
    push_past(alloc, stored, changes)?;
    push_dropped(alloc, &stored.node_id, stored.dropped, changes)
}

/// The changes of rows that keep these, in their order.
pub fn changes_of(alloc: Global, stored: &[Stored]) -> Result<Vec<RowChange>, Fault>
    ensures changes { IfOk result (λ changes. AreChanges stored.now changes.items) }
    ensures fault { IfErr result IsOfRow }
    ensures named { IfErr result (λ e. e ≡ Fault.Unreadable → AllByRecursion (λ s. IsNamed s.node_id.identifier) stored.now → ⊥) }
{
    let mut changes = Vec::new(alloc);
    'each: for one in stored {
        push_all(alloc, one, &mut changes)?;
    }
    Ok(changes)
}

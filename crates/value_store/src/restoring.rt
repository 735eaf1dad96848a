//! Rows that were read back, as the values that they say.

ghost use Rattle.std.specs.Prelude.{◌≡◌, ◌<◌, ◌+◌, IfErr, IfOk, IsTrue};
ghost use Rattle.std.specs.List.{AllZip};
ghost use Rattle.std.specs.declared.cmp.Ordering.TheVariants.{Less};
ghost use Rattle.std.specs.List.Sorted.{IsPermutation};
ghost use Rattle.server_messages.specs.Kept.{AreAlike, read_back};
ghost use Rattle.sqlite.specs.Tree.{Trees};
ghost use Rattle.value_store.specs.Faults.{IsOfRow};
ghost use Rattle.value_store.specs.Model.{AreAll};
ghost use Rattle.value_store.specs.Keeping.{kept_at};
ghost use Rattle.value_store.specs.Restoring.{IsOf, order_in as order_in_spec, source_ticks as source_ticks_spec, Rise};

use crate::fault::Fault;
use crate::forms::{id_in, value_of};
use crate::reading::StoredRows;
use crate::rows::{StoredRow, TableName};
use server_messages::{KeptValue, KeptValues};
use std::alloc::Global;
use std::cmp::Ordering;
use ua_types::Moment;

fn value_said(alloc: Global, row: &StoredRow) -> Result<KeptValue, Fault>
    ensures value { IfOk result (IsOf row.now) }
    ensures fault { IfErr result IsOfRow }
{
    let node_id = id_in(alloc, row.node.as_str())?;
    let value = value_of(alloc, row)?;
    Ok(KeptValue { node_id, value })
}

fn values_said(alloc: Global, rows: &[StoredRow]) -> Result<Vec<KeptValue>, Fault>
    ensures values { IfOk result (λ kept. AllZip IsOf rows.now kept.items) }
    ensures fault { IfErr result IsOfRow }
{
    let mut kept = Vec::new(alloc);
    'each: for row in rows {
        let said = value_said(alloc, row)?;
        kept.push(said)?;
    }
    Ok(kept)
}

fn source_ticks(moment: Option<Moment>) -> i64
    ensures { result ≡ source_ticks_spec moment }
{
    match moment {
        None => 0,
        Some(moment) => moment.0,
    }
}

// The order of a table's keys: that of ids, and in `history` then that of times.
fn order_in(table: TableName, a: &KeptValue, b: &KeptValue) -> Ordering
    ensures { result ≡ order_in_spec table a.now b.now }
{
    let ids = a.node_id.cmp(&b.node_id);
    match table {
        TableName::Value => ids,
        TableName::History => {
            let first = source_ticks(a.value.source_time);
            let second = source_ticks(b.value.source_time);
            ids.then(first.cmp(&second))
        }
    }
}

fn is_less(order: Ordering) -> bool
    ensures { IsTrue result → order ≡ Less }
{
    match order {
        Ordering::Less => true,
        Ordering::Equal => false,
        Ordering::Greater => false,
    }
}

// Whether each stands before the next.
fn rise(table: TableName, kept: &[KeptValue]) -> bool
    ensures { IsTrue result → Rise (order_in_spec table) kept.now }
{
    'each: for place in 1..kept.len() {
        let order = order_in(table, &kept[place - 1], &kept[place]);
        if !is_less(order) {
            return false;
        }
    }
    true
}

fn sort(table: TableName, kept: &mut [KeptValue])
    ensures { IsPermutation kept.old kept.new }
{
    kept.sort_unstable_by(|a, b| order_in(table, a, b));
}

// In the order of the table's keys. Two of one key are refused.
fn in_order(table: TableName, kept: Vec<KeptValue>) -> Result<Vec<KeptValue>, Fault>
    ensures moved { IfOk result (λ values. IsPermutation kept.items values.items) }
    ensures rise { IfOk result (λ values. Rise (order_in_spec table) values.items) }
    ensures fault { IfErr result IsOfRow }
{
    let mut values = kept;
    sort(table, &mut values);
    if !rise(table, &values) {
        return Err(Fault::Unreadable);
    }
    Ok(values)
}

/// What all of the rows say, in the order of ids and times. Two rows of one key say nothing.
pub fn restored(alloc: Global, rows: &StoredRows) -> Result<KeptValues, Fault>
    ensures restored { IfOk result (λ kept. (trees : Trees) → AreAll trees rows.now.values.items rows.now.pasts.items → AreAlike (read_back kept.values.items kept.histories.items) (kept_at trees)) }
    ensures fault { IfErr result IsOfRow }
{
    let said = values_said(alloc, &rows.values)?;
    let past = values_said(alloc, &rows.pasts)?;
    let values = in_order(TableName::Value, said)?;
    let histories = in_order(TableName::History, past)?;
    Ok(KeptValues { values, histories })
}

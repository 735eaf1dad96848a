//! All that is kept, read back.

ghost use Rattle.std.specs.Prelude.{◌≡◌, [], ◌∷◌, map, IsPermutation, IfErr, IfOk, OnOk, IsTrue};
ghost use Rattle.sqlite.specs.declared.types.Value.TheVariants.{Int};
ghost use Rattle.sqlite.specs.Order.{column};
ghost use Rattle.sqlite.specs.State.{HasCleanDisk, Survives, IsUnchanged};
ghost use Rattle.sqlite.specs.Held.{state};
ghost use Rattle.value_store.specs.Faults.{HasTables};
ghost use Rattle.value_store.specs.Rows.{row_in as row_in_spec, columns, with_number, IsAbove};
ghost use Rattle.value_store.specs.Laws.{rows_text as rows_text_spec};
ghost use Rattle.value_store.specs.Model.{tree_of, AreNumbered, AreRowsOf, AreAll};
ghost use Rattle.value_store.specs.Steps.{IsReady};
ghost use Rattle.value_store.specs.Tables.{store_schema};

use crate::fault::Fault;
use crate::rows::{StoredRow, TableName};
use crate::tables::prepare;
use sqlite::{Alter, Connection, Error, Row};
use std::alloc::Global;

/// All that a store holds, each value once.
#[derive(Debug, Drop)]
pub struct StoredRows {
    pub values: Vec<StoredRow>,
    pub pasts: Vec<StoredRow>,
}

// The text that shows the rows of a table, each with its number.
fn rows_text(table: TableName) -> &'static str
    ensures { result.now ≡ rows_text_spec table }
{
    match table {
        TableName::Value => {
            "SELECT rowid, node, type, value, status, source_time, server_time FROM value"
        }
        TableName::History => {
            "SELECT rowid, node, time, type, value, status, server_time FROM history"
        }
    }
}

// The rows of a table with their numbers, in some order.
fn shown_rows<S: Alter>(conn: &mut Connection<S>, table: TableName) -> Result<Vec<Row>, Error>
    requires tables { HasCleanDisk (state S.Store conn.old) → (state S.Store conn.old).now.schema ≡ store_schema }
    ensures rows { HasCleanDisk (state S.Store conn.new) → IfOk result (λ rows. IsPermutation (map with_number ((state S.Store conn.old).now.trees (tree_of table))) rows.items) }
    ensures same { HasCleanDisk (state S.Store conn.new) → OnOk result (IsUnchanged (state S.Store conn.old) (state S.Store conn.new)) }
    ensures crash { Survives (state S.Store conn.old) (state S.Store conn.new) (λ _. ⊥) }
{
    conn.query_all(rows_text(table), &[])
}

fn is_above(number: i64, last: Option<i64>) -> bool
    ensures { IsTrue result → IsAbove last number }
{
    match last {
        None => true,
        Some(last) => last < number,
    }
}

// Whether the numbers rise.
fn numbers_rise(rows: &[Row]) -> Result<bool, Error>
    ensures { IfOk result (λ rise. IsTrue rise → AreNumbered rows.now) }
{
    let mut last: Option<i64> = None;
    'each: for row in rows {
        let number: i64 = row.get(0)?;
        if !is_above(number, last) {
            return Ok(false);
        }
        last = Some(number);
    }
    Ok(true)
}

// What a row of a table tells.
fn row_in(table: TableName, row: &Row) -> Result<StoredRow, Error>
    ensures { IfOk result (λ stored. columns row.now ≡ row_in_spec table stored) }
{
    match table {
        TableName::Value => Ok(StoredRow {
            node: row.get(1)?,
            kind: row.get(2)?,
            value: row.get(3)?,
            status: row.get(4)?,
            source_time: row.get(5)?,
            server_time: row.get(6)?,
        }),
        TableName::History => Ok(StoredRow {
            node: row.get(1)?,
            source_time: Some(row.get(2)?),
            kind: row.get(3)?,
            value: row.get(4)?,
            status: row.get(5)?,
            server_time: row.get(6)?,
        }),
    }
}

fn rows_told(alloc: Global, table: TableName, rows: &[Row]) -> Result<Vec<StoredRow>, Fault>
    ensures rows { IfOk result (λ stored. map (row_in_spec table) stored.items ≡ map columns rows.now) }
    ensures fault { IfErr result HasTables }
{
    let mut stored = Vec::new(alloc);
    'each: for row in rows {
        stored.push(row_in(table, row)?)?;
    }
    Ok(stored)
}

// What the rows of a table tell, in some order, where each has a number of its own.
fn rows_in<S: Alter>(
    alloc: Global,
    conn: &mut Connection<S>,
    table: TableName,
) -> Result<Vec<StoredRow>, Fault>
    requires tables { HasCleanDisk (state S.Store conn.old) → (state S.Store conn.old).now.schema ≡ store_schema }
    ensures all { HasCleanDisk (state S.Store conn.new) → IfOk result (λ rows. AreRowsOf table (state S.Store conn.old).now.trees rows.items) }
    ensures numbered { HasCleanDisk (state S.Store conn.new) → OnOk result (AreNumbered ((state S.Store conn.old).now.trees (tree_of table))) }
    ensures same { HasCleanDisk (state S.Store conn.new) → OnOk result (IsUnchanged (state S.Store conn.old) (state S.Store conn.new)) }
    ensures crash { Survives (state S.Store conn.old) (state S.Store conn.new) (λ _. ⊥) }
    ensures fault { IfErr result HasTables }
{
    let rows = shown_rows(conn, table)?;
    if !numbers_rise(&rows)? {
        return Err(Fault::Unreadable);
    }
    rows_told(alloc, table, &rows)
}

/// All that is kept, in some order. Whoever has read it back may keep turns.
pub fn read_back<S: Alter>(alloc: Global, conn: &mut Connection<S>) -> Result<StoredRows, Fault>
    requires tables { HasCleanDisk (state S.Store conn.old) → (state S.Store conn.old).now.schema ≡ store_schema }
    ensures all { HasCleanDisk (state S.Store conn.new) → IfOk result (λ stored. AreAll (state S.Store conn.old).now.trees stored.values.items stored.pasts.items) }
    ensures ready { OnOk result (IsReady (state S.Store conn.new)) }
    ensures same { HasCleanDisk (state S.Store conn.new) → OnOk result (IsUnchanged (state S.Store conn.old) (state S.Store conn.new)) }
    ensures crash { Survives (state S.Store conn.old) (state S.Store conn.new) (λ _. ⊥) }
    ensures fault { IfErr result HasTables }
{
    let values = rows_in(alloc, conn, TableName::Value)?;
    let pasts = rows_in(alloc, conn, TableName::History)?;
    Ok(StoredRows { values, pasts })
}

/// Makes the two tables where the database has no table, and reads back all that it holds. Whoever has begun may keep turns.
///
/// A database with other tables is refused, and left as it was.
pub fn begin<S: Alter>(alloc: Global, conn: &mut Connection<S>) -> Result<StoredRows, Fault>
    ensures all { HasCleanDisk (state S.Store conn.new) → IfOk result (λ stored. AreAll (state S.Store conn.new).now.trees stored.values.items stored.pasts.items) }
    ensures ready { OnOk result (IsReady (state S.Store conn.new)) }
    // Where the tables are there, nothing is changed.
    ensures same { HasCleanDisk (state S.Store conn.new) → (state S.Store conn.old).now.schema ≡ store_schema → OnOk result (IsUnchanged (state S.Store conn.old) (state S.Store conn.new)) }
    ensures fault { (state S.Store conn.old).now.schema ≡ store_schema → IfErr result HasTables }
{
    if !prepare(conn)? {
        return Err(Fault::OtherTables);
    }
    read_back(alloc, conn)
}

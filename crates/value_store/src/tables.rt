//! Whether a database has the two tables, and nothing else.

ghost use Rattle.std.specs.Prelude.{◌≡◌, ◌≢◌, ◌==◌, length, [], ◌∷◌, true, false, None, Ok, IfErr, IsTrue, OnOk};
ghost use Rattle.value_store.specs.Faults.{IsOfDatabase};
ghost use Rattle.value_store.specs.Tables.{value_table, history_table, store_schema, plain_column};
ghost use Rattle.sqlite_value.specs.Keys.{plain};
ghost use Rattle.sqlite.specs.Held.{state};

use crate::fault::Fault;
use sqlite::{Alter, Connection, Error, ErrorCode};
use sqlite_schema::schema::{Column, Index, Kind, Schema, Table};
use sqlite_value::keys::{Collation, Order};
use sqlite_value::value::Value;

fn is_plain(column: &Column, name: &str, kind: Kind, not_null: bool) -> bool
    ensures plain { IsTrue result → column.now ≡ plain_column name.now kind not_null }
    ensures all { column.now ≡ plain_column name.now kind not_null → IsTrue result }
{
    column.name.as_slice() == name.as_bytes()
        && column.kind == kind
        && column.is_strict
        && column.not_null == not_null
        && matches!(column.default, Value::Null)
        && column.collation == Collation::Binary
}

fn has_value_columns(table: &Table) -> bool
    ensures columns { IsTrue result → table.now.columns ≡ value_table.columns }
    ensures all { table.now.columns ≡ value_table.columns → IsTrue result }
{
    let [node, kind, value, status, source, server] = table.columns.as_slice() else {
        return false;
    };
    let first = is_plain(node, "node", Kind::Text, true);
    let second = is_plain(kind, "type", Kind::Integer, true);
    let third = is_plain(value, "value", Kind::Any, false);
    let fourth = is_plain(status, "status", Kind::Integer, true);
    let fifth = is_plain(source, "source_time", Kind::Integer, false);
    let sixth = is_plain(server, "server_time", Kind::Integer, false);
    first & second & third & fourth & fifth & sixth
}

fn has_history_columns(table: &Table) -> bool
    ensures columns { IsTrue result → table.now.columns ≡ history_table.columns }
    ensures all { table.now.columns ≡ history_table.columns → IsTrue result }
{
    let [node, time, kind, value, status, server] = table.columns.as_slice() else {
        return false;
    };
    let first = is_plain(node, "node", Kind::Text, true);
    let second = is_plain(time, "time", Kind::Integer, true);
    let third = is_plain(kind, "type", Kind::Integer, true);
    let fourth = is_plain(value, "value", Kind::Any, false);
    let fifth = is_plain(status, "status", Kind::Integer, true);
    let sixth = is_plain(server, "server_time", Kind::Integer, false);
    first & second & third & fourth & fifth & sixth
}

// Whether these places are the one key.
fn has_key(table: &Table, places: &[usize]) -> bool
    ensures key { IsTrue result → table.now.uniques ≡ places.now ∷ [] }
    ensures all { table.now.uniques ≡ places.now ∷ [] → IsTrue result }
{
    match table.uniques.as_slice() {
        [key] => key.as_slice() == places,
        _ => false,
    }
}

// Whether the one key rises, in the order of bytes.
fn is_ordered(table: &Table) -> bool
    ensures order { IsTrue result → table.now.orders ≡ plain ∷ [] }
    ensures all { table.now.orders ≡ plain ∷ [] → IsTrue result }
{
    match table.orders.as_slice() {
        [order] => *order == Order::PLAIN,
        _ => false,
    }
}

// Whether it has no rule beside its key.
fn is_bare(table: &Table) -> bool
    ensures bare { IsTrue result → (table.now.checks ≡ []) × (table.now.references ≡ []) × (table.now.computed ≡ []) × (table.now.stamps ≡ value_table.stamps) × (table.now.is_counted ≡ false) }
    ensures all { table.now.checks ≡ [] → table.now.references ≡ [] → table.now.computed ≡ [] → table.now.stamps ≡ value_table.stamps → table.now.is_counted ≡ false → IsTrue result }
{
    table.checks.roots.is_empty()
        && table.references.is_empty()
        && table.computed.is_empty()
        && table.stamps.places.is_empty()
        && table.stamps.terms.roots.is_empty()
        && table.stamps.formats.is_empty()
        && !table.is_counted
}

// Whether it has the name, the tree and the key.
fn is_keyed(table: &Table, name: &str, tree: u32, places: &[usize]) -> bool
    ensures keyed { IsTrue result → (table.now.name ≡ name.now) × (table.now.tree ≡ tree) × (table.now.key ≡ None) × (table.now.primary ≡ places.now) × (table.now.uniques ≡ places.now ∷ []) × (table.now.orders ≡ plain ∷ []) }
    ensures all { table.now.name ≡ name.now → table.now.tree ≡ tree → table.now.key ≡ None → table.now.primary ≡ places.now → table.now.uniques ≡ places.now ∷ [] → table.now.orders ≡ plain ∷ [] → IsTrue result }
{
    let named = table.name.as_slice() == name.as_bytes();
    let numbered = table.tree == tree;
    let rowid = table.key.is_none();
    let primary = table.primary.as_slice() == places;
    let unique = has_key(table, places);
    let ordered = is_ordered(table);
    named & numbered & rowid & primary & unique & ordered
}

fn is_value(table: &Table) -> bool
    ensures table { IsTrue result → table.now ≡ value_table }
    ensures all { table.now ≡ value_table → IsTrue result }
{
    let keyed = is_keyed(table, "value", 0, &[1]);
    let columns = has_value_columns(table);
    let bare = is_bare(table);
    keyed & columns & bare
}

fn is_history(table: &Table) -> bool
    ensures table { IsTrue result → table.now ≡ history_table }
    ensures all { table.now ≡ history_table → IsTrue result }
{
    let keyed = is_keyed(table, "history", 2, &[1, 2]);
    let columns = has_history_columns(table);
    let bare = is_bare(table);
    keyed & columns & bare
}

// Whether it is the index of a key, by its parts.
fn is_key(index: &Index, name: &str, tree: u32, table: u32, places: &[usize]) -> bool
    ensures key { IsTrue result → index.now ≡ record { name = name.now; tree = tree; table = table; columns = places.now; order = plain; is_unique = true } }
    ensures all { index.now ≡ record { name = name.now; tree = tree; table = table; columns = places.now; order = plain; is_unique = true } → IsTrue result }
{
    index.name.as_slice() == name.as_bytes()
        && index.tree == tree
        && index.table == table
        && index.columns.as_slice() == places
        && index.order == Order::PLAIN
        && index.is_unique
}

fn has_keys(schema: &Schema) -> bool
    ensures keys { IsTrue result → schema.now.indexes ≡ store_schema.indexes }
    ensures all { schema.now.indexes ≡ store_schema.indexes → IsTrue result }
{
    match schema.indexes.as_slice() {
        [value, history] => {
            is_key(value, "sqlite_autoindex_value_1", 1, 0, &[1])
                && is_key(history, "sqlite_autoindex_history_1", 3, 2, &[1, 2])
        }
        _ => false,
    }
}

fn has_tables(schema: &Schema) -> bool
    ensures tables { IsTrue result → schema.now.tables ≡ store_schema.tables }
    ensures all { schema.now.tables ≡ store_schema.tables → IsTrue result }
{
    match schema.tables.as_slice() {
        [value, history] => is_value(value) && is_history(history),
        _ => false,
    }
}

/// Whether the database has the two tables with their keys, and no other table, index or view.
pub fn is_store(schema: &Schema) -> bool
    ensures store { IsTrue result → schema.now ≡ store_schema }
    ensures all { schema.now ≡ store_schema → IsTrue result }
{
    has_tables(schema) && has_keys(schema) && schema.views.is_empty()
}

// Makes both tables, or none.
fn make_tables<S: Alter>(conn: &mut Connection<S>) -> Result<(), Error> {
    if !conn.is_autocommit() {
        return Err(Error::SqliteFailure(ErrorCode::TransactionState));
    }
    let mut transaction = conn.transaction();
    transaction.execute(
        "CREATE TABLE value (node TEXT PRIMARY KEY NOT NULL, type INTEGER NOT NULL, value ANY, status INTEGER NOT NULL, source_time INTEGER, server_time INTEGER) STRICT",
        &[],
    )?;
    transaction.execute(
        "CREATE TABLE history (node TEXT NOT NULL, time INTEGER NOT NULL, type INTEGER NOT NULL, value ANY, status INTEGER NOT NULL, server_time INTEGER, PRIMARY KEY (node, time)) STRICT",
        &[],
    )?;
    transaction.commit()
}

fn has_no_table(schema: &Schema) -> bool
    ensures { result ≡ (length schema.now.tables == 0) }
{
    schema.tables.is_empty()
}

/// Makes the two tables where the database has none. The answer is whether it has these now, and nothing else: a file of another program, or of another version, is left as it was.
pub fn prepare<S: Alter>(conn: &mut Connection<S>) -> Result<bool, Fault>
    ensures ready { OnOk result (result ≡ Ok true → (state S.Store conn.new).now.schema ≡ store_schema) }
    ensures other { result ≡ Ok false → (state S.Store conn.new).now.schema ≢ store_schema }
    ensures fault { IfErr result IsOfDatabase }
    // Where the tables are there, nothing is done.
    ensures same { (state S.Store conn.old).now.schema ≡ store_schema → (result ≡ Ok true) × (conn.new ≡ conn.old) }
{
    if !has_no_table(conn.schema()) {
        return Ok(is_store(conn.schema()));
    }
    make_tables(conn)?;
    Ok(is_store(conn.schema()))
}

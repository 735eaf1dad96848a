//! One transaction for the changes of a turn.

ghost use Rattle.std.specs.Prelude.{◌≡◌, IfErr, IfOk, OnOk, OnErr, IsTrue};
ghost use Rattle.sqlite.specs.State.{HasCleanDisk, Survives};
ghost use Rattle.sqlite.specs.Held.{state};
ghost use Rattle.sqlite.specs.Values.{bound};
ghost use Rattle.value_store.specs.Faults.{IsOfDatabase};
ghost use Rattle.value_store.specs.Rows.{row_in, key_in};
ghost use Rattle.value_store.specs.Laws.{add_text as add_text_spec, renew_text as renew_text_spec};
ghost use Rattle.value_store.specs.Model.{IsAfter};
ghost use Rattle.value_store.specs.Steps.{IsReady, IsSettled, Makes, Adds, Renews, KeepsCommit};
ghost use Rattle.value_store.specs.declared.rows.RowChange.TheVariants as change;

use crate::fault::Fault;
use crate::rows::{Key, RowChange, StoredRow, TableName};
use sqlite::types::{ToSql, ValueRef};
use sqlite::{Alter, Connection, Error, ErrorCode, Transaction};

// What the statements are given: a row in the order of its table's columns, and keys.
fn row_columns<'a>(table: TableName, row: &'a StoredRow) -> [ValueRef<'a>; 6]
    ensures { bound result ≡ row_in table row.now }
{
    match table {
        TableName::Value => [
            row.node.to_sql(),
            row.kind.to_sql(),
            row.value.to_sql(),
            row.status.to_sql(),
            row.source_time.to_sql(),
            row.server_time.to_sql(),
        ],
        TableName::History => [
            row.node.to_sql(),
            row.source_time.to_sql(),
            row.kind.to_sql(),
            row.value.to_sql(),
            row.status.to_sql(),
            row.server_time.to_sql(),
        ],
    }
}

fn key_columns<'a>(key: &'a Key) -> [ValueRef<'a>; 2]
    ensures { bound result ≡ key_in key.now }
{
    [key.node.to_sql(), key.time.to_sql()]
}

// The text that adds a row to a table.
fn add_text(table: TableName) -> &'static str
    ensures { result.now ≡ add_text_spec table }
{
    match table {
        TableName::Value => {
            "INSERT INTO value (node, type, value, status, source_time, server_time) VALUES (?1, ?2, ?3, ?4, ?5, ?6)"
        }
        TableName::History => {
            "INSERT INTO history (node, time, type, value, status, server_time) VALUES (?1, ?2, ?3, ?4, ?5, ?6)"
        }
    }
}

// The text that puts a row of a table in the place of the one that has its key.
fn renew_text(table: TableName) -> &'static str
    ensures { result.now ≡ renew_text_spec table }
{
    match table {
        TableName::Value => {
            "UPDATE value SET node = ?1, type = ?2, value = ?3, status = ?4, source_time = ?5, server_time = ?6 WHERE node = ?1"
        }
        TableName::History => {
            "UPDATE history SET node = ?1, time = ?2, type = ?3, value = ?4, status = ?5, server_time = ?6 WHERE node = ?1 AND time = ?2"
        }
    }
}

fn add_row<S: Alter>(
    turn: &mut Transaction<'_, S>,
    table: TableName,
    row: &StoredRow,
) -> Result<usize, Error>
    ensures same_reference { turn.new.conn.ghost_name ≡ turn.old.conn.ghost_name }
    ensures made { HasCleanDisk (state S.Store turn.new.conn.now) → IsTrue (state S.Store turn.old.conn.now).in_transaction → OnOk result (Adds table row.now (state S.Store turn.old.conn.now) (state S.Store turn.new.conn.now)) }
    ensures kept { HasCleanDisk (state S.Store turn.new.conn.now) → IsTrue (state S.Store turn.old.conn.now).in_transaction → KeepsCommit (state S.Store turn.old.conn.now) (state S.Store turn.new.conn.now) }
    ensures survives { Survives (state S.Store turn.old.conn.now) (state S.Store turn.new.conn.now) (λ _. ⊥) }
{
    turn.execute(add_text(table), &row_columns(table, row))
}

// Says how many rows had the key: none, or the one in whose place the row stands now.
fn renew_row<S: Alter>(
    turn: &mut Transaction<'_, S>,
    table: TableName,
    row: &StoredRow,
) -> Result<usize, Error>
    ensures same_reference { turn.new.conn.ghost_name ≡ turn.old.conn.ghost_name }
    ensures made { HasCleanDisk (state S.Store turn.new.conn.now) → IsTrue (state S.Store turn.old.conn.now).in_transaction → IfOk result (λ count. Renews table row.now count (state S.Store turn.old.conn.now) (state S.Store turn.new.conn.now)) }
    ensures kept { HasCleanDisk (state S.Store turn.new.conn.now) → IsTrue (state S.Store turn.old.conn.now).in_transaction → KeepsCommit (state S.Store turn.old.conn.now) (state S.Store turn.new.conn.now) }
    ensures survives { Survives (state S.Store turn.old.conn.now) (state S.Store turn.new.conn.now) (λ _. ⊥) }
{
    turn.execute(renew_text(table), &row_columns(table, row))
}

// A row in the place of the one that has its key, or one more. That two have a key no database of ours lets be.
fn put_row<S: Alter>(
    turn: &mut Transaction<'_, S>,
    table: TableName,
    row: &StoredRow,
) -> Result<usize, Error>
    ensures same_reference { turn.new.conn.ghost_name ≡ turn.old.conn.ghost_name }
    ensures made { HasCleanDisk (state S.Store turn.new.conn.now) → IsTrue (state S.Store turn.old.conn.now).in_transaction → OnOk result (Makes (change.Put table row.now) (state S.Store turn.old.conn.now) (state S.Store turn.new.conn.now)) }
    ensures kept { HasCleanDisk (state S.Store turn.new.conn.now) → IsTrue (state S.Store turn.old.conn.now).in_transaction → KeepsCommit (state S.Store turn.old.conn.now) (state S.Store turn.new.conn.now) }
    ensures survives { Survives (state S.Store turn.old.conn.now) (state S.Store turn.new.conn.now) (λ _. ⊥) }
{
    match renew_row(turn, table, row)? {
        0 => add_row(turn, table, row),
        1 => Ok(1),
        _ => Err(Error::SqliteFailure(ErrorCode::DatabaseCorrupt)),
    }
}

fn forget_row<S: Alter>(turn: &mut Transaction<'_, S>, key: &Key) -> Result<usize, Error>
    ensures same_reference { turn.new.conn.ghost_name ≡ turn.old.conn.ghost_name }
    ensures made { HasCleanDisk (state S.Store turn.new.conn.now) → IsTrue (state S.Store turn.old.conn.now).in_transaction → OnOk result (Makes (change.Forget key.now) (state S.Store turn.old.conn.now) (state S.Store turn.new.conn.now)) }
    ensures kept { HasCleanDisk (state S.Store turn.new.conn.now) → IsTrue (state S.Store turn.old.conn.now).in_transaction → KeepsCommit (state S.Store turn.old.conn.now) (state S.Store turn.new.conn.now) }
    ensures survives { Survives (state S.Store turn.old.conn.now) (state S.Store turn.new.conn.now) (λ _. ⊥) }
{
    turn.execute(
        "DELETE FROM history WHERE node = ?1 AND time = ?2",
        &key_columns(key),
    )
}

fn make<S: Alter>(turn: &mut Transaction<'_, S>, change: &RowChange) -> Result<usize, Error>
    ensures same_reference { turn.new.conn.ghost_name ≡ turn.old.conn.ghost_name }
    ensures made { HasCleanDisk (state S.Store turn.new.conn.now) → IsTrue (state S.Store turn.old.conn.now).in_transaction → OnOk result (Makes change.now (state S.Store turn.old.conn.now) (state S.Store turn.new.conn.now)) }
    ensures kept { HasCleanDisk (state S.Store turn.new.conn.now) → IsTrue (state S.Store turn.old.conn.now).in_transaction → KeepsCommit (state S.Store turn.old.conn.now) (state S.Store turn.new.conn.now) }
    ensures survives { Survives (state S.Store turn.old.conn.now) (state S.Store turn.new.conn.now) (λ _. ⊥) }
{
    match change {
        RowChange::Put(table, row) => put_row(turn, *table, row),
        RowChange::Forget(key) => forget_row(turn, key),
    }
}

// Makes all changes in one transaction.
fn make_all<S: Alter>(conn: &mut Connection<S>, turn: &[RowChange]) -> Result<(), Error>
    requires ready { IsReady (state S.Store conn.old) }
    requires settled { IsSettled (state S.Store conn.old) }
    ensures ready { IsReady (state S.Store conn.new) }
    ensures settled { IsSettled (state S.Store conn.new) }
    ensures kept { HasCleanDisk (state S.Store conn.new) → OnOk result (IsAfter turn.now (state S.Store conn.old).now.trees (state S.Store conn.new).now.trees) }
    ensures refused { HasCleanDisk (state S.Store conn.new) → IsTrue (state S.Store conn.new).is_open → OnErr result (((state S.Store conn.new).now ≡ (state S.Store conn.old).now) × ((state S.Store conn.new).committed ≡ (state S.Store conn.old).committed)) }
    ensures crash { Survives (state S.Store conn.old) (state S.Store conn.new) (λ trees. IsAfter turn.now (state S.Store conn.old).now.trees trees) }
{
    if !conn.is_autocommit() {
        return Err(Error::SqliteFailure(ErrorCode::TransactionState));
    }
    let mut transaction = conn.transaction();
    'each: for change in turn {
        make(&mut transaction, change)?;
    }
    transaction.commit()
}

/// Makes all changes of a turn, one after the other, and commits them, or none of them.
///
/// At any moment of the call a crash leaves what was there before, or all of them, and after `Ok` all of them, since they are committed.
/// After an `Err` nothing of the turn is there, and the next turn may be kept, unless the database is closed: then each later call
/// fails, and the file has what was committed.
pub fn keep<S: Alter>(conn: &mut Connection<S>, turn: &[RowChange]) -> Result<(), Fault>
    requires ready { IsReady (state S.Store conn.old) }
    requires settled { IsSettled (state S.Store conn.old) }
    ensures ready { IsReady (state S.Store conn.new) }
    ensures settled { IsSettled (state S.Store conn.new) }
    ensures kept { HasCleanDisk (state S.Store conn.new) → OnOk result (IsAfter turn.now (state S.Store conn.old).now.trees (state S.Store conn.new).now.trees) }
    ensures refused { HasCleanDisk (state S.Store conn.new) → IsTrue (state S.Store conn.new).is_open → OnErr result (((state S.Store conn.new).now ≡ (state S.Store conn.old).now) × ((state S.Store conn.new).committed ≡ (state S.Store conn.old).committed)) }
    ensures crash { Survives (state S.Store conn.old) (state S.Store conn.new) (λ trees. IsAfter turn.now (state S.Store conn.old).now.trees trees) }
    ensures fault { IfErr result IsOfDatabase }
{
    match make_all(conn, turn) {
        Ok(()) => Ok(()),
        Err(error) => Err(Fault::Database(error)),
    }
}

//! The store that a server keeps values and histories in.

ghost use Rattle.std.specs.Prelude.{◌≡◌, ◌≢◌, [], IfErr, IfOk, IfSome, OnOk, OnErr};
ghost use Rattle.server_messages.specs.Kept.{AreAlike, Keeps, GrowsBy, read_back};
ghost use Rattle.sqlite.specs.State.{HasCleanDisk, IsUnchanged};
ghost use Rattle.sqlite.specs.Held.{state};
ghost use Rattle.value_store.specs.Faults.{HasTables};
ghost use Rattle.value_store.specs.Steps.{IsReady, IsSettled};
ghost use Rattle.value_store.specs.Ready.{IsReady-prop, IsSettled-prop};
ghost use Rattle.value_store.specs.Tables.{store_schema};
ghost use Rattle.server_messages.specs.declared.store_fault.StoreFault.TheVariants as fault;
ghost use Rattle.value_store.specs.Keeping.{kept_in, MayFind};

use crate::changes::changes_of;
use crate::fault::{Fault, stored_fault};
use crate::reading;
use crate::restoring::restored;
use crate::turns::keep;
use server_messages::{Keeper, KeptValues, StoreFault, Stored};
use sqlite::{Alter, Connection, Error, ErrorCode};
use std::alloc::Global;

// Makes the tables where there are none, and reads all back. Inside a transaction of the caller's nothing can be kept.
fn restore<S: Alter>(alloc: Global, conn: &mut Connection<S>) -> Result<KeptValues, Fault>
    ensures read { IfOk result (λ kept. IfSome (kept_in (state S.Store conn.new)) (AreAlike (read_back kept.values.items kept.histories.items))) }
    ensures ready { OnOk result (IsReady (state S.Store conn.new)) }
    ensures settled { OnOk result (IsSettled (state S.Store conn.new)) }
    ensures same { HasCleanDisk (state S.Store conn.new) → (state S.Store conn.old).now.schema ≡ store_schema → OnOk result (IsUnchanged (state S.Store conn.old) (state S.Store conn.new)) }
    ensures fault { (state S.Store conn.old).now.schema ≡ store_schema → IfErr result HasTables }
{
    let rows = reading::begin(alloc, conn)?;
    if !conn.is_autocommit() {
        return Err(Fault::Database(Error::SqliteFailure(ErrorCode::TransactionState)));
    }
    restored(alloc, &rows)
}

// Keeps these in one transaction, all of them or none.
fn keep_all<S: Alter>(
    alloc: Global,
    conn: &mut Connection<S>,
    stored: &[Stored],
) -> Result<(), Fault>
    requires ready { IsReady (state S.Store conn.old) }
    requires settled { IsSettled (state S.Store conn.old) }
    ensures ready { IsReady (state S.Store conn.new) }
    ensures settled { IsSettled (state S.Store conn.new) }
    ensures kept { OnOk result (Keeps stored.now (kept_in (state S.Store conn.old)) (kept_in (state S.Store conn.new))) }
    ensures refused { OnErr result (Keeps [] (kept_in (state S.Store conn.old)) (kept_in (state S.Store conn.new))) }
    ensures crash { GrowsBy stored.now (kept_in (state S.Store conn.old)) (MayFind (state S.Store conn.old)) (MayFind (state S.Store conn.new)) }
    ensures fault { IfErr result HasTables }
{
    let changes = changes_of(alloc, stored)?;
    keep(conn, &changes)
}

/// A store of values and histories, over a connection to a database that has its two tables.
///
/// It keeps what is stored in one transaction: after `Ok` each crash leaves all of it, and at any moment of the call what was there
/// before, or all of it. After an `Err` none of it is there, and the next may be kept, unless the database is closed: then each later
/// call fails, and the file has what was committed.
///
/// Contracts see of it what its connection shows (`kept_in` of its state): nothing where the disk has failed or lied.
pub struct ValueStore<S: Alter> {
    alloc: Global,
    conn: Connection<S>,
    ghost ready: { IsReady (state S.Store conn) } by { IsReady-prop (state S.Store conn) },
    ghost settled: { IsSettled (state S.Store conn) } by { IsSettled-prop (state S.Store conn) },
}

impl<S: Alter + Drop> Drop for ValueStore<S> {
    fn drop(self) {
        let ValueStore { alloc: _, conn: _ } = self;
    }
}

impl<S: Alter + Drop> ValueStore<S> {
    ghost use Rattle.value_store.specs.Shown.{state_of};

    /// Makes the two tables where the database has none, and reads back all that they keep.
    ///
    /// A database with other tables is refused, and so is one with a row that says no value. Either is left as it was. A connection
    /// inside a transaction of the caller's is refused, too.
    pub fn begin(
        alloc: Global,
        conn: Connection<S>,
    ) -> Result<(ValueStore<S>, KeptValues), StoreFault>
        ensures read { IfOk result (λ begun. IfSome (kept_in (state_of begun.0)) (AreAlike (read_back begun.1.values.items begun.1.histories.items))) }
        // Where the tables are there, no others are told, and nothing is changed.
        ensures tables { (state S.Store conn).now.schema ≡ store_schema → IfErr result (λ e. e ≢ fault.OtherTables) }
        ensures same { IfOk result (λ begun. HasCleanDisk (state_of begun.0) → (state S.Store conn).now.schema ≡ store_schema → IsUnchanged (state S.Store conn) (state_of begun.0)) }
    {
        let mut conn = conn;
        match restore(alloc, &mut conn) {
            Ok(kept) => Ok((ValueStore { alloc, conn }, kept)),
            Err(fault) => Err(stored_fault(fault)),
        }
    }
}

impl<S: Alter> Keeper for ValueStore<S> {
    ghost use Rattle.value_store.specs.Keeping.{kept_in as kept_in_state, MayFind as MayFindIn};
    ghost use Rattle.value_store.specs.Lasting.{lasts};
    ghost use Rattle.value_store.specs.Shown.{state_of};

    ghost kept = { λ store. kept_in_state (state_of store) };

    ghost may_find = { λ store. MayFindIn (state_of store) };

    ghost lasting = { λ store. lasts (state_of store) store.settled };

    fn keep(&mut self, stored: &[Stored]) -> Result<(), StoreFault> {
        match keep_all(self.alloc, &mut self.conn, stored) {
            Ok(()) => Ok(()),
            Err(fault) => Err(stored_fault(fault)),
        }
    }
}

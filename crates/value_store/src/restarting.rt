//! From one run to the next.

ghost use Rattle.value_store.specs.Restarting.{Restarts};
ghost use Rattle.value_store.specs.Shown.{connection_of};

use crate::store::ValueStore;
use sqlite::{Connection, FileStore};
use sqlite_disk::Disk;

/// Whatever a crash leaves of the files of a store, the rows that a connection finds there say what the store kept, and nothing else.
///
/// It supposes what the kit keeps true of each connection: what a crash leaves of its files is a database. Of the tables that the
/// second connection tells it says nothing. Where they are the store's, `begin` reads back just these rows (`read`, `same`).
pub fn restarts_with_what_is_kept<D: Disk, E: Disk>(
    before: &ValueStore<FileStore<D>>,
    after: &Connection<FileStore<E>>,
)
    ensures { Restarts (connection_of before.now) after.now }
{}

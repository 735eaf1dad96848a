//! The one place that opens the file of a store.
//!
//! It stands in the program, since a crate that names a connection over files takes gigabytes to prove: nothing else does.
//!
//! What a contract sees is what the store read back (`server_messages`, `specs/Kept`). No contract can say that the bytes are those of
//! the file with this path.

use server_messages::{KeptValues, StoreFault};
use sqlite::{Connection, FileFrom, FileStore, Unknown};
use std::alloc::Global;
use std::fs;
use store_restoring::OpensStores;
use value_store::{ValueStore, database_fault};

/// Opens SQLite files of this machine as stores, for whoever asks an [`OpensStores`].
///
/// The file is made where there is none. While it is open no other program can have it. A byte of a sector that a power cut tears is
/// taken to be the old one or the new one.
#[derive(Drop)]
pub struct StoreFiles<'a> {
    rt: &'a HostRuntime,
}

impl<'a> StoreFiles<'a> {
    /// Over the files that this runtime has.
    pub fn new(rt: &'a HostRuntime) -> StoreFiles<'a> {
        StoreFiles { rt }
    }
}

// Whether the file is there and has one byte. The database would take it for one that was never finished, and write over it.
fn has_one_byte(rt: &HostRuntime, path: &str) -> bool {
    match fs::metadata(rt, path) {
        Ok(metadata) => metadata.len() == 1,
        Err(_) => false,
    }
}

impl<'a> OpensStores for StoreFiles<'a> {
    type Store = ValueStore<FileStore<FileFrom<Unknown>>>;

    fn open(
        &self,
        alloc: Global,
        path: &str,
    ) -> Result<(ValueStore<FileStore<FileFrom<Unknown>>>, KeptValues), StoreFault> {
        if has_one_byte(self.rt, path) {
            return Err(StoreFault::NotADatabase);
        }
        let conn = match Connection::open_from(self.rt, path, false, Unknown) {
            Ok(conn) => conn,
            Err((error, _)) => return Err(database_fault(error)),
        };
        ValueStore::begin(alloc, conn)
    }
}

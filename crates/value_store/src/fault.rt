//! Why a step of the store fails.

ghost use Rattle.std.specs.Prelude.{◌≡◌};
ghost use Rattle.value_store.specs.Faults.{told_of, told_of_database};
ghost use Rattle.value_store.specs.declared.fault.Fault.TheVariants as fault;

use server_messages::StoreFault;
use sqlite::{Error, ErrorCode};
use std::alloc::{AllocError, AllocFailed};

/// What went wrong in a step. The store is as it was before the call, unless the database is closed.
#[derive(Clone, Copy, Debug, PartialEq, Eq)]
pub enum Fault {
    /// The database refused or failed: no memory, a full disk, a disk that failed or lied, or a transaction of the caller's own that is under way.
    Database(Error),
    /// The database has other tables than the store's, as one of another program or another version.
    OtherTables,
    /// A row says no value, or has the key of another, as none that this program wrote.
    Unreadable,
    /// An allocation failed.
    Memory,
}

impl From<Error> for Fault {
    ghost from_gives = { λ error f. f ≡ fault.Database error };

    fn from(error: Error) -> Fault {
        Fault::Database(error)
    }
}

impl From<AllocError> for Fault {
    ghost from_gives = { λ _ f. f ≡ fault.Memory };

    fn from(_e: AllocError) -> Fault {
        Fault::Memory
    }
}

impl<T: Drop> From<AllocFailed<T>> for Fault {
    ghost from_gives = { λ _ f. f ≡ fault.Memory };

    fn from(_failed: AllocFailed<T>) -> Fault {
        Fault::Memory
    }
}

/// The fault as the server names it.
pub fn stored_fault(fault: Fault) -> StoreFault
    ensures { result ≡ told_of fault }
{
    match fault {
        Fault::Database(error) => database_fault(error),
        Fault::OtherTables => StoreFault::OtherTables,
        Fault::Unreadable => StoreFault::Unreadable,
        Fault::Memory => StoreFault::Memory,
    }
}

/// An error of the database as the server names it, also of one that can't be opened.
pub fn database_fault(error: Error) -> StoreFault
    ensures { result ≡ told_of_database error }
{
    match error {
        Error::SqliteFailure(ErrorCode::OutOfMemory) => StoreFault::Memory,
        Error::SqliteFailure(ErrorCode::DiskFull) => StoreFault::Full,
        Error::SqliteFailure(ErrorCode::DatabaseBusy) => StoreFault::Locked,
        Error::SqliteFailure(ErrorCode::CannotOpen) => StoreFault::CannotOpen,
        Error::SqliteFailure(ErrorCode::NotADatabase) => StoreFault::NotADatabase,
        _ => StoreFault::Failed,
    }
}

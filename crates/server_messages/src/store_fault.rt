//! Why a store can't keep values.

use thiserror::Error;

/// Why a store can't keep values, or can't be opened.
#[derive(Clone, Copy, Debug, PartialEq, Eq, Error)]
pub enum StoreFault {
    /// The file, or its folder, can't be read or written.
    #[error("the file can't be opened")]
    CannotOpen,
    /// Another program has the file open.
    #[error("another program has the file open")]
    Locked,
    /// The file is no database. It is left as it was.
    #[error("the file is no database")]
    NotADatabase,
    /// The database has other tables than a store's, as one of another program or version. It is left as it was.
    #[error("the database has other tables")]
    OtherTables,
    /// A row of the tables says no value.
    #[error("a row says no value")]
    Unreadable,
    /// The disk is full.
    #[error("the disk is full")]
    Full,
    /// The disk failed, or the database is closed since it did.
    #[error("the disk failed")]
    Failed,
    /// An allocation failed.
    #[error("out of memory")]
    Memory,
}

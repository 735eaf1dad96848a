//! What is kept, as the two tables have it.

use sqlite::types::{FromSql, FromSqlError, ToSql, ValueRef};
use std::alloc::Global;

/// Which of the two tables.
#[derive(Clone, Copy, Debug, PartialEq, Eq)]
pub enum TableName {
    /// `value`: what each node has now.
    Value,
    /// `history`: what it had, and when.
    History,
}

/// A value as SQL has it. Floats are none: a NaN has no place in a database, so what holds one is kept as bytes.
#[derive(Debug, PartialEq, Eq)]
pub enum Scalar {
    /// NULL.
    Nothing,
    /// INTEGER.
    Integer(i64),
    /// TEXT.
    Words(String),
    /// BLOB.
    Bytes(Vec<u8>),
}

// Written out, so that a proof sees a drop as one call and not as its cases.
impl Drop for Scalar {
    fn drop(self) {
        match self {
            Scalar::Nothing => {}
            Scalar::Integer(_) => {}
            Scalar::Words(_) => {}
            Scalar::Bytes(_) => {}
        }
    }
}

/// A row of either table: a value that a node has, in `value`, or had, in `history`.
#[derive(Debug, Drop, PartialEq, Eq)]
pub struct StoredRow {
    /// The text of the node's id.
    pub node: String,
    /// Which type the value is of, as the caller numbers types.
    pub kind: i64,
    /// The value itself.
    pub value: Scalar,
    /// How good it is, as the number of its status.
    pub status: i64,
    /// When the source had it, in units of the caller's. In `history` it is of the key, and never NULL.
    pub source_time: Option<i64>,
    /// When the server learnt of it, in the same units.
    pub server_time: Option<i64>,
}

/// The key of a row of `history`.
#[derive(Debug, Drop, PartialEq, Eq)]
pub struct Key {
    /// The text of the node's id.
    pub node: String,
    /// When the node had the value.
    pub time: i64,
}

/// One step of a turn.
#[derive(Debug, PartialEq, Eq)]
pub enum RowChange {
    /// The row stands in the table, in the place of the one that has its key.
    Put(TableName, StoredRow),
    /// The node's value at this time falls out of its history. Where there is none, nothing changes.
    Forget(Key),
}

// Written out, so that a proof sees a drop as one call and not as its cases.
impl Drop for RowChange {
    fn drop(self) {
        match self {
            RowChange::Put(_, _) => {}
            RowChange::Forget(_) => {}
        }
    }
}

impl<'a> ToSql<'a> for &'a Scalar {
    ghost use Rattle.value_store.specs.Rows.{sql_of};

    ghost to_sql = { λ s. sql_of s.now };

    fn to_sql(self) -> ValueRef<'a> {
        match self {
            Scalar::Nothing => ValueRef::Null,
            Scalar::Integer(n) => ValueRef::Int(*n),
            Scalar::Words(text) => ValueRef::Text(text.as_bytes()),
            Scalar::Bytes(bytes) => ValueRef::Blob(bytes.as_slice()),
        }
    }
}

impl FromSql for Scalar {
    ghost use Rattle.std.specs.Prelude.{◌≡◌};
    ghost use Rattle.value_store.specs.Rows.{sql_of, is_scalar};
    ghost use Rattle.sqlite.specs.Values.{text_refusal};

    ghost reads_as = { λ v s. v ≡ sql_of s };

    ghost is_readable = { is_scalar };

    ghost refusal = { text_refusal };

    fn column_result(alloc: Global, value: ValueRef<'_>) -> Result<Scalar, FromSqlError> {
        match value {
            ValueRef::Null => Ok(Scalar::Nothing),
            ValueRef::Int(n) => Ok(Scalar::Integer(n)),
            ValueRef::Text(text) => match std::str::from_utf8(text) {
                Ok(text) => Ok(Scalar::Words(String::from_str(alloc, text)?)),
                Err(_) => Err(FromSqlError::Utf8),
            },
            ValueRef::Blob(blob) => Ok(Scalar::Bytes(Vec::from_slice(alloc, blob)?)),
            ValueRef::Real(_) => Err(FromSqlError::InvalidType),
        }
    }
}

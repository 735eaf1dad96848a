//! Rows of the subscriptions' state table.

use ua_state_table::{RowId, TableEvent, Vars};

/// A row of the subscriptions' state table that fired (IEC 62541-4, the Subscription state table).
#[derive(Clone, Copy, Debug, PartialEq, Eq)]
pub struct Fired {
    /// The subscription's number, 0 for one that was refused.
    pub subscription: u32,
    /// What happened to it.
    pub event: TableEvent,
    /// Its variables before the row.
    pub before: Vars,
    /// The row.
    pub row: RowId,
    /// Its variables after the row.
    pub after: Vars,
}

//! What a store has to keep.

use ua_types::{DataValue, Moment, NodeId};

/// A value that a variable got, and what became of the variable's history by it: what a store has to keep, so that both
/// outlast the server.
#[derive(Debug, Drop)]
pub struct Stored {
    /// The variable.
    pub node_id: NodeId,
    /// Its value, with both times.
    pub value: DataValue,
    /// Whether it is in the variable's history too, under its source's time.
    pub is_historical: bool,
    /// The time whose value fell out of the history for it, if there is one.
    pub dropped: Option<Moment>,
}

//! What a store has kept.

use ua_types::{DataValue, NodeId};

/// A value of a variable, as a store has kept it.
#[derive(Debug, Drop)]
pub struct KeptValue {
    /// The variable.
    pub node_id: NodeId,
    /// Its value, with its times.
    pub value: DataValue,
}

/// All that a store has kept, read back.
#[derive(Debug, Drop)]
pub struct KeptValues {
    /// The value of each variable that has one, in the order of ids.
    pub values: Vec<KeptValue>,
    /// The values that variables had, in the order of ids, and those of a variable by rising source time. Each has a source time.
    pub histories: Vec<KeptValue>,
}

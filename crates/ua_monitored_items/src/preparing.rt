//! What SetMonitoringMode makes ready before it changes an item.

use ua_types::DataValue;

/// An entry of SetMonitoringMode, with what it wants.
#[derive(Drop)]
pub struct Prepared {
    pub number: u32,

    /// What the item queues as it is enabled. None where the item isn't known, or isn't enabled by this.
    pub first: Option<DataValue>,
}

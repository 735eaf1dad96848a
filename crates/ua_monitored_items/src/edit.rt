//! What changes an item where it stands.

use crate::kinds::{Mode, Trigger};
use crate::links::Links;
use ua_item_queue::QueueSize;
use ua_read_write::Timestamps;
use ua_subscription_messages::SubscriptionId;
use ua_types::DataValue;

/// What an entry of ModifyMonitoredItems gives its item, as it was judged.
#[derive(Drop)]
pub struct Modification {
    pub timestamps: Timestamps,

    pub client_handle: u32,

    /// Which changes its filter lets through.
    pub trigger: Trigger,

    /// How many values its queue may hold: the revised size.
    pub size: QueueSize,

    pub discard_oldest: bool,
}

/// What changes an item where it stands, without memory.
#[derive(Drop)]
pub enum Edit {
    /// It gets other parameters.
    Modify(Modification),

    /// It gets a mode, and queues what was sampled for it where that enables it.
    SetMode {
        mode: Mode,
        first: Option<DataValue>,
    },

    /// It is released by an item of this subscription that queued a value.
    Release(SubscriptionId),

    /// It gets other links.
    SetLinks(Links),
}

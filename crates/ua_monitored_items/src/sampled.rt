//! What items sample where they are made or enabled.

use ua_space::Space;
use ua_subscription_messages::SubscriptionId;
use ua_types::Moment;

/// What the items of a subscription sample where a request makes or enables them: what stands in the address space
/// at this clock, which is the time that the server gives to the samples.
#[derive(Clone, Copy)]
pub struct Sampled<'a> {
    /// The subscription of the request.
    pub subscription: SubscriptionId,
    /// Where the nodes are read.
    pub space: &'a Space,
    /// The server's time.
    pub clock: Moment,
}

//! What rows are done with.

ghost use Rattle.std.specs.Prelude.{◌≡◌};

use crate::call::Call;
use crate::publish_call::PublishCall;
use crate::settings::Bounds;
use collections::ShortList;
use server_messages::{Fired, Reply};
use ua_subscription_messages::SubscriptionId;
use ua_types::{Listed, Moment};

/// What the rows of one request or tick are done with, beside the subscriptions and items: what stays the same for all
/// of them, and what they leave.
#[derive(Debug, Drop)]
pub struct Round {
    /// What the server allows.
    pub bounds: Bounds,
    /// The moment of all that happens.
    pub clock: Moment,
    /// The number of the subscription that it is at.
    pub own: SubscriptionId,
    /// What comes to it.
    pub call: Call,
    /// The Publish request that came or was taken out of its queue, until it is answered or queued.
    pub asked: Option<PublishCall>,
    /// How many messages the server has sent of all subscriptions.
    pub message_count: u64,
    /// What was answered, in order.
    pub replies: ShortList<Reply>,
    /// The rows that fired, in order.
    pub rows: Listed<Fired>,
}

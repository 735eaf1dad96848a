//! Messages of subscriptions, as their bytes.

ghost use Rattle.std.specs.Prelude.{◌≡◌, OnOk, IfOk};
ghost use Rattle.ua_monitored_items.specs.ItemTables.{numbers_of};
ghost use Rattle.ua_monitored_items.specs.Items.{taken_of};
ghost use Rattle.ua_subscription_messages.specs.DataChangeMessages.{data_change_message};
ghost use Rattle.ua_subscriptions.specs.Messages.{keep_alive_message, timeout_message};

use bytes::Bytes;
use std::alloc::{AllocError, Global};
use ua_binary::Wire;
use ua_messages::{DiagnosticInfo, type_ids};
use ua_monitored_items::Items;
use ua_subscription_messages::{
    DataChangeMessage, NotificationMessage, StatusChangeNotification, SubscriptionId,
    notification_message,
};
use ua_types::{Array, Moment, Status};

/// A message that is kept until its client acknowledges it, or too many are kept.
#[derive(Debug, Drop)]
pub struct KeptMessage {
    /// The message's number in its subscription.
    pub number: u32,
    /// The NotificationMessage, as it was first sent.
    pub bytes: Bytes,
}

/// The bytes of a message with the first values of a subscription's items, at most so many, which are sent by it. At an `Err`
/// nothing is known of what is left.
pub(crate) fn data_message(
    number: u32,
    clock: Moment,
    items: &mut Items,
    subscription: SubscriptionId,
    count: usize,
) -> Result<Bytes, AllocError>
    ensures bytes { IfOk result (λ bytes. bytes ≡ data_change_message number clock (taken_of items.old.items count (numbers_of subscription items.old.items)).notes) }
    ensures items { OnOk result (items.new ≡ record items.old { items = (taken_of items.old.items count (numbers_of subscription items.old.items)).items }) }
{
    let mut message = DataChangeMessage::new(items.allocator(), number, clock)?;
    items.send(subscription, count, &mut message)?;
    let mut bytes = message.finish()?;
    // A message that is kept has no room to spare.
    bytes.shrink_to_fit();
    Ok(Bytes::from_vec(bytes)?)
}

/// The bytes of a message with nothing to tell.
#[tactic(auto, unfolding(crate::specs::Messages::keep_alive_message))]
pub(crate) fn keep_alive_message(
    alloc: Global,
    number: u32,
    clock: Moment,
) -> Result<Bytes, AllocError>
    ensures { IfOk result (λ bytes. bytes ≡ keep_alive_message number clock) }
{
    let message = NotificationMessage {
        sequence_number: number,
        publish_time: clock,
        notification_data: Array::new(Vec::new(alloc)),
    };
    let mut bytes = Vec::new(alloc);
    message.encode(&mut bytes)?;
    Ok(Bytes::from_vec(bytes)?)
}

/// The bytes of the message that the subscription has timed out.
#[tactic(auto, unfolding(crate::specs::Messages::timeout_message))]
pub(crate) fn timeout_message(
    alloc: Global,
    number: u32,
    clock: Moment,
) -> Result<Bytes, AllocError>
    ensures { IfOk result (λ bytes. bytes ≡ timeout_message number clock) }
{
    let change = StatusChangeNotification {
        status: Status::BAD_TIMEOUT,
        diagnostic_info: DiagnosticInfo,
    };
    let type_id = type_ids::STATUS_CHANGE_NOTIFICATION;
    let bytes = notification_message(alloc, number, clock, type_id, &change)?;
    Ok(Bytes::from_vec(bytes)?)
}

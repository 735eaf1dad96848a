//! Messages of subscriptions, written in one go.

ghost use Rattle.std.specs.Prelude.{◌≡◌, IfOk};
ghost use Rattle.ua_messages.specs.Structures.{object_around};
ghost use Rattle.ua_subscription_messages.specs.Publishing.{notification_message_encoding};
ghost use Rattle.ua_subscription_messages.specs.NotificationMessages.{message_with};

use std::alloc::{AllocError, Global};
use ua_binary::{Wire, Written};
use ua_messages::write_structure;
use ua_types::Moment;

/// The bytes of a [`crate::NotificationMessage`] with one notification, whose type is the one with this id (one of
/// `ua_messages::type_ids`): those that [`Wire::put`] writes for it. The notification is encoded once, straight into
/// its place in the message.
///
/// A notification of 2^31 bytes or more can't be spelled, and is refused as by want of memory.
#[tactic(auto, using(crate::proofs::NotificationLemmas::message_in_place))]
pub fn notification_message<W: Written>(
    alloc: Global,
    sequence_number: u32,
    publish_time: Moment,
    type_id: u32,
    notification: &W,
) -> Result<Vec<u8>, AllocError>
    ensures { IfOk result (λ bytes. bytes.items
        ≡ notification_message_encoding (message_with sequence_number publish_time (object_around type_id (W.encoding notification.now)))) }
{
    let mut out = Vec::new(alloc);
    sequence_number.encode(&mut out)?;
    publish_time.encode(&mut out)?;
    1u32.encode(&mut out)?;
    write_structure(type_id, notification, &mut out)?;
    Ok(out)
}

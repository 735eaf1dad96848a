//! Notifications of values that stand elsewhere: they are written from there.

ghost use Rattle.std.specs.Prelude.{◌≡◌};
ghost use Rattle.ua_subscription_messages.specs.Publishing.{monitored_item_notification_reading, monitored_item_notification_encoding};

use std::alloc::AllocError;
use std::marker::Model;
use ua_binary::{BorrowedDataValue, Wire, Written};

/// A [`crate::MonitoredItemNotification`] whose value stands elsewhere. Contracts see the
/// MonitoredItemNotification.
#[derive(Debug, Drop)]
pub struct BorrowedNotification<'a> {
    client_handle: u32,
    value: BorrowedDataValue<'a>,
}

impl<'a> Model for BorrowedNotification<'a> {
    ghost use Rattle.ua_subscription_messages.specs.declared.publishing.MonitoredItemNotification.{MonitoredItemNotification};

    ghost Value = { MonitoredItemNotification };

    ghost view = { λ n. record { client_handle = n.client_handle; value = n.value } };
}

impl<'a> BorrowedNotification<'a> {
    /// That of this value, for the item to which the client gave this number.
    pub fn new(client_handle: u32, value: BorrowedDataValue<'a>) -> BorrowedNotification<'a>
        ensures { result ≡ record { client_handle = client_handle; value = value.entry } }
    {
        BorrowedNotification {
            client_handle,
            value,
        }
    }
}

#[tactic(auto, using(ua_binary::proofs::Fields::fields2), unfolding(crate::specs::Publishing::monitored_item_notification_reading, crate::specs::Publishing::monitored_item_notification_encoding))]
impl Written for BorrowedNotification<'_> {
    ghost reading = { monitored_item_notification_reading };

    ghost encoding = { monitored_item_notification_encoding };

    fn write(&self, out: &mut Vec<u8>) -> Result<(), AllocError> {
        self.client_handle.encode(out)?;
        self.value.write(out)?;
        Ok(())
    }
}

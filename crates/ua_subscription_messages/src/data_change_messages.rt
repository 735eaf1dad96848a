//! Messages with values of monitored items, written value by value.

ghost use Rattle.std.specs.Prelude.{◌≡◌, ℕ, List, IfOk, OnOk};
ghost use Rattle.ua_types.specs.declared.moment.Moment.{Moment};
ghost use Rattle.ua_subscription_messages.specs.declared.publishing.MonitoredItemNotification.{MonitoredItemNotification};
ghost use Rattle.ua_subscription_messages.specs.DataChangeMessages.{begun, with_note, with_notes, data_change_message};

use crate::borrowed_notifications::BorrowedNotification;
use std::alloc::{AllocError, Global};
use std::marker::Model;
use ua_binary::{Wire, Written};
use ua_messages::{DiagnosticInfos, put_number, type_ids};
use ua_types::{Moment, NodeId};

// How many bytes a message has room for at first.
const FIRST_ROOM: usize = 256;

/// A [`crate::NotificationMessage`] that holds one [`crate::DataChangeNotification`], while it is written.
///
/// Each notification is encoded once, straight into its place in the message, and [`DataChangeMessage::finish`] puts in
/// what is known only then: how many they are, and how long the object is that holds them. Contracts see what stands
/// before that, the text of the notifications, and their number.
#[derive(Debug, Drop)]
pub struct DataChangeMessage {
    bytes: Vec<u8>,
    // Where the object's length stands, and behind it the number of notifications. Both are 0 until the end.
    at: usize,
    // How many notifications there are. Fewer than 2^31, as many as can be spelled.
    count: u32,
}

impl Model for DataChangeMessage {
    ghost use Rattle.std.specs.Prelude.{◌≤◌, ◌<◌, ◌+◌, ◌^◌, length, take, drop};
    ghost use Rattle.ua_subscription_messages.specs.DataChangeMessages.{MessageDraft};

    ghost Value = { MessageDraft };

    ghost view = { λ m. record { front = take m.at m.bytes.items; notes = drop (m.at + 8) m.bytes.items; count = m.count } };

    ghost invariant = { λ m. (m.at + 8 ≤ length m.bytes.items) × (m.count < 2 ^ 31) };
}

impl DataChangeMessage {
    /// A message with this number and time, and no notification yet.
    pub fn new(
        alloc: Global,
        sequence_number: u32,
        publish_time: Moment,
    ) -> Result<DataChangeMessage, AllocError>
        ensures { IfOk result (λ message. message ≡ begun sequence_number publish_time) }
    {
        let mut bytes = Vec::with_capacity(alloc, FIRST_ROOM)?;
        sequence_number.encode(&mut bytes)?;
        publish_time.encode(&mut bytes)?;
        1u32.encode(&mut bytes)?;
        NodeId::numeric(0, type_ids::DATA_CHANGE_NOTIFICATION).encode(&mut bytes)?;
        1u8.encode(&mut bytes)?;
        let at = bytes.len();
        bytes.extend_from_slice(&[0; 8])?;
        Ok(DataChangeMessage {
            bytes,
            at,
            count: 0,
        })
    }

    /// One notification more, behind the others. As many as can't be spelled, 2^31, are refused as by want of memory. At an
    /// `Err` the message is of no use any more: a part of the notification may be written.
    pub fn push(&mut self, note: &BorrowedNotification<'_>) -> Result<(), AllocError>
        ensures { OnOk result (self.new ≡ with_note self.old note.now) }
    {
        if self.count >= (1 << 31) - 1 {
            return Err(AllocError);
        }
        note.write(&mut self.bytes)?;
        self.count += 1;
        Ok(())
    }

    /// The bytes of the message: those that [`Wire::put`] writes for it.
    ///
    /// A notification of 2^31 bytes or more can't be spelled, and is refused as by want of memory.
    #[tactic(auto, using(crate::proofs::DataChangeLemmas::finishes))]
    pub fn finish(self) -> Result<Vec<u8>, AllocError>
        ensures { IfOk result (λ bytes. (number : ℕ) (time : Moment) (notes : List MonitoredItemNotification) →
            self ≡ with_notes (begun number time) notes → bytes.items ≡ data_change_message number time notes) }
    {
        let DataChangeMessage {
            mut bytes,
            at,
            count,
        } = self;
        DiagnosticInfos.encode(&mut bytes)?;
        let length = bytes.len() - (at + 4);
        if length >= 1 << 31 {
            return Err(AllocError);
        }
        put_number(&mut bytes, at, length as u32);
        put_number(&mut bytes, at + 4, count);
        Ok(bytes)
    }
}

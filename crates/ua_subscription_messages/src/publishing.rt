//! The services Publish and Republish, and the messages that they bring.

ghost use Rattle.std.specs.Prelude.{⊤};
ghost use Rattle.ua_binary.specs.Backing.{IsBackedOrBoxed};
ghost use Rattle.ua_subscription_messages.specs.Publishing.{subscription_acknowledgement_reading, subscription_acknowledgement_encoding, publish_request_reading, publish_request_encoding, notification_message_reading, notification_message_encoding, publish_response_reading, publish_response_encoding, monitored_item_notification_reading, monitored_item_notification_encoding, data_change_notification_reading, data_change_notification_encoding, status_change_notification_reading, status_change_notification_encoding, republish_request_reading, republish_request_encoding, republish_response_reading, republish_response_encoding};

use std::alloc::{AllocError, Global};
use std::marker::Model;
use ua_binary::{Cursor, TakeFault, Wire};
use ua_messages::{DiagnosticInfo, DiagnosticInfos, ResponseHeader};
use ua_types::{Array, DataValue, ExtensionObject, Moment, Status};
use ua_views::{ArrayView, Readable, View};

/// A message that the client has and the server need not keep: an element of [`PublishRequest`]
/// (SubscriptionAcknowledgement, IEC 62541-4, section 5, Subscription Service Set, Publish).
#[derive(Clone, Copy, Debug, PartialEq, Eq)]
pub struct SubscriptionAcknowledgement {
    pub subscription_id: u32,
    /// The message's number in its subscription.
    pub sequence_number: u32,
}

#[tactic(auto, using(ua_binary::proofs::Fields::fields2), unfolding(crate::specs::Publishing::subscription_acknowledgement_reading, crate::specs::Publishing::subscription_acknowledgement_encoding))]
impl Wire for SubscriptionAcknowledgement {
    ghost reading = { subscription_acknowledgement_reading };

    ghost encoding = { subscription_acknowledgement_encoding };

    ghost spares_memory = { λ _. ⊤ };

    fn decode(
        alloc: Global,
        cursor: &mut Cursor<'_>,
    ) -> Result<SubscriptionAcknowledgement, TakeFault> {
        Ok(SubscriptionAcknowledgement {
            subscription_id: u32::decode(alloc, cursor)?,
            sequence_number: u32::decode(alloc, cursor)?,
        })
    }

    fn encode(&self, out: &mut Vec<u8>) -> Result<(), AllocError> {
        self.subscription_id.encode(out)?;
        self.sequence_number.encode(out)?;
        Ok(())
    }
}

impl Readable for SubscriptionAcknowledgement {
    ghost reading = { subscription_acknowledgement_reading };
}

#[tactic(auto, unfolding(crate::specs::Publishing::subscription_acknowledgement_reading))]
impl<'a> View<'a> for SubscriptionAcknowledgement {
    fn look(cursor: &mut Cursor<'a>) -> Result<SubscriptionAcknowledgement, TakeFault> {
        Ok(SubscriptionAcknowledgement {
            subscription_id: u32::look(cursor)?,
            sequence_number: u32::look(cursor)?,
        })
    }
}

/// Acknowledges messages, and waits for the next one of any subscription of its session (Publish,
/// IEC 62541-4, section 5, Subscription Service Set).
#[derive(Debug, Drop)]
pub struct PublishRequest {
    pub subscription_acknowledgements: Array<SubscriptionAcknowledgement>,
}

#[tactic(auto, using(ua_binary::proofs::Fields::fields1), unfolding(crate::specs::Publishing::publish_request_reading, crate::specs::Publishing::publish_request_encoding))]
impl Wire for PublishRequest {
    ghost reading = { publish_request_reading };

    ghost encoding = { publish_request_encoding };

    fn decode(alloc: Global, cursor: &mut Cursor<'_>) -> Result<PublishRequest, TakeFault> {
        Ok(PublishRequest {
            subscription_acknowledgements: Array::<SubscriptionAcknowledgement>::decode(
                alloc, cursor,
            )?,
        })
    }

    fn encode(&self, out: &mut Vec<u8>) -> Result<(), AllocError> {
        self.subscription_acknowledgements.encode(out)?;
        Ok(())
    }
}

/// A [`PublishRequest`] in the bytes that it stands in.
#[derive(Debug, Drop)]
pub struct PublishRequestView<'a> {
    pub subscription_acknowledgements: ArrayView<'a, SubscriptionAcknowledgement>,
}

impl<'a> Model for PublishRequestView<'a> {
    ghost use Rattle.ua_subscription_messages.specs.declared.publishing.PublishRequest.{PublishRequest};

    ghost Value = { PublishRequest };

    ghost view = { λ v. record { subscription_acknowledgements = v.subscription_acknowledgements } };
}

impl<'a> Readable for PublishRequestView<'a> {
    ghost reading = { publish_request_reading };
}

#[tactic(auto, unfolding(crate::specs::Publishing::publish_request_reading))]
impl<'a> View<'a> for PublishRequestView<'a> {
    fn look(cursor: &mut Cursor<'a>) -> Result<PublishRequestView<'a>, TakeFault> {
        Ok(PublishRequestView {
            subscription_acknowledgements: ArrayView::<SubscriptionAcknowledgement>::look(cursor)?,
        })
    }
}

/// A message of a subscription (NotificationMessage, IEC 62541-4, section 7).
#[derive(Debug, Drop)]
pub struct NotificationMessage {
    /// The message's number in its subscription, from 1. A keep-alive message has the number that
    /// the next message with notifications will have.
    pub sequence_number: u32,

    /// When the message was made.
    pub publish_time: Moment,

    /// Each a [`DataChangeNotification`] or a [`StatusChangeNotification`]. A keep-alive message
    /// has none.
    pub notification_data: Array<ExtensionObject>,
}

#[tactic(auto, using(ua_binary::proofs::Fields::fields3), unfolding(crate::specs::Publishing::notification_message_reading, crate::specs::Publishing::notification_message_encoding))]
impl Wire for NotificationMessage {
    ghost reading = { notification_message_reading };

    ghost encoding = { notification_message_encoding };

    fn decode(alloc: Global, cursor: &mut Cursor<'_>) -> Result<NotificationMessage, TakeFault> {
        Ok(NotificationMessage {
            sequence_number: u32::decode(alloc, cursor)?,
            publish_time: Moment::decode(alloc, cursor)?,
            notification_data: Array::<ExtensionObject>::decode(alloc, cursor)?,
        })
    }

    fn encode(&self, out: &mut Vec<u8>) -> Result<(), AllocError> {
        self.sequence_number.encode(out)?;
        self.publish_time.encode(out)?;
        self.notification_data.encode(out)?;
        Ok(())
    }
}

/// A message of a subscription: the response to [`PublishRequest`].
#[derive(Debug, Drop)]
pub struct PublishResponse {
    pub response_header: ResponseHeader,
    /// Whose message it is.
    pub subscription_id: u32,
    /// Which messages of the subscription the server keeps: Republish gives them again.
    pub available_sequence_numbers: Array<u32>,
    /// Whether there was more to tell than the message had room for.
    pub more_notifications: bool,
    pub notification_message: NotificationMessage,
    /// What became of each acknowledgement, in the order of the request.
    pub results: Array<Status>,
    pub diagnostic_infos: DiagnosticInfos,
}

#[tactic(auto, using(ua_binary::proofs::Fields::fields7), unfolding(crate::specs::Publishing::publish_response_reading, crate::specs::Publishing::publish_response_encoding))]
impl Wire for PublishResponse {
    ghost reading = { publish_response_reading };

    ghost encoding = { publish_response_encoding };

    fn decode(alloc: Global, cursor: &mut Cursor<'_>) -> Result<PublishResponse, TakeFault> {
        Ok(PublishResponse {
            response_header: ResponseHeader::decode(alloc, cursor)?,
            subscription_id: u32::decode(alloc, cursor)?,
            available_sequence_numbers: Array::<u32>::decode(alloc, cursor)?,
            more_notifications: bool::decode(alloc, cursor)?,
            notification_message: NotificationMessage::decode(alloc, cursor)?,
            results: Array::<Status>::decode(alloc, cursor)?,
            diagnostic_infos: DiagnosticInfos::decode(alloc, cursor)?,
        })
    }

    fn encode(&self, out: &mut Vec<u8>) -> Result<(), AllocError> {
        self.response_header.encode(out)?;
        self.subscription_id.encode(out)?;
        self.available_sequence_numbers.encode(out)?;
        self.more_notifications.encode(out)?;
        self.notification_message.encode(out)?;
        self.results.encode(out)?;
        self.diagnostic_infos.encode(out)?;
        Ok(())
    }
}

/// A value of a monitored item (MonitoredItemNotification, IEC 62541-4, section 7): an element of
/// [`DataChangeNotification`].
#[derive(Debug, Drop)]
pub struct MonitoredItemNotification {
    /// The client's number of the item.
    pub client_handle: u32,
    pub value: DataValue,
}

#[tactic(auto, using(ua_binary::proofs::Fields::fields2, ua_binary::proofs::Backing::length_is_backed), unfolding(crate::specs::Publishing::monitored_item_notification_reading, crate::specs::Publishing::monitored_item_notification_encoding))]
impl Wire for MonitoredItemNotification {
    ghost reading = { monitored_item_notification_reading };

    ghost encoding = { monitored_item_notification_encoding };

    ghost wants_memory = { IsBackedOrBoxed };

    fn decode(
        alloc: Global,
        cursor: &mut Cursor<'_>,
    ) -> Result<MonitoredItemNotification, TakeFault> {
        Ok(MonitoredItemNotification {
            client_handle: u32::decode(alloc, cursor)?,
            value: DataValue::decode(alloc, cursor)?,
        })
    }

    fn encode(&self, out: &mut Vec<u8>) -> Result<(), AllocError> {
        self.client_handle.encode(out)?;
        self.value.encode(out)?;
        Ok(())
    }
}

/// Values of monitored items, in the order in which they were taken for each item
/// (DataChangeNotification, IEC 62541-4, section 7).
#[derive(Debug, Drop)]
pub struct DataChangeNotification {
    pub monitored_items: Array<MonitoredItemNotification>,
    pub diagnostic_infos: DiagnosticInfos,
}

#[tactic(auto, using(ua_binary::proofs::Fields::fields2), unfolding(crate::specs::Publishing::data_change_notification_reading, crate::specs::Publishing::data_change_notification_encoding))]
impl Wire for DataChangeNotification {
    ghost reading = { data_change_notification_reading };

    ghost encoding = { data_change_notification_encoding };

    fn decode(alloc: Global, cursor: &mut Cursor<'_>) -> Result<DataChangeNotification, TakeFault> {
        Ok(DataChangeNotification {
            monitored_items: Array::<MonitoredItemNotification>::decode(alloc, cursor)?,
            diagnostic_infos: DiagnosticInfos::decode(alloc, cursor)?,
        })
    }

    fn encode(&self, out: &mut Vec<u8>) -> Result<(), AllocError> {
        self.monitored_items.encode(out)?;
        self.diagnostic_infos.encode(out)?;
        Ok(())
    }
}

/// The new state of the subscription itself, as that it has ended (StatusChangeNotification, IEC
/// 62541-4, section 7).
#[derive(Clone, Copy, Debug, PartialEq, Eq)]
pub struct StatusChangeNotification {
    pub status: Status,
    pub diagnostic_info: DiagnosticInfo,
}

#[tactic(auto, using(ua_binary::proofs::Fields::fields2), unfolding(crate::specs::Publishing::status_change_notification_reading, crate::specs::Publishing::status_change_notification_encoding))]
impl Wire for StatusChangeNotification {
    ghost reading = { status_change_notification_reading };

    ghost encoding = { status_change_notification_encoding };

    ghost spares_memory = { λ _. ⊤ };

    fn decode(
        alloc: Global,
        cursor: &mut Cursor<'_>,
    ) -> Result<StatusChangeNotification, TakeFault> {
        Ok(StatusChangeNotification {
            status: Status::decode(alloc, cursor)?,
            diagnostic_info: DiagnosticInfo::decode(alloc, cursor)?,
        })
    }

    fn encode(&self, out: &mut Vec<u8>) -> Result<(), AllocError> {
        self.status.encode(out)?;
        self.diagnostic_info.encode(out)?;
        Ok(())
    }
}

/// Asks for a message once more (Republish, IEC 62541-4, section 5, Subscription Service Set).
#[derive(Debug, Drop)]
pub struct RepublishRequest {
    pub subscription_id: u32,
    /// The message's number in its subscription.
    pub retransmit_sequence_number: u32,
}

#[tactic(auto, using(ua_binary::proofs::Fields::fields2), unfolding(crate::specs::Publishing::republish_request_reading, crate::specs::Publishing::republish_request_encoding))]
impl Wire for RepublishRequest {
    ghost reading = { republish_request_reading };

    ghost encoding = { republish_request_encoding };

    ghost spares_memory = { λ _. ⊤ };

    fn decode(alloc: Global, cursor: &mut Cursor<'_>) -> Result<RepublishRequest, TakeFault> {
        Ok(RepublishRequest {
            subscription_id: u32::decode(alloc, cursor)?,
            retransmit_sequence_number: u32::decode(alloc, cursor)?,
        })
    }

    fn encode(&self, out: &mut Vec<u8>) -> Result<(), AllocError> {
        self.subscription_id.encode(out)?;
        self.retransmit_sequence_number.encode(out)?;
        Ok(())
    }
}

impl Readable for RepublishRequest {
    ghost reading = { republish_request_reading };
}

#[tactic(auto, unfolding(crate::specs::Publishing::republish_request_reading))]
impl<'a> View<'a> for RepublishRequest {
    fn look(cursor: &mut Cursor<'a>) -> Result<RepublishRequest, TakeFault> {
        Ok(RepublishRequest {
            subscription_id: u32::look(cursor)?,
            retransmit_sequence_number: u32::look(cursor)?,
        })
    }
}

/// A message once more, as it was: the response to [`RepublishRequest`].
#[derive(Debug, Drop)]
pub struct RepublishResponse {
    pub response_header: ResponseHeader,
    pub notification_message: NotificationMessage,
}

#[tactic(auto, using(ua_binary::proofs::Fields::fields2), unfolding(crate::specs::Publishing::republish_response_reading, crate::specs::Publishing::republish_response_encoding))]
impl Wire for RepublishResponse {
    ghost reading = { republish_response_reading };

    ghost encoding = { republish_response_encoding };

    fn decode(alloc: Global, cursor: &mut Cursor<'_>) -> Result<RepublishResponse, TakeFault> {
        Ok(RepublishResponse {
            response_header: ResponseHeader::decode(alloc, cursor)?,
            notification_message: NotificationMessage::decode(alloc, cursor)?,
        })
    }

    fn encode(&self, out: &mut Vec<u8>) -> Result<(), AllocError> {
        self.response_header.encode(out)?;
        self.notification_message.encode(out)?;
        Ok(())
    }
}

//! The services that make, change and delete subscriptions.

ghost use Rattle.std.specs.Prelude.{⊤};
ghost use Rattle.ua_subscription_messages.specs.Subscriptions.{create_subscription_request_reading, create_subscription_request_encoding, create_subscription_response_reading, create_subscription_response_encoding, modify_subscription_request_reading, modify_subscription_request_encoding, modify_subscription_response_reading, modify_subscription_response_encoding, set_publishing_mode_request_reading, set_publishing_mode_request_encoding, delete_subscriptions_request_reading, delete_subscriptions_request_encoding};

use std::alloc::{AllocError, Global};
use std::marker::Model;
use ua_binary::{Cursor, TakeFault, Wire};
use ua_messages::{ResponseHeader, Results};
use ua_types::{Array, Duration, Status};
use ua_views::{ArrayView, Readable, View};

/// Asks for a subscription (CreateSubscription, IEC 62541-4, section 5, Subscription Service Set).
#[derive(Debug, Drop)]
pub struct CreateSubscriptionRequest {
    /// How often a publishing cycle is to begin, as a double of milliseconds.
    pub requested_publishing_interval: Duration,
    /// How many cycles in a row may find no Publish request before the subscription ends.
    pub requested_lifetime_count: u32,
    /// How many cycles in a row may have nothing to tell before a keep-alive message is sent.
    pub requested_max_keep_alive_count: u32,
    /// The most notifications in one message; 0 is no limit.
    pub max_notifications_per_publish: u32,
    /// Whether its notifications are sent.
    pub publishing_enabled: bool,
    /// Which of the subscriptions that are due is answered first: the one with the highest number.
    pub priority: u8,
}

#[tactic(auto, using(ua_binary::proofs::Fields::fields6), unfolding(crate::specs::Subscriptions::create_subscription_request_reading, crate::specs::Subscriptions::create_subscription_request_encoding))]
impl Wire for CreateSubscriptionRequest {
    ghost reading = { create_subscription_request_reading };

    ghost encoding = { create_subscription_request_encoding };

    ghost spares_memory = { λ _. ⊤ };

    fn decode(
        alloc: Global,
        cursor: &mut Cursor<'_>,
    ) -> Result<CreateSubscriptionRequest, TakeFault> {
        Ok(CreateSubscriptionRequest {
            requested_publishing_interval: Duration::decode(alloc, cursor)?,
            requested_lifetime_count: u32::decode(alloc, cursor)?,
            requested_max_keep_alive_count: u32::decode(alloc, cursor)?,
            max_notifications_per_publish: u32::decode(alloc, cursor)?,
            publishing_enabled: bool::decode(alloc, cursor)?,
            priority: u8::decode(alloc, cursor)?,
        })
    }

    fn encode(&self, out: &mut Vec<u8>) -> Result<(), AllocError> {
        self.requested_publishing_interval.encode(out)?;
        self.requested_lifetime_count.encode(out)?;
        self.requested_max_keep_alive_count.encode(out)?;
        self.max_notifications_per_publish.encode(out)?;
        self.publishing_enabled.encode(out)?;
        self.priority.encode(out)?;
        Ok(())
    }
}

impl Readable for CreateSubscriptionRequest {
    ghost reading = { create_subscription_request_reading };
}

#[tactic(auto, unfolding(crate::specs::Subscriptions::create_subscription_request_reading))]
impl<'a> View<'a> for CreateSubscriptionRequest {
    fn look(cursor: &mut Cursor<'a>) -> Result<CreateSubscriptionRequest, TakeFault> {
        Ok(CreateSubscriptionRequest {
            requested_publishing_interval: Duration::look(cursor)?,
            requested_lifetime_count: u32::look(cursor)?,
            requested_max_keep_alive_count: u32::look(cursor)?,
            max_notifications_per_publish: u32::look(cursor)?,
            publishing_enabled: bool::look(cursor)?,
            priority: u8::look(cursor)?,
        })
    }
}

/// A subscription and the server's choices: the response to [`CreateSubscriptionRequest`].
#[derive(Debug, Drop)]
pub struct CreateSubscriptionResponse {
    pub response_header: ResponseHeader,
    pub subscription_id: u32,
    /// How often a publishing cycle begins, as a double of milliseconds.
    pub revised_publishing_interval: Duration,
    pub revised_lifetime_count: u32,
    pub revised_max_keep_alive_count: u32,
}

#[tactic(auto, using(ua_binary::proofs::Fields::fields5), unfolding(crate::specs::Subscriptions::create_subscription_response_reading, crate::specs::Subscriptions::create_subscription_response_encoding))]
impl Wire for CreateSubscriptionResponse {
    ghost reading = { create_subscription_response_reading };

    ghost encoding = { create_subscription_response_encoding };

    fn decode(
        alloc: Global,
        cursor: &mut Cursor<'_>,
    ) -> Result<CreateSubscriptionResponse, TakeFault> {
        Ok(CreateSubscriptionResponse {
            response_header: ResponseHeader::decode(alloc, cursor)?,
            subscription_id: u32::decode(alloc, cursor)?,
            revised_publishing_interval: Duration::decode(alloc, cursor)?,
            revised_lifetime_count: u32::decode(alloc, cursor)?,
            revised_max_keep_alive_count: u32::decode(alloc, cursor)?,
        })
    }

    fn encode(&self, out: &mut Vec<u8>) -> Result<(), AllocError> {
        self.response_header.encode(out)?;
        self.subscription_id.encode(out)?;
        self.revised_publishing_interval.encode(out)?;
        self.revised_lifetime_count.encode(out)?;
        self.revised_max_keep_alive_count.encode(out)?;
        Ok(())
    }
}

/// Changes a subscription (ModifySubscription, IEC 62541-4, section 5, Subscription Service Set).
#[derive(Debug, Drop)]
pub struct ModifySubscriptionRequest {
    pub subscription_id: u32,
    /// How often a publishing cycle is to begin, as a double of milliseconds.
    pub requested_publishing_interval: Duration,
    /// How many cycles in a row may find no Publish request before the subscription ends.
    pub requested_lifetime_count: u32,
    /// How many cycles in a row may have nothing to tell before a keep-alive message is sent.
    pub requested_max_keep_alive_count: u32,
    /// The most notifications in one message; 0 is no limit.
    pub max_notifications_per_publish: u32,
    /// Which of the subscriptions that are due is answered first: the one with the highest number.
    pub priority: u8,
}

#[tactic(auto, using(ua_binary::proofs::Fields::fields6), unfolding(crate::specs::Subscriptions::modify_subscription_request_reading, crate::specs::Subscriptions::modify_subscription_request_encoding))]
impl Wire for ModifySubscriptionRequest {
    ghost reading = { modify_subscription_request_reading };

    ghost encoding = { modify_subscription_request_encoding };

    ghost spares_memory = { λ _. ⊤ };

    fn decode(
        alloc: Global,
        cursor: &mut Cursor<'_>,
    ) -> Result<ModifySubscriptionRequest, TakeFault> {
        Ok(ModifySubscriptionRequest {
            subscription_id: u32::decode(alloc, cursor)?,
            requested_publishing_interval: Duration::decode(alloc, cursor)?,
            requested_lifetime_count: u32::decode(alloc, cursor)?,
            requested_max_keep_alive_count: u32::decode(alloc, cursor)?,
            max_notifications_per_publish: u32::decode(alloc, cursor)?,
            priority: u8::decode(alloc, cursor)?,
        })
    }

    fn encode(&self, out: &mut Vec<u8>) -> Result<(), AllocError> {
        self.subscription_id.encode(out)?;
        self.requested_publishing_interval.encode(out)?;
        self.requested_lifetime_count.encode(out)?;
        self.requested_max_keep_alive_count.encode(out)?;
        self.max_notifications_per_publish.encode(out)?;
        self.priority.encode(out)?;
        Ok(())
    }
}

impl Readable for ModifySubscriptionRequest {
    ghost reading = { modify_subscription_request_reading };
}

#[tactic(auto, unfolding(crate::specs::Subscriptions::modify_subscription_request_reading))]
impl<'a> View<'a> for ModifySubscriptionRequest {
    fn look(cursor: &mut Cursor<'a>) -> Result<ModifySubscriptionRequest, TakeFault> {
        Ok(ModifySubscriptionRequest {
            subscription_id: u32::look(cursor)?,
            requested_publishing_interval: Duration::look(cursor)?,
            requested_lifetime_count: u32::look(cursor)?,
            requested_max_keep_alive_count: u32::look(cursor)?,
            max_notifications_per_publish: u32::look(cursor)?,
            priority: u8::look(cursor)?,
        })
    }
}

/// The server's choices: the response to [`ModifySubscriptionRequest`].
#[derive(Debug, Drop)]
pub struct ModifySubscriptionResponse {
    pub response_header: ResponseHeader,
    /// How often a publishing cycle begins, as a double of milliseconds.
    pub revised_publishing_interval: Duration,
    pub revised_lifetime_count: u32,
    pub revised_max_keep_alive_count: u32,
}

#[tactic(auto, using(ua_binary::proofs::Fields::fields4), unfolding(crate::specs::Subscriptions::modify_subscription_response_reading, crate::specs::Subscriptions::modify_subscription_response_encoding))]
impl Wire for ModifySubscriptionResponse {
    ghost reading = { modify_subscription_response_reading };

    ghost encoding = { modify_subscription_response_encoding };

    fn decode(
        alloc: Global,
        cursor: &mut Cursor<'_>,
    ) -> Result<ModifySubscriptionResponse, TakeFault> {
        Ok(ModifySubscriptionResponse {
            response_header: ResponseHeader::decode(alloc, cursor)?,
            revised_publishing_interval: Duration::decode(alloc, cursor)?,
            revised_lifetime_count: u32::decode(alloc, cursor)?,
            revised_max_keep_alive_count: u32::decode(alloc, cursor)?,
        })
    }

    fn encode(&self, out: &mut Vec<u8>) -> Result<(), AllocError> {
        self.response_header.encode(out)?;
        self.revised_publishing_interval.encode(out)?;
        self.revised_lifetime_count.encode(out)?;
        self.revised_max_keep_alive_count.encode(out)?;
        Ok(())
    }
}

/// Says whether the notifications of subscriptions are sent (SetPublishingMode, IEC 62541-4,
/// section 5, Subscription Service Set).
#[derive(Debug, Drop)]
pub struct SetPublishingModeRequest {
    pub publishing_enabled: bool,
    pub subscription_ids: Array<u32>,
}

#[tactic(auto, using(ua_binary::proofs::Fields::fields2), unfolding(crate::specs::Subscriptions::set_publishing_mode_request_reading, crate::specs::Subscriptions::set_publishing_mode_request_encoding))]
impl Wire for SetPublishingModeRequest {
    ghost reading = { set_publishing_mode_request_reading };

    ghost encoding = { set_publishing_mode_request_encoding };

    fn decode(
        alloc: Global,
        cursor: &mut Cursor<'_>,
    ) -> Result<SetPublishingModeRequest, TakeFault> {
        Ok(SetPublishingModeRequest {
            publishing_enabled: bool::decode(alloc, cursor)?,
            subscription_ids: Array::<u32>::decode(alloc, cursor)?,
        })
    }

    fn encode(&self, out: &mut Vec<u8>) -> Result<(), AllocError> {
        self.publishing_enabled.encode(out)?;
        self.subscription_ids.encode(out)?;
        Ok(())
    }
}

/// A [`SetPublishingModeRequest`] in the bytes that it stands in.
#[derive(Debug, Drop)]
pub struct SetPublishingModeRequestView<'a> {
    pub publishing_enabled: bool,
    pub subscription_ids: ArrayView<'a, u32>,
}

impl<'a> Model for SetPublishingModeRequestView<'a> {
    ghost use Rattle.ua_subscription_messages.specs.declared.subscriptions.SetPublishingModeRequest.{SetPublishingModeRequest};

    ghost Value = { SetPublishingModeRequest };

    ghost view = { λ v. record { publishing_enabled = v.publishing_enabled; subscription_ids = v.subscription_ids } };
}

impl<'a> Readable for SetPublishingModeRequestView<'a> {
    ghost reading = { set_publishing_mode_request_reading };
}

#[tactic(auto, unfolding(crate::specs::Subscriptions::set_publishing_mode_request_reading))]
impl<'a> View<'a> for SetPublishingModeRequestView<'a> {
    fn look(cursor: &mut Cursor<'a>) -> Result<SetPublishingModeRequestView<'a>, TakeFault> {
        Ok(SetPublishingModeRequestView {
            publishing_enabled: bool::look(cursor)?,
            subscription_ids: ArrayView::<u32>::look(cursor)?,
        })
    }
}

/// What became of each subscription, in the order of the request: the response to
/// [`SetPublishingModeRequest`].
pub type SetPublishingModeResponse = Results<Status>;

/// Deletes subscriptions (DeleteSubscriptions, IEC 62541-4, section 5, Subscription Service Set).
#[derive(Debug, Drop)]
pub struct DeleteSubscriptionsRequest {
    pub subscription_ids: Array<u32>,
}

#[tactic(auto, using(ua_binary::proofs::Fields::fields1), unfolding(crate::specs::Subscriptions::delete_subscriptions_request_reading, crate::specs::Subscriptions::delete_subscriptions_request_encoding))]
impl Wire for DeleteSubscriptionsRequest {
    ghost reading = { delete_subscriptions_request_reading };

    ghost encoding = { delete_subscriptions_request_encoding };

    fn decode(
        alloc: Global,
        cursor: &mut Cursor<'_>,
    ) -> Result<DeleteSubscriptionsRequest, TakeFault> {
        Ok(DeleteSubscriptionsRequest {
            subscription_ids: Array::<u32>::decode(alloc, cursor)?,
        })
    }

    fn encode(&self, out: &mut Vec<u8>) -> Result<(), AllocError> {
        self.subscription_ids.encode(out)?;
        Ok(())
    }
}

/// A [`DeleteSubscriptionsRequest`] in the bytes that it stands in.
#[derive(Debug, Drop)]
pub struct DeleteSubscriptionsRequestView<'a> {
    pub subscription_ids: ArrayView<'a, u32>,
}

impl<'a> Model for DeleteSubscriptionsRequestView<'a> {
    ghost use Rattle.ua_subscription_messages.specs.declared.subscriptions.DeleteSubscriptionsRequest.{DeleteSubscriptionsRequest};

    ghost Value = { DeleteSubscriptionsRequest };

    ghost view = { λ v. record { subscription_ids = v.subscription_ids } };
}

impl<'a> Readable for DeleteSubscriptionsRequestView<'a> {
    ghost reading = { delete_subscriptions_request_reading };
}

#[tactic(auto, unfolding(crate::specs::Subscriptions::delete_subscriptions_request_reading))]
impl<'a> View<'a> for DeleteSubscriptionsRequestView<'a> {
    fn look(cursor: &mut Cursor<'a>) -> Result<DeleteSubscriptionsRequestView<'a>, TakeFault> {
        Ok(DeleteSubscriptionsRequestView {
            subscription_ids: ArrayView::<u32>::look(cursor)?,
        })
    }
}

/// What became of each subscription, in the order of the request: the response to
/// [`DeleteSubscriptionsRequest`].
pub type DeleteSubscriptionsResponse = Results<Status>;

//! The service ModifySubscription (IEC 62541-4, "ModifySubscription").

ghost use Rattle.std.specs.Prelude.{◌≡◌, IfOk};
ghost use Rattle.ua_services.specs.ModifySubscription.{modify_subscription_body, modify_subscription_meaning};

use crate::caller::Caller;
use crate::services::Services;
use crate::session_service::SessionService;
use crate::sub_serving::{apart, reply_first};
use server_messages::{Served, Setting};
use std::alloc::{AllocError, Global};
use ua_messages::{MessageBody, ResponseHeader, body, fault, type_ids};
use ua_subscription_messages::{
    ModifySubscriptionRequest, ModifySubscriptionResponse, SubscriptionId,
};
use ua_subscriptions::{Requester, Revised, Settings};
use ua_types::{Refusal, Status};

// What a client is told of its subscription, or why nothing changed.
fn answer_body(
    alloc: Global,
    setting: &Setting,
    caller: &Caller,
    answer: Result<Revised, Status>,
) -> Result<MessageBody, AllocError>
    ensures { IfOk result (λ body. body ≡ modify_subscription_body setting.now caller.now answer) }
{
    match answer {
        Ok(revised) => {
            let response = ModifySubscriptionResponse {
                response_header: ResponseHeader::good(caller.origin.handle, setting.clock),
                revised_publishing_interval: setting.config.publish_duration,
                revised_lifetime_count: revised.lifetime_count,
                revised_max_keep_alive_count: revised.keep_alive_count,
            };
            body(alloc, type_ids::MODIFY_SUBSCRIPTION_RESPONSE, &response)
        }
        Err(status) => fault(alloc, caller.origin.handle, status, setting.clock),
    }
}

/// Gives a subscription of the session other counts, another size of messages and another priority. They are revised as
/// for [`crate::create_subscription::CreateSubscription`].
///
/// The fault is `BAD_SUBSCRIPTION_ID_INVALID` where the session has no such subscription.
pub struct ModifySubscription;

impl<'a> SessionService<'a> for ModifySubscription {
    type Request = ModifySubscriptionRequest;

    ghost meaning = { modify_subscription_meaning };

    fn serve(
        setting: &Setting,
        caller: &Caller,
        session: u32,
        request: ModifySubscriptionRequest,
        services: &mut Services,
    ) -> Result<Served, Refusal> {
        let alloc = services.allocator();
        let settings = Settings {
            keep_alive_count: request.requested_max_keep_alive_count,
            lifetime_count: request.requested_lifetime_count,
            notifications: request.max_notifications_per_publish,
            priority: request.priority,
        };
        let subscription = SubscriptionId(request.subscription_id);
        let requester = Requester {
            session,
            clock: setting.clock,
        };
        let items = &mut services.items;
        let answered = services
            .subscriptions
            .modify(items, requester, subscription, settings)?;
        let (answer, others) = apart(alloc, answered);
        let body = answer_body(alloc, setting, caller, answer)?;
        Ok(reply_first(alloc, caller, body, others)?)
    }
}

//! The service CreateSubscription (IEC 62541-4, "CreateSubscription").

ghost use Rattle.std.specs.Prelude.{◌≡◌, IfOk};
ghost use Rattle.ua_services.specs.CreateSubscription.{create_subscription_body, create_subscription_meaning};

use crate::caller::Caller;
use crate::services::Services;
use crate::session_service::SessionService;
use crate::sub_serving::{apart, reply_first};
use server_messages::{Served, Setting};
use std::alloc::{AllocError, Global};
use ua_messages::{MessageBody, ResponseHeader, body, fault, type_ids};
use ua_subscription_messages::{CreateSubscriptionRequest, CreateSubscriptionResponse};
use ua_subscriptions::{Created, Requester, Settings};
use ua_types::{Refusal, Status};

// What a client is told of its new subscription, or why there is none.
fn answer_body(
    alloc: Global,
    setting: &Setting,
    caller: &Caller,
    answer: Result<Created, Status>,
) -> Result<MessageBody, AllocError>
    ensures { IfOk result (λ body. body ≡ create_subscription_body setting.now caller.now answer) }
{
    match answer {
        Ok(created) => {
            let response = CreateSubscriptionResponse {
                response_header: ResponseHeader::good(caller.origin.handle, setting.clock),
                subscription_id: created.number,
                revised_publishing_interval: setting.config.publish_duration,
                revised_lifetime_count: created.revised.lifetime_count,
                revised_max_keep_alive_count: created.revised.keep_alive_count,
            };
            body(alloc, type_ids::CREATE_SUBSCRIPTION_RESPONSE, &response)
        }
        Err(status) => fault(alloc, caller.origin.handle, status, setting.clock),
    }
}

/// Makes a subscription of the session. Its counts and the size of its messages are revised into what the server allows
/// ([`ua_subscriptions::Subscriptions::create`]), and its publishing interval is the configuration's, whatever was asked.
///
/// The fault is `BAD_TOO_MANY_SUBSCRIPTIONS` where the session has as many as the configuration allows, or the numbers
/// are used up.
pub struct CreateSubscription;

impl<'a> SessionService<'a> for CreateSubscription {
    type Request = CreateSubscriptionRequest;

    ghost meaning = { create_subscription_meaning };

    fn serve(
        setting: &Setting,
        caller: &Caller,
        session: u32,
        request: CreateSubscriptionRequest,
        services: &mut Services,
    ) -> Result<Served, Refusal> {
        let alloc = services.allocator();
        let settings = Settings {
            keep_alive_count: request.requested_max_keep_alive_count,
            lifetime_count: request.requested_lifetime_count,
            notifications: request.max_notifications_per_publish,
            priority: request.priority,
        };
        let enabled = request.publishing_enabled;
        let requester = Requester {
            session,
            clock: setting.clock,
        };
        let items = &mut services.items;
        let answered = services
            .subscriptions
            .create(items, requester, settings, enabled)?;
        let (answer, others) = apart(alloc, answered);
        let body = answer_body(alloc, setting, caller, answer)?;
        Ok(reply_first(alloc, caller, body, others)?)
    }
}

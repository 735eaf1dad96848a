//! The service Republish (IEC 62541-4, "Republish").

ghost use Rattle.std.specs.Prelude.{◌≡◌, IfOk};
ghost use Rattle.ua_services.specs.Republish.{republish_answer, republish_meaning};

use crate::caller::Caller;
use crate::services::Services;
use crate::session_service::SessionService;
use crate::sub_serving::{apart, reply_first};
use bytes::Bytes;
use server_messages::{Served, Setting};
use std::alloc::{AllocError, Global};
use ua_messages::{MessageBody, ResponseHeader, fault};
use ua_subscription_messages::{RepublishRequest, SubscriptionId, republish_body};
use ua_subscriptions::Requester;
use ua_types::{Refusal, Status};

// The response with a message's bytes as they were made, or why there is none.
fn answer_body(
    alloc: Global,
    setting: &Setting,
    caller: &Caller,
    answer: Result<Bytes, Status>,
) -> Result<MessageBody, AllocError>
    ensures { IfOk result (λ body. body ≡ republish_answer setting.now caller.now answer) }
{
    match answer {
        Ok(message) => {
            let header = ResponseHeader::good(caller.origin.handle, setting.clock);
            republish_body(alloc, &header, message.as_slice())
        }
        Err(status) => fault(alloc, caller.origin.handle, status, setting.clock),
    }
}

/// Gives a message of a subscription of the session once more, byte for byte as it was first sent.
///
/// The faults, in this order: `BAD_SUBSCRIPTION_ID_INVALID` where the session has no such subscription,
/// `BAD_MESSAGE_NOT_AVAILABLE` where the message isn't kept.
pub struct Republish;

impl<'a> SessionService<'a> for Republish {
    type Request = RepublishRequest;

    ghost meaning = { republish_meaning };

    fn serve(
        setting: &Setting,
        caller: &Caller,
        session: u32,
        request: RepublishRequest,
        services: &mut Services,
    ) -> Result<Served, Refusal> {
        let alloc = services.allocator();
        let subscription = SubscriptionId(request.subscription_id);
        let wanted = request.retransmit_sequence_number;
        let requester = Requester {
            session,
            clock: setting.clock,
        };
        let items = &mut services.items;
        let answered = services
            .subscriptions
            .republish(items, requester, subscription, wanted)?;
        let (answer, others) = apart(alloc, answered);
        let body = answer_body(alloc, setting, caller, answer)?;
        Ok(reply_first(alloc, caller, body, others)?)
    }
}

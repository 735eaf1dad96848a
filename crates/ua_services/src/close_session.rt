//! The service CloseSession (IEC 62541-4, "CloseSession").

ghost use Rattle.std.specs.Prelude.{◌≡◌, IfOk};
ghost use Rattle.ua_services.specs.CloseSession.{close_session_body, close_session_meaning};
ghost use Rattle.ua_services.specs.Serving.{replied, reply_of};

use crate::caller::Caller;
use crate::service::{Service, reply};
use crate::services::Services;
use crate::sub_serving::{end_session, joined};
use server_messages::{Served, Setting};
use std::alloc::{AllocError, Global};
use ua_messages::{ResponseHeader, body, type_ids};
use ua_service_messages::{CloseSessionRequest, CloseSessionResponse};
use ua_types::Refusal;
use ua_views::NodeIdView;

// The answer, once the session is no more.
fn closed(alloc: Global, setting: &Setting, caller: &Caller) -> Result<Served, AllocError>
    ensures { IfOk result (λ served. served ≡ replied (reply_of caller.now (close_session_body setting.now caller.now))) }
{
    let response = CloseSessionResponse {
        response_header: ResponseHeader::good(caller.origin.handle, setting.clock),
    };
    let body = body(alloc, type_ids::CLOSE_SESSION_RESPONSE, &response)?;
    reply(alloc, caller, body)
}

/// Ends a session, which need not have been activated. Its subscriptions are deleted, or left to their lifetime, as the
/// client asks; its Publish requests that wait are answered before this one.
///
/// The faults, in this order: `BAD_SESSION_ID_INVALID` where no session has the token, and
/// `BAD_SECURE_CHANNEL_ID_INVALID` on another connection than the session's.
pub struct CloseSession;

impl<'a> Service<'a> for CloseSession {
    type Request = CloseSessionRequest;

    ghost meaning = { close_session_meaning };

    fn serve(
        setting: &Setting,
        caller: &Caller,
        token: &NodeIdView<'_>,
        request: CloseSessionRequest,
        services: &mut Services,
    ) -> Result<Served, Refusal> {
        let number = services.sessions.close(token, caller.origin.conn)?;
        let deleting = request.delete_subscriptions;
        let ended = end_session(setting, number, deleting, services)?;
        Ok(joined(ended, closed(services.allocator(), setting, caller)?)?)
    }
}

//! The service ActivateSession (IEC 62541-4, "ActivateSession").

ghost use Rattle.std.specs.Prelude.{◌≡◌, IfOk};
ghost use Rattle.ua_services.specs.ActivateSession.{activate_session_meaning, activate_session_response, is_anonymous as is_anonymous_spec};

use crate::caller::Caller;
use crate::service::{Service, reply};
use crate::services::Services;
use server_messages::{Served, Setting};
use std::alloc::{AllocError, Global};
use ua_messages::{DiagnosticInfos, ResponseHeader, body, structure_view, type_ids};
use ua_service_messages::{
    ActivateSessionRequestView, ActivateSessionResponse, AnonymousIdentityTokenView,
};
use ua_types::{Array, ByteString, Refusal};
use ua_views::{ExtensionObjectBodyView, ExtensionObjectView, NodeIdView};

// Whether the user stays anonymous.
fn is_anonymous(identity: &ExtensionObjectView<'_>) -> bool
    ensures { result ≡ is_anonymous_spec identity.now }
{
    if matches!(&identity.body, ExtensionObjectBodyView::Absent) {
        return true;
    }
    let type_id = type_ids::ANONYMOUS_IDENTITY_TOKEN;
    structure_view::<AnonymousIdentityTokenView<'_>>(type_id, identity).is_ok()
}

fn response(
    alloc: Global,
    setting: &Setting,
    handle: u32,
    nonce: &[u8; 32],
) -> Result<ActivateSessionResponse, AllocError>
    ensures { IfOk result (λ response. response ≡ activate_session_response setting.now.clock handle nonce.now) }
{
    Ok(ActivateSessionResponse {
        response_header: ResponseHeader::good(handle, setting.clock),
        server_nonce: ByteString::from_slice(alloc, &nonce[..])?,
        results: Array::new(Vec::new(alloc)),
        diagnostic_infos: DiagnosticInfos,
    })
}

/// Says who the user is, and moves the session to the connection that the request came by.
///
/// The faults, in this order: `BAD_SESSION_ID_INVALID` where no session has the token,
/// `BAD_SECURE_CHANNEL_ID_INVALID` for a session that was never activated, on another connection than
/// that it was made on, and `BAD_IDENTITY_TOKEN_REJECTED` for any user but an anonymous one.
pub struct ActivateSession;

impl<'a> Service<'a> for ActivateSession {
    type Request = ActivateSessionRequestView<'a>;

    ghost meaning = { activate_session_meaning };

    fn serve(
        setting: &Setting,
        caller: &Caller,
        token: &NodeIdView<'_>,
        request: ActivateSessionRequestView<'a>,
        services: &mut Services,
    ) -> Result<Served, Refusal> {
        let alloc = services.allocator();
        let is_anonymous = is_anonymous(&request.user_identity_token);
        let nonce = services
            .sessions
            .activate(token, caller.origin.conn, &caller.key, is_anonymous)?;
        let response = response(alloc, setting, caller.origin.handle, &nonce)?;
        let body = body(alloc, type_ids::ACTIVATE_SESSION_RESPONSE, &response)?;
        Ok(reply(alloc, caller, body)?)
    }
}

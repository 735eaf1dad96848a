//! The service CreateSession (IEC 62541-4, "CreateSession").

ghost use Rattle.std.specs.Prelude.{◌≡◌, IfOk};
ghost use Rattle.ua_messages.specs.Bodies.{body_encoding};
ghost use Rattle.ua_messages.specs.declared.type_ids.TheConstants.{CREATE_SESSION_RESPONSE};
ghost use Rattle.ua_service_messages.specs.Sessions.{create_session_response_encoding};
ghost use Rattle.ua_services.specs.CreateSession.{create_session_meaning, create_session_response};

use crate::caller::Caller;
use crate::endpoint_list::Endpoint;
use crate::service::{Service, reply};
use crate::services::Services;
use server_messages::{Served, Setting};
use std::alloc::{AllocError, Global};
use std::array;
use ua_messages::{MessageBody, ResponseHeader, type_ids};
use ua_service_messages::{CreateSessionRequestView, SignatureData, SignedSoftwareCertificate};
use ua_session::{Created, session_id};
use ua_types::{Array, ByteString, NodeId, Refusal, Text};
use ua_views::NodeIdView;

// The body of the response that tells of a new session. The endpoint is written from where the configuration stands.
#[tactic(auto, using(ua_binary::proofs::Fields::fields10), unfolding(ua_service_messages::specs::Sessions::create_session_response_encoding))]
fn response_body(
    alloc: Global,
    setting: &Setting,
    handle: u32,
    session: Created,
) -> Result<MessageBody, AllocError>
    ensures { IfOk result (λ body. body ≡ body_encoding create_session_response_encoding CREATE_SESSION_RESPONSE (create_session_response setting.now.config setting.now.clock handle session)) }
{
    let config = &setting.config;
    let mut body = MessageBody::new(alloc)?;
    body.write(&NodeId::numeric(0, type_ids::CREATE_SESSION_RESPONSE))?;
    body.write(&ResponseHeader::good(handle, setting.clock))?;
    body.write(&session_id(session.number))?;
    body.write(&session.token)?;
    body.write(&config.session_duration)?;
    body.write(&ByteString::from_slice(alloc, &session.nonce[..])?)?;
    body.write(&ByteString::null())?;
    let endpoint = Endpoint::of(config);
    body.write_list(array::from_ref(&endpoint))?;
    body.write(&Array::<SignedSoftwareCertificate>::null())?;
    let unsigned = SignatureData {
        algorithm: Text::null(),
        signature: ByteString::null(),
    };
    body.write(&unsigned)?;
    body.write(&config.max_message)?;
    Ok(body)
}

/// Makes a session for the client, which it activates next.
///
/// The fault is `BAD_TOO_MANY_SESSIONS` where as many are held as the configuration allows, or their
/// numbers are used up. Of the request nothing is used.
pub struct CreateSession;

impl<'a> Service<'a> for CreateSession {
    type Request = CreateSessionRequestView<'a>;

    ghost meaning = { create_session_meaning };

    fn serve(
        setting: &Setting,
        caller: &Caller,
        _token: &NodeIdView<'_>,
        _request: CreateSessionRequestView<'a>,
        services: &mut Services,
    ) -> Result<Served, Refusal> {
        let alloc = services.allocator();
        let conn = caller.origin.conn;
        let session = services.sessions.create(alloc, conn, &caller.key)?;
        let body = response_body(alloc, setting, caller.origin.handle, session)?;
        Ok(reply(alloc, caller, body)?)
    }
}

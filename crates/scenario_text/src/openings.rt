//! The bodies of what no session asks.

ghost use Rattle.std.specs.Prelude.{◌≡◌, IfOk};
ghost use Rattle.scenario_text.specs.Messages.{endpoints_body, create_session_body, opening_body, closing_body, IsEndpointsBody, IsSessionBody, IsOpeningBody, IsClosingBody};

use crate::bodies::{whole_body, whole_request};
use crate::choices::ChannelRequest;
use crate::structures::{NO_DURATION, no_application, request_type};
use std::alloc::{AllocError, Global};
use ua_messages::{
    CloseSecureChannelRequest, GetEndpointsRequest, MessageSecurityMode, OpenSecureChannelRequest,
    RequestHeader, type_ids,
};
use ua_service_messages::CreateSessionRequest;
use ua_types::{Array, ByteString, Text};

/// How long a token is asked for, in milliseconds.
const LIFETIME: u32 = 3_600_000;

/// The body of GetEndpoints, with this header.
#[tactic(auto, unfolding(crate::specs::Messages::endpoints_body))]
pub fn endpoints_body(alloc: Global, header: RequestHeader) -> Result<Vec<u8>, AllocError>
    ensures ok { IfOk result (λ bytes. bytes.items ≡ endpoints_body header) }
    ensures again { IfOk result (λ bytes. IsEndpointsBody header bytes.items) }
{
    let fields = GetEndpointsRequest {
        endpoint_url: Text::null(),
        locale_ids: Array::null(),
        profile_uris: Array::null(),
    };
    whole_request(alloc, type_ids::GET_ENDPOINTS_REQUEST, header, fields)
}

/// The body of CreateSession, with this header.
#[tactic(auto, unfolding(crate::specs::Messages::create_session_body))]
pub fn create_session_body(alloc: Global, header: RequestHeader) -> Result<Vec<u8>, AllocError>
    ensures ok { IfOk result (λ bytes. bytes.items ≡ create_session_body header) }
    ensures again { IfOk result (λ bytes. IsSessionBody header bytes.items) }
{
    let fields = CreateSessionRequest {
        client_description: no_application(),
        server_uri: Text::null(),
        endpoint_url: Text::null(),
        session_name: Text::null(),
        client_nonce: ByteString::null(),
        client_certificate: ByteString::null(),
        requested_session_timeout: NO_DURATION,
        max_response_message_size: 0,
    };
    whole_request(alloc, type_ids::CREATE_SESSION_REQUEST, header, fields)
}

/// The body of OpenSecureChannel, with this header.
#[tactic(auto, unfolding(crate::specs::Messages::opening_body))]
pub fn opening_body(
    alloc: Global,
    header: RequestHeader,
    request: ChannelRequest,
) -> Result<Vec<u8>, AllocError>
    ensures ok { IfOk result (λ bytes. bytes.items ≡ opening_body header request) }
    ensures again { IfOk result (λ bytes. IsOpeningBody header request bytes.items) }
{
    let message = OpenSecureChannelRequest {
        request_header: header,
        client_protocol_version: 0,
        request_type: request_type(request),
        security_mode: MessageSecurityMode::NONE,
        client_nonce: ByteString::null(),
        requested_lifetime: LIFETIME,
    };
    whole_body(alloc, type_ids::OPEN_SECURE_CHANNEL_REQUEST, &message)
}

/// The body of CloseSecureChannel, with this header.
#[tactic(auto, unfolding(crate::specs::Messages::closing_body))]
pub fn closing_body(alloc: Global, header: RequestHeader) -> Result<Vec<u8>, AllocError>
    ensures ok { IfOk result (λ bytes. bytes.items ≡ closing_body header) }
    ensures again { IfOk result (λ bytes. IsClosingBody header bytes.items) }
{
    let message = CloseSecureChannelRequest {
        request_header: header,
    };
    whole_body(alloc, type_ids::CLOSE_SECURE_CHANNEL_REQUEST, &message)
}

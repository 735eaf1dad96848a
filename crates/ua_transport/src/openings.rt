//! Requests to open a channel or to renew its token. They are read without memory.

ghost use Rattle.std.specs.Prelude.{◌≡◌, option_map};
ghost use Rattle.ua_messages.specs.Headers.{request_header_reading};
ghost use Rattle.ua_messages.specs.SecureChannels.{open_secure_channel_request_reading};
ghost use Rattle.ua_views.specs.Passing.{Tells};
ghost use Rattle.ua_transport.specs.Headers.{opening_header_reading};
ghost use Rattle.ua_transport.specs.Openings.{is_policy_none as is_policy_none_spec, judged_in, handle_in, asked_in, opening_request_of, renewal_of};

use ua_binary::{Cursor, TakeFault};
use ua_messages::{
    MessageSecurityMode, SECURITY_POLICY_NONE, SecurityTokenRequestType, message_id, type_ids,
};
use ua_types::{Moment, Status};
use ua_views::{ByteStringView, ExtensionObjectView, NodeIdView, TextView, View};

fn is_policy_none(uri: Option<&str>) -> bool
    ensures { result ≡ is_policy_none_spec (option_map (λ t. t.now) uri.entry) }
{
    match uri {
        Some(uri) => uri == SECURITY_POLICY_NONE,
        None => false,
    }
}

/// What of the header of an OPN the channel needs.
#[derive(Clone, Copy)]
pub struct JudgedHeader {
    pub channel_id: u32,
    /// Whether messages are neither signed nor encrypted.
    pub is_policy_none: bool,
    pub sequence_number: u32,
    pub request_id: u32,
}

// Moves past the header of an OPN, and tells what of it the channel needs.
#[tactic(auto, unfolding(crate::specs::Headers::opening_header_reading))]
pub(crate) fn judged_header(cursor: &mut Cursor<'_>) -> Result<JudgedHeader, TakeFault>
    ensures { Tells judged_in result cursor.new (opening_header_reading cursor.old) }
{
    let channel_id = cursor.number()?;
    let uri = cursor.text()?;
    ByteStringView::pass(cursor)?;
    ByteStringView::pass(cursor)?;
    let sequence_number = cursor.number()?;
    let request_id = cursor.number()?;
    Ok(JudgedHeader {
        channel_id,
        is_policy_none: is_policy_none(uri),
        sequence_number,
        request_id,
    })
}

/// What of an OpenSecureChannelRequest the channel needs.
#[derive(Clone, Copy)]
pub struct OpeningRequest {
    /// The handle in the request's header.
    pub handle: u32,
    pub request_type: SecurityTokenRequestType,
    pub security_mode: MessageSecurityMode,
}

// Moves past the header of a request, and tells its handle.
#[tactic(auto, unfolding(ua_messages::specs::Headers::request_header_reading))]
fn request_handle(cursor: &mut Cursor<'_>) -> Result<u32, TakeFault>
    ensures { Tells handle_in result cursor.new (request_header_reading cursor.old) }
{
    NodeIdView::pass(cursor)?;
    Moment::pass(cursor)?;
    let handle = cursor.number()?;
    u32::pass(cursor)?;
    TextView::pass(cursor)?;
    u32::pass(cursor)?;
    ExtensionObjectView::pass(cursor)?;
    Ok(handle)
}

// Moves past the fields of an OpenSecureChannelRequest, and tells what of them the channel needs.
#[tactic(auto, unfolding(ua_messages::specs::SecureChannels::open_secure_channel_request_reading, ua_binary::specs::Enumerations::enumeration_reading, ua_binary::specs::Numbers::signed_reading))]
fn asked(cursor: &mut Cursor<'_>) -> Result<OpeningRequest, TakeFault>
    ensures { Tells asked_in result cursor.new (open_secure_channel_request_reading cursor.old) }
{
    let handle = request_handle(cursor)?;
    u32::pass(cursor)?;
    let request_type = cursor.number()?;
    let security_mode = cursor.number()?;
    ByteStringView::pass(cursor)?;
    u32::pass(cursor)?;
    Ok(OpeningRequest {
        handle,
        request_type: SecurityTokenRequestType(request_type.cast_signed()),
        security_mode: MessageSecurityMode(security_mode.cast_signed()),
    })
}

// The request that the body of an OPN is.
#[tactic(auto, unfolding(ua_messages::specs::Bodies::message_of))]
pub(crate) fn opening_request(body: &[u8]) -> Result<OpeningRequest, Status>
    ensures { result ≡ opening_request_of body.now }
{
    match message_id(body) {
        Ok(type_ids::OPEN_SECURE_CHANNEL_REQUEST) => {}
        _ => return Err(Status::BAD_DECODING_ERROR),
    }
    let mut cursor = Cursor::new(body);
    if NodeIdView::pass(&mut cursor).is_err() {
        return Err(Status::BAD_DECODING_ERROR);
    }
    match asked(&mut cursor) {
        Ok(request) => Ok(request),
        Err(_) => Err(Status::BAD_DECODING_ERROR),
    }
}

// Whether a request that came with this channel number renews the token of the open channel.
pub(crate) fn renewal(
    channel_id: Option<u32>,
    number: u32,
    request: &OpeningRequest,
) -> Result<bool, Status>
    ensures { result ≡ renewal_of channel_id number request.now }
{
    let renew = match request.request_type {
        SecurityTokenRequestType::ISSUE => false,
        SecurityTokenRequestType::RENEW => true,
        _ => return Err(Status::BAD_DECODING_ERROR),
    };
    if request.security_mode != MessageSecurityMode::NONE {
        return Err(Status::BAD_SECURITY_MODE_REJECTED);
    }
    if !renew && channel_id.is_some() {
        return Err(Status::BAD_SECURE_CHANNEL_ID_INVALID);
    }
    if renew && channel_id != Some(number) {
        return Err(Status::BAD_TCP_SECURE_CHANNEL_UNKNOWN);
    }
    Ok(renew)
}

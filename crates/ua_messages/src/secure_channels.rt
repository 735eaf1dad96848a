//! The services OpenSecureChannel and CloseSecureChannel.

ghost use Rattle.ua_messages.specs.SecureChannels.{open_secure_channel_request_reading, open_secure_channel_request_encoding, open_secure_channel_response_reading, open_secure_channel_response_encoding, close_secure_channel_request_reading, close_secure_channel_request_encoding};

use crate::enumerations::{MessageSecurityMode, SecurityTokenRequestType};
use crate::headers::{RequestHeader, ResponseHeader};
use std::alloc::{AllocError, Global};
use ua_binary::{Cursor, TakeFault, Wire};
use ua_types::{ByteString, Moment};

/// Asks for a secure channel or a new token of one (OpenSecureChannel, IEC 62541-4, section 5,
/// SecureChannel Service Set; its fields are in IEC 62541-6, 6.7.4).
#[derive(Debug, Drop)]
pub struct OpenSecureChannelRequest {
    pub request_header: RequestHeader,
    /// The version of the protocol that the Hello of the connection named.
    pub client_protocol_version: u32,
    pub request_type: SecurityTokenRequestType,
    pub security_mode: MessageSecurityMode,
    /// Random bytes of which keys are made, null where the mode is None.
    pub client_nonce: ByteString,
    /// How long the token is to be good, in milliseconds.
    pub requested_lifetime: u32,
}

#[tactic(auto, using(ua_binary::proofs::Fields::fields6), unfolding(crate::specs::SecureChannels::open_secure_channel_request_reading, crate::specs::SecureChannels::open_secure_channel_request_encoding))]
impl Wire for OpenSecureChannelRequest {
    ghost reading = { open_secure_channel_request_reading };

    ghost encoding = { open_secure_channel_request_encoding };

    fn decode(
        alloc: Global,
        cursor: &mut Cursor<'_>,
    ) -> Result<OpenSecureChannelRequest, TakeFault> {
        Ok(OpenSecureChannelRequest {
            request_header: RequestHeader::decode(alloc, cursor)?,
            client_protocol_version: u32::decode(alloc, cursor)?,
            request_type: SecurityTokenRequestType::decode(alloc, cursor)?,
            security_mode: MessageSecurityMode::decode(alloc, cursor)?,
            client_nonce: ByteString::decode(alloc, cursor)?,
            requested_lifetime: u32::decode(alloc, cursor)?,
        })
    }

    fn encode(&self, out: &mut Vec<u8>) -> Result<(), AllocError> {
        self.request_header.encode(out)?;
        self.client_protocol_version.encode(out)?;
        self.request_type.encode(out)?;
        self.security_mode.encode(out)?;
        self.client_nonce.encode(out)?;
        self.requested_lifetime.encode(out)?;
        Ok(())
    }
}

/// A channel and its new token: the response to [`OpenSecureChannelRequest`].
///
/// The fields from `channel_id` to `revised_lifetime` are a ChannelSecurityToken in the standard.
#[derive(Debug, Drop)]
pub struct OpenSecureChannelResponse {
    pub response_header: ResponseHeader,
    /// 0 in this version of the protocol.
    pub server_protocol_version: u32,
    /// The channel's number, never 0.
    pub channel_id: u32,
    /// The number of the channel's new token.
    pub token_id: u32,
    /// When the token was made.
    pub created_at: Moment,
    /// How long the token is good, in milliseconds.
    pub revised_lifetime: u32,
    /// Random bytes of which keys are made, null where the mode is None.
    pub server_nonce: ByteString,
}

#[tactic(auto, using(ua_binary::proofs::Fields::fields7), unfolding(crate::specs::SecureChannels::open_secure_channel_response_reading, crate::specs::SecureChannels::open_secure_channel_response_encoding))]
impl Wire for OpenSecureChannelResponse {
    ghost reading = { open_secure_channel_response_reading };

    ghost encoding = { open_secure_channel_response_encoding };

    fn decode(
        alloc: Global,
        cursor: &mut Cursor<'_>,
    ) -> Result<OpenSecureChannelResponse, TakeFault> {
        Ok(OpenSecureChannelResponse {
            response_header: ResponseHeader::decode(alloc, cursor)?,
            server_protocol_version: u32::decode(alloc, cursor)?,
            channel_id: u32::decode(alloc, cursor)?,
            token_id: u32::decode(alloc, cursor)?,
            created_at: Moment::decode(alloc, cursor)?,
            revised_lifetime: u32::decode(alloc, cursor)?,
            server_nonce: ByteString::decode(alloc, cursor)?,
        })
    }

    fn encode(&self, out: &mut Vec<u8>) -> Result<(), AllocError> {
        self.response_header.encode(out)?;
        self.server_protocol_version.encode(out)?;
        self.channel_id.encode(out)?;
        self.token_id.encode(out)?;
        self.created_at.encode(out)?;
        self.revised_lifetime.encode(out)?;
        self.server_nonce.encode(out)?;
        Ok(())
    }
}

/// Ends the channel by which it comes, and has no response (CloseSecureChannel, IEC 62541-4, section 5,
/// SecureChannel Service Set).
#[derive(Debug, Drop)]
pub struct CloseSecureChannelRequest {
    pub request_header: RequestHeader,
}

#[tactic(auto, using(ua_binary::proofs::Fields::fields1), unfolding(crate::specs::SecureChannels::close_secure_channel_request_reading, crate::specs::SecureChannels::close_secure_channel_request_encoding))]
impl Wire for CloseSecureChannelRequest {
    ghost reading = { close_secure_channel_request_reading };

    ghost encoding = { close_secure_channel_request_encoding };

    fn decode(
        alloc: Global,
        cursor: &mut Cursor<'_>,
    ) -> Result<CloseSecureChannelRequest, TakeFault> {
        Ok(CloseSecureChannelRequest {
            request_header: RequestHeader::decode(alloc, cursor)?,
        })
    }

    fn encode(&self, out: &mut Vec<u8>) -> Result<(), AllocError> {
        self.request_header.encode(out)?;
        Ok(())
    }
}

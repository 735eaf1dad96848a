//! What requests and responses begin with.

ghost use Rattle.std.specs.Prelude.{◌≡◌};
ghost use Rattle.ua_messages.specs.Headers.{request_header_reading, request_header_encoding, response_header_reading, response_header_encoding, plain_header};

use crate::diagnostics::DiagnosticInfo;
use std::alloc::{AllocError, Global};
use std::marker::Model;
use ua_binary::{Cursor, TakeFault, Wire};
use ua_types::{Array, ExtensionObject, ExtensionObjectBody, Moment, NodeId, Status, Text};
use ua_views::{ExtensionObjectView, NodeIdView, Readable, TextView, View};

/// What each request begins with (RequestHeader, IEC 62541-4, section 7).
#[derive(Debug, Drop)]
pub struct RequestHeader {
    /// The secret id of the session, or null where there is none.
    pub authentication_token: NodeId,
    /// When the client sent the request.
    pub timestamp: Moment,
    /// The number by which the client knows the request. The response repeats it.
    pub request_handle: u32,
    /// Which diagnostic infos the client asks for. This server has none.
    pub return_diagnostics: u32,
    /// The client's name of the request in its audit log.
    pub audit_entry_id: Text,
    /// How long the client waits for the response, in milliseconds; 0 is no end.
    pub timeout_hint: u32,
    /// Reserved. Any is read and none has a meaning.
    pub additional_header: ExtensionObject,
}

#[tactic(auto, using(ua_binary::proofs::Fields::fields7), unfolding(crate::specs::Headers::request_header_reading, crate::specs::Headers::request_header_encoding))]
impl Wire for RequestHeader {
    ghost reading = { request_header_reading };

    ghost encoding = { request_header_encoding };

    fn decode(alloc: Global, cursor: &mut Cursor<'_>) -> Result<RequestHeader, TakeFault> {
        Ok(RequestHeader {
            authentication_token: NodeId::decode(alloc, cursor)?,
            timestamp: Moment::decode(alloc, cursor)?,
            request_handle: u32::decode(alloc, cursor)?,
            return_diagnostics: u32::decode(alloc, cursor)?,
            audit_entry_id: Text::decode(alloc, cursor)?,
            timeout_hint: u32::decode(alloc, cursor)?,
            additional_header: ExtensionObject::decode(alloc, cursor)?,
        })
    }

    fn encode(&self, out: &mut Vec<u8>) -> Result<(), AllocError> {
        self.authentication_token.encode(out)?;
        self.timestamp.encode(out)?;
        self.request_handle.encode(out)?;
        self.return_diagnostics.encode(out)?;
        self.audit_entry_id.encode(out)?;
        self.timeout_hint.encode(out)?;
        self.additional_header.encode(out)?;
        Ok(())
    }
}

/// A [`RequestHeader`] in the bytes that it stands in.
#[derive(Debug, Drop)]
pub struct RequestHeaderView<'a> {
    /// The secret id of the session, or null where there is none.
    pub authentication_token: NodeIdView<'a>,
    /// When the client sent the request.
    pub timestamp: Moment,
    /// The number by which the client knows the request. The response repeats it.
    pub request_handle: u32,
    /// Which diagnostic infos the client asks for. This server has none.
    pub return_diagnostics: u32,
    /// The client's name of the request in its audit log.
    pub audit_entry_id: TextView<'a>,
    /// How long the client waits for the response, in milliseconds; 0 is no end.
    pub timeout_hint: u32,
    /// Reserved. Any is read and none has a meaning.
    pub additional_header: ExtensionObjectView<'a>,
}

impl<'a> Model for RequestHeaderView<'a> {
    ghost use Rattle.ua_messages.specs.declared.headers.RequestHeader.{RequestHeader};

    ghost Value = { RequestHeader };

    ghost view = { λ v. record { authentication_token = v.authentication_token; timestamp = v.timestamp; request_handle = v.request_handle; return_diagnostics = v.return_diagnostics; audit_entry_id = v.audit_entry_id; timeout_hint = v.timeout_hint; additional_header = v.additional_header } };
}

impl<'a> Readable for RequestHeaderView<'a> {
    ghost reading = { request_header_reading };
}

#[tactic(auto, unfolding(crate::specs::Headers::request_header_reading))]
impl<'a> View<'a> for RequestHeaderView<'a> {
    fn look(cursor: &mut Cursor<'a>) -> Result<RequestHeaderView<'a>, TakeFault> {
        Ok(RequestHeaderView {
            authentication_token: NodeIdView::look(cursor)?,
            timestamp: Moment::look(cursor)?,
            request_handle: u32::look(cursor)?,
            return_diagnostics: u32::look(cursor)?,
            audit_entry_id: TextView::look(cursor)?,
            timeout_hint: u32::look(cursor)?,
            additional_header: ExtensionObjectView::look(cursor)?,
        })
    }
}

/// What each response begins with (ResponseHeader, IEC 62541-4, section 7).
#[derive(Debug, Drop)]
pub struct ResponseHeader {
    /// When the server sent the response.
    pub timestamp: Moment,
    /// The request's number in its own header.
    pub request_handle: u32,
    /// The outcome of the call as a whole.
    pub service_result: Status,
    pub service_diagnostics: DiagnosticInfo,
    /// The texts that diagnostic infos refer to, null where there are none.
    pub string_table: Array<Text>,
    /// Reserved. Any is read and none has a meaning.
    pub additional_header: ExtensionObject,
}

impl ResponseHeader {
    /// A header with nothing beside the outcome: no diagnostic info, no texts, and a null additional
    /// header.
    pub fn new(request_handle: u32, service_result: Status, timestamp: Moment) -> ResponseHeader
        ensures { result ≡ plain_header request_handle service_result timestamp }
    {
        ResponseHeader {
            timestamp,
            request_handle,
            service_result,
            service_diagnostics: DiagnosticInfo,
            string_table: Array::null(),
            additional_header: ExtensionObject {
                type_id: NodeId::null(),
                body: ExtensionObjectBody::Absent,
            },
        }
    }

    /// That of a response which is no fault.
    pub fn good(request_handle: u32, timestamp: Moment) -> ResponseHeader
        ensures { result ≡ plain_header request_handle (record { 0 = 0 }) timestamp }
    {
        ResponseHeader::new(request_handle, Status(0), timestamp)
    }
}

#[tactic(auto, using(ua_binary::proofs::Fields::fields6), unfolding(crate::specs::Headers::response_header_reading, crate::specs::Headers::response_header_encoding))]
impl Wire for ResponseHeader {
    ghost reading = { response_header_reading };

    ghost encoding = { response_header_encoding };

    fn decode(alloc: Global, cursor: &mut Cursor<'_>) -> Result<ResponseHeader, TakeFault> {
        Ok(ResponseHeader {
            timestamp: Moment::decode(alloc, cursor)?,
            request_handle: u32::decode(alloc, cursor)?,
            service_result: Status::decode(alloc, cursor)?,
            service_diagnostics: DiagnosticInfo::decode(alloc, cursor)?,
            string_table: Array::<Text>::decode(alloc, cursor)?,
            additional_header: ExtensionObject::decode(alloc, cursor)?,
        })
    }

    fn encode(&self, out: &mut Vec<u8>) -> Result<(), AllocError> {
        self.timestamp.encode(out)?;
        self.request_handle.encode(out)?;
        self.service_result.encode(out)?;
        self.service_diagnostics.encode(out)?;
        self.string_table.encode(out)?;
        self.additional_header.encode(out)?;
        Ok(())
    }
}

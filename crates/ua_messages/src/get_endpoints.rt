//! The service GetEndpoints.

ghost use Rattle.ua_messages.specs.GetEndpoints.{get_endpoints_request_reading, get_endpoints_request_encoding, get_endpoints_response_reading, get_endpoints_response_encoding};

use crate::descriptions::EndpointDescription;
use crate::headers::ResponseHeader;
use std::alloc::{AllocError, Global};
use std::marker::Model;
use ua_binary::{Cursor, TakeFault, Wire};
use ua_types::{Array, Text};
use ua_views::{ArrayView, Readable, TextView, View};

/// Asks for the endpoints of a server (GetEndpoints, IEC 62541-4, section 5, Discovery Service Set).
#[derive(Debug, Drop)]
pub struct GetEndpointsRequest {
    /// The URL by which the client reached the server.
    pub endpoint_url: Text,
    /// The languages in which the client likes to have texts, the best first.
    pub locale_ids: Array<Text>,
    /// The transports of which endpoints are wanted, all where there are none.
    pub profile_uris: Array<Text>,
}

#[tactic(auto, using(ua_binary::proofs::Fields::fields3), unfolding(crate::specs::GetEndpoints::get_endpoints_request_reading, crate::specs::GetEndpoints::get_endpoints_request_encoding))]
impl Wire for GetEndpointsRequest {
    ghost reading = { get_endpoints_request_reading };

    ghost encoding = { get_endpoints_request_encoding };

    fn decode(alloc: Global, cursor: &mut Cursor<'_>) -> Result<GetEndpointsRequest, TakeFault> {
        Ok(GetEndpointsRequest {
            endpoint_url: Text::decode(alloc, cursor)?,
            locale_ids: Array::<Text>::decode(alloc, cursor)?,
            profile_uris: Array::<Text>::decode(alloc, cursor)?,
        })
    }

    fn encode(&self, out: &mut Vec<u8>) -> Result<(), AllocError> {
        self.endpoint_url.encode(out)?;
        self.locale_ids.encode(out)?;
        self.profile_uris.encode(out)?;
        Ok(())
    }
}

/// A [`GetEndpointsRequest`] in the bytes that it stands in.
#[derive(Debug, Drop)]
pub struct GetEndpointsRequestView<'a> {
    /// The URL by which the client reached the server.
    pub endpoint_url: TextView<'a>,
    /// The languages in which the client likes to have texts, the best first.
    pub locale_ids: ArrayView<'a, TextView<'a>>,
    /// The transports of which endpoints are wanted, all where there are none.
    pub profile_uris: ArrayView<'a, TextView<'a>>,
}

impl<'a> Model for GetEndpointsRequestView<'a> {
    ghost use Rattle.ua_messages.specs.declared.get_endpoints.GetEndpointsRequest.{GetEndpointsRequest};

    ghost Value = { GetEndpointsRequest };

    ghost view = { λ v. record { endpoint_url = v.endpoint_url; locale_ids = v.locale_ids; profile_uris = v.profile_uris } };
}

impl<'a> Readable for GetEndpointsRequestView<'a> {
    ghost reading = { get_endpoints_request_reading };
}

#[tactic(auto, unfolding(crate::specs::GetEndpoints::get_endpoints_request_reading))]
impl<'a> View<'a> for GetEndpointsRequestView<'a> {
    fn look(cursor: &mut Cursor<'a>) -> Result<GetEndpointsRequestView<'a>, TakeFault> {
        Ok(GetEndpointsRequestView {
            endpoint_url: TextView::look(cursor)?,
            locale_ids: ArrayView::<TextView<'a>>::look(cursor)?,
            profile_uris: ArrayView::<TextView<'a>>::look(cursor)?,
        })
    }
}

/// The endpoints of a server: the response to [`GetEndpointsRequest`].
#[derive(Debug, Drop)]
pub struct GetEndpointsResponse {
    pub response_header: ResponseHeader,
    pub endpoints: Array<EndpointDescription>,
}

#[tactic(auto, using(ua_binary::proofs::Fields::fields2), unfolding(crate::specs::GetEndpoints::get_endpoints_response_reading, crate::specs::GetEndpoints::get_endpoints_response_encoding))]
impl Wire for GetEndpointsResponse {
    ghost reading = { get_endpoints_response_reading };

    ghost encoding = { get_endpoints_response_encoding };

    fn decode(alloc: Global, cursor: &mut Cursor<'_>) -> Result<GetEndpointsResponse, TakeFault> {
        Ok(GetEndpointsResponse {
            response_header: ResponseHeader::decode(alloc, cursor)?,
            endpoints: Array::<EndpointDescription>::decode(alloc, cursor)?,
        })
    }

    fn encode(&self, out: &mut Vec<u8>) -> Result<(), AllocError> {
        self.response_header.encode(out)?;
        self.endpoints.encode(out)?;
        Ok(())
    }
}

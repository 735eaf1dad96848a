//! The service that links monitored items to one that triggers them.

ghost use Rattle.ua_subscription_messages.specs.Triggering.{set_triggering_request_reading, set_triggering_request_encoding, set_triggering_response_reading, set_triggering_response_encoding};

use std::alloc::{AllocError, Global};
use std::marker::Model;
use ua_binary::{Cursor, TakeFault, Wire};
use ua_messages::{DiagnosticInfos, ResponseHeader};
use ua_types::{Array, Status};
use ua_views::{ArrayView, Readable, View};

/// Adds and removes links from one monitored item to others, whose values are reported when it reports
/// (SetTriggering, IEC 62541-4, section 5, MonitoredItem Service Set).
#[derive(Debug, Drop)]
pub struct SetTriggeringRequest {
    pub subscription_id: u32,
    /// The item that triggers the others.
    pub triggering_item_id: u32,
    /// The items that it is to trigger from now on.
    pub links_to_add: Array<u32>,
    /// The items that it is to trigger no longer. They are removed before the others are added.
    pub links_to_remove: Array<u32>,
}

#[tactic(auto, using(ua_binary::proofs::Fields::fields4), unfolding(crate::specs::Triggering::set_triggering_request_reading, crate::specs::Triggering::set_triggering_request_encoding))]
impl Wire for SetTriggeringRequest {
    ghost reading = { set_triggering_request_reading };

    ghost encoding = { set_triggering_request_encoding };

    fn decode(alloc: Global, cursor: &mut Cursor<'_>) -> Result<SetTriggeringRequest, TakeFault> {
        Ok(SetTriggeringRequest {
            subscription_id: u32::decode(alloc, cursor)?,
            triggering_item_id: u32::decode(alloc, cursor)?,
            links_to_add: Array::<u32>::decode(alloc, cursor)?,
            links_to_remove: Array::<u32>::decode(alloc, cursor)?,
        })
    }

    fn encode(&self, out: &mut Vec<u8>) -> Result<(), AllocError> {
        self.subscription_id.encode(out)?;
        self.triggering_item_id.encode(out)?;
        self.links_to_add.encode(out)?;
        self.links_to_remove.encode(out)?;
        Ok(())
    }
}

/// A [`SetTriggeringRequest`] in the bytes that it stands in.
#[derive(Debug, Drop)]
pub struct SetTriggeringRequestView<'a> {
    pub subscription_id: u32,
    /// The item that triggers the others.
    pub triggering_item_id: u32,
    /// The items that it is to trigger from now on.
    pub links_to_add: ArrayView<'a, u32>,
    /// The items that it is to trigger no longer. They are removed before the others are added.
    pub links_to_remove: ArrayView<'a, u32>,
}

impl<'a> Model for SetTriggeringRequestView<'a> {
    ghost use Rattle.ua_subscription_messages.specs.declared.triggering.SetTriggeringRequest.{SetTriggeringRequest};

    ghost Value = { SetTriggeringRequest };

    ghost view = { λ v. record { subscription_id = v.subscription_id; triggering_item_id = v.triggering_item_id; links_to_add = v.links_to_add; links_to_remove = v.links_to_remove } };
}

impl<'a> Readable for SetTriggeringRequestView<'a> {
    ghost reading = { set_triggering_request_reading };
}

#[tactic(auto, unfolding(crate::specs::Triggering::set_triggering_request_reading))]
impl<'a> View<'a> for SetTriggeringRequestView<'a> {
    fn look(cursor: &mut Cursor<'a>) -> Result<SetTriggeringRequestView<'a>, TakeFault> {
        Ok(SetTriggeringRequestView {
            subscription_id: u32::look(cursor)?,
            triggering_item_id: u32::look(cursor)?,
            links_to_add: ArrayView::<u32>::look(cursor)?,
            links_to_remove: ArrayView::<u32>::look(cursor)?,
        })
    }
}

/// What became of each link, in the order of the request: the response to [`SetTriggeringRequest`].
#[derive(Debug, Drop)]
pub struct SetTriggeringResponse {
    pub response_header: ResponseHeader,
    pub add_results: Array<Status>,
    pub add_diagnostic_infos: DiagnosticInfos,
    pub remove_results: Array<Status>,
    pub remove_diagnostic_infos: DiagnosticInfos,
}

#[tactic(auto, using(ua_binary::proofs::Fields::fields5), unfolding(crate::specs::Triggering::set_triggering_response_reading, crate::specs::Triggering::set_triggering_response_encoding))]
impl Wire for SetTriggeringResponse {
    ghost reading = { set_triggering_response_reading };

    ghost encoding = { set_triggering_response_encoding };

    fn decode(alloc: Global, cursor: &mut Cursor<'_>) -> Result<SetTriggeringResponse, TakeFault> {
        Ok(SetTriggeringResponse {
            response_header: ResponseHeader::decode(alloc, cursor)?,
            add_results: Array::<Status>::decode(alloc, cursor)?,
            add_diagnostic_infos: DiagnosticInfos::decode(alloc, cursor)?,
            remove_results: Array::<Status>::decode(alloc, cursor)?,
            remove_diagnostic_infos: DiagnosticInfos::decode(alloc, cursor)?,
        })
    }

    fn encode(&self, out: &mut Vec<u8>) -> Result<(), AllocError> {
        self.response_header.encode(out)?;
        self.add_results.encode(out)?;
        self.add_diagnostic_infos.encode(out)?;
        self.remove_results.encode(out)?;
        self.remove_diagnostic_infos.encode(out)?;
        Ok(())
    }
}

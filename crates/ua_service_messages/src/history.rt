//! The service HistoryRead, and the reading of raw values by it.

ghost use Rattle.std.specs.Prelude.{⊤};
ghost use Rattle.ua_service_messages.specs.History.{read_raw_modified_details_reading, read_raw_modified_details_encoding, history_data_reading, history_data_encoding, history_read_value_id_reading, history_read_value_id_encoding, history_read_request_reading, history_read_request_encoding, history_read_result_reading, history_read_result_encoding};

use std::alloc::{AllocError, Global};
use std::marker::Model;
use ua_binary::{Cursor, TakeFault, Wire};
use ua_messages::{Results, TimestampsToReturn};
use ua_types::{
    Array, ByteString, DataValue, ExtensionObject, Moment, NodeId, QualifiedName, Status, Text,
};
use ua_views::{
    ArrayView, ByteStringView, ExtensionObjectView, NodeIdView, QualifiedNameView, Readable,
    TextView, View, look_enumeration,
};

/// The details of a reading of raw values (ReadRawModifiedDetails, IEC 62541-11, section 6). They travel
/// in an ExtensionObject. At least two of start, end and count are given.
#[derive(Debug, Drop)]
pub struct ReadRawModifiedDetails {
    /// Whether the values that were replaced are wanted, and not those that stand.
    pub is_read_modified: bool,
    /// The first time, or 0 where it is not given.
    pub start_time: Moment,
    /// The last time, or 0 where it is not given. Where it lies before the start, times fall.
    pub end_time: Moment,
    /// The most values that a result is to have, or 0 where it is not given.
    pub num_values_per_node: u32,
    /// Whether the values just outside the interval are wanted too.
    pub return_bounds: bool,
}

#[tactic(auto, using(ua_binary::proofs::Fields::fields5), unfolding(crate::specs::History::read_raw_modified_details_reading, crate::specs::History::read_raw_modified_details_encoding))]
impl Wire for ReadRawModifiedDetails {
    ghost reading = { read_raw_modified_details_reading };

    ghost encoding = { read_raw_modified_details_encoding };

    ghost spares_memory = { λ _. ⊤ };

    fn decode(alloc: Global, cursor: &mut Cursor<'_>) -> Result<ReadRawModifiedDetails, TakeFault> {
        Ok(ReadRawModifiedDetails {
            is_read_modified: bool::decode(alloc, cursor)?,
            start_time: Moment::decode(alloc, cursor)?,
            end_time: Moment::decode(alloc, cursor)?,
            num_values_per_node: u32::decode(alloc, cursor)?,
            return_bounds: bool::decode(alloc, cursor)?,
        })
    }

    fn encode(&self, out: &mut Vec<u8>) -> Result<(), AllocError> {
        self.is_read_modified.encode(out)?;
        self.start_time.encode(out)?;
        self.end_time.encode(out)?;
        self.num_values_per_node.encode(out)?;
        self.return_bounds.encode(out)?;
        Ok(())
    }
}

impl Readable for ReadRawModifiedDetails {
    ghost reading = { read_raw_modified_details_reading };
}

#[tactic(auto, unfolding(crate::specs::History::read_raw_modified_details_reading))]
impl<'a> View<'a> for ReadRawModifiedDetails {
    fn look(cursor: &mut Cursor<'a>) -> Result<ReadRawModifiedDetails, TakeFault> {
        Ok(ReadRawModifiedDetails {
            is_read_modified: bool::look(cursor)?,
            start_time: Moment::look(cursor)?,
            end_time: Moment::look(cursor)?,
            num_values_per_node: u32::look(cursor)?,
            return_bounds: bool::look(cursor)?,
        })
    }
}

/// The values of one node (HistoryData, IEC 62541-11, section 6). They travel in an ExtensionObject.
#[derive(Debug, Drop)]
pub struct HistoryData {
    pub data_values: Array<DataValue>,
}

#[tactic(auto, using(ua_binary::proofs::Fields::fields1), unfolding(crate::specs::History::history_data_reading, crate::specs::History::history_data_encoding))]
impl Wire for HistoryData {
    ghost reading = { history_data_reading };

    ghost encoding = { history_data_encoding };

    fn decode(alloc: Global, cursor: &mut Cursor<'_>) -> Result<HistoryData, TakeFault> {
        Ok(HistoryData {
            data_values: Array::<DataValue>::decode(alloc, cursor)?,
        })
    }

    fn encode(&self, out: &mut Vec<u8>) -> Result<(), AllocError> {
        self.data_values.encode(out)?;
        Ok(())
    }
}

/// A node, and where in its history to go on (HistoryReadValueId, IEC 62541-4, section 5, HistoryRead).
#[derive(Debug, Drop)]
pub struct HistoryReadValueId {
    pub node_id: NodeId,
    /// Which elements of a list are meant, all where it is null or empty.
    pub index_range: Text,
    /// How a structure in the value is to be encoded, null for the usual way.
    pub data_encoding: QualifiedName,
    /// The point of the result before, or null at the beginning.
    pub continuation_point: ByteString,
}

#[tactic(auto, using(ua_binary::proofs::Fields::fields4), unfolding(crate::specs::History::history_read_value_id_reading, crate::specs::History::history_read_value_id_encoding))]
impl Wire for HistoryReadValueId {
    ghost reading = { history_read_value_id_reading };

    ghost encoding = { history_read_value_id_encoding };

    fn decode(alloc: Global, cursor: &mut Cursor<'_>) -> Result<HistoryReadValueId, TakeFault> {
        Ok(HistoryReadValueId {
            node_id: NodeId::decode(alloc, cursor)?,
            index_range: Text::decode(alloc, cursor)?,
            data_encoding: QualifiedName::decode(alloc, cursor)?,
            continuation_point: ByteString::decode(alloc, cursor)?,
        })
    }

    fn encode(&self, out: &mut Vec<u8>) -> Result<(), AllocError> {
        self.node_id.encode(out)?;
        self.index_range.encode(out)?;
        self.data_encoding.encode(out)?;
        self.continuation_point.encode(out)?;
        Ok(())
    }
}

/// A [`HistoryReadValueId`] in the bytes that it stands in.
#[derive(Debug, Drop)]
pub struct HistoryReadValueIdView<'a> {
    pub node_id: NodeIdView<'a>,
    /// Which elements of a list are meant, all where it is null or empty.
    pub index_range: TextView<'a>,
    /// How a structure in the value is to be encoded, null for the usual way.
    pub data_encoding: QualifiedNameView<'a>,
    /// The point of the result before, or null at the beginning.
    pub continuation_point: ByteStringView<'a>,
}

impl<'a> Model for HistoryReadValueIdView<'a> {
    ghost use Rattle.ua_service_messages.specs.declared.history.HistoryReadValueId.{HistoryReadValueId};

    ghost Value = { HistoryReadValueId };

    ghost view = { λ v. record { node_id = v.node_id; index_range = v.index_range; data_encoding = v.data_encoding; continuation_point = v.continuation_point } };
}

impl<'a> Readable for HistoryReadValueIdView<'a> {
    ghost reading = { history_read_value_id_reading };
}

#[tactic(auto, unfolding(crate::specs::History::history_read_value_id_reading))]
impl<'a> View<'a> for HistoryReadValueIdView<'a> {
    fn look(cursor: &mut Cursor<'a>) -> Result<HistoryReadValueIdView<'a>, TakeFault> {
        Ok(HistoryReadValueIdView {
            node_id: NodeIdView::look(cursor)?,
            index_range: TextView::look(cursor)?,
            data_encoding: QualifiedNameView::look(cursor)?,
            continuation_point: ByteStringView::look(cursor)?,
        })
    }
}

/// Asks for the history of nodes (HistoryRead, IEC 62541-4, section 5, Attribute Service Set).
#[derive(Debug, Drop)]
pub struct HistoryReadRequest {
    /// What of the history is wanted: [`ReadRawModifiedDetails`] for raw values.
    pub history_read_details: ExtensionObject,
    pub timestamps_to_return: TimestampsToReturn,
    /// Whether the points are only given up.
    pub release_continuation_points: bool,
    pub nodes_to_read: Array<HistoryReadValueId>,
}

#[tactic(auto, using(ua_binary::proofs::Fields::fields4), unfolding(crate::specs::History::history_read_request_reading, crate::specs::History::history_read_request_encoding))]
impl Wire for HistoryReadRequest {
    ghost reading = { history_read_request_reading };

    ghost encoding = { history_read_request_encoding };

    fn decode(alloc: Global, cursor: &mut Cursor<'_>) -> Result<HistoryReadRequest, TakeFault> {
        Ok(HistoryReadRequest {
            history_read_details: ExtensionObject::decode(alloc, cursor)?,
            timestamps_to_return: TimestampsToReturn::decode(alloc, cursor)?,
            release_continuation_points: bool::decode(alloc, cursor)?,
            nodes_to_read: Array::<HistoryReadValueId>::decode(alloc, cursor)?,
        })
    }

    fn encode(&self, out: &mut Vec<u8>) -> Result<(), AllocError> {
        self.history_read_details.encode(out)?;
        self.timestamps_to_return.encode(out)?;
        self.release_continuation_points.encode(out)?;
        self.nodes_to_read.encode(out)?;
        Ok(())
    }
}

/// A [`HistoryReadRequest`] in the bytes that it stands in.
#[derive(Debug, Drop)]
pub struct HistoryReadRequestView<'a> {
    /// What of the history is wanted: [`ReadRawModifiedDetails`] for raw values.
    pub history_read_details: ExtensionObjectView<'a>,
    pub timestamps_to_return: TimestampsToReturn,
    /// Whether the points are only given up.
    pub release_continuation_points: bool,
    pub nodes_to_read: ArrayView<'a, HistoryReadValueIdView<'a>>,
}

impl<'a> Model for HistoryReadRequestView<'a> {
    ghost use Rattle.ua_service_messages.specs.declared.history.HistoryReadRequest.{HistoryReadRequest};

    ghost Value = { HistoryReadRequest };

    ghost view = { λ v. record { history_read_details = v.history_read_details; timestamps_to_return = v.timestamps_to_return; release_continuation_points = v.release_continuation_points; nodes_to_read = v.nodes_to_read } };
}

impl<'a> Readable for HistoryReadRequestView<'a> {
    ghost reading = { history_read_request_reading };
}

#[tactic(auto, unfolding(crate::specs::History::history_read_request_reading))]
impl<'a> View<'a> for HistoryReadRequestView<'a> {
    fn look(cursor: &mut Cursor<'a>) -> Result<HistoryReadRequestView<'a>, TakeFault> {
        Ok(HistoryReadRequestView {
            history_read_details: ExtensionObjectView::look(cursor)?,
            timestamps_to_return: look_enumeration::<TimestampsToReturn>(cursor)?,
            release_continuation_points: bool::look(cursor)?,
            nodes_to_read: ArrayView::<HistoryReadValueIdView<'a>>::look(cursor)?,
        })
    }
}

/// The history of one node, or the first part of it (HistoryReadResult, IEC 62541-4, section 5,
/// HistoryRead).
#[derive(Debug, Drop)]
pub struct HistoryReadResult {
    pub status_code: Status,
    /// By this a further request gives what follows; null where nothing does.
    pub continuation_point: ByteString,
    /// The values: [`HistoryData`] for raw ones.
    pub history_data: ExtensionObject,
}

#[tactic(auto, using(ua_binary::proofs::Fields::fields3), unfolding(crate::specs::History::history_read_result_reading, crate::specs::History::history_read_result_encoding))]
impl Wire for HistoryReadResult {
    ghost reading = { history_read_result_reading };

    ghost encoding = { history_read_result_encoding };

    fn decode(alloc: Global, cursor: &mut Cursor<'_>) -> Result<HistoryReadResult, TakeFault> {
        Ok(HistoryReadResult {
            status_code: Status::decode(alloc, cursor)?,
            continuation_point: ByteString::decode(alloc, cursor)?,
            history_data: ExtensionObject::decode(alloc, cursor)?,
        })
    }

    fn encode(&self, out: &mut Vec<u8>) -> Result<(), AllocError> {
        self.status_code.encode(out)?;
        self.continuation_point.encode(out)?;
        self.history_data.encode(out)?;
        Ok(())
    }
}

/// The response to [`HistoryReadRequest`], with one result for each node.
pub type HistoryReadResponse = Results<HistoryReadResult>;

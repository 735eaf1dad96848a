//! The service Write.

ghost use Rattle.ua_binary.specs.Backing.{IsBackedOrBoxed};
ghost use Rattle.ua_service_messages.specs.Writing.{write_value_reading, write_value_encoding, write_request_reading, write_request_encoding};

use std::alloc::{AllocError, Global};
use std::marker::Model;
use ua_binary::{Cursor, TakeFault, Wire};
use ua_messages::Results;
use ua_types::{Array, DataValue, NodeId, Status, Text};
use ua_views::{ArrayView, DataValueView, NodeIdView, Readable, TextView, View};

/// A new value for an attribute of a node (WriteValue, IEC 62541-4, section 5, Write).
#[derive(Debug, Drop)]
pub struct WriteValue {
    pub node_id: NodeId,
    /// The number of the attribute, as 13 for the value.
    pub attribute_id: u32,
    /// Which elements of a list are meant, all where it is null or empty.
    pub index_range: Text,
    pub value: DataValue,
}

#[tactic(auto, using(ua_binary::proofs::Fields::fields4, ua_binary::proofs::Backing::length_is_backed), unfolding(crate::specs::Writing::write_value_reading, crate::specs::Writing::write_value_encoding))]
impl Wire for WriteValue {
    ghost reading = { write_value_reading };

    ghost encoding = { write_value_encoding };

    ghost wants_memory = { IsBackedOrBoxed };

    fn decode(alloc: Global, cursor: &mut Cursor<'_>) -> Result<WriteValue, TakeFault> {
        Ok(WriteValue {
            node_id: NodeId::decode(alloc, cursor)?,
            attribute_id: u32::decode(alloc, cursor)?,
            index_range: Text::decode(alloc, cursor)?,
            value: DataValue::decode(alloc, cursor)?,
        })
    }

    fn encode(&self, out: &mut Vec<u8>) -> Result<(), AllocError> {
        self.node_id.encode(out)?;
        self.attribute_id.encode(out)?;
        self.index_range.encode(out)?;
        self.value.encode(out)?;
        Ok(())
    }
}

/// A [`WriteValue`] in the bytes that it stands in.
#[derive(Debug, Drop)]
pub struct WriteValueView<'a> {
    pub node_id: NodeIdView<'a>,
    /// The number of the attribute, as 13 for the value.
    pub attribute_id: u32,
    /// Which elements of a list are meant, all where it is null or empty.
    pub index_range: TextView<'a>,
    pub value: DataValueView<'a>,
}

impl<'a> Model for WriteValueView<'a> {
    ghost use Rattle.ua_service_messages.specs.declared.writing.WriteValue.{WriteValue};

    ghost Value = { WriteValue };

    ghost view = { λ v. record { node_id = v.node_id; attribute_id = v.attribute_id; index_range = v.index_range; value = v.value } };
}

impl<'a> Readable for WriteValueView<'a> {
    ghost reading = { write_value_reading };
}

#[tactic(auto, unfolding(crate::specs::Writing::write_value_reading))]
impl<'a> View<'a> for WriteValueView<'a> {
    // Inlined into the loop over a request's list: a call for each element costs more than it does.
    #[inline(always)]
    fn look(cursor: &mut Cursor<'a>) -> Result<WriteValueView<'a>, TakeFault> {
        Ok(WriteValueView {
            node_id: NodeIdView::look(cursor)?,
            attribute_id: u32::look(cursor)?,
            index_range: TextView::look(cursor)?,
            value: DataValueView::look(cursor)?,
        })
    }
}

/// Asks to write attributes of nodes (Write, IEC 62541-4, section 5, Attribute Service Set).
#[derive(Debug, Drop)]
pub struct WriteRequest {
    pub nodes_to_write: Array<WriteValue>,
}

#[tactic(auto, using(ua_binary::proofs::Fields::fields1), unfolding(crate::specs::Writing::write_request_reading, crate::specs::Writing::write_request_encoding))]
impl Wire for WriteRequest {
    ghost reading = { write_request_reading };

    ghost encoding = { write_request_encoding };

    fn decode(alloc: Global, cursor: &mut Cursor<'_>) -> Result<WriteRequest, TakeFault> {
        Ok(WriteRequest {
            nodes_to_write: Array::<WriteValue>::decode(alloc, cursor)?,
        })
    }

    fn encode(&self, out: &mut Vec<u8>) -> Result<(), AllocError> {
        self.nodes_to_write.encode(out)?;
        Ok(())
    }
}

/// A [`WriteRequest`] in the bytes that it stands in.
#[derive(Debug, Drop)]
pub struct WriteRequestView<'a> {
    pub nodes_to_write: ArrayView<'a, WriteValueView<'a>>,
}

impl<'a> Model for WriteRequestView<'a> {
    ghost use Rattle.ua_service_messages.specs.declared.writing.WriteRequest.{WriteRequest};

    ghost Value = { WriteRequest };

    ghost view = { λ v. record { nodes_to_write = v.nodes_to_write } };
}

impl<'a> Readable for WriteRequestView<'a> {
    ghost reading = { write_request_reading };
}

#[tactic(auto, unfolding(crate::specs::Writing::write_request_reading))]
impl<'a> View<'a> for WriteRequestView<'a> {
    fn look(cursor: &mut Cursor<'a>) -> Result<WriteRequestView<'a>, TakeFault> {
        Ok(WriteRequestView {
            nodes_to_write: ArrayView::<WriteValueView<'a>>::look(cursor)?,
        })
    }
}

/// The response to [`WriteRequest`], with one outcome for each value.
pub type WriteResponse = Results<Status>;

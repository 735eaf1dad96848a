//! What is read of a node, by the service Read and by monitored items.

ghost use Rattle.ua_messages.specs.ReadValueIds.{read_value_id_reading, read_value_id_encoding};

use std::alloc::{AllocError, Global};
use std::marker::Model;
use ua_binary::{Cursor, TakeFault, Wire};
use ua_types::{NodeId, QualifiedName, Text};
use ua_views::{NodeIdView, QualifiedNameView, Readable, TextView, View};

/// The number of the attribute Value (IEC 62541-6, Annex A).
pub const VALUE: u32 = 13;

/// An attribute of a node, or a part of its value (ReadValueId, IEC 62541-4, section 7).
#[derive(Debug, Drop)]
pub struct ReadValueId {
    pub node_id: NodeId,
    /// The number of the attribute, as [`VALUE`].
    pub attribute_id: u32,
    /// Which elements of a list are meant, all where it is null or empty.
    pub index_range: Text,
    /// How a structure in the value is to be encoded, null for the usual way.
    pub data_encoding: QualifiedName,
}

#[tactic(auto, using(ua_binary::proofs::Fields::fields4), unfolding(crate::specs::ReadValueIds::read_value_id_reading, crate::specs::ReadValueIds::read_value_id_encoding))]
impl Wire for ReadValueId {
    ghost reading = { read_value_id_reading };

    ghost encoding = { read_value_id_encoding };

    fn decode(alloc: Global, cursor: &mut Cursor<'_>) -> Result<ReadValueId, TakeFault> {
        Ok(ReadValueId {
            node_id: NodeId::decode(alloc, cursor)?,
            attribute_id: u32::decode(alloc, cursor)?,
            index_range: Text::decode(alloc, cursor)?,
            data_encoding: QualifiedName::decode(alloc, cursor)?,
        })
    }

    fn encode(&self, out: &mut Vec<u8>) -> Result<(), AllocError> {
        self.node_id.encode(out)?;
        self.attribute_id.encode(out)?;
        self.index_range.encode(out)?;
        self.data_encoding.encode(out)?;
        Ok(())
    }
}

/// A [`ReadValueId`] in the bytes that it stands in.
#[derive(Debug, Drop)]
pub struct ReadValueIdView<'a> {
    pub node_id: NodeIdView<'a>,
    /// The number of the attribute, as 13 for the value.
    pub attribute_id: u32,
    /// Which elements of a list are meant, all where it is null or empty.
    pub index_range: TextView<'a>,
    /// How a structure in the value is to be encoded, null for the usual way.
    pub data_encoding: QualifiedNameView<'a>,
}

impl<'a> Model for ReadValueIdView<'a> {
    ghost use Rattle.ua_messages.specs.declared.read_value_ids.ReadValueId.{ReadValueId};

    ghost Value = { ReadValueId };

    ghost view = { λ v. record { node_id = v.node_id; attribute_id = v.attribute_id; index_range = v.index_range; data_encoding = v.data_encoding } };
}

impl<'a> Readable for ReadValueIdView<'a> {
    ghost reading = { read_value_id_reading };
}

#[tactic(auto, unfolding(crate::specs::ReadValueIds::read_value_id_reading))]
impl<'a> View<'a> for ReadValueIdView<'a> {
    // Inlined into the loop over a request's list: a call for each element costs more than it does.
    #[inline(always)]
    fn look(cursor: &mut Cursor<'a>) -> Result<ReadValueIdView<'a>, TakeFault> {
        Ok(ReadValueIdView {
            node_id: NodeIdView::look(cursor)?,
            attribute_id: u32::look(cursor)?,
            index_range: TextView::look(cursor)?,
            data_encoding: QualifiedNameView::look(cursor)?,
        })
    }
}

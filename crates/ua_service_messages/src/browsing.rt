//! The services Browse and BrowseNext.

ghost use Rattle.std.specs.Prelude.{refl};
ghost use Rattle.ua_service_messages.specs.Browsing.{browse_description_reading, browse_description_encoding, browse_request_reading, browse_request_encoding, reference_description_reading, reference_description_encoding, browse_result_reading, browse_result_encoding, browse_next_request_reading, browse_next_request_encoding};

use std::alloc::{AllocError, Global};
use std::marker::Model;
use ua_binary::{Cursor, Enumeration, TakeFault, Wire, Written, write_local_id};
use ua_messages::Results;
use ua_types::{
    Array, ByteString, ExpandedNodeId, LocalizedText, Moment, NodeId, QualifiedName, Status,
};
use ua_views::{ArrayView, ByteStringView, NodeIdView, Readable, View, look_enumeration};

/// Which references of a node are wanted (BrowseDirection, IEC 62541-4, section 5, Browse).
#[derive(Clone, Copy, Debug, PartialEq, Eq)]
pub struct BrowseDirection(pub i32);

impl BrowseDirection {
    /// Those that begin at the node.
    pub const FORWARD: BrowseDirection = BrowseDirection(0);

    /// Those that end at it.
    pub const INVERSE: BrowseDirection = BrowseDirection(1);

    pub const BOTH: BrowseDirection = BrowseDirection(2);
}

impl Enumeration for BrowseDirection {
    ghost of_number = { λ n. record { 0 = n } };

    ghost number_of = { λ v. v.0 };

    fn from_number(number: i32) -> BrowseDirection {
        BrowseDirection(number)
    }

    fn number(&self) -> i32 {
        self.0
    }

    ghost kept = { λ v. refl };
}

/// Which references of one node are wanted, and what of them (BrowseDescription, IEC 62541-4, section 5,
/// Browse).
#[derive(Debug, Drop)]
pub struct BrowseDescription {
    pub node_id: NodeId,

    pub browse_direction: BrowseDirection,

    /// The type of the references, or null for all types.
    pub reference_type_id: NodeId,

    /// Whether subtypes of that type count too.
    pub include_subtypes: bool,

    /// The classes of the nodes at the other end, as the sum of their numbers (`ua_types::NodeClass`); 0
    /// is all.
    pub node_class_mask: u32,

    /// Which fields of a [`ReferenceDescription`] are wanted: the sum of the constants of this type.
    pub result_mask: u32,
}

impl BrowseDescription {
    pub const REFERENCE_TYPE: u32 = 1;

    pub const IS_FORWARD: u32 = 2;

    pub const NODE_CLASS: u32 = 4;

    pub const BROWSE_NAME: u32 = 8;

    pub const DISPLAY_NAME: u32 = 16;

    pub const TYPE_DEFINITION: u32 = 32;
}

#[tactic(auto, using(ua_binary::proofs::Fields::fields6), unfolding(crate::specs::Browsing::browse_description_reading, crate::specs::Browsing::browse_description_encoding))]
impl Wire for BrowseDescription {
    ghost reading = { browse_description_reading };

    ghost encoding = { browse_description_encoding };

    fn decode(alloc: Global, cursor: &mut Cursor<'_>) -> Result<BrowseDescription, TakeFault> {
        Ok(BrowseDescription {
            node_id: NodeId::decode(alloc, cursor)?,
            browse_direction: BrowseDirection::decode(alloc, cursor)?,
            reference_type_id: NodeId::decode(alloc, cursor)?,
            include_subtypes: bool::decode(alloc, cursor)?,
            node_class_mask: u32::decode(alloc, cursor)?,
            result_mask: u32::decode(alloc, cursor)?,
        })
    }

    fn encode(&self, out: &mut Vec<u8>) -> Result<(), AllocError> {
        self.node_id.encode(out)?;
        self.browse_direction.encode(out)?;
        self.reference_type_id.encode(out)?;
        self.include_subtypes.encode(out)?;
        self.node_class_mask.encode(out)?;
        self.result_mask.encode(out)?;
        Ok(())
    }
}

/// A [`BrowseDescription`] in the bytes that it stands in.
#[derive(Debug, Drop)]
pub struct BrowseDescriptionView<'a> {
    pub node_id: NodeIdView<'a>,
    pub browse_direction: BrowseDirection,
    /// The type of the references, or null for all types.
    pub reference_type_id: NodeIdView<'a>,
    /// Whether subtypes of that type count too.
    pub include_subtypes: bool,
    /// The classes of the nodes at the other end, as the sum of their numbers (`ua_types::NodeClass`); 0 is all.
    pub node_class_mask: u32,
    /// Which fields of a reference are wanted: the sum of the constants of [`BrowseDescription`].
    pub result_mask: u32,
}

impl<'a> Model for BrowseDescriptionView<'a> {
    ghost use Rattle.ua_service_messages.specs.declared.browsing.BrowseDescription.{BrowseDescription};

    ghost Value = { BrowseDescription };

    ghost view = { λ v. record { node_id = v.node_id; browse_direction = v.browse_direction; reference_type_id = v.reference_type_id; include_subtypes = v.include_subtypes; node_class_mask = v.node_class_mask; result_mask = v.result_mask } };
}

impl<'a> Readable for BrowseDescriptionView<'a> {
    ghost reading = { browse_description_reading };
}

#[tactic(auto, unfolding(crate::specs::Browsing::browse_description_reading))]
impl<'a> View<'a> for BrowseDescriptionView<'a> {
    fn look(cursor: &mut Cursor<'a>) -> Result<BrowseDescriptionView<'a>, TakeFault> {
        Ok(BrowseDescriptionView {
            node_id: NodeIdView::look(cursor)?,
            browse_direction: look_enumeration::<BrowseDirection>(cursor)?,
            reference_type_id: NodeIdView::look(cursor)?,
            include_subtypes: bool::look(cursor)?,
            node_class_mask: u32::look(cursor)?,
            result_mask: u32::look(cursor)?,
        })
    }
}

/// Asks for the references of nodes (Browse, IEC 62541-4, section 5, View Service Set).
///
/// The fields from `view_id` to `view_version` are a ViewDescription in the standard.
#[derive(Debug, Drop)]
pub struct BrowseRequest {
    /// The view that bounds what is seen, null for the whole address space.
    pub view_id: NodeId,
    /// The version of the view by its time, or 0.
    pub view_timestamp: Moment,
    /// The version of the view by its number, or 0.
    pub view_version: u32,
    /// The most references that a result is to have; 0 is no limit.
    pub requested_max_references_per_node: u32,
    pub nodes_to_browse: Array<BrowseDescription>,
}

#[tactic(auto, using(ua_binary::proofs::Fields::fields5), unfolding(crate::specs::Browsing::browse_request_reading, crate::specs::Browsing::browse_request_encoding))]
impl Wire for BrowseRequest {
    ghost reading = { browse_request_reading };

    ghost encoding = { browse_request_encoding };

    fn decode(alloc: Global, cursor: &mut Cursor<'_>) -> Result<BrowseRequest, TakeFault> {
        Ok(BrowseRequest {
            view_id: NodeId::decode(alloc, cursor)?,
            view_timestamp: Moment::decode(alloc, cursor)?,
            view_version: u32::decode(alloc, cursor)?,
            requested_max_references_per_node: u32::decode(alloc, cursor)?,
            nodes_to_browse: Array::<BrowseDescription>::decode(alloc, cursor)?,
        })
    }

    fn encode(&self, out: &mut Vec<u8>) -> Result<(), AllocError> {
        self.view_id.encode(out)?;
        self.view_timestamp.encode(out)?;
        self.view_version.encode(out)?;
        self.requested_max_references_per_node.encode(out)?;
        self.nodes_to_browse.encode(out)?;
        Ok(())
    }
}

/// A [`BrowseRequest`] in the bytes that it stands in.
#[derive(Debug, Drop)]
pub struct BrowseRequestView<'a> {
    /// The view that bounds what is seen, null for the whole address space.
    pub view_id: NodeIdView<'a>,
    /// The version of the view by its time, or 0.
    pub view_timestamp: Moment,
    /// The version of the view by its number, or 0.
    pub view_version: u32,
    /// The most references that a result is to have; 0 is no limit.
    pub requested_max_references_per_node: u32,
    pub nodes_to_browse: ArrayView<'a, BrowseDescriptionView<'a>>,
}

impl<'a> Model for BrowseRequestView<'a> {
    ghost use Rattle.ua_service_messages.specs.declared.browsing.BrowseRequest.{BrowseRequest};

    ghost Value = { BrowseRequest };

    ghost view = { λ v. record { view_id = v.view_id; view_timestamp = v.view_timestamp; view_version = v.view_version; requested_max_references_per_node = v.requested_max_references_per_node; nodes_to_browse = v.nodes_to_browse } };
}

impl<'a> Readable for BrowseRequestView<'a> {
    ghost reading = { browse_request_reading };
}

#[tactic(auto, unfolding(crate::specs::Browsing::browse_request_reading))]
impl<'a> View<'a> for BrowseRequestView<'a> {
    fn look(cursor: &mut Cursor<'a>) -> Result<BrowseRequestView<'a>, TakeFault> {
        Ok(BrowseRequestView {
            view_id: NodeIdView::look(cursor)?,
            view_timestamp: Moment::look(cursor)?,
            view_version: u32::look(cursor)?,
            requested_max_references_per_node: u32::look(cursor)?,
            nodes_to_browse: ArrayView::<BrowseDescriptionView<'a>>::look(cursor)?,
        })
    }
}

/// A reference, seen from the node that was browsed (ReferenceDescription, IEC 62541-4, section 7).
///
/// What was not asked for is null, false or 0.
#[derive(Debug, Drop)]
pub struct ReferenceDescription {
    pub reference_type_id: NodeId,
    /// Whether it begins at the node that was browsed.
    pub is_forward: bool,
    /// The node at the other end. The further fields describe it.
    pub node_id: ExpandedNodeId,
    pub browse_name: QualifiedName,
    pub display_name: LocalizedText,
    /// The number of its class (`ua_types::NodeClass`).
    pub node_class: i32,
    /// The type of an object or a variable, else null.
    pub type_definition: ExpandedNodeId,
}

#[tactic(auto, using(ua_binary::proofs::Fields::fields7), unfolding(crate::specs::Browsing::reference_description_reading, crate::specs::Browsing::reference_description_encoding))]
impl Wire for ReferenceDescription {
    ghost reading = { reference_description_reading };

    ghost encoding = { reference_description_encoding };

    fn decode(alloc: Global, cursor: &mut Cursor<'_>) -> Result<ReferenceDescription, TakeFault> {
        Ok(ReferenceDescription {
            reference_type_id: NodeId::decode(alloc, cursor)?,
            is_forward: bool::decode(alloc, cursor)?,
            node_id: ExpandedNodeId::decode(alloc, cursor)?,
            browse_name: QualifiedName::decode(alloc, cursor)?,
            display_name: LocalizedText::decode(alloc, cursor)?,
            node_class: i32::decode(alloc, cursor)?,
            type_definition: ExpandedNodeId::decode(alloc, cursor)?,
        })
    }

    fn encode(&self, out: &mut Vec<u8>) -> Result<(), AllocError> {
        self.reference_type_id.encode(out)?;
        self.is_forward.encode(out)?;
        self.node_id.encode(out)?;
        self.browse_name.encode(out)?;
        self.display_name.encode(out)?;
        self.node_class.encode(out)?;
        self.type_definition.encode(out)?;
        Ok(())
    }
}

/// A [`ReferenceDescription`] to be written, of which ids, names and texts stand elsewhere. The ids are of nodes of this
/// server. Contracts see the ReferenceDescription.
#[derive(Debug, Drop)]
pub struct BorrowedReferenceDescription<'a> {
    pub reference_type_id: &'a NodeId,
    /// Whether it begins at the node that was browsed.
    pub is_forward: bool,
    /// The node at the other end.
    pub node_id: &'a NodeId,
    pub browse_name: &'a QualifiedName,
    pub display_name: &'a LocalizedText,
    /// The number of its class (`ua_types::NodeClass`).
    pub node_class: i32,
    /// The type of an object or a variable, else null.
    pub type_definition: &'a NodeId,
}

impl<'a> Model for BorrowedReferenceDescription<'a> {
    ghost use Rattle.ua_binary.specs.ExpandedNodeIds.{local_id};
    ghost use Rattle.ua_service_messages.specs.declared.browsing.ReferenceDescription.{ReferenceDescription};

    ghost Value = { ReferenceDescription };

    ghost view = { λ d. record { reference_type_id = d.reference_type_id.now; is_forward = d.is_forward; node_id = local_id d.node_id.now; browse_name = d.browse_name.now; display_name = d.display_name.now; node_class = d.node_class; type_definition = local_id d.type_definition.now } };
}

#[tactic(auto, using(ua_binary::proofs::Fields::fields7), unfolding(crate::specs::Browsing::reference_description_reading, crate::specs::Browsing::reference_description_encoding))]
impl Written for BorrowedReferenceDescription<'_> {
    ghost reading = { reference_description_reading };

    ghost encoding = { reference_description_encoding };

    fn write(&self, out: &mut Vec<u8>) -> Result<(), AllocError> {
        self.reference_type_id.encode(out)?;
        self.is_forward.encode(out)?;
        write_local_id(self.node_id, out)?;
        self.browse_name.encode(out)?;
        self.display_name.encode(out)?;
        self.node_class.encode(out)?;
        write_local_id(self.type_definition, out)?;
        Ok(())
    }
}

/// The references of one node, or the first of them (BrowseResult, IEC 62541-4, section 7).
#[derive(Debug, Drop)]
pub struct BrowseResult {
    pub status_code: Status,
    /// By this BrowseNext gives the further references; null where there are none.
    pub continuation_point: ByteString,
    pub references: Array<ReferenceDescription>,
}

#[tactic(auto, using(ua_binary::proofs::Fields::fields3), unfolding(crate::specs::Browsing::browse_result_reading, crate::specs::Browsing::browse_result_encoding))]
impl Wire for BrowseResult {
    ghost reading = { browse_result_reading };

    ghost encoding = { browse_result_encoding };

    fn decode(alloc: Global, cursor: &mut Cursor<'_>) -> Result<BrowseResult, TakeFault> {
        Ok(BrowseResult {
            status_code: Status::decode(alloc, cursor)?,
            continuation_point: ByteString::decode(alloc, cursor)?,
            references: Array::<ReferenceDescription>::decode(alloc, cursor)?,
        })
    }

    fn encode(&self, out: &mut Vec<u8>) -> Result<(), AllocError> {
        self.status_code.encode(out)?;
        self.continuation_point.encode(out)?;
        self.references.encode(out)?;
        Ok(())
    }
}

/// The response to [`BrowseRequest`], with one result for each node.
pub type BrowseResponse = Results<BrowseResult>;

/// Asks for further references, or gives them up (BrowseNext, IEC 62541-4, section 5, View Service Set).
#[derive(Debug, Drop)]
pub struct BrowseNextRequest {
    /// Whether the points are only given up.
    pub release_continuation_points: bool,
    pub continuation_points: Array<ByteString>,
}

#[tactic(auto, using(ua_binary::proofs::Fields::fields2), unfolding(crate::specs::Browsing::browse_next_request_reading, crate::specs::Browsing::browse_next_request_encoding))]
impl Wire for BrowseNextRequest {
    ghost reading = { browse_next_request_reading };

    ghost encoding = { browse_next_request_encoding };

    fn decode(alloc: Global, cursor: &mut Cursor<'_>) -> Result<BrowseNextRequest, TakeFault> {
        Ok(BrowseNextRequest {
            release_continuation_points: bool::decode(alloc, cursor)?,
            continuation_points: Array::<ByteString>::decode(alloc, cursor)?,
        })
    }

    fn encode(&self, out: &mut Vec<u8>) -> Result<(), AllocError> {
        self.release_continuation_points.encode(out)?;
        self.continuation_points.encode(out)?;
        Ok(())
    }
}

/// A [`BrowseNextRequest`] in the bytes that it stands in.
#[derive(Debug, Drop)]
pub struct BrowseNextRequestView<'a> {
    /// Whether the points are only given up.
    pub release_continuation_points: bool,
    pub continuation_points: ArrayView<'a, ByteStringView<'a>>,
}

impl<'a> Model for BrowseNextRequestView<'a> {
    ghost use Rattle.ua_service_messages.specs.declared.browsing.BrowseNextRequest.{BrowseNextRequest};

    ghost Value = { BrowseNextRequest };

    ghost view = { λ v. record { release_continuation_points = v.release_continuation_points; continuation_points = v.continuation_points } };
}

impl<'a> Readable for BrowseNextRequestView<'a> {
    ghost reading = { browse_next_request_reading };
}

#[tactic(auto, unfolding(crate::specs::Browsing::browse_next_request_reading))]
impl<'a> View<'a> for BrowseNextRequestView<'a> {
    fn look(cursor: &mut Cursor<'a>) -> Result<BrowseNextRequestView<'a>, TakeFault> {
        Ok(BrowseNextRequestView {
            release_continuation_points: bool::look(cursor)?,
            continuation_points: ArrayView::<ByteStringView<'a>>::look(cursor)?,
        })
    }
}

/// The response to [`BrowseNextRequest`], with one result for each point.
pub type BrowseNextResponse = Results<BrowseResult>;

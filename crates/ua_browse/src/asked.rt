//! What is asked for of a node's references.

ghost use Rattle.std.specs.Prelude.{◌≡◌, IfOk};

use std::alloc::{AllocError, Global};
use std::marker::Model;
use ua_service_messages::{BrowseDescription, BrowseDirection};
use ua_types::{Copyable, NodeId};

/// Which references of a node are wanted, and what of them. The ids stand elsewhere: in the space where a page is the first
/// one, and in a continuation point where it goes on. Contracts see it as the [`BrowseDescription`].
#[derive(Debug, Drop)]
pub(crate) struct Asked<'a> {
    pub node_id: &'a NodeId,
    pub browse_direction: BrowseDirection,
    /// The type of the references, or null for all types.
    pub reference_type_id: &'a NodeId,
    pub include_subtypes: bool,
    pub node_class_mask: u32,
    pub result_mask: u32,
}

impl<'a> Model for Asked<'a> {
    ghost use Rattle.ua_service_messages.specs.declared.browsing.BrowseDescription.{BrowseDescription};

    ghost Value = { BrowseDescription };

    ghost view = { λ a. record { node_id = a.node_id.now; browse_direction = a.browse_direction; reference_type_id = a.reference_type_id.now; include_subtypes = a.include_subtypes; node_class_mask = a.node_class_mask; result_mask = a.result_mask } };
}

impl<'a> Asked<'a> {
    /// What a description asks for.
    pub(crate) fn by(description: &'a BrowseDescription) -> Asked<'a>
        ensures { result ≡ description.now }
    {
        Asked {
            node_id: &description.node_id,
            browse_direction: description.browse_direction,
            reference_type_id: &description.reference_type_id,
            include_subtypes: description.include_subtypes,
            node_class_mask: description.node_class_mask,
            result_mask: description.result_mask,
        }
    }

    /// A description of its own, for a continuation point to keep.
    pub(crate) fn copy(&self, alloc: Global) -> Result<BrowseDescription, AllocError>
        ensures { IfOk result (λ copy. copy ≡ self.now) }
    {
        Ok(BrowseDescription {
            node_id: self.node_id.copy(alloc)?,
            browse_direction: self.browse_direction,
            reference_type_id: self.reference_type_id.copy(alloc)?,
            include_subtypes: self.include_subtypes,
            node_class_mask: self.node_class_mask,
            result_mask: self.result_mask,
        })
    }
}

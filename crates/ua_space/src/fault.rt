//! What may be wrong with nodes and references.

ghost use Rattle.std.specs.Prelude.{◌≡◌};
ghost use Rattle.ua_space.specs.declared.fault.SpaceFault.TheVariants.{Memory};

use crate::triple::Part;
use std::alloc::{AllocError, AllocFailed};
use thiserror::Error;

/// Why no space can be built, and the part that is at fault.
#[derive(Clone, Copy, Debug, PartialEq, Eq, Error)]
pub enum SpaceFault {
    /// The id of this node, or this reference, was given before.
    #[error("Duplicate {0}")]
    Duplicate(Part),
    /// An end of a reference is no node, or its type is no ReferenceType node.
    #[error("DanglingReference {0}")]
    DanglingReference(Part),
    /// A reference lies on a loop of HasSubtype references.
    #[error("SubtypeLoop {0}")]
    SubtypeLoop(Part),
    /// More than 1,000,000 nodes or 4,000,000 references, the base set included.
    #[error("Limit file 0")]
    Limit,
    /// An allocation failed. Nothing is said of the nodes and references.
    #[error("Memory")]
    Memory,
    /// What this node had before the server began is no history: a value has no source time, the source
    /// times don't rise, or the node is no Variable whose history is kept.
    #[error("History {0}")]
    History(Part),
}

impl From<AllocError> for SpaceFault {
    ghost from_gives = { λ _ e. e ≡ Memory };

    fn from(_e: AllocError) -> SpaceFault {
        SpaceFault::Memory
    }
}

impl<T: Drop> From<AllocFailed<T>> for SpaceFault {
    ghost from_gives = { λ _ e. e ≡ Memory };

    fn from(_e: AllocFailed<T>) -> SpaceFault {
        SpaceFault::Memory
    }
}

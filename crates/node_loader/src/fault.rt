//! What may be wrong with a node file, and where.

ghost use Rattle.std.specs.Prelude.{◌≡◌};
ghost use Rattle.node_loader.specs.declared.fault.Cause.TheVariants.{Memory};

use std::alloc::{AllocError, AllocFailed};
use thiserror::Error;
use ua_space::Part;

/// What is wrong with a part of a node file, or that memory ran out.
#[derive(Clone, Copy, Debug, PartialEq, Eq, Error)]
pub enum Cause {
    /// The file isn't TOML, or an integer in it needs more than 64 bits.
    #[error("Toml")]
    Toml,
    /// There is no `version`, or it is neither 1 nor 2.
    #[error("Version")]
    Version,
    /// A key that the part must have is absent.
    #[error("MissingKey")]
    MissingKey,
    /// A value isn't of its key's kind, as a text where an integer belongs.
    #[error("WrongKind")]
    WrongKind,
    /// The part has a key that has no meaning there.
    #[error("UnknownKey")]
    UnknownKey,
    /// A text isn't the text of a node id.
    #[error("BadId")]
    BadId,
    /// A value lies outside its key's range.
    #[error("OutOfRange")]
    OutOfRange,
    /// An allocation failed. Nothing is said of the file.
    #[error("Memory")]
    Memory,
}

impl From<AllocError> for Cause {
    ghost from_gives = { λ _ c. c ≡ Memory };

    fn from(_e: AllocError) -> Cause {
        Cause::Memory
    }
}

// Want of memory, with what could not be pushed.
impl<T: Drop> From<AllocFailed<T>> for Cause {
    ghost from_gives = { λ _ c. c ≡ Memory };

    fn from(_e: AllocFailed<T>) -> Cause {
        Cause::Memory
    }
}

/// What is wrong with a node file, and the part that is at fault: the first fault in the order of
/// the file's definition. It is printed as `UnknownKey node 3`.
#[derive(Clone, Copy, Debug, PartialEq, Eq, Error)]
#[error("{cause} {part}")]
pub struct LoadFault {
    pub cause: Cause,
    pub part: Part,
}

impl From<AllocError> for LoadFault {
    ghost from_gives = { λ _ f. f.cause ≡ Memory };

    fn from(_e: AllocError) -> LoadFault {
        LoadFault {
            cause: Cause::Memory,
            part: Part::File,
        }
    }
}

// Want of memory, with what could not be pushed.
impl<T: Drop> From<AllocFailed<T>> for LoadFault {
    ghost from_gives = { λ _ f. f.cause ≡ Memory };

    fn from(_e: AllocFailed<T>) -> LoadFault {
        LoadFault {
            cause: Cause::Memory,
            part: Part::File,
        }
    }
}

//! Why bytes could not be read.

ghost use Rattle.std.specs.Prelude.{◌≡◌};
ghost use Rattle.ua_binary.specs.declared.fault.TakeFault.TheVariants.{Memory};

use std::alloc::{AllocError, AllocFailed};
use thiserror::Error;

/// What is wrong with bytes: the first fault from left to right.
#[derive(Clone, Copy, Debug, PartialEq, Eq, Error)]
pub enum TakeFault {
    /// A field passes the end, as a text whose length is above the number of bytes left.
    #[error("the bytes end within a field")]
    Short,
    /// A list claims more elements than bytes are left.
    #[error("a list claims more elements than bytes are left")]
    Length,
    /// The bytes of a String aren't UTF-8.
    #[error("a text is not UTF-8")]
    Utf8,
    /// A byte has no meaning in its place.
    #[error("a byte has no meaning in its place")]
    Form,
    /// A Variant is of a type that isn't served.
    #[error("a variant is of a type that is not served")]
    Kind,
    /// An allocation failed. The bytes may be good.
    #[error("out of memory")]
    Memory,
}

impl From<AllocError> for TakeFault {
    ghost from_gives = { λ _ e. e ≡ Memory };

    fn from(_e: AllocError) -> TakeFault {
        TakeFault::Memory
    }
}

impl<T: Drop> From<AllocFailed<T>> for TakeFault {
    ghost from_gives = { λ _ e. e ≡ Memory };

    fn from(_e: AllocFailed<T>) -> TakeFault {
        TakeFault::Memory
    }
}

//! Why an answer isn't sent.

ghost use Rattle.std.specs.Prelude.{◌≡◌};
ghost use Rattle.ua_transport.specs.declared.send_fault.SendFault.TheVariants.{Memory};

use std::alloc::{AllocError, AllocFailed};
use thiserror::Error;

/// Why an answer isn't sent. The channel is as it was before.
#[derive(Clone, Copy, Debug, PartialEq, Eq, Error)]
pub enum SendFault {
    /// The answer is longer than the largest message that the client takes, or has more chunks, or
    /// has to be in one chunk and isn't.
    #[error("the answer is larger than the client takes")]
    TooLarge,

    /// An allocation failed.
    #[error("out of memory")]
    Memory,
}

impl From<AllocError> for SendFault {
    ghost from_gives = { λ _ e. e ≡ Memory };

    fn from(_e: AllocError) -> SendFault {
        SendFault::Memory
    }
}

impl<T: Drop> From<AllocFailed<T>> for SendFault {
    ghost from_gives = { λ _ e. e ≡ Memory };

    fn from(_e: AllocFailed<T>) -> SendFault {
        SendFault::Memory
    }
}

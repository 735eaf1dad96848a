//! Why the server halts.

ghost use Rattle.std.specs.Prelude.{◌≡◌};
ghost use Rattle.server_messages.specs.Halts.{refusal_of};
ghost use Rattle.server_messages.specs.declared.halt.Halt.TheVariants.{Memory};

use std::alloc::{AllocError, AllocFailed};
use thiserror::Error;
use ua_types::Refusal;

/// Why a part of the server can't go on. Nothing is said of what it then is.
#[derive(Clone, Copy, Debug, PartialEq, Eq, Error)]
pub enum Halt {
    /// An allocation failed.
    #[error("out of memory")]
    Memory,
    /// A serial of 64 bits is at its last value.
    #[error("out of serial numbers")]
    Exhausted,
}

impl From<Halt> for Refusal {
    ghost from_gives = { λ halt e. e ≡ refusal_of halt };

    fn from(halt: Halt) -> Refusal {
        match halt {
            Halt::Memory => Refusal::Memory,
            Halt::Exhausted => Refusal::Exhausted,
        }
    }
}

impl From<AllocError> for Halt {
    ghost from_gives = { λ _ e. e ≡ Memory };

    fn from(_e: AllocError) -> Halt {
        Halt::Memory
    }
}

impl<T: Drop> From<AllocFailed<T>> for Halt {
    ghost from_gives = { λ _ e. e ≡ Memory };

    fn from(_e: AllocFailed<T>) -> Halt {
        Halt::Memory
    }
}

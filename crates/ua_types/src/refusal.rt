//! Why a service has no answer of its own.

ghost use Rattle.std.specs.Prelude.{◌≡◌};
ghost use Rattle.ua_types.specs.declared.refusal.Refusal.TheVariants.{Service, Memory};

use crate::status::Status;
use std::alloc::{AllocError, AllocFailed};
use thiserror::Error;

/// Why a call of the server's layers gives no value.
#[derive(Clone, Copy, Debug, PartialEq, Eq, Error)]
pub enum Refusal {
    /// The peer is told this status.
    #[error("refused with status {:#010x}", .0.0)]
    Service(Status),
    /// An allocation failed.
    #[error("out of memory")]
    Memory,
    /// A serial of 64 bits is at its last value.
    #[error("out of serial numbers")]
    Exhausted,
}

impl From<Status> for Refusal {
    ghost from_gives = { λ status e. e ≡ Service status };

    fn from(status: Status) -> Refusal {
        Refusal::Service(status)
    }
}

impl From<AllocError> for Refusal {
    ghost from_gives = { λ _ e. e ≡ Memory };

    fn from(_e: AllocError) -> Refusal {
        Refusal::Memory
    }
}

impl<T: Drop> From<AllocFailed<T>> for Refusal {
    ghost from_gives = { λ _ e. e ≡ Memory };

    fn from(_e: AllocFailed<T>) -> Refusal {
        Refusal::Memory
    }
}

//! Why serving ended.

ghost use Rattle.std.specs.Prelude.{◌≡◌};
ghost use Rattle.socket_server.specs.declared.serve_fault.ServeFault.TheVariants as serve_fault;

use server_core::StepFault;
use server_messages::StoreFault;
use std::alloc::{AllocError, AllocFailed};
use thiserror::Error;

/// Why serving ended. No socket that fails ends it, and no client.
#[derive(Clone, Copy, Debug, PartialEq, Eq, Error)]
pub enum ServeFault {
    /// The system refused to listen for another reason, or the wait, the clock or random bytes.
    #[error("the network")]
    Network,
    /// The server didn't answer an event.
    #[error("the server did not answer")]
    Step(StepFault),
    /// A growth of the loop's own was refused, or events have no further number of 64 bits. The server is as
    /// its last step left it.
    #[error("out of memory")]
    Memory,
    /// The port can't be had: another program has it, or only an administrator may.
    #[error("the port can't be had")]
    Port,
    /// The address is none of this machine's.
    #[error("the address can't be had")]
    Address,
    /// What fired at an event, which the server answered, couldn't be told: a write failed.
    #[error("a write of the trace failed")]
    Trace,
    /// What was stored can't be kept, and waits still. Nothing goes out that the server sent when it stored it, or later.
    #[error("what was stored can't be kept")]
    Store(StoreFault),
}

impl From<AllocError> for ServeFault {
    ghost from_gives = { λ _ e. e ≡ serve_fault.Memory };

    fn from(_e: AllocError) -> ServeFault {
        ServeFault::Memory
    }
}

impl<T: Drop> From<AllocFailed<T>> for ServeFault {
    ghost from_gives = { λ _ e. e ≡ serve_fault.Memory };

    fn from(_e: AllocFailed<T>) -> ServeFault {
        ServeFault::Memory
    }
}

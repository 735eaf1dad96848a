//! What goes out.

ghost use Rattle.std.specs.Prelude.{◌≡◌, ◌++◌, OnOk};
ghost use Rattle.server_core.specs.declared.out.StepFault.TheVariants.{Memory};
ghost use Rattle.server_core.specs.Effects.{step, no_step};
ghost use Rattle.server_core.specs.Faults.{fault_of};

use collections::ShortList;
use server_messages::{Fired, Halt, Out, Stored};
use std::alloc::{AllocError, AllocFailed, Global};
use thiserror::Error;
use ua_types::Listed;

/// The server's answer to an event.
#[derive(Debug, Drop)]
pub struct Step {
    /// What is to be done, in order.
    pub outs: ShortList<Out>,

    /// The rows of the subscriptions' state table that fired, in order.
    pub rows: Listed<Fired>,

    /// What a store has to keep before any of the outs is done, in order; nothing where the configuration has no store.
    pub stored: Listed<Stored>,
}

impl Step {
    /// Nothing is to be done. Takes no memory.
    pub fn new(alloc: Global) -> Step
        ensures { result ≡ no_step }
    {
        Step {
            outs: ShortList::new(alloc),
            rows: Listed::new(alloc),
            stored: Listed::new(alloc),
        }
    }

    // Rows that fired, and what a store has to keep, behind those before.
    pub(crate) fn add(
        &mut self,
        rows: Listed<Fired>,
        stored: Listed<Stored>,
    ) -> Result<(), AllocError>
        ensures { OnOk result (self.new ≡ step self.old.outs (self.old.rows ++ rows) (self.old.stored ++ stored)) }
    {
        self.rows.append(rows)?;
        self.stored.append(stored)
    }
}

/// Why an event has no answer.
#[derive(Clone, Copy, Debug, PartialEq, Eq, Error)]
pub enum StepFault {
    /// A connection was opened whose number isn't above those of all before it. Nothing changed.
    #[error("the connection's number is not above all before it")]
    KnownConnection,

    /// The event is of a connection that was not opened or is gone. Nothing changed.
    #[error("no such connection")]
    UnknownConnection,

    /// An allocation failed. Nothing of the step is to be done, and the server is halted.
    #[error("out of memory")]
    Memory,

    /// The server was halted by an earlier event, for good.
    #[error("the server is halted")]
    Halted,

    /// A serial of 64 bits is at its last value. Nothing of the step is to be done, and the server is
    /// halted.
    #[error("out of serial numbers")]
    Exhausted,
}

impl From<AllocError> for StepFault {
    ghost from_gives = { λ _ e. e ≡ Memory };

    fn from(_e: AllocError) -> StepFault {
        StepFault::Memory
    }
}

impl<T: Drop> From<AllocFailed<T>> for StepFault {
    ghost from_gives = { λ _ e. e ≡ Memory };

    fn from(_e: AllocFailed<T>) -> StepFault {
        StepFault::Memory
    }
}

impl From<Halt> for StepFault {
    ghost from_gives = { λ halt e. e ≡ fault_of halt };

    fn from(halt: Halt) -> StepFault {
        match halt {
            Halt::Memory => StepFault::Memory,
            Halt::Exhausted => StepFault::Exhausted,
        }
    }
}

/// What a run of events came to.
#[derive(Debug, Drop)]
pub struct Ran {
    /// The answers, up to the first event that had none.
    pub steps: Listed<Step>,
    /// Why that event had none.
    pub fault: Option<StepFault>,
}

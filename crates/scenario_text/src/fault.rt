//! What may be wrong with a scenario, and where.

ghost use Rattle.std.specs.Prelude.{◌≡◌};
ghost use Rattle.scenario_text.specs.declared.fault.Cause.TheVariants.{Memory};

use std::alloc::{AllocError, AllocFailed};
use thiserror::Error;

/// What is wrong with a line of a scenario, or that memory ran out.
#[derive(Clone, Copy, Debug, PartialEq, Eq, Error)]
pub enum Cause {
    /// A word isn't one that may stand in its place, is missing or is one too many, or its quotes are
    /// wrong: a text isn't closed, or isn't quoted where it must be, or something is glued to a quote.
    #[error("Word")]
    Word,
    /// A word isn't a decimal number that fits, or isn't two such numbers round a colon where those are due, or `open` names a
    /// connection that isn't above all before.
    #[error("Number")]
    Number,
    /// A word isn't the text of a node id.
    #[error("Id")]
    Id,
    /// The connection isn't open at its line, or no line before has made the session.
    #[error("NoConnection")]
    NoConnection,
    /// A key, bytes or a value can't be read.
    #[error("Value")]
    Value,
    /// The scenario has too many events, or a request's body is too long. Reading a text never answers it.
    #[error("Limit")]
    Limit,
    /// An allocation failed, or a text has 2^31 bytes or more. Nothing is said of the scenario.
    #[error("Memory")]
    Memory,
}

impl From<AllocError> for Cause {
    ghost from_gives = { λ _ c. c ≡ Memory };

    fn from(_e: AllocError) -> Cause {
        Cause::Memory
    }
}

// Want of memory, with what could not be pushed.
impl<T: Drop> From<AllocFailed<T>> for Cause {
    ghost from_gives = { λ _ c. c ≡ Memory };

    fn from(_e: AllocFailed<T>) -> Cause {
        Cause::Memory
    }
}

/// What is wrong with a scenario: the first bad line, and what is wrong with its leftmost bad word. It is
/// printed as `Word line 6`.
#[derive(Clone, Copy, Debug, PartialEq, Eq, Error)]
#[error("{cause} line {line}")]
pub struct AsmFault {
    pub cause: Cause,
    /// The number of the line, from 1. It means nothing where the cause is `Memory`.
    pub line: u64,
}

impl From<AllocError> for AsmFault {
    ghost from_gives = { λ _ f. f.cause ≡ Memory };

    fn from(_e: AllocError) -> AsmFault {
        AsmFault {
            cause: Cause::Memory,
            line: 0,
        }
    }
}

// Want of memory, with what could not be pushed.
impl<T: Drop> From<AllocFailed<T>> for AsmFault {
    ghost from_gives = { λ _ f. f.cause ≡ Memory };

    fn from(_e: AllocFailed<T>) -> AsmFault {
        AsmFault {
            cause: Cause::Memory,
            line: 0,
        }
    }
}

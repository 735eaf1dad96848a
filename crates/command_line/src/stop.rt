//! Why no command was answered.

ghost use Rattle.std.specs.Prelude.{◌≡◌};

use std::alloc::AllocError;
use thiserror::Error;

/// Why words are no [`Command`], with the text for the user. The texts of `Help` and `Usage` end in
/// one newline, and `memory` in none.
#[derive(Debug, Drop, Error)]
pub enum Stop {
    /// Help was asked for, by `--help`, `-h` or `help`, or the version, by `--version` or `-V`. The text
    /// goes to standard output, and the exit status is 0.
    #[error("{0}")]
    Help(String),

    /// The words are no command line of the program. The text goes to standard error, and the exit
    /// status is 2.
    #[error("{0}")]
    Usage(String),

    /// A growth of memory was refused.
    #[error("memory")]
    Memory,
}

impl From<AllocError> for Stop {
    ghost use Rattle.command_line.specs.declared.stop.Stop.{Stop};
    ghost use Rattle.command_line.specs.declared.stop.Stop.TheVariants.{Memory};

    ghost from_gives = { λ _ stop. stop ≡ Memory };

    fn from(_error: AllocError) -> Stop {
        Stop::Memory
    }
}

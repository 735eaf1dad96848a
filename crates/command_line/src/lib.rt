//! The command line of the program `uaserver`.
//!
//! [`parse`] reads the words after the program's name. It answers a [`Command`], which says what is
//! asked for, or a [`Stop`], which says what to print instead and why. It reads and writes nothing
//! itself.
//!
//! To add a command, give [`Command`] a variant, the program in `src/program.rt` a subcommand, and
//! `command_of` in `src/parsing.rt` the step from its matches to the variant. `specs/Words.antt` says
//! the same of the words, in `program` and `words_of`.
//!
//! What a contract sees: the words, and what clap finds wrong with them.
//!
//! Read [`parse`] and [`Command`] first.
#![tactic(auto)]

mod command;
mod help;
mod parsing;
mod program;
mod stop;

pub use command::{Command, ServeOptions};
pub use parsing::parse;
pub use stop::Stop;

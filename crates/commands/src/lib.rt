//! What the program `uaserver` does, over words, files and streams.
//!
//! [`run`] does what the words of a command line ask for and says how that ended: `pipe` serves one connection over a
//! reader and a writer, `serve` any number over sockets, and `check` counts what a node file holds; `asm` prints the events
//! of a scenario, `run` what is sent when they happen to a server, and `trace` which rows of the subscriptions' state table
//! fire then. [`run_args`] is what the program itself calls, with its words and its three standard streams; it ends with
//! [`ExitStatus::code`].
//!
//! What a contract sees: the words, the text of each file that was read, and the bytes of the streams. `Commands` has what
//! each command comes to, `Serving` what `serve` puts out meanwhile, `Scenarios` those that take a scenario, `NodeFiles` what a
//! node file makes, and `Statuses` the exit statuses.
//!
//! Read [`run`] and [`ExitStatus`] first.
#![tactic(auto)]

mod arguments;
mod checking;
mod ends;
mod exit_status;
mod footprint;
mod frames;
mod log;
mod machine;
mod process;
mod program;
mod scenarios;
mod serving;
mod stop_file;
mod summary;
mod text_file;
mod watching;

pub use arguments::run_args;
pub use checking::explain;
pub use exit_status::ExitStatus;
pub use log::Log;
pub use machine::Machine;
pub use process::Process;
pub use program::{Ended, check, no_memory, pipe, run, step_fault};
pub use scenarios::asm;
pub use serving::serve;
pub use stop_file::StopFile;
pub use text_file::{FileFault, TextFile};
pub use watching::{Visitors, Visits};

//! Scenarios as they happen to a server: the events that a text comes to, and a run of them, told in lines.
//!
//! [`assemble`] takes a text and gives the [`Event`](server_core::Event)s that it comes to: what a client would
//! send, byte by byte, in chunks and pieces of any size, or given up halfway. `scenario_text` says what the
//! lines mean, and which requests they stand for. Nothing here is a server: a request that one would refuse is assembled all the same.
//!
//! [`print_events`] writes a line for each event. [`print_run`] hands events to a server, one after the other, and
//! writes the [`Lines`] that are asked for: a line for each thing that is to be done, or for each row that fired,
//!
//! ```text
//! 10 1 N4 normal -> normal K2 L5 N3:EA N5:!Q N6:S G6:L=1
//! ```
//!
//! which is: at the 10th event row N4 fired for subscription 1 and left it Normal, its keep-alive counter
//! at 2 and its lifetime counter at 5. Four other rows stand for that state and event, and each has a
//! condition that didn't hold, the first of which is named (docs/SUBSCRIPTIONS.md). Nothing is chosen here: which
//! rows fired is what the server's [`Step`](server_core::Step) says, and why others didn't is what
//! `ua_state_table` says of the variables before the row (beside a row that fires, each other one has a reason:
//! `ua_state_table::laws`).
//!
//! Lines are held back until there are many of them, but for those of rows, and written at the end and where
//! something goes wrong. [`put_rows`] writes those of one event, for whoever hands in events another way.
//!
//! `specs/Assembly` defines the events, a group for each line; `Members` what a line comes to and what is so
//! after it; `Sendings` what a client sends, with its numbers; `RequestRuns` the chunks of a request, which `ua_transport`
//! cuts; `Pieces` how bytes are cut into events. [`laws`] states that what was cut is whole again, and that a server reads each request from
//! its chunks, and each Hello and each opening and end of a channel from its frame (`Reading`). [`assemble`] says too that its events are
//! what the scenario tells: `Meaning` is what happens, without a frame or a byte of a stream, and `Groups` when events are it, by rules of
//! counting of its own. `Texts` and `TraceText` have the lines, `Held` what is said of text on its way to a writer, and `Runs` what a run
//! comes to.
//!
//! What a contract sees: a group of events for each line; what the tap holds, and the text of events, of outs and of rows.
//!
//! Read docs/SCENARIOS.md first, then [`assemble`], [`print_run`] and [`RunFault`].
#![tactic(auto)]

mod assembler;
mod assembly;
mod chunks;
mod clients;
mod events;
mod held;
pub mod laws;
mod rows;
mod runs;
mod texts;
mod trace_text;

pub use assembler::{Assembler, Member, Session};
pub use assembly::assemble;
pub use clients::Client;
pub use events::print_events;
pub use held::PrintFault;
pub use rows::put_rows;
pub use runs::{Lines, RunFault, print_run};
pub use trace_text::append_line;

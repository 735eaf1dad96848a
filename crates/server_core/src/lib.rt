//! An OPC UA server as a pure machine: what happens goes in as [`Event`]s, and what is to be done
//! comes out as [`Out`]s.
//!
//! A [`Server`] is told when a connection opens, when bytes come on it, when it is gone and what time
//! it is. Its answer, a [`Step`], says which frames to send and which connections to close, and which
//! rows of the subscriptions' state table fired. Here is no socket, no clock and no source of random
//! numbers: bytes, moments and keys come in as values. A loop that drives it:
//!
//! ```text
//! let mut server = Server::new(alloc, config, space)?;
//! while let Some(event) = sockets.next_event() {
//!     let step = server.step(&event)?;
//!     for out in step.outs.as_slice() {
//!         match out {
//!             Out::Send { conn, bytes } => sockets.write(*conn, bytes.as_slice())?,
//!             // Once what was sent is out. The connection's last event is then `Event::Gone`.
//!             Out::Close { conn } => sockets.close(*conn),
//!         }
//!     }
//! }
//! ```
//!
//! What a server knows has two parts that know nothing of each other: `server_connections` has who is
//! connected, and `ua_services` what is served. A frame is taken, the request that it completes is
//! served, and each reply is delivered on the connection that its request came by.
//!
//! What a contract sees: `world_of` a [`Server`]: its framers, setting, connections and services, or none once it
//! is halted.
//!
//! Read [`Event`], [`Step`] and [`Server`] first. `specs/World` has what the server knows, `Handling`
//! what a frame does, `Stepping` what an event does and `Running` what a list of events does: the world
//! after it, and one list of effects, of which a [`Step`] shows the outs and the rows. `Coherent` is what
//! every reached world keeps, and [`laws`] states it, with what holds wherever streams are cut. What holds of
//! sessions and subscriptions after any events, the crate `server_laws` says.
//!
//! Conversations with a server, with what has to come of them, stand in `worked_examples`.
#![tactic(auto)]

mod event;
pub mod laws;
mod out;
mod parts;
mod population;
mod server;
mod world;

pub use event::Event;
pub use out::{Ran, Step, StepFault};
pub use population::Population;
pub use server::Server;
pub use server_messages::{Fired, Out, Stored};
pub use ua_types::Listed;

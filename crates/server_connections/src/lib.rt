//! Who is connected: connections (TransportConnection, IEC 62541-6, 7.1), their secure channels
//! (SecureChannel, IEC 62541-4, 5.5), and what goes out by them.
//!
//! [`Connections::take`] makes requests of frames: it answers a Hello, opens and renews secure
//! channels, joins chunks and refuses what has to be refused. [`Connections::deliver`] sends replies,
//! each on the connection that its request came by. Nothing here knows of sessions, nodes and
//! services, nor of the bytes of a frame that is still to come: framers are kept beside, in a
//! [`collections::Numbered`] of their own.
//!
//! What a contract sees: the known connections under their numbers, the greatest number, and the number of
//! channels.
//!
//! Read [`Connections`] first. `specs/Reactions` defines what a frame does to its connection,
//! `Connecting` what frames, openings and endings do to all of them, `Delivering` how replies are
//! sent, and `Coherent` what holds of the connections of every server.
#![tactic(auto)]

mod connection;
mod connections;
mod frame_outcome;
mod reactions;
mod sending;
mod shutting;

pub use connection::{Connection, Phase};
pub use connections::Connections;
pub use frame_outcome::FrameOutcome;

//! Readers and writers whose failures are counted.
//!
//! A program that serves over a stream has to know whether what it wrote went out. [`Tap`] stands around a
//! reader or a writer, passes each call on, and counts those that failed, and apart from them those that were
//! interrupted; [`put_bytes`] writes a whole piece, and says how much of it went out. Here is no socket and no
//! protocol.
//!
//! What a contract sees: of a [`Tap`] the stream and its counts of failures.
//!
//! Read [`Tap`] first. `specs/Tapped` says when each count rises.
#![tactic(auto)]

mod tap;

pub use tap::{Tap, is_interruption, put_bytes};

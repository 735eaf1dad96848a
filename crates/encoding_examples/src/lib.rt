//! The lines of `worked_examples` that tell the encoding of OPC UA (IEC 62541-6, 5.2): what bytes mean, how it is written
//! again, how values are ordered, and what a text says of a node id.
//!
//! They stand on the values, the messages and their views alone, and know no server. [`write_encoding`] writes what comes of
//! one line, whose words are said on the first page of `worked_examples`.
#![tactic(auto)]

mod lines;
mod viewed;
mod viewed_sessions;
mod viewed_subscriptions;

pub use lines::write_encoding;

//! The text of scenarios: what is to happen to a server, one statement a line, and the requests that statements ask for.
//!
//! [`read`] gives the statements of a text, or its first bad line with the cause of its leftmost bad word.
//! [`readable`] gives those up to the first bad line beside it, and [`Known::read`] reads one line. A request that a server refuses
//! is a good line.
//!
//! [`request_body`] gives the request of a statement as the body of a message (IEC 62541-4). What a word of the statement says stands in
//! its field, and every other field is null or 0. The index range of a read or a write stands in each of its entries. A list without
//! entries is written with length 0. Each body says, beside its bytes, that it is read again as its structure, and that nothing is
//! behind it. Nothing here knows chunks, channels or connections, nor what comes of a request.
//!
//! What a text means is a definition in `specs/`, over its bytes alone: `Words` for the words of a line,
//! `Statements` for what a line says, with one clause a statement whose words stand in their order, and for
//! what is known after it, and `Scenarios` for the whole. `Numbers`, `Choices`, `Elements`, `Values` and `Requests`
//! have what a word or some words say. `Messages` has each request's fields, and `Structures` the structures in them.
//!
//! What a contract sees: the statements of a text, and the fields of a request.
//!
//! Read docs/SCENARIOS.md first, then [`Statement`] and [`request_body`].
#![tactic(auto)]

mod bodies;
mod choices;
mod elements;
mod fault;
mod known;
mod numbers;
mod open_connections;
mod openings;
mod phrases;
mod request_bodies;
mod requests;
mod scenario;
mod sent;
mod statement;
mod structures;
mod values;
mod verbs;
mod words;

pub use choices::{ChannelRequest, Discard, Publishing, Subscriptions};
pub use fault::{AsmFault, Cause};
pub use known::Known;
pub use open_connections::OpenConnections;
pub use openings::{closing_body, create_session_body, endpoints_body, opening_body};
pub use request_bodies::request_body;
pub use requests::{
    Acknowledgement, Attribute, ChangedItem, Counts, LinkChange, Monitoring, NewItem, NewValue,
    RawValues, References,
};
pub use scenario::{Line, Scenario, read, readable};
pub use sent::Sent;
pub use statement::{SessionRequest, Statement};
pub use structures::request_header;

//! Node files: what a TOML text says of the server's configuration, its nodes and the references
//! between them.
//!
//! [`load`] reads a text into a [`Loaded`], ready for the address space to be built of it, or answers
//! the first fault with the part that has it ([`LoadFault`]). Nothing here opens a file, and nothing
//! is said of what the nodes are to one another: whether an id is given twice, or a reference leads
//! nowhere, is found when the space is built.
//!
//! What a file means is a definition over the parsed table alone (`specs/`): `File` for the whole,
//! `Server`, `Node` and `Reference` for the parts, with one line a key that has its name, its default
//! and its range, and `Keys`, `Ids` and `Value` for what is read at a key.
//!
//! What a contract sees: the configuration, the nodes and the references, as a definition over the parsed table.
//!
//! Read docs/NODE_FILE.md first, and then `specs/File.antt`.
#![tactic(auto)]

mod element;
mod fault;
mod file;
mod ids;
mod keys;
pub mod laws;
mod node;
mod past;
mod reference;
mod server;
mod value;
mod version;

pub use fault::{Cause, LoadFault};
pub use file::{Loaded, load};

//! The binary encoding of OPC UA (IEC 62541-6, 5.2): bytes to values and back.
//!
//! A type of the encoding is [`Wire`]: [`Wire::take`] reads a value at a [`Cursor`], [`Wire::put`]
//! writes one behind an output. Contracts see both by two ghost members of the type: *reading*, what
//! bytes begin with (a value and the bytes after it, or the first fault), and *encoding*, the one
//! sequence of bytes that is written for a value. From the trait alone it holds for every type that
//!
//! - `take` gives what the reading gives and moves past it, or the first fault and stays;
//! - `put` appends the encoding, or nothing;
//! - what was put is read again, whatever follows it;
//! - a length (a *claim*) above the bytes or elements that are left takes no memory.
//!
//! What is stored elsewhere is written from there, whole or a part of a list ([`BorrowedDataValue`], [`BorrowedVariant`]).
//!
//! Nothing here knows messages, frames or sockets. Lists have one impl for every element type, and
//! `variants` is the one place where a type is picked by its number.
//!
//! What a contract sees: of a [`Cursor`] the bytes left, and of each type its *reading* and its *encoding*.
//!
//! Read [`Wire`] first, then `numbers` for the smallest impls and `node_ids` for one with forms.
#![tactic(auto)]

mod arrays;
mod borrowed;
mod cursor;
mod data_values;
mod enumerations;
mod expanded_node_ids;
mod extension_objects;
mod fault;
mod floats;
mod guids;
pub mod laws;
mod localized_texts;
mod node_ids;
mod numbers;
mod parts;
mod qualified_names;
mod scalars;
mod shared_lists;
mod texts;
mod variants;
mod wire;
mod written;

pub use arrays::write_list;
pub use borrowed::BorrowedVariant;
pub use cursor::Cursor;
pub use data_values::BorrowedDataValue;
pub use enumerations::Enumeration;
pub use expanded_node_ids::write_local_id;
pub use fault::TakeFault;
pub use localized_texts::write_without_locale;
pub use texts::{NULL_LENGTH, write_text};
pub use variants::decode_variant;
pub use wire::Wire;
pub use written::Written;

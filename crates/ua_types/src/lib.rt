//! The values of OPC UA (IEC 62541-3 and -6): status codes, moments (DateTime), ids of nodes, texts
//! (String) and byte strings that may be null, the values of variables (Variant, DataValue), and the server's
//! configuration. docs/GLOSSARY.md has the standard's word for each.
//!
//! [`Variant`] has a case for each of the 22 built-in types that the server carries, each with a
//! [`Content`]: one value, a list, or a list with dimensions ([`Matrix`]). [`DataValue`] is a variant
//! with its status and times (IEC 62541-6, 5.2.2.16 and 5.2.2.17). [`ValueType`] names those that a node file or a scenario
//! can write. Of a list its length can be told, its one dimension be dropped, and elements be replaced ([`Variant::list_len`],
//! [`Variant::flattened`], [`Variant::with_part`]; `specs/Parts`).
//!
//! Everything here is plain data. Nothing reads bytes of the wire (`ua_binary` does), a clock or a
//! socket. What a contract sees:
//!
//! - `Text`, `ByteString`, `Array` and `SharedList` are optional lists, where null is `None` and differs from empty;
//! - `NodeId`, `ExtensionObject`, `Variant` and the other structures and enumerations are their fields and cases;
//! - of a `Matrix` its elements and its dimensions, which always fit each other (`IsShaped`);
//! - the text of a node id is read by a grammar and written in one way ([`NodeId::parse`], [`write_id`]);
//! - `Listed` is a list, whatever room it has, and `Shared` the value in its block, whoever else owns it;
//! - `Config` is a record whose numbers always lie in their ranges (`IsConfigured`), which [`NumberRange`] has.
//!
//! Memory is always taken from an allocator that is passed in, and a refusal is answered as
//! [`Memory`]. A value that holds texts or lists isn't `Clone`: it is copied by [`Copyable`], and the copy of a text, a byte
//! string or a `SharedList` is one more owner of the same block, whatever its length.
//!
//! Read [`NodeId`], [`Text`] and [`Variant`] first.
#![tactic(auto)]

mod array;
mod byte_string;
mod config;
mod content;
mod copyable;
mod data_value;
mod duration;
mod extension_object;
mod float;
mod guid;
mod id_texts;
pub mod laws;
mod listed;
mod localized_text;
mod matrix;
mod moment;
mod node_class;
mod node_id;
mod number_range;
mod parsing;
mod parts;
mod qualified_name;
mod refusal;
mod shape;
mod shared;
mod shared_list;
mod status;
mod text;
mod value_type;
mod variant;

pub use array::Array;
pub use byte_string::ByteString;
pub use config::Config;
pub use content::Content;
pub use copyable::{Copyable, copy_all};
pub use data_value::DataValue;
pub use duration::Duration;
pub use extension_object::{ExtensionObject, ExtensionObjectBody};
pub use float::{Double, Float};
pub use guid::Guid;
pub use id_texts::{IdFault, write_id};
pub use listed::Listed;
pub use localized_text::LocalizedText;
pub use matrix::{Matrix, has_shape};
pub use moment::Moment;
pub use node_class::NodeClass;
pub use node_id::{ExpandedNodeId, Identifier, NodeId};
pub use number_range::NumberRange;
pub use parsing::{behind, decimal_up_to};
pub use qualified_name::QualifiedName;
pub use refusal::Refusal;
pub use shape::Shape;
pub use shared::Shared;
pub use shared_list::SharedList;
pub use status::Status;
pub use std::alloc::AllocError as Memory;
pub use text::Text;
pub use value_type::ValueType;
pub use variant::Variant;

//! The address space (IEC 62541-3, 4 and 5): nodes, the references between them, each a triple of source,
//! ReferenceType and target, and the base set that every server has.
//!
//! A [`Space`] is built once, by [`Space::build`], from the nodes and references of a node file. The
//! base set stands before them. From then on only values change ([`Space::set_value`]). There are
//! no views, methods or events here, and no services: those of Browse, Read and Write stand above.
//!
//! What a contract sees of a `Space`: its nodes under their ids, in the order of ids, and its
//! references in declared order (`SpaceState`).
//!
//! A node is found where a table has it under a number that is made of its id, or else by a binary search among all of
//! them, without memory, also by an id that stands in the bytes of a request ([`Space::find`]); who goes on with that id
//! takes the node's own. Who looks for many in the order of their ids goes from one to the next ([`Space::find_near`]).
//!
//! Read [`Node`] and [`Triple`] first, and docs/NODE_FILE.md for the base set as a picture.
#![tactic(auto)]

mod base;
mod build;
mod fault;
mod guesses;
mod hints;
mod history;
mod index;
pub mod laws;
mod loops;
mod marks;
mod node;
mod node_table;
mod numbering;
mod references;
mod space;
pub mod standard_ids;
mod subtype_set;
mod subtypes;
mod triple;

pub use fault::SpaceFault;
pub use node::{Node, NodeDetails, ValueRank, Variable};
pub use references::{Direction, Reference, References};
pub use space::Space;
pub use subtype_set::Subtypes;
pub use triple::{Part, Triple};

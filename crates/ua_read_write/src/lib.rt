//! Reading and writing the attributes of nodes (IEC 62541-4, 5.10), over the address
//! space and without the services round them: no session, no request's header and no limit is known
//! here.
//!
//! What a request asks for is judged where it stands in the request's bytes, by views of `ua_service_messages`; a contract
//! sees a view as the structure that it shows.
//!
//! [`read`] answers one read by an [`Answer`], which borrows what it shows and takes no memory; it is
//! written straight into the response ([`read_body`]), or copied ([`Answer::copy`]). [`sample`] and [`refusal`] are the
//! same for a caller that keeps the id of what is read, as an item does, and knows no index ranges.
//! [`write`] gives variables new values in the order of the request, and tells what became of each
//! ([`Written`]); [`accepted`] judges one value alone, for a caller that stores it by itself. A value is copied out of the
//! request once it is accepted, and no other is.
//!
//! Both serve a part of a list, by an [`IndexRange`]: the elements that are read are written from where they stand, and those
//! that are written are put into a copy of the list.
//!
//! What a contract sees: the nodes of the space. `specs/Attributes` says which attributes a node has and
//! what they are, `IndexRanges` what a range's text says, `Reading` what is answered, and `Writing` what is stored; each as
//! one definition, refusal by refusal. `Judging` has what the code knows of a value before it is copied.
//!
//! Read [`AttributeId`] first, and docs/SERVICES.md for the tables.
#![tactic(auto)]

mod answer;
mod attributes;
mod copied_parts;
mod index_range;
mod judging;
pub mod laws;
mod reading;
mod timestamps;
mod writing;

pub use answer::Answer;
pub use attributes::AttributeId;
pub use index_range::IndexRange;
pub use reading::{read, read_body, refusal, sample};
pub use timestamps::Timestamps;
pub use writing::{AcceptedValue, Change, Written, accepted, write};

//! Browsing: the references of nodes, page by page (IEC 62541-4, "View Service Set"), without the services
//! round them: no request's header and no session is known here.
//!
//! [`browse`] gives the first page of a node's references, and a continuation point where more are left;
//! [`browse_next`] gives the page after it by that point, and [`release`] gives the point up. All are lent
//! the address space and the points of the session that asks.
//!
//! What a contract sees: the references of the space that are wanted, in declared order, the forward ones
//! before the inverse ones, as one list (`specs/Wanted`); a page is a slice of it, and the next page the
//! slice after it (`Browsing`). [`laws`] says that all pages joined are the whole list.
//!
//! Read [`browse`] first, and docs/SERVICES.md for the refusals as a table.
#![tactic(auto)]

mod asked;
mod browsing;
mod describing;
pub mod laws;
mod pages;
mod wanted;

pub use browsing::{Page, browse, browse_next, page_size, release};
pub use describing::Described;

//! Raw history: the values that variables had, by time (IEC 62541-11).
//!
//! [`History`] keeps values as they were written, those of each node by their source's time: one for each
//! time, and at most so many as the configuration says. [`History::read`] gives the first of them in an
//! [`Interval`], in its order. [`read_raw`] gives a page of them, judged and with a continuation point where
//! more are left, and [`release`] gives a point up; both are lent the points of the session that asks. No
//! request's header and no session is known here.
//!
//! What a contract sees: under each node id a plain list of times and values, by rising time
//! (`specs/Histories`); the filter of it by an interval, in its order (`Intervals`); a page, the first of that
//! (`Pages`), whose values are read in runs where they stand (`Runs`); and the refusals and points (`Reading`).
//! [`laws`] says that all pages joined are the whole filter.
//!
//! Read [`History`] first, then [`read_raw`], and docs/SERVICES.md for the refusals as a table.
#![tactic(auto)]

mod history;
mod intervals;
mod kept_values;
pub mod laws;
mod pages;
mod reading;

pub use history::History;
pub use intervals::Interval;
pub use kept_values::{KeptRuns, KeptValues, Run};
pub use pages::Cut;
pub use reading::{Page, RawRange, read_raw, release};

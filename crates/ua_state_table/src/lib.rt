//! The state table of a subscription (modelled on the Subscription state table of IEC 62541-4, 5.13.1.2).
//!
//! Whatever happens to a subscription, a Publish request, a tick of its timer, a call of its client,
//! fires exactly one row of one written table. The row says what is done ([`actions_of`]) and where the
//! subscription stands afterwards ([`next_of`]). [`choose`] tells the row, and [`why_not`] why another
//! one didn't fire.
//!
//! This crate decides and does nothing: it holds no subscription, sends no message and reads no clock.
//! It takes no memory and stands on nothing of the server. What the actions do is the business of the
//! crate above.
//!
//! What a contract sees: the eight variables and the event, and the table as it is printed.
//!
//! Read [`Vars`] first, which is all that the table looks at, then [`TABLE`], or docs/SUBSCRIPTIONS.md,
//! where it is printed with a picture.
#![tactic(auto)]

mod action;
mod choice;
mod condition;
mod event;
pub mod laws;
mod row;
mod state;
mod table;
mod vars;

pub use action::{Action, actions_of};
pub use choice::{choose, fits, reachable, row_of_table, why_not};
pub use condition::Condition;
pub use event::{EventKind, TableEvent};
pub use row::{Next, Row, RowId, Scope, next_of};
pub use state::State;
pub use table::TABLE;
pub use vars::Vars;

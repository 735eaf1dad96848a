//! The monitored items of a server (IEC 62541-4, "MonitoredItem Service Set"): which values are taken of
//! which nodes, what becomes of them in each item's queue, and what of them goes into a message.
//!
//! [`Items`] has all items of the server. Its calls `create`, `modify`, `set_mode`, `link` and `delete` serve
//! the whole list of a request, entry by entry, in the bytes that it stands in ([`ua_views`]).
//! `show` shows them a value that was written, and `available` and `send` are for the crate that makes the
//! messages; `take_notes` gives what `send` writes as values. It knows no session, no subscription but by its
//! number, and no clock: whose request it is, and when a message is due, is the business of the crates above.
//!
//! ```text
//! a value is written ── which items see it? ── is it to be told? ── the item's queue ── a message ── sent
//! ```
//!
//! ```text
//! let results = items.create(&sampled, timestamps, requests)?;
//! items.show(&node_id, &value)?;                         // each value that is written
//! if items.available(subscription) {
//!     let mut message = DataChangeMessage::new(alloc, number, clock)?;
//!     items.send(subscription, 100, &mut message)?;             // at most so many values
//! }
//! items.end(subscription);                                      // the subscription is gone
//! ```
//!
//! What a contract sees: the items under their numbers, each with its queue (`specs/Items`). Each call is
//! one definition over them, which also lists the moves by which queues changed; the code keeps no such
//! record. Which items an item triggers, and when their values are told, is told by `specs/Links` and
//! `specs/Releases`. How many of a subscription's items have a value to send it does keep (`specs/Counts`). How a call
//! changes nothing at want of memory is told by `specs/Preparing` and `specs/Undoing`, and what a message that was stopped by
//! it leaves by `specs/Taking`. `specs/Moves`, `Causes` and `Givings` have what [`laws`]
//! speak of: any calls, which of them gives a value which fate, and what items give to messages.
//! docs/SUBSCRIPTIONS.md has the tables.
#![tactic(auto)]

mod counted_items;
mod edit;
mod index;
mod item;
mod item_table;
mod items;
mod kinds;
pub mod laws;
mod links;
mod notes;
mod preparing;
mod releases;
mod sampled;
mod sampling;
mod taking;
mod tally;

pub use item::Item;
pub use items::Items;
pub use kinds::{Mode, Trigger};
pub use links::{Linked, Links};
pub use sampled::Sampled;

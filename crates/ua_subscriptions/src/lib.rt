//! Subscriptions: what is sent of monitored items, to whom, and when (IEC 62541-4, 5.13).
//!
//! [`Subscriptions`] holds the subscriptions of a server, the Publish requests that wait for them, and the notes of those that
//! timed out. A client's requests about subscriptions are its calls, and so are the timers, the ends of sessions and
//! connections, and the server's shutdown. Each call fires rows of the state table ([`ua_state_table`]), and what it does is what the rows' actions say:
//! it answers Publish requests ([`server_messages::Reply`]), and says which rows fired. It is lent the monitored items, whose
//! values the messages take. Nothing here knows the wire but for the messages' bytes, which are made once and kept.
//!
//! ```text
//! a call ── which subscriptions does it concern? ── for each, in order:
//!           variables ── the table's row ── its actions, one after the other ── next state
//! ```
//!
//! What drives it: requests as they come, the timers as time passes, and each call of the items that may change what a
//! subscription has to send. What is answered to Publish requests comes with each:
//!
//! ```text
//! let made = subscriptions.create(&mut items, requester, settings, true)?;
//! let told = subscriptions.publish(&mut items, requester, request, acknowledgements)?;
//! let told = subscriptions.timers(&mut items, clock)?;        // those that are due, the best first
//! send(told.replies);                                                // each by the connection that its request came by
//! let before = subscriptions.vars(subscription, &items);
//! items.delete(subscription, item_numbers)?;
//! let told = subscriptions.items(&mut items, clock, subscription, before)?;
//! ```
//!
//! Read docs/SUBSCRIPTIONS.md first, then [`Subscriptions`], then `src/acting.rt`.
//!
//! What a contract sees: the live subscriptions, and what each session has of subscriptions, under their numbers
//! (`specs/Tables`). `Scenes` has the actions as definitions; `Firing` a row; `Making`, `Named`, `Publishing` and `Ending`
//! the calls, `Ranks` who comes first, and `Subscriptions` what a call leaves. `DueLists`, `Kept` and `Askers` have what no
//! call shows: the moments of the timers in their order, where a kept message stands, and by which connections the requests
//! of a session came. What follows from any calls, one after the other, the crate `subscription_laws` says.
#![tactic(auto)]

mod acting;
mod answered;
mod askers;
mod asking;
mod call;
mod due_list;
mod ending;
mod firing;
mod kept;
mod listing;
mod making;
mod messages;
mod named;
mod number_set;
mod publish_call;
mod publishing;
mod queue;
mod ranks;
mod requester;
mod round;
mod session_part;
mod settings;
mod subscription;
mod subscriptions;
mod table;
mod waiting;

pub use acting::number_after;
pub use answered::Answered;
pub use askers::{Asked, Asker, AskerList};
pub use call::Call;
pub use due_list::{Due, DueList};
pub use kept::{Kept, Place};
pub use making::Revised;
pub use messages::KeptMessage;
pub use number_set::NumberSet;
pub use publish_call::PublishCall;
pub use queue::Queue;
pub use ranks::{Rank, Ranks};
pub use requester::Requester;
pub use round::Round;
pub use session_part::{SessionSubscriptions, TimeoutNote};
pub use settings::{
    Bounds, Settings, revised_keep_alive_count, revised_lifetime_count, revised_notifications,
};
pub use subscription::Subscription;
pub use subscriptions::{Created, Subscriptions};
pub use table::LiveSubscriptions;

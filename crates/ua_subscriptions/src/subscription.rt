//! A subscription.

ghost use Rattle.std.specs.Prelude.{◌≡◌};
ghost use Rattle.ua_subscriptions.specs.Subscriptions.{unborn, vars_with};

use crate::kept::Kept;
use std::alloc::Global;
use ua_monitored_items::Items;
use ua_state_table::{State, Vars};
use ua_subscription_messages::SubscriptionId;
use ua_types::Moment;

/// A subscription, without its items: the variables of the state table, its counts, and the messages that it keeps
/// (IEC 62541-4, 5.13).
#[derive(Debug, Drop)]
pub struct Subscription {
    /// Its session's number, or None once that session has ended.
    pub session: Option<u32>,
    /// Where it stands in the state table.
    pub state: State,
    /// The client wants notifications (PublishingEnabled).
    pub enabled: bool,
    /// The last message was full, and values were left over (MoreNotifications).
    pub more: bool,
    /// A first message was sent (MessageSent).
    pub sent: bool,
    /// How many timers with nothing to tell until a keep-alive is due (KeepAliveCounter).
    pub keep_alive: u32,
    /// How many timers are left until it times out (LifetimeCounter).
    pub lifetime: u32,
    /// To what `keep_alive` is set back (MaxKeepAliveCount).
    pub keep_alive_count: u32,
    /// To what `lifetime` is set back (LifetimeCount).
    pub lifetime_count: u32,
    /// The most notifications in one message.
    pub notifications: u32,
    /// Which subscription is answered first: the one with the highest.
    pub priority: u8,
    /// When its timer comes next.
    pub due: Moment,
    /// How many messages the server had sent once it sent its last one, 0 before the first.
    pub message_count: u64,
    /// The last number that a message of it got, 0 before the first.
    pub number: u32,
    /// The messages that may be asked for again, in the order in which they were sent.
    pub kept: Kept,
}

impl Subscription {
    /// One of a session that hasn't begun: closed, all else false and 0. Takes no memory.
    pub(crate) fn unborn(alloc: Global, session: u32) -> Subscription
        ensures { result ≡ unborn session }
    {
        Subscription {
            session: Some(session),
            state: State::Closed,
            enabled: false,
            more: false,
            sent: false,
            keep_alive: 0,
            lifetime: 0,
            keep_alive_count: 0,
            lifetime_count: 0,
            notifications: 0,
            priority: 0,
            due: Moment(0),
            message_count: 0,
            number: 0,
            kept: Kept::new(alloc),
        }
    }

    /// Its variables, under its number among the items. `waits`: its session has a request that waits.
    pub(crate) fn vars(&self, waits: bool, items: &Items, own: SubscriptionId) -> Vars
        ensures { result ≡ vars_with self.now waits items.now own }
    {
        Vars {
            state: self.state,
            enabled: self.enabled,
            queued: self.session.is_some() && waits,
            available: items.available(own),
            more: self.more,
            sent: self.sent,
            keep_alive: self.keep_alive,
            lifetime: self.lifetime,
        }
    }
}

//! What subscriptions know of a session.

ghost use Rattle.std.specs.Prelude.{◌≡◌};
ghost use Rattle.ua_subscriptions.specs.Subscriptions.{no_part, is_any};

use crate::number_set::NumberSet;
use crate::publish_call::PublishCall;
use crate::queue::Queue;
use std::alloc::Global;

/// That a subscription has timed out, for the next Publish request of its session to tell.
#[derive(Clone, Copy, Debug, PartialEq, Eq, Drop)]
pub struct TimeoutNote {
    /// The subscription that is no more.
    pub subscription: u32,
    /// The number that its next message would have had.
    pub number: u32,
}

/// What a session has of subscriptions.
#[derive(Debug, Drop)]
pub struct SessionSubscriptions {
    /// The numbers of its live subscriptions, rising.
    pub numbers: NumberSet,
    /// Its Publish requests that wait, the oldest first.
    pub requests: Queue<PublishCall>,
    /// Its subscriptions that timed out and of which it wasn't told, the oldest first.
    pub notes: Queue<TimeoutNote>,
}

impl SessionSubscriptions {
    /// Nothing. Takes no memory.
    pub(crate) fn new(alloc: Global) -> SessionSubscriptions
        ensures { result ≡ no_part }
    {
        SessionSubscriptions {
            numbers: NumberSet::new(alloc),
            requests: Queue::new(alloc),
            notes: Queue::new(alloc),
        }
    }

    /// Whether a request waits.
    pub(crate) fn waits(&self) -> bool
        ensures { result ≡ is_any self.now.requests }
    {
        !self.requests.is_empty()
    }
}

//! Who requests something of the subscriptions.

ghost use Rattle.std.specs.Prelude.{◌≡◌};

use crate::named::Named;
use ua_subscription_messages::SubscriptionId;
use ua_types::Moment;

/// Who requests something, and when.
#[derive(Clone, Copy, Debug, PartialEq, Eq)]
pub struct Requester {
    /// Its session's number.
    pub session: u32,
    /// The server's clock.
    pub clock: Moment,
}

impl Requester {
    // It names this subscription.
    pub(crate) fn naming(self, subscription: SubscriptionId) -> Named
        ensures { result ≡ record { session = self.session; subscription = subscription } }
    {
        Named {
            session: self.session,
            subscription,
        }
    }
}

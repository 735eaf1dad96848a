//! What a client asks of a subscription, and what the server allows.

ghost use Rattle.std.specs.Prelude.{◌≡◌};
ghost use Rattle.ua_subscriptions.specs.Settings.{bounds_of, revised_keep_alive_count, revised_lifetime_count, revised_notifications, no_settings};

use ua_types::Config;

/// What a client asks of a subscription (CreateSubscription and ModifySubscription, IEC 62541-4, section 5, Subscription
/// Service Set).
#[derive(Clone, Copy, Debug, PartialEq, Eq)]
pub struct Settings {
    /// After how many timers that find nothing to tell a keep-alive message is sent.
    pub keep_alive_count: u32,
    /// After how many timers without a sign of life of the client the subscription times out.
    pub lifetime_count: u32,
    /// The most notifications in one message; 0 is as many as the server allows.
    pub notifications: u32,
    /// Which of the subscriptions that are due is answered first: the one with the highest number.
    pub priority: u8,
}

impl Settings {
    /// Nothing asked.
    pub(crate) const NONE: Settings = Settings {
        keep_alive_count: 0,
        lifetime_count: 0,
        notifications: 0,
        priority: 0,
    };
}

/// What the server allows its subscriptions.
#[derive(Clone, Copy, Debug)]
pub struct Bounds {
    /// How many subscriptions a session may have.
    pub subscriptions: u32,
    /// How many subscriptions the server may have, those whose sessions ended among them.
    pub subscriptions_in_all: u32,
    /// How many Publish requests of a session wait at most.
    pub publish_queue: u32,
    /// How many messages of a subscription are kept at most.
    pub kept: u32,
    /// How many notifications a message has at most.
    pub notifications: u32,
    /// The time from one timer of a subscription to its next, in 100 ns.
    pub publish_time: u64,
}

impl Bounds {
    /// Those of a configuration.
    pub fn new(config: &Config) -> Bounds
        ensures { result ≡ bounds_of config.now }
    {
        Bounds {
            subscriptions: config.subscriptions,
            subscriptions_in_all: config.subscriptions_in_all,
            publish_queue: config.publish_queue,
            kept: config.kept,
            notifications: config.notifications,
            publish_time: config.publish_time,
        }
    }
}

/// A keep-alive count as the server allows it: from 2 to 65535.
pub fn revised_keep_alive_count(asked: u32) -> u32
    ensures { result ≡ revised_keep_alive_count asked }
{
    asked.max(2).min(65535)
}

/// A lifetime count as the server allows it: from three times the keep-alive count to 196605.
pub fn revised_lifetime_count(keep_alive: u32, asked: u32) -> u32
    ensures { result ≡ revised_lifetime_count keep_alive asked }
{
    asked.max(keep_alive.saturating_mul(3)).min(196_605)
}

/// The most notifications of a message as the server allows it.
pub fn revised_notifications(most: u32, asked: u32) -> u32
    ensures { result ≡ revised_notifications most asked }
{
    if asked == 0 || asked > most {
        most
    } else {
        asked
    }
}

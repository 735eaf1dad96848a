//! The ranges in which the numbers of a configuration lie.

ghost use Rattle.std.specs.Prelude.{IsTrue, ◌↔◌};
ghost use Rattle.ua_types.specs.Configuration.{IsIn};

/// From where to where a number of the configuration may go, both ends within.
///
/// Each constant is the range of the [`Config`](crate::Config)'s field of its name. The configuration's invariant, the
/// reader of node files and its definition cite them.
#[derive(Clone, Copy, Debug, PartialEq, Eq)]
pub struct NumberRange {
    pub least: u64,
    pub most: u64,
}

impl NumberRange {
    /// In bytes.
    pub const RECEIVE_SIZE: NumberRange = NumberRange {
        least: 1024,
        most: 1_048_576,
    };

    /// In bytes.
    pub const SEND_SIZE: NumberRange = NumberRange {
        least: 1024,
        most: 1_048_576,
    };

    /// In bytes.
    pub const MAX_MESSAGE: NumberRange = NumberRange {
        least: 1024,
        most: 16_777_216,
    };

    pub const MAX_CHUNKS: NumberRange = NumberRange {
        least: 1,
        most: 65_535,
    };

    /// In milliseconds.
    pub const LIFETIME_MS: NumberRange = NumberRange {
        least: 1,
        most: 4_294_967_295,
    };

    pub const CONNECTIONS: NumberRange = NumberRange {
        least: 1,
        most: 100_000,
    };

    pub const SESSIONS: NumberRange = NumberRange {
        least: 1,
        most: 100_000,
    };

    pub const SUBSCRIPTIONS: NumberRange = NumberRange {
        least: 1,
        most: 100_000,
    };

    pub const ITEMS: NumberRange = NumberRange {
        least: 1,
        most: 100_000,
    };

    pub const QUEUE: NumberRange = NumberRange {
        least: 1,
        most: 1_000_000,
    };

    pub const PUBLISH_QUEUE: NumberRange = NumberRange {
        least: 1,
        most: 100_000,
    };

    pub const KEPT: NumberRange = NumberRange {
        least: 1,
        most: 100_000,
    };

    pub const NOTIFICATIONS: NumberRange = NumberRange {
        least: 1,
        most: 100_000,
    };

    pub const POINTS: NumberRange = NumberRange {
        least: 1,
        most: 100_000,
    };

    pub const REFERENCES: NumberRange = NumberRange {
        least: 1,
        most: 100_000,
    };

    pub const OPERATIONS: NumberRange = NumberRange {
        least: 1,
        most: 100_000,
    };

    pub const HISTORY_PAGE: NumberRange = NumberRange {
        least: 1,
        most: 100_000,
    };

    pub const HISTORY: NumberRange = NumberRange {
        least: 1,
        most: 10_000_000,
    };

    /// In steps of 100 ns.
    pub const SESSION_TIME: NumberRange = NumberRange {
        least: 1,
        most: 1_000_000_000_000_000,
    };

    /// In steps of 100 ns.
    pub const PUBLISH_TIME: NumberRange = NumberRange {
        least: 1,
        most: 1_000_000_000_000_000,
    };

    /// Whether a number lies in the range.
    pub fn contains(self, number: u64) -> bool
        ensures { IsTrue result ↔ IsIn self number }
    {
        self.least <= number && number <= self.most
    }
}

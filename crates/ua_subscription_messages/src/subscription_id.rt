//! The number of a subscription.

use std::marker::Model;

/// The number of a subscription (IEC 62541-4, 7.19, IntegerId): unique on the server, and 0 is none's. Contracts see the
/// number.
///
/// Calls take it in the place of a bare number, so that it can't be swapped with a session's or an item's. What travels, and
/// what is kept under it, has the number itself.
#[derive(Clone, Copy, Debug, PartialEq, Eq)]
pub struct SubscriptionId(pub u32);

impl Model for SubscriptionId {
    ghost use Rattle.std.specs.Prelude.{ℕ};

    ghost Value = { ℕ };

    ghost view = { λ n. n.0 };

    ghost inverse = { λ n. record { 0 = n } };
}

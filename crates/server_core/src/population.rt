//! How much a server holds.

/// How many sessions, subscriptions and monitored items a server has at a moment.
#[derive(Clone, Copy, Debug, PartialEq, Eq)]
pub struct Population {
    /// The sessions that didn't end.
    pub sessions: usize,
    /// The subscriptions that live, those whose sessions ended among them.
    pub subscriptions: usize,
    /// The monitored items of all subscriptions.
    pub items: usize,
}

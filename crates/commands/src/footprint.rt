//! How much memory clients may make a server take.

use ua_types::Config;

// What each thing takes, in bytes. Those of a subscription, an item and a queued value are measured and rounded up
// (docs/PERFORMANCE.md); the others are counted from what a message and a value are made of. No proof speaks of them. A value of
// fixed size is one that is neither a text nor a list.
const SUBSCRIPTION: u64 = 400;

const KEPT_MESSAGE: u64 = 150;

const NOTIFICATION: u64 = 50;

const ITEM: u64 = 340;

const QUEUED_VALUE: u64 = 120;

const HISTORY_VALUE: u64 = 120;

// What a socket may be owed (`socket_peers`).
const OWED: u64 = 4_194_304;

// So many of a kind, each of so many bytes.
fn product(count: u64, bytes: u64) -> u64 {
    count.saturating_mul(bytes)
}

/// How many bytes clients may make a server of this configuration keep at most, with values of fixed size alone: what comes by the
/// connections and what they are owed, subscriptions with their kept messages, items with their queues, and the histories of so many
/// nodes.
pub(crate) fn most_bytes(config: &Config, nodes: usize) -> u64 {
    let connection = OWED
        .saturating_add(config.max_message as u64)
        .saturating_add(config.receive_size as u64);
    let message = product(config.notifications as u64, NOTIFICATION).saturating_add(KEPT_MESSAGE);
    let subscription = product(config.kept as u64, message).saturating_add(SUBSCRIPTION);
    let item = product(config.queue as u64, QUEUED_VALUE).saturating_add(ITEM);
    let history = product(config.history as u64, HISTORY_VALUE);
    product(config.connections as u64, connection)
        .saturating_add(product(config.subscriptions_in_all as u64, subscription))
        .saturating_add(product(config.items_in_all as u64, item))
        .saturating_add(product(nodes as u64, history))
}

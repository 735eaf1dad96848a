//! What a call of the subscriptions gives.

use collections::ShortList;
use server_messages::{Fired, Reply};
use ua_types::Listed;

/// What a call of the subscriptions gives beside its own answer.
#[derive(Debug, Drop)]
pub struct Answered<T> {
    /// The answer to the call.
    pub answer: T,
    /// The answers to Publish requests, in the order in which they are sent.
    pub replies: ShortList<Reply>,
    /// The rows of the state table that fired, in order.
    pub rows: Listed<Fired>,
}

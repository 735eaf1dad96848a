//! What services give.

use crate::fired::Fired;
use crate::reply::Reply;
use crate::stored::Stored;
use collections::ShortList;
use ua_types::Listed;

/// What a request or a tick came to, beside what the services keep.
#[derive(Debug, Drop)]
pub struct Served {
    /// The replies, in the order in which they are sent. They are for the request and for others that
    /// waited, on any connection.
    pub replies: ShortList<Reply>,

    /// The rows of the subscriptions' state table that fired, in order.
    pub rows: Listed<Fired>,

    /// What a store has to keep of it, in order; nothing where the configuration has no store.
    pub stored: Listed<Stored>,
}

//! The answer to a request.

use crate::origin::Origin;
use ua_messages::MessageBody;

/// The answer to a request, now or at a later event.
#[derive(Debug, Drop)]
pub struct Reply {
    /// Of the request.
    pub origin: Origin,
    /// The type id and fields of the response or the fault.
    pub body: MessageBody,
}

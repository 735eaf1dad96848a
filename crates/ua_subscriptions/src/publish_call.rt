//! Publish requests, and how they are answered.

ghost use Rattle.std.specs.Prelude.{◌≡◌, IfOk, map};
ghost use Rattle.ua_subscriptions.specs.Answers.{published_of, refused_of, number_of};

use crate::kept::Kept;
use server_messages::{Origin, Reply};
use std::alloc::{AllocError, Global};
use ua_messages::{ResponseHeader, fault};
use ua_subscription_messages::{SubscriptionId, publish_body};
use ua_types::{Listed, Moment, Status};

/// A Publish request: it is answered at once, or waits for something to tell. It is answered on the connection that it
/// came by.
#[derive(Debug, Drop)]
pub struct PublishCall {
    /// Of the request.
    pub origin: Origin,
    /// What became of each of its acknowledgements, in their order.
    pub results: Listed<Status>,
}

impl PublishCall {
    /// The answer that brings a message of a subscription, which keeps these. `more`: values are left that the message had
    /// no room for.
    pub(crate) fn published(
        self,
        alloc: Global,
        clock: Moment,
        subscription: SubscriptionId,
        kept: &Kept,
        more: bool,
        message: &[u8],
    ) -> Result<Reply, AllocError>
        ensures { IfOk result (λ reply. reply ≡ published_of clock self subscription (map number_of kept.now) more message.now) }
    {
        let numbers = kept.numbers(alloc)?;
        let results = self.results.as_slice();
        if numbers.len() >= 1 << 31 || results.len() >= 1 << 31 {
            return Err(AllocError);
        }
        let header = ResponseHeader::good(self.origin.handle, clock);
        let body = publish_body(
            alloc,
            &header,
            subscription.0,
            numbers.as_slice(),
            more,
            message,
            results,
        )?;
        Ok(Reply {
            origin: self.origin,
            body,
        })
    }

    /// The fault with this status, in the place of an answer.
    pub(crate) fn refused(
        self,
        alloc: Global,
        clock: Moment,
        status: Status,
    ) -> Result<Reply, AllocError>
        ensures { IfOk result (λ reply. reply ≡ refused_of clock status self) }
    {
        let body = fault(alloc, self.origin.handle, status, clock)?;
        Ok(Reply {
            origin: self.origin,
            body,
        })
    }
}

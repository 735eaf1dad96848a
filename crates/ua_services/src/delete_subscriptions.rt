//! The service DeleteSubscriptions (IEC 62541-4, "DeleteSubscriptions").

ghost use Rattle.ua_services.specs.DeleteSubscriptions.{delete_subscriptions_meaning};

use crate::caller::Caller;
use crate::operations::operations;
use crate::services::Services;
use crate::session_service::SessionService;
use crate::status_results::statuses_body;
use crate::sub_serving::{apart, reply_first};
use server_messages::{Served, Setting};
use ua_messages::type_ids;
use ua_subscription_messages::DeleteSubscriptionsRequestView;
use ua_subscriptions::Requester;
use ua_types::Refusal;

/// Deletes subscriptions of the session with their items, one after the other. Where the session has none left, its
/// Publish requests that wait are answered `BAD_NO_SUBSCRIPTION`, behind the answer to this one.
///
/// The faults are those of a list that is null, empty or too long ([`operations`]). A subscription that isn't the
/// session's has the result `BAD_SUBSCRIPTION_ID_INVALID`.
pub struct DeleteSubscriptions;

impl<'a> SessionService<'a> for DeleteSubscriptions {
    type Request = DeleteSubscriptionsRequestView<'a>;

    ghost meaning = { delete_subscriptions_meaning };

    fn serve(
        setting: &Setting,
        caller: &Caller,
        session: u32,
        request: DeleteSubscriptionsRequestView<'a>,
        services: &mut Services,
    ) -> Result<Served, Refusal> {
        let alloc = services.allocator();
        let numbers = operations(&setting.config, request.subscription_ids)?;
        let requester = Requester {
            session,
            clock: setting.clock,
        };
        let items = &mut services.items;
        let answered = services.subscriptions.delete(items, requester, numbers)?;
        let (statuses, others) = apart(alloc, answered);
        let type_id = type_ids::DELETE_SUBSCRIPTIONS_RESPONSE;
        let body = statuses_body(alloc, type_id, setting, caller, statuses.as_slice())?;
        Ok(reply_first(alloc, caller, body, others)?)
    }
}

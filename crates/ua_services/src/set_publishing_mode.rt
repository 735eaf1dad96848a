//! The service SetPublishingMode (IEC 62541-4, "SetPublishingMode").

ghost use Rattle.ua_services.specs.SetPublishingMode.{set_publishing_mode_meaning};

use crate::caller::Caller;
use crate::operations::operations;
use crate::services::Services;
use crate::session_service::SessionService;
use crate::status_results::statuses_body;
use crate::sub_serving::{apart, reply_first};
use server_messages::{Served, Setting};
use ua_messages::type_ids;
use ua_subscription_messages::SetPublishingModeRequestView;
use ua_subscriptions::Requester;
use ua_types::Refusal;

/// Switches the notifications of subscriptions of the session on or off, one after the other.
///
/// The faults are those of a list that is null, empty or too long ([`operations`]). A subscription that isn't the
/// session's has the result `BAD_SUBSCRIPTION_ID_INVALID`.
pub struct SetPublishingMode;

impl<'a> SessionService<'a> for SetPublishingMode {
    type Request = SetPublishingModeRequestView<'a>;

    ghost meaning = { set_publishing_mode_meaning };

    fn serve(
        setting: &Setting,
        caller: &Caller,
        session: u32,
        request: SetPublishingModeRequestView<'a>,
        services: &mut Services,
    ) -> Result<Served, Refusal> {
        let alloc = services.allocator();
        let enabled = request.publishing_enabled;
        let numbers = operations(&setting.config, request.subscription_ids)?;
        let requester = Requester {
            session,
            clock: setting.clock,
        };
        let items = &mut services.items;
        let answered = services
            .subscriptions
            .set_mode(items, requester, numbers, enabled)?;
        let (statuses, others) = apart(alloc, answered);
        let type_id = type_ids::SET_PUBLISHING_MODE_RESPONSE;
        let body = statuses_body(alloc, type_id, setting, caller, statuses.as_slice())?;
        Ok(reply_first(alloc, caller, body, others)?)
    }
}

//! The service SetMonitoringMode (IEC 62541-4, "SetMonitoringMode").

ghost use Rattle.ua_services.specs.SetMonitoringMode.{items_moded};

use crate::caller::Caller;
use crate::item_serving::ItemService;
use crate::operations::operations;
use crate::services::Services;
use crate::status_results::statuses_body;
use server_messages::Setting;
use ua_messages::{MessageBody, type_ids};
use ua_monitored_items::{Mode, Sampled};
use ua_subscription_messages::{SetMonitoringModeRequestView, SubscriptionId};
use ua_types::{Refusal, Status};

/// Gives monitored items of a subscription of the session a mode, one after the other ([`ua_monitored_items::Items::set_mode`]).
///
/// The faults, in this order: `BAD_SUBSCRIPTION_ID_INVALID` where the session has no such subscription, those of a list
/// that is null, empty or too long ([`operations`]), `BAD_MONITORING_MODE_INVALID` where the mode is none of the three. All
/// but the first are signs of life of the subscription.
pub struct SetMonitoringMode;

#[tactic(auto, unfolding(crate::specs::SetMonitoringMode::items_moded))]
impl<'a> ItemService<'a> for SetMonitoringMode {
    type Request = SetMonitoringModeRequestView<'a>;

    ghost subscription = { λ request. request.subscription_id };

    ghost change = { items_moded };

    fn subscription_id(request: &SetMonitoringModeRequestView<'a>) -> SubscriptionId {
        SubscriptionId(request.subscription_id)
    }

    fn change_items(
        setting: &Setting,
        caller: &Caller,
        request: SetMonitoringModeRequestView<'a>,
        services: &mut Services,
    ) -> Result<MessageBody, Refusal> {
        let numbers = operations(&setting.config, request.monitored_item_ids)?;
        let Some(mode) = Mode::numbered(request.monitoring_mode) else {
            return Err(Refusal::Service(Status::BAD_MONITORING_MODE_INVALID));
        };
        let sampled = Sampled {
            subscription: SubscriptionId(request.subscription_id),
            space: &services.space,
            clock: setting.clock,
        };
        let statuses = services.items.set_mode(&sampled, mode, numbers)?;
        let type_id = type_ids::SET_MONITORING_MODE_RESPONSE;
        Ok(statuses_body(
            services.allocator(),
            type_id,
            setting,
            caller,
            statuses.as_slice(),
        )?)
    }
}

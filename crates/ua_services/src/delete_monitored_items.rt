//! The service DeleteMonitoredItems (IEC 62541-4, "DeleteMonitoredItems").

ghost use Rattle.ua_services.specs.DeleteMonitoredItems.{items_deleted};

use crate::caller::Caller;
use crate::item_serving::ItemService;
use crate::operations::operations;
use crate::services::Services;
use crate::status_results::statuses_body;
use server_messages::Setting;
use ua_messages::{MessageBody, type_ids};
use ua_subscription_messages::{DeleteMonitoredItemsRequestView, SubscriptionId};
use ua_types::Refusal;

/// Deletes monitored items of a subscription of the session, one after the other ([`ua_monitored_items::Items::delete`]).
///
/// The faults, in this order: `BAD_SUBSCRIPTION_ID_INVALID` where the session has no such subscription, those of a list
/// that is null, empty or too long ([`operations`]). All but the first are signs of life of the subscription.
pub struct DeleteMonitoredItems;

#[tactic(auto, unfolding(crate::specs::DeleteMonitoredItems::items_deleted))]
impl<'a> ItemService<'a> for DeleteMonitoredItems {
    type Request = DeleteMonitoredItemsRequestView<'a>;

    ghost subscription = { λ request. request.subscription_id };

    ghost change = { items_deleted };

    fn subscription_id(request: &DeleteMonitoredItemsRequestView<'a>) -> SubscriptionId {
        SubscriptionId(request.subscription_id)
    }

    fn change_items(
        setting: &Setting,
        caller: &Caller,
        request: DeleteMonitoredItemsRequestView<'a>,
        services: &mut Services,
    ) -> Result<MessageBody, Refusal> {
        let subscription = SubscriptionId(request.subscription_id);
        let numbers = operations(&setting.config, request.monitored_item_ids)?;
        let statuses = services.items.delete(subscription, numbers)?;
        let type_id = type_ids::DELETE_MONITORED_ITEMS_RESPONSE;
        Ok(statuses_body(
            services.allocator(),
            type_id,
            setting,
            caller,
            statuses.as_slice(),
        )?)
    }
}

//! The service ModifyMonitoredItems (IEC 62541-4, "ModifyMonitoredItems").

ghost use Rattle.ua_services.specs.ModifyMonitoredItems.{items_modified};

use crate::caller::Caller;
use crate::item_serving::ItemService;
use crate::operations::operations;
use crate::services::Services;
use server_messages::Setting;
use ua_messages::{MessageBody, ResponseHeader, results_body, type_ids};
use ua_read_write::Timestamps;
use ua_subscription_messages::{ModifyMonitoredItemsRequestView, SubscriptionId};
use ua_types::{Refusal, Status};

/// Gives monitored items of a subscription of the session other parameters, one after the other
/// ([`ua_monitored_items::Items::modify`]).
///
/// The faults are those of [`crate::create_monitored_items::CreateMonitoredItems`], in the same order.
pub struct ModifyMonitoredItems;

#[tactic(auto, unfolding(crate::specs::ModifyMonitoredItems::items_modified))]
impl<'a> ItemService<'a> for ModifyMonitoredItems {
    type Request = ModifyMonitoredItemsRequestView<'a>;

    ghost subscription = { λ request. request.subscription_id };

    ghost change = { items_modified };

    fn subscription_id(request: &ModifyMonitoredItemsRequestView<'a>) -> SubscriptionId {
        SubscriptionId(request.subscription_id)
    }

    fn change_items(
        setting: &Setting,
        caller: &Caller,
        request: ModifyMonitoredItemsRequestView<'a>,
        services: &mut Services,
    ) -> Result<MessageBody, Refusal> {
        let Some(timestamps) = Timestamps::chosen(request.timestamps_to_return) else {
            return Err(Refusal::Service(Status::BAD_TIMESTAMPS_TO_RETURN_INVALID));
        };
        let requests = operations(&setting.config, request.items_to_modify)?;
        let subscription = SubscriptionId(request.subscription_id);
        let items = &mut services.items;
        let results = items.modify(subscription, timestamps, requests)?;
        let header = ResponseHeader::good(caller.origin.handle, setting.clock);
        let type_id = type_ids::MODIFY_MONITORED_ITEMS_RESPONSE;
        Ok(results_body(services.allocator(), type_id, &header, results.as_slice())?)
    }
}

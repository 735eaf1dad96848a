//! The service CreateMonitoredItems (IEC 62541-4, "CreateMonitoredItems").

ghost use Rattle.ua_services.specs.CreateMonitoredItems.{items_created};

use crate::caller::Caller;
use crate::item_serving::ItemService;
use crate::operations::operations;
use crate::services::Services;
use server_messages::Setting;
use ua_messages::{MessageBody, ResponseHeader, results_body, type_ids};
use ua_monitored_items::Sampled;
use ua_read_write::Timestamps;
use ua_subscription_messages::{CreateMonitoredItemsRequestView, SubscriptionId};
use ua_types::{Refusal, Status};

/// Makes monitored items of a subscription of the session, one after the other ([`ua_monitored_items::Items::create`]).
///
/// The faults, in this order: `BAD_SUBSCRIPTION_ID_INVALID` where the session has no such subscription,
/// `BAD_TIMESTAMPS_TO_RETURN_INVALID` where the choice of times is none of the four, those of a list that is null, empty or
/// too long ([`operations`]). All but the first are signs of life of the subscription.
pub struct CreateMonitoredItems;

#[tactic(auto, unfolding(crate::specs::CreateMonitoredItems::items_created))]
impl<'a> ItemService<'a> for CreateMonitoredItems {
    type Request = CreateMonitoredItemsRequestView<'a>;

    ghost subscription = { λ request. request.subscription_id };

    ghost change = { items_created };

    fn subscription_id(request: &CreateMonitoredItemsRequestView<'a>) -> SubscriptionId {
        SubscriptionId(request.subscription_id)
    }

    fn change_items(
        setting: &Setting,
        caller: &Caller,
        request: CreateMonitoredItemsRequestView<'a>,
        services: &mut Services,
    ) -> Result<MessageBody, Refusal> {
        let Some(timestamps) = Timestamps::chosen(request.timestamps_to_return) else {
            return Err(Refusal::Service(Status::BAD_TIMESTAMPS_TO_RETURN_INVALID));
        };
        let requests = operations(&setting.config, request.items_to_create)?;
        let sampled = Sampled {
            subscription: SubscriptionId(request.subscription_id),
            space: &services.space,
            clock: setting.clock,
        };
        let results = services.items.create(&sampled, timestamps, requests)?;
        let header = ResponseHeader::good(caller.origin.handle, setting.clock);
        let type_id = type_ids::CREATE_MONITORED_ITEMS_RESPONSE;
        Ok(results_body(services.allocator(), type_id, &header, results.as_slice())?)
    }
}

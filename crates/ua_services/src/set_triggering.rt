//! The service SetTriggering (IEC 62541-4, "SetTriggering").

ghost use Rattle.std.specs.Prelude.{◌≡◌, ◌<◌, ◌^◌, length, IfOk};
ghost use Rattle.ua_services.specs.SetTriggering.{links_body as links_body_spec, items_linked};

use crate::caller::Caller;
use crate::item_serving::ItemService;
use crate::operations::judge;
use crate::services::Services;
use server_messages::Setting;
use std::alloc::{AllocError, Global};
use ua_messages::{DiagnosticInfos, MessageBody, ResponseHeader, body, type_ids};
use ua_monitored_items::Linked;
use ua_subscription_messages::{SetTriggeringRequestView, SetTriggeringResponse, SubscriptionId};
use ua_types::{Array, Refusal};

// The answer to a request that isn't refused.
fn links_body(
    alloc: Global,
    setting: &Setting,
    caller: &Caller,
    linked: Linked,
) -> Result<MessageBody, AllocError>
    requires added { length linked.added.items < 2 ^ 31 }
    requires removed { length linked.removed.items < 2 ^ 31 }
    ensures { IfOk result (λ body. body ≡ links_body_spec setting.now caller.now linked.added.items linked.removed.items) }
{
    let Linked { added, removed } = linked;
    let response = SetTriggeringResponse {
        response_header: ResponseHeader::good(caller.origin.handle, setting.clock),
        add_results: Array::new(added),
        add_diagnostic_infos: DiagnosticInfos,
        remove_results: Array::new(removed),
        remove_diagnostic_infos: DiagnosticInfos,
    };
    body(alloc, type_ids::SET_TRIGGERING_RESPONSE, &response)
}

/// Takes links from an item to others of its subscription away, and adds others ([`ua_monitored_items::Items::link`]):
/// where the item queues a value, those that are linked to it report what they hold, if they are in the mode sampling.
///
/// The faults, in this order: `BAD_SUBSCRIPTION_ID_INVALID` where the session has no such subscription;
/// `BAD_NOTHING_TO_DO` where both lists are null or empty; `BAD_TOO_MANY_OPERATIONS` where together they have more
/// entries than the configuration's `operations`; `BAD_MONITORED_ITEM_ID_INVALID` where the subscription has no such
/// triggering item. All but the first are signs of life of the subscription.
pub struct SetTriggering;

#[tactic(auto, unfolding(crate::specs::SetTriggering::items_linked))]
impl<'a> ItemService<'a> for SetTriggering {
    type Request = SetTriggeringRequestView<'a>;

    ghost subscription = { λ request. request.subscription_id };

    ghost change = { items_linked };

    fn subscription_id(request: &SetTriggeringRequestView<'a>) -> SubscriptionId {
        SubscriptionId(request.subscription_id)
    }

    fn change_items(
        setting: &Setting,
        caller: &Caller,
        request: SetTriggeringRequestView<'a>,
        services: &mut Services,
    ) -> Result<MessageBody, Refusal> {
        let add = request.links_to_add;
        let remove = request.links_to_remove;
        judge(&setting.config, add.len() + remove.len())?;
        let subscription = SubscriptionId(request.subscription_id);
        let triggering = request.triggering_item_id;
        match services.items.link(subscription, triggering, add, remove)? {
            Ok(linked) => Ok(links_body(services.allocator(), setting, caller, linked)?),
            Err(status) => Err(Refusal::Service(status)),
        }
    }
}

//! What the services of monitored items share: each names a subscription of its session.

ghost use Rattle.std.specs.Prelude.{◌≡◌, ℕ, IfOk, IfErr, OnOk};
ghost use Rattle.server_messages.specs.declared.setting.Setting.{Setting};
ghost use Rattle.ua_services.specs.ItemServing.{Itemed, Refuses, with_items, own_vars as own_vars_spec, fired_after, items_called};
ghost use Rattle.ua_services.specs.Serving.{Judges};
ghost use Rattle.ua_services.specs.ServicesState.{Services};
ghost use Rattle.ua_services.specs.declared.caller.Caller.{Caller};

use crate::caller::Caller;
use crate::services::Services;
use crate::session_service::SessionService;
use crate::sub_serving::{reply_first, served_alone};
use server_messages::{Served, Setting};
use std::alloc::AllocError;
use ua_messages::{MessageBody, fault};
use ua_state_table::Vars;
use ua_subscription_messages::SubscriptionId;
use ua_types::{Refusal, Status};
use ua_views::View;

/// A service of monitored items: a type of request, and what it changes of the items of a subscription.
///
/// Each is a [`SessionService`] in one way: the subscription has to be one of the session's, else the fault is
/// `BAD_SUBSCRIPTION_ID_INVALID`; then the items are changed; then the subscription fires its row, whatever became of
/// the request.
pub trait ItemService<'a> {
    /// The request's fields.
    type Request: View<'a>;

    /// The subscription that a request names.
    ghost subscription: { Self.Request → ℕ };

    /// What becomes of the items, and the answer.
    ghost change: { Setting → Caller → Self.Request → Services → Itemed };

    /// The number of the subscription that a request names.
    fn subscription_id(request: &Self::Request) -> SubscriptionId
        ensures { result ≡ subscription request.now };

    /// Changes the items as a request asks for, and gives the body of the answer. At `Service`
    /// the items are as they were; `Exhausted` never comes.
    fn change_items(
        setting: &Setting,
        caller: &Caller,
        request: Self::Request,
        services: &mut Services,
    ) -> Result<MessageBody, Refusal>
        ensures body { IfOk result (λ body. body ≡ (change setting.now caller.now request services.old).body) }
        ensures items { OnOk result (services.new ≡ with_items services.old (change setting.now caller.now request services.old).items) }
        ensures refused { IfErr result (λ e. Refuses setting.now caller.now e services.old services.new (change setting.now caller.now request services.old)) };

    /// Changes the items as a request asks for, and gives the body of the answer: that of a fault, where the request is
    /// refused.
    final fn answer_body(
        setting: &Setting,
        caller: &Caller,
        request: Self::Request,
        services: &mut Services,
    ) -> Result<MessageBody, AllocError>
        ensures body { IfOk result (λ body. body ≡ (change setting.now caller.now request services.old).body) }
        ensures items { OnOk result (services.new ≡ with_items services.old (change setting.now caller.now request services.old).items) }
    {
        match Self::change_items(setting, caller, request, services) {
            Ok(body) => Ok(body),
            Err(Refusal::Service(status)) => fault(
                services.allocator(),
                caller.origin.handle,
                status,
                setting.clock,
            ),
            // No serial is used up by what items are asked for.
            Err(_) => Err(AllocError),
        }
    }
}

// The variables of a subscription, if it is one of the session's.
fn own_vars(services: &Services, session: u32, subscription: SubscriptionId) -> Option<Vars>
    ensures { result ≡ own_vars_spec session subscription services.now }
{
    if services.subscriptions.is_own(session, subscription) {
        services.subscriptions.vars(subscription, &services.items)
    } else {
        None
    }
}

// Answers a request that named a subscription of its session, whose items it may have changed: the subscription fires its
// row. `before`: its variables before the request.
fn answer_items(
    setting: &Setting,
    caller: &Caller,
    number: SubscriptionId,
    before: Vars,
    body: MessageBody,
    services: &mut Services,
) -> Result<Served, Refusal>
    ensures { Judges setting.now caller.now result services.new (fired_after setting.now caller.now number services.old before body) }
{
    let alloc = services.allocator();
    let items = &mut services.items;
    let answered = services
        .subscriptions
        .items(items, setting.clock, number, before)?;
    Ok(reply_first(alloc, caller, body, served_alone(alloc, answered))?)
}

impl<'a, S: ItemService<'a>> SessionService<'a> for S {
    type Request = S::Request;

    ghost meaning = { λ setting caller session request state. items_called setting caller session (S.subscription request) state (S.change setting caller request state) };

    fn serve(
        setting: &Setting,
        caller: &Caller,
        session: u32,
        request: S::Request,
        services: &mut Services,
    ) -> Result<Served, Refusal> {
        let number = S::subscription_id(&request);
        let Some(before) = own_vars(services, session, number) else {
            return Err(Refusal::Service(Status::BAD_SUBSCRIPTION_ID_INVALID));
        };
        let body = S::answer_body(setting, caller, request, services)?;
        answer_items(setting, caller, number, before, body, services)
    }
}

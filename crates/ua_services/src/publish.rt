//! The service Publish (IEC 62541-4, "Publish").

ghost use Rattle.std.specs.Prelude.{◌≡◌};
ghost use Rattle.ua_subscriptions.specs.Publishing.{published};
ghost use Rattle.ua_services.specs.Publish.{publish_call, publish_meaning};
ghost use Rattle.ua_services.specs.Serving.{Judges};
ghost use Rattle.ua_services.specs.SubServing.{called_alone, stage_at};
ghost use Rattle.ua_views.specs.Views.{or_none};

use crate::caller::Caller;
use crate::services::Services;
use crate::session_service::SessionService;
use crate::sub_serving::served_alone;
use server_messages::{Served, Setting};
use ua_subscription_messages::{PublishRequestView, SubscriptionAcknowledgement};
use ua_subscriptions::{PublishCall, Requester};
use ua_types::{Listed, Refusal, Status};
use ua_views::ArrayView;

// Takes a request whose acknowledgements aren't too many.
fn taken(
    setting: &Setting,
    caller: &Caller,
    session: u32,
    acknowledgements: ArrayView<'_, SubscriptionAcknowledgement>,
    services: &mut Services,
) -> Result<Served, Refusal>
    ensures { Judges setting.now caller.now result services.new (called_alone services.old (published session (publish_call caller.now) (or_none acknowledgements.entry) (stage_at setting.now services.old))) }
{
    let alloc = services.allocator();
    let publish = PublishCall {
        origin: caller.origin,
        results: Listed::new(alloc),
    };
    let requester = Requester {
        session,
        clock: setting.clock,
    };
    let items = &mut services.items;
    let answered = services
        .subscriptions
        .publish(items, requester, publish, acknowledgements)?;
    Ok(served_alone(alloc, answered))
}

/// Acknowledges messages, and waits for the next one of any subscription of the session ([`ua_subscriptions::Subscriptions::publish`]).
/// The answer goes by the connection that the request came by, now or at a later event.
///
/// The faults, in this order: `BAD_TOO_MANY_OPERATIONS` for more acknowledgements than the configuration's `operations`;
/// `BAD_NO_SUBSCRIPTION` where the session has no subscription, and `BAD_TOO_MANY_PUBLISH_REQUESTS` for the oldest request
/// where more wait than the configuration allows.
pub struct Publish;

impl<'a> SessionService<'a> for Publish {
    type Request = PublishRequestView<'a>;

    ghost meaning = { publish_meaning };

    fn serve(
        setting: &Setting,
        caller: &Caller,
        session: u32,
        request: PublishRequestView<'a>,
        services: &mut Services,
    ) -> Result<Served, Refusal> {
        let acknowledgements = request.subscription_acknowledgements;
        if acknowledgements.len() > setting.config.operations as usize {
            return Err(Refusal::Service(Status::BAD_TOO_MANY_OPERATIONS));
        }
        taken(setting, caller, session, acknowledgements, services)
    }
}

//! Rows that leave requests waiting, with the connections by which these came.

ghost use Rattle.std.specs.Prelude.{◌≡◌, true, OnOk};
ghost use Rattle.ua_subscriptions.specs.Askers.{asker_at, has_asker};
ghost use Rattle.ua_subscriptions.specs.Firing.{fired};
ghost use Rattle.ua_subscriptions.specs.Owing.{AllBy, AskedBy};
ghost use Rattle.ua_subscriptions.specs.Scenes.{scene, Acts};
ghost use Rattle.ua_subscriptions.specs.declared.askers.Asker.{Asker as AskerLem};

use crate::askers::AskerList;
use crate::firing::fire;
use crate::publish_call::PublishCall;
use crate::round::Round;
use crate::session_part::SessionSubscriptions;
use crate::subscription::Subscription;
use server_messages::Halt;
use std::alloc::AllocError;
use ua_monitored_items::Items;

// The connection of a request, if there is one, stands with its session.
fn note_asked(
    askers: &mut AskerList,
    asked: &Option<PublishCall>,
    session: u32,
) -> Result<(), AllocError>
    ensures ok { OnOk result (AskedBy (λ conn. has_asker askers.new (asker_at conn session) ≡ true) asked.now) }
    ensures more { (q : AskerLem) → has_asker askers.old q ≡ true → has_asker askers.new q ≡ true }
{
    match asked {
        None => Ok(()),
        Some(call) => askers.insert(call.origin.conn, session),
    }
}

/// Fires a row at a subscription of this session, of which requests wait whose connections stand with it: they do after
/// the row, too. At an `Err` none waits, and nothing else is known of what is left.
pub(crate) fn fire_of(
    round: &mut Round,
    subscription: &mut Subscription,
    session: u32,
    part: &mut SessionSubscriptions,
    askers: &mut AskerList,
    items: &mut Items,
) -> Result<(), Halt>
    requires { AllBy (λ conn. has_asker askers.old (asker_at conn session) ≡ true) part.old.requests }
    ensures acts { Acts result (scene round.new subscription.new part.new items.new) (fired (scene round.old subscription.old part.old items.old)) }
    ensures more { (q : AskerLem) → has_asker askers.old q ≡ true → has_asker askers.new q ≡ true }
    ensures asked { AllBy (λ conn. has_asker askers.new (asker_at conn session) ≡ true) part.new.requests }
{
    match note_asked(askers, &round.asked, session) {
        Ok(()) => {}
        Err(_) => {
            part.requests.clear();
            return Err(Halt::Memory);
        }
    }
    match fire(round, subscription, part, items) {
        Ok(()) => Ok(()),
        Err(halt) => {
            part.requests.clear();
            Err(halt)
        }
    }
}

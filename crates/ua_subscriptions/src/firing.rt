//! What is met by a subscription fires one row of the state table.

ghost use Rattle.std.specs.Prelude.{◌≡◌};
ghost use Rattle.ua_subscriptions.specs.Scenes.{scene, Acts};
ghost use Rattle.ua_subscriptions.specs.Firing.{is_closed as is_closed_spec, before_of, vars_after, fired};
ghost use Rattle.ua_subscriptions.specs.Subscriptions.{no_vars};

use crate::acting::do_row;
use crate::call::Call;
use crate::round::Round;
use crate::session_part::SessionSubscriptions;
use crate::subscription::Subscription;
use server_messages::{Fired, Halt};
use ua_monitored_items::Items;
use ua_state_table::{State, Vars, choose};

// The variables of one that isn't there.
const NO_VARS: Vars = Vars {
    state: State::Closed,
    enabled: false,
    queued: false,
    available: false,
    more: false,
    sent: false,
    keep_alive: 0,
    lifetime: 0,
};

/// Whether it is no more.
pub(crate) fn is_closed(subscription: &Subscription) -> bool
    ensures { result ≡ is_closed_spec subscription.now }
{
    subscription.state == State::Closed
}

// The variables that the row is chosen by.
fn before(
    round: &Round,
    subscription: &Subscription,
    part: &SessionSubscriptions,
    items: &Items,
) -> Vars
    ensures { result ≡ before_of (scene round.now subscription.now part.now items.now) }
{
    match round.call {
        Call::Create { .. } => NO_VARS,
        Call::Items { before } => before,
        _ => subscription.vars(part.waits(), items, round.own),
    }
}

// The variables after a row that chose by these.
fn after(
    round: &Round,
    before: Vars,
    subscription: &Subscription,
    part: &SessionSubscriptions,
    items: &Items,
) -> Vars
    ensures { result ≡ vars_after before (scene round.now subscription.now part.now items.now) }
{
    if is_closed(subscription) {
        Vars {
            state: State::Closed,
            ..before
        }
    } else {
        subscription.vars(part.waits(), items, round.own)
    }
}

/// Fires the row that the table chooses for what comes to this subscription of this session. At an `Err` nothing is known
/// of what is left.
#[tactic(auto, unfolding(crate::specs::Firing::fired))]
pub(crate) fn fire(
    round: &mut Round,
    subscription: &mut Subscription,
    part: &mut SessionSubscriptions,
    items: &mut Items,
) -> Result<(), Halt>
    ensures { Acts result (scene round.new subscription.new part.new items.new) (fired (scene round.old subscription.old part.old items.old)) }
{
    let before = before(round, subscription, part, items);
    let event = round.call.event();
    let row = choose(&before, event);
    do_row(round, subscription, part, items, row)?;
    let after = after(round, before, subscription, part, items);
    round.rows.push(Fired {
        subscription: round.own.0,
        event,
        before,
        row,
        after,
    })?;
    if is_closed(subscription) {
        part.numbers.remove(round.own.0);
    }
    Ok(())
}

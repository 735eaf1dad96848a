//! Calls of public functions of `ua_browse`, `ua_history`, `ua_monitored_items` and `ua_subscriptions`, each under the clauses that
//! its callers rely on. That the crate is proved says that the contracts below give these clauses; each edit in `must-fail` puts a
//! wrong body in the place of a call, which the clauses have to refuse. Nothing calls these functions.
#![tactic(auto)]

ghost use Rattle.std.specs.Prelude.{◌≡◌};
ghost use Rattle.ua_session.specs.Points.{TakesSerial};
ghost use Rattle.ua_browse.specs.Browsing.{browse_next_of};
ghost use Rattle.ua_history.specs.Intervals.{past};
ghost use Rattle.ua_monitored_items.specs.Items.{is_available};
ghost use Rattle.ua_subscriptions.specs.Ending.{shut_down, without_conn};
ghost use Rattle.ua_subscriptions.specs.Making.{republished, timed};
ghost use Rattle.ua_subscriptions.specs.Publishing.{published};
ghost use Rattle.ua_subscriptions.specs.SubscriptionCalls.{Serves, said, without_answer, stage_of};
ghost use Rattle.ua_views.specs.Views.{or_none};

use bytes::Bytes;
use server_messages::Halt;
use std::alloc::Global;
use ua_browse::{Page, browse_next};
use ua_history::Interval;
use ua_monitored_items::Items;
use ua_session::Points;
use ua_space::Space;
use ua_subscription_messages::{SubscriptionAcknowledgement, SubscriptionId};
use ua_subscriptions::{Answered, PublishCall, Requester, Subscriptions};
use ua_types::{Moment, Refusal, Status};
use ua_views::ArrayView;

/// As [`browse_next`].
pub fn page_given<'a>(
    alloc: Global,
    space: &'a Space,
    points: &mut Points,
    serial: u64,
) -> Result<Page<'a>, Refusal>
    ensures { TakesSerial result points.old points.new (browse_next_of space.now points.old serial) }
{
    browse_next(alloc, space, points, serial)
}

/// As [`Interval::past`].
pub fn interval_past(interval: Interval, last: Moment) -> Interval
    ensures { result ≡ past interval last }
{
    interval.past(last)
}

/// As [`Items::available`].
pub fn values_wait(items: &Items, subscription: SubscriptionId) -> bool
    ensures { result ≡ is_available items.now subscription }
{
    items.available(subscription)
}

/// As [`Subscriptions::publish`].
pub fn publish_taken(
    subscriptions: &mut Subscriptions,
    items: &mut Items,
    requester: Requester,
    call: PublishCall,
    acknowledgements: ArrayView<'_, SubscriptionAcknowledgement>,
) -> Result<Answered<()>, Halt>
    ensures { Serves result subscriptions.old subscriptions.new items.new (without_answer subscriptions.old (published requester.session call (or_none acknowledgements.entry) (stage_of subscriptions.old items.old requester.clock))) }
{
    subscriptions.publish(items, requester, call, acknowledgements)
}

/// As [`Subscriptions::republish`].
pub fn message_republished(
    subscriptions: &mut Subscriptions,
    items: &mut Items,
    requester: Requester,
    subscription: SubscriptionId,
    wanted: u32,
) -> Result<Answered<Result<Bytes, Status>>, Halt>
    ensures { Serves result subscriptions.old subscriptions.new items.new (said subscriptions.old (republished requester.session subscription wanted (stage_of subscriptions.old items.old requester.clock))) }
{
    subscriptions.republish(items, requester, subscription, wanted)
}

/// As [`Subscriptions::timers`].
pub fn timers_run(
    subscriptions: &mut Subscriptions,
    items: &mut Items,
    clock: Moment,
) -> Result<Answered<()>, Halt>
    ensures { Serves result subscriptions.old subscriptions.new items.new (without_answer subscriptions.old (timed (stage_of subscriptions.old items.old clock))) }
{
    subscriptions.timers(items, clock)
}

/// As [`Subscriptions::shut_down`].
pub fn all_shut_down(
    subscriptions: &mut Subscriptions,
    items: &mut Items,
    clock: Moment,
) -> Result<Answered<()>, Halt>
    ensures { Serves result subscriptions.old subscriptions.new items.new (without_answer subscriptions.old (shut_down (stage_of subscriptions.old items.old clock))) }
{
    subscriptions.shut_down(items, clock)
}

/// As [`Subscriptions::gone`].
pub fn connection_gone(subscriptions: &mut Subscriptions, conn: u64)
    ensures { subscriptions.new ≡ record subscriptions.old { table = without_conn conn subscriptions.old.table } }
{
    subscriptions.gone(conn);
}

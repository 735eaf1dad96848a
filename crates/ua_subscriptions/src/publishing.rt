//! Publish: acknowledgements, notes of time-outs, and who answers.

ghost use Rattle.std.specs.Prelude.{◌≡◌, List, OnOk, IfOk};
ghost use Rattle.ua_subscriptions.specs.Askers.{AreAsked};
ghost use Rattle.ua_subscriptions.specs.DueLists.{AreListed};
ghost use Rattle.ua_subscriptions.specs.declared.askers.Asker.{Asker as AskerLem};
ghost use Rattle.ua_subscriptions.specs.declared.due_list.Due.{Due as DueLem};
ghost use Rattle.ua_subscriptions.specs.Publishing.{acknowledged, acknowledged_all, note_of, without_note, note_told, answered_to, published};
ghost use Rattle.ua_subscriptions.specs.Tables.{stage, Meets};
ghost use Rattle.ua_views.specs.Views.{or_none};

use crate::call::Call;
use crate::kept::Kept;
use crate::messages::timeout_message;
use crate::named::is_own;
use crate::publish_call::PublishCall;
use crate::round::Round;
use crate::session_part::{SessionSubscriptions, TimeoutNote};
use crate::subscription::Subscription;
use crate::table::LiveSubscriptions;
use server_messages::Halt;
use std::alloc::{AllocError, Global};
use std::collections::BTreeMap;
use ua_monitored_items::Items;
use ua_subscription_messages::{SubscriptionAcknowledgement, SubscriptionId};
use ua_types::{Listed, Status};
use ua_views::ArrayView;

#[tactic(auto, unfolding(crate::specs::Publishing::acknowledged))]
fn acknowledge(
    subscriptions: &mut BTreeMap<u32, Subscription>,
    session: u32,
    acknowledgement: SubscriptionAcknowledgement,
) -> Status
    ensures status { result ≡ (acknowledged session subscriptions.old.entries acknowledgement).status }
    ensures subscriptions { subscriptions.new.entries ≡ (acknowledged session subscriptions.old.entries acknowledgement).subscriptions }
    ensures listed { (dues : List DueLem) → AreListed subscriptions.old.entries dues → AreListed subscriptions.new.entries dues }
{
    let own = acknowledgement.subscription_id;
    if !is_own(subscriptions, session, SubscriptionId(own)) {
        return Status::BAD_SUBSCRIPTION_ID_INVALID;
    }
    match subscriptions.get_mut(&own) {
        None => Status::BAD_SUBSCRIPTION_ID_INVALID,
        Some(subscription) => {
            if subscription.kept.forget(acknowledgement.sequence_number) {
                Status::GOOD
            } else {
                Status::BAD_SEQUENCE_NUMBER_UNKNOWN
            }
        }
    }
}

fn acknowledge_all(
    alloc: Global,
    subscriptions: &mut BTreeMap<u32, Subscription>,
    session: u32,
    acknowledgements: ArrayView<'_, SubscriptionAcknowledgement>,
) -> Result<Listed<Status>, AllocError>
    ensures results { IfOk result (λ results. results ≡ (acknowledged_all session subscriptions.old.entries (or_none acknowledgements.entry)).results) }
    ensures subscriptions { OnOk result (subscriptions.new.entries ≡ (acknowledged_all session subscriptions.old.entries (or_none acknowledgements.entry)).subscriptions) }
    ensures listed { (dues : List DueLem) → AreListed subscriptions.old.entries dues → AreListed subscriptions.new.entries dues }
{
    let mut results = Listed::new(alloc);
    for acknowledgement in acknowledgements {
        results.push(acknowledge(subscriptions, session, acknowledgement))?;
    }
    Ok(results)
}

// Takes out the oldest note of a session.
fn take_note(
    sessions: &mut BTreeMap<u32, SessionSubscriptions>,
    session: u32,
) -> Option<TimeoutNote>
    ensures note { result ≡ note_of session sessions.old.entries }
    ensures sessions { sessions.new.entries ≡ without_note session sessions.old.entries }
    ensures asked { (askers : List AskerLem) → AreAsked sessions.old.entries askers → AreAsked sessions.new.entries askers }
{
    match sessions.get_mut(&session) {
        None => None,
        Some(part) => part.notes.pop(),
    }
}

// Answers a request by the note that a subscription has timed out.
fn tell_note(
    round: &mut Round,
    alloc: Global,
    call: PublishCall,
    note: TimeoutNote,
) -> Result<(), AllocError>
    ensures { OnOk result (round.new ≡ note_told round.old call note) }
{
    let bytes = timeout_message(alloc, note.number, round.clock)?;
    let none = Kept::new(alloc);
    let message = bytes.as_slice();
    let own = SubscriptionId(note.subscription);
    let reply = call.published(alloc, round.clock, own, &none, false, message)?;
    round.replies.push(reply)
}

impl LiveSubscriptions {
    // Gives a request to the best of these subscriptions that waits, or else to all of them.
    #[tactic(auto, unfolding(crate::specs::Publishing::answered_to))]
    fn publish_to(
        &mut self,
        round: &mut Round,
        items: &mut Items,
        numbers: &[u32],
        call: PublishCall,
    ) -> Result<(), Halt>
        ensures { Meets result (stage round.new self.new items.new) (answered_to numbers.now call (stage round.old self.old items.old)) }
    {
        if numbers.is_empty() {
            round.replies.push(call.refused(
                items.allocator(),
                round.clock,
                Status::BAD_NO_SUBSCRIPTION,
            )?)?;
            return Ok(());
        }
        let best = self.best_waiting(numbers);
        round.asked = Some(call);
        match best {
            Some(rank) => self.fire_one(round, items, SubscriptionId(rank.number), Call::Publish),
            None => self.fire_all(round, items, numbers, Call::Publish),
        }
    }

    /// Publish: the acknowledged messages of the session's subscriptions are no longer kept. Then the oldest note of a
    /// time-out is the answer; where there is none and no subscription, a fault; else the best subscription that waits
    /// answers, or all of the session see the request, and it is queued. `call` comes without results. At an `Err` nothing
    /// is known of what is left.
    #[tactic(auto, unfolding(crate::specs::Publishing::published))]
    pub(crate) fn publish(
        &mut self,
        round: &mut Round,
        items: &mut Items,
        session: u32,
        call: PublishCall,
        acknowledgements: ArrayView<'_, SubscriptionAcknowledgement>,
    ) -> Result<(), Halt>
        ensures { Meets result (stage round.new self.new items.new) (published session call (or_none acknowledgements.entry) (stage round.old self.old items.old)) }
    {
        let alloc = items.allocator();
        let subscriptions = &mut self.subscriptions;
        let results = acknowledge_all(alloc, subscriptions, session, acknowledgements)?;
        let call = PublishCall {
            origin: call.origin,
            results,
        };
        if let Some(note) = take_note(&mut self.sessions, session) {
            return Ok(tell_note(round, alloc, call, note)?);
        }
        let numbers = self.numbers(alloc, session)?;
        self.publish_to(round, items, numbers.as_slice(), call)
    }
}

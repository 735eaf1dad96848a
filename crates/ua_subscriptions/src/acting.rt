//! The actions of the state table.

ghost use Rattle.std.specs.Prelude.{◌≡◌, ◌+◌, ◌^◌, true, OnOk, IfErr};
ghost use Rattle.server_messages.specs.declared.halt.Halt.TheVariants.{Exhausted};
ghost use Rattle.ua_subscriptions.specs.Messages.{number_after as number_after_spec};
ghost use Rattle.ua_subscriptions.specs.Scenes.{scene, Acts, counted, placed, answered, kept_with, initialised, updated, started, enqueued, keep_alive_sent, noting, note_sent, sending, notes_sent, is_overspent, done, row_done};

use crate::messages::{KeptMessage, data_message, keep_alive_message};
use crate::publish_call::PublishCall;
use crate::queue::Queue;
use crate::round::Round;
use crate::session_part::{SessionSubscriptions, TimeoutNote};
use crate::settings::{revised_keep_alive_count, revised_lifetime_count, revised_notifications};
use crate::subscription::Subscription;
use server_messages::Halt;
use std::alloc::{AllocError, Global};
use ua_monitored_items::Items;
use ua_state_table::{Action, RowId, actions_of, next_of};
use ua_types::{Moment, Status};

/// The sequence number of the message after the one with this number: after the last of 32 bits comes 1
/// (IEC 62541-4, "Counter").
pub fn number_after(number: u32) -> u32
    ensures { result ≡ number_after_spec number }
{
    if number == u32::MAX { 1 } else { number + 1 }
}

impl Round {
    // One more message of all is sent, and it is this subscription's. `Exhausted` where it can't be counted.
    fn count(&mut self, subscription: &mut Subscription) -> Result<(), Halt>
        ensures ok { OnOk result (self.new ≡ counted self.old) }
        ensures message_count { OnOk result (subscription.new ≡ record subscription.old { message_count = self.new.message_count }) }
        ensures err { IfErr result (λ halt. self.old.message_count + 1 ≡ 2 ^ 64) }
        ensures exhausted { IfErr result (λ halt. halt ≡ Exhausted) }
    {
        if self.message_count == u64::MAX {
            return Err(Halt::Exhausted);
        }
        self.message_count += 1;
        subscription.message_count = self.message_count;
        Ok(())
    }
}

// One reply more.
fn reply_asked(
    round: &mut Round,
    alloc: Global,
    subscription: &Subscription,
    more: bool,
    message: &[u8],
) -> Result<(), AllocError>
    ensures { OnOk result (round.new ≡ answered round.old subscription.now more message.now) }
{
    let Some(call) = round.asked.take() else {
        return Ok(());
    };
    let kept = &subscription.kept;
    let reply = call.published(alloc, round.clock, round.own, kept, more, message)?;
    round.replies.push(reply)
}

// Keeps a message, and drops the oldest one where there are more than may be.
fn keep_message(
    subscription: &mut Subscription,
    bound: u32,
    message: KeptMessage,
) -> Result<(), AllocError>
    ensures { OnOk result (subscription.new ≡ record subscription.old { kept = kept_with bound subscription.old.kept message }) }
{
    subscription.kept.push(message)?;
    if subscription.kept.len() > bound as usize {
        subscription.kept.drop_oldest();
    }
    Ok(())
}

#[tactic(auto, unfolding(crate::specs::Scenes::enqueued))]
fn enqueue(
    round: &mut Round,
    alloc: Global,
    part: &mut SessionSubscriptions,
) -> Result<(), AllocError>
    ensures round { OnOk result (round.new ≡ (enqueued round.old part.old).round) }
    ensures part { OnOk result (part.new ≡ (enqueued round.old part.old).part) }
{
    let Some(call) = round.asked.take() else {
        return Ok(());
    };
    if part.requests.len() >= round.bounds.publish_queue as usize {
        if let Some(oldest) = part.requests.pop() {
            let status = Status::BAD_TOO_MANY_PUBLISH_REQUESTS;
            round
                .replies
                .push(oldest.refused(alloc, round.clock, status)?)?;
        }
    }
    part.requests.push(call)
}

fn send_keep_alive(
    round: &mut Round,
    alloc: Global,
    subscription: &mut Subscription,
) -> Result<(), Halt>
    ensures round { OnOk result (round.new ≡ keep_alive_sent round.old subscription.old) }
    ensures subscription { OnOk result (subscription.new ≡ placed (counted round.old) subscription.old) }
    ensures exhausted { IfErr result (λ halt. halt ≡ Exhausted → round.old.message_count + 1 ≡ 2 ^ 64) }
{
    round.count(subscription)?;
    let bytes = keep_alive_message(alloc, number_after(subscription.number), round.clock)?;
    reply_asked(round, alloc, subscription, false, bytes.as_slice())?;
    Ok(())
}

#[tactic(auto, unfolding(crate::specs::Scenes::note_sent))]
fn send_note(
    round: &mut Round,
    subscription: &mut Subscription,
    items: &mut Items,
) -> Result<(), Halt>
    ensures ok { OnOk result (noting round.new subscription.new items.new ≡ note_sent (noting round.old subscription.old items.old)) }
    ensures exhausted { IfErr result (λ halt. halt ≡ Exhausted → round.old.message_count + 1 ≡ 2 ^ 64) }
{
    round.count(subscription)?;
    let count = subscription.notifications as usize;
    let number = number_after(subscription.number);
    let bytes = data_message(number, round.clock, items, round.own, count)?;
    let message = bytes.clone()?;
    subscription.more = items.available(round.own);
    subscription.number = number;
    keep_message(
        subscription,
        round.bounds.kept,
        KeptMessage { number, bytes },
    )?;
    let more = subscription.more;
    reply_asked(
        round,
        items.allocator(),
        subscription,
        more,
        message.as_slice(),
    )?;
    Ok(())
}

#[tactic(auto, using(crate::proofs::Sendings::rest_overspent, crate::proofs::Sendings::rest_of_more, crate::proofs::Sendings::rest_of_none, crate::proofs::Sendings::rest_of_all), unfolding(crate::specs::Scenes::notes_sent))]
fn send_notes(
    round: &mut Round,
    subscription: &mut Subscription,
    requests: &mut Queue<PublishCall>,
    items: &mut Items,
) -> Result<(), Halt>
    ensures ok { OnOk result (sending (noting round.new subscription.new items.new) requests.new ≡ notes_sent requests.old (noting round.old subscription.old items.old)) }
    ensures exhausted { IfErr result (λ halt. halt ≡ Exhausted → is_overspent (notes_sent requests.old (noting round.old subscription.old items.old)).noting.round ≡ true) }
{
    send_note(round, subscription, items)?;
    while subscription.more {
        let Some(call) = requests.pop() else {
            return Ok(());
        };
        round.asked = Some(call);
        send_note(round, subscription, items)?;
    }
    Ok(())
}

// The counts as they are asked for.
fn update(round: &Round, subscription: &mut Subscription)
    ensures { subscription.new ≡ updated round.now subscription.old }
{
    let asked = round.call.settings();
    subscription.keep_alive_count = revised_keep_alive_count(asked.keep_alive_count);
    subscription.lifetime_count = revised_lifetime_count(
        subscription.keep_alive_count,
        asked.lifetime_count,
    );
    subscription.notifications = revised_notifications(
        round.bounds.notifications,
        asked.notifications,
    );
    subscription.priority = asked.priority;
}

fn initialise(round: &Round, subscription: &mut Subscription)
    ensures { subscription.new ≡ initialised round.now subscription.old }
{
    update(round, subscription);
    subscription.enabled = round.call.enabled();
    subscription.more = false;
    subscription.sent = false;
    subscription.keep_alive = subscription.keep_alive_count;
    subscription.lifetime = subscription.lifetime_count;
    subscription.message_count = 0;
    subscription.number = 0;
    subscription.kept.clear();
}

fn start_timer(round: &Round, subscription: &mut Subscription)
    ensures { subscription.new ≡ started round.now subscription.old }
{
    subscription.due = Moment(
        round
            .clock
            .0
            .saturating_add_unsigned(round.bounds.publish_time),
    );
    subscription.lifetime = subscription.lifetime.saturating_sub(1);
}

/// One action. At an `Err` nothing is known of what is left.
pub(crate) fn act(
    round: &mut Round,
    subscription: &mut Subscription,
    part: &mut SessionSubscriptions,
    items: &mut Items,
    action: Action,
) -> Result<(), Halt>
    ensures { Acts result (scene round.new subscription.new part.new items.new) (done (scene round.old subscription.old part.old items.old) action) }
{
    match action {
        Action::Initialise => initialise(round, subscription),
        Action::StartTimer => start_timer(round, subscription),
        Action::Enqueue => enqueue(round, items.allocator(), part)?,
        Action::Dequeue => round.asked = part.requests.pop(),
        Action::ResetLife => subscription.lifetime = subscription.lifetime_count,
        Action::ResetKeep => subscription.keep_alive = subscription.keep_alive_count,
        Action::CountKeep => subscription.keep_alive = subscription.keep_alive.saturating_sub(1),
        Action::SendNotifications => {
            return send_notes(round, subscription, &mut part.requests, items);
        }
        Action::SendKeepAlive => {
            return send_keep_alive(round, items.allocator(), subscription);
        },
        Action::SetSent => subscription.sent = true,
        Action::DeleteItems => {
            subscription.kept.clear();
            items.end(round.own);
        }
        Action::NoteTimeout => part.notes.push(TimeoutNote {
            subscription: round.own.0,
            number: number_after(subscription.number),
        })?,
        Action::Update => update(round, subscription),
        Action::LimitKeep => {
            subscription.keep_alive = subscription.keep_alive.min(subscription.keep_alive_count);
        }
        Action::SetEnabled => subscription.enabled = round.call.enabled(),
        Action::ClearMore => subscription.more = false,
        Action::LimitMore => subscription.more = subscription.more && items.available(round.own),
        Action::LeaveSession => subscription.session = None,
        // The call itself does these, before its row or after it: `create` refuses, `publish` deletes what is
        // acknowledged, `republish` gives the kept message or refuses, and the services in `ua_services` write the
        // answer and call the items.
        Action::RefuseTooMany
        | Action::Answer
        | Action::DeleteAcknowledged
        | Action::AnswerKept
        | Action::RefuseNotKept
        | Action::CallItems => {}
    }
    Ok(())
}

/// All that a row does. At an `Err` nothing is known of what is left.
#[tactic(auto, unfolding(crate::specs::Scenes::row_done))]
pub(crate) fn do_row(
    round: &mut Round,
    subscription: &mut Subscription,
    part: &mut SessionSubscriptions,
    items: &mut Items,
    row: RowId,
) -> Result<(), Halt>
    ensures { Acts result (scene round.new subscription.new part.new items.new) (row_done row (scene round.old subscription.old part.old items.old)) }
{
    let next = next_of(row, subscription.state);
    for action in actions_of(row) {
        act(round, subscription, part, items, *action)?;
    }
    subscription.state = next;
    Ok(())
}

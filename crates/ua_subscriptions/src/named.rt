//! Requests that name subscriptions of their session.

ghost use Rattle.std.specs.Prelude.{◌≡◌, List, [], map, OnOk, IsOk};
ghost use Rattle.ua_subscriptions.specs.Askers.{AreAsked};
ghost use Rattle.ua_subscriptions.specs.declared.askers.Asker.{Asker as AskerLem};
ghost use Rattle.ua_subscriptions.specs.Named.{is_own as is_own_spec, is_own_in, Comes, own_met, named_all, with_replies, requests_refused, sessions_without_requests, all_refused, has_none, deleted};
ghost use Rattle.ua_subscriptions.specs.Answers.{refused_of};
ghost use Rattle.ua_subscriptions.specs.Tables.{stage, subscription_at};
ghost use Rattle.ua_monitored_items.specs.Items.{ItemsState};
ghost use Rattle.ua_views.specs.Views.{or_none};

use crate::call::Call;
use crate::publish_call::PublishCall;
use crate::queue::Queue;
use crate::round::Round;
use crate::session_part::SessionSubscriptions;
use crate::subscription::Subscription;
use crate::table::LiveSubscriptions;
use server_messages::Halt;
use std::alloc::{AllocError, Global};
use std::collections::BTreeMap;
use std::mem::replace;
use ua_monitored_items::Items;
use ua_subscription_messages::SubscriptionId;
use ua_types::{Listed, Status};
use ua_views::ArrayView;

/// Answers requests with a fault, the oldest first.
pub(crate) fn refuse_requests(
    round: &mut Round,
    alloc: Global,
    requests: &mut Queue<PublishCall>,
    status: Status,
) -> Result<(), AllocError>
    ensures round { OnOk result (round.new ≡ with_replies round.old (map (refused_of round.old.clock status) requests.old)) }
    ensures requests { OnOk result (requests.new ≡ []) }
    ensures none { requests.old ≡ [] → IsOk result }
{
    while let Some(call) = requests.pop() {
        round
            .replies
            .push(call.refused(alloc, round.clock, status)?)?;
    }
    Ok(())
}

/// Whether this is the number of a live subscription of this session.
pub(crate) fn is_own(
    subscriptions: &BTreeMap<u32, Subscription>,
    session: u32,
    number: SubscriptionId,
) -> bool
    ensures { result ≡ is_own_in session (subscription_at number subscriptions.now.entries) }
{
    match subscriptions.get(&number.0) {
        None => false,
        Some(subscription) => subscription.session == Some(session),
    }
}

/// A subscription that a request names, and the session of the request.
#[derive(Clone, Copy, Debug)]
pub(crate) struct Named {
    pub session: u32,
    pub subscription: SubscriptionId,
}

impl LiveSubscriptions {
    /// Whether this is the number of a live subscription of this session.
    pub(crate) fn is_own(&self, session: u32, subscription: SubscriptionId) -> bool
        ensures { result ≡ is_own_spec self.now session subscription }
    {
        is_own(&self.subscriptions, session, subscription)
    }

    // It comes to the subscription of this number, if it is this session's.
    #[tactic(auto, unfolding(crate::specs::Named::own_met))]
    pub(crate) fn fire_own(
        &mut self,
        round: &mut Round,
        items: &mut Items,
        named: Named,
        call: Call,
    ) -> Result<Status, Halt>
        ensures { Comes result (stage round.new self.new items.new) (own_met named.session call (stage round.old self.old items.old) named.subscription) }
    {
        if !self.is_own(named.session, named.subscription) {
            return Ok(Status::BAD_SUBSCRIPTION_ID_INVALID);
        }
        self.fire_one(round, items, named.subscription, call)?;
        Ok(Status::GOOD)
    }

    /// It comes to each subscription that is named and is this session's, one after the other. Tells of each whether it
    /// was. At an `Err` nothing is known of what is left.
    pub(crate) fn fire_named(
        &mut self,
        round: &mut Round,
        items: &mut Items,
        session: u32,
        numbers: ArrayView<'_, u32>,
        call: Call,
    ) -> Result<Listed<Status>, Halt>
        ensures { Comes result (stage round.new self.new items.new) (named_all session call (stage round.old self.old items.old) (or_none numbers.entry)) }
    {
        let mut results = Listed::new(items.allocator());
        for number in numbers {
            let subscription = SubscriptionId(number);
            let named = Named {
                session,
                subscription,
            };
            match self.fire_own(round, items, named, call) {
                Ok(status) => results.push(status)?,
                Err(halt) => return Err(halt),
            }
        }
        Ok(results)
    }

    /// Answers all requests of a session that wait with this fault. At an `Err` nothing is known of what is left.
    #[tactic(auto, unfolding(crate::specs::Named::all_refused))]
    pub(crate) fn refuse_all(
        &mut self,
        alloc: Global,
        round: &mut Round,
        session: u32,
        status: Status,
    ) -> Result<(), AllocError>
        ensures { OnOk result ((items : ItemsState) → stage round.new self.new items ≡ all_refused session status (stage round.old self.old items)) }
    {
        refuse_at(round, alloc, &mut self.sessions, session, status)
    }

    // Whether a session has no subscription.
    fn has_none(&self, session: u32) -> bool
        ensures { result ≡ has_none session self.now }
    {
        match self.sessions.get(&session) {
            None => true,
            Some(part) => part.numbers.len() == 0,
        }
    }

    /// DeleteSubscriptions: those that are named and are this session's go, with their items. Where none is left, the
    /// requests that wait are answered that there is no subscription. At an `Err` nothing is known of what is left.
    #[tactic(auto, unfolding(crate::specs::Named::deleted))]
    pub(crate) fn delete(
        &mut self,
        round: &mut Round,
        items: &mut Items,
        session: u32,
        numbers: ArrayView<'_, u32>,
    ) -> Result<Listed<Status>, Halt>
        ensures { Comes result (stage round.new self.new items.new) (deleted session (stage round.old self.old items.old) (or_none numbers.entry)) }
    {
        match self.fire_named(round, items, session, numbers, Call::Delete) {
            Ok(results) => {
                if self.has_none(session) {
                    self.refuse_all(
                        items.allocator(),
                        round,
                        session,
                        Status::BAD_NO_SUBSCRIPTION,
                    )?;
                }
                Ok(results)
            }
            Err(halt) => Err(halt),
        }
    }
}

// Answers those of the session under its number.
fn refuse_at(
    round: &mut Round,
    alloc: Global,
    sessions: &mut BTreeMap<u32, SessionSubscriptions>,
    session: u32,
    status: Status,
) -> Result<(), AllocError>
    ensures round { OnOk result (round.new ≡ requests_refused session status round.old sessions.old.entries) }
    ensures sessions { OnOk result (sessions.new.entries ≡ sessions_without_requests session sessions.old.entries) }
    ensures asked { (askers : List AskerLem) → AreAsked sessions.old.entries askers → AreAsked sessions.new.entries askers }
{
    match sessions.get_mut(&session) {
        None => Ok(()),
        Some(part) => {
            let mut requests = replace(&mut part.requests, Queue::new(alloc));
            refuse_requests(round, alloc, &mut requests, status)
        }
    }
}

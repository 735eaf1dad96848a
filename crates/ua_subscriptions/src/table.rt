//! Subscriptions and sessions under their numbers.

ghost use Rattle.std.specs.Prelude.{◌≡◌, true, None, OnOk, IfOk, IsOk, IfErr};
ghost use Rattle.server_messages.specs.declared.halt.Halt.TheVariants.{Exhausted};
ghost use Rattle.ua_subscriptions.specs.Askers.{AreAsked};
ghost use Rattle.ua_subscriptions.specs.DueLists.{due_at, has_due, has_moved, AreListed};
ghost use Rattle.ua_subscriptions.specs.declared.due_list.Due.{Due as DueLem};
ghost use Rattle.ua_subscriptions.specs.Firing.{fired};
ghost use Rattle.ua_subscriptions.specs.Tables.{no_table, table_of, part_of, set_part, subscription_at, vars_found, kept_found, scene_in, stage, met, all_met, Meets};
ghost use Rattle.ua_subscriptions.specs.Subscriptions.{is_any};
ghost use Rattle.ua_subscriptions.specs.Scenes.{scene, is_overspent};

use crate::askers::AskerList;
use crate::asking::fire_of;
use crate::call::Call;
use crate::due_list::DueList;
use crate::firing::{fire, is_closed};
use crate::listing::remove_at;
use crate::round::Round;
use crate::session_part::SessionSubscriptions;
use crate::subscription::Subscription;
use server_messages::Halt;
use std::alloc::{AllocError, Global};
use std::collections::BTreeMap;
use std::marker::Model;
use ua_monitored_items::Items;
use ua_state_table::Vars;
use ua_subscription_messages::SubscriptionId;

/// The live subscriptions of a server under their numbers, and what each session has of them. Contracts see both as
/// lists by rising number.
#[derive(Debug, Drop)]
pub struct LiveSubscriptions {
    pub(crate) subscriptions: BTreeMap<u32, Subscription>,
    pub(crate) sessions: BTreeMap<u32, SessionSubscriptions>,
    // The moment of each subscription's timer stands here, and nothing else does.
    pub(crate) dues: DueList,
    // The connection of each request that waits stands here, with its session.
    pub(crate) askers: AskerList,
}

impl Model for LiveSubscriptions {
    ghost use Rattle.ua_subscriptions.specs.Askers.{AreAsked};
    ghost use Rattle.ua_subscriptions.specs.DueLists.{AreListed};
    ghost use Rattle.ua_subscriptions.specs.Tables.{TableState};

    ghost Value = { TableState };

    ghost view = { λ t. record { subscriptions = t.subscriptions.entries; sessions = t.sessions.entries } };

    ghost invariant = { λ t. AreListed t.subscriptions.entries t.dues × AreAsked t.sessions.entries t.askers };
}

// Fires a row, where what the session has of subscriptions is found under its number.
fn fire_in(
    round: &mut Round,
    subscription: &mut Subscription,
    sessions: &mut BTreeMap<u32, SessionSubscriptions>,
    askers: &mut AskerList,
    items: &mut Items,
) -> Result<(), Halt>
    requires { AreAsked sessions.old.entries askers.old }
    ensures ok { let after = fired (scene_in round.old subscription.old sessions.old.entries items.old) in
        OnOk result (scene round.new subscription.new after.part items.new ≡ after) }
    ensures part { let after = fired (scene_in round.old subscription.old sessions.old.entries items.old) in
        OnOk result (sessions.new.entries ≡ set_part subscription.old.session sessions.old.entries after.part) }
    ensures exhausted { IfErr result (λ halt. halt ≡ Exhausted → is_overspent (fired (scene_in round.old subscription.old sessions.old.entries items.old)).round ≡ true) }
    ensures asked { AreAsked sessions.new.entries askers.new }
{
    let alloc = items.allocator();
    let Some(session) = subscription.session else {
        return fire(
            round,
            subscription,
            &mut SessionSubscriptions::new(alloc),
            items,
        );
    };
    match sessions.get_mut(&session) {
        None => fire(
            round,
            subscription,
            &mut SessionSubscriptions::new(alloc),
            items,
        ),
        Some(part) => fire_of(round, subscription, session, part, askers, items),
    }
}

// Fires a row at a subscription, and puts its timer off in the list. At an `Err` its timer stays where it was.
fn fire_listed(
    round: &mut Round,
    subscription: &mut Subscription,
    dues: &mut DueList,
    sessions: &mut BTreeMap<u32, SessionSubscriptions>,
    askers: &mut AskerList,
    items: &mut Items,
) -> Result<(), Halt>
    requires listed { has_due dues.old (due_at subscription.old.due round.old.own) ≡ true }
    requires asked { AreAsked sessions.old.entries askers.old }
    ensures ok { let after = fired (scene_in round.old subscription.old sessions.old.entries items.old) in
        OnOk result (scene round.new subscription.new after.part items.new ≡ after) }
    ensures part { let after = fired (scene_in round.old subscription.old sessions.old.entries items.old) in
        OnOk result (sessions.new.entries ≡ set_part subscription.old.session sessions.old.entries after.part) }
    ensures exhausted { IfErr result (λ halt. halt ≡ Exhausted → is_overspent (fired (scene_in round.old subscription.old sessions.old.entries items.old)).round ≡ true) }
    ensures listed { (q : DueLem) → has_due dues.new q ≡ has_moved round.old.own subscription.old.due subscription.new.due q (has_due dues.old q) }
    ensures asked { AreAsked sessions.new.entries askers.new }
{
    let own = round.own;
    let before = subscription.due;
    match fire_in(round, subscription, sessions, askers, items) {
        Ok(()) => {}
        Err(halt) => {
            subscription.due = before;
            return Err(halt);
        }
    }
    match dues.put_off(own.0, before, subscription.due) {
        Ok(()) => Ok(()),
        Err(_) => {
            subscription.due = before;
            Err(Halt::Memory)
        }
    }
}

// Fires a row at the subscription that the round is at, if it is there; one that is closed then is no more.
#[tactic(auto, unfolding(crate::specs::Tables::met))]
fn fire_at(
    round: &mut Round,
    subscriptions: &mut BTreeMap<u32, Subscription>,
    dues: &mut DueList,
    sessions: &mut BTreeMap<u32, SessionSubscriptions>,
    askers: &mut AskerList,
    items: &mut Items,
) -> Result<(), Halt>
    requires listed { AreListed subscriptions.old.entries dues.old }
    requires asked { AreAsked sessions.old.entries askers.old }
    ensures meets { Meets result (stage round.new (table_of subscriptions.new.entries sessions.new.entries) items.new) (met (stage round.old (table_of subscriptions.old.entries sessions.old.entries) items.old) round.old.own round.old.call) }
    ensures listed { AreListed subscriptions.new.entries dues.new }
    ensures asked { AreAsked sessions.new.entries askers.new }
    ensures memory { subscription_at round.old.own subscriptions.old.entries ≡ None → IsOk result }
{
    let own = round.own;
    let Some(subscription) = subscriptions.get_mut(&own.0) else {
        return Ok(());
    };
    fire_listed(round, subscription, dues, sessions, askers, items)?;
    if is_closed(subscription) {
        remove_at(subscriptions, dues, own.0);
    }
    Ok(())
}

impl LiveSubscriptions {
    /// No subscription. Takes no memory.
    pub(crate) fn new(alloc: Global) -> LiveSubscriptions
        ensures { result ≡ no_table }
    {
        LiveSubscriptions {
            subscriptions: BTreeMap::new(alloc),
            sessions: BTreeMap::new(alloc),
            dues: DueList::new(alloc),
            askers: AskerList::new(alloc),
        }
    }

    // Whether a request of a session waits.
    fn waits(&self, session: Option<u32>) -> bool
        ensures { result ≡ is_any (part_of session self.now.sessions).requests }
    {
        match session {
            None => false,
            Some(session) => match self.sessions.get(&session) {
                None => false,
                Some(part) => part.waits(),
            },
        }
    }

    /// The variables of the live subscription of a number.
    pub(crate) fn vars(&self, number: SubscriptionId, items: &Items) -> Option<Vars>
        ensures { result ≡ vars_found number items.now self.now }
    {
        let subscription = self.subscriptions.get(&number.0)?;
        let waits = self.waits(subscription.session);
        Some(subscription.vars(waits, items, number))
    }

    /// The numbers of the messages that the subscription of a number keeps.
    pub(crate) fn kept_numbers(
        &self,
        alloc: Global,
        number: SubscriptionId,
    ) -> Result<Vec<u32>, AllocError>
        ensures { IfOk result (λ numbers. numbers.items ≡ kept_found number self.now) }
    {
        match self.subscriptions.get(&number.0) {
            None => Ok(Vec::new(alloc)),
            Some(subscription) => subscription.kept.numbers(alloc),
        }
    }

    /// What comes to the subscription of this number fires a row there, if there is one. At an `Err` nothing is known of
    /// what is left.
    #[tactic(auto, unfolding(crate::specs::Tables::met))]
    pub(crate) fn fire_one(
        &mut self,
        round: &mut Round,
        items: &mut Items,
        own: SubscriptionId,
        call: Call,
    ) -> Result<(), Halt>
        ensures meets { Meets result (stage round.new self.new items.new) (met (stage round.old self.old items.old) own call) }
        ensures memory { subscription_at own self.old.subscriptions ≡ None → IsOk result }
    {
        round.own = own;
        round.call = call;
        fire_at(
            round,
            &mut self.subscriptions,
            &mut self.dues,
            &mut self.sessions,
            &mut self.askers,
            items,
        )
    }

    /// It comes to several, one after the other. At an `Err` nothing is known of what is left.
    pub(crate) fn fire_all(
        &mut self,
        round: &mut Round,
        items: &mut Items,
        numbers: &[u32],
        call: Call,
    ) -> Result<(), Halt>
        ensures { Meets result (stage round.new self.new items.new) (all_met call (stage round.old self.old items.old) numbers.now) }
    {
        for number in numbers {
            match self.fire_one(round, items, SubscriptionId(*number), call) {
                Ok(()) => {}
                Err(halt) => return Err(halt),
            }
        }
        Ok(())
    }
}

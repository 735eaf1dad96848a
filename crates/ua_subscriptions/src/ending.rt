//! The end of sessions, of connections, and of the server.

ghost use Rattle.std.specs.Prelude.{◌≡◌, [], map, filter, OnOk, IsOk};
ghost use Rattle.std.specs.BTreeMap.{is_at};
ghost use Rattle.std.specs.Map.{keys_of, values_of, set_value};
ghost use Rattle.std.specs.Ordering.{nat_cmp};
ghost use Rattle.ua_subscriptions.specs.Askers.{AreAsked};
ghost use Rattle.ua_monitored_items.specs.Items.{ItemsState};
ghost use Rattle.ua_subscriptions.specs.Answers.{refused_of};
ghost use Rattle.ua_subscriptions.specs.Ending.{session_ended, came_by_other, part_without_conn, entry_without_conn, without_conn, all_requests, all_left, shut_down};
ghost use Rattle.ua_subscriptions.specs.Named.{with_replies};
ghost use Rattle.ua_subscriptions.specs.Queues.{first_of};
ghost use Rattle.ua_subscriptions.specs.Tables.{no_table, stage, all_met, Meets, part_at};
ghost use Rattle.ua_subscriptions.specs.declared.call.Call.TheVariants.{Shutdown};

use crate::askers::AskerList;
use crate::call::Call;
use crate::named::refuse_requests;
use crate::publish_call::PublishCall;
use crate::queue::Queue;
use crate::round::Round;
use crate::session_part::SessionSubscriptions;
use crate::subscription::Subscription;
use crate::table::LiveSubscriptions;
use server_messages::Halt;
use std::alloc::{AllocError, Global};
use std::collections::BTreeMap;
use std::mem::replace;
use ua_monitored_items::Items;
use ua_subscription_messages::SubscriptionId;
use ua_types::Status;

impl LiveSubscriptions {
    /// A session ends: its subscriptions are deleted, or left to their lifetime; then its requests that wait are answered,
    /// and its notes go. At an `Err` nothing is known of what is left.
    #[tactic(auto, unfolding(crate::specs::Ending::session_ended))]
    pub(crate) fn end_session(
        &mut self,
        round: &mut Round,
        items: &mut Items,
        session: u32,
        deleting: bool,
    ) -> Result<(), Halt>
        ensures { Meets result (stage round.new self.new items.new) (session_ended session deleting (stage round.old self.old items.old)) }
    {
        let alloc = items.allocator();
        let numbers = self.numbers(alloc, session)?;
        let call = Call::SessionEnd { deleting };
        match self.fire_all(round, items, numbers.as_slice(), call) {
            Ok(()) => {}
            Err(halt) => return Err(halt),
        }
        self.refuse_all(alloc, round, session, Status::BAD_SESSION_CLOSED)?;
        let _ = self.sessions.remove(&session);
        self.askers.forget(session);
        Ok(())
    }

    /// A connection is closed or gone: the requests that came by it wait no more, whatever session they are of. Takes no
    /// memory.
    pub(crate) fn gone(&mut self, conn: u64)
        ensures { self.new ≡ without_conn conn self.old }
    {
        forget_conn(&mut self.sessions, &mut self.askers, conn);
    }

    // The shutdown comes to each subscription, the one with the least number first. At an `Err` nothing is known of what is
    // left.
    fn close_all(&mut self, round: &mut Round, items: &mut Items) -> Result<(), Halt>
        ensures met { Meets result (stage round.new self.new items.new) (all_met Shutdown (stage round.old self.old items.old) (keys_of self.old.subscriptions)) }
        ensures none { OnOk result (self.new.subscriptions ≡ []) }
        ensures calm { self.old.subscriptions ≡ [] → IsOk result }
    {
        while let Some(number) = first_number(&self.subscriptions) {
            match self.fire_one(round, items, SubscriptionId(number), Call::Shutdown) {
                Ok(()) => {}
                Err(halt) => return Err(halt),
            }
        }
        Ok(())
    }

    // All requests that wait are answered with this fault, and nothing of any session is left. At an `Err` nothing is known
    // of what was answered.
    fn leave_all(
        &mut self,
        alloc: Global,
        round: &mut Round,
        status: Status,
    ) -> Result<(), AllocError>
        ensures left { OnOk result ((items : ItemsState) → stage round.new self.new items ≡ all_left status (stage round.old self.old items)) }
        ensures none { all_requests (values_of self.old.sessions) ≡ [] → IsOk result }
    {
        let sessions = replace(&mut self.sessions, BTreeMap::new(alloc));
        self.askers = AskerList::new(alloc);
        refuse_sessions(round, alloc, sessions, status)
    }

    /// The server shuts down: all subscriptions are deleted; then the requests that wait are answered, and nothing of any
    /// session is left. At an `Err` nothing is known of what is left.
    #[tactic(auto, unfolding(crate::specs::Ending::shut_down))]
    pub(crate) fn shut_down(&mut self, round: &mut Round, items: &mut Items) -> Result<(), Halt>
        ensures meets { Meets result (stage round.new self.new items.new) (shut_down (stage round.old self.old items.old)) }
        ensures empty { OnOk result (self.new ≡ no_table) }
        ensures none { self.old.subscriptions ≡ [] → all_requests (values_of self.old.sessions) ≡ [] → IsOk result }
    {
        match self.close_all(round, items) {
            Ok(()) => {}
            Err(halt) => return Err(halt),
        }
        self.leave_all(items.allocator(), round, Status::BAD_SHUTDOWN)?;
        Ok(())
    }
}

// The least number.
fn first_number(subscriptions: &BTreeMap<u32, Subscription>) -> Option<u32>
    ensures { result ≡ first_of (keys_of subscriptions.now.entries) }
{
    match subscriptions.first_key_value() {
        None => None,
        Some((number, _)) => Some(*number),
    }
}

// Answers the requests that wait in sessions with a fault.
fn refuse_sessions(
    round: &mut Round,
    alloc: Global,
    sessions: BTreeMap<u32, SessionSubscriptions>,
    status: Status,
) -> Result<(), AllocError>
    ensures refused { OnOk result (round.new ≡ with_replies round.old (map (refused_of round.old.clock status) (all_requests (values_of sessions.entries)))) }
    ensures none { all_requests (values_of sessions.entries) ≡ [] → IsOk result }
{
    for part in sessions.into_values() {
        let mut requests = part.requests;
        refuse_requests(round, alloc, &mut requests, status)?;
    }
    Ok(())
}

// The requests that came by a connection go.
fn drop_requests(requests: &mut Queue<PublishCall>, conn: u64)
    ensures { requests.new ≡ filter (came_by_other conn) requests.old }
{
    requests.items.retain(|call| call.origin.conn != conn);
}

// Those of a session.
fn forget_at(sessions: &mut BTreeMap<u32, SessionSubscriptions>, session: u32, conn: u64)
    ensures { sessions.new.entries ≡ set_value (is_at (nat_cmp session)) sessions.old.entries (part_without_conn conn (part_at session sessions.old.entries)) }
{
    match sessions.get_mut(&session) {
        None => {}
        Some(part) => drop_requests(&mut part.requests, conn),
    }
}

// Those of all sessions with which it stands.
fn forget_conn(
    sessions: &mut BTreeMap<u32, SessionSubscriptions>,
    askers: &mut AskerList,
    conn: u64,
)
    requires { AreAsked sessions.old.entries askers.old }
    ensures sessions { sessions.new.entries ≡ map (entry_without_conn conn) sessions.old.entries }
    ensures asked { AreAsked sessions.new.entries askers.new }
{
    if sessions.len() == 0 {
        return;
    }
    while let Some(session) = askers.take(conn) {
        forget_at(sessions, session, conn);
    }
}

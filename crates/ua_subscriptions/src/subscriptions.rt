//! The subscriptions of a server.

ghost use Rattle.std.specs.Prelude.{◌≡◌, ◌<◌, ◌-◌, ◌^◌, false, [], length, option_map, IfErr, IfOk, OnOk, IsOk, None, Some};
ghost use Rattle.std.specs.Map.{values_of};
ghost use Rattle.ua_subscriptions.specs.Ending.{session_ended, shut_down, all_requests, without_conn};
ghost use Rattle.ua_subscriptions.specs.Making.{kept_at, modified, republished, timed};
ghost use Rattle.ua_subscriptions.specs.Named.{is_own as is_own_spec, named_all, deleted};
ghost use Rattle.ua_subscriptions.specs.Publishing.{published};
ghost use Rattle.ua_subscriptions.specs.Ranks.{is_any_due};
ghost use Rattle.ua_subscriptions.specs.Scenes.{is_overspent};
ghost use Rattle.ua_subscriptions.specs.SubscriptionCalls.{no_subscriptions, round_of, stage_of, settled as settled_spec, Serves, said, without_answer, is_full as is_full_spec, refused, created_one, created};
ghost use Rattle.ua_subscriptions.specs.Tables.{no_table, met, subscription_at, vars_found, kept_found};
ghost use Rattle.ua_subscriptions.specs.declared.call.Call.TheVariants.{Items as ItemsCall, SetMode};
ghost use Rattle.ua_views.specs.Views.{or_none};

use crate::answered::Answered;
use crate::call::Call;
use crate::making::{Creation, Revised};
use crate::publish_call::PublishCall;
use crate::requester::Requester;
use crate::round::Round;
use crate::settings::{Bounds, Settings};
use crate::table::LiveSubscriptions;
use bytes::Bytes;
use collections::ShortList;
use server_messages::Halt;
use std::alloc::{AllocError, Global};
use std::marker::Model;
use ua_monitored_items::Items;
use ua_state_table::Vars;
use ua_subscription_messages::{SubscriptionAcknowledgement, SubscriptionId};
use ua_types::{Config, Listed, Moment, Status};
use ua_views::ArrayView;

/// A subscription that was made.
#[derive(Clone, Copy, Debug, PartialEq, Eq, Drop)]
pub struct Created {
    /// Its number, counted from 1 over the server and never used again.
    pub number: u32,
    /// Its counts as the server allows them.
    pub revised: Revised,
}

/// The subscriptions of a server: those that live, the Publish requests that wait for them, and the notes of those that
/// timed out.
///
/// Each call says which rows of the state table fired ([`ua_state_table`]) and what is answered to Publish requests by that. It
/// is lent the server's monitored items, whose values the messages take.
///
/// `Memory` comes only where an allocation failed, and `Exhausted` only where the messages can't be counted in 64 bits.
/// After either each call that has an error answers it for good, and nothing is known of the subscriptions and items.
#[derive(Debug, Drop)]
pub struct Subscriptions {
    bounds: Bounds,
    // What ended it.
    halted: Option<Halt>,
    // The number of the last subscription that was made, 0 before the first.
    made: u32,
    // How many messages were sent.
    message_count: u64,
    table: LiveSubscriptions,
}

impl Model for Subscriptions {
    ghost use Rattle.ua_subscriptions.specs.SubscriptionCalls.{SubscriptionsState};

    ghost Value = { SubscriptionsState };

    ghost view = { λ s. record { bounds = s.bounds; halted = s.halted; made = s.made; message_count = s.message_count; table = s.table } };
}

impl Subscriptions {
    /// No subscription yet, under this configuration. Takes no memory.
    pub fn new(alloc: Global, config: &Config) -> Subscriptions
        ensures { result ≡ no_subscriptions config.now }
    {
        Subscriptions {
            bounds: Bounds::new(config),
            halted: None,
            made: 0,
            message_count: 0,
            table: LiveSubscriptions::new(alloc),
        }
    }

    // What rows are done with at this clock, unless an earlier call ended all.
    fn begin(&self, items: &Items, clock: Moment) -> Result<Round, Halt>
        ensures round { IfOk result (λ round. round ≡ round_of self.now clock) }
        ensures going { OnOk result (self.now.halted ≡ None) }
        ensures halted { IfErr result (λ halt. self.now.halted ≡ Some halt) }
    {
        if let Some(halt) = self.halted {
            return Err(halt);
        }
        let alloc = items.allocator();
        Ok(Round {
            bounds: self.bounds,
            clock,
            own: SubscriptionId(0),
            call: Call::Timer,
            asked: None,
            message_count: self.message_count,
            replies: ShortList::new(alloc),
            rows: Listed::new(alloc),
        })
    }

    // Ends a call.
    fn settle<T: Drop>(
        &mut self,
        round: Round,
        answer: Result<T, Halt>,
    ) -> Result<Answered<T>, Halt>
        ensures settled { record { result = result; state = self.new } ≡ settled_spec self.old round answer }
        ensures counted { is_overspent round ≡ false }
    {
        match answer {
            Ok(answer) => {
                self.message_count = round.message_count;
                Ok(Answered {
                    answer,
                    replies: round.replies,
                    rows: round.rows,
                })
            }
            Err(halt) => {
                self.halted = Some(halt);
                Err(halt)
            }
        }
    }

    /// How many subscriptions live, those whose sessions ended among them.
    pub fn len(&self) -> usize
        ensures { result ≡ length self.now.table.subscriptions }
    {
        self.table.len()
    }

    // Whether no subscription can be made for a session.
    fn is_full(&self, session: u32) -> bool
        ensures full { result ≡ is_full_spec self.now session }
        ensures room { result ≡ false → self.now.made < 2 ^ 32 - 1 }
    {
        self.table.count(session) >= self.bounds.subscriptions as usize
            || self.len() >= self.bounds.subscriptions_in_all as usize
            || self.made == u32::MAX
    }

    // Refuses a subscription.
    #[tactic(auto, unfolding(crate::specs::SubscriptionCalls::refused))]
    fn refuse(
        &mut self,
        items: &mut Items,
        requester: Requester,
        settings: Settings,
        enabled: bool,
    ) -> Result<Answered<Result<Created, Status>>, Halt>
        ensures { Serves result self.old self.new items.new (refused requester.session settings enabled self.old (stage_of self.old items.old requester.clock)) }
    {
        let mut round = self.begin(items, requester.clock)?;
        let creation = Creation { settings, enabled };
        let table = &self.table;
        match table.refuse(&mut round, items, requester.session, creation) {
            Ok(()) => self.settle(round, Ok(Err(Status::BAD_TOO_MANY_SUBSCRIPTIONS))),
            Err(halt) => self.settle(round, Err(halt)),
        }
    }

    // Makes a subscription under the next number.
    #[tactic(auto, unfolding(crate::specs::SubscriptionCalls::created_one))]
    fn add(
        &mut self,
        items: &mut Items,
        requester: Requester,
        settings: Settings,
        enabled: bool,
    ) -> Result<Answered<Result<Created, Status>>, Halt>
        requires { self.old.made < 2 ^ 32 - 1 }
        ensures { Serves result self.old self.new items.new (created_one requester.session settings enabled self.old (stage_of self.old items.old requester.clock)) }
    {
        let mut round = self.begin(items, requester.clock)?;
        let number = self.made + 1;
        self.made = number;
        let named = requester.naming(SubscriptionId(number));
        let creation = Creation { settings, enabled };
        match self.table.add(&mut round, items, named, creation) {
            Ok(()) => {
                let revised = Revised::new(settings);
                self.settle(round, Ok(Ok(Created { number, revised })))
            }
            Err(halt) => self.settle(round, Err(halt)),
        }
    }

    /// Makes a subscription of a session (CreateSubscription, IEC 62541-4, section 5, Subscription Service Set).
    ///
    /// `BAD_TOO_MANY_SUBSCRIPTIONS` where the session or the server has as many as the configuration allows, or the numbers are
    /// used up.
    #[tactic(auto, unfolding(crate::specs::SubscriptionCalls::created))]
    pub fn create(
        &mut self,
        items: &mut Items,
        requester: Requester,
        settings: Settings,
        enabled: bool,
    ) -> Result<Answered<Result<Created, Status>>, Halt>
        ensures { Serves result self.old self.new items.new (created requester.session settings enabled self.old items.old requester.clock) }
    {
        if self.is_full(requester.session) {
            self.refuse(items, requester, settings, enabled)
        } else {
            self.add(items, requester, settings, enabled)
        }
    }

    /// Gives a subscription of a session other counts, another size of messages and another priority (ModifySubscription,
    /// IEC 62541-4, section 5, Subscription Service Set).
    ///
    /// `BAD_SUBSCRIPTION_ID_INVALID` where the session has no such subscription.
    pub fn modify(
        &mut self,
        items: &mut Items,
        requester: Requester,
        subscription: SubscriptionId,
        settings: Settings,
    ) -> Result<Answered<Result<Revised, Status>>, Halt>
        ensures serves { Serves result self.old self.new items.new (said self.old (modified requester.session subscription settings (stage_of self.old items.old requester.clock))) }
        ensures memory { self.old.halted ≡ None → is_own_spec self.old.table requester.session subscription ≡ false → IsOk result }
    {
        let mut round = self.begin(items, requester.clock)?;
        let named = requester.naming(subscription);
        let answer = self.table.modify(&mut round, items, named, settings);
        self.settle(round, answer)
    }

    /// Switches the notifications of subscriptions of a session on or off, one after the other (SetPublishingMode,
    /// IEC 62541-4, section 5, Subscription Service Set).
    ///
    /// Tells of each whether it is the session's: `GOOD` or `BAD_SUBSCRIPTION_ID_INVALID`.
    pub fn set_mode(
        &mut self,
        items: &mut Items,
        requester: Requester,
        numbers: ArrayView<'_, u32>,
        enabled: bool,
    ) -> Result<Answered<Listed<Status>>, Halt>
        ensures { Serves result self.old self.new items.new (said self.old (named_all requester.session (SetMode enabled) (stage_of self.old items.old requester.clock) (or_none numbers.entry))) }
    {
        let mut round = self.begin(items, requester.clock)?;
        let call = Call::SetMode { enabled };
        let answer = self
            .table
            .fire_named(&mut round, items, requester.session, numbers, call);
        self.settle(round, answer)
    }

    /// Deletes subscriptions of a session, one after the other, with their items (DeleteSubscriptions, IEC 62541-4,
    /// section 5, Subscription Service Set).
    ///
    /// Tells of each whether it is the session's: `GOOD` or `BAD_SUBSCRIPTION_ID_INVALID`. Where the session has none left,
    /// its Publish requests that wait are answered `BAD_NO_SUBSCRIPTION`, after the answer to the call.
    pub fn delete(
        &mut self,
        items: &mut Items,
        requester: Requester,
        numbers: ArrayView<'_, u32>,
    ) -> Result<Answered<Listed<Status>>, Halt>
        ensures { Serves result self.old self.new items.new (said self.old (deleted requester.session (stage_of self.old items.old requester.clock) (or_none numbers.entry))) }
    {
        let mut round = self.begin(items, requester.clock)?;
        let answer = self
            .table
            .delete(&mut round, items, requester.session, numbers);
        self.settle(round, answer)
    }

    /// Takes a Publish request (IEC 62541-4, section 5, Subscription Service Set), which comes without results: they are
    /// made of its acknowledgements.
    ///
    /// It is answered at once where a subscription timed out of which the session wasn't told, where there is no
    /// subscription (`BAD_NO_SUBSCRIPTION`), or where one waits for it; else it waits. Where more wait than may, the oldest
    /// is answered `BAD_TOO_MANY_PUBLISH_REQUESTS`.
    pub fn publish(
        &mut self,
        items: &mut Items,
        requester: Requester,
        call: PublishCall,
        acknowledgements: ArrayView<'_, SubscriptionAcknowledgement>,
    ) -> Result<Answered<()>, Halt>
        ensures { Serves result self.old self.new items.new (without_answer self.old (published requester.session call (or_none acknowledgements.entry) (stage_of self.old items.old requester.clock))) }
    {
        let mut round = self.begin(items, requester.clock)?;
        let answer = self.table.publish(
            &mut round,
            items,
            requester.session,
            call,
            acknowledgements,
        );
        self.settle(round, answer)
    }

    /// Gives a message of a subscription of a session again, as it was first sent (Republish, IEC 62541-4, section 5,
    /// Subscription Service Set). Of two with that number it is the older.
    ///
    /// `BAD_SUBSCRIPTION_ID_INVALID` where the session has no such subscription, `BAD_MESSAGE_NOT_AVAILABLE` where the
    /// message isn't kept.
    pub fn republish(
        &mut self,
        items: &mut Items,
        requester: Requester,
        subscription: SubscriptionId,
        wanted: u32,
    ) -> Result<Answered<Result<Bytes, Status>>, Halt>
        ensures serves { Serves result self.old self.new items.new (said self.old (republished requester.session subscription wanted (stage_of self.old items.old requester.clock))) }
        ensures memory { self.old.halted ≡ None → is_own_spec self.old.table requester.session subscription ≡ false → IsOk result }
    {
        let mut round = self.begin(items, requester.clock)?;
        let named = requester.naming(subscription);
        let answer = self.table.republish(&mut round, items, named, wanted);
        self.settle(round, answer)
    }

    /// The timers of all subscriptions that are due at this clock, the best subscription first. Takes no memory where none
    /// is due.
    pub fn timers(&mut self, items: &mut Items, clock: Moment) -> Result<Answered<()>, Halt>
        ensures serves { Serves result self.old self.new items.new (without_answer self.old (timed (stage_of self.old items.old clock))) }
        ensures none { self.old.halted ≡ None → is_any_due clock self.old.table.subscriptions ≡ false → IsOk result }
    {
        let mut round = self.begin(items, clock)?;
        let answer = self.table.timers(&mut round, items);
        self.settle(round, answer)
    }

    /// A session ends. Its subscriptions are deleted with it, or left to their lifetime; its Publish requests that wait are
    /// answered `BAD_SESSION_CLOSED`, and it is told of no time-out any more.
    pub fn session_end(
        &mut self,
        items: &mut Items,
        clock: Moment,
        session: u32,
        deleting: bool,
    ) -> Result<Answered<()>, Halt>
        ensures { Serves result self.old self.new items.new (without_answer self.old (session_ended session deleting (stage_of self.old items.old clock))) }
    {
        let mut round = self.begin(items, clock)?;
        let answer = self.table.end_session(&mut round, items, session, deleting);
        self.settle(round, answer)
    }

    /// The server shuts down. Each subscription is deleted, whether it has a session or none, the least number first; then
    /// the Publish requests that wait are answered `BAD_SHUTDOWN`, by the rising number of their sessions, the oldest of each
    /// first. Nothing is left: no subscription, and no session with a request or a note. Takes no memory where no subscription
    /// lives and no request waits.
    pub fn shut_down(&mut self, items: &mut Items, clock: Moment) -> Result<Answered<()>, Halt>
        ensures serves { Serves result self.old self.new items.new (without_answer self.old (shut_down (stage_of self.old items.old clock))) }
        ensures empty { OnOk result (self.new.table ≡ no_table) }
        ensures none { self.old.halted ≡ None → self.old.table.subscriptions ≡ [] → all_requests (values_of self.old.table.sessions) ≡ [] → IsOk result }
    {
        let mut round = self.begin(items, clock)?;
        let answer = self.table.shut_down(&mut round, items);
        self.settle(round, answer)
    }

    /// The items of this subscription were created, changed or deleted, or their mode was set. `before`: what
    /// [`Subscriptions::vars`] gave before that.
    pub fn items(
        &mut self,
        items: &mut Items,
        clock: Moment,
        subscription: SubscriptionId,
        before: Vars,
    ) -> Result<Answered<()>, Halt>
        ensures serves { Serves result self.old self.new items.new (without_answer self.old (met (stage_of self.old items.old clock) subscription (ItemsCall before))) }
        ensures memory { self.old.halted ≡ None → subscription_at subscription self.old.table.subscriptions ≡ None → IsOk result }
    {
        let mut round = self.begin(items, clock)?;
        let call = Call::Items { before };
        let answer = self.table.fire_one(&mut round, items, subscription, call);
        self.settle(round, answer)
    }

    /// A connection is closed or gone: the Publish requests that came by it wait no more. No row fires. Takes no memory.
    pub fn gone(&mut self, conn: u64)
        ensures { self.new ≡ record self.old { table = without_conn conn self.old.table } }
    {
        self.table.gone(conn);
    }

    /// Whether this is the number of a live subscription of this session.
    pub fn is_own(&self, session: u32, subscription: SubscriptionId) -> bool
        ensures { result ≡ is_own_spec self.now.table session subscription }
    {
        self.table.is_own(session, subscription)
    }

    /// The variables of a subscription, or None where there is none with this number. Takes no memory.
    pub fn vars(&self, subscription: SubscriptionId, items: &Items) -> Option<Vars>
        ensures { result ≡ vars_found subscription items.now self.now.table }
    {
        self.table.vars(subscription, items)
    }

    /// The numbers of the messages that a subscription keeps, in the order in which they were sent; none where there is no
    /// such subscription.
    pub fn kept_numbers(
        &self,
        alloc: Global,
        subscription: SubscriptionId,
    ) -> Result<Vec<u32>, AllocError>
        ensures { IfOk result (λ numbers. numbers.items ≡ kept_found subscription self.now.table) }
    {
        self.table.kept_numbers(alloc, subscription)
    }

    /// The message of a subscription with this number, as it was first sent, if it is kept. Takes no memory.
    pub fn kept(&self, subscription: SubscriptionId, wanted: u32) -> Option<&[u8]>
        ensures { option_map (λ bytes. bytes.now) result ≡ kept_at subscription wanted self.now.table }
    {
        self.table.kept(subscription, wanted)
    }
}

//! Subscriptions that are made, changed, asked for a message again, or whose timer comes.

ghost use Rattle.std.specs.Prelude.{◌≡◌, false, length, option_map, IfOk, IsOk};
ghost use Rattle.ua_subscriptions.specs.declared.call.Call.TheVariants.{Create};
ghost use Rattle.ua_subscriptions.specs.Making.{revised_of, refused_one, added, modified, republished, timed, kept_at};
ghost use Rattle.ua_subscriptions.specs.Named.{Comes, is_own as is_own_spec};
ghost use Rattle.ua_subscriptions.specs.Tables.{stage, Meets, part_at};
ghost use Rattle.ua_subscriptions.specs.Ranks.{is_any_due};

use crate::asking::fire_of;
use crate::call::Call;
use crate::firing::fire;
use crate::listing::insert_at;
use crate::named::Named;
use crate::round::Round;
use crate::session_part::SessionSubscriptions;
use crate::settings::{Settings, revised_keep_alive_count, revised_lifetime_count};
use crate::subscription::Subscription;
use crate::table::LiveSubscriptions;
use bytes::Bytes;
use server_messages::Halt;
use std::alloc::AllocError;
use ua_monitored_items::Items;
use ua_subscription_messages::SubscriptionId;
use ua_types::Status;

/// The counts of a subscription as the server allows them (the revised counts of CreateSubscription and
/// ModifySubscription, IEC 62541-4, section 5, Subscription Service Set).
#[derive(Clone, Copy, Debug, PartialEq, Eq, Drop)]
pub struct Revised {
    /// The keep-alive count, from 2 to 65535.
    pub keep_alive_count: u32,
    /// The lifetime count, from three times the keep-alive count to 196605.
    pub lifetime_count: u32,
}

impl Revised {
    /// Those for what is asked.
    pub fn new(settings: Settings) -> Revised
        ensures { result ≡ revised_of settings }
    {
        let keep_alive_count = revised_keep_alive_count(settings.keep_alive_count);
        Revised {
            keep_alive_count,
            lifetime_count: revised_lifetime_count(keep_alive_count, settings.lifetime_count),
        }
    }
}

/// What is asked of a subscription that is to begin.
#[derive(Clone, Copy, Debug)]
pub(crate) struct Creation {
    /// Its counts, its messages' size and its priority.
    pub settings: Settings,
    /// Whether its notifications are on.
    pub enabled: bool,
}

impl Creation {
    // What comes to it.
    fn call(self, full: bool) -> Call
        ensures { result ≡ Create full self.settings self.enabled }
    {
        let Creation { settings, enabled } = self;
        Call::Create {
            full,
            settings,
            enabled,
        }
    }
}

impl LiveSubscriptions {
    /// How many subscriptions live.
    pub(crate) fn len(&self) -> usize
        ensures { result ≡ length self.now.subscriptions }
    {
        self.subscriptions.len()
    }

    /// How many live subscriptions a session has.
    pub(crate) fn count(&self, session: u32) -> usize
        ensures { result ≡ length (part_at session self.now.sessions).numbers }
    {
        match self.sessions.get(&session) {
            None => 0,
            Some(part) => part.numbers.len(),
        }
    }

    /// A subscription is refused, since its session or the server has as many as it may have: only the row is told. At an `Err` nothing
    /// is known of what is left.
    #[tactic(auto, unfolding(crate::specs::Making::refused_one))]
    pub(crate) fn refuse(
        &self,
        round: &mut Round,
        items: &mut Items,
        session: u32,
        creation: Creation,
    ) -> Result<(), Halt>
        ensures { Meets result (stage round.new self.now items.new) (refused_one session creation.settings creation.enabled (stage round.old self.now items.old)) }
    {
        let alloc = items.allocator();
        round.own = SubscriptionId(0);
        round.call = creation.call(true);
        let mut subscription = Subscription::unborn(alloc, session);
        fire(
            round,
            &mut subscription,
            &mut SessionSubscriptions::new(alloc),
            items,
        )
    }

    /// A subscription of a session begins under this number. At an `Err` nothing is known of what is left.
    #[tactic(auto, unfolding(crate::specs::Making::added))]
    pub(crate) fn add(
        &mut self,
        round: &mut Round,
        items: &mut Items,
        named: Named,
        creation: Creation,
    ) -> Result<(), Halt>
        ensures { Meets result (stage round.new self.new items.new) (added named.session named.subscription creation.settings creation.enabled (stage round.old self.old items.old)) }
    {
        let Named {
            session,
            subscription: number,
        } = named;
        let alloc = items.allocator();
        round.own = number;
        round.call = creation.call(false);
        let mut part = match self.sessions.remove(&session) {
            Some(part) => part,
            None => SessionSubscriptions::new(alloc),
        };
        let mut subscription = Subscription::unborn(alloc, session);
        let askers = &mut self.askers;
        fire_of(round, &mut subscription, session, &mut part, askers, items)?;
        part.numbers.insert(number.0)?;
        self.sessions.insert(session, part)?;
        insert_at(
            &mut self.subscriptions,
            &mut self.dues,
            number.0,
            subscription,
        )?;
        Ok(())
    }

    /// ModifySubscription. At an `Err` nothing is known of what is left.
    #[tactic(auto, unfolding(crate::specs::Making::modified))]
    pub(crate) fn modify(
        &mut self,
        round: &mut Round,
        items: &mut Items,
        named: Named,
        settings: Settings,
    ) -> Result<Result<Revised, Status>, Halt>
        ensures comes { Comes result (stage round.new self.new items.new) (modified named.session named.subscription settings (stage round.old self.old items.old)) }
        ensures memory { is_own_spec self.old named.session named.subscription ≡ false → IsOk result }
    {
        if !self.is_own(named.session, named.subscription) {
            return Ok(Err(Status::BAD_SUBSCRIPTION_ID_INVALID));
        }
        let call = Call::Modify { settings };
        self.fire_one(round, items, named.subscription, call)?;
        Ok(Ok(Revised::new(settings)))
    }

    /// Republish: the message with this number, if it is kept. At an `Err` nothing is known of what is left.
    #[tactic(auto, unfolding(crate::specs::Making::republished))]
    pub(crate) fn republish(
        &mut self,
        round: &mut Round,
        items: &mut Items,
        named: Named,
        wanted: u32,
    ) -> Result<Result<Bytes, Status>, Halt>
        ensures comes { Comes result (stage round.new self.new items.new) (republished named.session named.subscription wanted (stage round.old self.old items.old)) }
        ensures memory { is_own_spec self.old named.session named.subscription ≡ false → IsOk result }
    {
        if !self.is_own(named.session, named.subscription) {
            return Ok(Err(Status::BAD_SUBSCRIPTION_ID_INVALID));
        }
        let bytes = self.kept_bytes(named.subscription, wanted)?;
        let kept = bytes.is_some();
        let call = Call::Republish { kept };
        self.fire_one(round, items, named.subscription, call)?;
        Ok(bytes.ok_or(Status::BAD_MESSAGE_NOT_AVAILABLE))
    }

    /// The timers that are due, the best subscription first. Takes no memory where none is. At an `Err` nothing is known
    /// of what is left.
    #[tactic(auto, using(crate::proofs::Dues::none_due))]
    pub(crate) fn timers(&mut self, round: &mut Round, items: &mut Items) -> Result<(), Halt>
        ensures timed { Meets result (stage round.new self.new items.new) (timed (stage round.old self.old items.old)) }
        ensures none { is_any_due round.old.clock self.old.subscriptions ≡ false → IsOk result }
    {
        let numbers = self.due(items.allocator(), round.clock)?;
        if numbers.is_empty() {
            return Ok(());
        }
        self.fire_all(round, items, numbers.as_slice(), Call::Timer)
    }

    /// The message of a subscription with this number, as it was first sent, if it is kept.
    pub(crate) fn kept(&self, number: SubscriptionId, wanted: u32) -> Option<&[u8]>
        ensures { option_map (λ bytes. bytes.now) result ≡ kept_at number wanted self.now }
    {
        let subscription = self.subscriptions.get(&number.0)?;
        let message = subscription.kept.find(wanted)?;
        Some(message.bytes.as_slice())
    }

    // A share of it.
    fn kept_bytes(&self, number: SubscriptionId, wanted: u32) -> Result<Option<Bytes>, AllocError>
        ensures { IfOk result (λ bytes. bytes ≡ kept_at number wanted self.now) }
    {
        let Some(subscription) = self.subscriptions.get(&number.0) else {
            return Ok(None);
        };
        match subscription.kept.find(wanted) {
            None => Ok(None),
            Some(message) => Ok(Some(message.bytes.clone()?)),
        }
    }
}

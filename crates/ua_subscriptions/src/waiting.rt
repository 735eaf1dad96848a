//! Which subscriptions wait, or are due.

ghost use Rattle.std.specs.Prelude.{◌≡◌, false, List, IfOk, IsOk};
ghost use Rattle.std.specs.BTreeMap.{IsOrdered};
ghost use Rattle.std.specs.BTreeSet.{IsOrdered as IsOrderedSet};
ghost use Rattle.std.specs.Ordering.{nat_cmp};
ghost use Rattle.ua_subscriptions.specs.DueLists.{AreListed, rank_by, ranks_at};
ghost use Rattle.ua_subscriptions.specs.Queues.{first_of};
ghost use Rattle.ua_subscriptions.specs.Ranks.{is_waiting as is_waiting_spec, waiting_by, with_rank, waiting_of as waiting_of_spec, due_of as due_of_spec, due_numbers, is_any_due as is_any_due_spec};
ghost use Rattle.ua_subscriptions.specs.declared.ranks.Rank.{Rank as RankLem};
ghost use Rattle.ua_subscriptions.specs.Tables.{part_at, subscription_at};

use crate::due_list::DueList;
use crate::ranks::{Rank, Ranks};
use crate::subscription::Subscription;
use crate::table::LiveSubscriptions;
use std::alloc::{AllocError, Global};
use std::collections::{BTreeMap, BTreeSet};
use ua_state_table::State;
use ua_types::Moment;

// Whether it waits for a request.
fn is_waiting(subscription: &Subscription) -> bool
    ensures { result ≡ is_waiting_spec subscription.now }
{
    match subscription.state {
        State::Late => true,
        State::Normal => subscription.enabled && subscription.more,
        State::KeepAlive | State::Closed => false,
    }
}

// The rank of the one with this number, if it waits.
#[tactic(auto, unfolding(crate::specs::Ranks::waiting_by))]
fn waiting_rank(subscriptions: &BTreeMap<u32, Subscription>, number: u32) -> Option<Rank>
    ensures { result ≡ waiting_by number (subscription_at number subscriptions.now.entries) }
{
    match subscriptions.get(&number) {
        Some(subscription) if is_waiting(subscription) => Some(Rank::new(number, subscription)),
        _ => None,
    }
}

// The one that comes first, of the first of some ranks and a further one.
#[tactic(auto, unfolding(crate::specs::Ranks::with_rank))]
fn better(best: Option<Rank>, rank: Option<Rank>) -> Option<Rank>
    ensures { (ranks : List RankLem) → best ≡ first_of ranks → result ≡ first_of (with_rank ranks rank) }
{
    let Some(rank) = rank else {
        return best;
    };
    match best {
        Some(best) if best < rank => Some(best),
        _ => Some(rank),
    }
}

// The best of those that wait among these numbers.
fn best_of(subscriptions: &BTreeMap<u32, Subscription>, numbers: &[u32]) -> Option<Rank>
    ensures { result ≡ first_of (waiting_of_spec subscriptions.now.entries numbers.now) }
{
    let mut best = None;
    for number in numbers {
        best = better(best, waiting_rank(subscriptions, *number));
    }
    best
}

// Whether there is one whose timer is due. It looks at the list's first alone.
fn is_any_due(subscriptions: &BTreeMap<u32, Subscription>, dues: &DueList, clock: Moment) -> bool
    requires { AreListed subscriptions.now.entries dues.now }
    ensures any { result ≡ is_any_due_spec clock subscriptions.now.entries }
    ensures ordered { IsOrdered nat_cmp subscriptions.now }
{
    if subscriptions.len() == 0 {
        return false;
    }
    dues.is_any_due(clock)
}

// The rank of the one with this number, if it is there.
#[tactic(auto, unfolding(crate::specs::DueLists::rank_by))]
fn rank_at(subscriptions: &BTreeMap<u32, Subscription>, number: u32) -> Option<Rank>
    ensures { result ≡ rank_by number (subscription_at number subscriptions.now.entries) }
{
    match subscriptions.get(&number) {
        None => None,
        Some(subscription) => Some(Rank::new(number, subscription)),
    }
}

// The ranks of those with these numbers.
fn ranks_of(
    alloc: Global,
    subscriptions: &BTreeMap<u32, Subscription>,
    numbers: &BTreeSet<u32>,
) -> Result<Ranks, AllocError>
    ensures ranks { IfOk result (λ ranks. ranks ≡ ranks_at subscriptions.now.entries numbers.now.keys) }
    ensures ordered { IsOrderedSet nat_cmp numbers.now }
{
    let mut ranks = Ranks::new(alloc);
    for number in numbers {
        ranks.insert(rank_at(subscriptions, *number))?;
    }
    Ok(ranks)
}

// The ranks of those whose timer is due. It looks at these alone.
fn due_of(
    alloc: Global,
    subscriptions: &BTreeMap<u32, Subscription>,
    dues: &DueList,
    clock: Moment,
) -> Result<Ranks, AllocError>
    requires listed { AreListed subscriptions.now.entries dues.now }
    requires ordered { IsOrdered nat_cmp subscriptions.now }
    ensures { IfOk result (λ ranks. ranks ≡ due_of_spec clock subscriptions.now.entries) }
{
    let numbers = dues.due(alloc, clock)?;
    ranks_of(alloc, subscriptions, &numbers)
}

impl LiveSubscriptions {
    /// The numbers of a session's live subscriptions, rising.
    pub(crate) fn numbers(&self, alloc: Global, session: u32) -> Result<Vec<u32>, AllocError>
        ensures { IfOk result (λ numbers. numbers.items ≡ (part_at session self.now.sessions).numbers) }
    {
        match self.sessions.get(&session) {
            None => Ok(Vec::new(alloc)),
            Some(part) => part.numbers.to_vec(alloc),
        }
    }

    /// The best of those that wait among these numbers. Takes no memory.
    pub(crate) fn best_waiting(&self, numbers: &[u32]) -> Option<Rank>
        ensures { result ≡ first_of (waiting_of_spec self.now.subscriptions numbers.now) }
    {
        best_of(&self.subscriptions, numbers)
    }

    /// The numbers of those whose timer is due, the best first. Takes no memory where there is none.
    #[tactic(auto, using(crate::proofs::Dues::none_due))]
    pub(crate) fn due(&self, alloc: Global, clock: Moment) -> Result<Vec<u32>, AllocError>
        ensures numbers { IfOk result (λ numbers. numbers.items ≡ due_numbers clock self.now.subscriptions) }
        ensures none { is_any_due_spec clock self.now.subscriptions ≡ false → IsOk result }
    {
        if !is_any_due(&self.subscriptions, &self.dues, clock) {
            return Ok(Vec::new(alloc));
        }
        let ranks = due_of(alloc, &self.subscriptions, &self.dues, clock)?;
        ranks.numbers(alloc)
    }
}

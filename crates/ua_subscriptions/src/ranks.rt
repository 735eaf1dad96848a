//! Which subscription comes first.

ghost use Rattle.std.specs.Prelude.{◌≡◌, [], map, OnOk, IfOk};
ghost use Rattle.ua_subscriptions.specs.Ranks.{rank_of, with_rank, number_of};

use crate::subscription::Subscription;
use std::alloc::{AllocError, Global};
use std::cmp::Reverse;
use std::collections::BTreeSet;
use std::marker::Model;

/// The place of a subscription among those that wait, or are due: the least comes first. It has the highest priority;
/// among equals the least recent message, none at all before any; among those the least number.
#[derive(Clone, Copy, Debug, PartialEq, Eq, PartialOrd, Ord, Drop)]
pub struct Rank {
    /// The priority that its client asked for.
    pub priority: Reverse<u8>,
    /// How many messages the server had sent once it sent its last one, 0 before the first.
    pub message_count: u64,
    /// Its number.
    pub number: u32,
}

impl Rank {
    /// That of the subscription with this number.
    pub(crate) fn new(number: u32, subscription: &Subscription) -> Rank
        ensures { result ≡ rank_of number subscription.now }
    {
        Rank {
            priority: Reverse(subscription.priority),
            message_count: subscription.message_count,
            number,
        }
    }
}

/// Ranks in their order. Contracts see the list.
#[derive(Debug, Drop)]
pub struct Ranks {
    keys: BTreeSet<Rank>,
}

impl Model for Ranks {
    ghost use Rattle.std.specs.Prelude.{List};
    ghost use Rattle.ua_subscriptions.specs.declared.ranks.Rank.{Rank as RankLem};

    ghost Value = { List RankLem };

    ghost view = { λ r. r.keys.keys };
}

impl Ranks {
    /// None. Takes no memory.
    pub(crate) fn new(alloc: Global) -> Ranks
        ensures { result ≡ [] }
    {
        Ranks {
            keys: BTreeSet::new(alloc),
        }
    }

    /// One more, if there is one, at its place.
    #[tactic(auto, unfolding(crate::specs::Ranks::with_rank))]
    pub(crate) fn insert(&mut self, rank: Option<Rank>) -> Result<(), AllocError>
        ensures { OnOk result (self.new ≡ with_rank self.old rank) }
    {
        if let Some(rank) = rank {
            self.keys.insert(rank)?;
        }
        Ok(())
    }

    /// The numbers of the subscriptions, in the order of their ranks.
    pub(crate) fn numbers(&self, alloc: Global) -> Result<Vec<u32>, AllocError>
        ensures { IfOk result (λ numbers. numbers.items ≡ map number_of self.now) }
    {
        let mut numbers = Vec::new(alloc);
        for rank in &self.keys {
            numbers.push(rank.number)?;
        }
        Ok(numbers)
    }
}

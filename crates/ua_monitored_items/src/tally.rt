//! How many of each subscription's items have a value to send, as items change.

ghost use Rattle.std.specs.Prelude.{◌≡◌, ℕ, OnOk, OnErr};
ghost use Rattle.std.specs.BTreeMap as tree;
ghost use Rattle.std.specs.Ordering.{nat_cmp};
ghost use Rattle.ua_monitored_items.specs.Counts.{AreRecounted, AreRecountedBy, CanCount, CanCountBy, AreHeld, AreSame, counts_with};

use std::alloc::AllocError;
use std::collections::BTreeMap;
use ua_subscription_messages::SubscriptionId;

/// Of an item that is put in, changed or taken out: whether it had a value to send before, and has one now.
#[derive(Clone, Copy)]
pub struct Recount {
    /// The number of its subscription.
    pub subscription: u32,
    pub had: bool,
    pub has: bool,
}

/// The count of one subscription, which is kept beside the others while its items change one after the other. So it is
/// looked for once, and not at each of them.
#[derive(Clone, Copy)]
pub struct Tally {
    pub subscription: u32,
    /// How many of its items have a value to send.
    pub waiting: usize,
}

/// A subscription has a count from now on. At an `Err` nothing changed.
pub(crate) fn hold(
    counts: &mut BTreeMap<u32, usize>,
    subscription: SubscriptionId,
) -> Result<(), AllocError>
    ensures ok { OnOk result (AreHeld counts.old counts.new subscription) }
    ensures err { OnErr result (AreSame counts.old counts.new) }
{
    if counts.get(&subscription.0).is_some() {
        return Ok(());
    }
    match counts.insert(subscription.0, 0) {
        Ok(_) => Ok(()),
        Err(_) => Err(AllocError),
    }
}

/// The count of a subscription follows one of its items; it is at most that number. It is looked for only where it changes.
/// Takes no memory.
#[tactic(auto, using(crate::proofs::Counting::counted_alike))]
pub(crate) fn count(counts: &mut BTreeMap<u32, usize>, recount: Recount, most: usize)
    requires { CanCount counts.old recount most }
    ensures { AreRecounted counts.old counts.new recount }
{
    if recount.had == recount.has {
        return;
    }
    if let Some(count) = counts.get_mut(&recount.subscription) {
        *count = *count - usize::from(recount.had) + usize::from(recount.has);
    }
}

impl Tally {
    /// The count of a subscription, or none.
    pub(crate) fn of(counts: &BTreeMap<u32, usize>, subscription: SubscriptionId) -> Tally
        ensures { (q : ℕ) → counts_with counts.now result q ≡ tree.get nat_cmp counts.now q }
    {
        let waiting = match counts.get(&subscription.0) {
            None => 0,
            Some(count) => *count,
        };
        Tally {
            subscription: subscription.0,
            waiting,
        }
    }

    /// The counts follow an item, as [`count`] does. Takes no memory.
    pub(crate) fn follow(
        &mut self,
        counts: &mut BTreeMap<u32, usize>,
        recount: Recount,
        most: usize,
    )
        requires { CanCountBy (counts_with counts.old self.old) recount most }
        ensures { AreRecountedBy (counts_with counts.old self.old) (counts_with counts.new self.new) recount }
    {
        if recount.subscription != self.subscription {
            count(counts, recount, most);
        } else if recount.has {
            if !recount.had {
                self.waiting = self.waiting.saturating_add(1);
            }
        } else if recount.had {
            self.waiting = self.waiting.saturating_sub(1);
        }
    }

    /// Takes its place among the others again. Takes no memory.
    pub(crate) fn put_back(self, counts: &mut BTreeMap<u32, usize>)
        ensures { (q : ℕ) → tree.get nat_cmp counts.new q ≡ counts_with counts.old self q }
    {
        if let Some(count) = counts.get_mut(&self.subscription) {
            *count = self.waiting;
        }
    }
}

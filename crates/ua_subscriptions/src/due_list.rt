//! When the timers of subscriptions are due: moments in their order.

ghost use Rattle.std.specs.Prelude.{◌≡◌, ℕ, [], true, false, if◌then◌else◌, OnOk, OnErr, IfOk};
ghost use Rattle.std.specs.BTreeMap.{is_at};
ghost use Rattle.std.specs.BTreeSet.{contains};
ghost use Rattle.std.specs.Ordering.{nat_cmp};
ghost use Rattle.ua_subscriptions.specs.declared.due_list.Due.{Due as DueLem};
ghost use Rattle.ua_subscriptions.specs.DueLists.{due_at, due_cmp, has_due, has_moved, any_past, past_at};

use std::alloc::{AllocError, Global};
use std::collections::BTreeSet;
use std::marker::Model;
use ua_types::Moment;

/// A moment at which the timer of a subscription is due. The earliest comes first.
#[derive(Clone, Copy, Debug, PartialEq, Eq, PartialOrd, Ord, Drop)]
pub struct Due {
    /// The moment.
    pub moment: Moment,
    /// The subscription's number.
    pub number: u32,
}

/// Moments and numbers in their order. Contracts see the list.
#[derive(Debug, Drop)]
pub struct DueList {
    dues: BTreeSet<Due>,
}

impl Model for DueList {
    ghost use Rattle.std.specs.Prelude.{List};
    ghost use Rattle.ua_subscriptions.specs.declared.due_list.Due.{Due as DueLem};

    ghost Value = { List DueLem };

    ghost view = { λ l. l.dues.keys };
}

impl DueList {
    /// None. Takes no memory.
    pub(crate) fn new(alloc: Global) -> DueList
        ensures { result ≡ [] }
    {
        DueList {
            dues: BTreeSet::new(alloc),
        }
    }

    /// One more, in logarithmic time. At an `Err` nothing changed.
    pub(crate) fn insert(&mut self, due: Due) -> Result<(), AllocError>
        ensures ok { OnOk result ((q : DueLem) → has_due self.new q ≡ (if is_at (due_cmp due) q then true else has_due self.old q)) }
        ensures err { OnErr result (self.new ≡ self.old) }
    {
        self.dues.insert(due)?;
        Ok(())
    }

    /// One less, in logarithmic time. Takes no memory.
    pub(crate) fn remove(&mut self, due: Due)
        ensures { (q : DueLem) → has_due self.new q ≡ (if is_at (due_cmp due) q then false else has_due self.old q) }
    {
        let _ = self.dues.remove(&due);
    }

    /// The timer of this number, which stands at one moment, stands at another. At an `Err` nothing changed.
    pub(crate) fn put_off(
        &mut self,
        number: u32,
        before: Moment,
        after: Moment,
    ) -> Result<(), AllocError>
        requires { has_due self.old (due_at before number) ≡ true }
        ensures ok { OnOk result ((q : DueLem) → has_due self.new q ≡ has_moved number before after q (has_due self.old q)) }
        ensures err { OnErr result (self.new ≡ self.old) }
    {
        if before == after {
            return Ok(());
        }
        self.insert(Due {
            moment: after,
            number,
        })?;
        self.remove(Due {
            moment: before,
            number,
        });
        Ok(())
    }

    /// Whether one is due at this clock. It looks at the first alone, and takes no memory.
    pub(crate) fn is_any_due(&self, clock: Moment) -> bool
        ensures { result ≡ any_past clock self.now }
    {
        match self.dues.first() {
            None => false,
            Some(first) => first.moment <= clock,
        }
    }

    /// The numbers of those that are due at this clock. It looks at these and at the next one.
    pub(crate) fn due(&self, alloc: Global, clock: Moment) -> Result<BTreeSet<u32>, AllocError>
        ensures { IfOk result (λ numbers. (n : ℕ) → contains nat_cmp numbers n ≡ past_at clock self.now n) }
    {
        let mut numbers = BTreeSet::new(alloc);
        for due in &self.dues {
            if due.moment > clock {
                return Ok(numbers);
            }
            numbers.insert(due.number)?;
        }
        Ok(numbers)
    }
}

//! Items under their numbers, and how many of each subscription's items have a value to send.

ghost use Rattle.std.specs.Prelude.{◌≡◌, [], length, None, true, OnOk, OnErr, IfOk, IfErr, IfNone};
ghost use Rattle.std.specs.BTreeMap.{is_at, insert_entry};
ghost use Rattle.std.specs.Map.{remove_entry};
ghost use Rattle.std.specs.Option.{option_copied};
ghost use Rattle.std.specs.Ordering.{nat_cmp};
ghost use Rattle.ua_monitored_items.specs.Counts.{recount_by};
ghost use Rattle.ua_monitored_items.specs.Editing.{edited, MayEdit};
ghost use Rattle.ua_monitored_items.specs.Item.{seen, gave};
ghost use Rattle.ua_monitored_items.specs.ItemTables.{item_at, numbers_of, with_item, AreRising};
ghost use Rattle.ua_monitored_items.specs.Items.{any_waits, nat_least, nothing_taken, taken_of, visit_takes, with_taken};
ghost use Rattle.ua_monitored_items.specs.Releases.{visit_releases, with_releases};
ghost use Rattle.ua_monitored_items.specs.Taking.{TakenSome, waiting_at};
ghost use Rattle.ua_subscription_messages.specs.DataChangeMessages.{with_notes};

use crate::edit::Edit;
use crate::item::Item;
use crate::releases::Releases;
use crate::taking::give_all;
use crate::tally::{Recount, Tally, count, hold};
use collections::Slots;
use std::alloc::{AllocError, Global};
use std::collections::{BTreeMap, BTreeSet};
use std::marker::Model;
use ua_subscription_messages::{DataChangeMessage, SubscriptionId};
use ua_types::DataValue;

/// Items under their numbers. Contracts see these alone.
///
/// Beside them there is a count for each subscription, so whether one has something to send is told without a
/// look at its items.
#[derive(Drop)]
pub struct CountedItems {
    items: Slots<Item>,
    // How many of a subscription's items have a value to send. Each subscription with an item has its count here.
    counts: BTreeMap<u32, usize>,
}

impl Model for CountedItems {
    ghost use Rattle.ua_monitored_items.specs.Counts.{AreCounts};
    ghost use Rattle.ua_monitored_items.specs.ItemTables.{NumberedItems};

    ghost Value = { NumberedItems };

    ghost view = { λ t. t.items };

    ghost invariant = { λ t. AreCounts t.counts t.items };
}

// The item with this number is changed, if there is one. Answers whether it had a value to send, and has one now.
#[inline(always)]
fn edit_at(items: &mut Slots<Item>, number: u32, edit: Edit) -> Option<Recount>
    requires { MayEdit edit (item_at number items.old) }
    ensures items { items.new ≡ with_item number (edited edit) items.old }
    ensures recount { result ≡ recount_by (edited edit) (item_at number items.old) }
{
    let item = items.get_mut(number as u64)?;
    let had = item.waiting() > 0;
    item.edit(edit);
    Some(Recount {
        subscription: item.subscription,
        had,
        has: item.waiting() > 0,
    })
}

// The oldest values of the item with this number are sent, at most so many. Answers how many more are wanted.
fn send_at(items: &mut Slots<Item>, number: u32, left: usize) -> (usize, Option<Recount>)
    ensures left { result.0 ≡ (with_taken (nothing_taken items.old left) number).left }
    ensures items { items.new ≡ (with_taken (nothing_taken items.old left) number).items }
    ensures recount { result.1 ≡ recount_by (gave (nat_least left (waiting_at (item_at number items.old)))) (item_at number items.old) }
{
    let Some(item) = items.get_mut(number as u64) else {
        return (left, None);
    };
    let waiting = item.waiting();
    let count = left.min(waiting);
    let are_all = item.takes_last(count);
    item.send(count, are_all);
    let recount = Recount {
        subscription: item.subscription,
        had: waiting > 0,
        has: waiting > count,
    };
    (left - count, Some(recount))
}

// The item with this number sees a value, and what that releases is added. At an `Err`, which comes only where the item queues
// the value, the items are what they were.
#[tactic(auto, using(crate::proofs::Edits::set_same))]
fn visit_at(
    alloc: Global,
    items: &mut Slots<Item>,
    number: u32,
    value: &DataValue,
    releases: &mut Releases,
) -> Result<Option<Recount>, AllocError>
    ensures ok { OnOk result (items.new ≡ with_item number (seen value.now) items.old) }
    ensures recount { IfOk result (λ recount. recount ≡ recount_by (seen value.now) (item_at number items.old)) }
    ensures releases { OnOk result (releases.new ≡ with_releases releases.old (visit_releases (record { number = number; value = value.now }) (item_at number items.old))) }
    ensures err { OnErr result (items.new ≡ items.old) }
    ensures takes { OnErr result (visit_takes (record { number = number; value = value.now }) (item_at number items.old) ≡ true) }
{
    let Some(item) = items.get_mut(number as u64) else {
        return Ok(None);
    };
    let had = item.waiting() > 0;
    item.see(alloc, value, releases)?;
    Ok(Some(Recount {
        subscription: item.subscription,
        had,
        has: item.waiting() > 0,
    }))
}

impl CountedItems {
    /// No item. Takes no memory.
    pub fn new(alloc: Global) -> CountedItems
        ensures { result ≡ [] }
    {
        CountedItems {
            items: Slots::new(alloc),
            counts: BTreeMap::new(alloc),
        }
    }

    /// How many items there are.
    pub fn len(&self) -> usize
        ensures { result ≡ length self.now }
    {
        self.items.len()
    }

    /// The item with this number.
    pub fn get(&self, number: u32) -> Option<&Item>
        ensures { option_copied result ≡ item_at number self.now }
    {
        self.items.get(number as u64)
    }

    /// Puts an item under a number that none has. At an `Err` nothing changed, and the item comes back.
    pub fn insert(&mut self, number: u32, item: Item) -> Result<(), Item>
        requires { item_at number self.old ≡ None }
        ensures ok { OnOk result (self.new ≡ insert_entry nat_cmp self.old number item) }
        ensures back { IfErr result (λ back. back ≡ item) }
        ensures err { OnErr result (self.new ≡ self.old) }
    {
        let recount = Recount {
            subscription: item.subscription,
            had: false,
            has: item.waiting() > 0,
        };
        let Ok(()) = hold(&mut self.counts, SubscriptionId(item.subscription)) else {
            return Err(item);
        };
        self.items.insert(number as u64, item)?;
        count(&mut self.counts, recount, self.items.len());
        Ok(())
    }

    /// Takes the item with this number out, if there is one. Takes no memory.
    pub fn remove(&mut self, number: u32) -> Option<Item>
        ensures item { result ≡ item_at number self.old }
        ensures items { self.new ≡ remove_entry (is_at (nat_cmp number)) self.old }
        ensures unchanged { IfNone result (self.new ≡ self.old) }
    {
        let most = self.items.len();
        let item = self.items.remove(number as u64)?;
        let recount = Recount {
            subscription: item.subscription,
            had: item.waiting() > 0,
            has: false,
        };
        count(&mut self.counts, recount, most);
        Some(item)
    }

    /// There is no count any more for a subscription without items. Takes no memory.
    pub fn forget(&mut self, subscription: SubscriptionId)
        requires { numbers_of subscription self.old ≡ [] }
        ensures { self.new ≡ self.old }
    {
        let _ = self.counts.remove(&subscription.0);
    }

    /// The item with this number is changed, if there is one. Takes no memory.
    #[inline(always)]
    pub fn edit(&mut self, number: u32, edit: Edit)
        requires { MayEdit edit (item_at number self.old) }
        ensures { self.new ≡ with_item number (edited edit) self.old }
    {
        let most = self.items.len();
        if let Some(recount) = edit_at(&mut self.items, number, edit) {
            count(&mut self.counts, recount, most);
        }
    }

    /// The item with this number sees a value, and what that releases is added. At an `Err`, which comes only where the item queues
    /// the value, the items are what they were.
    pub fn visit(
        &mut self,
        alloc: Global,
        number: u32,
        value: &DataValue,
        releases: &mut Releases,
    ) -> Result<(), AllocError>
        ensures ok { OnOk result (self.new ≡ with_item number (seen value.now) self.old) }
        ensures releases { OnOk result (releases.new ≡ with_releases releases.old (visit_releases (record { number = number; value = value.now }) (item_at number self.old))) }
        ensures err { OnErr result (self.new ≡ self.old) }
        ensures takes { OnErr result (visit_takes (record { number = number; value = value.now }) (item_at number self.old) ≡ true) }
    {
        let most = self.items.len();
        if let Some(recount) = visit_at(alloc, &mut self.items, number, value, releases)? {
            count(&mut self.counts, recount, most);
        }
        Ok(())
    }

    /// The first values of the items with these numbers, which are likely to be of this subscription, are written into a message
    /// and sent, at most so many. At an `Err` the first items have sent theirs, and the next one hasn't.
    pub fn give(
        &mut self,
        subscription: SubscriptionId,
        numbers: &BTreeSet<u32>,
        count: usize,
        message: &mut DataChangeMessage,
    ) -> Result<(), AllocError>
        ensures ok { OnOk result (self.new ≡ (taken_of self.old count numbers.now.keys).items) }
        ensures message { OnOk result (message.new ≡ with_notes message.old (taken_of self.old count numbers.now.keys).notes) }
        ensures err { OnErr result (TakenSome self.old self.new count numbers.now.keys) }
    {
        let mut tally = Tally::of(&self.counts, subscription);
        let given = give_all(
            &mut self.items,
            &mut self.counts,
            &mut tally,
            numbers,
            count,
            message,
        );
        tally.put_back(&mut self.counts);
        given
    }

    /// The oldest values of the item with this number are sent, at most so many. Answers how many more are wanted. Takes no
    /// memory.
    pub fn send_from(&mut self, number: u32, left: usize) -> usize
        ensures left { result ≡ (with_taken (nothing_taken self.old left) number).left }
        ensures items { self.new ≡ (with_taken (nothing_taken self.old left) number).items }
    {
        let most = self.items.len();
        let (wanted, found) = send_at(&mut self.items, number, left);
        if let Some(recount) = found {
            count(&mut self.counts, recount, most);
        }
        wanted
    }

    /// Whether an item of a subscription has a value to send. Takes no memory, and looks at no item.
    pub fn has_value(&self, subscription: SubscriptionId) -> bool
        requires { AreRising self.now }
        ensures { result ≡ any_waits self.now (numbers_of subscription self.now) }
    {
        match self.counts.get(&subscription.0) {
            None => false,
            Some(count) => *count > 0,
        }
    }
}

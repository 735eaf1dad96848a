//! What a message takes of the items.

ghost use Rattle.std.specs.Prelude.{◌≡◌, ◌-◌, Some, take, OnOk, OnErr, IfOk};
ghost use Rattle.ua_monitored_items.specs.Counts.{recount_by, counts_with, AreCountsBy};
ghost use Rattle.ua_monitored_items.specs.Item.{gave, notes_of, waiting_in};
ghost use Rattle.ua_monitored_items.specs.Items.{nat_least, with_taken, nothing_taken, taken_of};
ghost use Rattle.ua_monitored_items.specs.Taking.{TakenSome};
ghost use Rattle.ua_subscription_messages.specs.DataChangeMessages.{with_notes};

use crate::item::Item;
use crate::tally::{Recount, Tally};
use collections::Slots;
use std::alloc::AllocError;
use std::collections::{BTreeMap, BTreeSet};
use ua_subscription_messages::DataChangeMessage;

// The oldest values of an item are written into a message and sent, at most so many. Answers how many more are wanted, and
// whether the item had a value to send, and has one yet. At an `Err` it is what it was.
fn give_some(
    item: &mut Item,
    left: usize,
    message: &mut DataChangeMessage,
) -> Result<(usize, Recount), AllocError>
    ensures left { IfOk result (λ given. given.0 ≡ left - nat_least left (waiting_in item.old)) }
    ensures item { OnOk result (item.new ≡ gave (nat_least left (waiting_in item.old)) item.old) }
    ensures message { OnOk result (message.new ≡ with_notes message.old (take (nat_least left (waiting_in item.old)) (notes_of item.old))) }
    ensures recount { IfOk result (λ given. Some given.1 ≡ recount_by (gave (nat_least left (waiting_in item.old))) (Some item.old)) }
    ensures err { OnErr result (item.new ≡ item.old) }
{
    let waiting = item.waiting();
    let count = left.min(waiting);
    item.give(count, message)?;
    let recount = Recount {
        subscription: item.subscription,
        had: waiting > 0,
        has: waiting > count,
    };
    Ok((left - count, recount))
}

// The oldest values of the item with this number are written into a message and sent, at most so many, and the counts follow.
// Answers how many more are wanted. At an `Err` the items are what they were.
fn give_at(
    items: &mut Slots<Item>,
    counts: &mut BTreeMap<u32, usize>,
    tally: &mut Tally,
    number: u32,
    left: usize,
    message: &mut DataChangeMessage,
) -> Result<usize, AllocError>
    requires { AreCountsBy (counts_with counts.old tally.old) items.old }
    ensures left { IfOk result (λ wanted. wanted ≡ (with_taken (nothing_taken items.old left) number).left) }
    ensures items { OnOk result (items.new ≡ (with_taken (nothing_taken items.old left) number).items) }
    ensures message { OnOk result (message.new ≡ with_notes message.old (with_taken (nothing_taken items.old left) number).notes) }
    ensures err { OnErr result (items.new ≡ items.old) }
    ensures counts { AreCountsBy (counts_with counts.new tally.new) items.new }
{
    let most = items.len();
    let Some(item) = items.get_mut(number as u64) else {
        return Ok(left);
    };
    let (wanted, recount) = give_some(item, left, message)?;
    tally.follow(counts, recount, most);
    Ok(wanted)
}

/// The first values of the items with these numbers are written into a message and sent, at most so many, and the counts
/// follow. At an `Err` the first items have sent theirs, and the next one hasn't.
pub(crate) fn give_all(
    items: &mut Slots<Item>,
    counts: &mut BTreeMap<u32, usize>,
    tally: &mut Tally,
    numbers: &BTreeSet<u32>,
    count: usize,
    message: &mut DataChangeMessage,
) -> Result<(), AllocError>
    requires { AreCountsBy (counts_with counts.old tally.old) items.old }
    ensures ok { OnOk result (items.new ≡ (taken_of items.old count numbers.now.keys).items) }
    ensures message { OnOk result (message.new ≡ with_notes message.old (taken_of items.old count numbers.now.keys).notes) }
    ensures err { OnErr result (TakenSome items.old items.new count numbers.now.keys) }
    ensures counts { AreCountsBy (counts_with counts.new tally.new) items.new }
{
    let mut left = count;
    for number in numbers {
        if left == 0 {
            break;
        }
        left = give_at(items, counts, tally, *number, left, message)?;
    }
    Ok(())
}

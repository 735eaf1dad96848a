//! What items have to tell, as values, and what they have no more once it was taken.

ghost use Rattle.std.specs.Prelude.{◌≡◌, ◌++◌, ◌-◌, length, take, OnOk, IfOk};
ghost use Rattle.ua_monitored_items.specs.ItemTables.{item_at};
ghost use Rattle.ua_monitored_items.specs.Items.{taken_of};
ghost use Rattle.ua_monitored_items.specs.Taking.{told_at, told_by};

use crate::counted_items::CountedItems;
use std::alloc::{AllocError, Global};
use std::collections::BTreeSet;
use ua_subscription_messages::MonitoredItemNotification;

// Copies what the item with this number has to tell, at most so many values, behind what is there. Answers how many more are
// wanted.
#[tactic(auto, using(crate::proofs::FirstNotes::told_first, crate::proofs::FirstNotes::told_rest))]
fn copy_at(
    alloc: Global,
    items: &CountedItems,
    number: u32,
    left: usize,
    notes: &mut Vec<MonitoredItemNotification>,
) -> Result<usize, AllocError>
    ensures notes { OnOk result (notes.new.items ≡ notes.old.items ++ take left (told_at (item_at number items.now))) }
    ensures left { IfOk result (λ wanted. wanted ≡ left - length (told_at (item_at number items.now))) }
{
    let Some(item) = items.get(number) else {
        return Ok(left);
    };
    let count = left.min(item.waiting());
    item.copy_notes(alloc, count, notes)?;
    Ok(left - count)
}

/// What the items with these numbers have to tell, the first so many values.
pub(crate) fn copy_all(
    alloc: Global,
    items: &CountedItems,
    numbers: &BTreeSet<u32>,
    count: usize,
) -> Result<Vec<MonitoredItemNotification>, AllocError>
    ensures { IfOk result (λ notes. notes.items ≡ take count (told_by items.now numbers.now.keys)) }
{
    let mut notes = Vec::new(alloc);
    let mut left = count;
    for number in numbers {
        if left == 0 {
            break;
        }
        left = copy_at(alloc, items, *number, left, &mut notes)?;
    }
    Ok(notes)
}

/// The first values of the items with these numbers are sent, at most so many. Takes no memory.
pub(crate) fn send_all(items: &mut CountedItems, numbers: &BTreeSet<u32>, count: usize)
    ensures { items.new ≡ (taken_of items.old count numbers.now.keys).items }
{
    let mut left = count;
    for number in numbers {
        if left == 0 {
            break;
        }
        left = items.send_from(*number, left);
    }
}

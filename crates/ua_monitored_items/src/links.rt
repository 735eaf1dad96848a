//! Links from an item to others of its subscription.

ghost use Rattle.std.specs.Prelude.{◌≡◌, [], fold, OnOk, OnErr, IfOk, IsOk};
ghost use Rattle.std.specs.BTreeMap.{is_at};
ghost use Rattle.std.specs.BTreeSet.{insert_key};
ghost use Rattle.std.specs.List.{list_any};
ghost use Rattle.std.specs.Option.{option_map_or};
ghost use Rattle.std.specs.Ordering.{nat_cmp};
ghost use Rattle.std.specs.Set.{remove_key};
ghost use Rattle.ua_monitored_items.specs.Links.{link_status, unlinked};
ghost use Rattle.ua_views.specs.Views.{or_none};

use std::alloc::{AllocError, Global};
use std::collections::BTreeSet;
use std::marker::Model;
use ua_types::Status;
use ua_views::ArrayView;

/// The numbers of the items that are linked to one, rising, each once.
///
/// The number of an item that is deleted stays until the links of its triggering item are changed next, by a request with an
/// entry. It leads to nothing, since no item gets it again.
#[derive(Drop)]
pub struct Links {
    // In a block of their own, from the first link on: most items have none.
    numbers: Option<Box<BTreeSet<u32>, Global>>,
    alloc: Global,
}

impl Model for Links {
    ghost use Rattle.std.specs.Prelude.{ℕ, List, []};
    ghost use Rattle.std.specs.Option.{option_map_or};

    ghost Value = { List ℕ };

    ghost view = { λ l. option_map_or (λ numbers. numbers.value.keys) l.numbers [] };
}

impl Links {
    /// No link. Takes no memory.
    pub(crate) fn new(alloc: Global) -> Links
        ensures { result ≡ [] }
    {
        Links {
            numbers: None,
            alloc,
        }
    }

    /// The numbers, rising; None where there never was one.
    pub fn numbers(&self) -> Option<&BTreeSet<u32>>
        ensures { option_map_or (λ numbers. numbers.now.keys) result [] ≡ self.now }
    {
        match &self.numbers {
            Some(numbers) => Some(numbers),
            None => None,
        }
    }

    /// One more number, also where it is there already. At an `Err` nothing changed.
    pub(crate) fn put(&mut self, number: u32) -> Result<(), AllocError>
        ensures ok { OnOk result (self.new ≡ insert_key nat_cmp self.old number) }
        ensures err { OnErr result (self.new ≡ self.old) }
    {
        if let Some(numbers) = &mut self.numbers {
            return match numbers.insert(number) {
                Ok(_) => Ok(()),
                Err(_) => Err(AllocError),
            };
        }
        let mut numbers = BTreeSet::new(self.alloc);
        numbers.insert(number)?;
        self.numbers = Some(Box::new(self.alloc, numbers)?);
        Ok(())
    }

    /// Takes a number out, and answers whether it was there. Takes no memory.
    pub(crate) fn take(&mut self, number: u32) -> bool
        ensures there { result ≡ list_any (is_at (nat_cmp number)) self.old }
        ensures left { self.new ≡ remove_key (is_at (nat_cmp number)) self.old }
    {
        match &mut self.numbers {
            Some(numbers) => numbers.remove(&number),
            None => false,
        }
    }
}

/// What became of each entry of a request that changes links, in the order of its lists.
#[derive(Drop)]
pub struct Linked {
    /// Of each item that was to be linked.
    pub added: Vec<Status>,

    /// Of each whose link was to be taken away.
    pub removed: Vec<Status>,
}

/// Takes links away, one after the other, and answers what became of each.
pub(crate) fn unlink_all(
    alloc: Global,
    links: &mut Links,
    remove: ArrayView<'_, u32>,
) -> Result<Vec<Status>, AllocError>
    ensures statuses { IfOk result (λ statuses. statuses.items ≡ (fold unlinked (record { statuses = []; numbers = links.old }) (or_none remove.entry)).statuses) }
    ensures links { OnOk result (links.new ≡ (fold unlinked (record { statuses = []; numbers = links.old }) (or_none remove.entry)).numbers) }
    ensures none { or_none remove.entry ≡ [] → IsOk result }
{
    let mut statuses = Vec::with_capacity(alloc, remove.len())?;
    for number in remove {
        statuses.push(link_status(links.take(number)))?;
    }
    Ok(statuses)
}

/// What becomes of an entry of a request that changes links.
pub(crate) fn link_status(good: bool) -> Status
    ensures { result ≡ link_status good }
{
    if good {
        Status::GOOD
    } else {
        Status::BAD_MONITORED_ITEM_ID_INVALID
    }
}

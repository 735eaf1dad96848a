//! Items under their numbers, with an index of the subscriptions and one of the nodes.

ghost use Rattle.std.specs.Prelude.{◌≡◌, ◌<◌, ◌-◌, ◌+◌, ◌^◌, [], true, length, OnOk, OnErr, IfOk, IfSome};
ghost use Rattle.std.specs.BTreeMap.{is_at, insert_entry};
ghost use Rattle.std.specs.Map.{remove_entry};
ghost use Rattle.std.specs.Option.{option_copied};
ghost use Rattle.std.specs.Ordering.{nat_cmp};
ghost use Rattle.ua_types.specs.NodeIdOrder.{id_cmp};
ghost use Rattle.ua_monitored_items.specs.Editing.{edited};
ghost use Rattle.ua_monitored_items.specs.ItemTables.{TableState, item_at, numbers_of, is_of, is_on, with_item, IsPut, IsTakenOut, IsPutBack, IsKept, IsOwn, DisabledIsEmpty};
ghost use Rattle.ua_monitored_items.specs.Items.{without_all, any_waits, taken_of, first_number, visits_of, VisitedSome};
ghost use Rattle.ua_monitored_items.specs.Releases.{all_released, shown_one, shown, ShownSome};
ghost use Rattle.ua_monitored_items.specs.Taking.{TakenSome};
ghost use Rattle.ua_subscription_messages.specs.DataChangeMessages.{with_notes};

use crate::counted_items::CountedItems;
use crate::edit::Edit;
use crate::index::{Index, put_in, take_out};
use crate::item::Item;
use crate::notes::{copy_all, send_all};
use crate::releases::Releases;
use crate::sampling::{release_all, sample_all, show_node};
use std::alloc::{AllocError, Global};
use std::collections::BTreeMap;
use std::marker::Model;
use ua_messages::VALUE;
use ua_read_write::Change;
use ua_space::Space;
use ua_subscription_messages::{DataChangeMessage, MonitoredItemNotification, SubscriptionId};
use ua_types::{Copyable, DataValue, NodeId};

/// The items of a server under their numbers, and the number of the last one that was made.
///
/// An item is found by its number in logarithmic time; so are the numbers of a subscription's items, and
/// those of the items of a node's value, each as an ordered set, and how many of a subscription's items have a
/// value to send.
#[derive(Drop)]
pub struct ItemTable {
    made: u32,
    items: CountedItems,
    of_subscription: Index<u32>,
    on_node: Index<NodeId>,
}

impl Model for ItemTable {
    ghost use Rattle.ua_monitored_items.specs.ItemTables.{TableState, IsTable};

    ghost Value = { TableState };

    ghost view = { λ t. record { made = t.made; items = t.items } };

    ghost invariant = { λ t. IsTable t.made t.items t.of_subscription t.on_node };
}

fn put_node(
    alloc: Global,
    on_node: &mut Index<NodeId>,
    id: &NodeId,
    number: u32,
) -> Result<(), AllocError>
    ensures ok { OnOk result (IsPut id_cmp on_node.old on_node.new (is_at (id_cmp id.now)) number) }
    ensures err { OnErr result (IsKept id_cmp on_node.old on_node.new) }
{
    let key = id.copy(alloc)?;
    put_in(alloc, on_node, key, number)
}

// The indexes lead to an item with this number. At an `Err` they lead where they led.
fn index_item(
    alloc: Global,
    of_subscription: &mut Index<u32>,
    on_node: &mut Index<NodeId>,
    number: u32,
    item: &Item,
) -> Result<(), AllocError>
    ensures subscriptions { OnOk result (IsPut nat_cmp of_subscription.old of_subscription.new (λ q. is_of q item.now) number) }
    ensures nodes { OnOk result (IsPut id_cmp on_node.old on_node.new (λ id. is_on id item.now) number) }
    ensures err_subscriptions { OnErr result (IsPutBack nat_cmp of_subscription.old of_subscription.new number) }
    ensures err_nodes { OnErr result (IsPutBack id_cmp on_node.old on_node.new number) }
{
    put_in(alloc, of_subscription, item.subscription, number)?;
    if item.attribute_id != VALUE {
        return Ok(());
    }
    match put_node(alloc, on_node, &item.node_id, number) {
        Ok(()) => Ok(()),
        Err(error) => {
            take_out(of_subscription, &item.subscription, number);
            Err(error)
        }
    }
}

// The indexes lead to the item with this number no more.
fn unindex_item(
    of_subscription: &mut Index<u32>,
    on_node: &mut Index<NodeId>,
    number: u32,
    item: &Item,
)
    ensures subscriptions { IsTakenOut nat_cmp of_subscription.old of_subscription.new (λ q. is_of q item.now) number }
    ensures nodes { IsTakenOut id_cmp on_node.old on_node.new (λ id. is_on id item.now) number }
{
    take_out(of_subscription, &item.subscription, number);
    if item.attribute_id == VALUE {
        take_out(on_node, &item.node_id, number);
    }
}

impl ItemTable {
    /// No item. Takes no memory.
    pub fn new(alloc: Global) -> ItemTable
        ensures { result ≡ record { made = 0; items = [] } }
    {
        ItemTable {
            made: 0,
            items: CountedItems::new(alloc),
            of_subscription: BTreeMap::new(alloc),
            on_node: BTreeMap::new(alloc),
        }
    }

    /// The number of the last item that was made, 0 before the first.
    pub fn made(&self) -> u32
        ensures { result ≡ self.now.made }
    {
        self.made
    }

    /// The item with this number.
    pub fn get(&self, number: u32) -> Option<&Item>
        ensures { option_copied result ≡ item_at number self.now.items }
    {
        self.items.get(number)
    }

    /// How many items there are.
    pub fn len(&self) -> usize
        ensures { result ≡ length self.now.items }
    {
        self.items.len()
    }

    /// How many items a subscription has.
    pub fn count_of(&self, subscription: SubscriptionId) -> usize
        ensures { result ≡ length (numbers_of subscription self.now.items) }
    {
        match self.of_subscription.get(&subscription.0) {
            None => 0,
            Some(numbers) => numbers.len(),
        }
    }

    // The least number of a subscription's items.
    fn first_of(&self, subscription: SubscriptionId) -> Option<u32>
        ensures first { result ≡ first_number (numbers_of subscription self.now.items) }
        ensures own { IfSome result (λ number. IsOwn subscription number self.now.items) }
    {
        let numbers = self.of_subscription.get(&subscription.0)?;
        numbers.first().copied()
    }

    /// One more item, under the next number; a disabled one has no value yet. At an `Err` nothing changed.
    pub fn add(&mut self, alloc: Global, item: Item) -> Result<(), AllocError>
        requires number { self.old.made < 2 ^ 32 - 1 }
        requires disabled { DisabledIsEmpty item }
        ensures ok { OnOk result (self.new ≡ record { made = self.old.made + 1; items = insert_entry nat_cmp self.old.items (self.old.made + 1) item }) }
        ensures back { OnOk result (remove_entry (is_at (nat_cmp (self.old.made + 1))) self.new.items ≡ self.old.items) }
        ensures err { OnErr result (self.new ≡ self.old) }
    {
        let number = self.made + 1;
        index_item(
            alloc,
            &mut self.of_subscription,
            &mut self.on_node,
            number,
            &item,
        )?;
        match self.items.insert(number, item) {
            Ok(()) => {
                self.made = number;
                Ok(())
            }
            Err(item) => {
                unindex_item(&mut self.of_subscription, &mut self.on_node, number, &item);
                Err(AllocError)
            }
        }
    }

    /// Takes the item with this number out, if there is one. Takes no memory.
    pub fn remove(&mut self, number: u32)
        ensures { self.new ≡ record { made = self.old.made; items = remove_entry (is_at (nat_cmp number)) self.old.items } }
    {
        if let Some(item) = self.items.remove(number) {
            unindex_item(&mut self.of_subscription, &mut self.on_node, number, &item);
        }
    }

    /// Takes the item with the last number back, as if no item had had it. Takes no memory.
    pub fn take_back(&mut self)
        requires { 0 < self.old.made }
        ensures { self.new ≡ record { made = self.old.made - 1; items = remove_entry (is_at (nat_cmp self.old.made)) self.old.items } }
    {
        let number = self.made;
        self.remove(number);
        self.made = number - 1;
    }

    /// Takes all items of a subscription out. Takes no memory.
    pub fn remove_all(&mut self, subscription: SubscriptionId)
        ensures { self.new ≡ record { made = self.old.made; items = without_all subscription self.old.items } }
    {
        let count = self.count_of(subscription);
        for _ in 0..count {
            self.remove_first(subscription);
        }
        self.forget(subscription);
    }

    // Takes the first item of a subscription out, if there is one.
    fn remove_first(&mut self, subscription: SubscriptionId)
        ensures made { self.new.made ≡ self.old.made }
        ensures others { without_all subscription self.new.items ≡ without_all subscription self.old.items }
        ensures left { length (numbers_of subscription self.new.items) ≡ length (numbers_of subscription self.old.items) - 1 }
    {
        if let Some(number) = self.first_of(subscription) {
            self.remove(number);
        }
    }

    // There is no count any more for a subscription without items.
    fn forget(&mut self, subscription: SubscriptionId)
        requires { numbers_of subscription self.old.items ≡ [] }
        ensures { self.new ≡ self.old }
    {
        self.items.forget(subscription);
    }

    /// The item with this number is changed, if there is one. Takes no memory.
    #[inline(always)]
    pub fn edit(&mut self, number: u32, edit: Edit)
        ensures { self.new ≡ record { made = self.old.made; items = with_item number (edited edit) self.old.items } }
    {
        self.items.edit(number, edit);
    }

    /// Items are released. Takes no memory.
    pub fn release(&mut self, releases: &Releases)
        ensures { self.new ≡ record { made = self.old.made; items = all_released self.old.items releases.now } }
    {
        release_all(&mut self.items, releases);
    }

    /// The items of a node that was written see the value, and release what is linked to them. At an `Err` some visits were
    /// made, from the first on, and the next item, which was to queue the value, hasn't seen it.
    pub fn show(
        &mut self,
        alloc: Global,
        node_id: &NodeId,
        value: &DataValue,
    ) -> Result<(), AllocError>
        ensures made { self.new.made ≡ self.old.made }
        ensures ok { OnOk result (self.new.items ≡ shown_one self.old.items (record { node_id = node_id.now; value = value.now })) }
        ensures err { OnErr result (VisitedSome self.old.items self.new.items (visits_of self.old.items (record { node_id = node_id.now; value = value.now }))) }
    {
        show_node(alloc, &mut self.items, &self.on_node, node_id, value)
    }

    /// The items of the nodes that were written see the values, in their order, and release what is linked to them. At an
    /// `Err` some visits were made, from the first on, and the next item, which was to queue its value, hasn't seen it.
    pub fn sample(&mut self, alloc: Global, changed: &[Change]) -> Result<(), AllocError>
        ensures made { self.new.made ≡ self.old.made }
        ensures ok { OnOk result (self.new.items ≡ shown self.old.items changed.now) }
        ensures err { OnErr result (ShownSome self.old.items self.new.items changed.now) }
    {
        sample_all(alloc, &mut self.items, &self.on_node, changed)
    }

    /// Whether an item of a subscription that reports or is released has a value. Takes no memory, and looks at no item.
    pub fn available(&self, subscription: SubscriptionId) -> bool
        ensures { result ≡ any_waits self.now.items (numbers_of subscription self.now.items) }
    {
        self.items.has_value(subscription)
    }

    /// The first values of a subscription's items that report or are released are written into a message and sent, at most so
    /// many. At an `Err`, which comes only where one of them has a value, the first items have sent theirs, and the next one
    /// hasn't.
    #[tactic(auto, using(crate::proofs::Serving::none_taken))]
    pub fn send(
        &mut self,
        subscription: SubscriptionId,
        count: usize,
        message: &mut DataChangeMessage,
    ) -> Result<(), AllocError>
        ensures made { self.new.made ≡ self.old.made }
        ensures ok { OnOk result (self.new.items ≡ (taken_of self.old.items count (numbers_of subscription self.old.items)).items) }
        ensures message { OnOk result (message.new ≡ with_notes message.old (taken_of self.old.items count (numbers_of subscription self.old.items)).notes) }
        ensures err { OnErr result (TakenSome self.old.items self.new.items count (numbers_of subscription self.old.items)) }
        ensures waits { OnErr result (any_waits self.old.items (numbers_of subscription self.old.items) ≡ true) }
    {
        if !self.items.has_value(subscription) {
            return Ok(());
        }
        match self.of_subscription.get(&subscription.0) {
            None => Ok(()),
            Some(numbers) => self.items.give(subscription, numbers, count, message),
        }
    }

    /// The first values of a subscription's items that report or are released, at most so many, are copied as clients are told
    /// them, and sent. At an `Err`, which comes only where one of them has a value, nothing changed.
    #[tactic(auto, using(crate::proofs::Serving::none_taken, crate::proofs::FirstNotes::taken_are_told))]
    pub fn take_notes(
        &mut self,
        alloc: Global,
        subscription: SubscriptionId,
        count: usize,
    ) -> Result<Vec<MonitoredItemNotification>, AllocError>
        ensures made { self.new.made ≡ self.old.made }
        ensures notes { IfOk result (λ notes. notes.items ≡ (taken_of self.old.items count (numbers_of subscription self.old.items)).notes) }
        ensures ok { OnOk result (self.new.items ≡ (taken_of self.old.items count (numbers_of subscription self.old.items)).items) }
        ensures err { OnErr result (self.new.items ≡ self.old.items) }
        ensures waits { OnErr result (any_waits self.old.items (numbers_of subscription self.old.items) ≡ true) }
    {
        if !self.available(subscription) {
            return Ok(Vec::new(alloc));
        }
        match self.of_subscription.get(&subscription.0) {
            None => Ok(Vec::new(alloc)),
            Some(numbers) => {
                let notes = copy_all(alloc, &self.items, numbers, count)?;
                send_all(&mut self.items, numbers, count);
                Ok(notes)
            }
        }
    }
}

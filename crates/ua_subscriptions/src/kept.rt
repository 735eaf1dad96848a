//! The messages that a subscription keeps.

ghost use Rattle.std.specs.Prelude.{◌≡◌, [], ◌∷◌, ◌++◌, length, drop, find, map, ◌<◌, IfOk, OnOk};
ghost use Rattle.std.specs.BTreeMap.{IsOrdered};
ghost use Rattle.std.specs.List.{position, AllByRecursion};
ghost use Rattle.std.specs.Map.{keys_of};
ghost use Rattle.std.specs.Option.{is_some, option_copied, IfSome};
ghost use Rattle.std.specs.Ordering.{nat_cmp};
ghost use Rattle.ua_subscriptions.specs.Answers.{number_of};
ghost use Rattle.ua_subscriptions.specs.Kept.{ArePlaced, IsFirstPlace};
ghost use Rattle.ua_subscriptions.specs.Messages.{has_number};
ghost use Rattle.ua_subscriptions.specs.Publishing.{forgotten};

use crate::messages::KeptMessage;
use std::alloc::{AllocError, Global};
use std::collections::{BTreeMap, BTreeSet};
use std::marker::Model;

/// Where a kept message stands: its number, and its place in the order in which they were sent.
#[derive(Clone, Copy, Debug, PartialEq, Eq, PartialOrd, Ord, Drop)]
pub struct Place {
    /// The message's number.
    pub number: u32,
    /// Its place.
    pub serial: u64,
}

/// The messages that a subscription keeps, in the order in which they were sent. One is found by its number in
/// logarithmic time. Contracts see the list.
#[derive(Debug, Drop)]
pub struct Kept {
    // Under their places.
    messages: BTreeMap<u64, KeptMessage>,
    // The place of each, and no other.
    places: BTreeSet<Place>,
}

impl Model for Kept {
    ghost use Rattle.std.specs.Prelude.{List};
    ghost use Rattle.std.specs.Map.{values_of};
    ghost use Rattle.ua_subscriptions.specs.declared.messages.KeptMessage.{KeptMessage as KeptMessageLem};
    ghost use Rattle.ua_subscriptions.specs.Kept.{ArePlaced};

    ghost Value = { List KeptMessageLem };

    ghost view = { λ k. values_of k.messages.entries };

    ghost invariant = { λ k. ArePlaced k.messages.entries k.places.keys };
}

// The place of the first message with this number, if there is one.
fn first_place(
    messages: &BTreeMap<u64, KeptMessage>,
    places: &BTreeSet<Place>,
    number: u32,
) -> Option<u64>
    requires { ArePlaced messages.now.entries places.now.keys }
    ensures first { IsFirstPlace number places.now.keys result }
    ensures ordered { IsOrdered nat_cmp messages.now }
{
    if messages.len() == 0 {
        return None;
    }
    let mut rest = places.range(Place { number, serial: 0 }..);
    match rest.next() {
        Some(place) if place.number == number => Some(place.serial),
        _ => None,
    }
}

// The place behind all of these, if any is left.
fn next_place(messages: &BTreeMap<u64, KeptMessage>) -> Option<u64>
    ensures { IfSome result (λ serial. AllByRecursion (λ q. q < serial) (keys_of messages.now.entries)) }
{
    match messages.last_key_value() {
        None => Some(0),
        Some((last, _)) => last.checked_add(1),
    }
}

impl Kept {
    /// Nothing. Takes no memory.
    pub(crate) fn new(alloc: Global) -> Kept
        ensures { result ≡ [] }
    {
        Kept {
            messages: BTreeMap::new(alloc),
            places: BTreeSet::new(alloc),
        }
    }

    /// How many there are.
    pub(crate) fn len(&self) -> usize
        ensures { result ≡ length self.now }
    {
        self.messages.len()
    }

    /// Their numbers, in the order in which they were sent.
    pub(crate) fn numbers(&self, alloc: Global) -> Result<Vec<u32>, AllocError>
        ensures { IfOk result (λ numbers. numbers.items ≡ map number_of self.now) }
    {
        let mut numbers = Vec::with_capacity(alloc, self.messages.len())?;
        for message in self.messages.values() {
            numbers.push(message.number)?;
        }
        Ok(numbers)
    }

    /// Takes all out.
    pub(crate) fn clear(&mut self)
        ensures { self.new ≡ [] }
    {
        self.messages.clear();
        self.places.clear();
    }

    /// One more, that was sent last. At an `Err` nothing changed.
    pub(crate) fn push(&mut self, message: KeptMessage) -> Result<(), AllocError>
        ensures { OnOk result (self.new ≡ self.old ++ message ∷ []) }
    {
        let number = message.number;
        // Each message is counted before it is kept, and that count ends first.
        let Some(serial) = next_place(&self.messages) else {
            return Err(AllocError);
        };
        self.places.insert(Place { number, serial })?;
        let Ok(_) = self.messages.insert(serial, message) else {
            let _ = self.places.remove(&Place { number, serial });
            return Err(AllocError);
        };
        Ok(())
    }

    /// The oldest goes.
    pub(crate) fn drop_oldest(&mut self)
        ensures { self.new ≡ drop 1 self.old }
    {
        if let Some((serial, message)) = self.messages.pop_first() {
            let number = message.number;
            let _ = self.places.remove(&Place { number, serial });
        }
    }

    /// The first message with this number, in logarithmic time.
    pub(crate) fn find(&self, number: u32) -> Option<&KeptMessage>
        ensures { option_copied result ≡ find (has_number number) self.now }
    {
        match first_place(&self.messages, &self.places, number) {
            None => None,
            Some(serial) => self.messages.get(&serial),
        }
    }

    /// Drops the first message with this number, in logarithmic time, and tells whether there is one.
    pub(crate) fn forget(&mut self, number: u32) -> bool
        ensures known { result ≡ is_some (position (has_number number) self.old) }
        ensures kept { self.new ≡ forgotten number self.old }
    {
        match first_place(&self.messages, &self.places, number) {
            None => false,
            Some(serial) => {
                let _ = self.messages.remove(&serial);
                let _ = self.places.remove(&Place { number, serial });
                true
            }
        }
    }
}

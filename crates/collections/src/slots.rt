//! Values under numbers, in slots.

ghost use Rattle.std.specs.Prelude.{◌≡◌, ◌<◌, ◌≤◌, ℕ, [], None, true, length, OnOk, OnErr, IfErr, IfNone, IfOk, IfSome, IsSome, IsSomeAnd};
ghost use Rattle.std.specs.Borrow.{sem};
ghost use Rattle.std.specs.BTreeMap.{is_at, insert_entry};
ghost use Rattle.std.specs.List.Sorted.{IsStrictlySortedBy};
ghost use Rattle.std.specs.Map.{keys_of, lookup, remove_entry};
ghost use Rattle.std.specs.Option.{option_copied, option_copied_mut};
ghost use Rattle.std.specs.Ordering.{nat_cmp};
ghost use Rattle.collections.specs.Slots.{slot_at, IsHeld};
ghost use Rattle.collections.specs.SlotLends.{lends_value};

use crate::near::Near;
use crate::slot::Slot;
use slab::Slab;
use std::alloc::{AllocError, Global};
use std::collections::BTreeMap;
use std::marker::Model;
use std::ops::Bound;

/// Values under their numbers. Contracts see the list of both, by rising number.
///
/// The values lie in a slab, whose slots are used again. An ordered map leads from a number to its slot, and is asked only where the
/// value isn't where it is likely to be ([`Near`]).
#[derive(Debug, Drop)]
pub struct Slots<V> {
    slots: Slab<Slot<V>>,
    places: BTreeMap<u64, usize>,
    // Where the value was that was lent last, to be changed.
    near: Near,
}

impl<V> Model for Slots<V> {
    ghost use Rattle.std.specs.Prelude.{ℕ, List};
    ghost use Rattle.collections.specs.Slots.{held_in, IsHeld};

    ghost Value = { List (ℕ × V) };

    ghost view = { λ s. held_in s.slots.slots s.places.entries };

    ghost invariant = { λ s. IsHeld s.slots.slots s.places.entries };
}

// Whether the value under this number lies in this slot.
fn lies_in<V>(slots: &Slab<Slot<V>>, slot: usize, number: u64) -> bool
    ensures { result ≡ true → IsSomeAnd (slot_at slots.now.slots slot) (λ held. held.number ≡ number) }
{
    match slots.get(slot) {
        Some(held) => held.number == number,
        None => false,
    }
}

// The slot of the value under this number, looked for at two places at which it is likely to be, and then by a search.
#[tactic(auto, using(crate::proofs::SlotLemmas::guessed))]
fn slot_of<V>(
    slots: &Slab<Slot<V>>,
    places: &BTreeMap<u64, usize>,
    near: &Near,
    number: u64,
) -> Option<usize>
    requires { IsHeld slots.now.slots places.now.entries }
    ensures { result ≡ lookup (is_at (nat_cmp number)) places.now.entries }
{
    let first = near.first();
    if lies_in(slots, first, number) {
        return Some(first);
    }
    let second = near.second();
    if lies_in(slots, second, number) {
        return Some(second);
    }
    places.get(&number).copied()
}

// The keys of a map, rising. There are about so many.
fn keys_of<V>(
    alloc: Global,
    count: usize,
    entries: &BTreeMap<u64, V>,
) -> Result<Vec<u64>, AllocError>
    ensures { IfOk result (λ keys. keys.items ≡ keys_of entries.now.entries) }
{
    let mut keys = Vec::with_capacity(alloc, count)?;
    for (number, _) in entries {
        keys.push(*number)?;
    }
    Ok(keys)
}

// The lowest key of a map that is above this one, or the lowest of all.
fn key_above<V>(entries: &BTreeMap<u64, V>, below: Option<u64>) -> Option<u64>
    ensures held { IfSome result (λ key. IsSome (lookup (is_at (nat_cmp key)) entries.now.entries)) }
    ensures above { IfSome result (λ key. IfSome below (λ below. below < key)) }
    ensures lowest { (key : ℕ) → IfSome below (λ below. below < key) → IsSome (lookup (is_at (nat_cmp key)) entries.now.entries) → IsSomeAnd result (λ lowest. lowest ≤ key) }
{
    let start = match below {
        Some(below) => Bound::Excluded(below),
        None => Bound::Unbounded,
    };
    let mut above = entries.range((start, Bound::Unbounded));
    match above.next() {
        Some((key, _)) => Some(*key),
        None => None,
    }
}

impl<V> Slots<V> {
    /// None. Takes no memory.
    pub fn new(alloc: Global) -> Slots<V>
        ensures { result ≡ [] }
    {
        Slots {
            slots: Slab::new(alloc),
            places: BTreeMap::new(alloc),
            near: Near::new(),
        }
    }

    /// How many there are.
    #[tactic(auto, using(crate::proofs::SlotLemmas::held_count, crate::proofs::SlotLemmas::held_rising))]
    pub fn len(&self) -> usize
        ensures count { result ≡ length self.now }
        ensures rising { IsStrictlySortedBy nat_cmp (keys_of self.now) }
    {
        self.places.len()
    }

    /// The numbers, rising.
    #[tactic(auto, using(crate::proofs::SlotLemmas::held_keys, crate::proofs::SlotLemmas::held_rising))]
    pub fn numbers(&self, alloc: Global) -> Result<Vec<u64>, AllocError>
        ensures numbers { IfOk result (λ numbers. numbers.items ≡ keys_of self.now) }
        ensures rising { IsStrictlySortedBy nat_cmp (keys_of self.now) }
    {
        keys_of(alloc, self.places.len(), &self.places)
    }

    /// The lowest number above this one, or the lowest of all. Takes no memory.
    pub fn number_above(&self, below: Option<u64>) -> Option<u64>
        ensures held { IfSome result (λ number. IsSome (lookup (is_at (nat_cmp number)) self.now)) }
        ensures above { IfSome result (λ number. IfSome below (λ below. below < number)) }
        ensures lowest { (number : ℕ) → IfSome below (λ below. below < number) → IsSome (lookup (is_at (nat_cmp number)) self.now) → IsSomeAnd result (λ lowest. lowest ≤ number) }
    {
        key_above(&self.places, below)
    }

    /// The value under this number.
    #[tactic(auto, using(crate::proofs::SlotLemmas::found))]
    pub fn get(&self, number: u64) -> Option<&V>
        ensures { option_copied result ≡ lookup (is_at (nat_cmp number)) self.now }
    {
        let slot = slot_of(&self.slots, &self.places, &self.near, number)?;
        let held = self.slots.get(slot)?;
        Some(&held.value)
    }

    /// The value under this number, to be changed in its place. Takes no memory.
    pub fn get_mut(&mut self, number: u64) -> Option<&mut V>
        ensures* writes_back { sem 𝓛 (lends_value V.row self.entry number result) }
        ensures value { option_copied_mut result ≡ lookup (is_at (nat_cmp number)) self.old }
    {
        let Some(slot) = slot_of(&self.slots, &self.places, &self.near, number) else {
            return None;
        };
        // Noted before the value is lent, since nothing can be written while it is.
        self.near.found(slot);
        match self.slots.get_mut(slot) {
            Some(held) => Some(held.value_mut()),
            None => None,
        }
    }

    /// One more value, under a number that none has. At an `Err` nothing changed, and the value comes back.
    pub fn insert(&mut self, number: u64, value: V) -> Result<(), V>
        requires { lookup (is_at (nat_cmp number)) self.old ≡ None }
        ensures ok { OnOk result (self.new ≡ insert_entry nat_cmp self.old number value) }
        ensures back { IfErr result (λ back. back ≡ value) }
        ensures err { OnErr result (self.new ≡ self.old) }
    {
        let Ok(()) = self.slots.reserve(1) else {
            return Err(value);
        };
        let slot = self.slots.vacant_key();
        let Ok(_) = self.places.insert(number, slot) else {
            return Err(value);
        };
        self.slots.insert_reserved(Slot { number, value });
        Ok(())
    }

    /// Takes the value under this number out. Takes no memory.
    #[tactic(auto, using(crate::proofs::SlotLemmas::held_rising))]
    pub fn remove(&mut self, number: u64) -> Option<V>
        ensures rising { IsStrictlySortedBy nat_cmp (keys_of self.old) }
        ensures value { result ≡ lookup (is_at (nat_cmp number)) self.old }
        ensures entries { self.new ≡ remove_entry (is_at (nat_cmp number)) self.old }
        ensures unchanged { IfNone result (self.new ≡ self.old) }
    {
        let Some(slot) = self.places.remove(&number) else {
            return None;
        };
        let Some(held) = self.slots.try_remove(slot) else {
            unreachable!();
        };
        Some(held.into_value())
    }
}

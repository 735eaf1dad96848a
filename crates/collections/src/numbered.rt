//! What has a number, seen as a finite map.

ghost use Rattle.std.specs.Prelude.{◌≡◌, ◌<◌, ◌≤◌, ℕ, OnOk, OnErr, IsOk, IfOk, IfSome, IfNone, IsSome, IsSomeAnd, is_some};
ghost use Rattle.std.specs.FinMap as map;
ghost use Rattle.std.specs.Map.{keys_of};
ghost use Rattle.std.specs.Option.{option_copied, option_copied_mut};
ghost use Rattle.std.specs.Borrow.{sem};
ghost use Rattle.collections.specs.Numbered.{lends_value};

use crate::slots::Slots;
use std::alloc::{AllocError, Global};
use std::marker::Model;

/// Values by their numbers, found in logarithmic time, and without a search where the same one is asked for again ([`Slots`]).
/// Contracts see a finite map.
#[derive(Debug, Drop)]
pub struct Numbered<V> {
    values: Slots<V>,
}

impl<V> Model for Numbered<V> {
    ghost use Rattle.std.specs.Ordering.{nat_cmp};
    ghost use Rattle.std.specs.FinMap as map;
    ghost use Rattle.std.specs.Coded.{coded_ℕ};

    ghost Value = { map.FinMap nat_cmp V };

    ghost coded = { map.code coded_ℕ V.code };

    ghost view = { λ n. map.from_entries n.values };
}

impl<V> Numbered<V> {
    /// None yet. Takes no memory.
    pub fn new(alloc: Global) -> Numbered<V>
        ensures { result ≡ map.empty }
    {
        Numbered {
            values: Slots::new(alloc),
        }
    }

    /// How many there are.
    pub fn len(&self) -> usize
        ensures { result ≡ map.len self.now }
    {
        self.values.len()
    }

    /// The numbers, rising.
    pub fn numbers(&self, alloc: Global) -> Result<Vec<u64>, AllocError>
        ensures { IfOk result (λ numbers. numbers.items ≡ keys_of (map.entries self.now)) }
    {
        self.values.numbers(alloc)
    }

    /// The lowest number above this one, or the lowest of all. Takes no memory. Who asks for it from None on, and then each time
    /// from the last answer on, goes through all numbers as they rise.
    pub fn number_above(&self, below: Option<u64>) -> Option<u64>
        ensures held { IfSome result (λ number. IsSome (map.get self.now number)) }
        ensures above { IfSome result (λ number. IfSome below (λ below. below < number)) }
        ensures lowest { (number : ℕ) → IfSome below (λ below. below < number) → IsSome (map.get self.now number) → IsSomeAnd result (λ lowest. lowest ≤ number) }
    {
        self.values.number_above(below)
    }

    /// Whether there is one with this number.
    pub fn contains(&self, number: u64) -> bool
        ensures { result ≡ is_some (map.get self.now number) }
    {
        self.get(number).is_some()
    }

    /// The one with this number.
    pub fn get(&self, number: u64) -> Option<&V>
        ensures { option_copied result ≡ map.get self.now number }
    {
        self.values.get(number)
    }

    /// The one with this number, to be changed in its place. Takes no memory.
    pub fn get_mut(&mut self, number: u64) -> Option<&mut V>
        ensures* writes_back { sem 𝓛 (lends_value V.row self.entry number result) }
        ensures found { option_copied_mut result ≡ map.get self.old number }
    {
        self.values.get_mut(number)
    }

    /// Takes the one with this number out. Takes no memory.
    pub fn remove(&mut self, number: u64) -> Option<V>
        ensures found { result ≡ map.get self.old number }
        ensures removed { self.new ≡ map.remove self.old number }
        ensures absent { IfNone result (self.new ≡ self.old) }
    {
        self.values.remove(number)
    }
}

impl<V: Drop> Numbered<V> {
    /// Gives this number a value, in the place of one that it had. At an `Err` nothing changed. Where it had one, no memory is taken.
    pub fn insert(&mut self, number: u64, value: V) -> Result<(), AllocError>
        ensures ok { OnOk result (self.new ≡ map.insert self.old number value) }
        ensures err { OnErr result (self.new ≡ self.old) }
        ensures memory { IfSome (map.get self.old number) (λ before. IsOk result) }
    {
        if let Some(held) = self.values.get_mut(number) {
            *held = value;
            return Ok(());
        }
        match self.values.insert(number, value) {
            Ok(()) => Ok(()),
            Err(_) => Err(AllocError),
        }
    }
}

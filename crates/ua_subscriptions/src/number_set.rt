//! Sets of numbers.

ghost use Rattle.std.specs.Prelude.{◌≡◌, [], length, OnOk, IfOk};
ghost use Rattle.std.specs.BTreeMap.{is_at};
ghost use Rattle.std.specs.BTreeSet.{insert_key};
ghost use Rattle.std.specs.Ordering.{nat_cmp};
ghost use Rattle.std.specs.Set.{remove_key};

use std::alloc::{AllocError, Global};
use std::collections::BTreeSet;
use std::marker::Model;

/// Numbers, each at most once. Contracts see the list of them, rising.
#[derive(Debug, Drop)]
pub struct NumberSet {
    keys: BTreeSet<u32>,
}

impl Model for NumberSet {
    ghost use Rattle.std.specs.Prelude.{ℕ, List};

    ghost Value = { List ℕ };

    ghost view = { λ n. n.keys.keys };
}

impl NumberSet {
    /// None. Takes no memory.
    pub fn new(alloc: Global) -> NumberSet
        ensures { result ≡ [] }
    {
        NumberSet {
            keys: BTreeSet::new(alloc),
        }
    }

    /// How many there are.
    pub fn len(&self) -> usize
        ensures { result ≡ length self.now }
    {
        self.keys.len()
    }

    /// One more, in logarithmic time.
    pub fn insert(&mut self, number: u32) -> Result<(), AllocError>
        ensures { OnOk result (self.new ≡ insert_key nat_cmp self.old number) }
    {
        self.keys.insert(number)?;
        Ok(())
    }

    /// One less, in logarithmic time. Takes no memory.
    pub fn remove(&mut self, number: u32)
        ensures { self.new ≡ remove_key (is_at (nat_cmp number)) self.old }
    {
        let _ = self.keys.remove(&number);
    }

    /// A copy of them, rising.
    pub fn to_vec(&self, alloc: Global) -> Result<Vec<u32>, AllocError>
        ensures { IfOk result (λ numbers. numbers.items ≡ self.now) }
    {
        let mut numbers = Vec::with_capacity(alloc, self.keys.len())?;
        for number in &self.keys {
            numbers.push(*number)?;
        }
        Ok(numbers)
    }
}

//! How many there are of each.

ghost use Rattle.std.specs.Prelude.{◌≡◌, [], OnOk};
ghost use Rattle.socket_peers.specs.Tally.{count_of, one_more, one_less};

use std::alloc::{AllocError, Global};
use std::collections::BTreeMap;
use std::marker::Model;

/// How many there are of each of some numbers. Contracts see both, by rising number, for those of which there is one at least.
#[derive(Drop)]
pub(crate) struct Tally {
    counts: BTreeMap<u128, u64>,
}

impl Model for Tally {
    ghost use Rattle.std.specs.Prelude.{ℕ, List};

    ghost Value = { List (ℕ × ℕ) };

    ghost view = { λ t. t.counts.entries };
}

impl Tally {
    /// None yet. Takes no memory.
    pub(crate) fn new(alloc: Global) -> Tally
        ensures { result ≡ [] }
    {
        Tally {
            counts: BTreeMap::new(alloc),
        }
    }

    /// How many there are of this one.
    pub(crate) fn of(&self, key: u128) -> u64
        ensures { result ≡ count_of self.now key }
    {
        match self.counts.get(&key) {
            None => 0,
            Some(count) => *count,
        }
    }

    /// There is one more of this one.
    pub(crate) fn add(&mut self, key: u128) -> Result<(), AllocError>
        ensures { OnOk result (self.new ≡ one_more self.old key) }
    {
        let Some(count) = self.of(key).checked_add(1) else {
            return Err(AllocError);
        };
        match self.counts.insert(key, count) {
            Ok(_) => Ok(()),
            Err(_) => Err(AllocError),
        }
    }

    /// There is one less of this one. Takes no memory.
    pub(crate) fn subtract(&mut self, key: u128)
        ensures { self.new ≡ one_less self.old key }
    {
        let count = self.of(key);
        if count <= 1 {
            self.counts.remove(&key);
        } else if let Some(held) = self.counts.get_mut(&key) {
            *held = count - 1;
        }
    }
}

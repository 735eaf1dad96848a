//! Which connections are open.

ghost use Rattle.std.specs.Prelude.{◌≡◌, OnOk, OnErr, is_some};
ghost use Rattle.std.specs.FinMap as map;

use std::alloc::{AllocError, Global};
use std::collections::BTreeMap;
use std::marker::Model;

/// Which connections are open, found in logarithmic time. Contracts see a finite map with nothing under
/// each number.
#[derive(Debug, Drop)]
pub struct OpenConnections {
    // Nothing under each number.
    numbers: BTreeMap<u64, ()>,
}

impl Model for OpenConnections {
    ghost use Rattle.std.specs.Ordering.{nat_cmp};
    ghost use Rattle.std.specs.FinMap as map;
    ghost use Rattle.std.specs.FinSet as set;
    ghost use Rattle.std.specs.Coded.{coded_ℕ};

    ghost Value = { map.FinMap nat_cmp (Unit {0}) };

    ghost coded = { set.code coded_ℕ };

    ghost view = { λ n. map.from_entries n.numbers.entries };
}

impl OpenConnections {
    /// None yet. Takes no memory.
    pub fn new(alloc: Global) -> OpenConnections
        ensures { result ≡ map.empty }
    {
        OpenConnections {
            numbers: BTreeMap::new(alloc),
        }
    }

    /// Whether the connection is open.
    pub fn contains(&self, connection: u64) -> bool
        ensures { result ≡ is_some (map.get self.now connection) }
    {
        self.numbers.contains_key(&connection)
    }

    /// The connection is no longer open. Takes no memory.
    pub fn remove(&mut self, connection: u64)
        ensures { self.new ≡ map.remove self.old connection }
    {
        self.numbers.remove(&connection);
    }

    /// The connection is open. At an `Err` they are as they were.
    pub fn insert(&mut self, connection: u64) -> Result<(), AllocError>
        ensures ok { OnOk result (self.new ≡ map.insert self.old connection tt) }
        ensures err { OnErr result (self.new ≡ self.old) }
    {
        self.numbers.insert(connection, ())?;
        Ok(())
    }
}

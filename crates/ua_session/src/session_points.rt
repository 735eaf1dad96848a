//! The continuation points of each session.

ghost use Rattle.std.specs.Prelude.{◌≡◌, OnOk, OnErr, is_some};
ghost use Rattle.std.specs.Borrow.{sem};
ghost use Rattle.std.specs.FinMap as map;
ghost use Rattle.std.specs.Option.{option_copied_mut};
ghost use Rattle.ua_session.specs.PointLends.{lends_entry};
ghost use Rattle.ua_session.specs.Sessions.{without};

use crate::points::Points;
use std::alloc::{AllocError, Global};
use std::collections::BTreeMap;
use std::marker::Model;

/// The continuation points of sessions, by the sessions' numbers. Contracts see a finite map.
#[derive(Drop)]
pub struct SessionPoints {
    entries: BTreeMap<u32, Points>,
}

impl Model for SessionPoints {
    ghost use Rattle.std.specs.Ordering.{nat_cmp};
    ghost use Rattle.std.specs.FinMap as map;
    ghost use Rattle.std.specs.Coded.{coded_ℕ};
    ghost use Rattle.ua_session.specs.Points.{PointsState};
    ghost use Rattle.ua_session.specs.PointCodes.{points_code};

    ghost Value = { map.FinMap nat_cmp PointsState };

    ghost coded = { map.code coded_ℕ points_code };

    ghost view = { λ p. map.from_entries p.entries.entries };
}

impl SessionPoints {
    /// None. Takes no memory.
    pub fn new(alloc: Global) -> SessionPoints
        ensures { result ≡ map.empty }
    {
        SessionPoints {
            entries: BTreeMap::new(alloc),
        }
    }

    /// Whether the session with this number has any entry.
    pub fn contains(&self, number: u32) -> bool
        ensures { result ≡ is_some (map.get self.now number) }
    {
        self.entries.contains_key(&number)
    }

    /// Those of the session with this number, to be changed in their place. Takes no memory.
    pub fn get_mut(&mut self, number: u32) -> Option<&mut Points>
        ensures* writes_back { sem 𝓛 (lends_entry self.entry number result) }
        ensures found { option_copied_mut result ≡ map.get self.old number }
    {
        self.entries.get_mut(&number)
    }

    /// Drops those of the session with this number. Takes no memory.
    pub fn remove(&mut self, number: u32)
        ensures { self.new ≡ map.remove self.old number }
    {
        self.entries.remove(&number);
    }

    /// Drops those of the sessions with these numbers. Takes no memory.
    pub fn remove_all(&mut self, numbers: &[u32])
        ensures { self.new ≡ without self.old numbers.now }
    {
        for number in numbers {
            self.remove(*number);
        }
    }

    /// Gives these to the session with this number. At an `Err` nothing changed.
    pub fn insert(&mut self, number: u32, points: Points) -> Result<(), AllocError>
        ensures ok { OnOk result (self.new ≡ map.insert self.old number points) }
        ensures err { OnErr result (self.new ≡ self.old) }
    {
        self.entries.insert(number, points)?;
        Ok(())
    }
}

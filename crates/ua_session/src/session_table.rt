//! Sessions by their numbers.

ghost use Rattle.std.specs.Prelude.{◌≡◌, [], true, None, IsOk, OnOk, OnErr, IfOk, is_some};
ghost use Rattle.std.specs.FinMap as map;
ghost use Rattle.ua_session.specs.SessionTables.{due_in, IsNoneDueBefore};

use crate::session::Session;
use slab::Slab;
use std::alloc::{AllocError, Global};
use std::collections::BTreeMap;
use std::marker::Model;
use ua_types::Moment;

/// A session in its slot, with its number.
#[derive(Clone, Copy, Debug)]
pub struct Slot {
    pub number: u32,
    pub session: Session,
}

/// Sessions by their numbers. Contracts see a finite map.
///
/// The sessions lie in a slab, whose slots are used again; numbers never are. An ordered map leads from a
/// number to its slot, in logarithmic time.
#[derive(Drop)]
pub struct SessionTable {
    slots: Slab<Slot>,
    numbers: BTreeMap<u32, usize>,
}

impl Model for SessionTable {
    ghost use Rattle.std.specs.Ordering.{nat_cmp};
    ghost use Rattle.std.specs.FinMap as map;
    ghost use Rattle.std.specs.Coded.{coded_ℕ};
    ghost use Rattle.ua_session.specs.declared.session.Session.{Session as SessionRecord};
    ghost use Rattle.ua_session.specs.Codes.{session_code};
    ghost use Rattle.ua_session.specs.SessionTables.{held_in, IsTable};

    ghost Value = { map.FinMap nat_cmp SessionRecord };

    ghost coded = { map.code coded_ℕ session_code };

    ghost view = { λ t. map.from_entries (held_in t.slots.slots t.numbers.entries) };

    ghost invariant = { λ t. IsTable t.slots t.numbers.entries };
}

impl SessionTable {
    /// No session. Takes no memory.
    pub fn new(alloc: Global) -> SessionTable
        ensures { result ≡ map.empty }
    {
        SessionTable {
            slots: Slab::new(alloc),
            numbers: BTreeMap::new(alloc),
        }
    }

    /// How many sessions there are.
    pub fn len(&self) -> usize
        ensures { result ≡ map.len self.now }
    {
        self.numbers.len()
    }

    /// The session with this number.
    #[tactic(auto, using(crate::proofs::TableLemmas::get_held))]
    pub fn get(&self, number: u32) -> Option<Session>
        ensures { result ≡ map.get self.now number }
    {
        let slot = self.numbers.get(&number)?;
        let held = self.slots.get(*slot)?;
        Some(held.session)
    }

    /// One more session, under a number that none has. At an `Err` nothing changed.
    pub fn insert(&mut self, number: u32, session: Session) -> Result<(), AllocError>
        requires { map.get self.old number ≡ None }
        ensures ok { OnOk result (self.new ≡ map.insert self.old number session) }
        ensures err { OnErr result (self.new ≡ self.old) }
    {
        self.slots.reserve(1)?;
        let slot = self.slots.vacant_key();
        self.numbers.insert(number, slot)?;
        self.slots.insert_reserved(Slot { number, session });
        Ok(())
    }

    /// Puts a session in the place of the one with this number. Takes no memory.
    pub fn set(&mut self, number: u32, session: Session)
        requires { is_some (map.get self.old number) ≡ true }
        ensures { self.new ≡ map.insert self.old number session }
    {
        if let Some(slot) = self.numbers.get(&number) {
            if let Some(held) = self.slots.get_mut(*slot) {
                held.session = session;
            }
        }
    }

    /// Takes the session with this number out. Takes no memory.
    pub fn remove(&mut self, number: u32)
        ensures { self.new ≡ map.remove self.old number }
    {
        if let Some(slot) = self.numbers.remove(&number) {
            self.slots.try_remove(slot);
        }
    }

    /// The numbers of the sessions whose deadline the clock has reached, rising. Takes no memory where
    /// there is none.
    pub fn due(&self, alloc: Global, clock: Moment) -> Result<Vec<u32>, AllocError>
        ensures due { IfOk result (λ numbers. numbers.items ≡ due_in clock (map.entries self.now)) }
        ensures idle { due_in clock (map.entries self.now) ≡ [] → IsOk result }
    {
        let mut due = Vec::new(alloc);
        for (number, slot) in &self.numbers {
            if let Some(held) = self.slots.get(*slot) {
                if held.session.is_due(clock) {
                    due.push(*number)?;
                }
            }
        }
        Ok(due)
    }

    /// A moment before which no session is due. Ticks before it look at no session; a deadline that is set later may only bring it
    /// forward, so it is looked for again only once it is reached.
    pub fn earliest(&self) -> Moment
        ensures { IsNoneDueBefore result self.now }
    {
        let mut earliest = i64::MAX;
        for (_, slot) in &self.numbers {
            if let Some(held) = self.slots.get(*slot) {
                earliest = earliest.min(held.session.deadline.0);
            }
        }
        Moment(earliest)
    }
}

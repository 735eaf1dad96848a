//! Who keeps what is stored.

ghost use Rattle.std.specs.Prelude.{Option, None, [], OnOk, OnErr};
ghost use Rattle.server_messages.specs.Kept.{Kept, Keeps, IsLasting, GrowsBy};

use crate::store_fault::StoreFault;
use crate::stored::Stored;

/// Who keeps values and histories, so that they outlast the server.
///
/// Contracts see what it keeps, or nothing where that isn't known, and what the next start may find. Each keeper says by these
/// what its words promise: one of whom it is never known what is kept promises nothing.
pub trait Keeper {
    /// What it keeps, where that is known.
    ghost kept: { Self → Option Kept };

    /// What the next start may find, if the program or its machine ended now.
    ghost may_find: { Self → Kept → Type 0 };

    // Where it is known what is kept, the next start finds just that.
    ghost lasting: { (keeper : Self) → IsLasting (kept keeper) (may_find keeper) };

    /// Keeps these, one after the other, all of them or none. After `Ok` they are there whatever becomes of the program and its
    /// machine. After an `Err` none of them is, and what was kept before still is.
    fn keep(&mut self, stored: &[Stored]) -> Result<(), StoreFault>
        ensures kept { OnOk result (Keeps stored.now (kept self.old) (kept self.new)) }
        ensures refused { OnErr result (Keeps [] (kept self.old) (kept self.new)) }
        // Whatever it answers, the next start finds what it would have found before, or all of these too.
        ensures crash { GrowsBy stored.now (kept self.old) (may_find self.old) (may_find self.new) };
}

/// Nobody: nothing is kept, as where the configuration has no store.
#[derive(Clone, Copy, Debug)]
pub struct NoKeeper;

impl Keeper for NoKeeper {
    ghost kept = { λ _. None };

    ghost may_find = { λ _ _. ⊥ };

    ghost lasting = { λ _. tt };

    fn keep(&mut self, _stored: &[Stored]) -> Result<(), StoreFault> {
        Ok(())
    }
}

//! What can be read and written.

ghost use Rattle.std.specs.Prelude.{◌≡◌, ◌≢◌, ◌<◌, ℕ, List, ◌++◌, length, Err, OnOk, OnErr};
ghost use Rattle.ua_binary.specs.Reading.{Reading, Reads, Extends, IsReadAgain};
ghost use Rattle.ua_binary.specs.Texts.{IsBacked};
ghost use Rattle.ua_binary.specs.declared.fault.TakeFault.TheVariants.{Memory};

use crate::cursor::Cursor;
use crate::fault::TakeFault;
use std::alloc::{AllocError, Global};

/// A type of the binary encoding (IEC 62541-6, 5.2).
///
/// Callers use [`Wire::take`] and [`Wire::put`], which at an `Err` leave the cursor and the output
/// as they were. Implementors write `decode` and `encode`, plain chains of `?` over the fields.
pub trait Wire: Drop {
    /// What bytes begin with: a value and the bytes after it, or the first fault.
    ghost reading: { Reading Self };

    /// The one sequence of bytes that is written for a value.
    ghost encoding: { Self → List ℕ };

    /// Bytes of which a value is read or refused without memory: all of them for a type of fixed size, for a
    /// text, a byte string, a list and a Variant those that claim more than is left, for an id those that say a number
    /// or a Guid, and else none.
    ghost spares_memory: { List ℕ → Type 0 } = { λ _. ⊥ };

    /// Bytes before which an allocation may fail: a length and at least so many bytes after it. For a Variant, and
    /// for what holds one outside of a list, also a whole Variant whose content has a block of its own.
    ghost wants_memory: { List ℕ → Type 0 } = { IsBacked };

    /// Reads the fields in order. At an `Err` the cursor stands where the fault is, and at `Memory` before what
    /// found no room, which is there: no length that claims more than is left costs memory.
    fn decode(alloc: Global, cursor: &mut Cursor<'_>) -> Result<Self, TakeFault>
        ensures reads { Reads result cursor.new (reading cursor.old) }
        ensures claim { spares_memory cursor.old → result ≢ Err Memory }
        ensures backed { result ≡ Err Memory → wants_memory cursor.new };

    /// Writes the fields in order. The error is want of memory, and some of them are then written.
    fn encode(&self, out: &mut Vec<u8>) -> Result<(), AllocError>
        ensures ok { OnOk result (out.new.items ≡ out.old.items ++ encoding self.now) }
        ensures err { OnErr result (Extends out.old.items out.new.items) }
        ensures again { OnOk result (IsReadAgain reading encoding self.now) }
        ensures some { OnOk result (0 < length (encoding self.now)) };

    /// Reads a value and moves past it; what follows it isn't looked at.
    ///
    /// At an `Err`, the first fault, the cursor stands where it stood. `Memory` comes only where an
    /// allocation failed.
    final fn take(alloc: Global, cursor: &mut Cursor<'_>) -> Result<Self, TakeFault>
        ensures reads { Reads result cursor.new (reading cursor.old) }
        ensures claim { spares_memory cursor.old → result ≢ Err Memory }
        ensures err { OnErr result (cursor.new ≡ cursor.old) }
    {
        let mut at = Cursor::new(cursor.rest());
        let value = Self::decode(alloc, &mut at)?;
        *cursor = at;
        Ok(value)
    }

    /// Writes a value behind what was written before. The error is want of memory, and nothing is then written.
    final fn put(&self, out: &mut Vec<u8>) -> Result<(), AllocError>
        ensures ok { OnOk result (out.new.items ≡ out.old.items ++ encoding self.now) }
        ensures err { OnErr result (out.new.items ≡ out.old.items) }
        ensures again { OnOk result (IsReadAgain reading encoding self.now) }
    {
        let start = out.len();
        let outcome = self.encode(out);
        if outcome.is_err() {
            out.truncate(start);
        }
        outcome
    }
}

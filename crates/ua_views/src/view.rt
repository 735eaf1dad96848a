//! What can be looked at in place.

ghost use Rattle.std.specs.Prelude.{◌≡◌, ◌≢◌, Err, OnErr};
ghost use Rattle.ua_binary.specs.declared.fault.TakeFault.TheVariants.{Memory};
ghost use Rattle.ua_binary.specs.Reading.{Reading, Reads};
ghost use Rattle.ua_views.specs.Passing.{Skips};

use ua_binary::{Cursor, TakeFault};

/// A type that bytes are read as.
///
/// It stands apart from [`View`], so that a struct may have it as a bound whatever the lifetime of the bytes.
pub trait Readable {
    /// What bytes begin with: a value and the bytes after it, or the first fault.
    ghost reading: { Reading Self };
}

/// A type that is read without a copy: its texts and byte strings are slices of the bytes that it stands in.
///
/// Contracts see a view as the value that [`ua_binary::Wire::take`] reads from these bytes, and both are by the same
/// reading. So what is said of the value holds of the view. No call takes memory.
///
/// Callers use [`View::view`], which at an `Err` leaves the cursor as it was. Implementors write `look`, a plain chain
/// of `?` over the fields.
pub trait View<'a>: Readable + Drop {
    /// Looks at the fields in order. At an `Err`, the first fault, the cursor stands where the fault is.
    fn look(cursor: &mut Cursor<'a>) -> Result<Self, TakeFault>
        ensures reads { Reads result cursor.new (Self.reading cursor.old) }
        ensures no_memory { result ≢ Err Memory };

    /// Moves past the fields in order, for a caller that keeps no view. At an `Err`, the first fault, the cursor stands where the fault
    /// is.
    #[inline(always)]
    final fn pass(cursor: &mut Cursor<'a>) -> Result<(), TakeFault>
        ensures skips { Skips result cursor.new (Self.reading cursor.old) }
        ensures no_memory { result ≢ Err Memory }
    {
        Self::look(cursor)?;
        Ok(())
    }

    /// Looks at a value and moves past it; what follows it isn't looked at.
    ///
    /// At an `Err`, the first fault, the cursor stands where it stood.
    final fn view(cursor: &mut Cursor<'a>) -> Result<Self, TakeFault>
        ensures reads { Reads result cursor.new (Self.reading cursor.old) }
        ensures no_memory { result ≢ Err Memory }
        ensures err { OnErr result (cursor.new ≡ cursor.old) }
    {
        let mut at = Cursor::new(cursor.rest());
        let view = Self::look(&mut at)?;
        *cursor = at;
        Ok(view)
    }
}

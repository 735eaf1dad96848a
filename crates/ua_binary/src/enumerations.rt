//! Enumerations: numbers with names.

ghost use Rattle.std.specs.Prelude.{◌≡◌, ℤ, ⊤};
ghost use Rattle.ua_binary.specs.Enumerations.{enumeration_reading, enumeration_encoding};

use crate::cursor::Cursor;
use crate::fault::TakeFault;
use crate::wire::Wire;
use std::alloc::{AllocError, Global};

/// An enumeration of the standard (enumerations, IEC 62541-6, section 5.2).
///
/// On the wire it is an Int32 of which any value is read. So it is a struct round a number, with
/// constants for the numbers that have a meaning, and not an enum. By this trait it is [`Wire`].
pub trait Enumeration: Drop {
    /// The value that has this number.
    ghost of_number: { ℤ → Self };

    /// The number of a value.
    ghost number_of: { Self → ℤ };

    /// The value that has this number.
    fn from_number(number: i32) -> Self
        ensures { result ≡ of_number number };

    /// The number that is written for it.
    fn number(&self) -> i32
        ensures { result ≡ number_of self.now };

    /// Each value is the one that has its number.
    ghost kept: { (v : Self) → of_number (number_of v) ≡ v };
}

#[tactic(auto, unfolding(crate::specs::Enumerations::enumeration_reading, crate::specs::Enumerations::enumeration_encoding))]
impl<E: Enumeration> Wire for E {
    ghost reading = { enumeration_reading E.of_number };

    ghost encoding = { enumeration_encoding E.number_of };

    ghost spares_memory = { λ _. ⊤ };

    fn decode(alloc: Global, cursor: &mut Cursor<'_>) -> Result<E, TakeFault> {
        let number = i32::decode(alloc, cursor)?;
        Ok(E::from_number(number))
    }

    fn encode(&self, out: &mut Vec<u8>) -> Result<(), AllocError> {
        self.number().encode(out)
    }
}

//! What can be written, also where it is only borrowed.

ghost use Rattle.std.specs.Prelude.{◌≡◌, ◌<◌, ℕ, List, ◌++◌, length, OnOk, OnErr};
ghost use Rattle.ua_binary.specs.Reading.{Reading, Extends, IsReadAgain};

use crate::wire::Wire;
use std::alloc::AllocError;

/// A value that can be written.
///
/// Each [`Wire`] is one. So is a struct that borrows the parts of such a value, by which what is stored
/// elsewhere is written without a copy ([`crate::BorrowedDataValue`]). Contracts see it as the value.
pub trait Written {
    /// What bytes begin with: a value and the bytes after it, or the first fault.
    ghost reading: { Reading Self };

    /// The one text that is written for a value.
    ghost encoding: { Self → List ℕ };

    /// Writes the fields in order. At an `Err` some of them are written.
    fn write(&self, out: &mut Vec<u8>) -> Result<(), AllocError>
        ensures ok { OnOk result (out.new.items ≡ out.old.items ++ encoding self.now) }
        ensures err { OnErr result (Extends out.old.items out.new.items) }
        ensures again { OnOk result (IsReadAgain reading encoding self.now) }
        ensures some { OnOk result (0 < length (encoding self.now)) };
}

impl<T: Wire> Written for T {
    ghost reading = { T.Wire.reading };

    ghost encoding = { T.Wire.encoding };

    #[inline(always)]
    fn write(&self, out: &mut Vec<u8>) -> Result<(), AllocError> {
        self.encode(out)
    }
}

//! Floating-point numbers, which are carried and never computed with.

ghost use Rattle.std.specs.Prelude.{⊤};

use crate::copyable::Copyable;
use std::alloc::{AllocError, Global};

/// The four bytes of a single, as they stand on the wire (Float, IEC 62541-6, 5.2.2.3).
///
/// Two of them are equal where their bytes are. The order is that of the bytes, not of the numbers.
#[derive(Clone, Copy, Debug, PartialEq, Eq, PartialOrd, Ord)]
pub struct Float(pub [u8; 4]);

/// The eight bytes of a double, as they stand on the wire (Double, IEC 62541-6, 5.2.2.3).
///
/// Two of them are equal where their bytes are. The order is that of the bytes, not of the numbers.
#[derive(Clone, Copy, Debug, PartialEq, Eq, PartialOrd, Ord)]
pub struct Double(pub [u8; 8]);

impl Copyable for Float {
    ghost is_plain = { λ _. ⊤ };

    fn copy(&self, _alloc: Global) -> Result<Float, AllocError> {
        Ok(*self)
    }
}

impl Copyable for Double {
    ghost is_plain = { λ _. ⊤ };

    fn copy(&self, _alloc: Global) -> Result<Double, AllocError> {
        Ok(*self)
    }
}

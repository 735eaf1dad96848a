//! Values that begin where slices begin.

ghost use Rattle.std.specs.Prelude.{◌≡◌};

use std::marker::Model;

/// A number or a Guid, where a slice may stand instead ([`crate::IdentifierView`]). Contracts see it as the value.
///
/// It begins at a multiple of eight bytes, as a slice does, so that an enum that holds one or the other is moved in whole words:
/// one whose payload begins at four is moved in pieces that overlap, each of which waits for the one before.
#[derive(Debug, Drop)]
pub struct Aligned<T> {
    value: T,
    words: [u64; 0],
}

impl<T> Model for Aligned<T> {
    ghost Value = { T };

    ghost view = { λ a. a.value };
}

impl<T: Copy> Aligned<T> {
    /// The value, aligned.
    pub fn new(value: T) -> Aligned<T>
        ensures { result ≡ value }
    {
        Aligned { value, words: [] }
    }

    /// The value itself.
    pub fn get(&self) -> T
        ensures { result ≡ self.now }
    {
        self.value
    }
}

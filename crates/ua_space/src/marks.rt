//! Marks of numbers, a bit for each.

ghost use Rattle.std.specs.Prelude.{◌≡◌, ◌<◌, ◌*◌, ℕ, false, true, length, slice_set};
ghost use Rattle.ua_space.specs.Marks.{is_marked};

use std::marker::Model;

/// Which numbers below 64 times `WORDS` are marked.
///
/// It lies on the stack, where a byte for each number would be eight times as large.
#[derive(Drop)]
pub(crate) struct Marks<const WORDS: usize> {
    // The bits of the numbers, the lowest of the first word first.
    words: [u64; WORDS],
}

impl<const WORDS: usize> Model for Marks<WORDS> {
    ghost use Rattle.std.specs.Prelude.{Bool, List, ◌*◌};
    ghost use Rattle.ua_space.specs.Marks.{bits_of};

    ghost Value = { List Bool };

    ghost view = { λ m. bits_of m.words 0 (WORDS * 64) };
}

impl<const WORDS: usize> Marks<WORDS> {
    /// No number is marked.
    pub(crate) fn none() -> Marks<WORDS>
        ensures none { (n : ℕ) → is_marked result n ≡ false }
        ensures size { length result ≡ WORDS * 64 }
    {
        Marks { words: [0; WORDS] }
    }

    /// Whether a number is marked.
    pub(crate) fn has(&self, number: usize) -> bool
        requires { number < length self.now }
        ensures { result ≡ is_marked self.now number }
    {
        (self.words[number / 64] >> (number % 64)) & 1 == 1
    }

    /// Marks a number.
    pub(crate) fn add(&mut self, number: usize)
        requires { number < length self.old }
        ensures { self.new ≡ slice_set self.old number true }
    {
        self.words[number / 64] |= 1 << (number % 64);
    }
}

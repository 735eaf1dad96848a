//! When serving ends.

ghost use Rattle.std.specs.Prelude.{◌≡◌, ℕ, Bool, true, false};

/// When serving ends: behind so many turns, or behind one at which this asks to stop.
pub trait Until<R> {
    /// The most turns; 0 stands for no bound.
    ghost most: { Self → ℕ };

    /// Whether it may ask to stop.
    ghost may_ask: { Bool };

    /// The most turns; 0 stands for no bound. It is asked once, before the first.
    fn turns(&self) -> u64
        ensures { result ≡ most self.now };

    /// Whether to stop now. It is asked behind each turn, and turns are short where sockets are busy: who has to look further may look
    /// at a clock first.
    fn asks_to_stop(&mut self, rt: &R) -> bool
        ensures { result ≡ true → may_ask ≡ true };
}

/// So many turns, or without end for 0. It never asks to stop.
#[derive(Clone, Copy, Debug, PartialEq, Eq)]
pub struct Turns(pub u64);

impl<R> Until<R> for Turns {
    ghost most = { λ t. t.0 };

    ghost may_ask = { false };

    fn turns(&self) -> u64 {
        self.0
    }

    fn asks_to_stop(&mut self, _rt: &R) -> bool {
        false
    }
}

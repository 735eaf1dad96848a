//! How many values a queue may hold.

ghost use Rattle.std.specs.Prelude.{◌≡◌, ◌≤◌, ℕ};

use std::marker::Model;

/// How many values a queue may hold: at least one. Contracts see the number.
pub struct QueueSize {
    places: u32,
}

impl Model for QueueSize {
    ghost Value = { ℕ };

    ghost view = { λ s. s.places };

    ghost invariant = { λ s. 1 ≤ s.places };
}

impl QueueSize {
    /// So many values.
    pub fn new(places: u32) -> QueueSize
        requires { 1 ≤ places }
        ensures { result ≡ places }
    {
        QueueSize { places }
    }

    // So many values.
    pub(crate) fn places(self) -> u32
        ensures places { result ≡ self }
        ensures some { 1 ≤ result }
    {
        let QueueSize { places } = self;
        places
    }
}

// Written out, so that a proof sees a drop as one call and not as its cases.
impl Drop for QueueSize {
    fn drop(self) {
        let QueueSize { places: _ } = self;
    }
}

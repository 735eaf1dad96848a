//! What holds of every reading. The laws have no code: their contracts state them.

ghost use Rattle.std.specs.Prelude.{◌≡◌, ◌≤◌, ℕ, List, length, Some, Ok};
ghost use Rattle.ua_binary.specs.Arrays.{array_reading};

use crate::wire::Wire;

/// A list that is read, and so one that [`Wire::take`] gives, has at most as many elements as bytes
/// were left.
pub fn list_is_within_its_bytes<T: Wire>()
    ensures { (bytes rest : List ℕ) (elements : List T) → array_reading T.reading bytes ≡ Ok (Some elements, rest) →
        length elements ≤ length bytes }
{}

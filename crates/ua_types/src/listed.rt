//! Lists that grow at their end.

ghost use Rattle.std.specs.Prelude.{◌≡◌, [], ◌∷◌, ◌++◌, OnOk, OnErr};

use std::alloc::{AllocError, Global};
use std::marker::Model;

/// A list that grows at its end. Contracts see the list of its elements, and nothing of its room.
///
/// Unlike [`Array`](crate::Array) it is no value of the wire: it is never null, and its length has no bound of its own.
#[derive(Debug, Drop)]
pub struct Listed<T> {
    // In the order in which they were added.
    items: Vec<T>,
}

impl<T> Model for Listed<T> {
    ghost use Rattle.std.specs.Prelude.{List};

    ghost Value = { List T };

    ghost view = { λ l. l.items.items };
}

impl<T> Listed<T> {
    /// A list of nothing. Takes no memory.
    pub fn new(alloc: Global) -> Listed<T>
        ensures { result ≡ [] }
    {
        Listed {
            items: Vec::new(alloc),
        }
    }

    /// A list of these elements. Takes no memory.
    pub fn from_vec(items: Vec<T>) -> Listed<T>
        ensures { result ≡ items.items }
    {
        Listed { items }
    }

    /// The elements.
    pub fn as_slice(&self) -> &[T]
        ensures { result.now ≡ self.now }
    {
        self.items.as_slice()
    }

    /// The elements, to be taken apart. Takes no memory.
    pub fn into_vec(self) -> Vec<T>
        ensures { result.items ≡ self }
    {
        self.items
    }

    /// Takes the room for one more element.
    pub fn reserve_one(&mut self) -> Result<(), AllocError>
        ensures { self.new ≡ self.old }
    {
        self.items.reserve(1)
    }
}

impl<T: Drop> Listed<T> {
    /// One more element. At an `Err` the list is as it was.
    pub fn push(&mut self, item: T) -> Result<(), AllocError>
        ensures ok { OnOk result (self.new ≡ self.old ++ item ∷ []) }
        ensures err { OnErr result (self.new ≡ self.old) }
    {
        self.items.push(item)?;
        Ok(())
    }

    /// The elements of another list at the end. At an `Err` the list is as it was.
    pub fn append(&mut self, mut other: Listed<T>) -> Result<(), AllocError>
        ensures ok { OnOk result (self.new ≡ self.old ++ other) }
        ensures err { OnErr result (self.new ≡ self.old) }
    {
        self.items.append(&mut other.items)
    }
}

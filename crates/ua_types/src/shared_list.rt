//! Lists of stored values, each of which may be null.

ghost use Rattle.std.specs.Prelude.{◌≡◌, ◌<◌, ◌^◌, List, length, Option, Some, None, option_map, IfSome, IfOk};
ghost use Rattle.std.specs.Vec.{vec_len};

use crate::copyable::{Copyable, copy_all};
use crate::shared::Shared;
use std::alloc::{AllocError, Global};
use std::marker::Model;

/// A list of fewer than 2^31 elements, or null, as a value holds it (arrays, IEC 62541-6, 5.2.5).
///
/// Null differs from the empty list. Unlike an [`Array`](crate::Array) it is copied by one owner more, whatever its length.
#[derive(Debug)]
pub struct SharedList<T> {
    // None is null, which differs from empty.
    inside: Option<Shared<Vec<T>>>,
}

impl<T> Model for SharedList<T> {
    ghost Value = { Option (List T) };

    ghost view = { λ a. option_map (λ v. v.items) a.inside };

    ghost invariant = { λ a. IfSome a.inside (λ v. vec_len v < 2 ^ 31) };
}

impl<T> SharedList<T> {
    /// The null list.
    pub const fn null() -> SharedList<T>
        ensures { result ≡ None }
    {
        SharedList { inside: None }
    }

    /// The elements, unless it is null.
    pub fn as_slice(&self) -> Option<&[T]>
        ensures items { option_map (λ s. s.now) result ≡ self.now }
        ensures short { IfSome self.now (λ items. length items < 2 ^ 31) }
    {
        match &self.inside {
            None => None,
            Some(items) => Some(items.as_slice()),
        }
    }

    /// A list of the elements of a block. Takes no memory.
    pub fn from_shared(items: Shared<Vec<T>>) -> SharedList<T>
        requires { vec_len items < 2 ^ 31 }
        ensures { result ≡ Some items.items }
    {
        SharedList {
            inside: Some(items),
        }
    }

    /// The block of the elements, unless it is null. Takes no memory.
    pub fn into_shared(self) -> Option<Shared<Vec<T>>>
        ensures items { option_map (λ v. v.items) result ≡ self }
        ensures short { IfSome result (λ v. vec_len v < 2 ^ 31) }
    {
        let SharedList { inside } = self;
        inside
    }
}

impl<T: Drop> SharedList<T> {
    /// A list of these elements, which takes a block beside theirs.
    pub fn new(items: Vec<T>) -> Result<SharedList<T>, AllocError>
        requires { vec_len items < 2 ^ 31 }
        ensures { IfOk result (λ list. list ≡ Some items.items) }
    {
        let alloc = *items.allocator();
        Ok(SharedList {
            inside: Some(Shared::new(alloc, items)?),
        })
    }
}

impl<T: Copyable> SharedList<T> {
    /// The elements, unless it is null: those themselves where the list has one owner, or else copies of them. An `Err` leaves
    /// nothing behind.
    pub fn into_vec(self, alloc: Global) -> Result<Option<Vec<T>>, AllocError>
        ensures items { IfOk result (λ items. option_map (λ v. v.items) items ≡ self) }
        ensures short { IfOk result (λ items. IfSome items (λ v. vec_len v < 2 ^ 31)) }
    {
        let SharedList { inside } = self;
        match inside {
            None => Ok(None),
            Some(items) => match items.try_unwrap() {
                Ok(items) => Ok(Some(items)),
                Err(shared) => Ok(Some(copy_all(alloc, shared.as_slice())?)),
            },
        }
    }
}

// Written out, so that a proof sees a drop as one call and not as its cases.
impl<T: Drop> Drop for SharedList<T> {
    fn drop(self) {
        let SharedList { inside: _ } = self;
    }
}

impl<T: Drop> Copyable for SharedList<T> {
    ghost is_plain = { λ list. list ≡ None };

    fn copy(&self, _alloc: Global) -> Result<SharedList<T>, AllocError> {
        match &self.inside {
            None => Ok(SharedList::null()),
            Some(items) => Ok(SharedList {
                inside: Some(items.share()?),
            }),
        }
    }
}

//! Lists, each of which may be null.

ghost use Rattle.std.specs.Prelude.{◌≡◌, ◌<◌, ◌^◌, List, length, Option, Some, None, option_map, IfSome, is_none};
ghost use Rattle.std.specs.Vec.{vec_len};

use crate::copyable::{Copyable, copy_all};
use std::alloc::{AllocError, Global};
use std::marker::Model;

/// A list of fewer than 2^31 elements, or null (arrays, IEC 62541-6, 5.2.5).
///
/// Null differs from the empty list.
#[derive(Debug)]
pub struct Array<T> {
    // None is null, which differs from empty.
    inside: Option<Vec<T>>,
}

impl<T> Model for Array<T> {
    ghost Value = { Option (List T) };

    ghost view = { λ a. option_map (λ v. v.items) a.inside };

    ghost invariant = { λ a. IfSome a.inside (λ v. vec_len v < 2 ^ 31) };
}

impl<T> Array<T> {
    /// The null list.
    pub const fn null() -> Array<T>
        ensures { result ≡ None }
    {
        Array { inside: None }
    }

    /// A list of these elements.
    pub fn new(items: Vec<T>) -> Array<T>
        requires { vec_len items < 2 ^ 31 }
        ensures { result ≡ Some items.items }
    {
        Array {
            inside: Some(items),
        }
    }

    /// Whether it is null.
    pub fn is_null(&self) -> bool
        ensures { result ≡ is_none self.now }
    {
        self.inside.is_none()
    }

    /// The elements, unless it is null.
    pub fn as_slice(&self) -> Option<&[T]>
        ensures items { option_map (λ s. s.now) result ≡ self.now }
        ensures short { IfSome self.now (λ items. length items < 2 ^ 31) }
    {
        match &self.inside {
            None => None,
            Some(items) => Some(items.as_slice()),
        }
    }

    /// The elements themselves, unless it is null.
    pub fn into_vec(self) -> Option<Vec<T>>
        ensures items { option_map (λ v. v.items) result ≡ self }
        ensures short { IfSome result (λ v. vec_len v < 2 ^ 31) }
    {
        let Array { inside } = self;
        inside
    }
}

// Written out, so that a proof sees a drop as one call and not as its cases.
impl<T: Drop> Drop for Array<T> {
    fn drop(self) {
        let Array { inside: _ } = self;
    }
}

impl<T: Copyable> Copyable for Array<T> {
    ghost is_plain = { λ list. list ≡ None };

    fn copy(&self, alloc: Global) -> Result<Array<T>, AllocError> {
        match self.as_slice() {
            None => Ok(Array::null()),
            Some(items) => Ok(Array::new(copy_all(alloc, items)?)),
        }
    }
}

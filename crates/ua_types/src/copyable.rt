//! Copies of values that hold memory of their own.

ghost use Rattle.std.specs.Prelude.{◌≡◌, ⊤, length, IfOk, IsOk};
ghost use Rattle.std.specs.Vec.{vec_len};

use crate::duration::Duration;
use crate::guid::Guid;
use crate::moment::Moment;
use crate::status::Status;
use std::alloc::{AllocError, Global};

/// A value that can be copied, where the copy may want memory.
pub trait Copyable: Drop {
    /// Values that hold no text, no bytes and no list.
    ghost is_plain: { Self → Type 0 } = { λ _. ⊥ };

    /// An equal value. Takes no memory where the value holds no text, no bytes and no list. An `Err` leaves nothing behind.
    fn copy(&self, alloc: Global) -> Result<Self, AllocError>
        ensures copy { IfOk result (λ copy. copy ≡ self.now) }
        ensures plain { is_plain self.now → IsOk result };
}

/// Copies of these elements, in order.
pub fn copy_all<T: Copyable>(alloc: Global, items: &[T]) -> Result<Vec<T>, AllocError>
    ensures items { IfOk result (λ copies. copies.items ≡ items.now) }
    ensures len { IfOk result (λ copies. vec_len copies ≡ length items.now) }
{
    let mut copies = Vec::with_capacity(alloc, items.len())?;
    for item in items {
        copies.push(item.copy(alloc)?)?;
    }
    Ok(copies)
}

impl Copyable for bool {
    ghost is_plain = { λ _. ⊤ };

    fn copy(&self, _alloc: Global) -> Result<bool, AllocError> {
        Ok(*self)
    }
}

impl Copyable for u8 {
    ghost is_plain = { λ _. ⊤ };

    fn copy(&self, _alloc: Global) -> Result<u8, AllocError> {
        Ok(*self)
    }
}

impl Copyable for u16 {
    ghost is_plain = { λ _. ⊤ };

    fn copy(&self, _alloc: Global) -> Result<u16, AllocError> {
        Ok(*self)
    }
}

impl Copyable for u32 {
    ghost is_plain = { λ _. ⊤ };

    fn copy(&self, _alloc: Global) -> Result<u32, AllocError> {
        Ok(*self)
    }
}

impl Copyable for u64 {
    ghost is_plain = { λ _. ⊤ };

    fn copy(&self, _alloc: Global) -> Result<u64, AllocError> {
        Ok(*self)
    }
}

impl Copyable for i8 {
    ghost is_plain = { λ _. ⊤ };

    fn copy(&self, _alloc: Global) -> Result<i8, AllocError> {
        Ok(*self)
    }
}

impl Copyable for i16 {
    ghost is_plain = { λ _. ⊤ };

    fn copy(&self, _alloc: Global) -> Result<i16, AllocError> {
        Ok(*self)
    }
}

impl Copyable for i32 {
    ghost is_plain = { λ _. ⊤ };

    fn copy(&self, _alloc: Global) -> Result<i32, AllocError> {
        Ok(*self)
    }
}

impl Copyable for i64 {
    ghost is_plain = { λ _. ⊤ };

    fn copy(&self, _alloc: Global) -> Result<i64, AllocError> {
        Ok(*self)
    }
}

impl Copyable for Status {
    ghost is_plain = { λ _. ⊤ };

    fn copy(&self, _alloc: Global) -> Result<Status, AllocError> {
        Ok(*self)
    }
}

impl Copyable for Moment {
    ghost is_plain = { λ _. ⊤ };

    fn copy(&self, _alloc: Global) -> Result<Moment, AllocError> {
        Ok(*self)
    }
}

impl Copyable for Duration {
    ghost is_plain = { λ _. ⊤ };

    fn copy(&self, _alloc: Global) -> Result<Duration, AllocError> {
        Ok(*self)
    }
}

impl Copyable for Guid {
    ghost is_plain = { λ _. ⊤ };

    fn copy(&self, _alloc: Global) -> Result<Guid, AllocError> {
        Ok(*self)
    }
}

//! Byte strings, each of which may be null.

ghost use Rattle.std.specs.Prelude.{◌≡◌, ℕ, ◌<◌, ◌^◌, List, length, Option, Some, None, option_map, IfSome, IfOk, is_none, ◌==◌};
ghost use Rattle.std.specs.Vec.{vec_len};
ghost use Rattle.std.specs.Option.{option_eq, option_cmp};
ghost use Rattle.std.specs.Cmp.{partial_order_from_own_ties};
ghost use Rattle.std.specs.Cmp.Lexicographic.{pointwise, slice_cmp};
ghost use Rattle.std.specs.Cmp.Rules.{comparing};
ghost use Rattle.std.specs.Ordering.{nat_cmp, as_partial_cmp};
ghost use Rattle.std.proofs.Common.{rules};
ghost use Rattle.ua_types.specs.Given.{is_given};
ghost use Rattle.ua_types.specs.NullableOrder.{ties};

use crate::copyable::Copyable;
use crate::shared::Shared;
use std::alloc::{AllocError, Global};
use std::cmp::Ordering;
use std::marker::Model;

/// Fewer than 2^31 bytes, or null (ByteString, IEC 62541-6, 5.2.2.7).
///
/// Null differs from the empty byte string, and comes first in the order.
#[derive(Debug)]
pub struct ByteString {
    // None is null, which differs from empty.
    inside: Option<Shared<Vec<u8>>>,
}

impl Model for ByteString {
    ghost Value = { Option (List ℕ) };

    ghost view = { λ b. option_map (λ v. v.items) b.inside };

    ghost invariant = { λ b. IfSome b.inside (λ v. vec_len v < 2 ^ 31) };
}

impl ByteString {
    /// The null byte string.
    pub const fn null() -> ByteString
        ensures { result ≡ None }
    {
        ByteString { inside: None }
    }

    /// A byte string of these bytes, which takes a block beside theirs.
    pub fn new(bytes: Vec<u8>) -> Result<ByteString, AllocError>
        requires { vec_len bytes < 2 ^ 31 }
        ensures { IfOk result (λ b. b ≡ Some bytes.items) }
    {
        let alloc = *bytes.allocator();
        Ok(ByteString {
            inside: Some(Shared::new(alloc, bytes)?),
        })
    }

    /// A byte string with a copy of these bytes.
    pub fn from_slice(alloc: Global, bytes: &[u8]) -> Result<ByteString, AllocError>
        requires { length bytes.now < 2 ^ 31 }
        ensures { IfOk result (λ b. b ≡ Some bytes.now) }
    {
        ByteString::new(Vec::from_slice(alloc, bytes)?)
    }

    /// Whether it is null.
    pub fn is_null(&self) -> bool
        ensures { result ≡ is_none self.now }
    {
        self.inside.is_none()
    }

    /// Whether it is neither null nor empty, as a continuation point has to be where one is given.
    pub fn is_given(&self) -> bool
        ensures { result ≡ is_given self.now }
    {
        match self.as_slice() {
            None => false,
            Some(bytes) => !bytes.is_empty(),
        }
    }

    /// The bytes, unless it is null.
    pub fn as_slice(&self) -> Option<&[u8]>
        ensures bytes { option_map (λ s. s.now) result ≡ self.now }
        ensures short { IfSome self.now (λ bytes. length bytes < 2 ^ 31) }
    {
        match &self.inside {
            None => None,
            Some(bytes) => Some(bytes.as_slice()),
        }
    }
}

// Written out, so that a proof sees a drop as one call and not as its cases.
impl Drop for ByteString {
    fn drop(self) {
        let ByteString { inside: _ } = self;
    }
}

impl Copyable for ByteString {
    ghost is_plain = { λ value. value ≡ None };

    fn copy(&self, _alloc: Global) -> Result<ByteString, AllocError> {
        match &self.inside {
            None => Ok(ByteString::null()),
            Some(bytes) => Ok(ByteString {
                inside: Some(bytes.share()?),
            }),
        }
    }
}

impl PartialEq for ByteString {
    ghost eq = { option_eq (pointwise ◌==◌) };

    ghost laws = { Prim.search (comparing, rules) };

    fn eq(&self, other: &ByteString) -> bool {
        self.inside == other.inside
    }
}

impl Eq for ByteString {
    ghost laws = { Prim.search (comparing, rules) };
}

impl PartialOrd for ByteString {
    ghost partial_cmp = { as_partial_cmp (option_cmp (slice_cmp nat_cmp)) };

    ghost laws = { partial_order_from_own_ties (Prim.search (comparing, rules)) ties };

    fn partial_cmp(&self, other: &ByteString) -> Option<Ordering> {
        Some(self.cmp(other))
    }
}

impl Ord for ByteString {
    ghost cmp = { option_cmp (slice_cmp nat_cmp) };

    ghost total = { Prim.search (comparing, rules) };

    ghost matches_partial_cmp = { Prim.search (comparing, rules) };

    ghost matches_eq = { ties };

    fn cmp(&self, other: &ByteString) -> Ordering {
        self.inside.cmp(&other.inside)
    }
}

//! Texts, each of which may be null.

ghost use Rattle.std.specs.Prelude.{◌≡◌, ℕ, ◌<◌, ◌^◌, List, length, Option, Some, None, option_map, IfSome, IfOk, is_none, ◌==◌};
ghost use Rattle.std.specs.String.{string_bytes, string_len};
ghost use Rattle.std.specs.Option.{option_eq, option_cmp};
ghost use Rattle.std.specs.Cmp.{partial_order_from_own_ties};
ghost use Rattle.std.specs.Cmp.Lexicographic.{pointwise, slice_cmp};
ghost use Rattle.std.specs.Cmp.Rules.{comparing};
ghost use Rattle.std.specs.Ordering.{nat_cmp, as_partial_cmp};
ghost use Rattle.std.proofs.Common.{rules};
ghost use Rattle.ua_types.specs.Given.{is_given};
ghost use Rattle.ua_types.specs.NullableOrder.{ties};

use crate::copyable::Copyable;
use crate::shared::Shared;
use std::alloc::{AllocError, Global};
use std::cmp::Ordering;
use std::marker::Model;

/// A text of UTF-8 of fewer than 2^31 bytes, or null (String, IEC 62541-6, 5.2.2.4).
///
/// Null differs from the empty text. Null comes first in the order, and texts go by their bytes.
#[derive(Debug)]
pub struct Text {
    // None is null, which differs from empty.
    inside: Option<Shared<String>>,
}

impl Model for Text {
    ghost Value = { Option (List ℕ) };

    ghost view = { λ t. option_map (λ s. string_bytes s) t.inside };

    ghost invariant = { λ t. IfSome t.inside (λ s. string_len s < 2 ^ 31) };
}

impl Text {
    /// The null text.
    pub const fn null() -> Text
        ensures { result ≡ None }
    {
        Text { inside: None }
    }

    /// A text with these characters, which takes a block beside theirs.
    pub fn new(text: String) -> Result<Text, AllocError>
        requires { string_len text < 2 ^ 31 }
        ensures { IfOk result (λ t. t ≡ Some (string_bytes text)) }
    {
        let alloc = *text.allocator();
        Ok(Text {
            inside: Some(Shared::new(alloc, text)?),
        })
    }

    /// A text with a copy of these characters.
    pub fn from_str(alloc: Global, text: &str) -> Result<Text, AllocError>
        requires { length text.now < 2 ^ 31 }
        ensures { IfOk result (λ t. t ≡ Some text.now) }
    {
        Text::new(String::from_str(alloc, text)?)
    }

    /// Whether it is null.
    pub fn is_null(&self) -> bool
        ensures { result ≡ is_none self.now }
    {
        self.inside.is_none()
    }

    /// Whether it is neither null nor empty, as an index range has to be where one is given.
    pub fn is_given(&self) -> bool
        ensures { result ≡ is_given self.now }
    {
        match self.as_str() {
            None => false,
            Some(text) => !text.is_empty(),
        }
    }

    /// The characters, unless it is null.
    pub fn as_str(&self) -> Option<&str>
        ensures text { option_map (λ s. s.now) result ≡ self.now }
        ensures short { IfSome self.now (λ bytes. length bytes < 2 ^ 31) }
    {
        match &self.inside {
            None => None,
            Some(text) => Some(text.as_str()),
        }
    }
}

// Written out, so that a proof sees a drop as one call and not as its cases.
impl Drop for Text {
    fn drop(self) {
        let Text { inside: _ } = self;
    }
}

impl Copyable for Text {
    ghost is_plain = { λ value. value ≡ None };

    fn copy(&self, _alloc: Global) -> Result<Text, AllocError> {
        match &self.inside {
            None => Ok(Text::null()),
            Some(text) => Ok(Text {
                inside: Some(text.share()?),
            }),
        }
    }
}

impl PartialEq for Text {
    ghost eq = { option_eq (pointwise ◌==◌) };

    ghost laws = { Prim.search (comparing, rules) };

    fn eq(&self, other: &Text) -> bool {
        self.inside == other.inside
    }
}

impl Eq for Text {
    ghost laws = { Prim.search (comparing, rules) };
}

impl PartialOrd for Text {
    ghost partial_cmp = { as_partial_cmp (option_cmp (slice_cmp nat_cmp)) };

    ghost laws = { partial_order_from_own_ties (Prim.search (comparing, rules)) ties };

    fn partial_cmp(&self, other: &Text) -> Option<Ordering> {
        Some(self.cmp(other))
    }
}

impl Ord for Text {
    ghost cmp = { option_cmp (slice_cmp nat_cmp) };

    ghost total = { Prim.search (comparing, rules) };

    ghost matches_partial_cmp = { Prim.search (comparing, rules) };

    ghost matches_eq = { ties };

    fn cmp(&self, other: &Text) -> Ordering {
        self.inside.cmp(&other.inside)
    }
}

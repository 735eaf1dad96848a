//! Texts for people.

ghost use Rattle.std.specs.Prelude.{◌≡◌, None};

use crate::copyable::Copyable;
use crate::text::Text;
use std::alloc::{AllocError, Global};

/// A text in some language (LocalizedText, IEC 62541-3, 8.5).
#[derive(Debug, Drop, PartialEq, Eq, PartialOrd, Ord)]
pub struct LocalizedText {
    /// The language, as `en-US`, or null.
    pub locale: Text,
    pub text: Text,
}

impl Copyable for LocalizedText {
    ghost is_plain = { λ text. (text.locale ≡ None) × (text.text ≡ None) };

    fn copy(&self, alloc: Global) -> Result<LocalizedText, AllocError> {
        Ok(LocalizedText {
            locale: self.locale.copy(alloc)?,
            text: self.text.copy(alloc)?,
        })
    }
}

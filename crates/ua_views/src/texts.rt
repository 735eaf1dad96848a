//! Texts and byte strings.

ghost use Rattle.std.specs.Prelude.{◌≡◌, None, option_map, IfOk, is_none};
ghost use Rattle.ua_binary.specs.Texts.{text_reading, byte_string_reading};
ghost use Rattle.ua_types.specs.Given.{is_given};

use crate::view::{Readable, View};
use std::alloc::{AllocError, Global};
use std::marker::Model;
use ua_binary::{Cursor, TakeFault};
use ua_types::{ByteString, Text};

/// A [`Text`] in the bytes that it stands in.
#[derive(Debug, Drop)]
pub struct TextView<'a> {
    // None is null, which differs from empty.
    inside: Option<&'a str>,
}

impl<'a> Model for TextView<'a> {
    ghost use Rattle.std.specs.Prelude.{ℕ, ◌<◌, ◌^◌, List, length, Option, option_map, IfSome};

    ghost Value = { Option (List ℕ) };

    ghost view = { λ t. option_map (λ s. s.now) t.inside };

    ghost invariant = { λ t. IfSome t.inside (λ s. length s.now < 2 ^ 31) };
}

impl<'a> TextView<'a> {
    // The null text.
    pub(crate) fn null() -> TextView<'a>
        ensures { result ≡ None }
    {
        TextView { inside: None }
    }

    /// A text that stands elsewhere.
    pub fn of(text: &'a Text) -> TextView<'a>
        ensures { result ≡ text.now }
    {
        let inside = text.as_str();
        TextView { inside }
    }

    /// Whether it is null.
    pub fn is_null(&self) -> bool
        ensures { result ≡ is_none self.now }
    {
        self.inside.is_none()
    }

    /// Whether it is neither null nor empty, as an index range has to be where one is given.
    pub fn is_given(&self) -> bool
        ensures { result ≡ is_given self.now }
    {
        match self.inside {
            None => false,
            Some(text) => !text.is_empty(),
        }
    }

    /// The characters, unless it is null.
    pub fn as_str(&self) -> Option<&'a str>
        ensures { option_map (λ s. s.now) result ≡ self.now }
    {
        self.inside
    }

    /// A copy to keep.
    pub fn to_value(&self, alloc: Global) -> Result<Text, AllocError>
        ensures { IfOk result (λ text. text ≡ self.now) }
    {
        match self.inside {
            None => Ok(Text::null()),
            Some(text) => Text::from_str(alloc, text),
        }
    }
}

impl<'a> Readable for TextView<'a> {
    ghost reading = { text_reading };
}

impl<'a> View<'a> for TextView<'a> {
    fn look(cursor: &mut Cursor<'a>) -> Result<TextView<'a>, TakeFault> {
        let inside = cursor.text()?;
        Ok(TextView { inside })
    }
}

/// A [`ByteString`] in the bytes that it stands in.
#[derive(Debug, Drop)]
pub struct ByteStringView<'a> {
    // None is null, which differs from empty.
    inside: Option<&'a [u8]>,
}

impl<'a> Model for ByteStringView<'a> {
    ghost use Rattle.std.specs.Prelude.{ℕ, ◌<◌, ◌^◌, List, length, Option, option_map, IfSome};

    ghost Value = { Option (List ℕ) };

    ghost view = { λ b. option_map (λ s. s.now) b.inside };

    ghost invariant = { λ b. IfSome b.inside (λ s. length s.now < 2 ^ 31) };
}

impl<'a> ByteStringView<'a> {
    /// A byte string that stands elsewhere.
    pub fn of(bytes: &'a ByteString) -> ByteStringView<'a>
        ensures { result ≡ bytes.now }
    {
        let inside = bytes.as_slice();
        ByteStringView { inside }
    }

    /// Whether it is null.
    pub fn is_null(&self) -> bool
        ensures { result ≡ is_none self.now }
    {
        self.inside.is_none()
    }

    /// Whether it is neither null nor empty, as a continuation point has to be where one is given.
    pub fn is_given(&self) -> bool
        ensures { result ≡ is_given self.now }
    {
        match self.inside {
            None => false,
            Some(bytes) => !bytes.is_empty(),
        }
    }

    /// The bytes, unless it is null.
    pub fn as_slice(&self) -> Option<&'a [u8]>
        ensures { option_map (λ s. s.now) result ≡ self.now }
    {
        self.inside
    }

    /// A copy to keep.
    pub fn to_value(&self, alloc: Global) -> Result<ByteString, AllocError>
        ensures { IfOk result (λ bytes. bytes ≡ self.now) }
    {
        match self.inside {
            None => Ok(ByteString::null()),
            Some(bytes) => ByteString::from_slice(alloc, bytes),
        }
    }
}

impl<'a> Readable for ByteStringView<'a> {
    ghost reading = { byte_string_reading };
}

impl<'a> View<'a> for ByteStringView<'a> {
    fn look(cursor: &mut Cursor<'a>) -> Result<ByteStringView<'a>, TakeFault> {
        let inside = cursor.byte_string()?;
        Ok(ByteStringView { inside })
    }
}

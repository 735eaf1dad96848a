//! Texts and byte strings.

ghost use Rattle.std.specs.Prelude.{◌≡◌, ◌≢◌, ◌<◌, ◌^◌, ◌++◌, length, Ok, Err, Some, None, IfOk, IfErr, IfSome, OnOk, OnErr};
ghost use Rattle.ua_binary.specs.declared.fault.TakeFault.TheVariants.{Memory};
ghost use Rattle.ua_binary.specs.Reading.{Extends, IsReadAgain};
ghost use Rattle.ua_binary.specs.Texts.{text_reading, byte_string_reading, text_encoding, byte_string_encoding, ClaimsTooMany};

use crate::cursor::Cursor;
use crate::fault::TakeFault;
use crate::wire::Wire;
use std::alloc::{AllocError, Global};
use ua_types::{ByteString, Text};

/// The length that is written for a null String, ByteString or array: -1 as an Int32 (IEC 62541-6, 5.2.2.4).
pub const NULL_LENGTH: u32 = 0xffff_ffff;

// Writes bytes behind their length.
#[tactic(auto, using(crate::proofs::Extending::extends_more, crate::proofs::Again::byte_string_again), unfolding(crate::specs::Texts::byte_string_encoding))]
#[inline(always)]
fn encode_sized(bytes: &[u8], out: &mut Vec<u8>) -> Result<(), AllocError>
    requires { length bytes.now < 2 ^ 31 }
    ensures ok { OnOk result (out.new.items ≡ out.old.items ++ byte_string_encoding (Some bytes.now)) }
    ensures err { OnErr result (Extends out.old.items out.new.items) }
    ensures again { OnOk result (IsReadAgain byte_string_reading byte_string_encoding (Some bytes.now)) }
    ensures some { OnOk result (0 < length (byte_string_encoding (Some bytes.now))) }
{
    (bytes.len() as u32).encode(out)?;
    out.extend_from_slice(bytes)
}

// Writes the length of null.
#[tactic(auto, unfolding(crate::specs::Texts::byte_string_encoding, crate::specs::Texts::byte_string_reading))]
#[inline(always)]
fn encode_null(out: &mut Vec<u8>) -> Result<(), AllocError>
    ensures ok { OnOk result (out.new.items ≡ out.old.items ++ byte_string_encoding None) }
    ensures err { OnErr result (Extends out.old.items out.new.items) }
    ensures again { OnOk result (IsReadAgain byte_string_reading byte_string_encoding None) }
    ensures some { OnOk result (0 < length (byte_string_encoding None)) }
{
    NULL_LENGTH.encode(out)
}

/// Writes a text that isn't null, as [`Text`] is written. At an `Err` a part of it is written.
#[tactic(auto, using(crate::proofs::Again::text_again))]
#[inline(always)]
pub fn write_text(text: &str, out: &mut Vec<u8>) -> Result<(), AllocError>
    requires { length text.now < 2 ^ 31 }
    ensures ok { OnOk result (out.new.items ≡ out.old.items ++ text_encoding (Some text.now)) }
    ensures err { OnErr result (Extends out.old.items out.new.items) }
    ensures again { OnOk result (IsReadAgain text_reading text_encoding (Some text.now)) }
    ensures some { OnOk result (0 < length (text_encoding (Some text.now))) }
{
    encode_sized(text.as_bytes(), out)
}

#[tactic(auto, using(crate::proofs::Again::text_again, crate::proofs::Again::overclaim_is_short), unfolding(crate::specs::Texts::text_reading))]
impl Wire for Text {
    ghost reading = { text_reading };

    ghost encoding = { text_encoding };

    ghost spares_memory = { ClaimsTooMany };

    fn decode(alloc: Global, cursor: &mut Cursor<'_>) -> Result<Text, TakeFault> {
        let mut at = Cursor::new(cursor.rest());
        let text = match at.text()? {
            None => Text::null(),
            Some(text) => Text::from_str(alloc, text)?,
        };
        *cursor = at;
        Ok(text)
    }

    #[inline(always)]
    fn encode(&self, out: &mut Vec<u8>) -> Result<(), AllocError> {
        match self.as_str() {
            None => encode_null(out),
            Some(text) => write_text(text, out),
        }
    }
}

#[tactic(auto, using(crate::proofs::Again::overclaim_is_short))]
impl Wire for ByteString {
    ghost reading = { byte_string_reading };

    ghost encoding = { byte_string_encoding };

    ghost spares_memory = { ClaimsTooMany };

    fn decode(alloc: Global, cursor: &mut Cursor<'_>) -> Result<ByteString, TakeFault> {
        let mut at = Cursor::new(cursor.rest());
        let bytes = match at.byte_string()? {
            None => ByteString::null(),
            Some(bytes) => ByteString::from_slice(alloc, bytes)?,
        };
        *cursor = at;
        Ok(bytes)
    }

    fn encode(&self, out: &mut Vec<u8>) -> Result<(), AllocError> {
        match self.as_slice() {
            None => encode_null(out),
            Some(bytes) => encode_sized(bytes, out),
        }
    }
}

//! Texts for people.

ghost use Rattle.std.specs.Prelude.{◌≡◌, ◌<◌, ◌++◌, length, None, OnOk, OnErr};
ghost use Rattle.ua_binary.specs.Reading.{Extends, IsReadAgain};
ghost use Rattle.ua_binary.specs.LocalizedTexts.{localized_text_reading, localized_text_encoding};

use crate::cursor::Cursor;
use crate::fault::TakeFault;
use crate::parts::{encode_unless_null, text_where_set};
use crate::wire::Wire;
use std::alloc::{AllocError, Global};
use ua_types::{LocalizedText, Text};

// Writes which parts there are, and those.
#[tactic(auto, using(crate::proofs::Extending::extends_more), unfolding(crate::specs::LocalizedTexts::localized_text_reading, crate::specs::LocalizedTexts::localized_text_encoding))]
fn encode_parts(locale: &Text, text: &Text, out: &mut Vec<u8>) -> Result<(), AllocError>
    ensures ok { OnOk result (out.new.items ≡ out.old.items ++ localized_text_encoding (record { locale = locale.now; text = text.now })) }
    ensures err { OnErr result (Extends out.old.items out.new.items) }
    ensures again { OnOk result (IsReadAgain localized_text_reading localized_text_encoding (record { locale = locale.now; text = text.now })) }
    ensures some { OnOk result (0 < length (localized_text_encoding (record { locale = locale.now; text = text.now }))) }
{
    let locale_bit = if locale.is_null() { 0u8 } else { 1 };
    let text_bit = if text.is_null() { 0u8 } else { 2 };
    (locale_bit + text_bit).encode(out)?;
    encode_unless_null(locale, out)?;
    encode_unless_null(text, out)
}

#[tactic(auto, unfolding(crate::specs::LocalizedTexts::localized_text_reading))]
impl Wire for LocalizedText {
    ghost reading = { localized_text_reading };

    ghost encoding = { localized_text_encoding };

    fn decode(alloc: Global, cursor: &mut Cursor<'_>) -> Result<LocalizedText, TakeFault> {
        let mask = u8::decode(alloc, cursor)?;
        Ok(LocalizedText {
            locale: text_where_set(alloc, mask % 2, cursor)?,
            text: text_where_set(alloc, mask / 2 % 2, cursor)?,
        })
    }

    fn encode(&self, out: &mut Vec<u8>) -> Result<(), AllocError> {
        encode_parts(&self.locale, &self.text, out)
    }
}

/// Writes a text as the [`LocalizedText`] of no locale (IEC 62541-6, 5.2.2.14). At an `Err` a part of it is written.
pub fn write_without_locale(text: &Text, out: &mut Vec<u8>) -> Result<(), AllocError>
    ensures ok { OnOk result (out.new.items ≡ out.old.items ++ localized_text_encoding (record { locale = None; text = text.now })) }
    ensures err { OnErr result (Extends out.old.items out.new.items) }
    ensures again { OnOk result (IsReadAgain localized_text_reading localized_text_encoding (record { locale = None; text = text.now })) }
    ensures some { OnOk result (0 < length (localized_text_encoding (record { locale = None; text = text.now }))) }
{
    encode_parts(&Text::null(), text, out)
}

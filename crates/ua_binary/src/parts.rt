//! Parts that are there where a bit says so.

ghost use Rattle.std.specs.Prelude.{◌≡◌, ◌≢◌, ◌++◌, List, ℕ, OnOk, OnErr, IfSome, Ok, Err, None};
ghost use Rattle.std.specs.Int.{w32};
ghost use Rattle.ua_binary.specs.declared.fault.TakeFault.TheVariants.{Memory};
ghost use Rattle.ua_binary.specs.Reading.{Reads, Extends};
ghost use Rattle.ua_binary.specs.Numbers.{number_reading};
ghost use Rattle.ua_binary.specs.Texts.{text_reading, IsBacked};
ghost use Rattle.ua_binary.specs.Parts.{where_set, text_unless_null};

use crate::cursor::Cursor;
use crate::fault::TakeFault;
use crate::wire::Wire;
use std::alloc::{AllocError, Global};
use ua_types::Text;

// Reads a text where the bit is set. An absent text is null.
pub(crate) fn text_where_set(
    alloc: Global,
    bit: u8,
    cursor: &mut Cursor<'_>,
) -> Result<Text, TakeFault>
    ensures reads { Reads result cursor.new (where_set bit None text_reading cursor.old) }
    ensures backed { result ≡ Err Memory → IsBacked cursor.new }
{
    if bit == 0 {
        Ok(Text::null())
    } else {
        Text::decode(alloc, cursor)
    }
}

// Reads a number where the bit is set. An absent number is 0.
pub(crate) fn number_where_set(
    alloc: Global,
    bit: u8,
    cursor: &mut Cursor<'_>,
) -> Result<u32, TakeFault>
    ensures reads { Reads result cursor.new (where_set bit 0 (number_reading w32) cursor.old) }
    ensures no_memory { result ≢ Err Memory }
{
    if bit == 0 {
        Ok(0)
    } else {
        u32::decode(alloc, cursor)
    }
}

// Writes a text unless it is null.
#[tactic(auto, using(crate::proofs::Extending::extends_more))]
pub(crate) fn encode_unless_null(text: &Text, out: &mut Vec<u8>) -> Result<(), AllocError>
    ensures ok { OnOk result (out.new.items ≡ out.old.items ++ text_unless_null text.now) }
    ensures err { OnErr result (Extends out.old.items out.new.items) }
    ensures again { OnOk result (IfSome text.now (λ _. (x : List ℕ) → text_reading (text_unless_null text.now ++ x) ≡ Ok (text.now, x))) }
{
    if text.is_null() {
        return Ok(());
    }
    text.encode(out)
}

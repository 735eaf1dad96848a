//! Parts that are there where a bit says so.

ghost use Rattle.std.specs.Prelude.{◌≡◌, ◌≢◌, Err, None};
ghost use Rattle.std.specs.Int.{w32};
ghost use Rattle.ua_binary.specs.declared.fault.TakeFault.TheVariants.{Memory};
ghost use Rattle.ua_binary.specs.Reading.{Reads};
ghost use Rattle.ua_binary.specs.Numbers.{number_reading};
ghost use Rattle.ua_binary.specs.Texts.{text_reading};
ghost use Rattle.ua_binary.specs.Parts.{where_set};

use crate::texts::TextView;
use crate::view::View;
use ua_binary::{Cursor, TakeFault};

// Looks at a text where the bit is set. An absent text is null.
pub(crate) fn look_text_where_set<'a>(
    bit: u8,
    cursor: &mut Cursor<'a>,
) -> Result<TextView<'a>, TakeFault>
    ensures reads { Reads result cursor.new (where_set bit None text_reading cursor.old) }
    ensures no_memory { result ≢ Err Memory }
{
    if bit == 0 {
        Ok(TextView::null())
    } else {
        TextView::look(cursor)
    }
}

// Looks at a number where the bit is set. An absent number is 0.
pub(crate) fn look_number_where_set(bit: u8, cursor: &mut Cursor<'_>) -> Result<u32, TakeFault>
    ensures reads { Reads result cursor.new (where_set bit 0 (number_reading w32) cursor.old) }
    ensures no_memory { result ≢ Err Memory }
{
    if bit == 0 { Ok(0) } else { u32::look(cursor) }
}

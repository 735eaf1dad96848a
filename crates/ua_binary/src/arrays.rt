//! Lists, for every type of elements.

ghost use Rattle.std.specs.Prelude.{◌≡◌, ◌≤◌, ◌<◌, ◌^◌, Some, length, IfOk, OnOk, OnErr, ◌++◌, All};
ghost use Rattle.std.specs.List.{flat_map};
ghost use Rattle.std.specs.Vec.{vec_len};
ghost use Rattle.ua_binary.specs.Reading.{ReadsAs, Extends, IsReadAgain};
ghost use Rattle.ua_binary.specs.Texts.{ClaimsTooMany};
ghost use Rattle.ua_binary.specs.Arrays.{array_reading, elements_reading, array_encoding};

use crate::cursor::Cursor;
use crate::fault::TakeFault;
use crate::texts::NULL_LENGTH;
use crate::wire::Wire;
use crate::written::Written;
use std::alloc::{AllocError, Global};
use ua_types::Array;

/// The most elements for which room is taken before they are read.
const ROOM: usize = 1024;

// So many elements.
pub(crate) fn elements<T: Wire>(
    alloc: Global,
    count: usize,
    cursor: &mut Cursor<'_>,
) -> Result<Vec<T>, TakeFault>
    ensures reads { ReadsAs (λ v. v.items) result cursor.new (elements_reading T.reading count cursor.old) }
    ensures len { IfOk result (λ v. vec_len v ≡ count) }
{
    let mut items = Vec::with_capacity(alloc, count.min(ROOM))?;
    for _ in 0..count {
        let item = T::decode(alloc, cursor)?;
        items.push(item)?;
    }
    Ok(items)
}

#[tactic(auto, using(crate::proofs::Extending::extends_more))]
fn write_all<W: Written>(items: &[W], out: &mut Vec<u8>) -> Result<(), AllocError>
    ensures ok { OnOk result (out.new.items ≡ out.old.items ++ flat_map W.encoding items.now) }
    ensures err { OnErr result (Extends out.old.items out.new.items) }
    ensures again { OnOk result (All (IsReadAgain W.reading W.encoding) items.now) }
    ensures some { OnOk result (length items.now ≤ length (flat_map W.encoding items.now)) }
{
    for item in items {
        item.write(out)?;
    }
    Ok(())
}

/// Writes a list that isn't null, as [`Array`] is written. At an `Err` a part of it is written.
#[tactic(auto, using(crate::proofs::Elements::array_again, crate::proofs::Extending::extends_more), unfolding(crate::specs::Arrays::array_encoding))]
pub fn write_list<W: Written>(items: &[W], out: &mut Vec<u8>) -> Result<(), AllocError>
    requires { length items.now < 2 ^ 31 }
    ensures ok { OnOk result (out.new.items ≡ out.old.items ++ array_encoding W.encoding (Some items.now)) }
    ensures err { OnErr result (Extends out.old.items out.new.items) }
    ensures again { OnOk result (IsReadAgain (array_reading W.reading) (array_encoding W.encoding) (Some items.now)) }
    ensures some { OnOk result (0 < length (array_encoding W.encoding (Some items.now))) }
{
    (items.len() as u32).encode(out)?;
    write_all(items, out)?;
    Ok(())
}

#[tactic(auto, using(crate::proofs::Elements::array_again), unfolding(crate::specs::Arrays::array_reading, crate::specs::Arrays::array_encoding))]
impl<T: Wire> Wire for Array<T> {
    ghost reading = { array_reading T.reading };

    ghost encoding = { array_encoding T.encoding };

    ghost spares_memory = { ClaimsTooMany };

    fn decode(alloc: Global, cursor: &mut Cursor<'_>) -> Result<Array<T>, TakeFault> {
        let mut at = Cursor::new(cursor.rest());
        let len = at.number()?;
        let list = if len >= 1 << 31 {
            Array::null()
        } else if at.rest().len() < len as usize {
            return Err(TakeFault::Length);
        } else {
            Array::new(elements(alloc, len as usize, &mut at)?)
        };
        *cursor = at;
        Ok(list)
    }

    fn encode(&self, out: &mut Vec<u8>) -> Result<(), AllocError> {
        match self.as_slice() {
            None => NULL_LENGTH.encode(out),
            Some(items) => write_list(items, out),
        }
    }
}

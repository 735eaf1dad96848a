//! Lists of values, for every type of elements: as an [`Array`](ua_types::Array) they are read and written.

ghost use Rattle.ua_binary.specs.Texts.{ClaimsTooMany};
ghost use Rattle.ua_binary.specs.Arrays.{array_reading, array_encoding};

use crate::arrays::{elements, write_list};
use crate::cursor::Cursor;
use crate::fault::TakeFault;
use crate::texts::NULL_LENGTH;
use crate::wire::Wire;
use std::alloc::{AllocError, Global};
use ua_types::SharedList;

#[tactic(auto, using(crate::proofs::Elements::array_again), unfolding(crate::specs::Arrays::array_reading, crate::specs::Arrays::array_encoding))]
impl<T: Wire> Wire for SharedList<T> {
    ghost reading = { array_reading T.reading };

    ghost encoding = { array_encoding T.encoding };

    ghost spares_memory = { ClaimsTooMany };

    fn decode(alloc: Global, cursor: &mut Cursor<'_>) -> Result<SharedList<T>, TakeFault> {
        let mut at = Cursor::new(cursor.rest());
        let len = at.number()?;
        let list = if len >= 1 << 31 {
            SharedList::null()
        } else if at.rest().len() < len as usize {
            return Err(TakeFault::Length);
        } else {
            SharedList::new(elements(alloc, len as usize, &mut at)?)?
        };
        *cursor = at;
        Ok(list)
    }

    fn encode(&self, out: &mut Vec<u8>) -> Result<(), AllocError> {
        match self.as_slice() {
            None => NULL_LENGTH.encode(out),
            Some(items) => write_list(items, out),
        }
    }
}

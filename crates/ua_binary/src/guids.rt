//! Globally unique ids.

ghost use Rattle.std.specs.Prelude.{⊤};
ghost use Rattle.ua_binary.specs.Guids.{guid_reading, guid_encoding};

use crate::cursor::Cursor;
use crate::fault::TakeFault;
use crate::wire::Wire;
use std::alloc::{AllocError, Global};
use ua_types::Guid;

#[tactic(auto, using(crate::proofs::Extending::extends_more), unfolding(crate::specs::Guids::guid_reading, crate::specs::Guids::guid_encoding))]
impl Wire for Guid {
    ghost reading = { guid_reading };

    ghost encoding = { guid_encoding };

    ghost spares_memory = { λ _. ⊤ };

    fn decode(_alloc: Global, cursor: &mut Cursor<'_>) -> Result<Guid, TakeFault> {
        cursor.guid()
    }

    fn encode(&self, out: &mut Vec<u8>) -> Result<(), AllocError> {
        self.data1.encode(out)?;
        self.data2.encode(out)?;
        self.data3.encode(out)?;
        self.data4.encode(out)
    }
}

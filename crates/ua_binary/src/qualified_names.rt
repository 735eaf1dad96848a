//! Names in a namespace.

ghost use Rattle.ua_binary.specs.QualifiedNames.{qualified_name_reading, qualified_name_encoding};

use crate::cursor::Cursor;
use crate::fault::TakeFault;
use crate::wire::Wire;
use std::alloc::{AllocError, Global};
use ua_types::{QualifiedName, Text};

#[tactic(auto, using(crate::proofs::Extending::extends_more), unfolding(crate::specs::QualifiedNames::qualified_name_reading, crate::specs::QualifiedNames::qualified_name_encoding))]
impl Wire for QualifiedName {
    ghost reading = { qualified_name_reading };

    ghost encoding = { qualified_name_encoding };

    fn decode(alloc: Global, cursor: &mut Cursor<'_>) -> Result<QualifiedName, TakeFault> {
        Ok(QualifiedName {
            namespace: u16::decode(alloc, cursor)?,
            name: Text::decode(alloc, cursor)?,
        })
    }

    #[inline(always)]
    fn encode(&self, out: &mut Vec<u8>) -> Result<(), AllocError> {
        self.namespace.encode(out)?;
        self.name.encode(out)
    }
}

//! Structures of any type.

ghost use Rattle.std.specs.Prelude.{◌≡◌, Err};
ghost use Rattle.ua_binary.specs.declared.fault.TakeFault.TheVariants.{Memory};
ghost use Rattle.ua_binary.specs.Reading.{Reads};
ghost use Rattle.ua_binary.specs.Texts.{IsBacked};
ghost use Rattle.ua_binary.specs.ExtensionObjects.{body_reading, extension_object_reading, extension_object_encoding};

use crate::cursor::Cursor;
use crate::fault::TakeFault;
use crate::wire::Wire;
use std::alloc::{AllocError, Global};
use ua_types::{ByteString, ExtensionObject, ExtensionObjectBody, NodeId};

// Reads a body of this form.
fn decode_body(
    alloc: Global,
    form: u8,
    cursor: &mut Cursor<'_>,
) -> Result<ExtensionObjectBody, TakeFault>
    ensures reads { Reads result cursor.new (body_reading form cursor.old) }
    ensures backed { result ≡ Err Memory → IsBacked cursor.new }
{
    match form {
        0 => Ok(ExtensionObjectBody::Absent),
        1 => Ok(ExtensionObjectBody::Binary(ByteString::decode(alloc, cursor)?)),
        2 => Ok(ExtensionObjectBody::Xml(ByteString::decode(alloc, cursor)?)),
        _ => Err(TakeFault::Form),
    }
}

#[tactic(auto, using(crate::proofs::Extending::extends_more), unfolding(crate::specs::ExtensionObjects::extension_object_reading, crate::specs::ExtensionObjects::extension_object_encoding))]
impl Wire for ExtensionObject {
    ghost reading = { extension_object_reading };

    ghost encoding = { extension_object_encoding };

    fn decode(alloc: Global, cursor: &mut Cursor<'_>) -> Result<ExtensionObject, TakeFault> {
        let type_id = NodeId::decode(alloc, cursor)?;
        let form = u8::decode(alloc, cursor)?;
        let body = decode_body(alloc, form, cursor)?;
        Ok(ExtensionObject { type_id, body })
    }

    fn encode(&self, out: &mut Vec<u8>) -> Result<(), AllocError> {
        self.type_id.encode(out)?;
        match &self.body {
            ExtensionObjectBody::Absent => 0u8.encode(out),
            ExtensionObjectBody::Binary(bytes) => {
                1u8.encode(out)?;
                bytes.encode(out)
            }
            ExtensionObjectBody::Xml(bytes) => {
                2u8.encode(out)?;
                bytes.encode(out)
            }
        }
    }
}

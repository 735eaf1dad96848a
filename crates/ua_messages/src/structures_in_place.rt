//! Structures that are written where their ExtensionObject stands.

ghost use Rattle.std.specs.Prelude.{◌≡◌, ◌≤◌, ◌+◌, ◌++◌, length, take, drop, Ok, Some, OnOk, OnErr};
ghost use Rattle.std.specs.Int.{w32, to_le_bytes};
ghost use Rattle.ua_binary.specs.Reading.{Extends, IsReadAgain};
ghost use Rattle.ua_binary.specs.Texts.{byte_string_encoding};
ghost use Rattle.ua_binary.specs.ExtensionObjects.{extension_object_encoding};
ghost use Rattle.ua_messages.specs.Structures.{object_around, structure_of};

use std::alloc::AllocError;
use ua_binary::{Wire, Written};
use ua_types::NodeId;

/// Puts a number into the place of the four bytes at `at`: a length or a count that is known only once what follows it is
/// written (UInt32, IEC 62541-6, 5.2.2.2).
pub fn put_number(out: &mut Vec<u8>, at: usize, number: u32)
    requires { at + 4 ≤ length out.old.items }
    ensures { out.new.items ≡ take at out.old.items ++ (to_le_bytes w32 number ++ drop (at + 4) out.old.items) }
{
    out[at..at + 4].copy_from_slice(&number.to_le_bytes());
}

// Writes a value behind the length of what is written for it, which is put in once it is known.
#[tactic(auto, using(ua_binary::proofs::Extending::extends_more))]
fn write_sized<W: Written>(value: &W, out: &mut Vec<u8>) -> Result<(), AllocError>
    ensures ok { OnOk result (out.new.items ≡ out.old.items ++ byte_string_encoding (Some (W.encoding value.now))) }
    ensures err { OnErr result (Extends out.old.items out.new.items) }
    ensures again { OnOk result (IsReadAgain W.reading W.encoding value.now) }
{
    let at = out.len();
    0u32.encode(out)?;
    let start = out.len();
    value.write(out)?;
    let length = out.len() - start;
    if length >= 1 << 31 {
        return Err(AllocError);
    }
    put_number(out, at, length as u32);
    Ok(())
}

/// Writes an object that holds this structure, whose type is the one with this id (one of `type_ids`).
///
/// It is written as [`crate::extension_object`] makes it, and the structure is encoded once, straight into
/// its place. One of 2^31 bytes or more can't be spelled, and is refused as by want of memory. At an `Err` a
/// part of the object is written.
#[tactic(auto, using(ua_binary::proofs::Extending::extends_more, crate::proofs::StructuresAgain::structure_again), unfolding(ua_binary::specs::ExtensionObjects::extension_object_encoding))]
pub fn write_structure<W: Written>(
    type_id: u32,
    value: &W,
    out: &mut Vec<u8>,
) -> Result<(), AllocError>
    ensures ok { OnOk result (out.new.items ≡ out.old.items ++ extension_object_encoding (object_around type_id (W.encoding value.now))) }
    ensures err { OnErr result (Extends out.old.items out.new.items) }
    ensures again { OnOk result (structure_of W.reading type_id (object_around type_id (W.encoding value.now)) ≡ Ok value.now) }
{
    NodeId::numeric(0, type_id).encode(out)?;
    1u8.encode(out)?;
    write_sized(value, out)?;
    Ok(())
}

//! Ids of nodes.

ghost use Rattle.std.specs.Prelude.{◌≡◌, ◌≢◌, ◌<◌, ℕ, List, ◌++◌, length, Ok, Err, OnOk, OnErr};
ghost use Rattle.ua_types.specs.NodeIds.{numeric_id};
ghost use Rattle.ua_binary.specs.declared.fault.TakeFault.TheVariants.{Memory};
ghost use Rattle.ua_binary.specs.Reading.{Reads, Extends, IsReadAgain};
ghost use Rattle.ua_binary.specs.Texts.{IsBacked};
ghost use Rattle.ua_binary.specs.NodeIds.{node_id_reading, after_form_reading, node_id_encoding, form_of, after_form_encoding, SaysNumberOrGuid};

use crate::cursor::Cursor;
use crate::fault::TakeFault;
use crate::wire::Wire;
use std::alloc::{AllocError, Global};
use ua_types::{ByteString, Guid, Identifier, NodeId, Text};

// Reads what follows the first byte, which says the form (IEC 62541-6, 5.2.2.9): 0 is two bytes in all, 1 four, 2 a
// whole number, 3 a String, 4 a Guid, 5 a ByteString. Any other is `Form`.
#[tactic(auto, unfolding(crate::specs::NodeIds::after_form_reading))]
pub(crate) fn decode_form(
    alloc: Global,
    form: u8,
    cursor: &mut Cursor<'_>,
) -> Result<NodeId, TakeFault>
    ensures reads { Reads result cursor.new (after_form_reading form cursor.old) }
    ensures plain { (form ≢ 3) × (form ≢ 5) → result ≢ Err Memory }
    ensures backed { result ≡ Err Memory → IsBacked cursor.new }
{
    match form {
        0 => {
            let number = u8::decode(alloc, cursor)?;
            Ok(NodeId::numeric(0, number as u32))
        }
        1 => {
            let namespace = u8::decode(alloc, cursor)?;
            let number = u16::decode(alloc, cursor)?;
            Ok(NodeId::numeric(namespace as u16, number as u32))
        }
        2 => {
            let namespace = u16::decode(alloc, cursor)?;
            let number = u32::decode(alloc, cursor)?;
            Ok(NodeId::numeric(namespace, number))
        }
        3 => {
            let namespace = u16::decode(alloc, cursor)?;
            let text = Text::decode(alloc, cursor)?;
            Ok(NodeId {
                namespace,
                identifier: Identifier::String(text),
            })
        }
        4 => {
            let namespace = u16::decode(alloc, cursor)?;
            let guid = Guid::decode(alloc, cursor)?;
            Ok(NodeId {
                namespace,
                identifier: Identifier::Guid(guid),
            })
        }
        5 => {
            let namespace = u16::decode(alloc, cursor)?;
            let bytes = ByteString::decode(alloc, cursor)?;
            Ok(NodeId {
                namespace,
                identifier: Identifier::Opaque(bytes),
            })
        }
        _ => Err(TakeFault::Form),
    }
}

// The form in which an id is written: of a number the shortest that holds it.
pub(crate) fn form(id: &NodeId) -> u8
    ensures form { result ≡ form_of id.now.namespace id.now.identifier }
    ensures small { result < 6 }
{
    match &id.identifier {
        Identifier::Numeric(number) => {
            if id.namespace == 0 && *number < 1 << 8 {
                0
            } else if id.namespace < 1 << 8 && *number < 1 << 16 {
                1
            } else {
                2
            }
        }
        Identifier::String(_) => 3,
        Identifier::Guid(_) => 4,
        Identifier::Opaque(_) => 5,
    }
}

// Writes what follows the first byte.
#[tactic(auto, using(crate::proofs::Extending::extends_more), unfolding(crate::specs::NodeIds::after_form_reading))]
pub(crate) fn encode_form(id: &NodeId, out: &mut Vec<u8>) -> Result<(), AllocError>
    ensures ok { OnOk result (out.new.items ≡ out.old.items ++ after_form_encoding id.now.namespace id.now.identifier) }
    ensures err { OnErr result (Extends out.old.items out.new.items) }
    ensures again { OnOk result ((x : List ℕ) → after_form_reading (form_of id.now.namespace id.now.identifier) (after_form_encoding id.now.namespace id.now.identifier ++ x) ≡ Ok (id.now, x)) }
{
    match &id.identifier {
        Identifier::Numeric(number) => {
            if id.namespace == 0 && *number < 1 << 8 {
                (*number as u8).encode(out)
            } else if id.namespace < 1 << 8 && *number < 1 << 16 {
                (id.namespace as u8).encode(out)?;
                (*number as u16).encode(out)
            } else {
                id.namespace.encode(out)?;
                number.encode(out)
            }
        }
        Identifier::String(text) => {
            id.namespace.encode(out)?;
            text.encode(out)
        }
        Identifier::Guid(guid) => {
            id.namespace.encode(out)?;
            guid.encode(out)
        }
        Identifier::Opaque(bytes) => {
            id.namespace.encode(out)?;
            bytes.encode(out)
        }
    }
}

// Writes an id, its form first. Numbers, which most ids are, are written by the next.
#[tactic(auto, using(crate::proofs::Extending::extends_more), unfolding(crate::specs::NodeIds::node_id_reading, crate::specs::NodeIds::node_id_encoding))]
#[inline(never)]
fn encode_by_form(id: &NodeId, out: &mut Vec<u8>) -> Result<(), AllocError>
    ensures ok { OnOk result (out.new.items ≡ out.old.items ++ node_id_encoding id.now) }
    ensures err { OnErr result (Extends out.old.items out.new.items) }
    ensures again { OnOk result (IsReadAgain node_id_reading node_id_encoding id.now) }
    ensures some { OnOk result (0 < length (node_id_encoding id.now)) }
{
    form(id).encode(out)?;
    encode_form(id, out)
}

// Writes an id that is a number, in the shortest form that holds it. Its bytes are appended at once, which takes half of the
// time that they take field by field.
#[tactic(auto, using(crate::proofs::NumericIds::numeric_again), unfolding(crate::specs::NodeIds::node_id_encoding, crate::specs::Numbers::number_encoding))]
#[inline(always)]
fn encode_numeric(namespace: u16, number: u32, out: &mut Vec<u8>) -> Result<(), AllocError>
    ensures ok { OnOk result (out.new.items ≡ out.old.items ++ node_id_encoding (numeric_id namespace number)) }
    ensures err { OnErr result (Extends out.old.items out.new.items) }
    ensures again { OnOk result (IsReadAgain node_id_reading node_id_encoding (numeric_id namespace number)) }
    ensures some { OnOk result (0 < length (node_id_encoding (numeric_id namespace number))) }
{
    if namespace == 0 && number < 1 << 8 {
        out.extend_from_slice(&[0, number as u8])
    } else if namespace < 1 << 8 && number < 1 << 16 {
        let [low, high] = (number as u16).to_le_bytes();
        out.extend_from_slice(&[1, namespace as u8, low, high])
    } else {
        let [low, high] = namespace.to_le_bytes();
        let [first, second, third, fourth] = number.to_le_bytes();
        out.extend_from_slice(&[2, low, high, first, second, third, fourth])
    }
}

#[tactic(auto, using(crate::proofs::TypeBytes::form_is_said), unfolding(crate::specs::NodeIds::node_id_reading))]
impl Wire for NodeId {
    ghost reading = { node_id_reading };

    ghost encoding = { node_id_encoding };

    ghost spares_memory = { SaysNumberOrGuid };

    fn decode(alloc: Global, cursor: &mut Cursor<'_>) -> Result<NodeId, TakeFault> {
        let form = u8::decode(alloc, cursor)?;
        decode_form(alloc, form, cursor)
    }

    #[inline(always)]
    fn encode(&self, out: &mut Vec<u8>) -> Result<(), AllocError> {
        match &self.identifier {
            Identifier::Numeric(number) => encode_numeric(self.namespace, *number, out),
            _ => encode_by_form(self, out),
        }
    }
}

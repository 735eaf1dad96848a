//! Structures inside ExtensionObjects: identity tokens, filters, the details of history, notifications.

ghost use Rattle.std.specs.Prelude.{◌≡◌, ◌≢◌, Ok, Err, IfOk, option_map};
ghost use Rattle.ua_types.specs.Answers.{Gives};
ghost use Rattle.ua_messages.specs.declared.structures.StructureFault.TheVariants.{Memory};
ghost use Rattle.ua_views.specs.Bodies.{body_of};
ghost use Rattle.ua_messages.specs.Structures.{is_id, binary_body, structure_of, object_around};

use std::alloc::{AllocError, Global};
use thiserror::Error;
use ua_binary::{Cursor, TakeFault, Wire};
use ua_types::{ByteString, ExtensionObject, ExtensionObjectBody, Identifier, NodeId};
use ua_views::{ExtensionObjectBodyView, ExtensionObjectView, IdentifierView, NodeIdView, View};

/// Why an object isn't read as the structure that is asked for.
#[derive(Clone, Copy, Debug, PartialEq, Eq, Error)]
pub enum StructureFault {
    /// Its type id is another one.
    #[error("the object is of another type")]
    OtherType,
    /// It has no body in the binary encoding, or one that can't be read.
    #[error("the object's body can't be read")]
    Unreadable,
    /// An allocation failed. The object may be good.
    #[error("out of memory")]
    Memory,
}

// Whether it is the id with this number in namespace 0.
fn is_standard(id: &NodeId, number: u32) -> bool
    ensures { result ≡ is_id number id.now }
{
    match &id.identifier {
        Identifier::Numeric(own) => id.namespace == 0 && *own == number,
        _ => false,
    }
}

// The bytes of a body in the binary encoding.
fn binary(body: &ExtensionObjectBody) -> Option<&[u8]>
    ensures { option_map (λ b. b.now) result ≡ binary_body body.now }
{
    match body {
        ExtensionObjectBody::Binary(bytes) => bytes.as_slice(),
        _ => None,
    }
}

/// The structure of this type (one of `type_ids`) that an object holds.
///
/// Bytes after its last field are ignored. The object's type is judged before its body.
#[tactic(auto, unfolding(crate::specs::Structures::structure_of))]
pub fn structure<T: Wire>(
    alloc: Global,
    type_id: u32,
    object: &ExtensionObject,
) -> Result<T, StructureFault>
    ensures { Gives Memory result (structure_of T.reading type_id object.now) }
{
    if !is_standard(&object.type_id, type_id) {
        return Err(StructureFault::OtherType);
    }
    let Some(bytes) = binary(&object.body) else {
        return Err(StructureFault::Unreadable);
    };
    match T::decode(alloc, &mut Cursor::new(bytes)) {
        Ok(value) => Ok(value),
        Err(TakeFault::Memory) => Err(StructureFault::Memory),
        Err(_) => Err(StructureFault::Unreadable),
    }
}

/// An object that holds the structure of this type whose encoding these bytes are.
///
/// Bytes of 2^31 or more can't be spelled, and are refused as by want of memory.
pub fn object_of_bytes(type_id: u32, bytes: Vec<u8>) -> Result<ExtensionObject, AllocError>
    ensures { IfOk result (λ object. object ≡ object_around type_id bytes.items) }
{
    if bytes.len() >= 1 << 31 {
        return Err(AllocError);
    }
    Ok(ExtensionObject {
        type_id: NodeId::numeric(0, type_id),
        body: ExtensionObjectBody::Binary(ByteString::new(bytes)?),
    })
}

/// An object that holds this structure, whose type is the one with this id (one of `type_ids`).
#[tactic(auto, using(crate::proofs::StructuresAgain::structure_again))]
pub fn extension_object<T: Wire>(
    alloc: Global,
    type_id: u32,
    value: &T,
) -> Result<ExtensionObject, AllocError>
    ensures ok { IfOk result (λ object. object ≡ object_around type_id (T.encoding value.now)) }
    ensures again { IfOk result (λ object. structure_of T.reading type_id object ≡ Ok value.now) }
{
    let mut bytes = Vec::new(alloc);
    value.encode(&mut bytes)?;
    object_of_bytes(type_id, bytes)
}

// Whether it is the id with this number in namespace 0.
fn is_standard_view(id: &NodeIdView<'_>, number: u32) -> bool
    ensures { result ≡ is_id number id.now }
{
    match &id.identifier {
        IdentifierView::Numeric(own) => id.namespace == 0 && own.get() == number,
        _ => false,
    }
}

// The bytes of a body in the binary encoding.
fn binary_view<'a>(body: &ExtensionObjectBodyView<'a>) -> Option<&'a [u8]>
    ensures { option_map (λ b. b.now) result ≡ binary_body (body_of body.now) }
{
    match body {
        ExtensionObjectBodyView::Binary(bytes) => bytes.as_slice(),
        _ => None,
    }
}

/// The structure of this type that an object holds, looked at in place, as [`structure`] gives it. Takes no
/// memory.
///
/// Bytes after its last field are ignored. The object's type is judged before its body.
#[tactic(auto, unfolding(crate::specs::Structures::structure_of))]
pub fn structure_view<'a, T: View<'a>>(
    type_id: u32,
    object: &ExtensionObjectView<'a>,
) -> Result<T, StructureFault>
    ensures gives { Gives Memory result (structure_of T.reading type_id object.now) }
    ensures no_memory { result ≢ Err Memory }
{
    if !is_standard_view(&object.type_id, type_id) {
        return Err(StructureFault::OtherType);
    }
    let Some(bytes) = binary_view(&object.body) else {
        return Err(StructureFault::Unreadable);
    };
    match T::look(&mut Cursor::new(bytes)) {
        Ok(value) => Ok(value),
        Err(_) => Err(StructureFault::Unreadable),
    }
}

//! Values of any type.

ghost use Rattle.std.specs.Prelude.{◌≡◌, ◌≢◌, ◌<◌, ◌≤◌, ◌⊎◌, ◌++◌, ℕ, List, Ok, Err, OnOk, OnErr};
ghost use Rattle.ua_types.specs.Matrices.{or_none};
ghost use Rattle.ua_types.specs.declared.content.Content.TheVariants as contents;
ghost use Rattle.ua_binary.specs.declared.fault.TakeFault.TheVariants.{Memory};
ghost use Rattle.ua_binary.specs.Reading.{Reads, ReadsInto, Extends};
ghost use Rattle.ua_binary.specs.NodeIds.{SaysNumberOrGuid};
ghost use Rattle.ua_binary.specs.Texts.{ClaimsTooMany, IsBacked};
ghost use Rattle.ua_binary.specs.Backing.{IsBackedOrBoxed, IsContent, IsBoxedContent, FoundNoRoom};
ghost use Rattle.ua_binary.specs.Variants.{in_dimensions, content_reading, typed_reading, variant_reading, ClaimsTooManyElements, IsPlainBehind, AnnouncesPlain, flags_of, content_encoding, typed_encoding, variant_encoding};

use crate::arrays::write_list;
use crate::cursor::Cursor;
use crate::fault::TakeFault;
use crate::wire::Wire;
use std::alloc::{AllocError, Global};
use ua_types::{Content, Matrix, Shared, SharedList, Variant, has_shape};

// A list in dimensions that were read after it.
fn with_dimensions<T: Drop>(
    elements: SharedList<T>,
    dimensions: SharedList<u32>,
) -> Result<Content<T>, TakeFault>
    ensures reads { (rest : List ℕ) → Reads result rest (in_dimensions elements (or_none dimensions) rest) }
    ensures no_memory { result ≢ Err Memory }
{
    let Some(elements) = elements.into_shared() else {
        return Err(TakeFault::Form);
    };
    let sides = dimensions.as_slice().unwrap_or(&[]);
    if !has_shape(sides, elements.len()) {
        return Err(TakeFault::Form);
    }
    Ok(Content::Matrix(Matrix::new(elements, dimensions)))
}

// Reads what follows these flags.
#[tactic(auto, using(crate::proofs::Elements::overclaim_is_length), unfolding(crate::specs::Variants::content_reading))]
fn decode_content<T: Wire>(
    alloc: Global,
    flags: u8,
    cursor: &mut Cursor<'_>,
) -> Result<Content<T>, TakeFault>
    requires backed { (bytes : List ℕ) → T.wants_memory bytes → IsBacked bytes }
    ensures reads { Reads result cursor.new (content_reading T.reading flags cursor.old) }
    ensures claim { 2 ≤ flags → ClaimsTooMany cursor.old → result ≢ Err Memory }
    ensures one { flags ≡ 0 → T.spares_memory cursor.old → result ≢ Err Memory }
    ensures backed { result ≡ Err Memory → IsBacked cursor.new }
{
    match flags {
        0 => {
            let value = T::decode(alloc, cursor)?;
            Ok(Content::Scalar(value))
        }
        2 => {
            let elements = SharedList::<T>::decode(alloc, cursor)?;
            Ok(Content::Array(elements))
        }
        3 => {
            let elements = SharedList::<T>::decode(alloc, cursor)?;
            let dimensions = SharedList::<u32>::decode(alloc, cursor)?;
            with_dimensions(elements, dimensions)
        }
        _ => Err(TakeFault::Form),
    }
}

// Reads what follows these flags into a block of its own. Where that finds no room, the cursor is put at the start.
#[tactic(auto, using(crate::proofs::Elements::overclaim_is_length, crate::proofs::Backing::length_found_no_room, crate::proofs::Backing::content_found_no_room), unfolding(crate::specs::Variants::content_reading))]
fn decode_boxed<'a, T: Wire>(
    alloc: Global,
    flags: u8,
    start: &'a [u8],
    cursor: &mut Cursor<'a>,
) -> Result<Shared<Content<T>>, TakeFault>
    requires backed { (bytes : List ℕ) → T.wants_memory bytes → IsBacked bytes }
    ensures reads { Reads result cursor.new (content_reading T.reading flags cursor.old) }
    ensures claim { 2 ≤ flags → ClaimsTooMany cursor.old → result ≢ Err Memory }
    ensures backed { result ≡ Err Memory → FoundNoRoom start.now (IsContent T.reading flags cursor.old) cursor.new }
{
    let content = decode_content(alloc, flags, cursor)?;
    match Shared::new(alloc, content) {
        Ok(content) => Ok(content),
        Err(_) => {
            *cursor = Cursor::new(start);
            Err(TakeFault::Memory)
        }
    }
}

// What follows reads into a place: so data values are read in four fifths of the time that it took to return
// them. The types stand in five functions, since each takes room for the contents of all its
// types at once.

// Reads what follows a first byte with the number of a Boolean or an integer of up to 32 bits.
#[tactic(auto, unfolding(crate::specs::Variants::typed_reading))]
fn decode_integer(
    alloc: Global,
    number: u8,
    flags: u8,
    cursor: &mut Cursor<'_>,
    place: &mut Variant,
) -> Result<(), TakeFault>
    requires least { 1 ≤ number }
    requires most { number ≤ 7 }
    ensures reads { ReadsInto result place.new cursor.new (typed_reading number flags cursor.old) }
    ensures claim { 2 ≤ flags → ClaimsTooMany cursor.old → result ≢ Err Memory }
    ensures one { flags ≡ 0 → result ≢ Err Memory }
    ensures backed { result ≡ Err Memory → IsBacked cursor.new }
{
    *place = match number {
        1 => Variant::Boolean(decode_content(alloc, flags, cursor)?),
        2 => Variant::SByte(decode_content(alloc, flags, cursor)?),
        3 => Variant::Byte(decode_content(alloc, flags, cursor)?),
        4 => Variant::Int16(decode_content(alloc, flags, cursor)?),
        5 => Variant::UInt16(decode_content(alloc, flags, cursor)?),
        6 => Variant::Int32(decode_content(alloc, flags, cursor)?),
        7 => Variant::UInt32(decode_content(alloc, flags, cursor)?),
        _ => unreachable!(),
    };
    Ok(())
}

// Reads what follows a first byte with the number of a longer number.
#[tactic(auto, unfolding(crate::specs::Variants::typed_reading))]
fn decode_number(
    alloc: Global,
    number: u8,
    flags: u8,
    cursor: &mut Cursor<'_>,
    place: &mut Variant,
) -> Result<(), TakeFault>
    requires least { 8 ≤ number }
    requires most { number ≤ 11 }
    ensures reads { ReadsInto result place.new cursor.new (typed_reading number flags cursor.old) }
    ensures claim { 2 ≤ flags → ClaimsTooMany cursor.old → result ≢ Err Memory }
    ensures one { flags ≡ 0 → result ≢ Err Memory }
    ensures backed { result ≡ Err Memory → IsBacked cursor.new }
{
    *place = match number {
        8 => Variant::Int64(decode_content(alloc, flags, cursor)?),
        9 => Variant::UInt64(decode_content(alloc, flags, cursor)?),
        10 => Variant::Float(decode_content(alloc, flags, cursor)?),
        11 => Variant::Double(decode_content(alloc, flags, cursor)?),
        _ => unreachable!(),
    };
    Ok(())
}

// Reads what follows a first byte with the number of a text, a moment, a Guid or bytes.
#[tactic(auto, unfolding(crate::specs::Variants::typed_reading))]
fn decode_sized(
    alloc: Global,
    number: u8,
    flags: u8,
    cursor: &mut Cursor<'_>,
    place: &mut Variant,
) -> Result<(), TakeFault>
    requires least { 12 ≤ number }
    requires most { number ≤ 16 }
    ensures reads { ReadsInto result place.new cursor.new (typed_reading number flags cursor.old) }
    ensures claim { 2 ≤ flags → ClaimsTooMany cursor.old → result ≢ Err Memory }
    ensures one { flags ≡ 0 → number ≡ 13 ⊎ number ≡ 14 → result ≢ Err Memory }
    ensures backed { result ≡ Err Memory → IsBacked cursor.new }
{
    *place = match number {
        12 => Variant::String(decode_content(alloc, flags, cursor)?),
        13 => Variant::DateTime(decode_content(alloc, flags, cursor)?),
        14 => Variant::Guid(decode_content(alloc, flags, cursor)?),
        15 => Variant::ByteString(decode_content(alloc, flags, cursor)?),
        16 => Variant::XmlElement(decode_content(alloc, flags, cursor)?),
        _ => unreachable!(),
    };
    Ok(())
}

// Reads what follows a first byte with the number of an id, a status or a name.
#[tactic(auto, unfolding(crate::specs::Variants::typed_reading))]
fn decode_named(
    alloc: Global,
    number: u8,
    flags: u8,
    cursor: &mut Cursor<'_>,
    place: &mut Variant,
) -> Result<(), TakeFault>
    requires { number ≡ 17 ⊎ number ≡ 19 ⊎ number ≡ 20 }
    ensures reads { ReadsInto result place.new cursor.new (typed_reading number flags cursor.old) }
    ensures claim { 2 ≤ flags → ClaimsTooMany cursor.old → result ≢ Err Memory }
    ensures one { flags ≡ 0 → number ≡ 19 ⊎ ((number ≡ 17) × SaysNumberOrGuid cursor.old) → result ≢ Err Memory }
    ensures backed { result ≡ Err Memory → IsBacked cursor.new }
{
    *place = match number {
        17 => Variant::NodeId(decode_content(alloc, flags, cursor)?),
        19 => Variant::StatusCode(decode_content(alloc, flags, cursor)?),
        20 => Variant::QualifiedName(decode_content(alloc, flags, cursor)?),
        _ => unreachable!(),
    };
    Ok(())
}

// Reads what follows a first byte with the number of a type whose contents have blocks of their own. The Variant
// begins at the start.
#[tactic(auto, using(crate::proofs::Backing::expanded_node_id_is_boxed, crate::proofs::Backing::localized_text_is_boxed, crate::proofs::Backing::extension_object_is_boxed), unfolding(crate::specs::Variants::typed_reading))]
fn decode_large<'a>(
    alloc: Global,
    number: u8,
    flags: u8,
    start: &'a [u8],
    cursor: &mut Cursor<'a>,
    place: &mut Variant,
) -> Result<(), TakeFault>
    requires { number ≡ 18 ⊎ number ≡ 21 ⊎ number ≡ 22 }
    ensures reads { ReadsInto result place.new cursor.new (typed_reading number flags cursor.old) }
    ensures claim { 2 ≤ flags → ClaimsTooMany cursor.old → result ≢ Err Memory }
    ensures backed { result ≡ Err Memory → FoundNoRoom start.now (IsBoxedContent number flags cursor.old) cursor.new }
{
    *place = match number {
        18 => Variant::ExpandedNodeId(decode_boxed(alloc, flags, start, cursor)?),
        21 => Variant::LocalizedText(decode_boxed(alloc, flags, start, cursor)?),
        22 => Variant::ExtensionObject(decode_boxed(alloc, flags, start, cursor)?),
        _ => unreachable!(),
    };
    Ok(())
}

// Reads what follows a first byte with this number and these flags. The Variant begins at the start.
#[tactic(auto, using(crate::proofs::Backing::length_found_no_room, crate::proofs::TypeBytes::plain_is_one, crate::proofs::TypeBytes::plain_sized, crate::proofs::TypeBytes::plain_named, crate::proofs::TypeBytes::never_plain), unfolding(crate::specs::Variants::typed_reading))]
fn decode_typed<'a>(
    alloc: Global,
    number: u8,
    flags: u8,
    start: &'a [u8],
    cursor: &mut Cursor<'a>,
    place: &mut Variant,
) -> Result<(), TakeFault>
    ensures reads { ReadsInto result place.new cursor.new (typed_reading number flags cursor.old) }
    ensures claim { 2 ≤ flags → ClaimsTooMany cursor.old → result ≢ Err Memory }
    ensures plain { IsPlainBehind number flags cursor.old → result ≢ Err Memory }
    ensures backed { result ≡ Err Memory → FoundNoRoom start.now (IsBoxedContent number flags cursor.old) cursor.new }
{
    match number {
        0 => {
            if flags == 0 {
                *place = Variant::Null;
                Ok(())
            } else {
                Err(TakeFault::Form)
            }
        }
        1..=7 => decode_integer(alloc, number, flags, cursor, place),
        8..=11 => decode_number(alloc, number, flags, cursor, place),
        12..=16 => decode_sized(alloc, number, flags, cursor, place),
        17 | 19 | 20 => decode_named(alloc, number, flags, cursor, place),
        18 | 21 | 22 => decode_large(alloc, number, flags, start, cursor, place),
        _ => Err(TakeFault::Kind),
    }
}

/// Reads a value into a place, where it is looked at next: a value that is returned is moved once more for each `Result` that
/// hands it up. At an `Err` the cursor stands as after [`Wire::decode`], and any value may be in the place. No value, and one
/// number, moment, Guid, status, or id that is a number or a Guid take no memory.
#[tactic(auto, using(crate::proofs::TypeBytes::announced_claim, crate::proofs::TypeBytes::announced_plain, crate::proofs::Backing::variant_found_no_room), unfolding(crate::specs::Variants::variant_reading))]
pub fn decode_variant(
    alloc: Global,
    cursor: &mut Cursor<'_>,
    place: &mut Variant,
) -> Result<(), TakeFault>
    ensures reads { ReadsInto result place.new cursor.new (variant_reading cursor.old) }
    ensures claim { ClaimsTooManyElements cursor.old → result ≢ Err Memory }
    ensures plain { AnnouncesPlain cursor.old → result ≢ Err Memory }
    ensures backed { result ≡ Err Memory → IsBackedOrBoxed cursor.new }
{
    let start = cursor.rest();
    let first = cursor.byte()?;
    decode_typed(alloc, first % 64, first / 64, start, cursor, place)
}

// Writes the first byte of a list, and the list. It and the next stand apart, so that one value, which most Variants hold, is
// written by a short function.
#[tactic(auto, using(crate::proofs::Extending::extends_more), unfolding(crate::specs::Variants::content_reading, crate::specs::Variants::content_encoding))]
#[inline(never)]
fn encode_typed_array<T: Wire>(
    number: u8,
    elements: &SharedList<T>,
    out: &mut Vec<u8>,
) -> Result<(), AllocError>
    requires { number < 64 }
    ensures ok { OnOk result (out.new.items ≡ out.old.items ++ typed_encoding number T.encoding (contents.Array elements.now)) }
    ensures err { OnErr result (Extends out.old.items out.new.items) }
    ensures again { OnOk result ((x : List ℕ) → content_reading T.reading 2 (content_encoding T.encoding (contents.Array elements.now) ++ x) ≡ Ok (contents.Array elements.now, x)) }
{
    (number + 128).encode(out)?;
    elements.encode(out)?;
    Ok(())
}

// Writes the first byte of a list in dimensions, the list and the dimensions.
#[tactic(auto, using(crate::proofs::Extending::extends_more), unfolding(crate::specs::Variants::content_reading, crate::specs::Variants::content_encoding))]
#[inline(never)]
fn encode_typed_matrix<T: Wire>(
    number: u8,
    matrix: &Matrix<T>,
    out: &mut Vec<u8>,
) -> Result<(), AllocError>
    requires { number < 64 }
    ensures ok { OnOk result (out.new.items ≡ out.old.items ++ typed_encoding number T.encoding (contents.Matrix matrix.now)) }
    ensures err { OnErr result (Extends out.old.items out.new.items) }
    ensures again { OnOk result ((x : List ℕ) → content_reading T.reading 3 (content_encoding T.encoding (contents.Matrix matrix.now) ++ x) ≡ Ok (contents.Matrix matrix.now, x)) }
{
    (number + 192).encode(out)?;
    write_list(matrix.elements(), out)?;
    write_list(matrix.dimensions(), out)?;
    Ok(())
}

// Writes the first byte and what it announces.
#[tactic(auto, using(crate::proofs::Extending::extends_more), unfolding(crate::specs::Variants::content_reading, crate::specs::Variants::content_encoding))]
pub(crate) fn encode_typed<T: Wire>(
    number: u8,
    content: &Content<T>,
    out: &mut Vec<u8>,
) -> Result<(), AllocError>
    requires { number < 64 }
    ensures ok { OnOk result (out.new.items ≡ out.old.items ++ typed_encoding number T.encoding content.now) }
    ensures err { OnErr result (Extends out.old.items out.new.items) }
    ensures again { OnOk result ((x : List ℕ) → content_reading T.reading (flags_of content.now) (content_encoding T.encoding content.now ++ x) ≡ Ok (content.now, x)) }
{
    match content {
        Content::Scalar(value) => {
            number.encode(out)?;
            value.encode(out)?;
            Ok(())
        }
        Content::Array(elements) => encode_typed_array(number, elements, out),
        Content::Matrix(matrix) => encode_typed_matrix(number, matrix, out),
    }
}

#[tactic(auto, using(crate::proofs::Extending::extends_more, crate::proofs::TypeBytes::number_is, crate::proofs::TypeBytes::flags_are), unfolding(crate::specs::Variants::typed_reading, crate::specs::Variants::variant_reading, crate::specs::Variants::variant_encoding))]
impl Wire for Variant {
    ghost reading = { variant_reading };

    ghost encoding = { variant_encoding };

    ghost spares_memory = { ClaimsTooManyElements };

    ghost wants_memory = { IsBackedOrBoxed };

    fn decode(alloc: Global, cursor: &mut Cursor<'_>) -> Result<Variant, TakeFault> {
        let mut value = Variant::Null;
        decode_variant(alloc, cursor, &mut value)?;
        Ok(value)
    }

    fn encode(&self, out: &mut Vec<u8>) -> Result<(), AllocError> {
        match self {
            Variant::Null => 0u8.encode(out),
            Variant::Boolean(content) => encode_typed(1, content, out),
            Variant::SByte(content) => encode_typed(2, content, out),
            Variant::Byte(content) => encode_typed(3, content, out),
            Variant::Int16(content) => encode_typed(4, content, out),
            Variant::UInt16(content) => encode_typed(5, content, out),
            Variant::Int32(content) => encode_typed(6, content, out),
            Variant::UInt32(content) => encode_typed(7, content, out),
            Variant::Int64(content) => encode_typed(8, content, out),
            Variant::UInt64(content) => encode_typed(9, content, out),
            Variant::Float(content) => encode_typed(10, content, out),
            Variant::Double(content) => encode_typed(11, content, out),
            Variant::String(content) => encode_typed(12, content, out),
            Variant::DateTime(content) => encode_typed(13, content, out),
            Variant::Guid(content) => encode_typed(14, content, out),
            Variant::ByteString(content) => encode_typed(15, content, out),
            Variant::XmlElement(content) => encode_typed(16, content, out),
            Variant::NodeId(content) => encode_typed(17, content, out),
            Variant::ExpandedNodeId(content) => encode_typed(18, content, out),
            Variant::StatusCode(content) => encode_typed(19, content, out),
            Variant::QualifiedName(content) => encode_typed(20, content, out),
            Variant::LocalizedText(content) => encode_typed(21, content, out),
            Variant::ExtensionObject(content) => encode_typed(22, content, out),
        }
    }
}

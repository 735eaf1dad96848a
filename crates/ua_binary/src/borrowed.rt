//! Values that are written where they stand.

ghost use Rattle.std.specs.Prelude.{◌≡◌, ◌<◌, ◌++◌, ℕ, List, Some, Ok, length, take, drop, OnOk, OnErr};
ghost use Rattle.ua_binary.specs.Reading.{Extends, IsReadAgain};
ghost use Rattle.ua_binary.specs.Variants.{content_reading, variant_reading, flags_of, content_encoding, typed_encoding, variant_encoding};
ghost use Rattle.ua_types.specs.Parts.{part_in, part_of};

use crate::arrays::write_list;
use crate::variants::encode_typed;
use crate::wire::Wire;
use crate::written::Written;
use std::alloc::AllocError;
use std::marker::Model;
use ua_types::{Content, Variant};

/// A value, or a part of a list, that is written where it stands, without a copy. Contracts see it as the [`Variant`] that is
/// written.
#[derive(Debug, Drop)]
pub struct BorrowedVariant<'a> {
    value: &'a Variant,
    // The first of the elements that are written, and how many they are. None where the whole value is.
    part: Option<(usize, usize)>,
}

impl<'a> Model for BorrowedVariant<'a> {
    ghost use Rattle.ua_binary.specs.Borrowed.{lent};
    ghost use Rattle.ua_types.specs.declared.variant.Variant.{Variant};

    ghost Value = { Variant };

    ghost view = { λ v. lent v.part v.value.now };
}

impl<'a> BorrowedVariant<'a> {
    /// The whole value.
    pub fn whole(value: &'a Variant) -> BorrowedVariant<'a>
        ensures { result ≡ value.entry.now }
    {
        BorrowedVariant { value, part: None }
    }

    /// Of a list without dimensions the list of so many of its elements from one on, which counts from 0: fewer where the
    /// list ends before. Any other value is written whole.
    pub fn part(value: &'a Variant, from: usize, count: usize) -> BorrowedVariant<'a>
        ensures { result ≡ part_of from count value.entry.now }
    {
        BorrowedVariant {
            value,
            part: Some((from, count)),
        }
    }
}

// So many elements from one on.
fn elements_from<T>(elements: &[T], from: usize, count: usize) -> &[T]
    ensures { result.now ≡ take count (drop from elements.entry.now) }
{
    let (_, rest) = elements.split_at(from.min(elements.len()));
    let (part, _) = rest.split_at(count.min(rest.len()));
    part
}

// Writes the first byte of a part of a list, and the part.
#[tactic(auto, using(crate::proofs::Extending::extends_more), unfolding(crate::specs::Variants::content_reading, crate::specs::Variants::content_encoding))]
fn write_typed_part<T: Wire>(
    number: u8,
    content: &Content<T>,
    from: usize,
    count: usize,
    out: &mut Vec<u8>,
) -> Result<(), AllocError>
    requires { number < 64 }
    ensures ok { OnOk result (out.new.items ≡ out.old.items ++ typed_encoding number T.encoding (part_in from count content.now)) }
    ensures err { OnErr result (Extends out.old.items out.new.items) }
    ensures again { OnOk result ((x : List ℕ) → content_reading T.reading (flags_of (part_in from count content.now)) (content_encoding T.encoding (part_in from count content.now) ++ x) ≡ Ok (part_in from count content.now, x)) }
{
    if let Content::Array(list) = content {
        if let Some(elements) = list.as_slice() {
            (number + 128).encode(out)?;
            write_list(elements_from(elements, from, count), out)?;
            return Ok(());
        }
    }
    encode_typed(number, content, out)
}

// Writes a part of a list, and any other value whole. It is long, and few values are parts: what writes those that are
// whole stays short without it.
#[tactic(auto, using(crate::proofs::Extending::extends_more, crate::proofs::TypeBytes::number_is, crate::proofs::TypeBytes::flags_are), unfolding(crate::specs::Variants::typed_reading, crate::specs::Variants::variant_reading, crate::specs::Variants::variant_encoding))]
#[inline(never)]
fn write_part(
    value: &Variant,
    from: usize,
    count: usize,
    out: &mut Vec<u8>,
) -> Result<(), AllocError>
    ensures ok { OnOk result (out.new.items ≡ out.old.items ++ variant_encoding (part_of from count value.now)) }
    ensures err { OnErr result (Extends out.old.items out.new.items) }
    ensures again { OnOk result (IsReadAgain variant_reading variant_encoding (part_of from count value.now)) }
    ensures some { OnOk result (0 < length (variant_encoding (part_of from count value.now))) }
{
    match value {
        Variant::Null => 0u8.encode(out),
        Variant::Boolean(content) => write_typed_part(1, content, from, count, out),
        Variant::SByte(content) => write_typed_part(2, content, from, count, out),
        Variant::Byte(content) => write_typed_part(3, content, from, count, out),
        Variant::Int16(content) => write_typed_part(4, content, from, count, out),
        Variant::UInt16(content) => write_typed_part(5, content, from, count, out),
        Variant::Int32(content) => write_typed_part(6, content, from, count, out),
        Variant::UInt32(content) => write_typed_part(7, content, from, count, out),
        Variant::Int64(content) => write_typed_part(8, content, from, count, out),
        Variant::UInt64(content) => write_typed_part(9, content, from, count, out),
        Variant::Float(content) => write_typed_part(10, content, from, count, out),
        Variant::Double(content) => write_typed_part(11, content, from, count, out),
        Variant::String(content) => write_typed_part(12, content, from, count, out),
        Variant::DateTime(content) => write_typed_part(13, content, from, count, out),
        Variant::Guid(content) => write_typed_part(14, content, from, count, out),
        Variant::ByteString(content) => write_typed_part(15, content, from, count, out),
        Variant::XmlElement(content) => write_typed_part(16, content, from, count, out),
        Variant::NodeId(content) => write_typed_part(17, content, from, count, out),
        Variant::ExpandedNodeId(content) => write_typed_part(18, content, from, count, out),
        Variant::StatusCode(content) => write_typed_part(19, content, from, count, out),
        Variant::QualifiedName(content) => write_typed_part(20, content, from, count, out),
        Variant::LocalizedText(content) => write_typed_part(21, content, from, count, out),
        Variant::ExtensionObject(content) => write_typed_part(22, content, from, count, out),
    }
}

impl Written for BorrowedVariant<'_> {
    ghost reading = { variant_reading };

    ghost encoding = { variant_encoding };

    #[inline(always)]
    fn write(&self, out: &mut Vec<u8>) -> Result<(), AllocError> {
        match self.part {
            None => self.value.encode(out),
            Some((from, count)) => write_part(self.value, from, count, out),
        }
    }
}

//! Copies of parts of lists.

ghost use Rattle.std.specs.Prelude.{◌≡◌, IfOk, IsOk};
ghost use Rattle.ua_types.specs.Parts.{part_in, part_of};
ghost use Rattle.ua_types.specs.Plain.{IsOne, IsPlainValue};

use crate::index_range::IndexRange;
use std::alloc::{AllocError, Global};
use ua_types::{Content, Copyable, Shared, SharedList, Variant, copy_all};

// These elements of a list without dimensions, or all of what is no such list. What is plain takes no memory.
fn copied_content<T: Copyable>(
    alloc: Global,
    content: &Content<T>,
    range: IndexRange,
) -> Result<Content<T>, AllocError>
    ensures part { IfOk result (λ part. part ≡ part_in range.first range.count content.now) }
    ensures plain { IsOne T.is_plain (part_in range.first range.count content.now) → IsOk result }
{
    if let Content::Array(list) = content {
        if let Some(elements) = list.as_slice() {
            let (_, rest) = elements.split_at((range.first as usize).min(elements.len()));
            let (part, _) = rest.split_at((range.count as usize).min(rest.len()));
            return Ok(Content::Array(SharedList::new(copy_all(alloc, part)?)?));
        }
    }
    content.copy(alloc)
}

/// A copy of these elements of a list without dimensions, and of all of what is no such list. What is plain takes no memory.
pub(crate) fn copied_part(
    alloc: Global,
    value: &Variant,
    range: IndexRange,
) -> Result<Variant, AllocError>
    ensures part { IfOk result (λ part. part ≡ part_of range.first range.count value.now) }
    ensures plain { IsPlainValue (part_of range.first range.count value.now) → IsOk result }
{
    match value {
        Variant::Null => Ok(Variant::Null),
        Variant::Boolean(content) => Ok(Variant::Boolean(copied_content(alloc, content, range)?)),
        Variant::SByte(content) => Ok(Variant::SByte(copied_content(alloc, content, range)?)),
        Variant::Byte(content) => Ok(Variant::Byte(copied_content(alloc, content, range)?)),
        Variant::Int16(content) => Ok(Variant::Int16(copied_content(alloc, content, range)?)),
        Variant::UInt16(content) => Ok(Variant::UInt16(copied_content(alloc, content, range)?)),
        Variant::Int32(content) => Ok(Variant::Int32(copied_content(alloc, content, range)?)),
        Variant::UInt32(content) => Ok(Variant::UInt32(copied_content(alloc, content, range)?)),
        Variant::Int64(content) => Ok(Variant::Int64(copied_content(alloc, content, range)?)),
        Variant::UInt64(content) => Ok(Variant::UInt64(copied_content(alloc, content, range)?)),
        Variant::Float(content) => Ok(Variant::Float(copied_content(alloc, content, range)?)),
        Variant::Double(content) => Ok(Variant::Double(copied_content(alloc, content, range)?)),
        Variant::String(content) => Ok(Variant::String(copied_content(alloc, content, range)?)),
        Variant::DateTime(content) => Ok(Variant::DateTime(copied_content(alloc, content, range)?)),
        Variant::Guid(content) => Ok(Variant::Guid(copied_content(alloc, content, range)?)),
        Variant::ByteString(content) => Ok(Variant::ByteString(copied_content(
            alloc, content, range,
        )?)),
        Variant::XmlElement(content) => Ok(Variant::XmlElement(copied_content(
            alloc, content, range,
        )?)),
        Variant::NodeId(content) => Ok(Variant::NodeId(copied_content(alloc, content, range)?)),
        Variant::ExpandedNodeId(content) => Ok(Variant::ExpandedNodeId(Shared::new(
            alloc,
            copied_content(alloc, content, range)?,
        )?)),
        Variant::StatusCode(content) => Ok(Variant::StatusCode(copied_content(
            alloc, content, range,
        )?)),
        Variant::QualifiedName(content) => Ok(Variant::QualifiedName(copied_content(
            alloc, content, range,
        )?)),
        Variant::LocalizedText(content) => Ok(Variant::LocalizedText(Shared::new(
            alloc,
            copied_content(alloc, content, range)?,
        )?)),
        Variant::ExtensionObject(content) => Ok(Variant::ExtensionObject(Shared::new(
            alloc,
            copied_content(alloc, content, range)?,
        )?)),
    }
}

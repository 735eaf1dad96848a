//! Values of any type.

ghost use Rattle.std.specs.Prelude.{◌≡◌, ◌<◌, IfOk};
ghost use Rattle.ua_types.specs.Parts.{list_len_in, flattened_in, with_part_in, list_len, flattened, with_part, HasRoom};
ghost use Rattle.ua_types.specs.Plain.{IsPlainValue};
ghost use Rattle.ua_types.specs.Variants.{type_number};
ghost use Rattle.ua_types.specs.Shapes.{shape_of};

use crate::byte_string::ByteString;
use crate::content::Content;
use crate::copyable::Copyable;
use crate::extension_object::ExtensionObject;
use crate::float::{Double, Float};
use crate::guid::Guid;
use crate::localized_text::LocalizedText;
use crate::moment::Moment;
use crate::node_id::{ExpandedNodeId, NodeId};
use crate::qualified_name::QualifiedName;
use crate::shape::Shape;
use crate::shared::Shared;
use crate::status::Status;
use crate::text::Text;
use std::alloc::{AllocError, Global};

// The content of a block of its own, flattened, in another block.
fn flattened_shared<T: Copyable>(
    alloc: Global,
    content: Shared<Content<T>>,
) -> Result<Shared<Content<T>>, AllocError>
    ensures { IfOk result (λ flat. flat ≡ flattened_in content) }
{
    Shared::new(alloc, content.unwrap_or_copy(alloc)?.flattened())
}

// A list in a block of its own with others in the place of some of its elements, in another block.
fn shared_with_part<T: Copyable>(
    alloc: Global,
    whole: Shared<Content<T>>,
    from: usize,
    part: Shared<Content<T>>,
) -> Result<Shared<Content<T>>, AllocError>
    requires { HasRoom from (list_len_in part) (list_len_in whole) }
    ensures { IfOk result (λ list. list ≡ with_part_in from part whole) }
{
    let whole = whole.unwrap_or_copy(alloc)?;
    let part = part.unwrap_or_copy(alloc)?;
    Shared::new(alloc, whole.with_part(alloc, from, part)?)
}

/// A value of any built-in type (Variant, IEC 62541-6, 5.2.2.16), but for `DataValue`, `Variant` and
/// `DiagnosticInfo`, which the server doesn't carry in one.
///
/// Variants go by the number of their type, and then by their content. The contents of the three largest types stand in
/// blocks of their own, so that every Variant is small.
#[derive(Debug, PartialEq, Eq, PartialOrd, Ord)]
pub enum Variant {
    /// No value.
    Null,
    Boolean(Content<bool>),
    SByte(Content<i8>),
    Byte(Content<u8>),
    Int16(Content<i16>),
    UInt16(Content<u16>),
    Int32(Content<i32>),
    UInt32(Content<u32>),
    Int64(Content<i64>),
    UInt64(Content<u64>),
    Float(Content<Float>),
    Double(Content<Double>),
    String(Content<Text>),
    DateTime(Content<Moment>),
    Guid(Content<Guid>),
    ByteString(Content<ByteString>),
    /// An XML element, whose bytes nobody checks.
    XmlElement(Content<ByteString>),
    NodeId(Content<NodeId>),
    ExpandedNodeId(Shared<Content<ExpandedNodeId>>),
    StatusCode(Content<Status>),
    QualifiedName(Content<QualifiedName>),
    LocalizedText(Shared<Content<LocalizedText>>),
    ExtensionObject(Shared<Content<ExtensionObject>>),
}

impl Variant {
    /// The number of its type (IEC 62541-6, 5.1.2), 1 to 22, and 0 for no value.
    pub fn type_number(&self) -> u8
        ensures number { result ≡ type_number self.now }
        ensures served { result < 23 }
    {
        match self {
            Variant::Null => 0,
            Variant::Boolean(_) => 1,
            Variant::SByte(_) => 2,
            Variant::Byte(_) => 3,
            Variant::Int16(_) => 4,
            Variant::UInt16(_) => 5,
            Variant::Int32(_) => 6,
            Variant::UInt32(_) => 7,
            Variant::Int64(_) => 8,
            Variant::UInt64(_) => 9,
            Variant::Float(_) => 10,
            Variant::Double(_) => 11,
            Variant::String(_) => 12,
            Variant::DateTime(_) => 13,
            Variant::Guid(_) => 14,
            Variant::ByteString(_) => 15,
            Variant::XmlElement(_) => 16,
            Variant::NodeId(_) => 17,
            Variant::ExpandedNodeId(_) => 18,
            Variant::StatusCode(_) => 19,
            Variant::QualifiedName(_) => 20,
            Variant::LocalizedText(_) => 21,
            Variant::ExtensionObject(_) => 22,
        }
    }

    /// Whether it is one value, a list, or a list with dimensions.
    pub fn shape(&self) -> Shape
        ensures { result ≡ shape_of self.now }
    {
        match self {
            Variant::Null => Shape::Null,
            Variant::Boolean(content) => content.shape(),
            Variant::SByte(content) => content.shape(),
            Variant::Byte(content) => content.shape(),
            Variant::Int16(content) => content.shape(),
            Variant::UInt16(content) => content.shape(),
            Variant::Int32(content) => content.shape(),
            Variant::UInt32(content) => content.shape(),
            Variant::Int64(content) => content.shape(),
            Variant::UInt64(content) => content.shape(),
            Variant::Float(content) => content.shape(),
            Variant::Double(content) => content.shape(),
            Variant::String(content) => content.shape(),
            Variant::DateTime(content) => content.shape(),
            Variant::Guid(content) => content.shape(),
            Variant::ByteString(content) => content.shape(),
            Variant::XmlElement(content) => content.shape(),
            Variant::NodeId(content) => content.shape(),
            Variant::ExpandedNodeId(content) => content.shape(),
            Variant::StatusCode(content) => content.shape(),
            Variant::QualifiedName(content) => content.shape(),
            Variant::LocalizedText(content) => content.shape(),
            Variant::ExtensionObject(content) => content.shape(),
        }
    }

    /// A list with at most one dimension as the list without dimensions, and everything else as it is.
    pub fn flattened(self, alloc: Global) -> Result<Variant, AllocError>
        ensures { IfOk result (λ value. value ≡ flattened self) }
    {
        match self {
            Variant::Null => Ok(Variant::Null),
            Variant::Boolean(content) => Ok(Variant::Boolean(content.flattened())),
            Variant::SByte(content) => Ok(Variant::SByte(content.flattened())),
            Variant::Byte(content) => Ok(Variant::Byte(content.flattened())),
            Variant::Int16(content) => Ok(Variant::Int16(content.flattened())),
            Variant::UInt16(content) => Ok(Variant::UInt16(content.flattened())),
            Variant::Int32(content) => Ok(Variant::Int32(content.flattened())),
            Variant::UInt32(content) => Ok(Variant::UInt32(content.flattened())),
            Variant::Int64(content) => Ok(Variant::Int64(content.flattened())),
            Variant::UInt64(content) => Ok(Variant::UInt64(content.flattened())),
            Variant::Float(content) => Ok(Variant::Float(content.flattened())),
            Variant::Double(content) => Ok(Variant::Double(content.flattened())),
            Variant::String(content) => Ok(Variant::String(content.flattened())),
            Variant::DateTime(content) => Ok(Variant::DateTime(content.flattened())),
            Variant::Guid(content) => Ok(Variant::Guid(content.flattened())),
            Variant::ByteString(content) => Ok(Variant::ByteString(content.flattened())),
            Variant::XmlElement(content) => Ok(Variant::XmlElement(content.flattened())),
            Variant::NodeId(content) => Ok(Variant::NodeId(content.flattened())),
            Variant::ExpandedNodeId(content) => Ok(Variant::ExpandedNodeId(flattened_shared(
                alloc, content,
            )?)),
            Variant::StatusCode(content) => Ok(Variant::StatusCode(content.flattened())),
            Variant::QualifiedName(content) => Ok(Variant::QualifiedName(content.flattened())),
            Variant::LocalizedText(content) => Ok(Variant::LocalizedText(flattened_shared(
                alloc, content,
            )?)),
            Variant::ExtensionObject(content) => Ok(Variant::ExtensionObject(flattened_shared(
                alloc, content,
            )?)),
        }
    }

    /// A list with those of another list, of the same type, in the place of as many of its elements, from one on. They are
    /// moved. Memory is wanted only for a type whose contents stand in blocks of their own.
    #[tactic(auto, unfolding(crate::specs::Parts::with_part))]
    pub fn with_part(self, alloc: Global, from: usize, part: Variant) -> Result<Variant, AllocError>
        requires same_type { type_number part ≡ type_number self }
        requires room { HasRoom from (list_len part) (list_len self) }
        ensures { IfOk result (λ value. value ≡ with_part from part self) }
    {
        match self {
            Variant::Null => Ok(Variant::Null),
            Variant::Boolean(whole) => match part {
                Variant::Boolean(part) => Ok(Variant::Boolean(whole.with_part(alloc, from, part)?)),
                _ => unreachable!(),
            },
            Variant::SByte(whole) => match part {
                Variant::SByte(part) => Ok(Variant::SByte(whole.with_part(alloc, from, part)?)),
                _ => unreachable!(),
            },
            Variant::Byte(whole) => match part {
                Variant::Byte(part) => Ok(Variant::Byte(whole.with_part(alloc, from, part)?)),
                _ => unreachable!(),
            },
            Variant::Int16(whole) => match part {
                Variant::Int16(part) => Ok(Variant::Int16(whole.with_part(alloc, from, part)?)),
                _ => unreachable!(),
            },
            Variant::UInt16(whole) => match part {
                Variant::UInt16(part) => Ok(Variant::UInt16(whole.with_part(alloc, from, part)?)),
                _ => unreachable!(),
            },
            Variant::Int32(whole) => match part {
                Variant::Int32(part) => Ok(Variant::Int32(whole.with_part(alloc, from, part)?)),
                _ => unreachable!(),
            },
            Variant::UInt32(whole) => match part {
                Variant::UInt32(part) => Ok(Variant::UInt32(whole.with_part(alloc, from, part)?)),
                _ => unreachable!(),
            },
            Variant::Int64(whole) => match part {
                Variant::Int64(part) => Ok(Variant::Int64(whole.with_part(alloc, from, part)?)),
                _ => unreachable!(),
            },
            Variant::UInt64(whole) => match part {
                Variant::UInt64(part) => Ok(Variant::UInt64(whole.with_part(alloc, from, part)?)),
                _ => unreachable!(),
            },
            Variant::Float(whole) => match part {
                Variant::Float(part) => Ok(Variant::Float(whole.with_part(alloc, from, part)?)),
                _ => unreachable!(),
            },
            Variant::Double(whole) => match part {
                Variant::Double(part) => Ok(Variant::Double(whole.with_part(alloc, from, part)?)),
                _ => unreachable!(),
            },
            Variant::String(whole) => match part {
                Variant::String(part) => Ok(Variant::String(whole.with_part(alloc, from, part)?)),
                _ => unreachable!(),
            },
            Variant::DateTime(whole) => match part {
                Variant::DateTime(part) => Ok(Variant::DateTime(whole.with_part(
                    alloc, from, part,
                )?)),
                _ => unreachable!(),
            },
            Variant::Guid(whole) => match part {
                Variant::Guid(part) => Ok(Variant::Guid(whole.with_part(alloc, from, part)?)),
                _ => unreachable!(),
            },
            Variant::ByteString(whole) => match part {
                Variant::ByteString(part) => Ok(Variant::ByteString(whole.with_part(
                    alloc, from, part,
                )?)),
                _ => unreachable!(),
            },
            Variant::XmlElement(whole) => match part {
                Variant::XmlElement(part) => Ok(Variant::XmlElement(whole.with_part(
                    alloc, from, part,
                )?)),
                _ => unreachable!(),
            },
            Variant::NodeId(whole) => match part {
                Variant::NodeId(part) => Ok(Variant::NodeId(whole.with_part(alloc, from, part)?)),
                _ => unreachable!(),
            },
            Variant::ExpandedNodeId(whole) => match part {
                Variant::ExpandedNodeId(part) => Ok(Variant::ExpandedNodeId(shared_with_part(
                    alloc, whole, from, part,
                )?)),
                _ => unreachable!(),
            },
            Variant::StatusCode(whole) => match part {
                Variant::StatusCode(part) => Ok(Variant::StatusCode(whole.with_part(
                    alloc, from, part,
                )?)),
                _ => unreachable!(),
            },
            Variant::QualifiedName(whole) => match part {
                Variant::QualifiedName(part) => Ok(Variant::QualifiedName(whole.with_part(
                    alloc, from, part,
                )?)),
                _ => unreachable!(),
            },
            Variant::LocalizedText(whole) => match part {
                Variant::LocalizedText(part) => Ok(Variant::LocalizedText(shared_with_part(
                    alloc, whole, from, part,
                )?)),
                _ => unreachable!(),
            },
            Variant::ExtensionObject(whole) => match part {
                Variant::ExtensionObject(part) => Ok(Variant::ExtensionObject(shared_with_part(
                    alloc, whole, from, part,
                )?)),
                _ => unreachable!(),
            },
        }
    }
}

// Written out, so that a proof sees a drop as one call and not as its cases.
impl Drop for Variant {
    fn drop(self) {
        match self {
            Variant::Null => {}
            Variant::Boolean(_) => {}
            Variant::SByte(_) => {}
            Variant::Byte(_) => {}
            Variant::Int16(_) => {}
            Variant::UInt16(_) => {}
            Variant::Int32(_) => {}
            Variant::UInt32(_) => {}
            Variant::Int64(_) => {}
            Variant::UInt64(_) => {}
            Variant::Float(_) => {}
            Variant::Double(_) => {}
            Variant::String(_) => {}
            Variant::DateTime(_) => {}
            Variant::Guid(_) => {}
            Variant::ByteString(_) => {}
            Variant::XmlElement(_) => {}
            Variant::NodeId(_) => {}
            Variant::ExpandedNodeId(_) => {}
            Variant::StatusCode(_) => {}
            Variant::QualifiedName(_) => {}
            Variant::LocalizedText(_) => {}
            Variant::ExtensionObject(_) => {}
        }
    }
}

impl Copyable for Variant {
    ghost is_plain = { IsPlainValue };

    fn copy(&self, alloc: Global) -> Result<Variant, AllocError> {
        match self {
            Variant::Null => Ok(Variant::Null),
            Variant::Boolean(content) => Ok(Variant::Boolean(content.copy(alloc)?)),
            Variant::SByte(content) => Ok(Variant::SByte(content.copy(alloc)?)),
            Variant::Byte(content) => Ok(Variant::Byte(content.copy(alloc)?)),
            Variant::Int16(content) => Ok(Variant::Int16(content.copy(alloc)?)),
            Variant::UInt16(content) => Ok(Variant::UInt16(content.copy(alloc)?)),
            Variant::Int32(content) => Ok(Variant::Int32(content.copy(alloc)?)),
            Variant::UInt32(content) => Ok(Variant::UInt32(content.copy(alloc)?)),
            Variant::Int64(content) => Ok(Variant::Int64(content.copy(alloc)?)),
            Variant::UInt64(content) => Ok(Variant::UInt64(content.copy(alloc)?)),
            Variant::Float(content) => Ok(Variant::Float(content.copy(alloc)?)),
            Variant::Double(content) => Ok(Variant::Double(content.copy(alloc)?)),
            Variant::String(content) => Ok(Variant::String(content.copy(alloc)?)),
            Variant::DateTime(content) => Ok(Variant::DateTime(content.copy(alloc)?)),
            Variant::Guid(content) => Ok(Variant::Guid(content.copy(alloc)?)),
            Variant::ByteString(content) => Ok(Variant::ByteString(content.copy(alloc)?)),
            Variant::XmlElement(content) => Ok(Variant::XmlElement(content.copy(alloc)?)),
            Variant::NodeId(content) => Ok(Variant::NodeId(content.copy(alloc)?)),
            Variant::ExpandedNodeId(content) => Ok(Variant::ExpandedNodeId(content.copy(alloc)?)),
            Variant::StatusCode(content) => Ok(Variant::StatusCode(content.copy(alloc)?)),
            Variant::QualifiedName(content) => Ok(Variant::QualifiedName(content.copy(alloc)?)),
            Variant::LocalizedText(content) => Ok(Variant::LocalizedText(content.copy(alloc)?)),
            Variant::ExtensionObject(content) => Ok(Variant::ExtensionObject(content.copy(alloc)?)),
        }
    }
}

//! The attributes of nodes: their numbers, and what each is.

ghost use Rattle.std.specs.Prelude.{◌≡◌, option_map, IfSome};
ghost use Rattle.ua_read_write.specs.AttributeIds.{attribute_numbered};
ghost use Rattle.ua_read_write.specs.Attributes.{seen, own_attribute, variable_attribute, attribute_of, attribute_at, rank_number, IsWhole};

use crate::index_range::IndexRange;
use ua_space::{Node, NodeDetails, ValueRank, Variable};
use ua_types::{LocalizedText, NodeId, QualifiedName, Text};

/// An attribute of a node, by its number (IEC 62541-6, Annex A, "Attribute ids").
///
/// docs/SERVICES.md says which class of nodes has which of them.
#[derive(Clone, Copy, Debug, PartialEq, Eq)]
pub enum AttributeId {
    NodeId = 1,
    NodeClass = 2,
    BrowseName = 3,
    DisplayName = 4,
    Description = 5,
    WriteMask = 6,
    UserWriteMask = 7,
    IsAbstract = 8,
    Symmetric = 9,
    InverseName = 10,
    EventNotifier = 12,
    Value = 13,
    DataType = 14,
    ValueRank = 15,
    AccessLevel = 17,
    UserAccessLevel = 18,
    Historizing = 20,
}

impl AttributeId {
    /// The attribute with this number. None where no node of this server has one, as 11 and 16.
    #[tactic(auto, unfolding(crate::specs::AttributeIds::attribute_numbered))]
    pub fn numbered(number: u32) -> Option<AttributeId>
        ensures { result ≡ attribute_numbered number }
    {
        match number {
            1 => Some(AttributeId::NodeId),
            2 => Some(AttributeId::NodeClass),
            3 => Some(AttributeId::BrowseName),
            4 => Some(AttributeId::DisplayName),
            5 => Some(AttributeId::Description),
            6 => Some(AttributeId::WriteMask),
            7 => Some(AttributeId::UserWriteMask),
            8 => Some(AttributeId::IsAbstract),
            9 => Some(AttributeId::Symmetric),
            10 => Some(AttributeId::InverseName),
            12 => Some(AttributeId::EventNotifier),
            13 => Some(AttributeId::Value),
            14 => Some(AttributeId::DataType),
            15 => Some(AttributeId::ValueRank),
            17 => Some(AttributeId::AccessLevel),
            18 => Some(AttributeId::UserAccessLevel),
            20 => Some(AttributeId::Historizing),
            _ => None,
        }
    }
}

/// An attribute of a node, where it stands.
#[derive(Clone, Copy, Debug)]
pub(crate) enum Attribute<'a> {
    /// The value of this variable.
    Value(&'a Variable),
    /// The value of this variable, and of its list these elements alone.
    Part(&'a Variable, IndexRange),
    Id(&'a NodeId),
    Name(&'a QualifiedName),
    Words(&'a LocalizedText),
    /// The id of the built-in type with this number.
    Type(u8),
    Boolean(bool),
    Byte(u8),
    Int32(i32),
    UInt32(u32),
}

fn rank_number(rank: ValueRank) -> i32
    ensures { result ≡ rank_number rank }
{
    match rank {
        ValueRank::Scalar => -1,
        ValueRank::List => 1,
    }
}

// It and those below are inlined, so that an attribute isn't moved on its way to the function that shows it.
#[inline(always)]
fn variable_attribute(variable: &Variable, id: AttributeId) -> Option<Attribute<'_>>
    ensures attribute { option_map seen result ≡ variable_attribute variable.now id }
    ensures whole { IfSome result IsWhole }
{
    match id {
        AttributeId::Value => Some(Attribute::Value(variable)),
        AttributeId::DataType => Some(Attribute::Type(variable.data_type)),
        AttributeId::ValueRank => Some(Attribute::Int32(rank_number(variable.value_rank))),
        AttributeId::AccessLevel | AttributeId::UserAccessLevel => {
            Some(Attribute::Byte(variable.access))
        }
        AttributeId::Historizing => Some(Attribute::Boolean(variable.historizing)),
        _ => None,
    }
}

// An attribute that not all classes have.
#[inline(always)]
fn own_attribute(details: &NodeDetails, id: AttributeId) -> Option<Attribute<'_>>
    ensures attribute { option_map seen result ≡ own_attribute details.now id }
    ensures whole { IfSome result IsWhole }
{
    match details {
        NodeDetails::Object => match id {
            AttributeId::EventNotifier => Some(Attribute::Byte(0)),
            _ => None,
        },
        NodeDetails::Variable(variable) => variable_attribute(variable, id),
        NodeDetails::ObjectType { is_abstract } | NodeDetails::DataType { is_abstract } => {
            match id {
                AttributeId::IsAbstract => Some(Attribute::Boolean(*is_abstract)),
                _ => None,
            }
        }
        NodeDetails::VariableType {
            data_type,
            value_rank,
            is_abstract,
        } => match id {
            AttributeId::IsAbstract => Some(Attribute::Boolean(*is_abstract)),
            AttributeId::DataType => Some(Attribute::Type(*data_type)),
            AttributeId::ValueRank => Some(Attribute::Int32(rank_number(*value_rank))),
            _ => None,
        },
        NodeDetails::ReferenceType {
            is_abstract,
            symmetric,
            inverse_name,
        } => match id {
            AttributeId::IsAbstract => Some(Attribute::Boolean(*is_abstract)),
            AttributeId::Symmetric => Some(Attribute::Boolean(*symmetric)),
            AttributeId::InverseName => Some(Attribute::Words(inverse_name)),
            _ => None,
        },
    }
}

// An attribute of a node, where its class has it.
#[inline(always)]
fn attribute_of(node: &Node, id: AttributeId) -> Option<Attribute<'_>>
    ensures attribute { option_map seen result ≡ attribute_of node.now id }
    ensures whole { IfSome result IsWhole }
{
    match id {
        AttributeId::NodeId => Some(Attribute::Id(&node.id)),
        AttributeId::NodeClass => Some(Attribute::Int32(i32::from(node.class().number()))),
        AttributeId::BrowseName => Some(Attribute::Name(&node.browse_name)),
        AttributeId::DisplayName => Some(Attribute::Words(&node.display_name)),
        AttributeId::Description => Some(Attribute::Words(&node.description)),
        AttributeId::WriteMask | AttributeId::UserWriteMask => Some(Attribute::UInt32(0)),
        _ => own_attribute(&node.details, id),
    }
}

/// The attribute with this number, where the node's class has it.
#[inline(always)]
pub(crate) fn attribute_at(node: &Node, number: u32) -> Option<Attribute<'_>>
    ensures attribute { option_map seen result ≡ attribute_at node.now number }
    ensures whole { IfSome result IsWhole }
{
    attribute_of(node, AttributeId::numbered(number)?)
}

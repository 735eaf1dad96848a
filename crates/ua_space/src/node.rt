//! Nodes: what all have, and what each class adds.

ghost use Rattle.std.specs.Prelude.{◌≡◌, true};
ghost use Rattle.ua_space.specs.NodeClasses.{class_of};
ghost use Rattle.ua_space.specs.Variables.{has_rank, takes, takes_if_any};

use std::marker::Model;
use ua_types::{
    DataValue, Listed, LocalizedText, NodeClass, NodeId, QualifiedName, Shape, Variant,
};

/// Whether a variable holds one value or a list (ValueRank, IEC 62541-3, 5.6.2), with the standard's
/// numbers.
#[derive(Clone, Copy, Debug, PartialEq, Eq)]
pub enum ValueRank {
    /// One value.
    Scalar = -1,
    /// A list, of one dimension.
    List = 1,
}

/// What a Variable node has beside the attributes of all nodes (IEC 62541-3, 5.6.2).
///
/// It always has a value of its type and rank, its type is a built-in one, and its access level lies in
/// its range.
#[derive(Debug, Drop)]
pub struct Variable {
    /// The number of the values' type (IEC 62541-6, 5.1.2), 1 to 22.
    pub data_type: u8,

    pub value_rank: ValueRank,

    /// The value as it stands.
    pub value: DataValue,

    /// AccessLevel, 0 to 15: bit 0 readable, bit 1 writable, bit 2 readable history, bit 3 writable
    /// history.
    pub access: u8,

    /// Whether the server keeps the history of the value.
    pub historizing: bool,
}

impl Model for Variable {
    ghost use Rattle.ua_space.specs.Variables.{VariableAttributes, IsTyped};

    ghost Value = { VariableAttributes };

    ghost view = { λ v. record { data_type = v.data_type; value_rank = v.value_rank; value = v.value; access = v.access; historizing = v.historizing } };

    ghost invariant = { λ v. IsTyped (view v) };
}

// Whether it is one value, or a list without dimensions, as the rank says.
#[tactic(auto, unfolding(crate::specs::Variables::has_rank))]
fn has_rank(value: &Variant, rank: ValueRank) -> bool
    ensures { result ≡ has_rank rank value.now }
{
    match value.shape() {
        Shape::Scalar => rank == ValueRank::Scalar,
        Shape::List => rank == ValueRank::List,
        Shape::Null | Shape::Matrix => false,
    }
}

impl Variable {
    /// Whether it may have this value: one of its type, and one value or a list as its rank says. A list
    /// may be null, and has no dimensions. No value (`Variant::Null`) is never taken.
    pub fn takes(&self, value: &Variant) -> bool
        ensures { result ≡ takes self.now value.now }
    {
        value.type_number() == self.data_type && has_rank(value, self.value_rank)
    }

    // Gives it a new value.
    pub(crate) fn set(&mut self, value: DataValue)
        requires { takes_if_any self.old value.value ≡ true }
        ensures { self.new ≡ record self.old { value = value } }
    {
        self.value = value;
    }
}

/// The class of a node, with the attributes that only this class has (IEC 62541-3, 5.3 to 5.8).
#[derive(Debug)]
pub enum NodeDetails {
    Object,

    Variable(Variable),

    ObjectType {
        is_abstract: bool,
    },

    VariableType {
        /// The number of the values' type (IEC 62541-6, 5.1.2), 1 to 22.
        data_type: u8,
        value_rank: ValueRank,
        is_abstract: bool,
    },

    ReferenceType {
        is_abstract: bool,
        /// Whether it means the same seen from either end.
        symmetric: bool,
        /// What it is called seen from its target, or null.
        inverse_name: LocalizedText,
    },

    DataType {
        is_abstract: bool,
    },
}

// Written out, so that a proof sees a drop as one call and not as its cases.
impl Drop for NodeDetails {
    fn drop(self) {
        match self {
            NodeDetails::Object => {}
            NodeDetails::Variable(_) => {}
            NodeDetails::ObjectType { is_abstract: _ } => {}
            NodeDetails::VariableType {
                data_type: _,
                value_rank: _,
                is_abstract: _,
            } => {}
            NodeDetails::ReferenceType {
                is_abstract: _,
                symmetric: _,
                inverse_name: _,
            } => {}
            NodeDetails::DataType { is_abstract: _ } => {}
        }
    }
}

/// A node, with its attributes (IEC 62541-3, 5.2).
#[derive(Debug, Drop)]
pub struct Node {
    pub id: NodeId,
    /// The name that paths use.
    pub browse_name: QualifiedName,
    /// The name for people.
    pub display_name: LocalizedText,
    /// What the node is, for people; null texts where nothing is said.
    pub description: LocalizedText,
    pub details: NodeDetails,
    /// The values that the variable had before the server began, by rising source time; empty for all
    /// other nodes.
    pub history: Listed<DataValue>,
}

impl Node {
    /// Its class.
    pub fn class(&self) -> NodeClass
        ensures { result ≡ class_of self.now }
    {
        match &self.details {
            NodeDetails::Object => NodeClass::Object,
            NodeDetails::Variable(_) => NodeClass::Variable,
            NodeDetails::ObjectType { .. } => NodeClass::ObjectType,
            NodeDetails::VariableType { .. } => NodeClass::VariableType,
            NodeDetails::ReferenceType { .. } => NodeClass::ReferenceType,
            NodeDetails::DataType { .. } => NodeClass::DataType,
        }
    }
}

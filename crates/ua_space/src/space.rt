//! The address space.

use crate::index::{Indexes, places_at};
use crate::node::{Node, NodeDetails, Variable};
use crate::node_table::NodeTable;
use crate::numbering::Numbering;
use crate::references::{References, TripleList};
use crate::subtype_set::{Subtypes, walked_down};
use crate::subtypes::is_subtype;
use crate::triple::Triple;
use collections::Near;
use std::alloc::{AllocError, Global};
use std::marker::Model;
use ua_types::{DataValue, Listed, NodeId};
use ua_views::NodeIdView;

/// The nodes of a server and the references between them, the base set included.
///
/// It is built by [`Space::build`]. Later only values of variables change. So each node stands under its
/// own id, each reference's ends are nodes and its type is a ReferenceType node, none is there twice, no
/// chain of HasSubtype references comes back, and there are at most 1,000,000 nodes and 4,000,000
/// references (`IsSpace`).
#[derive(Drop)]
pub struct Space {
    // Each node under its own id.
    nodes: NodeTable,
    // The references in declared order, those of the base set first.
    triples: Vec<Triple>,
    // Which references each node has. They never change.
    indexes: Indexes,
    // Numbers for the types that have subtypes, by which types are marked on a walk.
    numbering: Numbering,
}

impl Model for Space {
    ghost use Rattle.ua_space.specs.Nodes.{SpaceState};
    ghost use Rattle.ua_space.specs.Spaces.{IsSpace};
    ghost use Rattle.ua_space.specs.Indexed.{AreIndexes};
    ghost use Rattle.ua_space.specs.Numbers.{AreNumbered};

    ghost Value = { SpaceState };

    ghost view = { λ s. record { nodes = s.nodes; triples = s.triples.items } };

    ghost invariant = { λ s. record {
      sound : IsSpace (view s);
      indexes : AreIndexes s.triples.items s.indexes;
      numbered : AreNumbered s.triples.items s.numbering.types.items s.numbering.numbers.entries;
    } };
}

impl Space {
    ghost use Rattle.std.specs.Prelude.{◌≡◌, ◌<◌, length, true, IsTrue, ◌↔◌, IfOk, IfSome, Some, None, option_map, slice_get};
    ghost use Rattle.std.specs.List.{list_any};
    ghost use Rattle.ua_types.specs.NodeIdOrder.{same_id};
    ghost use Rattle.ua_types.specs.declared.node_id.NodeId.{NodeId};
    ghost use Rattle.std.specs.Option.{option_copied};
    ghost use Rattle.ua_space.specs.Histories.{history_in, with_history_in, without_history_in};
    ghost use Rattle.ua_space.specs.Nodes.{node_at};
    ghost use Rattle.ua_space.specs.NodePlaces.{place_of, IsTakenIn};
    ghost use Rattle.ua_space.specs.Values.{variable_at, value_at, takes_at, with_value};
    ghost use Rattle.ua_space.specs.References.{references_of, type_definition_of};
    ghost use Rattle.ua_space.specs.Spaces.{IsSpace, is_reference_type};
    ghost use Rattle.ua_space.specs.Subtypes.{IsSubtype, is_subtype};
    ghost use Rattle.ua_space.specs.Indexed.{AreIndexes};
    ghost use Rattle.ua_space.specs.Numbers.{AreNumbered};

    // A space of these nodes and references, of their indexes, and of the numbers of their types.
    pub(crate) fn new(
        nodes: NodeTable,
        triples: Vec<Triple>,
        indexes: Indexes,
        numbering: Numbering,
    ) -> Space
        requires sound { IsSpace (record { nodes = nodes; triples = triples.items }) }
        requires indexes { AreIndexes triples.items indexes }
        requires numbered { AreNumbered triples.items numbering.types.items numbering.numbers.entries }
        ensures { result ≡ record { nodes = nodes; triples = triples.items } }
    {
        Space {
            nodes,
            triples,
            indexes,
            numbering,
        }
    }

    /// What every space keeps, for a proof that needs it. Does nothing.
    pub fn soundness(&self)
        ensures { IsSpace self.now }
    {
        let _ = &self.nodes;
    }

    /// The node with this id.
    pub fn node(&self, id: &NodeId) -> Option<&Node>
        ensures { option_copied result ≡ node_at id.now self.now.nodes }
    {
        self.nodes.get(id)
    }

    /// The node with an id that is looked at in place.
    ///
    /// A caller goes on with the node's own id, which is the same. Takes no memory.
    pub fn find(&self, id: &NodeIdView<'_>) -> Option<&Node>
        ensures node { option_copied result ≡ node_at id.now self.now.nodes }
        ensures own { IfSome result (λ node. node.now.id ≡ id.now) }
    {
        self.nodes.find(id)
    }

    /// The same, for a caller that looks for many nodes: one that goes through them in the order of ids, or asks for one several times in a
    /// row, finds most without a search ([`Near`]).
    pub fn find_near(&self, near: &mut Near, id: &NodeIdView<'_>) -> Option<&Node>
        ensures node { option_copied result ≡ node_at id.now self.now.nodes }
        ensures own { IfSome result (λ node. node.now.id ≡ id.now) }
    {
        self.nodes.find_near(near, id)
    }

    /// The place of the node with an id that is looked at in place, for a caller that looks at the node more than once
    /// ([`Space::node_in_order`], [`Space::set_value_in`]), looked for as [`Space::find_near`] does. It stays the same as long as
    /// the space is there. Takes no memory.
    #[tactic(auto, using(crate::proofs::Placing::nobody))]
    pub fn place(&self, near: &mut Near, id: &NodeIdView<'_>) -> Option<usize>
        ensures place { result ≡ place_of id.now self.now.nodes }
        ensures none { result ≡ None → node_at id.now self.now.nodes ≡ None }
    {
        self.nodes.place(near, id)
    }

    /// Whether the node with this id is a ReferenceType node.
    pub fn is_reference_type(&self, id: &NodeId) -> bool
        ensures { result ≡ is_reference_type (node_at id.now self.now.nodes) }
    {
        match self.nodes.get(id) {
            None => false,
            Some(node) => matches!(&node.details, NodeDetails::ReferenceType { .. }),
        }
    }

    /// The variable with this id; None where that is no Variable node.
    pub fn variable(&self, id: &NodeId) -> Option<&Variable>
        ensures { option_copied result ≡ variable_at id.now self.now.nodes }
    {
        match self.nodes.get(id) {
            None => None,
            Some(node) => match &node.details {
                NodeDetails::Variable(variable) => Some(variable),
                _ => None,
            },
        }
    }

    /// The value of the variable with this id; None where that is no Variable node.
    pub fn value(&self, id: &NodeId) -> Option<&DataValue>
        ensures { option_copied result ≡ value_at id.now self.now.nodes }
    {
        match self.variable(id) {
            None => None,
            Some(variable) => Some(&variable.value),
        }
    }

    /// Gives the variable with this id a new value, which it takes ([`Variable::takes`]).
    ///
    /// Nothing else changes. Takes no memory.
    pub fn set_value(&mut self, id: &NodeId, value: DataValue)
        requires { takes_at id.now value self.old.nodes ≡ true }
        ensures nodes { self.new.nodes ≡ with_value id.now value self.old.nodes }
        ensures triples { self.new.triples ≡ self.old.triples }
    {
        self.nodes.set_value(id, value);
    }

    /// Gives the variable at a place in the order of ids ([`Space::place`]) a new value, which it takes ([`Variable::takes`]).
    ///
    /// Nothing else changes. Takes no memory.
    pub fn set_value_in(&mut self, place: usize, value: DataValue)
        requires { IsTakenIn self.old.nodes place value }
        ensures nodes { (id : NodeId) → place_of id self.old.nodes ≡ Some place → self.new.nodes ≡ with_value id value self.old.nodes }
        ensures triples { self.new.triples ≡ self.old.triples }
    {
        self.nodes.set_value_in(place, value);
    }

    /// The node at a place in the order of ids; None past the last.
    #[tactic(auto, using(crate::proofs::Placing::node_there))]
    pub fn node_in_order(&self, place: usize) -> Option<&Node>
        ensures node { option_copied result ≡ option_map (λ e. e.1) (slice_get self.now.nodes place) }
        ensures found { (id : NodeId) → place_of id self.now.nodes ≡ Some place → option_copied result ≡ node_at id self.now.nodes }
        ensures own { (id : NodeId) → place_of id self.now.nodes ≡ Some place → IfSome result (λ node. node.now.id ≡ id) }
    {
        self.nodes.node_in_order(place)
    }

    /// Moves out the values that the node at a place in the order of ids had before the server began. The
    /// node has none from then on.
    ///
    /// Nothing else changes, and no value is copied. Takes no memory.
    pub fn take_history(&mut self, place: usize, alloc: Global) -> Listed<DataValue>
        requires { place < length self.old.nodes }
        ensures taken { result ≡ history_in (slice_get self.old.nodes place) }
        ensures nodes { self.new.nodes ≡ without_history_in place self.old.nodes }
        ensures triples { self.new.triples ≡ self.old.triples }
    {
        self.nodes.take_history(place, alloc)
    }

    /// Gives the node at a place in the order of ids these values from before the server began, in the place of those that it
    /// had.
    ///
    /// Nothing else changes. Takes no memory.
    pub fn put_history(&mut self, place: usize, values: Listed<DataValue>)
        requires { place < length self.old.nodes }
        ensures nodes { self.new.nodes ≡ with_history_in place values self.old.nodes }
        ensures triples { self.new.triples ≡ self.old.triples }
    {
        self.nodes.put_history(place, values);
    }

    /// How many nodes there are, the base set included.
    pub fn node_count(&self) -> usize
        ensures { result ≡ length self.now.nodes }
    {
        self.nodes.len()
    }

    /// How many references there are, the base set included.
    pub fn triple_count(&self) -> usize
        ensures { result ≡ length self.now.triples }
    {
        self.triples.len()
    }

    /// The references of a node, found by an index and without memory.
    #[tactic(auto, using(crate::proofs::Referring::few_filtered))]
    pub fn references(&self, id: &NodeId) -> References<'_>
        ensures { result ≡ references_of id.now self.now.triples }
    {
        let triples = self.triples.as_slice();
        let outgoing = TripleList::new(triples, places_at(&self.indexes.by_source, id));
        let incoming = TripleList::new(triples, places_at(&self.indexes.by_target, id));
        References::new(outgoing, incoming)
    }

    /// The type definition of a node: where its first HasTypeDefinition reference leads, if it has one.
    /// Found by an index and without memory.
    pub fn type_definition(&self, id: &NodeId) -> Option<&NodeId>
        ensures { option_copied result ≡ type_definition_of id.now self.now.triples }
    {
        let triples = self.triples.as_slice();
        let definitions = TripleList::new(triples, places_at(&self.indexes.definitions, id));
        match definitions.get(0) {
            None => None,
            Some(triple) => Some(&triple.target),
        }
    }

    /// A type with all its subtypes, for many questions about the same type.
    ///
    /// Each type is met once, and each HasSubtype reference that goes out from it is followed once,
    /// however many supertypes a type has.
    pub fn subtypes(&self, alloc: Global, upper: &NodeId) -> Result<Subtypes, AllocError>
        ensures { IfOk result (λ types. (id : NodeId) → list_any (same_id id) types ≡ is_subtype self.now.triples id upper.now) }
    {
        walked_down(
            alloc,
            self.triples.as_slice(),
            &self.indexes.subtypes,
            upper,
        )
    }

    /// Whether the one type is the other or one of its subtypes. A type is a subtype of itself.
    ///
    /// Takes no memory, but of the stack: 512 bytes where at most 4,096 types have subtypes, and 125 KB else. Its time
    /// grows with the number of the space's types and with that of the HasSubtype references above `lower`, not with that of
    /// the ways which they make.
    #[tactic(auto, using(crate::proofs::Chains::subtype_found, crate::proofs::Chains::subtype_walked))]
    pub fn is_subtype(&self, lower: &NodeId, upper: &NodeId) -> bool
        ensures chain { IsTrue result ↔ IsSubtype self.now.triples lower.now upper.now }
        ensures value { result ≡ is_subtype self.now.triples lower.now upper.now }
    {
        let triples = self.triples.as_slice();
        is_subtype(
            triples,
            &self.indexes.supertypes,
            &self.numbering,
            lower,
            upper,
        )
    }
}

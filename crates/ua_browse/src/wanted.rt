//! Which references of a node are wanted.

ghost use Rattle.std.specs.Option.{option_copied};
ghost use Rattle.std.specs.Prelude.{◌≡◌, ◌<◌, Bool, List, All, Some, None, OnOk, IfOk, IfSome, if◌then◌else◌};
ghost use Rattle.std.specs.Result.{result_map_both};
ghost use Rattle.ua_types.specs.NodeIds.{numeric_id};
ghost use Rattle.ua_types.specs.declared.node_id.NodeId.{NodeId};
ghost use Rattle.ua_space.specs.Spaces.{is_reference_type as is_reference_type_spec};
ghost use Rattle.ua_space.specs.Subtypes.{is_subtype};
ghost use Rattle.ua_space.specs.declared.triple.Triple.{Triple};
ghost use Rattle.ua_browse.specs.Wanted.{has_bit as has_bit_spec, goes as goes_spec, is_direction as is_direction_spec, is_type_wanted as is_type_wanted_spec, IsRight, is_class_in as is_class_in_spec, is_class_wanted as is_class_wanted_spec, is_wanted as is_wanted_spec, is_type, judged as judged_spec};

use crate::asked::Asked;
use std::alloc::{AllocError, Global};
use ua_service_messages::{BrowseDescriptionView, BrowseDirection};
use ua_space::{Direction, Node, NodeDetails, Reference, Space, Subtypes};
use ua_types::{NodeClass, NodeId, Status};
use ua_views::NodeIdView;

/// Whether a mask has a bit, which is told by its value.
pub(crate) fn has_bit(mask: u32, bit: u32) -> bool
    requires { 0 < bit }
    ensures { result ≡ has_bit_spec mask bit }
{
    mask / bit % 2 == 1
}

fn is_direction(direction: BrowseDirection) -> bool
    ensures { result ≡ is_direction_spec direction }
{
    direction == BrowseDirection::FORWARD
        || direction == BrowseDirection::INVERSE
        || direction == BrowseDirection::BOTH
}

fn goes(wanted: BrowseDirection, direction: Direction) -> bool
    ensures { result ≡ goes_spec wanted direction }
{
    match direction {
        Direction::Forward => {
            wanted == BrowseDirection::FORWARD || wanted == BrowseDirection::BOTH
        }
        Direction::Inverse => {
            wanted == BrowseDirection::INVERSE || wanted == BrowseDirection::BOTH
        }
    }
}

/// How many types are judged by a walk from each, before the set of all subtypes is made.
const FEW_TYPES: usize = 8;

/// A type of references, and whether it is the named one or one of its subtypes.
#[derive(Debug, Drop)]
pub struct Verdict<'a> {
    pub id: &'a NodeId,
    pub is_below: bool,
}

/// What a page remembers of the types of its references: whether each is the named one or one of its subtypes.
///
/// The first few types are judged by a walk up from each, once for each of them: so a node whose references have
/// few types wants no set of all subtypes. Where more types come the set is made, once, and asked from then on:
/// so a node whose references go to and fro between many deep types takes no more walks.
#[derive(Debug, Drop)]
pub struct Verdicts<'a> {
    // On the first types, at most `FEW_TYPES` of them.
    pub few: Vec<Verdict<'a>>,
    // None until there are more.
    pub set: Option<Subtypes>,
}

// The verdict on a type, if there is one.
fn verdict_on(few: &[Verdict<'_>], id: &NodeId) -> Option<bool>
    ensures { (is_below : NodeId → Bool) → All (λ v. v.is_below ≡ is_below v.id.now) few.now → IfSome result (λ told. told ≡ is_below id.now) }
{
    for verdict in few {
        if verdict.id == id {
            return Some(verdict.is_below);
        }
    }
    None
}

impl<'a> Verdicts<'a> {
    /// What is known before the first reference: nothing.
    pub(crate) fn new(alloc: Global) -> Verdicts<'a>
        ensures { (triples : List Triple) (named : NodeId) → IsRight triples named result }
    {
        Verdicts {
            few: Vec::new(alloc),
            set: None,
        }
    }

    // Whether a type is the named one or one of its subtypes.
    fn is_below(
        &mut self,
        alloc: Global,
        space: &Space,
        named: &NodeId,
        id: &'a NodeId,
    ) -> Result<bool, AllocError>
        requires { IsRight space.now.triples named.now self.old }
        ensures below { IfOk result (λ is_below. is_below ≡ is_subtype space.now.triples id.now named.now) }
        ensures right { OnOk result (IsRight space.now.triples named.now self.new) }
    {
        if let Some(set) = &self.set {
            return Ok(set.contains(id));
        }
        if let Some(is_below) = verdict_on(&self.few, id) {
            return Ok(is_below);
        }
        if self.few.len() < FEW_TYPES {
            let is_below = space.is_subtype(id, named);
            self.few.push(Verdict { id, is_below })?;
            return Ok(is_below);
        }
        let set = space.subtypes(alloc, named)?;
        let is_below = set.contains(id);
        self.set = Some(set);
        Ok(is_below)
    }
}

fn is_type_wanted<'a>(
    alloc: Global,
    space: &Space,
    asked: &Asked<'_>,
    verdicts: &mut Verdicts<'a>,
    id: &'a NodeId,
) -> Result<bool, AllocError>
    requires { IsRight space.now.triples asked.now.reference_type_id verdicts.old }
    ensures wanted { IfOk result (λ wanted. wanted ≡ is_type_wanted_spec space.now.triples asked.now id.now) }
    ensures right { OnOk result (IsRight space.now.triples asked.now.reference_type_id verdicts.new) }
{
    let named = asked.reference_type_id;
    if named.is_null() {
        return Ok(true);
    }
    if !asked.include_subtypes {
        return Ok(id == named);
    }
    verdicts.is_below(alloc, space, named, id)
}

fn is_class_in(mask: u32, class: NodeClass) -> bool
    ensures { result ≡ is_class_in_spec mask class }
{
    match class {
        NodeClass::Object => has_bit(mask, 1),
        NodeClass::Variable => has_bit(mask, 2),
        NodeClass::ObjectType => has_bit(mask, 8),
        NodeClass::VariableType => has_bit(mask, 16),
        NodeClass::ReferenceType => has_bit(mask, 32),
        NodeClass::DataType => has_bit(mask, 64),
    }
}

fn is_class_wanted(space: &Space, mask: u32, id: &NodeId) -> bool
    ensures { result ≡ is_class_wanted_spec space.now.nodes mask id.now }
{
    if mask == 0 {
        return true;
    }
    match space.node(id) {
        None => false,
        Some(node) => is_class_in(mask, node.class()),
    }
}

/// Whether a reference is one that a description asks for. `verdicts` go from each reference to the next. The
/// direction is judged first, since that takes the least.
pub(crate) fn is_wanted<'a>(
    alloc: Global,
    space: &Space,
    asked: &Asked<'_>,
    verdicts: &mut Verdicts<'a>,
    reference: &Reference<'a>,
) -> Result<bool, AllocError>
    requires { IsRight space.now.triples asked.now.reference_type_id verdicts.old }
    ensures wanted { IfOk result (λ wanted. wanted ≡ is_wanted_spec space.now asked.now reference.now) }
    ensures right { OnOk result (IsRight space.now.triples asked.now.reference_type_id verdicts.new) }
{
    if !goes(asked.browse_direction, reference.direction) {
        return Ok(false);
    }
    let id = &reference.triple.reference_type;
    if !is_type_wanted(alloc, space, asked, verdicts, id)? {
        return Ok(false);
    }
    Ok(is_class_wanted(space, asked.node_class_mask, reference.end()))
}

// Whether it is a ReferenceType node.
fn is_reference_type(node: &Node) -> bool
    ensures { result ≡ is_reference_type_spec (Some node.now) }
{
    matches!(&node.details, NodeDetails::ReferenceType { .. })
}

// The space's own id of a type of references, or null where all types are wanted.
#[tactic(auto, using(crate::proofs::Naming::null_is_the_null_id))]
fn type_named<'a>(space: &'a Space, null: &'a NodeId, named: &NodeIdView<'_>) -> Option<&'a NodeId>
    requires { null.now ≡ numeric_id 0 0 }
    ensures { option_copied result ≡ (if is_type space.now.nodes named.now then Some named.now else None) }
{
    if named.is_null() {
        return Some(null);
    }
    match space.find(named) {
        Some(node) if is_reference_type(node) => Some(&node.id),
        _ => None,
    }
}

/// What a description asks for, with the space's own ids, or why it can't be served. `null` is the null id. Takes no memory.
#[tactic(auto, unfolding(crate::specs::Wanted::judged))]
pub(crate) fn judged<'a>(
    space: &'a Space,
    null: &'a NodeId,
    description: &BrowseDescriptionView<'_>,
) -> Result<Asked<'a>, Status>
    requires { null.now ≡ numeric_id 0 0 }
    ensures { result ≡ result_map_both (λ good. description.now) (λ code. code) (judged_spec space.now.nodes description.now) }
{
    let Some(node) = space.find(&description.node_id) else {
        return Err(Status::BAD_NODE_ID_UNKNOWN);
    };
    let Some(reference_type_id) = type_named(space, null, &description.reference_type_id) else {
        return Err(Status::BAD_REFERENCE_TYPE_ID_INVALID);
    };
    if !is_direction(description.browse_direction) {
        return Err(Status::BAD_BROWSE_DIRECTION_INVALID);
    }
    Ok(Asked {
        node_id: &node.id,
        browse_direction: description.browse_direction,
        reference_type_id,
        include_subtypes: description.include_subtypes,
        node_class_mask: description.node_class_mask,
        result_mask: description.result_mask,
    })
}

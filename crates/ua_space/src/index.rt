//! Which references stand under which id, so that no look-up goes over all of them.

ghost use Rattle.std.specs.Prelude.{◌≡◌, ◌<◌, ◌^◌, ◌++◌, ◌∷◌, [], cond, if◌then◌else◌, length, IfOk, OnOk, vec_len};
ghost use Rattle.std.specs.Option.{option_copied};
ghost use Rattle.ua_types.specs.NodeIdOrder.{same_id};
ghost use Rattle.ua_types.specs.declared.node_id.NodeId.{NodeId};
ghost use Rattle.ua_space.specs.References.{is_defining};
ghost use Rattle.ua_space.specs.Subtypes.{is_subtyping};
ghost use Rattle.ua_space.specs.Indexes.{IsIndex, items, places_at, key_of, stands_under};

use crate::standard_ids::{HAS_SUBTYPE, HAS_TYPE_DEFINITION};
use crate::triple::Triple;
use std::alloc::{AllocError, Global};
use std::collections::BTreeMap;
use ua_types::{Copyable, NodeId};

/// The places of references, under the id that they are looked up by.
pub(crate) type Index = BTreeMap<NodeId, Vec<u32>>;

/// What references are looked up by.
#[derive(Clone, Copy)]
pub(crate) enum Key {
    Source,
    Target,
    /// The source, of HasTypeDefinition references alone.
    Definition,
    /// The source, of HasSubtype references alone.
    Supertype,
    /// The target, of HasSubtype references alone.
    Subtype,
}

/// Whether it leads from a type to its subtype.
pub(crate) fn is_subtyping(triple: &Triple) -> bool
    ensures { result ≡ is_subtyping triple.now }
{
    triple.reference_type == NodeId::numeric(0, HAS_SUBTYPE)
}

// Whether it leads from a node to its type definition.
fn is_defining(triple: &Triple) -> bool
    ensures { result ≡ is_defining triple.now }
{
    triple.reference_type == NodeId::numeric(0, HAS_TYPE_DEFINITION)
}

// The id, if it is asked for.
fn id_if(asked: bool, id: &NodeId) -> Option<&NodeId>
    ensures { option_copied result ≡ (if asked then Some id.now else None) }
{
    if asked { Some(id) } else { None }
}

// The id under which a reference stands.
fn key_of(key: Key, triple: &Triple) -> Option<&NodeId>
    ensures { option_copied result ≡ key_of key triple.now }
{
    match key {
        Key::Source => Some(&triple.source),
        Key::Target => Some(&triple.target),
        Key::Definition => id_if(is_defining(triple), &triple.source),
        Key::Supertype => id_if(is_subtyping(triple), &triple.source),
        Key::Subtype => id_if(is_subtyping(triple), &triple.target),
    }
}

// Adds a place under an id.
fn add(alloc: Global, index: &mut Index, id: &NodeId, place: u32) -> Result<(), AllocError>
    ensures { OnOk result ((q : NodeId) → places_at items q index.new.entries
        ≡ cond (same_id id.now q) (places_at items q index.old.entries ++ place ∷ []) (places_at items q index.old.entries)) }
{
    match index.get_mut(id) {
        Some(places) => places.push(place)?,
        None => {
            let mut places = Vec::new(alloc);
            places.push(place)?;
            index.insert(id.copy(alloc)?, places)?;
        }
    }
    Ok(())
}

/// The index of these references.
pub(crate) fn index_by(alloc: Global, key: Key, triples: &[Triple]) -> Result<Index, AllocError>
    requires { length triples.now < 2 ^ 32 }
    ensures { IfOk result (λ index. IsIndex items (stands_under key) triples.now index.entries) }
{
    let mut index = BTreeMap::new(alloc);
    for (place, triple) in triples.iter().enumerate() {
        match key_of(key, triple) {
            Some(id) => add(alloc, &mut index, id, place as u32)?,
            None => {}
        }
    }
    Ok(index)
}

/// The places under an id.
pub(crate) fn places_at<'a>(index: &'a Index, id: &NodeId) -> &'a [u32]
    ensures { result.now ≡ places_at items id.now index.entry.now.entries }
{
    match index.get(id) {
        None => &[],
        Some(places) => places.as_slice(),
    }
}

/// The indexes that a space keeps: five ordered maps from an id to the places of references in their list. They are proved to
/// hold exactly the references that they are for.
#[derive(Drop)]
pub(crate) struct Indexes {
    /// All references, under their sources.
    pub by_source: Index,
    /// All references, under their targets.
    pub by_target: Index,
    /// The references to type definitions, under the nodes that they define.
    pub definitions: Index,
    /// The references to subtypes, under the supertype.
    pub subtypes: Index,
    /// The references to subtypes, under the subtype.
    pub supertypes: Index,
}

impl Indexes {
    ghost use Rattle.std.specs.Prelude.{◌<◌, ◌^◌, length, IfOk};
    ghost use Rattle.ua_space.specs.Indexed.{AreIndexes};

    /// The indexes of these references.
    pub(crate) fn new(alloc: Global, triples: &[Triple]) -> Result<Indexes, AllocError>
        requires { length triples.now < 2 ^ 32 }
        ensures { IfOk result (λ indexes. AreIndexes triples.now indexes) }
    {
        let by_source = index_by(alloc, Key::Source, triples)?;
        let by_target = index_by(alloc, Key::Target, triples)?;
        let definitions = index_by(alloc, Key::Definition, triples)?;
        let subtypes = index_by(alloc, Key::Supertype, triples)?;
        let supertypes = index_by(alloc, Key::Subtype, triples)?;
        Ok(Indexes {
            by_source,
            by_target,
            definitions,
            subtypes,
            supertypes,
        })
    }
}

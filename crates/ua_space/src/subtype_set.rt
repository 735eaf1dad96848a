//! All subtypes of a type at once.
//!
//! The walk goes down by the index of HasSubtype references by their source, meets each type once and follows each reference once.
//! The set owns copies of the ids: one that borrowed them couldn't be asked about an id that lives shorter.

ghost use Rattle.std.specs.Prelude.{◌≡◌, IfOk, OnOk};
ghost use Rattle.std.specs.List.{list_any};
ghost use Rattle.ua_types.specs.NodeIdOrder.{same_id};
ghost use Rattle.ua_types.specs.declared.node_id.NodeId.{NodeId};
ghost use Rattle.ua_space.specs.Indexes.{IsIndex, items, stands_under};
ghost use Rattle.ua_space.specs.declared.index.Key.TheVariants as keys;
ghost use Rattle.ua_space.specs.Subtypes.{is_subtype};
ghost use Rattle.ua_space.specs.Walks.{lent, met_after, IsSetOf};

use crate::index::{Index, places_at};
use crate::references::TripleList;
use crate::triple::Triple;
use std::alloc::{AllocError, Global};
use std::collections::BTreeSet;
use std::marker::Model;
use ua_types::{Copyable, NodeId};

/// A type and all its subtypes, in the order of ids. It is made by `Space::subtypes`.
#[derive(Debug, Drop)]
pub struct Subtypes {
    ids: BTreeSet<NodeId>,
}

impl Model for Subtypes {
    ghost use Rattle.std.specs.Prelude.{List};
    ghost use Rattle.ua_types.specs.declared.node_id.NodeId.{NodeId};

    ghost Value = { List NodeId };

    ghost view = { λ s. s.ids.keys };
}

impl Subtypes {
    ghost use Rattle.std.specs.Prelude.{◌≡◌};
    ghost use Rattle.std.specs.List.{list_any};
    ghost use Rattle.ua_types.specs.NodeIdOrder.{same_id};

    /// Whether a node is the type or one of its subtypes.
    pub fn contains(&self, id: &NodeId) -> bool
        ensures { result ≡ list_any (same_id id.now) self.now }
    {
        self.ids.contains(id)
    }
}

// Meets each type that these references lead to, unless it was met before. At want of memory nothing is
// said of either.
fn meet<'a>(
    alloc: Global,
    ids: &mut BTreeSet<NodeId>,
    met: &mut Vec<&'a NodeId>,
    list: &TripleList<'a>,
) -> Result<(), AllocError>
    requires { IsSetOf (lent met.old.items) ids.old.keys }
    ensures met { OnOk result (lent met.new.items ≡ met_after (lent met.old.items) list.now) }
    ensures ids { OnOk result (IsSetOf (lent met.new.items) ids.new.keys) }
{
    for place in 0..list.len() {
        match list.get(place) {
            None => {}
            Some(triple) => {
                if !ids.contains(&triple.target) {
                    ids.insert(triple.target.copy(alloc)?)?;
                    met.push(&triple.target)?;
                }
            }
        }
    }
    Ok(())
}

/// A type and all its subtypes, by the index of the references that go out from a supertype.
///
/// The types met so far are those behind `met`; the references of those before `next` are followed.
pub(crate) fn walked_down<'a>(
    alloc: Global,
    triples: &'a [Triple],
    subtypes: &'a Index,
    upper: &'a NodeId,
) -> Result<Subtypes, AllocError>
    requires { IsIndex items (stands_under keys.Supertype) triples.now subtypes.now.entries }
    ensures { IfOk result (λ types. (id : NodeId) → list_any (same_id id) types ≡ is_subtype triples.now id upper.now) }
{
    let mut ids = BTreeSet::new(alloc);
    let mut met = Vec::new(alloc);
    ids.insert(upper.copy(alloc)?)?;
    met.push(upper)?;
    let mut next = 0;
    while next < met.len() {
        let below = TripleList::new(triples, places_at(subtypes, met[next]));
        meet(alloc, &mut ids, &mut met, &below)?;
        next += 1;
    }
    Ok(Subtypes { ids })
}

//! Numbers for the types that have subtypes, so that a walk can mark those that it has met.

ghost use Rattle.std.specs.Prelude.{◌≡◌, ◌⊎◌, ℕ, Some, IsSome, IfOk, OnOk};
ghost use Rattle.ua_types.specs.declared.node_id.NodeId.{NodeId};
ghost use Rattle.ua_space.specs.Numbers.{number_at, AreNumbers, AreNumbered};

use crate::index::is_subtyping;
use crate::triple::Triple;
use std::alloc::{AllocError, Global};
use std::collections::BTreeMap;
use ua_types::{Copyable, NodeId};

/// A number for each type that has subtypes.
///
/// In a space a type's number is above those of its supertypes, which makes a walk up quick. Nothing is
/// proved of that, and no answer rests on it.
#[derive(Drop)]
pub(crate) struct Numbering {
    /// The number of each type that has subtypes.
    pub numbers: BTreeMap<NodeId, usize>,
    /// The type that has each number.
    pub types: Vec<NodeId>,
}

// Gives an id the next number, unless it has one.
fn add(
    alloc: Global,
    numbers: &mut BTreeMap<NodeId, usize>,
    types: &mut Vec<NodeId>,
    id: &NodeId,
) -> Result<(), AllocError>
    requires { AreNumbers types.old.items numbers.old.entries }
    ensures numbers { OnOk result (AreNumbers types.new.items numbers.new.entries) }
    ensures here { OnOk result (IsSome (number_at numbers.new.entries id.now)) }
    ensures kept { OnOk result ((q : NodeId) (n : ℕ) → number_at numbers.old.entries q ≡ Some n → number_at numbers.new.entries q ≡ Some n) }
    ensures only { OnOk result ((q : NodeId) (n : ℕ) → number_at numbers.new.entries q ≡ Some n → (number_at numbers.old.entries q ≡ Some n) ⊎ (q ≡ id.now)) }
{
    if !numbers.contains_key(id) {
        numbers.insert(id.copy(alloc)?, types.len())?;
        types.push(id.copy(alloc)?)?;
    }
    Ok(())
}

impl Numbering {
    /// Numbers the sources of the references at these places, in this order, and then those of the
    /// other HasSubtype references.
    pub(crate) fn new(
        alloc: Global,
        triples: &[Triple],
        order: &[usize],
    ) -> Result<Numbering, AllocError>
        ensures { IfOk result (λ n. AreNumbered triples.now n.types.items n.numbers.entries) }
    {
        let mut numbers = BTreeMap::new(alloc);
        let mut types = Vec::new(alloc);
        for place in order {
            match triples.get(*place) {
                None => {}
                Some(triple) => add(alloc, &mut numbers, &mut types, &triple.source)?,
            }
        }
        for triple in triples {
            if is_subtyping(triple) {
                add(alloc, &mut numbers, &mut types, &triple.source)?;
            }
        }
        Ok(Numbering { numbers, types })
    }
}

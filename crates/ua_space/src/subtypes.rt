//! Chains of HasSubtype references, walked from a type up to its supertypes.
//!
//! Each supertype is marked by its number (`numbering`). The walk goes down through the numbers and follows
//! the references to each marked type. Where that marks a higher number, which the order of the numbers
//! rules out in a space, it goes back there. So the time is linear, however many ways lead to a supertype, and no hierarchy is
//! too deep: a function that called itself would take 96 bytes of the stack for each type, and twice the time wherever ways meet.

ghost use Rattle.std.specs.Prelude.{◌≡◌, ◌≤◌, ◌<◌, ◌*◌, ℕ, Some, false, filter, length, slice_index_or};
ghost use Rattle.std.specs.List.{All};
ghost use Rattle.ua_types.specs.declared.node_id.NodeId.{NodeId};
ghost use Rattle.ua_space.specs.Indexes.{IsIndex, items, stands_under};
ghost use Rattle.ua_space.specs.declared.index.Key.TheVariants as keys;
ghost use Rattle.ua_space.specs.Marks.{is_marked, marked};
ghost use Rattle.ua_space.specs.Numbers.{number_at, AreNumbered};
ghost use Rattle.ua_space.specs.Spaces.{most_nodes};
ghost use Rattle.ua_space.specs.Subtypes.{is_subtype};

use crate::build::MAX_NODES;
use crate::index::{Index, places_at};
use crate::marks::Marks;
use crate::numbering::Numbering;
use crate::references::TripleList;
use crate::triple::Triple;
use std::collections::BTreeMap;
use ua_types::NodeId;

// The HasSubtype references that lead to a type.
fn above<'a>(triples: &'a [Triple], supertypes: &'a Index, lower: &NodeId) -> TripleList<'a>
    requires { IsIndex items (stands_under keys.Subtype) triples.now supertypes.now.entries }
    ensures { result ≡ filter (stands_under keys.Subtype lower.now) triples.entry.now }
{
    TripleList::new(triples, places_at(supertypes, lower))
}

// Marks the sources of these references. The number that is given back is `next`, or one more than the
// highest number that wasn't marked before.
fn mark<const WORDS: usize>(
    numbers: &BTreeMap<NodeId, usize>,
    list: &TripleList<'_>,
    marks: &mut Marks<WORDS>,
    next: usize,
) -> usize
    requires numbered { (id : NodeId) (n : ℕ) → number_at numbers.now.entries id ≡ Some n → n < length marks.old }
    requires fits { length marks.old ≤ most_nodes }
    ensures { (marks.new, result) ≡ marked (number_at numbers.now.entries) (marks.old, next) list.now }
{
    let mut next = next;
    for place in 0..list.len() {
        match list.get(place) {
            None => {}
            Some(triple) => match numbers.get(&triple.source) {
                None => {}
                Some(number) => {
                    if !marks.has(*number) {
                        marks.add(*number);
                        next = next.max(*number + 1);
                    }
                }
            },
        }
    }
    next
}

// Marks supertypes until the upper type is marked, or there are no more. The references to the marked
// types from `next` on are followed.
fn walk_up<const WORDS: usize>(
    triples: &[Triple],
    supertypes: &Index,
    numbering: &Numbering,
    marks: &mut Marks<WORDS>,
    lower: &NodeId,
    upper: usize,
) -> bool
    requires index { IsIndex items (stands_under keys.Subtype) triples.now supertypes.now.entries }
    requires numbered { AreNumbered triples.now numbering.now.types.items numbering.now.numbers.entries }
    requires enough { length numbering.now.types.items ≤ length marks.old }
    requires fits { length marks.old ≤ most_nodes }
    requires unmarked { (n : ℕ) → is_marked marks.old n ≡ false }
    requires upper { upper < length numbering.now.types.items }
    ensures { (id : NodeId) → number_at numbering.now.numbers.entries id ≡ Some upper → (lower.now ≡ id → ⊥) → result ≡ is_subtype triples.now lower.now id }
{
    let mut next = mark(
        &numbering.numbers,
        &above(triples, supertypes, lower),
        marks,
        0,
    );
    while next > 0 && !marks.has(upper) {
        next -= 1;
        if marks.has(next) {
            let list = above(triples, supertypes, &numbering.types[next]);
            next = mark(&numbering.numbers, &list, marks, next);
        }
    }
    marks.has(upper)
}

// How many words have a bit for each type of a space of some thousands.
const FEW: usize = 64;

// And of the largest space.
const MANY: usize = MAX_NODES / 64;

// Whether a walk up from a type reaches another, by this many words of marks. They lie on the stack and are made here, so
// that who needs none, or few, doesn't pay for more.
#[inline(never)]
fn reaches_by<const WORDS: usize>(
    triples: &[Triple],
    supertypes: &Index,
    numbering: &Numbering,
    lower: &NodeId,
    upper: usize,
) -> bool
    requires index { IsIndex items (stands_under keys.Subtype) triples.now supertypes.now.entries }
    requires numbered { AreNumbered triples.now numbering.now.types.items numbering.now.numbers.entries }
    requires enough { length numbering.now.types.items ≤ WORDS * 64 }
    requires fits { WORDS * 64 ≤ most_nodes }
    requires upper { upper < length numbering.now.types.items }
    ensures { (id : NodeId) → number_at numbering.now.numbers.entries id ≡ Some upper → (lower.now ≡ id → ⊥) → result ≡ is_subtype triples.now lower.now id }
{
    let mut marks = Marks::<WORDS>::none();
    walk_up(triples, supertypes, numbering, &mut marks, lower, upper)
}

/// Whether the one type is the other or one of its subtypes.
pub(crate) fn is_subtype(
    triples: &[Triple],
    supertypes: &Index,
    numbering: &Numbering,
    lower: &NodeId,
    upper: &NodeId,
) -> bool
    requires index { IsIndex items (stands_under keys.Subtype) triples.now supertypes.now.entries }
    requires numbered { AreNumbered triples.now numbering.now.types.items numbering.now.numbers.entries }
    requires few { length numbering.now.types.items ≤ most_nodes }
    ensures { result ≡ is_subtype triples.now lower.now upper.now }
{
    if lower == upper {
        return true;
    }
    match numbering.numbers.get(upper) {
        None => false,
        Some(number) => {
            if numbering.types.len() <= 64 * FEW {
                reaches_by::<FEW>(triples, supertypes, numbering, lower, *number)
            } else {
                reaches_by::<MANY>(triples, supertypes, numbering, lower, *number)
            }
        }
    }
}

//! The first reference on a loop of HasSubtype references.

ghost use Rattle.std.specs.Prelude.{◌≡◌, ◌≤◌, true, IsTrue, length};
ghost use Rattle.std.specs.List.{list_all, find};
ghost use Rattle.std.specs.Option.{option_copied};
ghost use Rattle.ua_space.specs.Build.{no_loop};
ghost use Rattle.ua_space.specs.Indexes.{IsIndex, items, stands_under};
ghost use Rattle.ua_space.specs.declared.index.Key.TheVariants as keys;
ghost use Rattle.ua_space.specs.Numbers.{AreNumbered};
ghost use Rattle.ua_space.specs.Spaces.{most_nodes};
ghost use Rattle.ua_space.specs.Ranks.{rank_at, keeps_rank, raises_rank};
ghost use Rattle.ua_space.specs.Subtypes.{is_subtype, leads_to, lies_on_loop};

use crate::fault::SpaceFault;
use crate::hints::Hints;
use crate::index::{Index, is_subtyping};
use crate::numbering::Numbering;
use crate::subtypes::is_subtype;
use crate::triple::Triple;
use ua_types::NodeId;

// It is no HasSubtype reference, or leads to a number that isn't lower.
fn keeps_rank(hints: &Hints, triple: &Triple) -> bool
    ensures { result ≡ keeps_rank (rank_at hints.now.numbers.entries hints.now.ranks.items) triple.now }
{
    !is_subtyping(triple) || !(hints.rank(&triple.target) < hints.rank(&triple.source))
}

// Whether no reference leads to a lower number: then one that leads to a higher lies on no loop.
fn is_sound(hints: &Hints, triples: &[Triple]) -> bool
    ensures { result ≡ list_all (keeps_rank (rank_at hints.now.numbers.entries hints.now.ranks.items)) triples.now }
{
    triples.iter().all(|triple| keeps_rank(hints, triple))
}

fn raises_rank(hints: &Hints, triple: &Triple) -> bool
    ensures { result ≡ raises_rank (rank_at hints.now.numbers.entries hints.now.ranks.items) triple.now }
{
    hints.rank(&triple.source) < hints.rank(&triple.target)
}

fn leads_to(lower: &NodeId, triple: &Triple) -> bool
    ensures { result ≡ leads_to lower.now triple.now }
{
    is_subtyping(triple) && triple.target == *lower
}

// The references at these places lead from the one type up to the other.
fn follows(triples: &[Triple], path: &[usize], lower: &NodeId, upper: &NodeId) -> bool
    ensures { IsTrue result → is_subtype triples.now lower.now upper.now ≡ true }
{
    let mut reached = lower;
    for place in path {
        match triples.get(*place) {
            None => return false,
            Some(triple) => {
                if !leads_to(reached, triple) {
                    return false;
                }
                reached = &triple.source;
            }
        }
    }
    reached == upper
}

// The path is a quick way to see a loop; where it is none, the supertypes are walked.
fn lies_on_loop(
    triples: &[Triple],
    supertypes: &Index,
    numbering: &Numbering,
    path: &[usize],
    triple: &Triple,
) -> bool
    requires index { IsIndex items (stands_under keys.Subtype) triples.now supertypes.now.entries }
    requires numbered { AreNumbered triples.now numbering.now.types.items numbering.now.numbers.entries }
    requires few { length numbering.now.types.items ≤ most_nodes }
    ensures { result ≡ lies_on_loop triples.now triple.now }
{
    is_subtyping(triple)
        && (follows(triples, path, &triple.source, &triple.target)
            || is_subtype(
                triples,
                supertypes,
                numbering,
                &triple.source,
                &triple.target,
            ))
}

// Whether a reference lies on a loop, without a search where the numbers show that it doesn't.
fn is_looped(
    triples: &[Triple],
    supertypes: &Index,
    numbering: &Numbering,
    hints: &Hints,
    sound: bool,
    triple: &Triple,
) -> bool
    requires index { IsIndex items (stands_under keys.Subtype) triples.now supertypes.now.entries }
    requires numbered { AreNumbered triples.now numbering.now.types.items numbering.now.numbers.entries }
    requires few { length numbering.now.types.items ≤ most_nodes }
    requires sound { sound ≡ list_all (keeps_rank (rank_at hints.now.numbers.entries hints.now.ranks.items)) triples.now }
    ensures { result ≡ lies_on_loop triples.now triple.now }
{
    if sound && raises_rank(hints, triple) {
        return false;
    }
    lies_on_loop(triples, supertypes, numbering, hints.path(), triple)
}

/// The first reference that lies on a loop. The hints make it quick, and can't make it wrong.
pub(crate) fn first_on_loop<'a>(
    triples: &'a [Triple],
    supertypes: &Index,
    numbering: &Numbering,
    hints: &Hints,
) -> Option<&'a Triple>
    requires index { IsIndex items (stands_under keys.Subtype) triples.now supertypes.now.entries }
    requires numbered { AreNumbered triples.now numbering.now.types.items numbering.now.numbers.entries }
    requires few { length numbering.now.types.items ≤ most_nodes }
    ensures { option_copied result ≡ find (lies_on_loop triples.entry.now) triples.entry.now }
{
    let sound = is_sound(hints, triples);
    for triple in triples {
        if is_looped(triples, supertypes, numbering, hints, sound, triple) {
            return Some(triple);
        }
    }
    None
}

/// No reference lies on a loop.
pub(crate) fn no_loop(
    triples: &[Triple],
    supertypes: &Index,
    numbering: &Numbering,
    hints: &Hints,
) -> Result<(), SpaceFault>
    requires index { IsIndex items (stands_under keys.Subtype) triples.now supertypes.now.entries }
    requires numbered { AreNumbered triples.now numbering.now.types.items numbering.now.numbers.entries }
    requires few { length numbering.now.types.items ≤ most_nodes }
    ensures { result ≡ no_loop (find (lies_on_loop triples.now) triples.now) }
{
    match first_on_loop(triples, supertypes, numbering, hints) {
        None => Ok(()),
        Some(triple) => Err(SpaceFault::SubtypeLoop(triple.part)),
    }
}

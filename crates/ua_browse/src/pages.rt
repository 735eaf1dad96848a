//! Pages of references.

ghost use Rattle.std.specs.Prelude.{◌≡◌, ◌<◌, ◌^◌, length, IfOk};
ghost use Rattle.ua_space.specs.References.{references_of};
ghost use Rattle.ua_browse.specs.Wanted.{wanted_from};
ghost use Rattle.ua_browse.specs.Browsing.{descriptions_of, shown_of, next_of};

use crate::asked::Asked;
use crate::describing::Described;
use crate::wanted::{Verdicts, is_wanted};
use std::alloc::{AllocError, Global};
use ua_space::{References, Space};

/// The references of a page, and the place at which the next one begins, if any are left.
#[derive(Drop)]
pub struct Cut<'a> {
    pub references: Vec<Described<'a>>,
    pub next: Option<usize>,
}

// All references of the node.
fn references<'a>(space: &'a Space, asked: &Asked<'_>) -> References<'a>
    ensures { result ≡ references_of asked.now.node_id space.now.triples }
{
    space.references(asked.node_id)
}

/// The first of a node's references that are wanted, from a place on. It looks at those up to the first that
/// the next page has.
pub(crate) fn page_from<'a>(
    alloc: Global,
    space: &'a Space,
    asked: &Asked<'_>,
    size: u32,
    start: usize,
) -> Result<Cut<'a>, AllocError>
    ensures references { IfOk result (λ cut. cut.references.items ≡ descriptions_of space.now asked.now (shown_of size (wanted_from space.now asked.now start))) }
    ensures few { IfOk result (λ cut. length cut.references.items < 2 ^ 31) }
    ensures next { IfOk result (λ cut. cut.next ≡ next_of size (wanted_from space.now asked.now start)) }
{
    space.soundness();
    let all = references(space, asked);
    let mut references = Vec::new(alloc);
    let mut verdicts = Verdicts::new(alloc);
    for place in start..all.len() {
        if let Some(reference) = all.get(place) {
            if is_wanted(alloc, space, asked, &mut verdicts, &reference)? {
                if references.len() >= size as usize {
                    return Ok(Cut {
                        references,
                        next: Some(place),
                    });
                }
                references.push(Described::new(space, asked, reference))?;
            }
        }
    }
    Ok(Cut {
        references,
        next: None,
    })
}

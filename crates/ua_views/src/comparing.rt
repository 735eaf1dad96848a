//! Ids beside ids that are looked at in place, in the order of ids.

ghost use Rattle.std.specs.Prelude.{◌≡◌};
ghost use Rattle.std.specs.Option.{option_cmp};
ghost use Rattle.std.specs.Ordering.{nat_cmp};
ghost use Rattle.std.specs.Cmp.Lexicographic.{slice_cmp};
ghost use Rattle.ua_types.specs.NodeIdOrder.{id_cmp};
ghost use Rattle.ua_types.specs.contracts.node_id.IdentifierOrd.TheImpl as identifiers;
ghost use Rattle.ua_views.specs.Identifiers.{identifier_of};

use crate::node_ids::{IdentifierView, NodeIdView};
use crate::texts::{ByteStringView, TextView};
use std::cmp::Ordering;
use ua_types::{ByteString, Identifier, NodeId, Text};

fn compare_texts(text: &Text, view: &TextView<'_>) -> Ordering
    ensures { result ≡ option_cmp (slice_cmp nat_cmp) text.now view.now }
{
    match (text.as_str(), view.as_str()) {
        (None, None) => Ordering::Equal,
        (None, Some(_)) => Ordering::Less,
        (Some(_), None) => Ordering::Greater,
        (Some(a), Some(b)) => a.cmp(b),
    }
}

fn compare_bytes(bytes: &ByteString, view: &ByteStringView<'_>) -> Ordering
    ensures { result ≡ option_cmp (slice_cmp nat_cmp) bytes.now view.now }
{
    match (bytes.as_slice(), view.as_slice()) {
        (None, None) => Ordering::Equal,
        (None, Some(_)) => Ordering::Less,
        (Some(_), None) => Ordering::Greater,
        (Some(a), Some(b)) => a.cmp(b),
    }
}

// It isn't inlined, so that what compares numbers is short.
#[inline(never)]
fn compare_identifiers(identifier: &Identifier, view: &IdentifierView<'_>) -> Ordering
    ensures { result ≡ identifiers.ghosts.cmp identifier.now (identifier_of view.now) }
{
    match identifier {
        Identifier::Numeric(a) => match view {
            IdentifierView::Numeric(b) => a.cmp(&b.get()),
            _ => Ordering::Less,
        },
        Identifier::String(a) => match view {
            IdentifierView::Numeric(_) => Ordering::Greater,
            IdentifierView::String(b) => compare_texts(a, b),
            _ => Ordering::Less,
        },
        Identifier::Guid(a) => match view {
            IdentifierView::Numeric(_) | IdentifierView::String(_) => Ordering::Greater,
            IdentifierView::Guid(b) => a.cmp(&b.get()),
            IdentifierView::Opaque(_) => Ordering::Less,
        },
        Identifier::Opaque(a) => match view {
            IdentifierView::Opaque(b) => compare_bytes(a, b),
            _ => Ordering::Greater,
        },
    }
}

/// How an id stands to one that is looked at in place, in the order of ids. Takes no memory.
// Most ids are numbers, and those are compared inline.
#[inline(always)]
pub fn compare(id: &NodeId, view: &NodeIdView<'_>) -> Ordering
    ensures { result ≡ id_cmp id.now view.now }
{
    if id.namespace < view.namespace {
        return Ordering::Less;
    }
    if id.namespace > view.namespace {
        return Ordering::Greater;
    }
    match (&id.identifier, &view.identifier) {
        (Identifier::Numeric(a), IdentifierView::Numeric(b)) => a.cmp(&b.get()),
        _ => compare_identifiers(&id.identifier, &view.identifier),
    }
}

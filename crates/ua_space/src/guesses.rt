//! Where nodes are likely to stand.

use crate::node::Node;
use std::alloc::{AllocError, Global};
use ua_types::{Guid, NodeId};
use ua_views::{IdentifierView, NodeIdView};

/// A guess, for any id, at the place of its node in the order of ids.
///
/// The place of each node is noted under a number that is made of its id. Where several have the same number the last one is noted,
/// and who asks for another has to search; ids that are numbers side by side have numbers of their own. Nothing is proved of a
/// guess: whoever uses it looks which node stands there.
#[derive(Drop)]
pub(crate) struct Guesses {
    // Places in the order of ids, for at least twice as many numbers as there are nodes. How many they are is a power of two.
    places: Vec<u32>,
}

// The odd number next to 2^64 divided by the golden ratio, whose multiples lie far apart.
const SPREAD: u64 = 0x9e37_79b9_7f4a_7c15;

// FNV-1a of 64 bits: what it begins with, and what it multiplies by.
const BASIS: u64 = 0xcbf2_9ce4_8422_2325;

const PRIME: u64 = 0x0100_0000_01b3;

// A number for these bytes (FNV-1a).
fn hash(bytes: &[u8]) -> u64 {
    let mut number = BASIS;
    for byte in bytes {
        number = (number ^ *byte as u64).wrapping_mul(PRIME);
    }
    number ^ number >> 32
}

fn hash_guid(guid: &Guid) -> u64 {
    u64::from_be_bytes(guid.data4).wrapping_add(guid.data1 as u64)
}

// A number for an identifier that is none.
#[inline(never)]
fn hash_long(identifier: &IdentifierView<'_>) -> u64 {
    match identifier {
        IdentifierView::Numeric(number) => number.get() as u64,
        IdentifierView::String(text) => match text.as_str() {
            None => 0,
            Some(characters) => hash(characters.as_bytes()),
        },
        IdentifierView::Guid(guid) => hash_guid(&guid.get()),
        IdentifierView::Opaque(bytes) => match bytes.as_slice() {
            None => 0,
            Some(bytes) => hash(bytes),
        },
    }
}

// The number of an id, among so many, which are a power of two. Most ids are numbers, and those are looked at inline.
#[inline(always)]
fn number_of(id: &NodeIdView<'_>, count: usize) -> usize {
    let identifier = match &id.identifier {
        IdentifierView::Numeric(number) => number.get() as u64,
        identifier => hash_long(identifier),
    };
    let number = identifier.wrapping_add((id.namespace as u64).wrapping_mul(SPREAD));
    number as usize & count.wrapping_sub(1)
}

impl Guesses {
    /// Those for nodes in the order of ids.
    pub(crate) fn new(alloc: Global, entries: &[(NodeId, Node)]) -> Result<Guesses, AllocError> {
        let Some(count) = entries.len().saturating_mul(2).checked_next_power_of_two() else {
            return Err(AllocError);
        };
        let mut places = vec![in alloc; 0u32; count]?;
        for (place, entry) in entries.iter().enumerate() {
            let Ok(place) = u32::try_from(place) else {
                break;
            };
            let number = number_of(&NodeIdView::of(&entry.0), count);
            if let Some(noted) = places.get_mut(number) {
                *noted = place;
            }
        }
        Ok(Guesses { places })
    }

    /// The place at which the node with this id stands, if any does and no other node has its number.
    #[inline(always)]
    pub(crate) fn place(&self, id: &NodeIdView<'_>) -> usize {
        match self.places.get(number_of(id, self.places.len())) {
            None => 0,
            Some(place) => *place as usize,
        }
    }
}

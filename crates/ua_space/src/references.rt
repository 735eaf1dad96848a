//! Lists of references that lie in a space.

use crate::triple::Triple;
use std::marker::Model;
use ua_types::NodeId;

// Some of a space's references, in declared order. No call on them takes memory.
#[derive(Debug, Drop)]
pub(crate) struct TripleList<'a> {
    // All references of the space.
    triples: &'a [Triple],
    // Where among them those of the list stand, by rising place.
    places: &'a [u32],
}

impl<'a> Model for TripleList<'a> {
    ghost use Rattle.std.specs.Prelude.{◌<◌, List, length};
    ghost use Rattle.std.specs.List.{All};
    ghost use Rattle.ua_space.specs.declared.triple.Triple.{Triple};
    ghost use Rattle.ua_space.specs.Indexes.{pick};

    ghost Value = { List Triple };

    ghost view = { λ l. pick l.triples.now l.places.now };

    ghost invariant = { λ l. All (λ i. i < length l.triples.now) l.places.now };
}

impl<'a> TripleList<'a> {
    ghost use Rattle.std.specs.Prelude.{◌≡◌, ◌<◌, length, slice_get};
    ghost use Rattle.std.specs.List.{All};
    ghost use Rattle.std.specs.Option.{option_copied};
    ghost use Rattle.ua_space.specs.Indexes.{pick};

    // The references at these places.
    pub(crate) fn new(triples: &'a [Triple], places: &'a [u32]) -> TripleList<'a>
        requires { All (λ i. i < length triples.now) places.now }
        ensures { result ≡ pick triples.now places.now }
    {
        TripleList { triples, places }
    }

    // How many they are.
    #[tactic(auto, using(crate::proofs::Indexing::length_pick))]
    pub fn len(&self) -> usize
        ensures { result ≡ length self.now }
    {
        self.places.len()
    }

    // The one at this place, counted from 0.
    pub fn get(&self, place: usize) -> Option<&'a Triple>
        ensures { option_copied result ≡ slice_get self.now place }
    {
        match self.places.get(place) {
            None => None,
            Some(i) => Some(&self.triples[*i as usize]),
        }
    }
}

/// Which way a reference leads, seen from one of its ends.
#[derive(Clone, Copy, Debug, PartialEq, Eq)]
pub enum Direction {
    /// It goes out from there.
    Forward,
    /// It leads there.
    Inverse,
}

/// A reference, seen from one of its ends.
#[derive(Debug, Drop)]
pub struct Reference<'a> {
    pub direction: Direction,
    pub triple: &'a Triple,
}

impl<'a> Model for Reference<'a> {
    ghost use Rattle.ua_space.specs.References.{Directed};

    ghost Value = { Directed };

    ghost view = { λ r. record { direction = r.direction; triple = r.triple.now } };
}

impl<'a> Reference<'a> {
    ghost use Rattle.std.specs.Prelude.{◌≡◌};
    ghost use Rattle.ua_space.specs.References.{end_of};

    /// The id of the node at its other end.
    pub fn end(&self) -> &'a NodeId
        ensures { result.now ≡ end_of self.now.direction self.now.triple }
    {
        match self.direction {
            Direction::Forward => &self.triple.target,
            Direction::Inverse => &self.triple.source,
        }
    }
}

/// A node's references: those that go out from it, and then those that lead to it, each in declared
/// order.
///
/// A caller that stops after some of them goes on by the number of those that it has had: [`References::get`]
/// takes the same time at each place. No call on them takes memory.
#[derive(Debug, Drop)]
pub struct References<'a> {
    // Those whose source the node is. They come first.
    outgoing: TripleList<'a>,
    // Those whose target the node is.
    incoming: TripleList<'a>,
}

impl<'a> Model for References<'a> {
    ghost use Rattle.std.specs.Prelude.{◌<◌, ◌^◌, ◌++◌, List, length, map};
    ghost use Rattle.ua_space.specs.References.{Directed, outwards, inwards};

    ghost Value = { List Directed };

    ghost view = { λ r. map outwards r.outgoing ++ map inwards r.incoming };

    ghost invariant = { λ r. (length r.outgoing < 2 ^ 32) × (length r.incoming < 2 ^ 32) };
}

impl<'a> References<'a> {
    ghost use Rattle.std.specs.Prelude.{◌≡◌, ◌<◌, ◌^◌, ◌++◌, length, map, slice_get};
    ghost use Rattle.ua_space.specs.References.{outwards, inwards};

    // References of a node: the outgoing ones, and then the incoming ones.
    pub(crate) fn new(outgoing: TripleList<'a>, incoming: TripleList<'a>) -> References<'a>
        requires outgoing { length outgoing < 2 ^ 32 }
        requires incoming { length incoming < 2 ^ 32 }
        ensures { result ≡ map outwards outgoing.entry ++ map inwards incoming.entry }
    {
        References { outgoing, incoming }
    }

    /// How many they are.
    #[tactic(auto, using(crate::proofs::Referring::length_both))]
    pub fn len(&self) -> usize
        ensures { result ≡ length self.now }
    {
        self.outgoing.len() + self.incoming.len()
    }

    /// The one at this place, counted from 0.
    pub fn get(&self, place: usize) -> Option<Reference<'a>>
        ensures { result ≡ slice_get self.now place }
    {
        let outgoing = self.outgoing.len();
        if place < outgoing {
            match self.outgoing.get(place) {
                None => None,
                Some(triple) => Some(Reference {
                    direction: Direction::Forward,
                    triple,
                }),
            }
        } else {
            match self.incoming.get(place - outgoing) {
                None => None,
                Some(triple) => Some(Reference {
                    direction: Direction::Inverse,
                    triple,
                }),
            }
        }
    }
}

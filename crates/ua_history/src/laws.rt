//! What follows from the definitions of keeping and of reading. The laws have no code: their contracts state them.

ghost use Rattle.ua_history.specs.HistoryLaws.{KeepsWithinBounds, KeepsOneMore, GoesPastTheLast, NextIsWhatFollows, PagesJoinToAll, BeginsWithTheLast, BeginsApart};

/// No more values of a node are kept than may be.
#[tactic(auto, using(crate::proofs::Keeping::keeps_within_bounds))]
pub fn keeps_within_bounds()
    ensures { KeepsWithinBounds }
{}

/// Beside a value that is kept, and the one whose time [`History::keep`](crate::History::keep) answers, nothing of a history changes.
#[tactic(auto, using(crate::proofs::Dropping::keeps_one_more))]
pub fn keeps_one_more()
    ensures { KeepsOneMore }
{}

/// The times of a page lie past the last one that was given before it.
#[tactic(auto, using(crate::proofs::PagingLemmas::goes_past_the_last))]
pub fn goes_past_the_last()
    ensures { GoesPastTheLast }
{}

/// In an unchanged history the next page begins with what follows this one.
#[tactic(auto, using(crate::proofs::PagingLemmas::next_is_what_follows))]
pub fn next_is_what_follows()
    ensures { NextIsWhatFollows }
{}

/// All pages of an unchanged history joined are its values in the interval: none is repeated, and none is skipped.
#[tactic(auto, using(crate::proofs::PagingLemmas::pages_join_to_all))]
pub fn pages_join_to_all()
    ensures { PagesJoinToAll }
{}

/// A history that begins with values whose times rise has the last of them, as many as may be kept, and no other node's has any.
#[tactic(auto, using(crate::proofs::Beginning::begins_with_the_last, crate::proofs::Beginning::begins_apart))]
pub fn begins_with_the_last()
    ensures last { BeginsWithTheLast }
    ensures apart { BeginsApart }
{}

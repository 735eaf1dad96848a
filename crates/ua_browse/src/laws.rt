//! What follows from the definition of browsing. The laws have no code: their contracts state them.

ghost use Rattle.ua_browse.specs.BrowsingLaws.{BrowsesByFilter, NextIsTheSliceAfter, PagesJoinToAll};

/// The references that are wanted are those of the node, filtered and in their order.
#[tactic(auto, using(crate::proofs::Paging::browses_by_filter))]
pub fn browses_by_filter()
    ensures { BrowsesByFilter }
{}

/// The next page begins with the slice after this one.
#[tactic(auto, using(crate::proofs::Paging::next_is_the_slice_after))]
pub fn next_is_the_slice_after()
    ensures { NextIsTheSliceAfter }
{}

/// All pages joined are the whole list: no reference is repeated, and none is skipped.
#[tactic(auto, using(crate::proofs::Paging::pages_join_to_all))]
pub fn pages_join_to_all()
    ensures { PagesJoinToAll }
{}

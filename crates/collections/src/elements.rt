//! The elements of a list, one after the other.

ghost use Rattle.std.specs.Iterator.{YieldsFirst, item_count};

use std::marker::Model;
use std::vec;

/// The elements of a [`ShortList`](crate::ShortList) that are still to come, from the first on. Contracts see the list of
/// them.
#[derive(Drop)]
pub struct Elements<T> {
    // The element, where there is one alone.
    pub(crate) only: Option<T>,
    // What is left of several.
    pub(crate) several: vec::IntoIter<T>,
}

impl<T> Model for Elements<T> {
    ghost use Rattle.std.specs.Prelude.{List, ◌++◌};
    ghost use Rattle.std.specs.Option.{option_to_list};
    ghost use Rattle.std.specs.Vec.Iter.{into_iter_items};

    ghost Value = { List T };

    ghost view = { λ e. option_to_list e.only ++ into_iter_items e.several };
}

impl<T: Drop> Iterator for Elements<T> {
    type Item = T;

    ghost next_gives = { YieldsFirst (λ left. left) };

    ghost remaining = { item_count (λ left. left) };

    fn next(&mut self) -> Option<T> {
        if let Some(item) = self.only.take() {
            return Some(item);
        }
        self.several.next()
    }
}

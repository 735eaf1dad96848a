//! A list that mostly has one element or none.

ghost use Rattle.std.specs.Prelude.{◌≡◌, ◌<◌, [], ◌∷◌, ◌++◌, None, IfSome, OnOk, OnErr, IsOk};
ghost use Rattle.std.specs.Option.{option_to_list, option_map_or};

use crate::elements::Elements;
use std::alloc::{AllocError, Global};
use std::marker::Model;

/// A list that grows at its end, and takes memory for its second element and those behind it: one that is alone stands in
/// the list itself. Contracts see the list of its elements, and nothing of its room.
#[derive(Debug, Drop)]
pub struct ShortList<T> {
    // The element, where there is one alone.
    only: Option<[T; 1]>,
    // The elements in the order in which they were added, where there are several.
    several: Vec<T>,
}

impl<T> Model for ShortList<T> {
    ghost use Rattle.std.specs.Prelude.{◌≡◌, List, [], ◌++◌, IfSome};
    ghost use Rattle.std.specs.Option.{option_map_or};

    ghost Value = { List T };

    ghost view = { λ l. option_map_or (λ items. items) l.only [] ++ l.several.items };

    ghost invariant = { λ l. IfSome l.only (λ _. l.several.items ≡ []) };
}

impl<T> ShortList<T> {
    /// A list of nothing. Takes no memory.
    pub fn new(alloc: Global) -> ShortList<T>
        ensures { result ≡ [] }
    {
        ShortList {
            only: None,
            several: Vec::new(alloc),
        }
    }

    /// The elements.
    pub fn as_slice(&self) -> &[T]
        ensures { result.now ≡ self.now }
    {
        match &self.only {
            Some(item) => item.as_slice(),
            None => self.several.as_slice(),
        }
    }
}

// The element that is alone.
fn alone<T>(only: Option<[T; 1]>) -> Option<T>
    ensures { option_to_list result ≡ option_map_or (λ items. items) only [] }
{
    match only {
        Some([item]) => Some(item),
        None => None,
    }
}

// Makes room for more elements where several stand. One that is alone moves there.
fn gather<T: Drop>(
    only: &mut Option<[T; 1]>,
    several: &mut Vec<T>,
    more: usize,
) -> Result<(), AllocError>
    requires alone { IfSome only.old (λ _. several.old.items ≡ []) }
    requires some { 0 < more }
    ensures gathered { OnOk result (several.new.items ≡ option_map_or (λ items. items) only.old [] ++ several.old.items) }
    ensures none { OnOk result (only.new ≡ None) }
    ensures same { OnErr result (several.new.items ≡ several.old.items) }
    ensures err { OnErr result (only.new ≡ only.old) }
{
    several.reserve(more)?;
    if let Some([first]) = only.take() {
        several.push_reserved(first);
    }
    Ok(())
}

impl<T: Drop> ShortList<T> {
    /// One more element. Takes no memory in a list of nothing. At an `Err` the list is as it was.
    pub fn push(&mut self, item: T) -> Result<(), AllocError>
        ensures ok { OnOk result (self.new ≡ self.old ++ item ∷ []) }
        ensures err { OnErr result (self.new ≡ self.old) }
        ensures first { self.old ≡ [] → IsOk result }
    {
        if self.as_slice().is_empty() {
            self.only = Some([item]);
            return Ok(());
        }
        gather(&mut self.only, &mut self.several, 2)?;
        self.several.push(item)?;
        Ok(())
    }

    /// The elements of another list at the end. Takes no memory where one of both has none. At an `Err` the list is as it
    /// was.
    pub fn append(&mut self, other: ShortList<T>) -> Result<(), AllocError>
        ensures ok { OnOk result (self.new ≡ self.old ++ other) }
        ensures err { OnErr result (self.new ≡ self.old) }
        ensures onto_nothing { self.old ≡ [] → IsOk result }
        ensures of_nothing { other ≡ [] → IsOk result }
    {
        if self.as_slice().is_empty() {
            *self = other;
            return Ok(());
        }
        let ShortList { only, mut several } = other;
        if let Some(item) = alone(only) {
            return self.push(item);
        }
        if several.is_empty() {
            return Ok(());
        }
        gather(&mut self.only, &mut self.several, several.len())?;
        self.several.append(&mut several)
    }
}

impl<T: Drop> IntoIterator for ShortList<T> {
    type Item = T;

    type IntoIter = Elements<T>;

    ghost into_iter_gives = { λ list elements. elements ≡ list };

    fn into_iter(self) -> Elements<T> {
        let ShortList { only, several } = self;
        Elements {
            only: alone(only),
            several: several.into_iter(),
        }
    }
}

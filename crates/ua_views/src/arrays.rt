//! Lists, for every type of elements.

ghost use Rattle.std.specs.Iterator.{YieldsFirst, item_count};
ghost use Rattle.std.specs.Prelude.{◌≡◌, ◌≢◌, ◌<◌, ◌^◌, Err, option_map, length, drop, is_none};
ghost use Rattle.ua_binary.specs.declared.fault.TakeFault.TheVariants.{Memory};
ghost use Rattle.ua_binary.specs.Arrays.{array_reading, elements_reading};
ghost use Rattle.ua_views.specs.Views.{first_in, or_none};
ghost use Rattle.ua_views.specs.Passing.{Skips};

use crate::view::{Readable, View};
use std::marker::{Model, PhantomData};
use ua_binary::{Cursor, TakeFault};

/// A list in the bytes that it stands in, or null (arrays, IEC 62541-6, 5.2.5).
///
/// Its elements are looked at one by one, and contracts see those that are left. All of them were passed once as the
/// list was looked at, so none can be faulty.
#[derive(Debug, Drop)]
pub struct ArrayView<'a, T: Readable> {
    // How many elements are left, or None where the list is null. It falls by one with each.
    left: Option<u32>,
    // The place of the next one.
    at: Cursor<'a>,
    element: PhantomData<T>,
}

impl<'a, T: Readable> Model for ArrayView<'a, T> {
    ghost use Rattle.std.specs.Prelude.{Option, List};
    ghost use Rattle.ua_views.specs.Views.{elements_at, AreThere};

    ghost Value = { Option (List T) };

    ghost view = { λ a. elements_at T.reading a.left a.at };

    ghost invariant = { λ a. AreThere T.reading a.left a.at };
}

// Moves past so many elements.
fn pass_all<'a, T: View<'a>>(count: u32, cursor: &mut Cursor<'a>) -> Result<(), TakeFault>
    ensures skips { Skips result cursor.new (elements_reading T.reading count cursor.old) }
    ensures no_memory { result ≢ Err Memory }
{
    for _ in 0..count {
        T::pass(cursor)?;
    }
    Ok(())
}

impl<'a, T: View<'a>> ArrayView<'a, T> {
    /// How many elements are left: none of a null list.
    pub fn len(&self) -> usize
        ensures len { result ≡ length (or_none self.now) }
        ensures small { result < 2 ^ 31 }
    {
        match self.left {
            None => 0,
            Some(left) => left as usize,
        }
    }

    /// Whether it is null.
    pub fn is_null(&self) -> bool
        ensures { result ≡ is_none self.now }
    {
        self.left.is_none()
    }
}

// The elements that are left, one after the other. A null list has none.
impl<'a, T: View<'a>> Iterator for ArrayView<'a, T> {
    type Item = T;

    ghost next_gives = { YieldsFirst or_none };

    ghost remaining = { item_count or_none };

    // It is inlined, and in one piece, so that an element isn't moved once more on its way to the loop over the list.
    #[inline(always)]
    fn next(&mut self) -> Option<T> {
        let Some(left) = self.left else {
            return None;
        };
        if left == 0 {
            return None;
        }
        match T::look(&mut self.at) {
            Ok(element) => {
                self.left = Some(left - 1);
                Some(element)
            }
            Err(_) => unreachable!(),
        }
    }
}

impl<'a, T: Readable> Readable for ArrayView<'a, T> {
    ghost reading = { array_reading T.reading };
}

#[tactic(auto, unfolding(ua_binary::specs::Arrays::array_reading))]
impl<'a, T: View<'a>> View<'a> for ArrayView<'a, T> {
    fn look(cursor: &mut Cursor<'a>) -> Result<ArrayView<'a, T>, TakeFault> {
        let count = cursor.number()?;
        let at = Cursor::new(cursor.rest());
        if count >= 1 << 31 {
            return Ok(ArrayView {
                left: None,
                at,
                element: PhantomData,
            });
        }
        if cursor.rest().len() < count as usize {
            return Err(TakeFault::Length);
        }
        pass_all::<T>(count, cursor)?;
        Ok(ArrayView {
            left: Some(count),
            at,
            element: PhantomData,
        })
    }
}

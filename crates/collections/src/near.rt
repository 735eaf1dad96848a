//! Where the next value is likely to be.

/// Where in a list a value was found last, and how far that was from another one before. Who goes through values in the order in
/// which they stand, or in the order of every second or third of them, finds each at the same distance from the one before, and
/// who asks for one several times in a row finds it where it was; neither needs a search. It is only a guess: a wrong one costs
/// two comparisons, and the search that it didn't spare.
#[derive(Clone, Copy, Debug)]
pub struct Near {
    // The place at which a value was found last.
    last: usize,
    // How far that was from the place of another one that was found before, to be added with a wrap.
    stride: usize,
    // It was found there twice in a row.
    is_again: bool,
}

impl Near {
    /// Nothing was found yet.
    pub fn new() -> Near {
        Near {
            last: 0,
            stride: 0,
            is_again: false,
        }
    }

    fn next(&self) -> usize {
        self.last.wrapping_add(self.stride)
    }

    /// The place at which the next value is most likely to be: as far from the last one as that was from another, or where the
    /// last one was, if that was asked for again.
    pub fn first(&self) -> usize {
        if self.is_again {
            self.last
        } else {
            self.next()
        }
    }

    /// The other of these two places.
    pub fn second(&self) -> usize {
        if self.is_again {
            self.next()
        } else {
            self.last
        }
    }

    /// A value was found at this place.
    pub fn found(&mut self, place: usize) {
        self.is_again = place == self.last;
        if !self.is_again {
            self.stride = place.wrapping_sub(self.last);
            self.last = place;
        }
    }
}

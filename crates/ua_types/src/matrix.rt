//! Lists with dimensions.

ghost use Rattle.std.specs.Prelude.{◌≡◌, ℕ, ◌<◌, ◌^◌, List, length, refl};
ghost use Rattle.std.specs.Cmp.{partial_equiv_from_equiv, po};
ghost use Rattle.std.specs.Ordering.{as_partial_cmp};
ghost use Rattle.std.specs.Vec.{vec_len};
ghost use Rattle.ua_types.specs.Matrices.{IsShaped, is_shape, or_none, same_matrix, matrix_cmp, same_matrix_equiv, matrix_cmp_total, matrix_ties};

use crate::copyable::Copyable;
use crate::shared::Shared;
use crate::shared_list::SharedList;
use std::alloc::{AllocError, Global};
use std::cmp::Ordering;
use std::marker::Model;

/// Whether so many elements lie in these dimensions: each is below 2^31, and their product is the
/// number of elements. The product of no dimensions is 1.
pub fn has_shape(dimensions: &[u32], count: usize) -> bool
    requires { count < 2 ^ 31 }
    ensures { result ≡ is_shape dimensions.now count }
{
    let mut size = 1u64;
    for dimension in dimensions {
        if *dimension >= 1 << 31 {
            return false;
        }
        size = size.saturating_mul(*dimension as u64);
    }
    size == count as u64
}

/// A list with dimensions (arrays of several dimensions, IEC 62541-6, 5.2.5).
///
/// The elements stand with the last dimension running fastest. There are fewer than 2^31 of them,
/// and as many as the product of the dimensions, each of which is below 2^31. In the order the elements
/// go first, then the dimensions.
#[derive(Debug)]
pub struct Matrix<T> {
    // With the last dimension running fastest.
    elements: Shared<Vec<T>>,
    // The slowest first, or null for none; their product is the number of elements.
    dimensions: SharedList<u32>,
}

impl<T> Model for Matrix<T> {
    ghost Value = { List T × List ℕ };

    ghost view = { λ m. (m.elements.items, or_none m.dimensions) };

    ghost invariant = { λ m. IsShaped m.elements.items (or_none m.dimensions) };
}

impl<T> Matrix<T> {
    /// A list of elements in dimensions, of which null are none. [`has_shape`] says whether they fit. Takes no memory.
    pub fn new(elements: Shared<Vec<T>>, dimensions: SharedList<u32>) -> Matrix<T>
        requires { IsShaped elements.items (or_none dimensions) }
        ensures { result ≡ (elements.items, or_none dimensions) }
    {
        Matrix {
            elements,
            dimensions,
        }
    }

    /// The elements, with the last dimension running fastest.
    pub fn elements(&self) -> &[T]
        ensures elements { result.now ≡ self.now.0 }
        ensures shaped { IsShaped self.now.0 self.now.1 }
    {
        self.elements.as_slice()
    }

    /// The elements themselves, with the last dimension running fastest.
    pub fn into_elements(self) -> Shared<Vec<T>>
        ensures elements { result.items ≡ self.0 }
        ensures short { vec_len result < 2 ^ 31 }
    {
        let Matrix {
            elements,
            dimensions: _,
        } = self;
        elements
    }

    /// The dimensions, the slowest first.
    pub fn dimensions(&self) -> &[u32]
        ensures { result.now ≡ self.now.1 }
    {
        match self.dimensions.as_slice() {
            None => &[],
            Some(dimensions) => dimensions,
        }
    }
}

// Written out, so that a proof sees a drop as one call and not as its cases.
impl<T: Drop> Drop for Matrix<T> {
    fn drop(self) {
        let Matrix {
            elements: _,
            dimensions: _,
        } = self;
    }
}

impl<T: Drop> Copyable for Matrix<T> {
    fn copy(&self, alloc: Global) -> Result<Matrix<T>, AllocError> {
        let elements = self.elements.share()?;
        let dimensions = self.dimensions.copy(alloc)?;
        Ok(Matrix::new(elements, dimensions))
    }
}

impl<T: Eq> PartialEq for Matrix<T> {
    ghost eq = { same_matrix T.PartialEq.eq };

    ghost laws = { partial_equiv_from_equiv (same_matrix_equiv T.Eq.laws) };

    fn eq(&self, other: &Matrix<T>) -> bool {
        self.elements() == other.elements() && self.dimensions() == other.dimensions()
    }
}

impl<T: Eq> Eq for Matrix<T> {
    ghost laws = { same_matrix_equiv T.Eq.laws };
}

impl<T: Ord> PartialOrd for Matrix<T> {
    ghost partial_cmp = { as_partial_cmp (matrix_cmp T.cmp) };

    ghost laws = { po (matrix_cmp_total T.total) (matrix_ties T.cmp T.matches_eq) };

    fn partial_cmp(&self, other: &Matrix<T>) -> Option<Ordering> {
        Some(self.cmp(other))
    }
}

impl<T: Ord> Ord for Matrix<T> {
    ghost cmp = { matrix_cmp T.cmp };

    ghost total = { matrix_cmp_total T.total };

    ghost matches_partial_cmp = { λ x y. refl };

    ghost matches_eq = { matrix_ties T.cmp T.matches_eq };

    fn cmp(&self, other: &Matrix<T>) -> Ordering {
        (self.elements(), self.dimensions()).cmp(&(other.elements(), other.dimensions()))
    }
}

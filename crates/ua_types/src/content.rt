//! What a value holds: one value, a list, or a list with dimensions.

ghost use Rattle.std.specs.Prelude.{◌≡◌, ◌≤◌, ◌+◌, ◌++◌, take, drop, option_map, refl, IfOk};
ghost use Rattle.std.specs.Cmp.{partial_equiv_from_equiv, po};
ghost use Rattle.std.specs.Vec.{vec_len};
ghost use Rattle.std.specs.Ordering.{as_partial_cmp};
ghost use Rattle.ua_types.specs.Contents.{place_of, scalar_of, elements_of, dimensions_of, same_content, content_cmp, same_content_equiv, content_cmp_total, content_ties};
ghost use Rattle.ua_types.specs.Plain.{IsOne};

use crate::copyable::Copyable;
use crate::matrix::Matrix;
use crate::shape::Shape;
use crate::shared_list::SharedList;
use std::alloc::{AllocError, Global};
use std::cmp::Ordering;

// A list with others in the place of as many of its elements, from one on. They are moved, and those that stood there are dropped.
fn replaced<T: Drop>(whole: Vec<T>, from: usize, part: Vec<T>) -> Vec<T>
    requires { from + vec_len part ≤ vec_len whole }
    ensures items { result.items ≡ take from whole.items ++ part.items ++ drop (from + vec_len part) whole.items }
    ensures len { vec_len result ≡ vec_len whole }
{
    let mut elements = whole;
    let mut at = from;
    for element in part {
        elements[at] = element;
        at += 1;
    }
    elements
}

/// What a value of one type holds.
///
/// In the order a scalar comes first, then the null list, lists, and lists with dimensions. Two of
/// a kind go by their elements, and then by their dimensions.
#[derive(Debug)]
pub enum Content<T> {
    Scalar(T),
    /// A list without dimensions, which may be null.
    Array(SharedList<T>),
    /// A list with dimensions. With no dimensions it has one element, and still isn't a scalar.
    Matrix(Matrix<T>),
}

impl<T> Content<T> {
    ghost use Rattle.ua_types.specs.Shapes.{shape_in};

    /// What it is, whatever its elements.
    pub fn shape(&self) -> Shape
        ensures { result ≡ shape_in self.now }
    {
        match self {
            Content::Scalar(_) => Shape::Scalar,
            Content::Array(_) => Shape::List,
            Content::Matrix(_) => Shape::Matrix,
        }
    }

    // What contents are compared by: the place of the case, the scalar, the elements, the dimensions.
    fn parts(&self) -> (u8, Option<&T>, &[T], &[u32])
        ensures place { result.0 ≡ place_of self.now }
        ensures scalar { option_map (λ x. x.now) result.1 ≡ scalar_of self.now }
        ensures elements { result.2.now ≡ elements_of self.now }
        ensures dimensions { result.3.now ≡ dimensions_of self.now }
    {
        match self {
            Content::Scalar(value) => (0, Some(value), &[], &[]),
            Content::Array(list) => match list.as_slice() {
                None => (1, None, &[], &[]),
                Some(elements) => (2, None, elements, &[]),
            },
            Content::Matrix(matrix) => (3, None, matrix.elements(), matrix.dimensions()),
        }
    }
}

impl<T: Drop> Content<T> {
    ghost use Rattle.ua_types.specs.Parts.{flattened_in};

    // A list with at most one dimension without dimensions, and all else as it is.
    pub(crate) fn flattened(self) -> Content<T>
        ensures { result ≡ flattened_in self }
    {
        match self {
            Content::Matrix(matrix) => {
                if matrix.dimensions().len() <= 1 {
                    Content::Array(SharedList::from_shared(matrix.into_elements()))
                } else {
                    Content::Matrix(matrix)
                }
            }
            Content::Scalar(value) => Content::Scalar(value),
            Content::Array(list) => Content::Array(list),
        }
    }
}

impl<T: Copyable> Content<T> {
    ghost use Rattle.ua_types.specs.Parts.{list_len_in, with_part_in, HasRoom};

    // A list with those of another list in the place of as many of its elements, from one on.
    pub(crate) fn with_part(
        self,
        alloc: Global,
        from: usize,
        part: Content<T>,
    ) -> Result<Content<T>, AllocError>
        requires { HasRoom from (list_len_in part) (list_len_in self) }
        ensures { IfOk result (λ list. list ≡ with_part_in from part self) }
    {
        match self {
            Content::Scalar(_) => unreachable!(),
            Content::Array(whole) => match part {
                Content::Array(part) => match whole.into_vec(alloc)? {
                    None => Ok(Content::Array(SharedList::null())),
                    Some(whole) => match part.into_vec(alloc)? {
                        None => Ok(Content::Array(SharedList::new(whole)?)),
                        Some(part) => {
                            let elements = replaced(whole, from, part);
                            Ok(Content::Array(SharedList::new(elements)?))
                        }
                    },
                },
                Content::Scalar(_) => unreachable!(),
                Content::Matrix(_) => unreachable!(),
            },
            Content::Matrix(_) => unreachable!(),
        }
    }
}

// Written out, so that a proof sees a drop as one call and not as its cases. Inlined, since the drop of a Variant
// would else clear room for a content at every call.
impl<T: Drop> Drop for Content<T> {
    #[inline(always)]
    fn drop(self) {
        match self {
            Content::Scalar(_) => {}
            Content::Array(_) => {}
            Content::Matrix(_) => {}
        }
    }
}

impl<T: Copyable> Copyable for Content<T> {
    ghost is_plain = { IsOne T.is_plain };

    fn copy(&self, alloc: Global) -> Result<Content<T>, AllocError> {
        match self {
            Content::Scalar(value) => Ok(Content::Scalar(value.copy(alloc)?)),
            Content::Array(list) => Ok(Content::Array(list.copy(alloc)?)),
            Content::Matrix(matrix) => Ok(Content::Matrix(matrix.copy(alloc)?)),
        }
    }
}

impl<T: Eq> PartialEq for Content<T> {
    ghost eq = { same_content T.PartialEq.eq };

    ghost laws = { partial_equiv_from_equiv (same_content_equiv T.Eq.laws) };

    fn eq(&self, other: &Content<T>) -> bool {
        self.parts() == other.parts()
    }
}

impl<T: Eq> Eq for Content<T> {
    ghost laws = { same_content_equiv T.Eq.laws };
}

impl<T: Ord> PartialOrd for Content<T> {
    ghost partial_cmp = { as_partial_cmp (content_cmp T.cmp) };

    ghost laws = { po (content_cmp_total T.total) (content_ties T.cmp T.matches_eq) };

    fn partial_cmp(&self, other: &Content<T>) -> Option<Ordering> {
        Some(self.cmp(other))
    }
}

impl<T: Ord> Ord for Content<T> {
    ghost cmp = { content_cmp T.cmp };

    ghost total = { content_cmp_total T.total };

    ghost matches_partial_cmp = { λ x y. refl };

    ghost matches_eq = { content_ties T.cmp T.matches_eq };

    fn cmp(&self, other: &Content<T>) -> Ordering {
        self.parts().cmp(&other.parts())
    }
}

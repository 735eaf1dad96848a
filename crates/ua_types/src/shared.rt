//! Values with several owners.

ghost use Rattle.std.specs.Prelude.{◌≡◌, IfOk, IfErr};

use crate::copyable::Copyable;
use std::alloc::{AllocError, Global};
use std::cmp::Ordering;
use std::fmt;
use std::fmt::{Debug, Formatter};
use std::marker::Model;
use std::ops::Deref;
use std::rc::Rc;

/// A value in a block of memory that may have several owners. It is copied by one owner more, which takes no memory; the last
/// owner gives the block back. Nobody writes to it. Contracts see the value.
///
/// It is compared, ordered and shown as the value is.
pub struct Shared<T> {
    inside: Rc<T>,
}

impl<T> Model for Shared<T> {
    ghost Value = { T };

    ghost view = { λ b. b.inside.value };
}

impl<T: Drop> Shared<T> {
    /// Moves a value into a block. An `Err` leaves nothing behind.
    pub fn new(alloc: Global, value: T) -> Result<Shared<T>, AllocError>
        ensures { IfOk result (λ b. b ≡ value) }
    {
        Ok(Shared {
            inside: Rc::new(alloc, value)?,
        })
    }

    /// One more owner. Takes no memory: an `Err` says that there are 2^64 - 1 owners.
    pub fn share(&self) -> Result<Shared<T>, AllocError>
        ensures { IfOk result (λ b. b ≡ self.now) }
    {
        Ok(Shared {
            inside: self.inside.clone()?,
        })
    }
}

impl<T> Shared<T> {
    /// The value itself where it has one owner, or else the block as it was. Takes no memory.
    pub fn try_unwrap(self) -> Result<T, Shared<T>>
        ensures ok { IfOk result (λ value. value ≡ self) }
        ensures err { IfErr result (λ shared. shared ≡ self) }
    {
        let Shared { inside } = self;
        match Rc::try_unwrap(inside) {
            Ok(value) => Ok(value),
            Err(inside) => Err(Shared { inside }),
        }
    }
}

impl<T: Copyable> Shared<T> {
    /// The value itself where it has one owner, or else a copy of it. An `Err` leaves nothing behind.
    pub fn unwrap_or_copy(self, alloc: Global) -> Result<T, AllocError>
        ensures { IfOk result (λ value. value ≡ self) }
    {
        match self.try_unwrap() {
            Ok(value) => Ok(value),
            Err(shared) => shared.inside.as_ref().copy(alloc),
        }
    }
}

impl<T> Deref for Shared<T> {
    type Target = T;

    ghost deref_gives = { λ b x. x ≡ b };

    fn deref(&self) -> &T {
        self.inside.as_ref()
    }
}

// Written out, so that a proof sees a drop as one call and not as its cases.
impl<T: Drop> Drop for Shared<T> {
    fn drop(self) {
        let Shared { inside: _ } = self;
    }
}

impl<T: Drop> Copyable for Shared<T> {
    fn copy(&self, _alloc: Global) -> Result<Shared<T>, AllocError> {
        self.share()
    }
}

impl<T: Debug> Debug for Shared<T> {
    fn fmt<W: fmt::Write>(&self, f: &mut Formatter<W>) -> fmt::Result {
        Debug::fmt(&self.inside, f)
    }
}

impl<T: PartialEq> PartialEq for Shared<T> {
    ghost eq = { T.eq };

    ghost laws = { T.PartialEq.laws };

    fn eq(&self, other: &Shared<T>) -> bool {
        self.inside.as_ref() == other.inside.as_ref()
    }
}

impl<T: Eq> Eq for Shared<T> {
    ghost laws = { T.Eq.laws };
}

impl<T: PartialOrd> PartialOrd for Shared<T> {
    ghost partial_cmp = { T.partial_cmp };

    ghost laws = { T.PartialOrd.laws };

    fn partial_cmp(&self, other: &Shared<T>) -> Option<Ordering> {
        self.inside.as_ref().partial_cmp(other.inside.as_ref())
    }
}

impl<T: Ord> Ord for Shared<T> {
    ghost cmp = { T.cmp };

    ghost total = { T.total };

    ghost matches_partial_cmp = { T.matches_partial_cmp };

    ghost matches_eq = { T.matches_eq };

    fn cmp(&self, other: &Shared<T>) -> Ordering {
        self.inside.as_ref().cmp(other.inside.as_ref())
    }
}

//! Lists as they are sent.

ghost use Rattle.std.specs.Prelude.{◌≡◌, ℕ, List, Option, Some, IfOk, map, [], ◌∷◌};

use std::alloc::{AllocError, Global};
use ua_types::{Array, Copyable, Listed, Text};

/// What is sent in another form than it is read from a line.
pub trait Sent: Drop {
    type Form: Drop;

    /// The form in which it is sent.
    ghost form: { Self → Self.Form };

    /// It in the form in which it is sent.
    fn sent(self, alloc: Global) -> Result<Self::Form, AllocError>
        ensures { IfOk result (λ x. x ≡ form self) };
}

/// A list of these elements. One of 2^31 elements or more can't be spelled, and is refused as by want of
/// memory.
pub(crate) fn held<T: Drop>(items: Vec<T>) -> Result<Array<T>, AllocError>
    ensures { IfOk result (λ a. a ≡ Some items.items) }
{
    if items.len() >= 1 << 31 {
        return Err(AllocError);
    }
    Ok(Array::new(items))
}

/// What is sent with an index range, the same for all entries of its list.
pub(crate) trait Ranged: Drop {
    type Form: Drop;

    /// The form in which it is sent with a range, which may be null.
    ghost form: { Option (List ℕ) → Self → Self.Form };

    /// It in the form in which it is sent with this range.
    fn ranged(self, range: Text) -> Self::Form
        ensures { result ≡ form range self };
}

fn all_sent<S: Sent>(alloc: Global, entries: Vec<S>) -> Result<Vec<S::Form>, AllocError>
    ensures { IfOk result (λ v. v.items ≡ map S.form entries.items) }
{
    let mut items = Vec::new(alloc);
    for entry in entries {
        let item = entry.sent(alloc)?;
        items.push(item)?;
    }
    Ok(items)
}

/// A list of elements in the form in which they are sent.
pub(crate) fn list<S: Sent>(alloc: Global, entries: Listed<S>) -> Result<Array<S::Form>, AllocError>
    ensures { IfOk result (λ a. a ≡ Some (map S.form entries)) }
{
    held(all_sent(alloc, entries.into_vec())?)
}

fn all_ranged<S: Ranged>(
    alloc: Global,
    range: &Text,
    entries: Vec<S>,
) -> Result<Vec<S::Form>, AllocError>
    ensures { IfOk result (λ v. v.items ≡ map (S.form range.now) entries.items) }
{
    let mut items = Vec::new(alloc);
    for entry in entries {
        let item = entry.ranged(range.copy(alloc)?);
        items.push(item)?;
    }
    Ok(items)
}

/// A list of elements in the form in which they are sent, each with this range.
pub(crate) fn ranged_list<S: Ranged>(
    alloc: Global,
    range: &Text,
    entries: Listed<S>,
) -> Result<Array<S::Form>, AllocError>
    ensures { IfOk result (λ a. a ≡ Some (map (S.form range.now) entries)) }
{
    held(all_ranged(alloc, range, entries.into_vec())?)
}

/// A list of one element.
pub(crate) fn one<T: Drop>(alloc: Global, item: T) -> Result<Array<T>, AllocError>
    ensures { IfOk result (λ a. a ≡ Some (item ∷ [])) }
{
    let mut items = Vec::new(alloc);
    items.push(item)?;
    held(items)
}

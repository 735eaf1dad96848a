//! Which elements of a list a read or a write is about.

ghost use Rattle.std.specs.Prelude.{◌≡◌, ◌≤◌, ◌<◌, ◌+◌, ◌^◌, IfSome, option_map};
ghost use Rattle.ua_read_write.specs.IndexRanges.{element_number as element_number_spec, index_range_of, if_said, asked_range as asked_range_spec};

use ua_types::{Status, decimal_up_to};

/// Some elements of a list, one after the other, which are numbered from 0 (NumericRange, IEC 62541-4, 7.22).
#[derive(Clone, Copy, Debug, PartialEq, Eq)]
pub struct IndexRange {
    /// The number of the first one.
    pub first: u32,
    /// How many they are, at least one.
    pub count: u32,
}

// The number of an element.
fn element_number(digits: &str) -> Option<u32>
    ensures number { result ≡ element_number_spec digits.now }
    ensures fits { IfSome result (λ number. number < 2 ^ 31) }
{
    if digits.len() > 10 {
        return None;
    }
    match decimal_up_to(0x7fff_ffff, digits) {
        None => None,
        Some(number) => Some(number as u32),
    }
}

impl IndexRange {
    /// The range that a text says: `4` is one element, and `3:9` those from one to a later one. Each number has one to ten
    /// decimal digits and is at most 2147483647. None where it says anything else, as `1:1`, `2:1` and `0:1,2:3`.
    #[tactic(auto, unfolding(crate::specs::IndexRanges::index_range_of))]
    pub fn parse(text: &str) -> Option<IndexRange>
        ensures range { result ≡ index_range_of text.now }
        ensures some { IfSome result (λ range. 0 < range.count) }
        ensures fits { IfSome result (λ range. range.first + range.count ≤ 2 ^ 31) }
    {
        let Some((first, last)) = text.split_once(':') else {
            let first = element_number(text)?;
            return Some(IndexRange { first, count: 1 });
        };
        let first = element_number(first)?;
        let last = element_number(last)?;
        if first >= last {
            return None;
        }
        Some(IndexRange {
            first,
            count: last - first + 1,
        })
    }
}

// The range that a text says, which is neither null nor empty.
#[inline(never)]
fn range_said(text: &str) -> Result<Option<IndexRange>, Status>
    ensures { result ≡ if_said (index_range_of text.now) }
{
    match IndexRange::parse(text) {
        None => Err(Status::BAD_INDEX_RANGE_INVALID),
        Some(range) => Ok(Some(range)),
    }
}

// The range that a request asks for, where its text is neither null nor empty. Few ask for one, so that much is seen inline.
#[inline(always)]
pub(crate) fn asked_range(text: Option<&str>) -> Result<Option<IndexRange>, Status>
    ensures { result ≡ asked_range_spec (option_map (λ t. t.now) text.entry) }
{
    let Some(text) = text else {
        return Ok(None);
    };
    if text.is_empty() {
        return Ok(None);
    }
    range_said(text)
}

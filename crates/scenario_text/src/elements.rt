//! What a text says as one value of a type, and as a list of values.

ghost use Rattle.std.specs.Prelude.{◌≡◌, ℕ, List, Result, Ok, Some, IfOk, map};
ghost use Rattle.hex.specs.Hex.{decode_of};
ghost use Rattle.ua_types.specs.Answers.{Gives, GivesAs};
ghost use Rattle.scenario_text.specs.declared.fault.Cause.{Cause};
ghost use Rattle.scenario_text.specs.declared.fault.Cause.TheVariants.{Memory};
ghost use Rattle.scenario_text.specs.Elements.{octets_of, boolean_of, sbyte_of, byte_of, int16_of, uint16_of, int32_of, uint32_of, int64_of, uint64_of, moment_of, guid_of, byte_string_of, node_id_of, status_of, element_texts, element_of, all_of, content_of};

use crate::fault::Cause;
use crate::numbers::{named_id, signed, truth};
use std::alloc::{AllocError, Global};
use ua_types::{ByteString, Content, Guid, Moment, NodeId, SharedList, Status, decimal_up_to};

/// A value of a type that a text says, alone or as an element of a list.
pub(crate) trait Element: Drop {
    /// What a text says.
    ghost said: { List ℕ → Result Self Cause };

    /// The value that a text says.
    fn of(alloc: Global, text: &str) -> Result<Self, Cause>
        ensures { Gives Memory result (said text.now) };
}

// The bytes that hex digits stand for.
pub(crate) fn octets_of(alloc: Global, digits: &str) -> Result<Vec<u8>, Cause>
    ensures { GivesAs Memory (λ v. v.items) result (octets_of (decode_of digits.now)) }
{
    match hex::decode(alloc, digits) {
        Ok(bytes) => Ok(bytes),
        Err(hex::FromHexError::OutOfMemory) => Err(Cause::Memory),
        Err(_) => Err(Cause::Value),
    }
}

// One of 2^31 bytes or more counts as want of memory.
fn held_octets(bytes: Vec<u8>) -> Result<ByteString, Cause>
    ensures { Gives Memory result (Ok (Some bytes.items)) }
{
    if bytes.len() >= 1 << 31 {
        return Err(Cause::Memory);
    }
    Ok(ByteString::new(bytes)?)
}

impl Element for bool {
    ghost said = { boolean_of };

    #[tactic(auto, unfolding(crate::specs::Elements::boolean_of))]
    fn of(_alloc: Global, text: &str) -> Result<bool, Cause> {
        truth(text).ok_or(Cause::Value)
    }
}

impl Element for i8 {
    ghost said = { sbyte_of };

    #[tactic(auto, unfolding(crate::specs::Elements::sbyte_of))]
    fn of(_alloc: Global, text: &str) -> Result<i8, Cause> {
        let number = signed(0x80, 0x7f, text).ok_or(Cause::Value)?;
        Ok(number as i8)
    }
}

impl Element for u8 {
    ghost said = { byte_of };

    #[tactic(auto, unfolding(crate::specs::Elements::byte_of))]
    fn of(_alloc: Global, text: &str) -> Result<u8, Cause> {
        let number = decimal_up_to(0xff, text).ok_or(Cause::Value)?;
        Ok(number as u8)
    }
}

impl Element for i16 {
    ghost said = { int16_of };

    #[tactic(auto, unfolding(crate::specs::Elements::int16_of))]
    fn of(_alloc: Global, text: &str) -> Result<i16, Cause> {
        let number = signed(0x8000, 0x7fff, text).ok_or(Cause::Value)?;
        Ok(number as i16)
    }
}

impl Element for u16 {
    ghost said = { uint16_of };

    #[tactic(auto, unfolding(crate::specs::Elements::uint16_of))]
    fn of(_alloc: Global, text: &str) -> Result<u16, Cause> {
        let number = decimal_up_to(0xffff, text).ok_or(Cause::Value)?;
        Ok(number as u16)
    }
}

impl Element for i32 {
    ghost said = { int32_of };

    #[tactic(auto, unfolding(crate::specs::Elements::int32_of))]
    fn of(_alloc: Global, text: &str) -> Result<i32, Cause> {
        let number = signed(0x8000_0000, 0x7fff_ffff, text).ok_or(Cause::Value)?;
        Ok(number as i32)
    }
}

impl Element for u32 {
    ghost said = { uint32_of };

    #[tactic(auto, unfolding(crate::specs::Elements::uint32_of))]
    fn of(_alloc: Global, text: &str) -> Result<u32, Cause> {
        let number = decimal_up_to(0xffff_ffff, text).ok_or(Cause::Value)?;
        Ok(number as u32)
    }
}

impl Element for i64 {
    ghost said = { int64_of };

    #[tactic(auto, unfolding(crate::specs::Elements::int64_of))]
    fn of(_alloc: Global, text: &str) -> Result<i64, Cause> {
        signed(1 << 63, (1 << 63) - 1, text).ok_or(Cause::Value)
    }
}

impl Element for u64 {
    ghost said = { uint64_of };

    #[tactic(auto, unfolding(crate::specs::Elements::uint64_of))]
    fn of(_alloc: Global, text: &str) -> Result<u64, Cause> {
        decimal_up_to(u64::MAX, text).ok_or(Cause::Value)
    }
}

/// In steps of 100 ns.
impl Element for Moment {
    ghost said = { moment_of };

    #[tactic(auto, unfolding(crate::specs::Elements::moment_of))]
    fn of(_alloc: Global, text: &str) -> Result<Moment, Cause> {
        let steps = signed(1 << 63, (1 << 63) - 1, text).ok_or(Cause::Value)?;
        Ok(Moment(steps))
    }
}

impl Element for Guid {
    ghost said = { guid_of };

    #[tactic(auto, unfolding(crate::specs::Elements::guid_of))]
    fn of(_alloc: Global, text: &str) -> Result<Guid, Cause> {
        Guid::parse(text).ok_or(Cause::Value)
    }
}

/// In hex digits.
impl Element for ByteString {
    ghost said = { byte_string_of };

    #[tactic(auto, unfolding(crate::specs::Elements::byte_string_of))]
    fn of(alloc: Global, text: &str) -> Result<ByteString, Cause> {
        held_octets(octets_of(alloc, text)?)
    }
}

impl Element for NodeId {
    ghost said = { node_id_of };

    #[tactic(auto, unfolding(crate::specs::Elements::node_id_of))]
    fn of(alloc: Global, text: &str) -> Result<NodeId, Cause> {
        named_id(alloc, Cause::Value, text)
    }
}

impl Element for Status {
    ghost said = { status_of };

    #[tactic(auto, unfolding(crate::specs::Elements::status_of))]
    fn of(_alloc: Global, text: &str) -> Result<Status, Cause> {
        let number = decimal_up_to(0xffff_ffff, text).ok_or(Cause::Value)?;
        Ok(Status(number as u32))
    }
}

// The texts between the commas.
#[tactic(auto, unfolding(crate::specs::Elements::element_texts))]
fn element_texts(alloc: Global, text: &str) -> Result<Vec<&str>, AllocError>
    ensures { IfOk result (λ v. map (λ t. t.now) v.items ≡ element_texts text.now) }
{
    if text == "-" {
        return Ok(Vec::new(alloc));
    }
    text.split(',').collect(alloc)
}

// An element, which isn't empty.
fn element_of<T: Element>(alloc: Global, text: &str) -> Result<T, Cause>
    ensures { Gives Memory result (element_of T.said text.now) }
{
    if text.is_empty() {
        return Err(Cause::Value);
    }
    T::of(alloc, text)
}

// The elements that these texts say.
fn elements<T: Element>(alloc: Global, texts: &[&str]) -> Result<Vec<T>, Cause>
    ensures { GivesAs Memory (λ v. v.items) result (all_of (element_of T.said) (map (λ t. t.now) texts.now)) }
{
    let mut items = Vec::new(alloc);
    for text in texts {
        let item = element_of(alloc, text)?;
        items.push(item)?;
    }
    Ok(items)
}

// A list of these elements. One of 2^31 elements or more counts as want of memory.
fn held<T: Drop>(items: Vec<T>) -> Result<SharedList<T>, Cause>
    ensures { Gives Memory result (Ok (Some items.items)) }
{
    if items.len() >= 1 << 31 {
        return Err(Cause::Memory);
    }
    Ok(SharedList::new(items)?)
}

/// One value, or a list of values with commas between them.
#[tactic(auto, unfolding(crate::specs::Elements::content_of))]
pub(crate) fn content<T: Element>(
    alloc: Global,
    is_list: bool,
    text: &str,
) -> Result<Content<T>, Cause>
    ensures { Gives Memory result (content_of T.said is_list text.now) }
{
    if is_list {
        let texts = element_texts(alloc, text)?;
        let items = elements(alloc, &texts)?;
        Ok(Content::Array(held(items)?))
    } else {
        Ok(Content::Scalar(T::of(alloc, text)?))
    }
}

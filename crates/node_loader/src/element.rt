//! Lists in a file: what is read as an element of each type.

ghost use Rattle.std.specs.Prelude.{◌≡◌, ◌≤◌, ◌≤ℤ◌, ℕ, neg_ℤ, pos, Result, length, vec_len, IfOk};
ghost use Rattle.std.specs.Result.{result_map_both};
ghost use Rattle.toml.specs.Data.{Data};
ghost use Rattle.toml.specs.View.{items_view, view};
ghost use Rattle.ua_types.specs.Answers.{Gives, GivesAs};
ghost use Rattle.node_loader.specs.Elements.{elements, truth_of, integer_of, word_of, unsigned_of, signed_of, text_of, moment_of, guid_of, octets_of, id_of, status_of};
ghost use Rattle.node_loader.specs.declared.fault.Cause.{Cause};
ghost use Rattle.node_loader.specs.declared.fault.Cause.TheVariants.{Memory};

use crate::fault::Cause;
use crate::ids::id_within;
use crate::keys::{signed_within, up_to, within};
use crate::value::bytes_of;
use std::alloc::Global;
use toml::Value;
use ua_types::{ByteString, Guid, Moment, NodeId, Status, Text};

/// What may stand in a list.
pub(crate) trait Element: Drop {
    /// What is read of a value, where the server has namespaces up to the highest.
    ghost reading: { ℕ → Data → Result Self Cause };

    /// Reads an element.
    fn read(alloc: Global, highest: u16, value: &Value) -> Result<Self, Cause>
        ensures { Gives Memory result (reading highest (view value.now)) };
}

/// The elements of a list, one after the other.
pub(crate) fn elements<T: Element>(
    alloc: Global,
    highest: u16,
    values: &[Value],
) -> Result<Vec<T>, Cause>
    ensures given { GivesAs Memory (λ xs. xs.items) result (elements (T.reading highest) (items_view values.now)) }
    ensures count { IfOk result (λ xs. vec_len xs ≡ length values.now) }
{
    let mut all = Vec::new(alloc);
    for value in values {
        match T::read(alloc, highest, value) {
            Ok(element) => all.push(element)?,
            Err(cause) => return Err(cause),
        }
    }
    Ok(all)
}

fn truth_of(value: &Value) -> Result<bool, Cause>
    ensures { result ≡ truth_of (view value.now) }
{
    value.as_bool().ok_or(Cause::WrongKind)
}

fn integer_of(value: &Value) -> Result<i64, Cause>
    ensures { result ≡ integer_of (view value.now) }
{
    value.as_integer().ok_or(Cause::WrongKind)
}

fn word_of(value: &Value) -> Result<&str, Cause>
    ensures { result_map_both (λ t. t.now) (λ cause. cause) result ≡ word_of (view value.now) }
{
    match value.as_str() {
        Some(text) => Ok(text),
        None => Err(Cause::WrongKind),
    }
}

#[tactic(auto, unfolding(crate::specs::Elements::unsigned_of))]
fn unsigned_of(high: u64, value: &Value) -> Result<u64, Cause>
    ensures given { result ≡ unsigned_of high (view value.now) }
    ensures range { IfOk result (λ n. n ≤ high) }
{
    within(up_to(high), integer_of(value)?)
}

#[tactic(auto, unfolding(crate::specs::Elements::signed_of))]
fn signed_of(low: i64, high: i64, value: &Value) -> Result<i64, Cause>
    ensures given { result ≡ signed_of low high (view value.now) }
    ensures range { IfOk result (λ n. (low ≤ℤ n) × (n ≤ℤ high)) }
{
    signed_within(low, high, integer_of(value)?)
}

impl Element for bool {
    ghost reading = { λ _ d. truth_of d };

    fn read(_alloc: Global, _highest: u16, value: &Value) -> Result<bool, Cause> {
        truth_of(value)
    }
}

impl Element for i8 {
    ghost reading = { λ _ d. signed_of (neg_ℤ (pos 128)) (pos 127) d };

    fn read(_alloc: Global, _highest: u16, value: &Value) -> Result<i8, Cause> {
        Ok(signed_of(-128, 127, value)? as i8)
    }
}

impl Element for u8 {
    ghost reading = { λ _ d. unsigned_of 255 d };

    fn read(_alloc: Global, _highest: u16, value: &Value) -> Result<u8, Cause> {
        Ok(unsigned_of(255, value)? as u8)
    }
}

impl Element for i16 {
    ghost reading = { λ _ d. signed_of (neg_ℤ (pos 32768)) (pos 32767) d };

    fn read(_alloc: Global, _highest: u16, value: &Value) -> Result<i16, Cause> {
        Ok(signed_of(-32768, 32767, value)? as i16)
    }
}

impl Element for u16 {
    ghost reading = { λ _ d. unsigned_of 65535 d };

    fn read(_alloc: Global, _highest: u16, value: &Value) -> Result<u16, Cause> {
        Ok(unsigned_of(65535, value)? as u16)
    }
}

impl Element for i32 {
    ghost reading = { λ _ d. signed_of (neg_ℤ (pos 2147483648)) (pos 2147483647) d };

    fn read(_alloc: Global, _highest: u16, value: &Value) -> Result<i32, Cause> {
        Ok(signed_of(-2147483648, 2147483647, value)? as i32)
    }
}

impl Element for u32 {
    ghost reading = { λ _ d. unsigned_of 4294967295 d };

    fn read(_alloc: Global, _highest: u16, value: &Value) -> Result<u32, Cause> {
        Ok(unsigned_of(4294967295, value)? as u32)
    }
}

impl Element for i64 {
    ghost reading = { λ _ d. integer_of d };

    fn read(_alloc: Global, _highest: u16, value: &Value) -> Result<i64, Cause> {
        integer_of(value)
    }
}

impl Element for u64 {
    ghost reading = { λ _ d. unsigned_of 9223372036854775807 d };

    fn read(_alloc: Global, _highest: u16, value: &Value) -> Result<u64, Cause> {
        unsigned_of(9223372036854775807, value)
    }
}

#[tactic(auto, unfolding(crate::specs::Elements::text_of))]
impl Element for Text {
    ghost reading = { λ _ d. text_of d };

    fn read(alloc: Global, _highest: u16, value: &Value) -> Result<Text, Cause> {
        let text = word_of(value)?;
        if text.len() < 1 << 31 {
            Ok(Text::from_str(alloc, text)?)
        } else {
            Err(Cause::OutOfRange)
        }
    }
}

#[tactic(auto, unfolding(crate::specs::Elements::moment_of))]
impl Element for Moment {
    ghost reading = { λ _ d. moment_of d };

    fn read(_alloc: Global, _highest: u16, value: &Value) -> Result<Moment, Cause> {
        Ok(Moment(integer_of(value)?))
    }
}

#[tactic(auto, unfolding(crate::specs::Elements::guid_of))]
impl Element for Guid {
    ghost reading = { λ _ d. guid_of d };

    fn read(_alloc: Global, _highest: u16, value: &Value) -> Result<Guid, Cause> {
        Guid::parse(word_of(value)?).ok_or(Cause::OutOfRange)
    }
}

#[tactic(auto, unfolding(crate::specs::Elements::octets_of))]
impl Element for ByteString {
    ghost reading = { λ _ d. octets_of d };

    fn read(alloc: Global, _highest: u16, value: &Value) -> Result<ByteString, Cause> {
        bytes_of(alloc, word_of(value)?)
    }
}

#[tactic(auto, unfolding(crate::specs::Elements::id_of))]
impl Element for NodeId {
    ghost reading = { id_of };

    fn read(alloc: Global, highest: u16, value: &Value) -> Result<NodeId, Cause> {
        id_within(alloc, highest, word_of(value)?)
    }
}

#[tactic(auto, unfolding(crate::specs::Elements::status_of))]
impl Element for Status {
    ghost reading = { λ _ d. status_of d };

    fn read(_alloc: Global, _highest: u16, value: &Value) -> Result<Status, Cause> {
        Ok(Status(unsigned_of(4294967295, value)? as u32))
    }
}

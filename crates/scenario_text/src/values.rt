//! Keys, bytes, texts and values to write.

ghost use Rattle.std.specs.Prelude.{◌≡◌, Some, Ok};
ghost use Rattle.hex.specs.Hex.{decode_sized};
ghost use Rattle.ua_types.specs.Answers.{Gives};
ghost use Rattle.scenario_text.specs.Readings.{Finds, Reads, ReadsAs};
ghost use Rattle.scenario_text.specs.declared.fault.Cause.TheVariants.{Memory};
ghost use Rattle.scenario_text.specs.Values.{key_of, key_reading, octets_reading, text_reading, range_reading, quoted_value, value_of, element_type, bracketed, named_type, value_reading};

use crate::elements::{content, octets_of};
use crate::fault::Cause;
use crate::phrases::Phrase;
use crate::words::Words;
use std::alloc::Global;
use ua_types::{
    ByteString, Content, Guid, Moment, NodeId, Status, Text, ValueType, Variant, behind,
};

/// The next word as bytes in hex digits.
#[tactic(auto, unfolding(crate::specs::Values::octets_reading))]
pub(crate) fn octets(alloc: Global, words: &mut Words<'_>) -> Result<Vec<u8>, Cause>
    ensures { ReadsAs (λ v. v.items) result words.new (octets_reading words.old) }
{
    octets_of(alloc, words.word()?)
}

// The key that 64 hex digits stand for.
fn key_of(digits: &str) -> Result<[u8; 32], Cause>
    ensures { result ≡ key_of (decode_sized digits.now 32) }
{
    let mut key = [0u8; 32];
    match hex::decode_to_slice(digits, &mut key) {
        Ok(()) => Ok(key),
        Err(_) => Err(Cause::Value),
    }
}

/// The next word as a connection's key: 32 bytes in hex digits.
#[tactic(auto, unfolding(crate::specs::Values::key_reading))]
pub(crate) fn key(words: &mut Words<'_>) -> Result<[u8; 32], Cause>
    ensures { Finds result words.new (key_reading words.old) }
{
    key_of(words.word()?)
}

// A text that isn't null. One of 2^31 bytes or more counts as want of memory.
fn held(alloc: Global, text: &str) -> Result<Text, Cause>
    ensures { Gives Memory result (Ok (Some text.now)) }
{
    if text.len() >= 1 << 31 {
        return Err(Cause::Memory);
    }
    Ok(Text::from_str(alloc, text)?)
}

impl Phrase for Text {
    ghost reading = { text_reading };

    #[tactic(auto, unfolding(crate::specs::Values::text_reading))]
    fn read(alloc: Global, words: &mut Words<'_>) -> Result<Text, Cause> {
        held(alloc, words.text()?)
    }
}

/// Any word as a text, quoted or not: an index range, which nothing here judges.
#[tactic(auto, unfolding(crate::specs::Values::range_reading))]
pub(crate) fn range(alloc: Global, words: &mut Words<'_>) -> Result<Text, Cause>
    ensures { Reads result words.new (range_reading words.old) }
{
    held(alloc, words.word()?)
}

// A text, which has to stand in quotes.
fn quoted_value(alloc: Global, text: &str, quoted: bool) -> Result<Variant, Cause>
    ensures { Gives Memory result (quoted_value (text.now, quoted)) }
{
    if quoted {
        Ok(Variant::String(Content::Scalar(held(alloc, text)?)))
    } else {
        Err(Cause::Value)
    }
}

// The value of a type that a word says, which may stand in quotes, or a list of values.
#[tactic(auto, unfolding(crate::specs::Values::value_of))]
fn value_of(
    alloc: Global,
    kind: ValueType,
    is_list: bool,
    text: &str,
    quoted: bool,
) -> Result<Variant, Cause>
    ensures { Gives Memory result (value_of kind is_list (text.now, quoted)) }
{
    match kind {
        ValueType::Boolean => Ok(Variant::Boolean(content::<bool>(alloc, is_list, text)?)),
        ValueType::SByte => Ok(Variant::SByte(content::<i8>(alloc, is_list, text)?)),
        ValueType::Byte => Ok(Variant::Byte(content::<u8>(alloc, is_list, text)?)),
        ValueType::Int16 => Ok(Variant::Int16(content::<i16>(alloc, is_list, text)?)),
        ValueType::UInt16 => Ok(Variant::UInt16(content::<u16>(alloc, is_list, text)?)),
        ValueType::Int32 => Ok(Variant::Int32(content::<i32>(alloc, is_list, text)?)),
        ValueType::UInt32 => Ok(Variant::UInt32(content::<u32>(alloc, is_list, text)?)),
        ValueType::Int64 => Ok(Variant::Int64(content::<i64>(alloc, is_list, text)?)),
        ValueType::UInt64 => Ok(Variant::UInt64(content::<u64>(alloc, is_list, text)?)),
        ValueType::String => quoted_value(alloc, text, quoted),
        ValueType::DateTime => Ok(Variant::DateTime(content::<Moment>(alloc, is_list, text)?)),
        ValueType::Guid => Ok(Variant::Guid(content::<Guid>(alloc, is_list, text)?)),
        ValueType::ByteString => Ok(Variant::ByteString(content::<ByteString>(
            alloc, is_list, text,
        )?)),
        ValueType::NodeId => Ok(Variant::NodeId(content::<NodeId>(alloc, is_list, text)?)),
        ValueType::StatusCode => Ok(Variant::StatusCode(content::<Status>(alloc, is_list, text)?)),
    }
}

// The type of a list's elements; a String isn't one.
fn element_type(kind: Option<ValueType>) -> Result<(ValueType, bool), Cause>
    ensures { result ≡ element_type kind }
{
    match kind {
        None => Err(Cause::Word),
        Some(ValueType::String) => Err(Cause::Word),
        Some(kind) => Ok((kind, true)),
    }
}

// A type behind a bracket, up to the closing one at the end.
#[tactic(auto, unfolding(crate::specs::Values::bracketed))]
fn bracketed(text: &str) -> Result<(ValueType, bool), Cause>
    ensures { result ≡ bracketed text.now }
{
    match text.split_once(']') {
        Some((name, rest)) => {
            if rest.is_empty() {
                element_type(ValueType::named(name))
            } else {
                Err(Cause::Word)
            }
        }
        None => Err(Cause::Word),
    }
}

// The type that a word names, and whether it stands in brackets, for a list.
#[tactic(auto, unfolding(crate::specs::Values::named_type))]
fn named_type(word: &str) -> Result<(ValueType, bool), Cause>
    ensures { result ≡ named_type word.now }
{
    match behind(word, "[") {
        Some(text) => bracketed(text),
        None => match ValueType::named(word) {
            Some(kind) => Ok((kind, false)),
            None => Err(Cause::Word),
        },
    }
}

/// A word that names a type, and a value of the type or a list of such values.
impl Phrase for Variant {
    ghost reading = { value_reading };

    #[tactic(auto, unfolding(crate::specs::Values::value_reading))]
    fn read(alloc: Global, words: &mut Words<'_>) -> Result<Variant, Cause> {
        let (kind, is_list) = named_type(words.word()?)?;
        let (text, quoted) = words.spelled()?;
        value_of(alloc, kind, is_list, text, quoted)
    }
}

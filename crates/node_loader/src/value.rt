//! Values in a file: what is read as a value of each type, or as a list of them.

ghost use Rattle.std.specs.Prelude.{◌≡◌, ◌<◌, ◌^◌, false, length, Some, Err, IfErr};
ghost use Rattle.std.specs.List.{list_all};
ghost use Rattle.hex.specs.Hex.{decode_of};
ghost use Rattle.toml.specs.View.{items_view, table_view, view};
ghost use Rattle.ua_types.specs.Answers.{Gives};
ghost use Rattle.node_loader.specs.Elements.{bytes_of, elements};
ghost use Rattle.node_loader.specs.declared.fault.Cause.TheVariants as Cause;
ghost use Rattle.node_loader.specs.declared.fault.Cause.TheVariants.{Memory};
ghost use Rattle.node_loader.specs.Keys.{required_word};
ghost use Rattle.node_loader.specs.Value.{type_of, guid_at, bytes_at, text_value, value_of, has_kind, as_list, list_of, judged_list, list_value, ranked_value};

use crate::element::{Element, elements};
use crate::fault::Cause;
use crate::ids::id_at;
use crate::keys::{
    required_boolean, required_integer, required_text, required_word, signed_at, unsigned_at,
    value_at,
};
use std::alloc::Global;
use toml::{Table, Value};
use ua_space::ValueRank;
use ua_types::{ByteString, Content, Guid, Moment, SharedList, Status, Text, ValueType, Variant};

/// What the values of a variable, or of those of a type, are: their type, and one or a list.
#[derive(Clone, Copy, Debug)]
pub(crate) struct Form {
    pub value_type: ValueType,
    pub rank: ValueRank,
}

/// The type that a word names.
pub(crate) fn type_of(word: &str) -> Result<ValueType, Cause>
    ensures { result ≡ type_of word.now }
{
    ValueType::named(word).ok_or(Cause::OutOfRange)
}

#[tactic(auto, unfolding(crate::specs::Value::guid_at))]
fn guid_at(table: &Table, key: &str) -> Result<Guid, Cause>
    ensures { result ≡ guid_at key.now (table_view table.now) }
{
    let text = required_word(table, key)?;
    Guid::parse(text).ok_or(Cause::OutOfRange)
}

/// The bytes that hex digits stand for.
pub(crate) fn bytes_of(alloc: Global, digits: &str) -> Result<ByteString, Cause>
    ensures { Gives Memory result (bytes_of (decode_of digits.now)) }
{
    match hex::decode(alloc, digits) {
        Ok(bytes) => {
            if bytes.len() < 1 << 31 {
                Ok(ByteString::new(bytes)?)
            } else {
                Err(Cause::OutOfRange)
            }
        }
        Err(hex::FromHexError::OutOfMemory) => Err(Cause::Memory),
        Err(_) => Err(Cause::OutOfRange),
    }
}

#[tactic(auto, unfolding(crate::specs::Value::bytes_at))]
fn bytes_at(alloc: Global, table: &Table, key: &str) -> Result<ByteString, Cause>
    ensures given { Gives Memory result (bytes_at key.now (table_view table.now)) }
    ensures refused { IfErr (required_word key.now (table_view table.now)) (λ cause. result ≡ Err cause) }
{
    let digits = required_word(table, key)?;
    bytes_of(alloc, digits)
}

#[tactic(auto, unfolding(crate::specs::Value::text_value))]
fn text_value(alloc: Global, table: &Table) -> Result<Text, Cause>
    ensures given { Gives Memory result (text_value (table_view table.now)) }
    ensures refused { IfErr (text_value (table_view table.now)) (λ cause. result ≡ Err cause) }
{
    let text = required_text(table, "value")?;
    Ok(Text::from_str(alloc, text)?)
}

// The value of a type at the key `value`.
#[tactic(auto, unfolding(crate::specs::Value::value_of))]
fn value_of(alloc: Global, kind: ValueType, highest: u16, table: &Table) -> Result<Variant, Cause>
    ensures { Gives Memory result (value_of kind highest (table_view table.now)) }
{
    match kind {
        ValueType::Boolean => {
            let truth = required_boolean(table, "value")?;
            Ok(Variant::Boolean(Content::Scalar(truth)))
        }
        ValueType::SByte => {
            let number = signed_at(table, "value", -128, 127)?;
            Ok(Variant::SByte(Content::Scalar(number as i8)))
        }
        ValueType::Byte => {
            let number = unsigned_at(table, "value", 255)?;
            Ok(Variant::Byte(Content::Scalar(number as u8)))
        }
        ValueType::Int16 => {
            let number = signed_at(table, "value", -32768, 32767)?;
            Ok(Variant::Int16(Content::Scalar(number as i16)))
        }
        ValueType::UInt16 => {
            let number = unsigned_at(table, "value", 65535)?;
            Ok(Variant::UInt16(Content::Scalar(number as u16)))
        }
        ValueType::Int32 => {
            let number = signed_at(table, "value", -2147483648, 2147483647)?;
            Ok(Variant::Int32(Content::Scalar(number as i32)))
        }
        ValueType::UInt32 => {
            let number = unsigned_at(table, "value", 4294967295)?;
            Ok(Variant::UInt32(Content::Scalar(number as u32)))
        }
        ValueType::Int64 => {
            let number = required_integer(table, "value")?;
            Ok(Variant::Int64(Content::Scalar(number)))
        }
        ValueType::UInt64 => {
            let number = unsigned_at(table, "value", 9223372036854775807)?;
            Ok(Variant::UInt64(Content::Scalar(number)))
        }
        ValueType::String => {
            let text = text_value(alloc, table)?;
            Ok(Variant::String(Content::Scalar(text)))
        }
        ValueType::DateTime => {
            let steps = required_integer(table, "value")?;
            Ok(Variant::DateTime(Content::Scalar(Moment(steps))))
        }
        ValueType::Guid => {
            let guid = guid_at(table, "value")?;
            Ok(Variant::Guid(Content::Scalar(guid)))
        }
        ValueType::ByteString => {
            let bytes = bytes_at(alloc, table, "value")?;
            Ok(Variant::ByteString(Content::Scalar(bytes)))
        }
        ValueType::NodeId => {
            let id = id_at(alloc, highest, table, "value")?;
            Ok(Variant::NodeId(Content::Scalar(id)))
        }
        ValueType::StatusCode => {
            let code = unsigned_at(table, "value", 4294967295)?;
            Ok(Variant::StatusCode(Content::Scalar(Status(code as u32))))
        }
    }
}

// Whether a value is of the kind that values of the type are written as.
fn has_kind(kind: ValueType, value: &Value) -> bool
    ensures { result ≡ has_kind kind (view value.now) }
{
    match kind {
        ValueType::Boolean => value.is_bool(),
        ValueType::String | ValueType::Guid | ValueType::ByteString | ValueType::NodeId =>
            value.is_str(),
        _ => value.is_integer(),
    }
}

fn all_have_kind(kind: ValueType, values: &[Value]) -> bool
    ensures { result ≡ list_all (λ v. has_kind kind (view v)) values.now }
{
    values.iter().all(|value| has_kind(kind, value))
}

// The content that is a list of these elements.
fn list<T: Element>(alloc: Global, highest: u16, values: &[Value]) -> Result<Content<T>, Cause>
    requires { length values.now < 2 ^ 31 }
    ensures { Gives Memory result (as_list (elements (T.reading highest) (items_view values.now))) }
{
    let elements = elements(alloc, highest, values)?;
    Ok(Content::Array(SharedList::new(elements)?))
}

// A list of values of a type.
#[tactic(auto, unfolding(crate::specs::Value::list_of))]
fn list_of(alloc: Global, kind: ValueType, highest: u16, values: &[Value]) -> Result<Variant, Cause>
    requires { length values.now < 2 ^ 31 }
    ensures { Gives Memory result (list_of kind highest (items_view values.now)) }
{
    match kind {
        ValueType::Boolean => Ok(Variant::Boolean(list(alloc, highest, values)?)),
        ValueType::SByte => Ok(Variant::SByte(list(alloc, highest, values)?)),
        ValueType::Byte => Ok(Variant::Byte(list(alloc, highest, values)?)),
        ValueType::Int16 => Ok(Variant::Int16(list(alloc, highest, values)?)),
        ValueType::UInt16 => Ok(Variant::UInt16(list(alloc, highest, values)?)),
        ValueType::Int32 => Ok(Variant::Int32(list(alloc, highest, values)?)),
        ValueType::UInt32 => Ok(Variant::UInt32(list(alloc, highest, values)?)),
        ValueType::Int64 => Ok(Variant::Int64(list(alloc, highest, values)?)),
        ValueType::UInt64 => Ok(Variant::UInt64(list(alloc, highest, values)?)),
        ValueType::String => Ok(Variant::String(list(alloc, highest, values)?)),
        ValueType::DateTime => Ok(Variant::DateTime(list(alloc, highest, values)?)),
        ValueType::Guid => Ok(Variant::Guid(list(alloc, highest, values)?)),
        ValueType::ByteString => Ok(Variant::ByteString(list(alloc, highest, values)?)),
        ValueType::NodeId => Ok(Variant::NodeId(list(alloc, highest, values)?)),
        ValueType::StatusCode => Ok(Variant::StatusCode(list(alloc, highest, values)?)),
    }
}

// A list, whose elements' kinds and whose length are judged before anything is read.
#[tactic(auto, using(crate::proofs::Tables::all_items_are, crate::proofs::Tables::count_is))]
fn judged_list(
    alloc: Global,
    kind: ValueType,
    highest: u16,
    values: &[Value],
) -> Result<Variant, Cause>
    ensures given { Gives Memory result (judged_list kind highest (items_view values.now)) }
    ensures refused { list_all (λ v. has_kind kind (view v)) values.now ≡ false → result ≡ Err Cause.WrongKind }
{
    if !all_have_kind(kind, values) {
        return Err(Cause::WrongKind);
    }
    if values.len() >= 1 << 31 {
        return Err(Cause::OutOfRange);
    }
    list_of(alloc, kind, highest, values)
}

#[tactic(auto, unfolding(crate::specs::Value::list_value))]
fn list_value(alloc: Global, kind: ValueType, highest: u16, table: &Table) -> Result<Variant, Cause>
    ensures { Gives Memory result (list_value kind highest (table_view table.now)) }
{
    let Some(value) = value_at(table, "value") else {
        return Err(Cause::MissingKey);
    };
    match value.as_array() {
        None => Err(Cause::WrongKind),
        Some(values) => judged_list(alloc, kind, highest, values.as_slice()),
    }
}

/// What stands at the key `value`: one value of a type, or a list of them.
pub(crate) fn ranked_value(
    alloc: Global,
    kind: ValueType,
    rank: ValueRank,
    highest: u16,
    table: &Table,
) -> Result<Variant, Cause>
    ensures { Gives Memory result (ranked_value kind rank highest (table_view table.now)) }
{
    match rank {
        ValueRank::Scalar => value_of(alloc, kind, highest, table),
        ValueRank::List => list_value(alloc, kind, highest, table),
    }
}

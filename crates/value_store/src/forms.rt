//! How the values of a server stand in the tables, and how they are read again.
//!
//! A scalar whose numbers SQL has stands as an INTEGER, and a text as TEXT, so that a person can read them; the row's
//! `type` is then the number of the type (IEC 62541-6, 5.1.2). Everything else stands as a BLOB of its binary encoding
//! (IEC 62541-6, 5.2.2.16), whose first byte is the row's `type`: the number, 64 more with dimensions and 128 more for
//! a list. No value stands as NULL with type 0. No value has two forms.

ghost use Rattle.std.specs.Prelude.{◌≡◌, ◌≢◌, ◌<◌, ◌^◌, length, pos, slice_index_or, string_bytes, IfOk, IfErr, IfSome, OnOk, IsTrue, false};
ghost use Rattle.ua_types.specs.IdTexts.{id_text, id_of, IsNamed};
ghost use Rattle.ua_types.specs.declared.node_id.NodeId.{NodeId as NodeIdValue};
ghost use Rattle.ua_binary.specs.Variants.{variant_reading};
ghost use Rattle.ua_types.specs.Variants.{type_number};
ghost use Rattle.ua_types.specs.declared.variant.Variant.TheVariants.{String as StringVariant};
ghost use Rattle.sqlite.specs.declared.types.Value.TheVariants.{Int};
ghost use Rattle.sqlite.specs.Values.{or_null};
ghost use Rattle.value_store.specs.Faults.{IsOfRow};
ghost use Rattle.value_store.specs.Rows.{sql_of};
ghost use Rattle.value_store.specs.Forms.{whole, natural, truth_in, is_single as is_single_spec, is_small as is_small_spec, is_text as is_text_spec, is_plain as is_plain_spec, bytes_said, integer_said, text_said, value_said, time_said, said_of, IsSole, IsSmall, IsTruth, StandsAs};

use crate::fault::Fault;
use crate::rows::{Key, Scalar, StoredRow};
use std::alloc::{AllocError, Global};
use ua_binary::{Cursor, TakeFault, Wire};
use ua_types::{
    Content, DataValue, IdFault, Identifier, Moment, NodeId, Status, Text, Variant, write_id,
};

fn is_single<T>(content: &Content<T>) -> bool
    ensures { result ≡ is_single_spec content.now }
{
    match content {
        Content::Scalar(_) => true,
        _ => false,
    }
}

fn is_small(content: &Content<u64>) -> bool
    ensures { result ≡ is_small_spec content.now }
{
    match content {
        Content::Scalar(n) => *n < 1 << 63,
        _ => false,
    }
}

fn is_text(content: &Content<Text>) -> bool
    ensures { result ≡ is_text_spec content.now }
{
    match content {
        Content::Scalar(text) => !text.is_null(),
        _ => false,
    }
}

// Whether a value stands as an INTEGER or as TEXT.
fn is_plain(value: &Variant) -> bool
    ensures { result ≡ is_plain_spec value.now }
{
    match value {
        Variant::Boolean(content) => is_single(content),
        Variant::SByte(content) => is_single(content),
        Variant::Byte(content) => is_single(content),
        Variant::Int16(content) => is_single(content),
        Variant::UInt16(content) => is_single(content),
        Variant::Int32(content) => is_single(content),
        Variant::UInt32(content) => is_single(content),
        Variant::Int64(content) => is_single(content),
        Variant::UInt64(content) => is_small(content),
        Variant::DateTime(content) => is_single(content),
        Variant::StatusCode(content) => is_single(content),
        Variant::String(content) => is_text(content),
        _ => false,
    }
}

// ---- what is written of a value

// The bytes of a value.
fn bytes_of(alloc: Global, value: &Variant) -> Result<Vec<u8>, AllocError>
    ensures { IfOk result (λ bytes. whole (variant_reading bytes.items) ≡ Some value.now) }
{
    let mut bytes = Vec::new(alloc);
    value.put(&mut bytes)?;
    Ok(bytes)
}

// The one value that a content is, if it is no list.
fn sole<T: Copy>(content: &Content<T>) -> Option<T>
    ensures { IsSole content.now result }
{
    match content {
        Content::Scalar(value) => Some(*value),
        _ => None,
    }
}

// A number of 64 bits, where it fits an INTEGER.
fn small(content: &Content<u64>) -> Option<i64>
    ensures { IsSmall content.now result }
{
    match content {
        Content::Scalar(n) => { if *n < 1 << 63 { Some(*n as i64) } else { None } }
        _ => None,
    }
}

// A truth as a number.
fn truth(content: &Content<bool>) -> Option<i64>
    ensures { IsTruth content.now result }
{
    match content {
        Content::Scalar(false) => Some(0),
        Content::Scalar(true) => Some(1),
        _ => None,
    }
}

// A text that isn't null.
fn words(alloc: Global, content: &Content<Text>) -> Result<Option<Scalar>, AllocError>
    ensures { IfOk result (StandsAs (StringVariant content.now)) }
{
    match content {
        Content::Scalar(text) => match text.as_str() {
            None => Ok(None),
            Some(text) => Ok(Some(Scalar::Words(String::from_str(alloc, text)?))),
        },
        _ => Ok(None),
    }
}

// A value as an INTEGER or as TEXT, where it stands as one.
fn plain_of(alloc: Global, value: &Variant) -> Result<Option<Scalar>, AllocError>
    ensures { IfOk result (StandsAs value.now) }
{
    match value {
        Variant::Boolean(content) => Ok(truth(content).map(|n| Scalar::Integer(n))),
        Variant::SByte(content) => Ok(sole(content).map(|n| Scalar::Integer(n as i64))),
        Variant::Byte(content) => Ok(sole(content).map(|n| Scalar::Integer(n as i64))),
        Variant::Int16(content) => Ok(sole(content).map(|n| Scalar::Integer(n as i64))),
        Variant::UInt16(content) => Ok(sole(content).map(|n| Scalar::Integer(n as i64))),
        Variant::Int32(content) => Ok(sole(content).map(|n| Scalar::Integer(n as i64))),
        Variant::UInt32(content) => Ok(sole(content).map(|n| Scalar::Integer(n as i64))),
        Variant::Int64(content) => Ok(sole(content).map(|n| Scalar::Integer(n))),
        Variant::UInt64(content) => Ok(small(content).map(|n| Scalar::Integer(n))),
        Variant::DateTime(content) => Ok(sole(content).map(|moment| Scalar::Integer(moment.0))),
        Variant::StatusCode(content) => Ok(sole(content).map(|n| Scalar::Integer(n.0 as i64))),
        Variant::String(content) => words(alloc, content),
        _ => Ok(None),
    }
}

// The first byte, and 0 where there is none.
fn first_of(bytes: &[u8]) -> u8
    ensures { result ≡ slice_index_or bytes.now 0 0 }
{
    match bytes {
        [first, ..] => *first,
        [] => 0,
    }
}

// A value that stands as a BLOB, as that.
fn blob_of(alloc: Global, value: &Variant) -> Result<(u8, Scalar), AllocError>
    requires { is_plain_spec value.now ≡ false }
    ensures { IfOk result (λ p. value_said p.0 (sql_of p.1) ≡ Some (Some value.now)) }
{
    let bytes = bytes_of(alloc, value)?;
    Ok((first_of(&bytes), Scalar::Bytes(bytes)))
}

// A value as its type and what stands for it, and none as NULL.
fn scalar_of(alloc: Global, value: &Option<Variant>) -> Result<(u8, Scalar), AllocError>
    ensures { IfOk result (λ p. value_said p.0 (sql_of p.1) ≡ Some value.now) }
{
    match value {
        None => Ok((0, Scalar::Nothing)),
        Some(value) => match plain_of(alloc, value)? {
            Some(scalar) => Ok((value.type_number(), scalar)),
            None => blob_of(alloc, value),
        },
    }
}

fn ticks_of(moment: Option<Moment>) -> Option<i64>
    ensures { time_said (or_null Int result) ≡ Some moment }
{
    moment.map(|moment| moment.0)
}

// ---- what is read

// The value that all of the bytes encode.
fn value_in(alloc: Global, bytes: &[u8]) -> Result<Variant, Fault>
    ensures ok { IfOk result (λ value. whole (variant_reading bytes.now) ≡ Some value) }
    ensures err { IfErr result (λ e. e ≢ Fault.Memory → whole (variant_reading bytes.now) ≡ None) }
    ensures fault { IfErr result IsOfRow }
{
    let mut cursor = Cursor::new(bytes);
    match Variant::take(alloc, &mut cursor) {
        Ok(value) => {
            if cursor.rest().is_empty() {
                Ok(value)
            } else {
                Err(Fault::Unreadable)
            }
        }
        Err(TakeFault::Memory) => Err(Fault::Memory),
        Err(_) => Err(Fault::Unreadable),
    }
}

fn blob_variant(alloc: Global, kind: u8, bytes: &[u8]) -> Result<Variant, Fault>
    ensures value { IfOk result (λ value. bytes_said kind bytes.now ≡ Some value) }
    ensures fault { IfErr result IsOfRow }
{
    if kind != first_of(bytes) {
        return Err(Fault::Unreadable);
    }
    let value = value_in(alloc, bytes)?;
    if is_plain(&value) {
        return Err(Fault::Unreadable);
    }
    Ok(value)
}

fn text_variant(alloc: Global, kind: u8, text: &str) -> Result<Variant, Fault>
    ensures value { IfOk result (λ value. text_said kind text.now ≡ Some value) }
    ensures fault { IfErr result IsOfRow }
{
    if kind != 12 || text.len() >= 1 << 31 {
        return Err(Fault::Unreadable);
    }
    Ok(Variant::String(Content::Scalar(Text::from_str(alloc, text)?)))
}

fn truth_of(n: i64) -> Option<bool>
    ensures { IfSome result (λ truth. truth_in n ≡ Some truth) }
{
    match n {
        0 => Some(false),
        1 => Some(true),
        _ => None,
    }
}

fn integer_variant(kind: u8, n: i64) -> Option<Variant>
    ensures { IfSome result (λ value. integer_said kind n ≡ Some value) }
{
    match kind {
        1 => Some(Variant::Boolean(Content::Scalar(truth_of(n)?))),
        2 => Some(Variant::SByte(Content::Scalar(i8::try_from(n).ok()?))),
        3 => Some(Variant::Byte(Content::Scalar(u8::try_from(n).ok()?))),
        4 => Some(Variant::Int16(Content::Scalar(i16::try_from(n).ok()?))),
        5 => Some(Variant::UInt16(Content::Scalar(u16::try_from(n).ok()?))),
        6 => Some(Variant::Int32(Content::Scalar(i32::try_from(n).ok()?))),
        7 => Some(Variant::UInt32(Content::Scalar(u32::try_from(n).ok()?))),
        8 => Some(Variant::Int64(Content::Scalar(n))),
        9 => Some(Variant::UInt64(Content::Scalar(u64::try_from(n).ok()?))),
        13 => Some(Variant::DateTime(Content::Scalar(Moment(n)))),
        19 => Some(Variant::StatusCode(Content::Scalar(Status(u32::try_from(n).ok()?)))),
        _ => None,
    }
}

fn variant_of(alloc: Global, kind: u8, scalar: &Scalar) -> Result<Option<Variant>, Fault>
    ensures value { IfOk result (λ value. value_said kind (sql_of scalar.now) ≡ Some value) }
    ensures fault { IfErr result IsOfRow }
{
    match scalar {
        Scalar::Nothing => {
            if kind == 0 {
                Ok(None)
            } else {
                Err(Fault::Unreadable)
            }
        }
        Scalar::Integer(n) => Ok(Some(integer_variant(kind, *n).ok_or(Fault::Unreadable)?)),
        Scalar::Words(text) => Ok(Some(text_variant(alloc, kind, text.as_str())?)),
        Scalar::Bytes(bytes) => Ok(Some(blob_variant(alloc, kind, bytes.as_slice())?)),
    }
}

fn moment_of(ticks: Option<i64>) -> Option<Moment>
    ensures { time_said (or_null Int ticks) ≡ Some result }
{
    ticks.map(|ticks| Moment(ticks))
}

fn status_of(status: i64) -> Result<Status, Fault>
    ensures status { IfOk result (λ s. natural status ≡ Some s.0) }
    ensures fault { IfErr result IsOfRow }
{
    Ok(Status(u32::try_from(status).ok().ok_or(Fault::Unreadable)?))
}

fn kind_of(kind: i64) -> Result<u8, Fault>
    ensures kind { IfOk result (λ k. natural kind ≡ Some k) }
    ensures fault { IfErr result IsOfRow }
{
    u8::try_from(kind).ok().ok_or(Fault::Unreadable)
}

// ---- rows

fn is_named(identifier: &Identifier) -> bool
    ensures named { IsTrue result → IsNamed identifier.now }
    ensures all { IsNamed identifier.now → IsTrue result }
{
    match identifier {
        Identifier::Numeric(_) => true,
        Identifier::String(text) => !text.is_null(),
        Identifier::Guid(_) => true,
        Identifier::Opaque(bytes) => bytes.as_slice().is_some(),
    }
}

// The text of an id that is read again of it, as each is that isn't null.
fn id_words(alloc: Global, id: &NodeId) -> Result<String, Fault>
    ensures text { IfOk result (λ t. string_bytes t ≡ id_text id.now) }
    ensures again { OnOk result (id_of (id_text id.now) ≡ Ok id.now) }
    ensures fault { IfErr result IsOfRow }
    ensures named { IfErr result (λ e. e ≡ Fault.Unreadable → IsNamed id.now.identifier → ⊥) }
{
    if !is_named(&id.identifier) {
        return Err(Fault::Unreadable);
    }
    Ok(write_id(alloc, id)?)
}

/// The id that a text is written for. Another text of it is refused, so that an id has one row.
pub fn id_in(alloc: Global, text: &str) -> Result<NodeId, Fault>
    ensures text { IfOk result (λ id. id_text id ≡ text.now) }
    ensures again { IfOk result (λ id. id_of (id_text id) ≡ Ok id) }
    ensures fault { IfErr result IsOfRow }
    ensures unread { IfErr result (λ e. e ≡ Fault.Unreadable → (id : NodeIdValue) → id_text id ≡ text.now → id_of (id_text id) ≡ Ok id → ⊥) }
{
    let id = match NodeId::parse(alloc, text) {
        Ok(id) => id,
        Err(IdFault::Memory) => return Err(Fault::Memory),
        Err(_) => return Err(Fault::Unreadable),
    };
    let written = write_id(alloc, &id)?;
    if written.as_str() != text {
        return Err(Fault::Unreadable);
    }
    Ok(id)
}

/// The row of a variable's value, in either table.
pub fn row_of(alloc: Global, id: &NodeId, value: &DataValue) -> Result<StoredRow, Fault>
    ensures node { IfOk result (λ row. string_bytes row.node ≡ id_text id.now) }
    ensures again { OnOk result (id_of (id_text id.now) ≡ Ok id.now) }
    ensures source { IfOk result (λ row. time_said (or_null Int row.source_time) ≡ Some value.now.source_time) }
    ensures said { IfOk result (λ row. said_of row ≡ Some value.now) }
    ensures fault { IfErr result IsOfRow }
    ensures named { IfErr result (λ e. e ≡ Fault.Unreadable → IsNamed id.now.identifier → ⊥) }
{
    let node = id_words(alloc, id)?;
    let (kind, scalar) = scalar_of(alloc, &value.value)?;
    Ok(StoredRow {
        node,
        kind: kind as i64,
        value: scalar,
        status: value.status.0 as i64,
        source_time: ticks_of(value.source_time),
        server_time: ticks_of(value.server_time),
    })
}

/// The key of the row of a value that falls out.
pub fn key_of(alloc: Global, id: &NodeId, time: Moment) -> Result<Key, Fault>
    ensures key { IfOk result (λ key. (string_bytes key.node ≡ id_text id.now) × (key.time ≡ time.0)) }
    ensures again { OnOk result (id_of (id_text id.now) ≡ Ok id.now) }
    ensures fault { IfErr result IsOfRow }
    ensures named { IfErr result (λ e. e ≡ Fault.Unreadable → IsNamed id.now.identifier → ⊥) }
{
    let node = id_words(alloc, id)?;
    Ok(Key { node, time: time.0 })
}

/// The value that a row says.
pub fn value_of(alloc: Global, row: &StoredRow) -> Result<DataValue, Fault>
    ensures source { IfOk result (λ v. time_said (or_null Int row.now.source_time) ≡ Some v.source_time) }
    ensures said { IfOk result (λ v. said_of row.now ≡ Some v) }
    ensures fault { IfErr result IsOfRow }
{
    let value = variant_of(alloc, kind_of(row.kind)?, &row.value)?;
    Ok(DataValue {
        status: status_of(row.status)?,
        source_time: moment_of(row.source_time),
        server_time: moment_of(row.server_time),
        value,
    })
}

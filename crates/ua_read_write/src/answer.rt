//! The answer to one read.

ghost use Rattle.std.specs.Prelude.{◌≡◌, ◌<◌, ◌++◌, ℕ, List, length, Ok, IfOk, IfSome, IsOk, OnOk, OnErr, is_some};
ghost use Rattle.ua_binary.specs.DataValues.{data_value_reading, data_value_encoding, optional_reading, optional_encoding};
ghost use Rattle.ua_binary.specs.Parts.{flag};
ghost use Rattle.ua_binary.specs.Reading.{Extends, IsReadAgain};
ghost use Rattle.ua_binary.specs.Scalars.{moment_reading, moment_encoding};
ghost use Rattle.ua_read_write.specs.Answers.{scalar_encoding};
ghost use Rattle.ua_read_write.specs.Attributes.{seen, with_part_alone};
ghost use Rattle.ua_read_write.specs.Reading.{dated as dated_spec, refused as refused_spec, source_time_of, server_time_of};
ghost use Rattle.ua_types.specs.Plain.{IsPlainValue};

use crate::attributes::Attribute;
use crate::copied_parts::copied_part;
use crate::index_range::IndexRange;
use crate::timestamps::Timestamps;
use std::alloc::{AllocError, Global};
use std::marker::Model;
use ua_binary::{BorrowedDataValue, BorrowedVariant, Wire, Written};
use ua_space::Variable;
use ua_types::{Content, Copyable, DataValue, Moment, NodeId, Shared, Status, Variant};

/// The answer to one read: the attribute with the times that are wanted, or why it can't be read.
///
/// It borrows what it shows. As a [`Written`] it goes straight into a response, and [`Answer::copy`]
/// makes a data value of its own. Contracts see it as that [`DataValue`].
#[derive(Debug, Drop)]
pub struct Answer<'a> {
    // What stands in the node, or why it isn't told.
    attribute: Result<Attribute<'a>, Status>,
    // The server's clock, which is the server time of what is told.
    clock: Moment,
    // Which times the client wants.
    timestamps: Timestamps,
}

impl<'a> Model for Answer<'a> {
    ghost use Rattle.std.specs.Result.{result_map_both};
    ghost use Rattle.ua_types.specs.declared.data_value.DataValue.{DataValue};
    ghost use Rattle.ua_read_write.specs.Attributes.{seen};
    ghost use Rattle.ua_read_write.specs.Reading.{answered};

    ghost Value = { DataValue };

    ghost view = { λ a. answered a.clock a.timestamps (result_map_both seen (λ code. code) a.attribute) };
}

// What an answer has as the server's time.
fn server_time(clock: Moment, timestamps: Timestamps) -> Option<Moment>
    ensures { result ≡ server_time_of clock timestamps }
{
    if timestamps.has_server() {
        Some(clock)
    } else {
        None
    }
}

// What the answer for a variable's value has as the source's time.
fn source_time(variable: &Variable, timestamps: Timestamps) -> Option<Moment>
    ensures { result ≡ source_time_of timestamps variable.now.value }
{
    if timestamps.has_source() {
        variable.value.source_time
    } else {
        None
    }
}

// Writes a time that is there.
#[tactic(auto, unfolding(ua_binary::specs::DataValues::optional_reading, ua_binary::specs::DataValues::optional_encoding))]
fn write_time(time: Option<Moment>, out: &mut Vec<u8>) -> Result<(), AllocError>
    ensures ok { OnOk result (out.new.items ≡ out.old.items ++ optional_encoding moment_encoding time) }
    ensures err { OnErr result (Extends out.old.items out.new.items) }
    ensures again { OnOk result ((x : List ℕ) → optional_reading (flag (is_some time)) moment_reading (optional_encoding moment_encoding time ++ x) ≡ Ok (time, x)) }
{
    match time {
        None => Ok(()),
        Some(time) => {
            time.encode(out)?;
            Ok(())
        }
    }
}

// Writes one value of the type with this number, good and without a source time.
#[tactic(auto, using(ua_binary::proofs::Extending::extends_more))]
fn write_scalar<T: Wire>(
    number: u8,
    value: &T,
    server_time: Option<Moment>,
    out: &mut Vec<u8>,
) -> Result<(), AllocError>
    ensures ok { OnOk result (out.new.items ≡ out.old.items ++ scalar_encoding number T.encoding value.now server_time) }
    ensures err { OnErr result (Extends out.old.items out.new.items) }
    ensures value { OnOk result (IsReadAgain T.reading T.encoding value.now) }
    ensures time { OnOk result ((x : List ℕ) → optional_reading (flag (is_some server_time)) moment_reading (optional_encoding moment_encoding server_time ++ x) ≡ Ok (server_time, x)) }
{
    let mask = match server_time {
        None => 1u8,
        Some(_) => 9,
    };
    mask.encode(out)?;
    number.encode(out)?;
    value.encode(out)?;
    write_time(server_time, out)?;
    Ok(())
}

// These elements of a variable's list, with the value's status and with these times.
fn part_of_value<'a>(
    variable: &'a Variable,
    range: IndexRange,
    source_time: Option<Moment>,
    server_time: Option<Moment>,
) -> BorrowedDataValue<'a>
    ensures { result ≡ record { value = (with_part_alone range variable.entry.now).value.value; status = variable.entry.now.value.status; source_time = source_time; server_time = server_time } }
{
    let status = variable.value.status;
    match &variable.value.value {
        None => BorrowedDataValue::new(None, status, source_time, server_time),
        Some(value) => {
            let part = BorrowedVariant::part(value, range.first as usize, range.count as usize);
            BorrowedDataValue::of(part, status, source_time, server_time)
        }
    }
}

#[tactic(auto, using(crate::proofs::Plain::plain_answers))]
fn write_attribute(
    attribute: Attribute<'_>,
    clock: Moment,
    timestamps: Timestamps,
    out: &mut Vec<u8>,
) -> Result<(), AllocError>
    ensures ok { OnOk result (out.new.items ≡ out.old.items ++ data_value_encoding (dated_spec clock timestamps (seen attribute.entry))) }
    ensures err { OnErr result (Extends out.old.items out.new.items) }
    ensures again { OnOk result (IsReadAgain data_value_reading data_value_encoding (dated_spec clock timestamps (seen attribute.entry))) }
    ensures some { OnOk result (0 < length (data_value_encoding (dated_spec clock timestamps (seen attribute.entry)))) }
{
    let server_time = server_time(clock, timestamps);
    match attribute {
        Attribute::Value(variable) => BorrowedDataValue::new(
            variable.value.value.as_ref(),
            variable.value.status,
            source_time(variable, timestamps),
            server_time,
        )
        .write(out),
        Attribute::Part(variable, range) => part_of_value(
            variable,
            range,
            source_time(variable, timestamps),
            server_time,
        )
        .write(out),
        Attribute::Id(id) => write_scalar(17, id, server_time, out),
        Attribute::Name(name) => write_scalar(20, name, server_time, out),
        Attribute::Words(words) => write_scalar(21, words, server_time, out),
        Attribute::Type(number) => {
            write_scalar(17, &NodeId::numeric(0, number as u32), server_time, out)
        }
        Attribute::Boolean(truth) => write_scalar(1, &truth, server_time, out),
        Attribute::Byte(number) => write_scalar(3, &number, server_time, out),
        Attribute::Int32(number) => write_scalar(6, &number, server_time, out),
        Attribute::UInt32(number) => write_scalar(7, &number, server_time, out),
    }
}

impl Written for Answer<'_> {
    ghost reading = { data_value_reading };

    ghost encoding = { data_value_encoding };

    fn write(&self, out: &mut Vec<u8>) -> Result<(), AllocError> {
        match self.attribute {
            Ok(attribute) => write_attribute(attribute, self.clock, self.timestamps, out),
            Err(status) => BorrowedDataValue::new(None, status, None, None).write(out),
        }
    }
}

// A refusal as a data value.
pub(crate) fn refused(status: Status) -> DataValue
    ensures { result ≡ refused_spec status }
{
    DataValue {
        value: None,
        status,
        source_time: None,
        server_time: None,
    }
}

// An attribute, with the times that are wanted, as a data value of its own. One that is plain takes no memory.
pub(crate) fn copied(
    alloc: Global,
    attribute: Attribute<'_>,
    clock: Moment,
    timestamps: Timestamps,
) -> Result<DataValue, AllocError>
    ensures copy { IfOk result (λ copy. copy ≡ dated_spec clock timestamps (seen attribute.entry)) }
    ensures plain { IfSome (dated_spec clock timestamps (seen attribute.entry)).value IsPlainValue → IsOk result }
{
    let server_time = server_time(clock, timestamps);
    let value = match attribute {
        Attribute::Value(variable) => {
            let mut value = variable.value.copy(alloc)?;
            value.source_time = source_time(variable, timestamps);
            value.server_time = server_time;
            return Ok(value);
        }
        Attribute::Part(variable, range) => {
            let value = match &variable.value.value {
                None => None,
                Some(value) => Some(copied_part(alloc, value, range)?),
            };
            return Ok(DataValue {
                value,
                status: variable.value.status,
                source_time: source_time(variable, timestamps),
                server_time,
            });
        }
        Attribute::Id(id) => Variant::NodeId(Content::Scalar(id.copy(alloc)?)),
        Attribute::Name(name) => Variant::QualifiedName(Content::Scalar(name.copy(alloc)?)),
        Attribute::Words(words) => {
            Variant::LocalizedText(Shared::new(alloc, Content::Scalar(words.copy(alloc)?))?)
        }
        Attribute::Type(number) => {
            Variant::NodeId(Content::Scalar(NodeId::numeric(0, number as u32)))
        }
        Attribute::Boolean(truth) => Variant::Boolean(Content::Scalar(truth)),
        Attribute::Byte(number) => Variant::Byte(Content::Scalar(number)),
        Attribute::Int32(number) => Variant::Int32(Content::Scalar(number)),
        Attribute::UInt32(number) => Variant::UInt32(Content::Scalar(number)),
    };
    Ok(DataValue {
        value: Some(value),
        status: Status::GOOD,
        source_time: None,
        server_time,
    })
}

impl<'a> Answer<'a> {
    ghost use Rattle.std.specs.Result.{result_map_both};
    ghost use Rattle.ua_read_write.specs.Reading.{answered};

    // The answer that shows an attribute, or refuses to.
    pub(crate) fn new(
        attribute: Result<Attribute<'a>, Status>,
        clock: Moment,
        timestamps: Timestamps,
    ) -> Answer<'a>
        ensures { result ≡ answered clock timestamps (result_map_both seen (λ code. code) attribute.entry) }
    {
        Answer {
            attribute,
            clock,
            timestamps,
        }
    }

    /// The answer as a data value of its own. It takes no memory where it has no value, and where its value holds no text, no bytes
    /// and no list.
    pub fn copy(&self, alloc: Global) -> Result<DataValue, AllocError>
        ensures copy { IfOk result (λ copy. copy ≡ self.now) }
        ensures plain { IfSome self.now.value IsPlainValue → IsOk result }
    {
        match self.attribute {
            Ok(attribute) => copied(alloc, attribute, self.clock, self.timestamps),
            Err(status) => Ok(refused(status)),
        }
    }
}

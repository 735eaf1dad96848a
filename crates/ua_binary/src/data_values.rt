//! Values with their status and times.

ghost use Rattle.std.specs.Prelude.{◌≡◌, ◌<◌, ◌++◌, is_some, ℕ, List, Some, Ok, Err, OnOk, OnErr, option_map};
ghost use Rattle.ua_binary.specs.declared.fault.TakeFault.TheVariants.{Memory};
ghost use Rattle.ua_binary.specs.Reading.{Reads, ReadsInto, Extends};
ghost use Rattle.ua_binary.specs.Backing.{IsBackedOrBoxed};
ghost use Rattle.ua_binary.specs.Parts.{flag};
ghost use Rattle.ua_binary.specs.Variants.{variant_reading};
ghost use Rattle.ua_binary.specs.DataValues.{optional_reading, optional_encoding, data_value_reading, data_value_encoding};

use crate::borrowed::BorrowedVariant;
use crate::cursor::Cursor;
use crate::fault::TakeFault;
use crate::variants::decode_variant;
use crate::wire::Wire;
use crate::written::Written;
use std::alloc::{AllocError, Global};
use std::marker::Model;
use ua_types::{DataValue, Moment, Status, Variant};

/// A value with its status and times, where the value is borrowed: what is stored is written without a
/// copy, and with the times that an answer is to have. Contracts see it as the [`DataValue`].
#[derive(Debug, Drop)]
pub struct BorrowedDataValue<'a> {
    value: Option<BorrowedVariant<'a>>,
    status: Status,
    source_time: Option<Moment>,
    server_time: Option<Moment>,
}

impl<'a> Model for BorrowedDataValue<'a> {
    ghost use Rattle.ua_types.specs.declared.data_value.DataValue.{DataValue};

    ghost Value = { DataValue };

    ghost view = { λ v. record { value = v.value; status = v.status; source_time = v.source_time; server_time = v.server_time } };
}

impl<'a> BorrowedDataValue<'a> {
    /// A data value of these parts.
    pub fn new(
        value: Option<&'a Variant>,
        status: Status,
        source_time: Option<Moment>,
        server_time: Option<Moment>,
    ) -> BorrowedDataValue<'a>
        ensures { result ≡ record { value = option_map (λ x. x.now) value.entry; status = status; source_time = source_time; server_time = server_time } }
    {
        BorrowedDataValue {
            value: match value {
                None => None,
                Some(value) => Some(BorrowedVariant::whole(value)),
            },
            status,
            source_time,
            server_time,
        }
    }

    /// A data value of these parts, whose value may be a part of one that is stored.
    pub fn of(
        value: BorrowedVariant<'a>,
        status: Status,
        source_time: Option<Moment>,
        server_time: Option<Moment>,
    ) -> BorrowedDataValue<'a>
        ensures { result ≡ record { value = Some value.entry; status = status; source_time = source_time; server_time = server_time } }
    {
        BorrowedDataValue {
            value: Some(value),
            status,
            source_time,
            server_time,
        }
    }
}

// Reads a part where its bit is set.
#[tactic(auto, unfolding(crate::specs::DataValues::optional_reading))]
fn decode_where_set<T: Wire>(
    alloc: Global,
    bit: u8,
    cursor: &mut Cursor<'_>,
) -> Result<Option<T>, TakeFault>
    ensures reads { Reads result cursor.new (optional_reading bit T.reading cursor.old) }
    ensures backed { result ≡ Err Memory → T.wants_memory cursor.new }
{
    if bit == 0 {
        return Ok(None);
    }
    Ok(Some(T::decode(alloc, cursor)?))
}

// Reads the value where its bit is set. No value is in the place where it isn't.
#[tactic(auto, unfolding(crate::specs::DataValues::optional_reading))]
fn decode_value_where_set(
    alloc: Global,
    bit: u8,
    cursor: &mut Cursor<'_>,
    place: &mut Option<Variant>,
) -> Result<(), TakeFault>
    ensures reads { ReadsInto result place.new cursor.new (optional_reading bit variant_reading cursor.old) }
    ensures backed { result ≡ Err Memory → IsBackedOrBoxed cursor.new }
{
    if bit == 0 {
        *place = None;
        return Ok(());
    }
    decode_variant(alloc, cursor, place.insert(Variant::Null))
}

// 1 for a part that is there.
fn bit<T>(part: Option<&T>) -> u8
    ensures bit { result ≡ flag (is_some part.entry) }
    ensures small { result < 2 }
{
    match part {
        None => 0,
        Some(_) => 1,
    }
}

// Writes a part that is there.
#[tactic(auto, unfolding(crate::specs::DataValues::optional_reading, crate::specs::DataValues::optional_encoding))]
#[inline(always)]
fn write_if_some<T: Written>(part: Option<&T>, out: &mut Vec<u8>) -> Result<(), AllocError>
    ensures ok { OnOk result (out.new.items ≡ out.old.items ++ optional_encoding T.encoding (option_map (λ p. p.now) part.entry)) }
    ensures err { OnErr result (Extends out.old.items out.new.items) }
    ensures again { OnOk result ((x : List ℕ) → optional_reading (flag (is_some part.entry)) T.reading (optional_encoding T.encoding (option_map (λ p. p.now) part.entry) ++ x) ≡ Ok (option_map (λ p. p.now) part.entry, x)) }
{
    match part {
        None => Ok(()),
        Some(part) => {
            part.write(out)?;
            Ok(())
        }
    }
}

#[tactic(auto, using(crate::proofs::Extending::extends_more, crate::proofs::Masks::data_value_again), unfolding(crate::specs::DataValues::data_value_reading, crate::specs::DataValues::data_value_encoding))]
impl Written for BorrowedDataValue<'_> {
    ghost reading = { data_value_reading };

    ghost encoding = { data_value_encoding };

    #[inline(always)]
    fn write(&self, out: &mut Vec<u8>) -> Result<(), AllocError> {
        let status = if self.status.0 == 0 {
            None
        } else {
            Some(&self.status)
        };
        let source_time = self.source_time.as_ref();
        let server_time = self.server_time.as_ref();
        let times = 4 * bit(source_time) + 8 * bit(server_time);
        let value = self.value.as_ref();
        (bit(value) + 2 * bit(status) + times).encode(out)?;
        write_if_some(value, out)?;
        write_if_some(status, out)?;
        write_if_some(source_time, out)?;
        write_if_some(server_time, out)?;
        Ok(())
    }
}

#[tactic(auto, using(crate::proofs::Backing::length_is_backed), unfolding(crate::specs::DataValues::data_value_reading))]
impl Wire for DataValue {
    ghost reading = { data_value_reading };

    ghost encoding = { data_value_encoding };

    ghost wants_memory = { IsBackedOrBoxed };

    fn decode(alloc: Global, cursor: &mut Cursor<'_>) -> Result<DataValue, TakeFault> {
        let mask = u8::decode(alloc, cursor)?;
        let mut value = None;
        decode_value_where_set(alloc, mask % 2, cursor, &mut value)?;
        let status = decode_where_set::<Status>(alloc, mask / 2 % 2, cursor)?;
        let source_time = decode_where_set::<Moment>(alloc, mask / 4 % 2, cursor)?;
        let _picoseconds = decode_where_set::<u16>(alloc, mask / 16 % 2, cursor)?;
        let server_time = decode_where_set::<Moment>(alloc, mask / 8 % 2, cursor)?;
        let _picoseconds = decode_where_set::<u16>(alloc, mask / 32 % 2, cursor)?;
        Ok(DataValue {
            value,
            status: status.unwrap_or(Status::GOOD),
            source_time,
            server_time,
        })
    }

    fn encode(&self, out: &mut Vec<u8>) -> Result<(), AllocError> {
        BorrowedDataValue::new(
            self.value.as_ref(),
            self.status,
            self.source_time,
            self.server_time,
        )
        .write(out)
    }
}

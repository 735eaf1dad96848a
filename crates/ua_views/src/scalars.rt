//! Numbers and the like, which are the same looked at and read.

ghost use Rattle.std.specs.Prelude.{◌≡◌, ◌≢◌, Err};
ghost use Rattle.std.specs.Int.{w16, w32, w64};
ghost use Rattle.ua_binary.specs.declared.fault.TakeFault.TheVariants.{Memory};
ghost use Rattle.ua_binary.specs.Reading.{Reads};
ghost use Rattle.ua_binary.specs.Numbers.{byte_reading, sbyte_reading, number_reading, signed_reading, boolean_reading};
ghost use Rattle.ua_binary.specs.Floats.{float_reading, double_reading};
ghost use Rattle.ua_binary.specs.Enumerations.{enumeration_reading};
ghost use Rattle.ua_binary.specs.Guids.{guid_reading};
ghost use Rattle.ua_binary.specs.Scalars.{moment_reading, status_reading, duration_reading};

use crate::view::{Readable, View};
use ua_binary::{Cursor, Enumeration, TakeFault};
use ua_types::{Double, Duration, Float, Guid, Moment, Status};

impl Readable for bool {
    ghost reading = { boolean_reading };
}

#[tactic(auto, unfolding(ua_binary::specs::Numbers::boolean_reading))]
impl<'a> View<'a> for bool {
    fn look(cursor: &mut Cursor<'a>) -> Result<bool, TakeFault> {
        let byte = cursor.byte()?;
        Ok(byte != 0)
    }
}

impl Readable for u8 {
    ghost reading = { byte_reading };
}

impl<'a> View<'a> for u8 {
    fn look(cursor: &mut Cursor<'a>) -> Result<u8, TakeFault> {
        cursor.byte()
    }
}

impl Readable for u16 {
    ghost reading = { number_reading w16 };
}

impl<'a> View<'a> for u16 {
    fn look(cursor: &mut Cursor<'a>) -> Result<u16, TakeFault> {
        cursor.short_number()
    }
}

impl Readable for u32 {
    ghost reading = { number_reading w32 };
}

impl<'a> View<'a> for u32 {
    fn look(cursor: &mut Cursor<'a>) -> Result<u32, TakeFault> {
        cursor.number()
    }
}

impl Readable for u64 {
    ghost reading = { number_reading w64 };
}

impl<'a> View<'a> for u64 {
    fn look(cursor: &mut Cursor<'a>) -> Result<u64, TakeFault> {
        cursor.long_number()
    }
}

impl Readable for i8 {
    ghost reading = { sbyte_reading };
}

#[tactic(auto, unfolding(ua_binary::specs::Numbers::sbyte_reading))]
impl<'a> View<'a> for i8 {
    fn look(cursor: &mut Cursor<'a>) -> Result<i8, TakeFault> {
        let byte = cursor.byte()?;
        Ok(byte.cast_signed())
    }
}

impl Readable for i16 {
    ghost reading = { signed_reading w16 };
}

#[tactic(auto, unfolding(ua_binary::specs::Numbers::signed_reading))]
impl<'a> View<'a> for i16 {
    fn look(cursor: &mut Cursor<'a>) -> Result<i16, TakeFault> {
        let number = cursor.short_number()?;
        Ok(number.cast_signed())
    }
}

impl Readable for i32 {
    ghost reading = { signed_reading w32 };
}

#[tactic(auto, unfolding(ua_binary::specs::Numbers::signed_reading))]
impl<'a> View<'a> for i32 {
    fn look(cursor: &mut Cursor<'a>) -> Result<i32, TakeFault> {
        let number = cursor.number()?;
        Ok(number.cast_signed())
    }
}

impl Readable for i64 {
    ghost reading = { signed_reading w64 };
}

#[tactic(auto, unfolding(ua_binary::specs::Numbers::signed_reading))]
impl<'a> View<'a> for i64 {
    fn look(cursor: &mut Cursor<'a>) -> Result<i64, TakeFault> {
        let number = cursor.long_number()?;
        Ok(number.cast_signed())
    }
}

impl Readable for Guid {
    ghost reading = { guid_reading };
}

impl<'a> View<'a> for Guid {
    fn look(cursor: &mut Cursor<'a>) -> Result<Guid, TakeFault> {
        cursor.guid()
    }
}

impl Readable for Moment {
    ghost reading = { moment_reading };
}

#[tactic(auto, unfolding(ua_binary::specs::Scalars::moment_reading, ua_binary::specs::Numbers::signed_reading))]
impl<'a> View<'a> for Moment {
    fn look(cursor: &mut Cursor<'a>) -> Result<Moment, TakeFault> {
        let number = cursor.long_number()?;
        Ok(Moment(number.cast_signed()))
    }
}

impl Readable for Status {
    ghost reading = { status_reading };
}

#[tactic(auto, unfolding(ua_binary::specs::Scalars::status_reading))]
impl<'a> View<'a> for Status {
    fn look(cursor: &mut Cursor<'a>) -> Result<Status, TakeFault> {
        Ok(Status(cursor.number()?))
    }
}

impl Readable for Duration {
    ghost reading = { duration_reading };
}

#[tactic(auto, unfolding(ua_binary::specs::Scalars::duration_reading))]
impl<'a> View<'a> for Duration {
    fn look(cursor: &mut Cursor<'a>) -> Result<Duration, TakeFault> {
        Ok(Duration(cursor.eight_octets()?))
    }
}

impl Readable for Float {
    ghost reading = { float_reading };
}

#[tactic(auto, unfolding(ua_binary::specs::Floats::float_reading))]
impl<'a> View<'a> for Float {
    fn look(cursor: &mut Cursor<'a>) -> Result<Float, TakeFault> {
        Ok(Float(cursor.four_octets()?))
    }
}

impl Readable for Double {
    ghost reading = { double_reading };
}

#[tactic(auto, unfolding(ua_binary::specs::Floats::double_reading))]
impl<'a> View<'a> for Double {
    fn look(cursor: &mut Cursor<'a>) -> Result<Double, TakeFault> {
        Ok(Double(cursor.eight_octets()?))
    }
}

/// Looks at an enumeration and moves past it. At an `Err` the cursor stands where the fault is.
///
/// It stands for a [`View`] of each enumeration: one `impl` for all of them would be a second match for every type that
/// is [`Readable`].
#[tactic(auto, unfolding(ua_binary::specs::Enumerations::enumeration_reading, ua_binary::specs::Numbers::signed_reading))]
pub fn look_enumeration<E: Enumeration>(cursor: &mut Cursor<'_>) -> Result<E, TakeFault>
    ensures reads { Reads result cursor.new (enumeration_reading E.of_number cursor.old) }
    ensures no_memory { result ≢ Err Memory }
{
    let number = cursor.number()?;
    Ok(E::from_number(number.cast_signed()))
}

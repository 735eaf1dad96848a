//! Values with their status and times.

ghost use Rattle.std.specs.Prelude.{◌≡◌, ◌≢◌, Err, IfSome, IfOk, IsOk};
ghost use Rattle.ua_binary.specs.declared.fault.TakeFault.TheVariants.{Memory};
ghost use Rattle.ua_binary.specs.DataValues.{optional_reading, data_value_reading};
ghost use Rattle.ua_binary.specs.Reading.{Reads};
ghost use Rattle.ua_types.specs.Plain.{IsPlainValue};

use crate::variants::VariantView;
use crate::view::{Readable, View};
use std::alloc::{AllocError, Global};
use std::marker::Model;
use ua_binary::{Cursor, TakeFault};
use ua_types::{DataValue, Moment, Status};

/// A [`DataValue`] in the bytes that it stands in.
#[derive(Debug)]
pub struct DataValueView<'a> {
    /// The value, where there is one.
    pub value: Option<VariantView<'a>>,
    /// How good the value is. [`Status::GOOD`] where nothing is said.
    pub status: Status,
    /// When the source had the value.
    pub source_time: Option<Moment>,
    /// When the server learnt of it, or knew it to be still so.
    pub server_time: Option<Moment>,
}

impl<'a> Model for DataValueView<'a> {
    ghost use Rattle.ua_types.specs.declared.data_value.DataValue.{DataValue};

    ghost Value = { DataValue };

    ghost view = { λ v. record { value = v.value; status = v.status; source_time = v.source_time; server_time = v.server_time } };
}

// Written out, so that a proof sees a drop as one call and not as its cases.
impl<'a> Drop for DataValueView<'a> {
    fn drop(self) {
        let DataValueView {
            value: _,
            status: _,
            source_time: _,
            server_time: _,
        } = self;
    }
}

impl<'a> DataValueView<'a> {
    /// A copy to keep. It takes no memory where that of its value takes none ([`VariantView::to_value`]).
    pub fn to_value(&self, alloc: Global) -> Result<DataValue, AllocError>
        ensures copy { IfOk result (λ value. value ≡ self.now) }
        ensures plain { IfSome self.now.value IsPlainValue → IsOk result }
    {
        let value = match &self.value {
            None => None,
            Some(value) => Some(value.to_value(alloc)?),
        };
        Ok(DataValue {
            value,
            status: self.status,
            source_time: self.source_time,
            server_time: self.server_time,
        })
    }
}

// Looks at a part where its bit is set. Inlined, as the values are that it looks at in a request's list.
#[tactic(auto, unfolding(ua_binary::specs::DataValues::optional_reading))]
#[inline(always)]
fn look_where_set<'a, T: View<'a>>(bit: u8, cursor: &mut Cursor<'a>) -> Result<Option<T>, TakeFault>
    ensures reads { Reads result cursor.new (optional_reading bit T.reading cursor.old) }
    ensures no_memory { result ≢ Err Memory }
{
    if bit == 0 {
        return Ok(None);
    }
    Ok(Some(T::look(cursor)?))
}

impl<'a> Readable for DataValueView<'a> {
    ghost reading = { data_value_reading };
}

#[tactic(auto, unfolding(ua_binary::specs::DataValues::data_value_reading))]
impl<'a> View<'a> for DataValueView<'a> {
    // Inlined into the loop over a request's list: a call for each element costs more than it does.
    #[inline(always)]
    fn look(cursor: &mut Cursor<'a>) -> Result<DataValueView<'a>, TakeFault> {
        let mask = cursor.byte()?;
        let value = look_where_set::<VariantView<'a>>(mask % 2, cursor)?;
        let status = look_where_set::<Status>(mask / 2 % 2, cursor)?;
        let source_time = look_where_set::<Moment>(mask / 4 % 2, cursor)?;
        let _picoseconds = look_where_set::<u16>(mask / 16 % 2, cursor)?;
        let server_time = look_where_set::<Moment>(mask / 8 % 2, cursor)?;
        let _picoseconds = look_where_set::<u16>(mask / 32 % 2, cursor)?;
        Ok(DataValueView {
            value,
            status: status.unwrap_or(Status::GOOD),
            source_time,
            server_time,
        })
    }
}

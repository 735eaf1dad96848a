//! Values with their status and times.

ghost use Rattle.std.specs.Prelude.{◌≡◌, IfSome};
ghost use Rattle.ua_types.specs.DataValues.{value_since};
ghost use Rattle.ua_types.specs.Plain.{IsPlainValue};

use crate::copyable::Copyable;
use crate::moment::Moment;
use crate::status::Status;
use crate::variant::Variant;
use std::alloc::{AllocError, Global};

/// A value with its status and times (DataValue, IEC 62541-6, 5.2.2.17).
///
/// In the order they go by status and times, which are declared first, then by value; what is absent comes first.
#[derive(Debug, PartialEq, Eq, PartialOrd, Ord)]
pub struct DataValue {
    /// How good the value is. [`Status::GOOD`] where nothing is said.
    pub status: Status,
    /// When the source had the value.
    pub source_time: Option<Moment>,
    /// When the server learnt of it, or knew it to be still so.
    pub server_time: Option<Moment>,
    /// The value, where there is one.
    pub value: Option<Variant>,
}

impl DataValue {
    /// A value that is good since a moment, to the source and to the server.
    pub fn since(moment: Moment, value: Variant) -> DataValue
        ensures { result ≡ value_since moment value }
    {
        DataValue {
            value: Some(value),
            status: Status::GOOD,
            source_time: Some(moment),
            server_time: Some(moment),
        }
    }

    /// The value itself, where there is one.
    pub fn into_value(self) -> Option<Variant>
        ensures { result ≡ self.value }
    {
        let DataValue {
            value,
            status: _,
            source_time: _,
            server_time: _,
        } = self;
        value
    }
}

// Written out, so that a proof sees a drop as one call and not as its cases.
impl Drop for DataValue {
    fn drop(self) {
        let DataValue {
            value: _,
            status: _,
            source_time: _,
            server_time: _,
        } = self;
    }
}

impl Copyable for DataValue {
    ghost is_plain = { λ value. IfSome value.value IsPlainValue };

    fn copy(&self, alloc: Global) -> Result<DataValue, AllocError> {
        let value = match &self.value {
            None => None,
            Some(value) => Some(value.copy(alloc)?),
        };
        Ok(DataValue {
            value,
            status: self.status,
            source_time: self.source_time,
            server_time: self.server_time,
        })
    }
}

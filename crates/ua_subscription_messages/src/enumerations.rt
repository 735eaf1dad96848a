//! Enumerations of monitored items. On the wire each is an Int32 of which any value is read, so
//! each is a number with names for the values that have a meaning, and not an enum.

ghost use Rattle.std.specs.Prelude.{refl};

use ua_binary::Enumeration;

/// What a monitored item does (MonitoringMode, IEC 62541-4, section 7).
#[derive(Clone, Copy, Debug, PartialEq, Eq)]
pub struct MonitoringMode(pub i32);

impl MonitoringMode {
    /// Nothing: it takes no values.
    pub const DISABLED: MonitoringMode = MonitoringMode(0);

    /// It takes values and keeps them in its queue.
    pub const SAMPLING: MonitoringMode = MonitoringMode(1);

    /// It takes values, and what its queue holds is sent in notifications.
    pub const REPORTING: MonitoringMode = MonitoringMode(2);
}

impl Enumeration for MonitoringMode {
    ghost of_number = { λ n. record { 0 = n } };

    ghost number_of = { λ v. v.0 };

    fn from_number(number: i32) -> MonitoringMode {
        MonitoringMode(number)
    }

    fn number(&self) -> i32 {
        self.0
    }

    ghost kept = { λ v. refl };
}

/// Which change of a value is reported (DataChangeTrigger, IEC 62541-4, section 7).
#[derive(Clone, Copy, Debug, PartialEq, Eq)]
pub struct DataChangeTrigger(pub i32);

impl DataChangeTrigger {
    /// The status alone.
    pub const STATUS: DataChangeTrigger = DataChangeTrigger(0);

    /// The status or the value. Without a filter it is so as well.
    pub const STATUS_VALUE: DataChangeTrigger = DataChangeTrigger(1);

    /// The status, the value or the source time.
    pub const STATUS_VALUE_TIMESTAMP: DataChangeTrigger = DataChangeTrigger(2);
}

impl Enumeration for DataChangeTrigger {
    ghost of_number = { λ n. record { 0 = n } };

    ghost number_of = { λ v. v.0 };

    fn from_number(number: i32) -> DataChangeTrigger {
        DataChangeTrigger(number)
    }

    fn number(&self) -> i32 {
        self.0
    }

    ghost kept = { λ v. refl };
}

//! What an item does, and which changes it takes.

ghost use Rattle.std.specs.Prelude.{◌≡◌};
ghost use Rattle.ua_monitored_items.specs.Kinds.{mode_numbered, trigger_numbered, is_null_filter, trigger_of};
ghost use Rattle.ua_monitored_items.specs.Item.{is_enabled, is_reporting, is_sampling, is_change, same_status, same_value, same_time};

use ua_messages::{structure_view, type_ids};
use ua_subscription_messages::{DataChangeFilter, DataChangeTrigger, MonitoringMode};
use ua_types::DataValue;
use ua_views::{ExtensionObjectBodyView, ExtensionObjectView};

/// What a monitored item does (MonitoringMode, IEC 62541-4, section 7).
#[derive(Clone, Copy, Debug, PartialEq, Eq)]
pub enum Mode {
    /// It takes no values, and has none.
    Disabled,
    /// It takes values into its queue, and none is sent, unless the item is released.
    Sampling,
    /// It takes values, and they are sent.
    Reporting,
}

impl Mode {
    /// What a request's number means. None where it means nothing, which a service refuses by
    /// `BAD_MONITORING_MODE_INVALID`.
    pub fn numbered(mode: MonitoringMode) -> Option<Mode>
        ensures { result ≡ mode_numbered mode }
    {
        match mode {
            MonitoringMode::DISABLED => Some(Mode::Disabled),
            MonitoringMode::SAMPLING => Some(Mode::Sampling),
            MonitoringMode::REPORTING => Some(Mode::Reporting),
            _ => None,
        }
    }

    /// Whether it takes values.
    pub fn is_enabled(self) -> bool
        ensures { result ≡ is_enabled self }
    {
        !matches!(self, Mode::Disabled)
    }

    /// Whether its values are sent.
    pub fn is_reporting(self) -> bool
        ensures { result ≡ is_reporting self }
    {
        matches!(self, Mode::Reporting)
    }

    /// Whether it takes values that aren't sent.
    pub fn is_sampling(self) -> bool
        ensures { result ≡ is_sampling self }
    {
        matches!(self, Mode::Sampling)
    }
}

/// Which changes of a value are queued (DataChangeTrigger, IEC 62541-4, section 7).
#[derive(Clone, Copy, Debug, PartialEq, Eq)]
pub enum Trigger {
    /// Another status.
    Status,
    /// Another status or value.
    StatusValue,
    /// Another status, value or time at the source.
    StatusValueTime,
}

/// What a new item is to do.
#[derive(Clone, Copy)]
pub struct Kind {
    pub mode: Mode,
    pub trigger: Trigger,
}

fn same_status(v: &DataValue, w: &DataValue) -> bool
    ensures { result ≡ same_status v.now w.now }
{
    v.status == w.status
}

fn same_value(v: &DataValue, w: &DataValue) -> bool
    ensures { result ≡ same_value v.now w.now }
{
    v.value == w.value
}

fn same_time(v: &DataValue, w: &DataValue) -> bool
    ensures { result ≡ same_time v.now w.now }
{
    v.source_time == w.source_time
}

impl Trigger {
    /// What a filter's number means. None where it means nothing.
    pub fn numbered(trigger: DataChangeTrigger) -> Option<Trigger>
        ensures { result ≡ trigger_numbered trigger }
    {
        match trigger {
            DataChangeTrigger::STATUS => Some(Trigger::Status),
            DataChangeTrigger::STATUS_VALUE => Some(Trigger::StatusValue),
            DataChangeTrigger::STATUS_VALUE_TIMESTAMP => Some(Trigger::StatusValueTime),
            _ => None,
        }
    }

    /// Whether it sees a change from the one sample to the other.
    pub fn is_change(self, last: &DataValue, value: &DataValue) -> bool
        ensures { result ≡ is_change self last.now value.now }
    {
        match self {
            Trigger::Status => !same_status(last, value),
            Trigger::StatusValue => !(same_status(last, value) && same_value(last, value)),
            Trigger::StatusValueTime => {
                !(same_status(last, value) && same_value(last, value) && same_time(last, value))
            }
        }
    }
}

// No filter: the null id, and no body.
fn is_null_filter(filter: &ExtensionObjectView<'_>) -> bool
    ensures { result ≡ is_null_filter filter.now }
{
    filter.type_id.is_null() && matches!(&filter.body, ExtensionObjectBodyView::Absent)
}

/// Which changes a filter lets through. None where the server doesn't have the filter, which a service
/// refuses by `BAD_MONITORED_ITEM_FILTER_UNSUPPORTED`: it has a null one, which is as
/// [`Trigger::StatusValue`], and a DataChangeFilter without a deadband. Takes no memory.
#[tactic(auto, unfolding(crate::specs::Kinds::trigger_of))]
pub(crate) fn trigger_of(filter: &ExtensionObjectView<'_>) -> Option<Trigger>
    ensures { result ≡ trigger_of filter.now }
{
    if is_null_filter(filter) {
        return Some(Trigger::StatusValue);
    }
    match structure_view::<DataChangeFilter>(type_ids::DATA_CHANGE_FILTER, filter) {
        Ok(filter) => {
            if filter.deadband_type == DataChangeFilter::NO_DEADBAND {
                Trigger::numbered(filter.trigger)
            } else {
                None
            }
        }
        Err(_) => None,
    }
}

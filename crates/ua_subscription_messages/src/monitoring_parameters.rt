//! How a monitored item takes and keeps its values.

ghost use Rattle.std.specs.Prelude.{⊤};
ghost use Rattle.ua_subscription_messages.specs.MonitoringParameters.{monitoring_parameters_reading, monitoring_parameters_encoding, data_change_filter_reading, data_change_filter_encoding};

use crate::enumerations::DataChangeTrigger;
use std::alloc::{AllocError, Global};
use std::marker::Model;
use ua_binary::{Cursor, TakeFault, Wire};
use ua_types::{Double, Duration, ExtensionObject};
use ua_views::{ExtensionObjectView, Readable, View, look_enumeration};

/// How a client wants an item to be monitored (MonitoringParameters, IEC 62541-4, section 7).
#[derive(Debug, Drop)]
pub struct MonitoringParameters {
    /// The number by which the client knows the item. Notifications repeat it.
    pub client_handle: u32,
    /// How often a value is to be taken, as a double of milliseconds.
    pub sampling_interval: Duration,
    /// Which values are queued: null, or a [`DataChangeFilter`] for the value of a node.
    pub filter: ExtensionObject,
    /// How many values the item is to keep; 0 is 1.
    pub queue_size: u32,
    /// Which value makes room in a full queue: the oldest, or else the newest.
    pub discard_oldest: bool,
}

#[tactic(auto, using(ua_binary::proofs::Fields::fields5), unfolding(crate::specs::MonitoringParameters::monitoring_parameters_reading, crate::specs::MonitoringParameters::monitoring_parameters_encoding))]
impl Wire for MonitoringParameters {
    ghost reading = { monitoring_parameters_reading };

    ghost encoding = { monitoring_parameters_encoding };

    fn decode(alloc: Global, cursor: &mut Cursor<'_>) -> Result<MonitoringParameters, TakeFault> {
        Ok(MonitoringParameters {
            client_handle: u32::decode(alloc, cursor)?,
            sampling_interval: Duration::decode(alloc, cursor)?,
            filter: ExtensionObject::decode(alloc, cursor)?,
            queue_size: u32::decode(alloc, cursor)?,
            discard_oldest: bool::decode(alloc, cursor)?,
        })
    }

    fn encode(&self, out: &mut Vec<u8>) -> Result<(), AllocError> {
        self.client_handle.encode(out)?;
        self.sampling_interval.encode(out)?;
        self.filter.encode(out)?;
        self.queue_size.encode(out)?;
        self.discard_oldest.encode(out)?;
        Ok(())
    }
}

/// A [`MonitoringParameters`] in the bytes that it stands in.
#[derive(Debug, Drop)]
pub struct MonitoringParametersView<'a> {
    /// The number by which the client knows the item. Notifications repeat it.
    pub client_handle: u32,
    /// How often a value is to be taken, as a double of milliseconds.
    pub sampling_interval: Duration,
    /// Which values are queued: null, or a [`DataChangeFilter`] for the value of a node.
    pub filter: ExtensionObjectView<'a>,
    /// How many values the item is to keep; 0 is 1.
    pub queue_size: u32,
    /// Which value makes room in a full queue: the oldest, or else the newest.
    pub discard_oldest: bool,
}

impl<'a> Model for MonitoringParametersView<'a> {
    ghost use Rattle.ua_subscription_messages.specs.declared.monitoring_parameters.MonitoringParameters.{MonitoringParameters};

    ghost Value = { MonitoringParameters };

    ghost view = { λ v. record { client_handle = v.client_handle; sampling_interval = v.sampling_interval; filter = v.filter; queue_size = v.queue_size; discard_oldest = v.discard_oldest } };
}

impl<'a> Readable for MonitoringParametersView<'a> {
    ghost reading = { monitoring_parameters_reading };
}

#[tactic(auto, unfolding(crate::specs::MonitoringParameters::monitoring_parameters_reading))]
impl<'a> View<'a> for MonitoringParametersView<'a> {
    // Inlined into the loop over a request's list: a call for each element costs more than it does.
    #[inline(always)]
    fn look(cursor: &mut Cursor<'a>) -> Result<MonitoringParametersView<'a>, TakeFault> {
        Ok(MonitoringParametersView {
            client_handle: u32::look(cursor)?,
            sampling_interval: Duration::look(cursor)?,
            filter: ExtensionObjectView::look(cursor)?,
            queue_size: u32::look(cursor)?,
            discard_oldest: bool::look(cursor)?,
        })
    }
}

/// Which changes of a value are queued (DataChangeFilter, IEC 62541-4, section 7), the filter of
/// [`MonitoringParameters`].
#[derive(Clone, Copy, Debug, PartialEq, Eq)]
pub struct DataChangeFilter {
    pub trigger: DataChangeTrigger,

    /// What a deadband is measured in: 0 where there is none ([`DataChangeFilter::NO_DEADBAND`]), 1
    /// for the value itself, 2 for a part of its range in percent.
    pub deadband_type: u32,

    /// The least change that is queued, its eight bytes as they stand. It is ignored where the type
    /// is 0.
    pub deadband_value: Double,
}

impl DataChangeFilter {
    /// The deadband type by which each change is queued, however small it is.
    pub const NO_DEADBAND: u32 = 0;
}

#[tactic(auto, using(ua_binary::proofs::Fields::fields3), unfolding(crate::specs::MonitoringParameters::data_change_filter_reading, crate::specs::MonitoringParameters::data_change_filter_encoding))]
impl Wire for DataChangeFilter {
    ghost reading = { data_change_filter_reading };

    ghost encoding = { data_change_filter_encoding };

    ghost spares_memory = { λ _. ⊤ };

    fn decode(alloc: Global, cursor: &mut Cursor<'_>) -> Result<DataChangeFilter, TakeFault> {
        Ok(DataChangeFilter {
            trigger: DataChangeTrigger::decode(alloc, cursor)?,
            deadband_type: u32::decode(alloc, cursor)?,
            deadband_value: Double::decode(alloc, cursor)?,
        })
    }

    fn encode(&self, out: &mut Vec<u8>) -> Result<(), AllocError> {
        self.trigger.encode(out)?;
        self.deadband_type.encode(out)?;
        self.deadband_value.encode(out)?;
        Ok(())
    }
}

impl Readable for DataChangeFilter {
    ghost reading = { data_change_filter_reading };
}

#[tactic(auto, unfolding(crate::specs::MonitoringParameters::data_change_filter_reading))]
impl<'a> View<'a> for DataChangeFilter {
    fn look(cursor: &mut Cursor<'a>) -> Result<DataChangeFilter, TakeFault> {
        Ok(DataChangeFilter {
            trigger: look_enumeration::<DataChangeTrigger>(cursor)?,
            deadband_type: u32::look(cursor)?,
            deadband_value: Double::look(cursor)?,
        })
    }
}

//! The services that make, change and delete monitored items.

ghost use Rattle.ua_subscription_messages.specs.MonitoredItems.{monitored_item_create_request_reading, monitored_item_create_request_encoding, create_monitored_items_request_reading, create_monitored_items_request_encoding, monitored_item_create_result_reading, monitored_item_create_result_encoding, monitored_item_modify_request_reading, monitored_item_modify_request_encoding, modify_monitored_items_request_reading, modify_monitored_items_request_encoding, monitored_item_modify_result_reading, monitored_item_modify_result_encoding, set_monitoring_mode_request_reading, set_monitoring_mode_request_encoding, delete_monitored_items_request_reading, delete_monitored_items_request_encoding};

use crate::enumerations::MonitoringMode;
use crate::monitoring_parameters::{MonitoringParameters, MonitoringParametersView};
use std::alloc::{AllocError, Global};
use std::marker::Model;
use ua_binary::{Cursor, TakeFault, Wire};
use ua_messages::{ReadValueId, ReadValueIdView, Results, TimestampsToReturn};
use ua_types::{Array, Duration, ExtensionObject, Status};
use ua_views::{ArrayView, Readable, View, look_enumeration};

/// One item to make: an element of [`CreateMonitoredItemsRequest`].
#[derive(Debug, Drop)]
pub struct MonitoredItemCreateRequest {
    /// The attribute whose values are taken.
    pub item_to_monitor: ReadValueId,
    /// The mode in which the item begins.
    pub monitoring_mode: MonitoringMode,
    pub requested_parameters: MonitoringParameters,
}

#[tactic(auto, using(ua_binary::proofs::Fields::fields3), unfolding(crate::specs::MonitoredItems::monitored_item_create_request_reading, crate::specs::MonitoredItems::monitored_item_create_request_encoding))]
impl Wire for MonitoredItemCreateRequest {
    ghost reading = { monitored_item_create_request_reading };

    ghost encoding = { monitored_item_create_request_encoding };

    fn decode(
        alloc: Global,
        cursor: &mut Cursor<'_>,
    ) -> Result<MonitoredItemCreateRequest, TakeFault> {
        Ok(MonitoredItemCreateRequest {
            item_to_monitor: ReadValueId::decode(alloc, cursor)?,
            monitoring_mode: MonitoringMode::decode(alloc, cursor)?,
            requested_parameters: MonitoringParameters::decode(alloc, cursor)?,
        })
    }

    fn encode(&self, out: &mut Vec<u8>) -> Result<(), AllocError> {
        self.item_to_monitor.encode(out)?;
        self.monitoring_mode.encode(out)?;
        self.requested_parameters.encode(out)?;
        Ok(())
    }
}

/// A [`MonitoredItemCreateRequest`] in the bytes that it stands in.
#[derive(Debug, Drop)]
pub struct MonitoredItemCreateRequestView<'a> {
    /// The attribute whose values are taken.
    pub item_to_monitor: ReadValueIdView<'a>,
    /// The mode in which the item begins.
    pub monitoring_mode: MonitoringMode,
    pub requested_parameters: MonitoringParametersView<'a>,
}

impl<'a> Model for MonitoredItemCreateRequestView<'a> {
    ghost use Rattle.ua_subscription_messages.specs.declared.monitored_items.MonitoredItemCreateRequest.{MonitoredItemCreateRequest};

    ghost Value = { MonitoredItemCreateRequest };

    ghost view = { λ v. record { item_to_monitor = v.item_to_monitor; monitoring_mode = v.monitoring_mode; requested_parameters = v.requested_parameters } };
}

impl<'a> Readable for MonitoredItemCreateRequestView<'a> {
    ghost reading = { monitored_item_create_request_reading };
}

#[tactic(auto, unfolding(crate::specs::MonitoredItems::monitored_item_create_request_reading))]
impl<'a> View<'a> for MonitoredItemCreateRequestView<'a> {
    // Inlined into the loop over a request's list: a call for each element costs more than it does.
    #[inline(always)]
    fn look(cursor: &mut Cursor<'a>) -> Result<MonitoredItemCreateRequestView<'a>, TakeFault> {
        Ok(MonitoredItemCreateRequestView {
            item_to_monitor: ReadValueIdView::look(cursor)?,
            monitoring_mode: look_enumeration::<MonitoringMode>(cursor)?,
            requested_parameters: MonitoringParametersView::look(cursor)?,
        })
    }
}

/// Asks for monitored items of a subscription (CreateMonitoredItems, IEC 62541-4, section 5,
/// MonitoredItem Service Set).
#[derive(Debug, Drop)]
pub struct CreateMonitoredItemsRequest {
    pub subscription_id: u32,
    /// Which times the values in notifications are to have.
    pub timestamps_to_return: TimestampsToReturn,
    pub items_to_create: Array<MonitoredItemCreateRequest>,
}

#[tactic(auto, using(ua_binary::proofs::Fields::fields3), unfolding(crate::specs::MonitoredItems::create_monitored_items_request_reading, crate::specs::MonitoredItems::create_monitored_items_request_encoding))]
impl Wire for CreateMonitoredItemsRequest {
    ghost reading = { create_monitored_items_request_reading };

    ghost encoding = { create_monitored_items_request_encoding };

    fn decode(
        alloc: Global,
        cursor: &mut Cursor<'_>,
    ) -> Result<CreateMonitoredItemsRequest, TakeFault> {
        Ok(CreateMonitoredItemsRequest {
            subscription_id: u32::decode(alloc, cursor)?,
            timestamps_to_return: TimestampsToReturn::decode(alloc, cursor)?,
            items_to_create: Array::<MonitoredItemCreateRequest>::decode(alloc, cursor)?,
        })
    }

    fn encode(&self, out: &mut Vec<u8>) -> Result<(), AllocError> {
        self.subscription_id.encode(out)?;
        self.timestamps_to_return.encode(out)?;
        self.items_to_create.encode(out)?;
        Ok(())
    }
}

/// A [`CreateMonitoredItemsRequest`] in the bytes that it stands in.
#[derive(Debug, Drop)]
pub struct CreateMonitoredItemsRequestView<'a> {
    pub subscription_id: u32,
    /// Which times the values in notifications are to have.
    pub timestamps_to_return: TimestampsToReturn,
    pub items_to_create: ArrayView<'a, MonitoredItemCreateRequestView<'a>>,
}

impl<'a> Model for CreateMonitoredItemsRequestView<'a> {
    ghost use Rattle.ua_subscription_messages.specs.declared.monitored_items.CreateMonitoredItemsRequest.{CreateMonitoredItemsRequest};

    ghost Value = { CreateMonitoredItemsRequest };

    ghost view = { λ v. record { subscription_id = v.subscription_id; timestamps_to_return = v.timestamps_to_return; items_to_create = v.items_to_create } };
}

impl<'a> Readable for CreateMonitoredItemsRequestView<'a> {
    ghost reading = { create_monitored_items_request_reading };
}

#[tactic(auto, unfolding(crate::specs::MonitoredItems::create_monitored_items_request_reading))]
impl<'a> View<'a> for CreateMonitoredItemsRequestView<'a> {
    fn look(cursor: &mut Cursor<'a>) -> Result<CreateMonitoredItemsRequestView<'a>, TakeFault> {
        Ok(CreateMonitoredItemsRequestView {
            subscription_id: u32::look(cursor)?,
            timestamps_to_return: look_enumeration::<TimestampsToReturn>(cursor)?,
            items_to_create: ArrayView::<MonitoredItemCreateRequestView<'a>>::look(cursor)?,
        })
    }
}

/// What became of one item to make: an element of [`CreateMonitoredItemsResponse`].
///
/// Where the item was refused the status says why, and the other fields are 0 or null.
#[derive(Debug, Drop)]
pub struct MonitoredItemCreateResult {
    pub status_code: Status,
    /// The server's number of the new item.
    pub monitored_item_id: u32,
    /// How often a value is taken, as a double of milliseconds.
    pub revised_sampling_interval: Duration,
    /// How many values the item keeps.
    pub revised_queue_size: u32,
    /// What the server says of the filter, null where it has nothing to say.
    pub filter_result: ExtensionObject,
}

#[tactic(auto, using(ua_binary::proofs::Fields::fields5), unfolding(crate::specs::MonitoredItems::monitored_item_create_result_reading, crate::specs::MonitoredItems::monitored_item_create_result_encoding))]
impl Wire for MonitoredItemCreateResult {
    ghost reading = { monitored_item_create_result_reading };

    ghost encoding = { monitored_item_create_result_encoding };

    fn decode(
        alloc: Global,
        cursor: &mut Cursor<'_>,
    ) -> Result<MonitoredItemCreateResult, TakeFault> {
        Ok(MonitoredItemCreateResult {
            status_code: Status::decode(alloc, cursor)?,
            monitored_item_id: u32::decode(alloc, cursor)?,
            revised_sampling_interval: Duration::decode(alloc, cursor)?,
            revised_queue_size: u32::decode(alloc, cursor)?,
            filter_result: ExtensionObject::decode(alloc, cursor)?,
        })
    }

    fn encode(&self, out: &mut Vec<u8>) -> Result<(), AllocError> {
        self.status_code.encode(out)?;
        self.monitored_item_id.encode(out)?;
        self.revised_sampling_interval.encode(out)?;
        self.revised_queue_size.encode(out)?;
        self.filter_result.encode(out)?;
        Ok(())
    }
}

/// What became of each item, in the order of the request: the response to
/// [`CreateMonitoredItemsRequest`].
pub type CreateMonitoredItemsResponse = Results<MonitoredItemCreateResult>;

/// One item to change: an element of [`ModifyMonitoredItemsRequest`].
#[derive(Debug, Drop)]
pub struct MonitoredItemModifyRequest {
    pub monitored_item_id: u32,
    /// They take the place of all that the item had.
    pub requested_parameters: MonitoringParameters,
}

#[tactic(auto, using(ua_binary::proofs::Fields::fields2), unfolding(crate::specs::MonitoredItems::monitored_item_modify_request_reading, crate::specs::MonitoredItems::monitored_item_modify_request_encoding))]
impl Wire for MonitoredItemModifyRequest {
    ghost reading = { monitored_item_modify_request_reading };

    ghost encoding = { monitored_item_modify_request_encoding };

    fn decode(
        alloc: Global,
        cursor: &mut Cursor<'_>,
    ) -> Result<MonitoredItemModifyRequest, TakeFault> {
        Ok(MonitoredItemModifyRequest {
            monitored_item_id: u32::decode(alloc, cursor)?,
            requested_parameters: MonitoringParameters::decode(alloc, cursor)?,
        })
    }

    fn encode(&self, out: &mut Vec<u8>) -> Result<(), AllocError> {
        self.monitored_item_id.encode(out)?;
        self.requested_parameters.encode(out)?;
        Ok(())
    }
}

/// A [`MonitoredItemModifyRequest`] in the bytes that it stands in.
#[derive(Debug, Drop)]
pub struct MonitoredItemModifyRequestView<'a> {
    pub monitored_item_id: u32,
    /// They take the place of all that the item had.
    pub requested_parameters: MonitoringParametersView<'a>,
}

impl<'a> Model for MonitoredItemModifyRequestView<'a> {
    ghost use Rattle.ua_subscription_messages.specs.declared.monitored_items.MonitoredItemModifyRequest.{MonitoredItemModifyRequest};

    ghost Value = { MonitoredItemModifyRequest };

    ghost view = { λ v. record { monitored_item_id = v.monitored_item_id; requested_parameters = v.requested_parameters } };
}

impl<'a> Readable for MonitoredItemModifyRequestView<'a> {
    ghost reading = { monitored_item_modify_request_reading };
}

#[tactic(auto, unfolding(crate::specs::MonitoredItems::monitored_item_modify_request_reading))]
impl<'a> View<'a> for MonitoredItemModifyRequestView<'a> {
    // Inlined into the loop over a request's list: a call for each element costs more than it does.
    #[inline(always)]
    fn look(cursor: &mut Cursor<'a>) -> Result<MonitoredItemModifyRequestView<'a>, TakeFault> {
        Ok(MonitoredItemModifyRequestView {
            monitored_item_id: u32::look(cursor)?,
            requested_parameters: MonitoringParametersView::look(cursor)?,
        })
    }
}

/// Changes how items of a subscription are monitored (ModifyMonitoredItems, IEC 62541-4, section 5,
/// MonitoredItem Service Set).
#[derive(Debug, Drop)]
pub struct ModifyMonitoredItemsRequest {
    pub subscription_id: u32,
    /// Which times the values in notifications are to have.
    pub timestamps_to_return: TimestampsToReturn,
    pub items_to_modify: Array<MonitoredItemModifyRequest>,
}

#[tactic(auto, using(ua_binary::proofs::Fields::fields3), unfolding(crate::specs::MonitoredItems::modify_monitored_items_request_reading, crate::specs::MonitoredItems::modify_monitored_items_request_encoding))]
impl Wire for ModifyMonitoredItemsRequest {
    ghost reading = { modify_monitored_items_request_reading };

    ghost encoding = { modify_monitored_items_request_encoding };

    fn decode(
        alloc: Global,
        cursor: &mut Cursor<'_>,
    ) -> Result<ModifyMonitoredItemsRequest, TakeFault> {
        Ok(ModifyMonitoredItemsRequest {
            subscription_id: u32::decode(alloc, cursor)?,
            timestamps_to_return: TimestampsToReturn::decode(alloc, cursor)?,
            items_to_modify: Array::<MonitoredItemModifyRequest>::decode(alloc, cursor)?,
        })
    }

    fn encode(&self, out: &mut Vec<u8>) -> Result<(), AllocError> {
        self.subscription_id.encode(out)?;
        self.timestamps_to_return.encode(out)?;
        self.items_to_modify.encode(out)?;
        Ok(())
    }
}

/// A [`ModifyMonitoredItemsRequest`] in the bytes that it stands in.
#[derive(Debug, Drop)]
pub struct ModifyMonitoredItemsRequestView<'a> {
    pub subscription_id: u32,
    /// Which times the values in notifications are to have.
    pub timestamps_to_return: TimestampsToReturn,
    pub items_to_modify: ArrayView<'a, MonitoredItemModifyRequestView<'a>>,
}

impl<'a> Model for ModifyMonitoredItemsRequestView<'a> {
    ghost use Rattle.ua_subscription_messages.specs.declared.monitored_items.ModifyMonitoredItemsRequest.{ModifyMonitoredItemsRequest};

    ghost Value = { ModifyMonitoredItemsRequest };

    ghost view = { λ v. record { subscription_id = v.subscription_id; timestamps_to_return = v.timestamps_to_return; items_to_modify = v.items_to_modify } };
}

impl<'a> Readable for ModifyMonitoredItemsRequestView<'a> {
    ghost reading = { modify_monitored_items_request_reading };
}

#[tactic(auto, unfolding(crate::specs::MonitoredItems::modify_monitored_items_request_reading))]
impl<'a> View<'a> for ModifyMonitoredItemsRequestView<'a> {
    fn look(cursor: &mut Cursor<'a>) -> Result<ModifyMonitoredItemsRequestView<'a>, TakeFault> {
        Ok(ModifyMonitoredItemsRequestView {
            subscription_id: u32::look(cursor)?,
            timestamps_to_return: look_enumeration::<TimestampsToReturn>(cursor)?,
            items_to_modify: ArrayView::<MonitoredItemModifyRequestView<'a>>::look(cursor)?,
        })
    }
}

/// What became of one item to change: an element of [`ModifyMonitoredItemsResponse`].
///
/// Where the change was refused the status says why, and the other fields are 0 or null.
#[derive(Debug, Drop)]
pub struct MonitoredItemModifyResult {
    pub status_code: Status,
    /// How often a value is taken, as a double of milliseconds.
    pub revised_sampling_interval: Duration,
    /// How many values the item keeps.
    pub revised_queue_size: u32,
    /// What the server says of the filter, null where it has nothing to say.
    pub filter_result: ExtensionObject,
}

#[tactic(auto, using(ua_binary::proofs::Fields::fields4), unfolding(crate::specs::MonitoredItems::monitored_item_modify_result_reading, crate::specs::MonitoredItems::monitored_item_modify_result_encoding))]
impl Wire for MonitoredItemModifyResult {
    ghost reading = { monitored_item_modify_result_reading };

    ghost encoding = { monitored_item_modify_result_encoding };

    fn decode(
        alloc: Global,
        cursor: &mut Cursor<'_>,
    ) -> Result<MonitoredItemModifyResult, TakeFault> {
        Ok(MonitoredItemModifyResult {
            status_code: Status::decode(alloc, cursor)?,
            revised_sampling_interval: Duration::decode(alloc, cursor)?,
            revised_queue_size: u32::decode(alloc, cursor)?,
            filter_result: ExtensionObject::decode(alloc, cursor)?,
        })
    }

    fn encode(&self, out: &mut Vec<u8>) -> Result<(), AllocError> {
        self.status_code.encode(out)?;
        self.revised_sampling_interval.encode(out)?;
        self.revised_queue_size.encode(out)?;
        self.filter_result.encode(out)?;
        Ok(())
    }
}

/// What became of each item, in the order of the request: the response to
/// [`ModifyMonitoredItemsRequest`].
pub type ModifyMonitoredItemsResponse = Results<MonitoredItemModifyResult>;

/// Sets the mode of items of a subscription (SetMonitoringMode, IEC 62541-4, section 5,
/// MonitoredItem Service Set).
#[derive(Debug, Drop)]
pub struct SetMonitoringModeRequest {
    pub subscription_id: u32,
    pub monitoring_mode: MonitoringMode,
    pub monitored_item_ids: Array<u32>,
}

#[tactic(auto, using(ua_binary::proofs::Fields::fields3), unfolding(crate::specs::MonitoredItems::set_monitoring_mode_request_reading, crate::specs::MonitoredItems::set_monitoring_mode_request_encoding))]
impl Wire for SetMonitoringModeRequest {
    ghost reading = { set_monitoring_mode_request_reading };

    ghost encoding = { set_monitoring_mode_request_encoding };

    fn decode(
        alloc: Global,
        cursor: &mut Cursor<'_>,
    ) -> Result<SetMonitoringModeRequest, TakeFault> {
        Ok(SetMonitoringModeRequest {
            subscription_id: u32::decode(alloc, cursor)?,
            monitoring_mode: MonitoringMode::decode(alloc, cursor)?,
            monitored_item_ids: Array::<u32>::decode(alloc, cursor)?,
        })
    }

    fn encode(&self, out: &mut Vec<u8>) -> Result<(), AllocError> {
        self.subscription_id.encode(out)?;
        self.monitoring_mode.encode(out)?;
        self.monitored_item_ids.encode(out)?;
        Ok(())
    }
}

/// A [`SetMonitoringModeRequest`] in the bytes that it stands in.
#[derive(Debug, Drop)]
pub struct SetMonitoringModeRequestView<'a> {
    pub subscription_id: u32,
    pub monitoring_mode: MonitoringMode,
    pub monitored_item_ids: ArrayView<'a, u32>,
}

impl<'a> Model for SetMonitoringModeRequestView<'a> {
    ghost use Rattle.ua_subscription_messages.specs.declared.monitored_items.SetMonitoringModeRequest.{SetMonitoringModeRequest};

    ghost Value = { SetMonitoringModeRequest };

    ghost view = { λ v. record { subscription_id = v.subscription_id; monitoring_mode = v.monitoring_mode; monitored_item_ids = v.monitored_item_ids } };
}

impl<'a> Readable for SetMonitoringModeRequestView<'a> {
    ghost reading = { set_monitoring_mode_request_reading };
}

#[tactic(auto, unfolding(crate::specs::MonitoredItems::set_monitoring_mode_request_reading))]
impl<'a> View<'a> for SetMonitoringModeRequestView<'a> {
    fn look(cursor: &mut Cursor<'a>) -> Result<SetMonitoringModeRequestView<'a>, TakeFault> {
        Ok(SetMonitoringModeRequestView {
            subscription_id: u32::look(cursor)?,
            monitoring_mode: look_enumeration::<MonitoringMode>(cursor)?,
            monitored_item_ids: ArrayView::<u32>::look(cursor)?,
        })
    }
}

/// What became of each item, in the order of the request: the response to
/// [`SetMonitoringModeRequest`].
pub type SetMonitoringModeResponse = Results<Status>;

/// Deletes items of a subscription (DeleteMonitoredItems, IEC 62541-4, section 5, MonitoredItem
/// Service Set).
#[derive(Debug, Drop)]
pub struct DeleteMonitoredItemsRequest {
    pub subscription_id: u32,
    pub monitored_item_ids: Array<u32>,
}

#[tactic(auto, using(ua_binary::proofs::Fields::fields2), unfolding(crate::specs::MonitoredItems::delete_monitored_items_request_reading, crate::specs::MonitoredItems::delete_monitored_items_request_encoding))]
impl Wire for DeleteMonitoredItemsRequest {
    ghost reading = { delete_monitored_items_request_reading };

    ghost encoding = { delete_monitored_items_request_encoding };

    fn decode(
        alloc: Global,
        cursor: &mut Cursor<'_>,
    ) -> Result<DeleteMonitoredItemsRequest, TakeFault> {
        Ok(DeleteMonitoredItemsRequest {
            subscription_id: u32::decode(alloc, cursor)?,
            monitored_item_ids: Array::<u32>::decode(alloc, cursor)?,
        })
    }

    fn encode(&self, out: &mut Vec<u8>) -> Result<(), AllocError> {
        self.subscription_id.encode(out)?;
        self.monitored_item_ids.encode(out)?;
        Ok(())
    }
}

/// A [`DeleteMonitoredItemsRequest`] in the bytes that it stands in.
#[derive(Debug, Drop)]
pub struct DeleteMonitoredItemsRequestView<'a> {
    pub subscription_id: u32,
    pub monitored_item_ids: ArrayView<'a, u32>,
}

impl<'a> Model for DeleteMonitoredItemsRequestView<'a> {
    ghost use Rattle.ua_subscription_messages.specs.declared.monitored_items.DeleteMonitoredItemsRequest.{DeleteMonitoredItemsRequest};

    ghost Value = { DeleteMonitoredItemsRequest };

    ghost view = { λ v. record { subscription_id = v.subscription_id; monitored_item_ids = v.monitored_item_ids } };
}

impl<'a> Readable for DeleteMonitoredItemsRequestView<'a> {
    ghost reading = { delete_monitored_items_request_reading };
}

#[tactic(auto, unfolding(crate::specs::MonitoredItems::delete_monitored_items_request_reading))]
impl<'a> View<'a> for DeleteMonitoredItemsRequestView<'a> {
    fn look(cursor: &mut Cursor<'a>) -> Result<DeleteMonitoredItemsRequestView<'a>, TakeFault> {
        Ok(DeleteMonitoredItemsRequestView {
            subscription_id: u32::look(cursor)?,
            monitored_item_ids: ArrayView::<u32>::look(cursor)?,
        })
    }
}

/// What became of each item, in the order of the request: the response to
/// [`DeleteMonitoredItemsRequest`].
pub type DeleteMonitoredItemsResponse = Results<Status>;

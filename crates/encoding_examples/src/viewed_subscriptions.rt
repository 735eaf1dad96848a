//! Copies of what the requests of monitored items and subscriptions hold.

use crate::viewed::{Viewed, copies};
use std::alloc::{AllocError, Global};
use ua_subscription_messages::{
    CreateMonitoredItemsRequest, CreateMonitoredItemsRequestView, CreateSubscriptionRequest,
    DataChangeFilter, DeleteMonitoredItemsRequest, DeleteMonitoredItemsRequestView,
    DeleteSubscriptionsRequest, DeleteSubscriptionsRequestView, ModifyMonitoredItemsRequest,
    ModifyMonitoredItemsRequestView, ModifySubscriptionRequest, MonitoredItemCreateRequest,
    MonitoredItemCreateRequestView, MonitoredItemModifyRequest, MonitoredItemModifyRequestView,
    MonitoringParameters, MonitoringParametersView, PublishRequest, PublishRequestView,
    RepublishRequest, SetMonitoringModeRequest, SetMonitoringModeRequestView,
    SetPublishingModeRequest, SetPublishingModeRequestView, SetTriggeringRequest,
    SetTriggeringRequestView, SubscriptionAcknowledgement,
};

impl<'a> Viewed<'a> for MonitoringParametersView<'a> {
    type Value = MonitoringParameters;

    fn copied(self, alloc: Global) -> Result<MonitoringParameters, AllocError> {
        Ok(MonitoringParameters {
            client_handle: self.client_handle,
            sampling_interval: self.sampling_interval,
            filter: self.filter.copied(alloc)?,
            queue_size: self.queue_size,
            discard_oldest: self.discard_oldest,
        })
    }
}

impl<'a> Viewed<'a> for DataChangeFilter {
    type Value = DataChangeFilter;

    fn copied(self, _alloc: Global) -> Result<DataChangeFilter, AllocError> {
        Ok(DataChangeFilter {
            trigger: self.trigger,
            deadband_type: self.deadband_type,
            deadband_value: self.deadband_value,
        })
    }
}

impl<'a> Viewed<'a> for MonitoredItemCreateRequestView<'a> {
    type Value = MonitoredItemCreateRequest;

    fn copied(self, alloc: Global) -> Result<MonitoredItemCreateRequest, AllocError> {
        Ok(MonitoredItemCreateRequest {
            item_to_monitor: self.item_to_monitor.copied(alloc)?,
            monitoring_mode: self.monitoring_mode,
            requested_parameters: self.requested_parameters.copied(alloc)?,
        })
    }
}

impl<'a> Viewed<'a> for CreateMonitoredItemsRequestView<'a> {
    type Value = CreateMonitoredItemsRequest;

    fn copied(self, alloc: Global) -> Result<CreateMonitoredItemsRequest, AllocError> {
        Ok(CreateMonitoredItemsRequest {
            subscription_id: self.subscription_id,
            timestamps_to_return: self.timestamps_to_return,
            items_to_create: copies(alloc, self.items_to_create)?,
        })
    }
}

impl<'a> Viewed<'a> for MonitoredItemModifyRequestView<'a> {
    type Value = MonitoredItemModifyRequest;

    fn copied(self, alloc: Global) -> Result<MonitoredItemModifyRequest, AllocError> {
        Ok(MonitoredItemModifyRequest {
            monitored_item_id: self.monitored_item_id,
            requested_parameters: self.requested_parameters.copied(alloc)?,
        })
    }
}

impl<'a> Viewed<'a> for ModifyMonitoredItemsRequestView<'a> {
    type Value = ModifyMonitoredItemsRequest;

    fn copied(self, alloc: Global) -> Result<ModifyMonitoredItemsRequest, AllocError> {
        Ok(ModifyMonitoredItemsRequest {
            subscription_id: self.subscription_id,
            timestamps_to_return: self.timestamps_to_return,
            items_to_modify: copies(alloc, self.items_to_modify)?,
        })
    }
}

impl<'a> Viewed<'a> for SetMonitoringModeRequestView<'a> {
    type Value = SetMonitoringModeRequest;

    fn copied(self, alloc: Global) -> Result<SetMonitoringModeRequest, AllocError> {
        Ok(SetMonitoringModeRequest {
            subscription_id: self.subscription_id,
            monitoring_mode: self.monitoring_mode,
            monitored_item_ids: copies(alloc, self.monitored_item_ids)?,
        })
    }
}

impl<'a> Viewed<'a> for DeleteMonitoredItemsRequestView<'a> {
    type Value = DeleteMonitoredItemsRequest;

    fn copied(self, alloc: Global) -> Result<DeleteMonitoredItemsRequest, AllocError> {
        Ok(DeleteMonitoredItemsRequest {
            subscription_id: self.subscription_id,
            monitored_item_ids: copies(alloc, self.monitored_item_ids)?,
        })
    }
}

impl<'a> Viewed<'a> for SetTriggeringRequestView<'a> {
    type Value = SetTriggeringRequest;

    fn copied(self, alloc: Global) -> Result<SetTriggeringRequest, AllocError> {
        Ok(SetTriggeringRequest {
            subscription_id: self.subscription_id,
            triggering_item_id: self.triggering_item_id,
            links_to_add: copies(alloc, self.links_to_add)?,
            links_to_remove: copies(alloc, self.links_to_remove)?,
        })
    }
}

impl<'a> Viewed<'a> for CreateSubscriptionRequest {
    type Value = CreateSubscriptionRequest;

    fn copied(self, _alloc: Global) -> Result<CreateSubscriptionRequest, AllocError> {
        Ok(CreateSubscriptionRequest {
            requested_publishing_interval: self.requested_publishing_interval,
            requested_lifetime_count: self.requested_lifetime_count,
            requested_max_keep_alive_count: self.requested_max_keep_alive_count,
            max_notifications_per_publish: self.max_notifications_per_publish,
            publishing_enabled: self.publishing_enabled,
            priority: self.priority,
        })
    }
}

impl<'a> Viewed<'a> for ModifySubscriptionRequest {
    type Value = ModifySubscriptionRequest;

    fn copied(self, _alloc: Global) -> Result<ModifySubscriptionRequest, AllocError> {
        Ok(ModifySubscriptionRequest {
            subscription_id: self.subscription_id,
            requested_publishing_interval: self.requested_publishing_interval,
            requested_lifetime_count: self.requested_lifetime_count,
            requested_max_keep_alive_count: self.requested_max_keep_alive_count,
            max_notifications_per_publish: self.max_notifications_per_publish,
            priority: self.priority,
        })
    }
}

impl<'a> Viewed<'a> for SetPublishingModeRequestView<'a> {
    type Value = SetPublishingModeRequest;

    fn copied(self, alloc: Global) -> Result<SetPublishingModeRequest, AllocError> {
        Ok(SetPublishingModeRequest {
            publishing_enabled: self.publishing_enabled,
            subscription_ids: copies(alloc, self.subscription_ids)?,
        })
    }
}

impl<'a> Viewed<'a> for DeleteSubscriptionsRequestView<'a> {
    type Value = DeleteSubscriptionsRequest;

    fn copied(self, alloc: Global) -> Result<DeleteSubscriptionsRequest, AllocError> {
        Ok(DeleteSubscriptionsRequest {
            subscription_ids: copies(alloc, self.subscription_ids)?,
        })
    }
}

impl<'a> Viewed<'a> for SubscriptionAcknowledgement {
    type Value = SubscriptionAcknowledgement;

    fn copied(self, _alloc: Global) -> Result<SubscriptionAcknowledgement, AllocError> {
        Ok(SubscriptionAcknowledgement {
            subscription_id: self.subscription_id,
            sequence_number: self.sequence_number,
        })
    }
}

impl<'a> Viewed<'a> for PublishRequestView<'a> {
    type Value = PublishRequest;

    fn copied(self, alloc: Global) -> Result<PublishRequest, AllocError> {
        Ok(PublishRequest {
            subscription_acknowledgements: copies(alloc, self.subscription_acknowledgements)?,
        })
    }
}

impl<'a> Viewed<'a> for RepublishRequest {
    type Value = RepublishRequest;

    fn copied(self, _alloc: Global) -> Result<RepublishRequest, AllocError> {
        Ok(RepublishRequest {
            subscription_id: self.subscription_id,
            retransmit_sequence_number: self.retransmit_sequence_number,
        })
    }
}

//! The messages of monitored items and subscriptions (IEC 62541-4, section 5): creating, changing,
//! linking and deleting them, Publish and Republish, and the notifications that these bring.
//!
//! Each structure is the standard's fields in the standard's order and is [`ua_binary::Wire`], as in
//! `ua_messages`, whose `message` and `body` read and write all of these too. A filter and a
//! notification travel inside an ExtensionObject, whose body is such a structure: [`notification_message`]
//! writes one where it stands, and [`publish_body`] a response round a message that was written before. A message with
//! values of items is written value by value ([`DataChangeMessage`]), each from where it stands. What stands in a request has a
//! view beside it, as [`PublishRequestView`], or is one itself where it is of fixed size, as [`RepublishRequest`].
//!
//! Nothing here decides anything: no number is revised, no item is looked up, and no queue is kept. [`SubscriptionId`] is for the
//! calls of the crates above; a message has the number itself.
//!
//! What a contract sees: a list of fields for each structure.
//!
//! Read [`MonitoringParameters`] and [`NotificationMessage`] first.
#![tactic(auto)]

mod borrowed_notifications;
mod data_change_messages;
mod enumerations;
mod kept_messages;
pub mod laws;
mod monitored_items;
mod monitoring_parameters;
mod notification_messages;
mod publishing;
mod subscription_id;
mod subscriptions;
mod triggering;

pub use borrowed_notifications::BorrowedNotification;
pub use data_change_messages::DataChangeMessage;
pub use enumerations::{DataChangeTrigger, MonitoringMode};
pub use kept_messages::{publish_body, republish_body};
pub use monitored_items::{
    CreateMonitoredItemsRequest, CreateMonitoredItemsRequestView, CreateMonitoredItemsResponse,
    DeleteMonitoredItemsRequest, DeleteMonitoredItemsRequestView, DeleteMonitoredItemsResponse,
    ModifyMonitoredItemsRequest, ModifyMonitoredItemsRequestView, ModifyMonitoredItemsResponse,
    MonitoredItemCreateRequest, MonitoredItemCreateRequestView, MonitoredItemCreateResult,
    MonitoredItemModifyRequest, MonitoredItemModifyRequestView, MonitoredItemModifyResult,
    SetMonitoringModeRequest, SetMonitoringModeRequestView, SetMonitoringModeResponse,
};
pub use monitoring_parameters::{DataChangeFilter, MonitoringParameters, MonitoringParametersView};
pub use notification_messages::notification_message;
pub use publishing::{
    DataChangeNotification, MonitoredItemNotification, NotificationMessage, PublishRequest,
    PublishRequestView, PublishResponse, RepublishRequest, RepublishResponse,
    StatusChangeNotification, SubscriptionAcknowledgement,
};
pub use subscription_id::SubscriptionId;
pub use subscriptions::{
    CreateSubscriptionRequest, CreateSubscriptionResponse, DeleteSubscriptionsRequest,
    DeleteSubscriptionsRequestView, DeleteSubscriptionsResponse, ModifySubscriptionRequest,
    ModifySubscriptionResponse, SetPublishingModeRequest, SetPublishingModeRequestView,
    SetPublishingModeResponse,
};
pub use triggering::{SetTriggeringRequest, SetTriggeringRequestView, SetTriggeringResponse};

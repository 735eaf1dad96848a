//! The bodies of what sessions ask.

ghost use Rattle.std.specs.Prelude.{◌≡◌, IfOk, false, true};
ghost use Rattle.scenario_text.specs.Messages.{read_body, write_body, browse_body, browse_next_body, history_body, activate_session_body, close_session_body, create_subscription_body, modify_subscription_body, set_publishing_body, create_item_body, modify_item_body, set_item_mode_body, set_triggering_body, delete_items_body, publish_body, republish_body, delete_subscriptions_body, request_body, read_fields, write_fields, browse_fields, browse_next_fields, history_fields, activate_session_fields, close_session_fields, create_subscription_fields, modify_subscription_fields, set_publishing_fields, create_item_fields, modify_item_fields, set_item_mode_fields, set_triggering_fields, delete_items_fields, publish_fields, republish_fields, delete_subscriptions_fields, IsServiceBody};
ghost use Rattle.scenario_text.specs.Bodies.{IsWholeRequest};
ghost use Rattle.scenario_text.specs.Structures.{links_of};
ghost use Rattle.ua_service_messages.specs.Browsing.{browse_next_request_reading, browse_request_reading};
ghost use Rattle.ua_service_messages.specs.History.{history_read_request_reading};
ghost use Rattle.ua_service_messages.specs.Reading.{read_request_reading};
ghost use Rattle.ua_service_messages.specs.Sessions.{activate_session_request_reading, close_session_request_reading};
ghost use Rattle.ua_service_messages.specs.Writing.{write_request_reading};
ghost use Rattle.ua_subscription_messages.specs.MonitoredItems.{create_monitored_items_request_reading, delete_monitored_items_request_reading, modify_monitored_items_request_reading, set_monitoring_mode_request_reading};
ghost use Rattle.ua_subscription_messages.specs.Publishing.{publish_request_reading, republish_request_reading};
ghost use Rattle.ua_subscription_messages.specs.Subscriptions.{create_subscription_request_reading, delete_subscriptions_request_reading, modify_subscription_request_reading, set_publishing_mode_request_reading};
ghost use Rattle.ua_subscription_messages.specs.Triggering.{set_triggering_request_reading};
ghost use Rattle.ua_messages.specs.declared.type_ids.TheConstants.{ACTIVATE_SESSION_REQUEST, BROWSE_NEXT_REQUEST, BROWSE_REQUEST, CLOSE_SESSION_REQUEST, CREATE_MONITORED_ITEMS_REQUEST, CREATE_SUBSCRIPTION_REQUEST, DELETE_MONITORED_ITEMS_REQUEST, DELETE_SUBSCRIPTIONS_REQUEST, HISTORY_READ_REQUEST, MODIFY_MONITORED_ITEMS_REQUEST, MODIFY_SUBSCRIPTION_REQUEST, PUBLISH_REQUEST, READ_REQUEST, REPUBLISH_REQUEST, SET_MONITORING_MODE_REQUEST, SET_PUBLISHING_MODE_REQUEST, SET_TRIGGERING_REQUEST, WRITE_REQUEST};

use crate::bodies::whole_request;
use crate::choices::{Publishing, Subscriptions};
use crate::requests::{
    Acknowledgement, Attribute, ChangedItem, Counts, LinkChange, NewItem, NewValue, RawValues,
    References,
};
use crate::sent::{Ranged, held, list, one, ranged_list};
use crate::statement::SessionRequest;
use crate::structures::{
    NO_DURATION, history_details, is_delete, is_on, last_point, no_name, no_object, no_signature,
    parameters,
};
use std::alloc::{AllocError, Global};
use ua_messages::{RequestHeader, TimestampsToReturn, type_ids};
use ua_service_messages::{
    ActivateSessionRequest, BrowseDescription, BrowseDirection, BrowseNextRequest, BrowseRequest,
    CloseSessionRequest, HistoryReadRequest, HistoryReadValueId, ReadRequest, WriteRequest,
};
use ua_subscription_messages::{
    CreateMonitoredItemsRequest, CreateSubscriptionRequest, DeleteMonitoredItemsRequest,
    DeleteSubscriptionsRequest, ModifyMonitoredItemsRequest, ModifySubscriptionRequest,
    MonitoredItemCreateRequest, MonitoredItemModifyRequest, MonitoringMode, PublishRequest,
    RepublishRequest, SetMonitoringModeRequest, SetPublishingModeRequest, SetTriggeringRequest,
    SubscriptionId,
};
use ua_types::{Array, Listed, Moment, NodeId, Text};

#[tactic(auto, unfolding(crate::specs::Messages::read_body))]
fn read_body(
    alloc: Global,
    header: RequestHeader,
    timestamps: i32,
    attributes: Listed<Attribute>,
    range: Text,
) -> Result<Vec<u8>, AllocError>
    ensures ok { IfOk result (λ bytes. bytes.items ≡ read_body header timestamps attributes range) }
    ensures again { IfOk result (λ bytes. IsWholeRequest read_request_reading READ_REQUEST header (read_fields timestamps attributes range) bytes.items) }
{
    let fields = ReadRequest {
        max_age: NO_DURATION,
        timestamps_to_return: TimestampsToReturn(timestamps),
        nodes_to_read: ranged_list(alloc, &range, attributes)?,
    };
    whole_request(alloc, type_ids::READ_REQUEST, header, fields)
}

#[tactic(auto, unfolding(crate::specs::Messages::write_body))]
fn write_body(
    alloc: Global,
    header: RequestHeader,
    values: Listed<NewValue>,
    range: Text,
) -> Result<Vec<u8>, AllocError>
    ensures ok { IfOk result (λ bytes. bytes.items ≡ write_body header values range) }
    ensures again { IfOk result (λ bytes. IsWholeRequest write_request_reading WRITE_REQUEST header (write_fields values range) bytes.items) }
{
    let fields = WriteRequest {
        nodes_to_write: ranged_list(alloc, &range, values)?,
    };
    whole_request(alloc, type_ids::WRITE_REQUEST, header, fields)
}

#[tactic(auto, unfolding(crate::specs::Messages::browse_body))]
fn browse_body(
    alloc: Global,
    header: RequestHeader,
    references: References,
) -> Result<Vec<u8>, AllocError>
    ensures ok { IfOk result (λ bytes. bytes.items ≡ browse_body header references) }
    ensures again { IfOk result (λ bytes. IsWholeRequest browse_request_reading BROWSE_REQUEST header (browse_fields references) bytes.items) }
{
    let References {
        max_references,
        node_id,
        direction,
        reference_type_id,
        include_subtypes,
        node_class_mask,
        result_mask,
    } = references;
    let description = BrowseDescription {
        node_id,
        browse_direction: BrowseDirection(direction),
        reference_type_id,
        include_subtypes,
        node_class_mask,
        result_mask,
    };
    let fields = BrowseRequest {
        view_id: NodeId::null(),
        view_timestamp: Moment(0),
        view_version: 0,
        requested_max_references_per_node: max_references,
        nodes_to_browse: one(alloc, description)?,
    };
    whole_request(alloc, type_ids::BROWSE_REQUEST, header, fields)
}

#[tactic(auto, unfolding(crate::specs::Messages::browse_next_body))]
fn browse_next_body(
    alloc: Global,
    header: RequestHeader,
    is_release: bool,
    points: Listed<u64>,
) -> Result<Vec<u8>, AllocError>
    ensures ok { IfOk result (λ bytes. bytes.items ≡ browse_next_body header is_release points) }
    ensures again { IfOk result (λ bytes. IsWholeRequest browse_next_request_reading BROWSE_NEXT_REQUEST header (browse_next_fields is_release points) bytes.items) }
{
    let fields = BrowseNextRequest {
        release_continuation_points: is_release,
        continuation_points: list(alloc, points)?,
    };
    whole_request(alloc, type_ids::BROWSE_NEXT_REQUEST, header, fields)
}

#[tactic(auto, unfolding(crate::specs::Messages::history_body))]
fn history_body(
    alloc: Global,
    header: RequestHeader,
    values: RawValues,
) -> Result<Vec<u8>, AllocError>
    ensures ok { IfOk result (λ bytes. bytes.items ≡ history_body header values) }
    ensures again { IfOk result (λ bytes. IsWholeRequest history_read_request_reading HISTORY_READ_REQUEST header (history_fields values) bytes.items) }
{
    let RawValues {
        timestamps,
        start,
        end,
        count,
        node_id,
        point,
    } = values;
    let details = history_details(alloc, start, end, count)?;
    let node = HistoryReadValueId {
        node_id,
        index_range: Text::null(),
        data_encoding: no_name(),
        continuation_point: last_point(alloc, point)?,
    };
    let fields = HistoryReadRequest {
        history_read_details: details,
        timestamps_to_return: TimestampsToReturn(timestamps),
        release_continuation_points: false,
        nodes_to_read: one(alloc, node)?,
    };
    whole_request(alloc, type_ids::HISTORY_READ_REQUEST, header, fields)
}

#[tactic(auto, unfolding(crate::specs::Messages::activate_session_body))]
fn activate_session_body(alloc: Global, header: RequestHeader) -> Result<Vec<u8>, AllocError>
    ensures ok { IfOk result (λ bytes. bytes.items ≡ activate_session_body header) }
    ensures again { IfOk result (λ bytes. IsWholeRequest activate_session_request_reading ACTIVATE_SESSION_REQUEST header activate_session_fields bytes.items) }
{
    let fields = ActivateSessionRequest {
        client_signature: no_signature(),
        client_software_certificates: Array::null(),
        locale_ids: Array::null(),
        user_identity_token: no_object(),
        user_token_signature: no_signature(),
    };
    whole_request(alloc, type_ids::ACTIVATE_SESSION_REQUEST, header, fields)
}

#[tactic(auto, unfolding(crate::specs::Messages::close_session_body))]
fn close_session_body(
    alloc: Global,
    header: RequestHeader,
    subscriptions: Subscriptions,
) -> Result<Vec<u8>, AllocError>
    ensures ok { IfOk result (λ bytes. bytes.items ≡ close_session_body header subscriptions) }
    ensures again { IfOk result (λ bytes. IsWholeRequest close_session_request_reading CLOSE_SESSION_REQUEST header (close_session_fields subscriptions) bytes.items) }
{
    let fields = CloseSessionRequest {
        delete_subscriptions: is_delete(subscriptions),
    };
    whole_request(alloc, type_ids::CLOSE_SESSION_REQUEST, header, fields)
}

#[tactic(auto, unfolding(crate::specs::Messages::create_subscription_body))]
fn create_subscription_body(
    alloc: Global,
    header: RequestHeader,
    counts: Counts,
    publishing: Publishing,
) -> Result<Vec<u8>, AllocError>
    ensures ok { IfOk result (λ bytes. bytes.items ≡ create_subscription_body header counts publishing) }
    ensures again { IfOk result (λ bytes. IsWholeRequest create_subscription_request_reading CREATE_SUBSCRIPTION_REQUEST header (create_subscription_fields counts publishing) bytes.items) }
{
    let fields = CreateSubscriptionRequest {
        requested_publishing_interval: NO_DURATION,
        requested_lifetime_count: counts.lifetime,
        requested_max_keep_alive_count: counts.max_keep_alive,
        max_notifications_per_publish: counts.max_notifications,
        publishing_enabled: is_on(publishing),
        priority: counts.priority,
    };
    whole_request(alloc, type_ids::CREATE_SUBSCRIPTION_REQUEST, header, fields)
}

#[tactic(auto, unfolding(crate::specs::Messages::modify_subscription_body))]
fn modify_subscription_body(
    alloc: Global,
    header: RequestHeader,
    subscription: u32,
    counts: Counts,
) -> Result<Vec<u8>, AllocError>
    ensures ok { IfOk result (λ bytes. bytes.items ≡ modify_subscription_body header subscription counts) }
    ensures again { IfOk result (λ bytes. IsWholeRequest modify_subscription_request_reading MODIFY_SUBSCRIPTION_REQUEST header (modify_subscription_fields subscription counts) bytes.items) }
{
    let fields = ModifySubscriptionRequest {
        subscription_id: subscription,
        requested_publishing_interval: NO_DURATION,
        requested_lifetime_count: counts.lifetime,
        requested_max_keep_alive_count: counts.max_keep_alive,
        max_notifications_per_publish: counts.max_notifications,
        priority: counts.priority,
    };
    whole_request(alloc, type_ids::MODIFY_SUBSCRIPTION_REQUEST, header, fields)
}

#[tactic(auto, unfolding(crate::specs::Messages::set_publishing_body))]
fn set_publishing_body(
    alloc: Global,
    header: RequestHeader,
    publishing: Publishing,
    subscriptions: Listed<u32>,
) -> Result<Vec<u8>, AllocError>
    ensures ok { IfOk result (λ bytes. bytes.items ≡ set_publishing_body header publishing subscriptions) }
    ensures again { IfOk result (λ bytes. IsWholeRequest set_publishing_mode_request_reading SET_PUBLISHING_MODE_REQUEST header (set_publishing_fields publishing subscriptions) bytes.items) }
{
    let fields = SetPublishingModeRequest {
        publishing_enabled: is_on(publishing),
        subscription_ids: held(subscriptions.into_vec())?,
    };
    whole_request(alloc, type_ids::SET_PUBLISHING_MODE_REQUEST, header, fields)
}

#[tactic(auto, unfolding(crate::specs::Messages::create_item_body))]
fn create_item_body(
    alloc: Global,
    header: RequestHeader,
    item: NewItem,
) -> Result<Vec<u8>, AllocError>
    ensures ok { IfOk result (λ bytes. bytes.items ≡ create_item_body header item) }
    ensures again { IfOk result (λ bytes. IsWholeRequest create_monitored_items_request_reading CREATE_MONITORED_ITEMS_REQUEST header (create_item_fields item) bytes.items) }
{
    let NewItem {
        subscription,
        timestamps,
        attribute,
        mode,
        monitoring,
    } = item;
    let create = MonitoredItemCreateRequest {
        item_to_monitor: attribute.ranged(Text::null()),
        monitoring_mode: MonitoringMode(mode),
        requested_parameters: parameters(alloc, monitoring)?,
    };
    let fields = CreateMonitoredItemsRequest {
        subscription_id: subscription,
        timestamps_to_return: TimestampsToReturn(timestamps),
        items_to_create: one(alloc, create)?,
    };
    whole_request(
        alloc,
        type_ids::CREATE_MONITORED_ITEMS_REQUEST,
        header,
        fields,
    )
}

#[tactic(auto, unfolding(crate::specs::Messages::modify_item_body))]
fn modify_item_body(
    alloc: Global,
    header: RequestHeader,
    item: ChangedItem,
) -> Result<Vec<u8>, AllocError>
    ensures ok { IfOk result (λ bytes. bytes.items ≡ modify_item_body header item) }
    ensures again { IfOk result (λ bytes. IsWholeRequest modify_monitored_items_request_reading MODIFY_MONITORED_ITEMS_REQUEST header (modify_item_fields item) bytes.items) }
{
    let modify = MonitoredItemModifyRequest {
        monitored_item_id: item.item,
        requested_parameters: parameters(alloc, item.monitoring)?,
    };
    let fields = ModifyMonitoredItemsRequest {
        subscription_id: item.subscription,
        timestamps_to_return: TimestampsToReturn(item.timestamps),
        items_to_modify: one(alloc, modify)?,
    };
    whole_request(
        alloc,
        type_ids::MODIFY_MONITORED_ITEMS_REQUEST,
        header,
        fields,
    )
}

#[tactic(auto, unfolding(crate::specs::Messages::set_item_mode_body))]
fn set_item_mode_body(
    alloc: Global,
    header: RequestHeader,
    subscription: u32,
    mode: i32,
    items: Listed<u32>,
) -> Result<Vec<u8>, AllocError>
    ensures ok { IfOk result (λ bytes. bytes.items ≡ set_item_mode_body header subscription mode items) }
    ensures again { IfOk result (λ bytes. IsWholeRequest set_monitoring_mode_request_reading SET_MONITORING_MODE_REQUEST header (set_item_mode_fields subscription mode items) bytes.items) }
{
    let fields = SetMonitoringModeRequest {
        subscription_id: subscription,
        monitoring_mode: MonitoringMode(mode),
        monitored_item_ids: held(items.into_vec())?,
    };
    whole_request(alloc, type_ids::SET_MONITORING_MODE_REQUEST, header, fields)
}

// The items that are to be triggered from now on, and those that are to be no longer.
fn links_of(alloc: Global, changes: Vec<LinkChange>) -> Result<(Vec<u32>, Vec<u32>), AllocError>
    ensures { IfOk result (λ links. record { added = links.0.items; removed = links.1.items } ≡ links_of changes.items) }
{
    let mut added = Vec::new(alloc);
    let mut removed = Vec::new(alloc);
    for change in changes {
        match change {
            LinkChange::Add { item } => added.push(item)?,
            LinkChange::Remove { item } => removed.push(item)?,
        }
    }
    Ok((added, removed))
}

#[tactic(auto, unfolding(crate::specs::Messages::set_triggering_body))]
fn set_triggering_body(
    alloc: Global,
    header: RequestHeader,
    subscription: SubscriptionId,
    triggering: u32,
    changes: Listed<LinkChange>,
) -> Result<Vec<u8>, AllocError>
    ensures ok { IfOk result (λ bytes. bytes.items ≡ set_triggering_body header subscription triggering changes) }
    ensures again { IfOk result (λ bytes. IsWholeRequest set_triggering_request_reading SET_TRIGGERING_REQUEST header (set_triggering_fields subscription triggering (links_of changes)) bytes.items) }
{
    let (added, removed) = links_of(alloc, changes.into_vec())?;
    let fields = SetTriggeringRequest {
        subscription_id: subscription.0,
        triggering_item_id: triggering,
        links_to_add: held(added)?,
        links_to_remove: held(removed)?,
    };
    whole_request(alloc, type_ids::SET_TRIGGERING_REQUEST, header, fields)
}

#[tactic(auto, unfolding(crate::specs::Messages::delete_items_body))]
fn delete_items_body(
    alloc: Global,
    header: RequestHeader,
    subscription: u32,
    items: Listed<u32>,
) -> Result<Vec<u8>, AllocError>
    ensures ok { IfOk result (λ bytes. bytes.items ≡ delete_items_body header subscription items) }
    ensures again { IfOk result (λ bytes. IsWholeRequest delete_monitored_items_request_reading DELETE_MONITORED_ITEMS_REQUEST header (delete_items_fields subscription items) bytes.items) }
{
    let fields = DeleteMonitoredItemsRequest {
        subscription_id: subscription,
        monitored_item_ids: held(items.into_vec())?,
    };
    whole_request(
        alloc,
        type_ids::DELETE_MONITORED_ITEMS_REQUEST,
        header,
        fields,
    )
}

#[tactic(auto, unfolding(crate::specs::Messages::publish_body))]
fn publish_body(
    alloc: Global,
    header: RequestHeader,
    acknowledgements: Listed<Acknowledgement>,
) -> Result<Vec<u8>, AllocError>
    ensures ok { IfOk result (λ bytes. bytes.items ≡ publish_body header acknowledgements) }
    ensures again { IfOk result (λ bytes. IsWholeRequest publish_request_reading PUBLISH_REQUEST header (publish_fields acknowledgements) bytes.items) }
{
    let fields = PublishRequest {
        subscription_acknowledgements: list(alloc, acknowledgements)?,
    };
    whole_request(alloc, type_ids::PUBLISH_REQUEST, header, fields)
}

#[tactic(auto, unfolding(crate::specs::Messages::republish_body))]
fn republish_body(
    alloc: Global,
    header: RequestHeader,
    subscription: SubscriptionId,
    sequence_number: u32,
) -> Result<Vec<u8>, AllocError>
    ensures ok { IfOk result (λ bytes. bytes.items ≡ republish_body header subscription sequence_number) }
    ensures again { IfOk result (λ bytes. IsWholeRequest republish_request_reading REPUBLISH_REQUEST header (republish_fields subscription sequence_number) bytes.items) }
{
    let fields = RepublishRequest {
        subscription_id: subscription.0,
        retransmit_sequence_number: sequence_number,
    };
    whole_request(alloc, type_ids::REPUBLISH_REQUEST, header, fields)
}

#[tactic(auto, unfolding(crate::specs::Messages::delete_subscriptions_body))]
fn delete_subscriptions_body(
    alloc: Global,
    header: RequestHeader,
    subscriptions: Listed<u32>,
) -> Result<Vec<u8>, AllocError>
    ensures ok { IfOk result (λ bytes. bytes.items ≡ delete_subscriptions_body header subscriptions) }
    ensures again { IfOk result (λ bytes. IsWholeRequest delete_subscriptions_request_reading DELETE_SUBSCRIPTIONS_REQUEST header (delete_subscriptions_fields subscriptions) bytes.items) }
{
    let fields = DeleteSubscriptionsRequest {
        subscription_ids: held(subscriptions.into_vec())?,
    };
    whole_request(
        alloc,
        type_ids::DELETE_SUBSCRIPTIONS_REQUEST,
        header,
        fields,
    )
}

/// The body of what a session asks, with this header.
#[tactic(auto, unfolding(crate::specs::Messages::request_body))]
pub fn request_body(
    alloc: Global,
    header: RequestHeader,
    request: SessionRequest,
) -> Result<Vec<u8>, AllocError>
    ensures ok { IfOk result (λ bytes. bytes.items ≡ request_body header request) }
    ensures again { IfOk result (λ bytes. IsServiceBody header request bytes.items) }
{
    match request {
        SessionRequest::ActivateSession => activate_session_body(alloc, header),
        SessionRequest::CloseSession { subscriptions } => close_session_body(
            alloc,
            header,
            subscriptions,
        ),
        SessionRequest::Read {
            timestamps,
            attributes,
            range,
        } => read_body(alloc, header, timestamps, attributes, range),
        SessionRequest::Write { values, range } => write_body(alloc, header, values, range),
        SessionRequest::Browse { references } => browse_body(alloc, header, references),
        SessionRequest::BrowseNext { points } => browse_next_body(alloc, header, false, points),
        SessionRequest::ReleasePoints { points } => browse_next_body(alloc, header, true, points),
        SessionRequest::ReadHistory { values } => history_body(alloc, header, values),
        SessionRequest::CreateSubscription { counts, publishing } => {
            create_subscription_body(alloc, header, counts, publishing)
        }
        SessionRequest::ModifySubscription {
            subscription,
            counts,
        } => modify_subscription_body(alloc, header, subscription, counts),
        SessionRequest::SetPublishing {
            publishing,
            subscriptions,
        } => set_publishing_body(alloc, header, publishing, subscriptions),
        SessionRequest::CreateItem { item } => create_item_body(alloc, header, item),
        SessionRequest::ModifyItem { item } => modify_item_body(alloc, header, item),
        SessionRequest::SetItemMode {
            subscription,
            mode,
            items,
        } => set_item_mode_body(alloc, header, subscription, mode, items),
        SessionRequest::SetTriggering {
            subscription,
            triggering,
            changes,
        } => set_triggering_body(
            alloc,
            header,
            SubscriptionId(subscription),
            triggering,
            changes,
        ),
        SessionRequest::DeleteItems {
            subscription,
            items,
        } => delete_items_body(alloc, header, subscription, items),
        SessionRequest::Publish { acknowledgements } => publish_body(
            alloc,
            header,
            acknowledgements,
        ),
        SessionRequest::Republish {
            subscription,
            sequence_number,
        } => republish_body(alloc, header, SubscriptionId(subscription), sequence_number),
        SessionRequest::DeleteSubscriptions { subscriptions } => {
            delete_subscriptions_body(alloc, header, subscriptions)
        }
    }
}

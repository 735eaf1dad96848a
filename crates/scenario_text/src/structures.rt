//! The structures of requests: what a word says stands in its field, and other fields are null or 0.

ghost use Rattle.std.specs.Prelude.{◌≡◌, IfOk, Some};
ghost use Rattle.std.specs.Int.{w64, to_le_bytes};
ghost use Rattle.ua_messages.specs.Structures.{object_around};
ghost use Rattle.ua_messages.specs.declared.type_ids.TheConstants.{READ_RAW_MODIFIED_DETAILS};
ghost use Rattle.ua_service_messages.specs.History.{read_raw_modified_details_encoding};
ghost use Rattle.scenario_text.specs.Structures.{no_object, no_name, no_signature, no_application, plain_request, is_delete as is_delete_spec, is_on as is_on_spec, is_oldest, request_type as request_type_spec, attribute_sent, value_sent, point_sent, last_point_sent, acknowledgement_sent, details_of, filter_sent, parameters_sent};

use crate::choices::{ChannelRequest, Discard, Publishing, Subscriptions};
use crate::requests::{Acknowledgement, Attribute, Monitoring, NewValue};
use crate::sent::{Ranged, Sent};
use std::alloc::{AllocError, Global};
use ua_messages::{
    ApplicationDescription, ApplicationType, ReadValueId, RequestHeader, SecurityTokenRequestType,
    VALUE, extension_object, type_ids,
};
use ua_service_messages::{ReadRawModifiedDetails, SignatureData, WriteValue};
use ua_subscription_messages::{
    DataChangeFilter, DataChangeTrigger, MonitoringParameters, SubscriptionAcknowledgement,
};
use ua_types::{
    Array, ByteString, DataValue, Double, Duration, ExtensionObject, ExtensionObjectBody,
    LocalizedText, Moment, NodeId, QualifiedName, Status, Text,
};

/// No span of time.
pub(crate) const NO_DURATION: Duration = Duration([0; 8]);

/// No structure.
pub(crate) fn no_object() -> ExtensionObject
    ensures { result ≡ no_object }
{
    ExtensionObject {
        type_id: NodeId::null(),
        body: ExtensionObjectBody::Absent,
    }
}

pub(crate) fn no_name() -> QualifiedName
    ensures { result ≡ no_name }
{
    QualifiedName {
        namespace: 0,
        name: Text::null(),
    }
}

pub(crate) fn no_signature() -> SignatureData
    ensures { result ≡ no_signature }
{
    SignatureData {
        algorithm: Text::null(),
        signature: ByteString::null(),
    }
}

pub(crate) fn no_application() -> ApplicationDescription
    ensures { result ≡ no_application }
{
    ApplicationDescription {
        application_uri: Text::null(),
        product_uri: Text::null(),
        application_name: LocalizedText {
            locale: Text::null(),
            text: Text::null(),
        },
        application_type: ApplicationType(0),
        gateway_server_uri: Text::null(),
        discovery_profile_uri: Text::null(),
        discovery_urls: Array::null(),
    }
}

/// The header of a request: the session's token, or null, and the handle.
pub fn request_header(authentication_token: NodeId, request_handle: u32) -> RequestHeader
    ensures { result ≡ plain_request authentication_token request_handle }
{
    RequestHeader {
        authentication_token,
        timestamp: Moment(0),
        request_handle,
        return_diagnostics: 0,
        audit_entry_id: Text::null(),
        timeout_hint: 0,
        additional_header: no_object(),
    }
}

pub(crate) fn is_delete(subscriptions: Subscriptions) -> bool
    ensures { result ≡ is_delete_spec subscriptions }
{
    match subscriptions {
        Subscriptions::Delete => true,
        Subscriptions::Keep => false,
    }
}

pub(crate) fn is_on(publishing: Publishing) -> bool
    ensures { result ≡ is_on_spec publishing }
{
    match publishing {
        Publishing::On => true,
        Publishing::Off => false,
    }
}

fn is_oldest(discard: Discard) -> bool
    ensures { result ≡ is_oldest discard }
{
    match discard {
        Discard::Oldest => true,
        Discard::Newest => false,
    }
}

pub(crate) fn request_type(request: ChannelRequest) -> SecurityTokenRequestType
    ensures { result ≡ request_type_spec request }
{
    match request {
        ChannelRequest::Issue => SecurityTokenRequestType::ISSUE,
        ChannelRequest::Renew => SecurityTokenRequestType::RENEW,
    }
}

impl Ranged for Attribute {
    type Form = ReadValueId;

    ghost form = { attribute_sent };

    fn ranged(self, range: Text) -> ReadValueId {
        let Attribute {
            node_id,
            attribute_id,
        } = self;
        ReadValueId {
            node_id,
            attribute_id,
            index_range: range,
            data_encoding: no_name(),
        }
    }
}

impl Ranged for NewValue {
    type Form = WriteValue;

    ghost form = { value_sent };

    fn ranged(self, range: Text) -> WriteValue {
        let NewValue {
            node_id,
            value,
            source_time,
        } = self;
        WriteValue {
            node_id,
            attribute_id: VALUE,
            index_range: range,
            value: DataValue {
                value: Some(value),
                status: Status::GOOD,
                source_time,
                server_time: None,
            },
        }
    }
}

/// A continuation point: its serial, the lowest byte first.
impl Sent for u64 {
    type Form = ByteString;

    ghost form = { point_sent };

    fn sent(self, alloc: Global) -> Result<ByteString, AllocError> {
        ByteString::from_slice(alloc, &self.to_le_bytes()[..])
    }
}

pub(crate) fn last_point(alloc: Global, point: Option<u64>) -> Result<ByteString, AllocError>
    ensures { IfOk result (λ b. b ≡ last_point_sent point) }
{
    match point {
        None => Ok(ByteString::null()),
        Some(serial) => serial.sent(alloc),
    }
}

impl Sent for Acknowledgement {
    type Form = SubscriptionAcknowledgement;

    ghost form = { acknowledgement_sent };

    fn sent(self, _alloc: Global) -> Result<SubscriptionAcknowledgement, AllocError> {
        Ok(SubscriptionAcknowledgement {
            subscription_id: self.subscription,
            sequence_number: self.sequence_number,
        })
    }
}

/// Which raw values are wanted.
pub(crate) fn history_details(
    alloc: Global,
    start: Moment,
    end: Moment,
    count: u32,
) -> Result<ExtensionObject, AllocError>
    ensures { IfOk result (λ object. object ≡ object_around READ_RAW_MODIFIED_DETAILS
        (read_raw_modified_details_encoding (details_of start end count))) }
{
    let details = ReadRawModifiedDetails {
        is_read_modified: false,
        start_time: start,
        end_time: end,
        num_values_per_node: count,
        return_bounds: false,
    };
    extension_object(alloc, type_ids::READ_RAW_MODIFIED_DETAILS, &details)
}

#[tactic(auto, unfolding(crate::specs::Structures::filter_sent))]
fn filter(alloc: Global, trigger: i32) -> Result<ExtensionObject, AllocError>
    ensures { IfOk result (λ object. object ≡ filter_sent trigger) }
{
    let filter = DataChangeFilter {
        trigger: DataChangeTrigger(trigger),
        deadband_type: 0,
        deadband_value: Double([0; 8]),
    };
    extension_object(alloc, type_ids::DATA_CHANGE_FILTER, &filter)
}

/// How an item is monitored.
pub(crate) fn parameters(
    alloc: Global,
    monitoring: Monitoring,
) -> Result<MonitoringParameters, AllocError>
    ensures { IfOk result (λ p. p ≡ parameters_sent monitoring) }
{
    Ok(MonitoringParameters {
        client_handle: monitoring.client_handle,
        sampling_interval: NO_DURATION,
        filter: filter(alloc, monitoring.trigger)?,
        queue_size: monitoring.queue_size,
        discard_oldest: is_oldest(monitoring.discard),
    })
}

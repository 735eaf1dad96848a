//! The standard's names of what the server sends.

use ua_messages::type_ids::*;
use ua_types::Status;

// Messages by the ids of their binary encodings (IEC 62541-6, Annex A).
const MESSAGES: [(u32, &str); 22] = [
    (SERVICE_FAULT, "ServiceFault"),
    (GET_ENDPOINTS_RESPONSE, "GetEndpointsResponse"),
    (OPEN_SECURE_CHANNEL_RESPONSE, "OpenSecureChannelResponse"),
    (CREATE_SESSION_RESPONSE, "CreateSessionResponse"),
    (ACTIVATE_SESSION_RESPONSE, "ActivateSessionResponse"),
    (CLOSE_SESSION_RESPONSE, "CloseSessionResponse"),
    (BROWSE_RESPONSE, "BrowseResponse"),
    (BROWSE_NEXT_RESPONSE, "BrowseNextResponse"),
    (READ_RESPONSE, "ReadResponse"),
    (HISTORY_READ_RESPONSE, "HistoryReadResponse"),
    (WRITE_RESPONSE, "WriteResponse"),
    (
        CREATE_MONITORED_ITEMS_RESPONSE,
        "CreateMonitoredItemsResponse",
    ),
    (
        MODIFY_MONITORED_ITEMS_RESPONSE,
        "ModifyMonitoredItemsResponse",
    ),
    (SET_MONITORING_MODE_RESPONSE, "SetMonitoringModeResponse"),
    (SET_TRIGGERING_RESPONSE, "SetTriggeringResponse"),
    (
        DELETE_MONITORED_ITEMS_RESPONSE,
        "DeleteMonitoredItemsResponse",
    ),
    (CREATE_SUBSCRIPTION_RESPONSE, "CreateSubscriptionResponse"),
    (MODIFY_SUBSCRIPTION_RESPONSE, "ModifySubscriptionResponse"),
    (SET_PUBLISHING_MODE_RESPONSE, "SetPublishingModeResponse"),
    (PUBLISH_RESPONSE, "PublishResponse"),
    (REPUBLISH_RESPONSE, "RepublishResponse"),
    (DELETE_SUBSCRIPTIONS_RESPONSE, "DeleteSubscriptionsResponse"),
];

// The statuses that the server answers with (docs/SERVICES.md has them with their numbers).
const STATUSES: [(Status, &str); 49] = [
    (Status::GOOD, "Good"),
    (Status::GOOD_NO_DATA, "Good_NoData"),
    (Status::BAD_DECODING_ERROR, "Bad_DecodingError"),
    (Status::BAD_TIMEOUT, "Bad_Timeout"),
    (Status::BAD_SERVICE_UNSUPPORTED, "Bad_ServiceUnsupported"),
    (Status::BAD_SHUTDOWN, "Bad_Shutdown"),
    (Status::BAD_NOTHING_TO_DO, "Bad_NothingToDo"),
    (Status::BAD_TOO_MANY_OPERATIONS, "Bad_TooManyOperations"),
    (
        Status::BAD_IDENTITY_TOKEN_REJECTED,
        "Bad_IdentityTokenRejected",
    ),
    (
        Status::BAD_SECURE_CHANNEL_ID_INVALID,
        "Bad_SecureChannelIdInvalid",
    ),
    (Status::BAD_SESSION_ID_INVALID, "Bad_SessionIdInvalid"),
    (Status::BAD_SESSION_CLOSED, "Bad_SessionClosed"),
    (Status::BAD_SESSION_NOT_ACTIVATED, "Bad_SessionNotActivated"),
    (
        Status::BAD_SUBSCRIPTION_ID_INVALID,
        "Bad_SubscriptionIdInvalid",
    ),
    (
        Status::BAD_TIMESTAMPS_TO_RETURN_INVALID,
        "Bad_TimestampsToReturnInvalid",
    ),
    (Status::BAD_NODE_ID_UNKNOWN, "Bad_NodeIdUnknown"),
    (Status::BAD_ATTRIBUTE_ID_INVALID, "Bad_AttributeIdInvalid"),
    (Status::BAD_INDEX_RANGE_INVALID, "Bad_IndexRangeInvalid"),
    (Status::BAD_NOT_READABLE, "Bad_NotReadable"),
    (Status::BAD_NOT_WRITABLE, "Bad_NotWritable"),
    (
        Status::BAD_MONITORING_MODE_INVALID,
        "Bad_MonitoringModeInvalid",
    ),
    (
        Status::BAD_MONITORED_ITEM_ID_INVALID,
        "Bad_MonitoredItemIdInvalid",
    ),
    (
        Status::BAD_MONITORED_ITEM_FILTER_UNSUPPORTED,
        "Bad_MonitoredItemFilterUnsupported",
    ),
    (
        Status::BAD_CONTINUATION_POINT_INVALID,
        "Bad_ContinuationPointInvalid",
    ),
    (
        Status::BAD_NO_CONTINUATION_POINTS,
        "Bad_NoContinuationPoints",
    ),
    (
        Status::BAD_REFERENCE_TYPE_ID_INVALID,
        "Bad_ReferenceTypeIdInvalid",
    ),
    (
        Status::BAD_BROWSE_DIRECTION_INVALID,
        "Bad_BrowseDirectionInvalid",
    ),
    (
        Status::BAD_SECURITY_MODE_REJECTED,
        "Bad_SecurityModeRejected",
    ),
    (
        Status::BAD_SECURITY_POLICY_REJECTED,
        "Bad_SecurityPolicyRejected",
    ),
    (Status::BAD_TOO_MANY_SESSIONS, "Bad_TooManySessions"),
    (Status::BAD_VIEW_ID_UNKNOWN, "Bad_ViewIdUnknown"),
    (
        Status::BAD_HISTORY_OPERATION_INVALID,
        "Bad_HistoryOperationInvalid",
    ),
    (
        Status::BAD_HISTORY_OPERATION_UNSUPPORTED,
        "Bad_HistoryOperationUnsupported",
    ),
    (Status::BAD_WRITE_NOT_SUPPORTED, "Bad_WriteNotSupported"),
    (Status::BAD_TYPE_MISMATCH, "Bad_TypeMismatch"),
    (
        Status::BAD_TOO_MANY_SUBSCRIPTIONS,
        "Bad_TooManySubscriptions",
    ),
    (
        Status::BAD_TOO_MANY_PUBLISH_REQUESTS,
        "Bad_TooManyPublishRequests",
    ),
    (Status::BAD_NO_SUBSCRIPTION, "Bad_NoSubscription"),
    (
        Status::BAD_SEQUENCE_NUMBER_UNKNOWN,
        "Bad_SequenceNumberUnknown",
    ),
    (Status::BAD_MESSAGE_NOT_AVAILABLE, "Bad_MessageNotAvailable"),
    (
        Status::BAD_TCP_MESSAGE_TYPE_INVALID,
        "Bad_TcpMessageTypeInvalid",
    ),
    (
        Status::BAD_TCP_SECURE_CHANNEL_UNKNOWN,
        "Bad_TcpSecureChannelUnknown",
    ),
    (Status::BAD_TCP_MESSAGE_TOO_LARGE, "Bad_TcpMessageTooLarge"),
    (
        Status::BAD_TCP_NOT_ENOUGH_RESOURCES,
        "Bad_TcpNotEnoughResources",
    ),
    (
        Status::BAD_TCP_ENDPOINT_URL_INVALID,
        "Bad_TcpEndpointUrlInvalid",
    ),
    (
        Status::BAD_SECURE_CHANNEL_TOKEN_UNKNOWN,
        "Bad_SecureChannelTokenUnknown",
    ),
    (
        Status::BAD_SEQUENCE_NUMBER_INVALID,
        "Bad_SequenceNumberInvalid",
    ),
    (Status::BAD_RESPONSE_TOO_LARGE, "Bad_ResponseTooLarge"),
    (
        Status::BAD_TOO_MANY_MONITORED_ITEMS,
        "Bad_TooManyMonitoredItems",
    ),
];

/// The name of the message whose encoding has this number.
pub(crate) fn message_name(number: u32) -> Option<&'static str> {
    for (known, name) in MESSAGES {
        if known == number {
            return Some(name);
        }
    }
    None
}

/// The name of a status, as the standard writes it.
pub(crate) fn status_name(status: Status) -> Option<&'static str> {
    for (known, name) in STATUSES {
        if known == status {
            return Some(name);
        }
    }
    None
}

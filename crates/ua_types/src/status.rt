//! Status codes.

/// The outcome of an operation (StatusCode, IEC 62541-4). 0 is good; the two highest bits are
/// 10 where it is bad.
///
/// The constants are the codes that this server sends (IEC 62541-6, Annex A).
#[derive(Clone, Copy, Debug, PartialEq, Eq, PartialOrd, Ord)]
pub struct Status(pub u32);

impl Status {
    /// The operation succeeded.
    pub const GOOD: Status = Status(0);

    /// Nothing is wrong, and there is no data.
    pub const GOOD_NO_DATA: Status = Status(0x00A5_0000);

    /// Bytes could not be read as what they should be.
    pub const BAD_DECODING_ERROR: Status = Status(0x8007_0000);

    /// A time ran out, as the lifetime of a subscription.
    pub const BAD_TIMEOUT: Status = Status(0x800A_0000);

    /// The server doesn't serve this request.
    pub const BAD_SERVICE_UNSUPPORTED: Status = Status(0x800B_0000);

    /// The server is shutting down.
    pub const BAD_SHUTDOWN: Status = Status(0x800C_0000);

    /// A request's list is empty or null.
    pub const BAD_NOTHING_TO_DO: Status = Status(0x800F_0000);

    /// A request's list is longer than the server allows.
    pub const BAD_TOO_MANY_OPERATIONS: Status = Status(0x8010_0000);

    /// The user's identity is refused.
    pub const BAD_IDENTITY_TOKEN_REJECTED: Status = Status(0x8021_0000);

    /// The secure channel is another one.
    pub const BAD_SECURE_CHANNEL_ID_INVALID: Status = Status(0x8022_0000);

    /// The session is unknown.
    pub const BAD_SESSION_ID_INVALID: Status = Status(0x8025_0000);

    /// The session was closed.
    pub const BAD_SESSION_CLOSED: Status = Status(0x8026_0000);

    /// The session wasn't activated.
    pub const BAD_SESSION_NOT_ACTIVATED: Status = Status(0x8027_0000);

    /// The subscription is unknown.
    pub const BAD_SUBSCRIPTION_ID_INVALID: Status = Status(0x8028_0000);

    /// The choice of timestamps has no meaning.
    pub const BAD_TIMESTAMPS_TO_RETURN_INVALID: Status = Status(0x802B_0000);

    /// No node has this id.
    pub const BAD_NODE_ID_UNKNOWN: Status = Status(0x8034_0000);

    /// The node doesn't have this attribute.
    pub const BAD_ATTRIBUTE_ID_INVALID: Status = Status(0x8035_0000);

    /// The index range has no meaning.
    pub const BAD_INDEX_RANGE_INVALID: Status = Status(0x8036_0000);

    /// The index range has no data.
    pub const BAD_INDEX_RANGE_NO_DATA: Status = Status(0x8037_0000);

    /// The value may not be read.
    pub const BAD_NOT_READABLE: Status = Status(0x803A_0000);

    /// The attribute may not be written.
    pub const BAD_NOT_WRITABLE: Status = Status(0x803B_0000);

    /// The monitoring mode has no meaning.
    pub const BAD_MONITORING_MODE_INVALID: Status = Status(0x8041_0000);

    /// The monitored item is unknown.
    pub const BAD_MONITORED_ITEM_ID_INVALID: Status = Status(0x8042_0000);

    /// The server doesn't have this filter.
    pub const BAD_MONITORED_ITEM_FILTER_UNSUPPORTED: Status = Status(0x8044_0000);

    /// The continuation point is unknown.
    pub const BAD_CONTINUATION_POINT_INVALID: Status = Status(0x804A_0000);

    /// All continuation points of the session are in use.
    pub const BAD_NO_CONTINUATION_POINTS: Status = Status(0x804B_0000);

    /// The node isn't a reference type.
    pub const BAD_REFERENCE_TYPE_ID_INVALID: Status = Status(0x804C_0000);

    /// The browse direction has no meaning.
    pub const BAD_BROWSE_DIRECTION_INVALID: Status = Status(0x804D_0000);

    /// The server doesn't have this security mode.
    pub const BAD_SECURITY_MODE_REJECTED: Status = Status(0x8054_0000);

    /// The server doesn't have this security policy.
    pub const BAD_SECURITY_POLICY_REJECTED: Status = Status(0x8055_0000);

    /// The server holds as many sessions as it can.
    pub const BAD_TOO_MANY_SESSIONS: Status = Status(0x8056_0000);

    /// No view has this id.
    pub const BAD_VIEW_ID_UNKNOWN: Status = Status(0x806B_0000);

    /// The details of a history request are malformed.
    pub const BAD_HISTORY_OPERATION_INVALID: Status = Status(0x8071_0000);

    /// The server doesn't have this history operation.
    pub const BAD_HISTORY_OPERATION_UNSUPPORTED: Status = Status(0x8072_0000);

    /// This combination of value, status and times can't be written.
    pub const BAD_WRITE_NOT_SUPPORTED: Status = Status(0x8073_0000);

    /// The value isn't of the node's type.
    pub const BAD_TYPE_MISMATCH: Status = Status(0x8074_0000);

    /// The session holds as many subscriptions as it can.
    pub const BAD_TOO_MANY_SUBSCRIPTIONS: Status = Status(0x8077_0000);

    /// Too many Publish requests are queued.
    pub const BAD_TOO_MANY_PUBLISH_REQUESTS: Status = Status(0x8078_0000);

    /// The session has no subscription.
    pub const BAD_NO_SUBSCRIPTION: Status = Status(0x8079_0000);

    /// No message with this number is kept.
    pub const BAD_SEQUENCE_NUMBER_UNKNOWN: Status = Status(0x807A_0000);

    /// The message asked for isn't kept any more.
    pub const BAD_MESSAGE_NOT_AVAILABLE: Status = Status(0x807B_0000);

    /// The type of a frame has no meaning, or no meaning here.
    pub const BAD_TCP_MESSAGE_TYPE_INVALID: Status = Status(0x807E_0000);

    /// The frame's secure channel isn't open.
    pub const BAD_TCP_SECURE_CHANNEL_UNKNOWN: Status = Status(0x807F_0000);

    /// A frame or message is larger than the limits allow.
    pub const BAD_TCP_MESSAGE_TOO_LARGE: Status = Status(0x8080_0000);

    /// The limits asked for are too small, or the server has no room.
    pub const BAD_TCP_NOT_ENOUGH_RESOURCES: Status = Status(0x8081_0000);

    /// The URL of a Hello is refused.
    pub const BAD_TCP_ENDPOINT_URL_INVALID: Status = Status(0x8083_0000);

    /// The frame's security token isn't in use.
    pub const BAD_SECURE_CHANNEL_TOKEN_UNKNOWN: Status = Status(0x8087_0000);

    /// The frame's sequence number doesn't follow the one before.
    pub const BAD_SEQUENCE_NUMBER_INVALID: Status = Status(0x8088_0000);

    /// The answer is larger than the client's limits allow.
    pub const BAD_RESPONSE_TOO_LARGE: Status = Status(0x80B9_0000);

    /// The subscription holds as many monitored items as it can.
    pub const BAD_TOO_MANY_MONITORED_ITEMS: Status = Status(0x80DB_0000);
}

//! What holds of codes and ids.

ghost use Rattle.std.specs.Prelude.{◌≡◌};
ghost use Rattle.ua_types.specs.IdOrder.{IdsGoByNamespace};
ghost use Rattle.ua_types.specs.declared.number_range.TheConstants.NumberRange as ranges;
ghost use Rattle.ua_types.specs.declared.status.TheConstants.Status as status;

/// Each status has the code of the standard (IEC 62541-6, Annex A).
pub fn statuses_have_the_standards_codes()
    ensures good { status.GOOD.0 ≡ 0x00000000 }
    ensures good_no_data { status.GOOD_NO_DATA.0 ≡ 0x00A50000 }
    ensures bad_decoding_error { status.BAD_DECODING_ERROR.0 ≡ 0x80070000 }
    ensures bad_timeout { status.BAD_TIMEOUT.0 ≡ 0x800A0000 }
    ensures bad_service_unsupported { status.BAD_SERVICE_UNSUPPORTED.0 ≡ 0x800B0000 }
    ensures bad_shutdown { status.BAD_SHUTDOWN.0 ≡ 0x800C0000 }
    ensures bad_nothing_to_do { status.BAD_NOTHING_TO_DO.0 ≡ 0x800F0000 }
    ensures bad_too_many_operations { status.BAD_TOO_MANY_OPERATIONS.0 ≡ 0x80100000 }
    ensures bad_identity_token_rejected { status.BAD_IDENTITY_TOKEN_REJECTED.0 ≡ 0x80210000 }
    ensures bad_secure_channel_id_invalid { status.BAD_SECURE_CHANNEL_ID_INVALID.0 ≡ 0x80220000 }
    ensures bad_session_id_invalid { status.BAD_SESSION_ID_INVALID.0 ≡ 0x80250000 }
    ensures bad_session_closed { status.BAD_SESSION_CLOSED.0 ≡ 0x80260000 }
    ensures bad_session_not_activated { status.BAD_SESSION_NOT_ACTIVATED.0 ≡ 0x80270000 }
    ensures bad_subscription_id_invalid { status.BAD_SUBSCRIPTION_ID_INVALID.0 ≡ 0x80280000 }
    ensures bad_timestamps_to_return_invalid { status.BAD_TIMESTAMPS_TO_RETURN_INVALID.0 ≡ 0x802B0000 }
    ensures bad_node_id_unknown { status.BAD_NODE_ID_UNKNOWN.0 ≡ 0x80340000 }
    ensures bad_attribute_id_invalid { status.BAD_ATTRIBUTE_ID_INVALID.0 ≡ 0x80350000 }
    ensures bad_index_range_invalid { status.BAD_INDEX_RANGE_INVALID.0 ≡ 0x80360000 }
    ensures bad_index_range_no_data { status.BAD_INDEX_RANGE_NO_DATA.0 ≡ 0x80370000 }
    ensures bad_not_readable { status.BAD_NOT_READABLE.0 ≡ 0x803A0000 }
    ensures bad_not_writable { status.BAD_NOT_WRITABLE.0 ≡ 0x803B0000 }
    ensures bad_monitoring_mode_invalid { status.BAD_MONITORING_MODE_INVALID.0 ≡ 0x80410000 }
    ensures bad_monitored_item_id_invalid { status.BAD_MONITORED_ITEM_ID_INVALID.0 ≡ 0x80420000 }
    ensures bad_monitored_item_filter_unsupported { status.BAD_MONITORED_ITEM_FILTER_UNSUPPORTED.0 ≡ 0x80440000 }
    ensures bad_continuation_point_invalid { status.BAD_CONTINUATION_POINT_INVALID.0 ≡ 0x804A0000 }
    ensures bad_no_continuation_points { status.BAD_NO_CONTINUATION_POINTS.0 ≡ 0x804B0000 }
    ensures bad_reference_type_id_invalid { status.BAD_REFERENCE_TYPE_ID_INVALID.0 ≡ 0x804C0000 }
    ensures bad_browse_direction_invalid { status.BAD_BROWSE_DIRECTION_INVALID.0 ≡ 0x804D0000 }
    ensures bad_security_mode_rejected { status.BAD_SECURITY_MODE_REJECTED.0 ≡ 0x80540000 }
    ensures bad_security_policy_rejected { status.BAD_SECURITY_POLICY_REJECTED.0 ≡ 0x80550000 }
    ensures bad_too_many_sessions { status.BAD_TOO_MANY_SESSIONS.0 ≡ 0x80560000 }
    ensures bad_view_id_unknown { status.BAD_VIEW_ID_UNKNOWN.0 ≡ 0x806B0000 }
    ensures bad_history_operation_invalid { status.BAD_HISTORY_OPERATION_INVALID.0 ≡ 0x80710000 }
    ensures bad_history_operation_unsupported { status.BAD_HISTORY_OPERATION_UNSUPPORTED.0 ≡ 0x80720000 }
    ensures bad_write_not_supported { status.BAD_WRITE_NOT_SUPPORTED.0 ≡ 0x80730000 }
    ensures bad_type_mismatch { status.BAD_TYPE_MISMATCH.0 ≡ 0x80740000 }
    ensures bad_too_many_subscriptions { status.BAD_TOO_MANY_SUBSCRIPTIONS.0 ≡ 0x80770000 }
    ensures bad_too_many_publish_requests { status.BAD_TOO_MANY_PUBLISH_REQUESTS.0 ≡ 0x80780000 }
    ensures bad_no_subscription { status.BAD_NO_SUBSCRIPTION.0 ≡ 0x80790000 }
    ensures bad_sequence_number_unknown { status.BAD_SEQUENCE_NUMBER_UNKNOWN.0 ≡ 0x807A0000 }
    ensures bad_message_not_available { status.BAD_MESSAGE_NOT_AVAILABLE.0 ≡ 0x807B0000 }
    ensures bad_tcp_message_type_invalid { status.BAD_TCP_MESSAGE_TYPE_INVALID.0 ≡ 0x807E0000 }
    ensures bad_tcp_secure_channel_unknown { status.BAD_TCP_SECURE_CHANNEL_UNKNOWN.0 ≡ 0x807F0000 }
    ensures bad_tcp_message_too_large { status.BAD_TCP_MESSAGE_TOO_LARGE.0 ≡ 0x80800000 }
    ensures bad_tcp_not_enough_resources { status.BAD_TCP_NOT_ENOUGH_RESOURCES.0 ≡ 0x80810000 }
    ensures bad_tcp_endpoint_url_invalid { status.BAD_TCP_ENDPOINT_URL_INVALID.0 ≡ 0x80830000 }
    ensures bad_secure_channel_token_unknown { status.BAD_SECURE_CHANNEL_TOKEN_UNKNOWN.0 ≡ 0x80870000 }
    ensures bad_sequence_number_invalid { status.BAD_SEQUENCE_NUMBER_INVALID.0 ≡ 0x80880000 }
    ensures bad_response_too_large { status.BAD_RESPONSE_TOO_LARGE.0 ≡ 0x80B90000 }
    ensures bad_too_many_monitored_items { status.BAD_TOO_MANY_MONITORED_ITEMS.0 ≡ 0x80DB0000 }
{}

/// Node ids, and so the nodes of an address space, go by namespace first; within one, numbers come before texts, texts
/// before Guids and Guids before opaque bytes; then a number by its size, a text or bytes by the first byte that differs,
/// null before any, and a Guid part by part.
#[tactic(auto, using(crate::proofs::IdOrders::ids_go_by_namespace))]
pub fn ids_go_by_namespace()
    ensures { IdsGoByNamespace }
{}

/// The numbers of a configuration have these ranges.
pub fn ranges_are_these()
    ensures receive_size { ranges.RECEIVE_SIZE ≡ record { least = 1024; most = 1048576 } }
    ensures send_size { ranges.SEND_SIZE ≡ record { least = 1024; most = 1048576 } }
    ensures max_message { ranges.MAX_MESSAGE ≡ record { least = 1024; most = 16777216 } }
    ensures max_chunks { ranges.MAX_CHUNKS ≡ record { least = 1; most = 65535 } }
    ensures lifetime_ms { ranges.LIFETIME_MS ≡ record { least = 1; most = 4294967295 } }
    ensures connections { ranges.CONNECTIONS ≡ record { least = 1; most = 100000 } }
    ensures sessions { ranges.SESSIONS ≡ record { least = 1; most = 100000 } }
    ensures subscriptions { ranges.SUBSCRIPTIONS ≡ record { least = 1; most = 100000 } }
    ensures items { ranges.ITEMS ≡ record { least = 1; most = 100000 } }
    ensures queue { ranges.QUEUE ≡ record { least = 1; most = 1000000 } }
    ensures publish_queue { ranges.PUBLISH_QUEUE ≡ record { least = 1; most = 100000 } }
    ensures kept { ranges.KEPT ≡ record { least = 1; most = 100000 } }
    ensures notifications { ranges.NOTIFICATIONS ≡ record { least = 1; most = 100000 } }
    ensures points { ranges.POINTS ≡ record { least = 1; most = 100000 } }
    ensures references { ranges.REFERENCES ≡ record { least = 1; most = 100000 } }
    ensures operations { ranges.OPERATIONS ≡ record { least = 1; most = 100000 } }
    ensures history_page { ranges.HISTORY_PAGE ≡ record { least = 1; most = 100000 } }
    ensures history { ranges.HISTORY ≡ record { least = 1; most = 10000000 } }
    ensures session_time { ranges.SESSION_TIME ≡ record { least = 1; most = 1000000000000000 } }
    ensures publish_time { ranges.PUBLISH_TIME ≡ record { least = 1; most = 1000000000000000 } }
{}

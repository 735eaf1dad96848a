//! What holds of the numbers that the standard gives, and of requests.

ghost use Rattle.std.specs.Prelude.{◌≡◌, pos, ℕ, List};
ghost use Rattle.ua_messages.specs.Bodies.{message_of};
ghost use Rattle.ua_messages.specs.Requests.{headed_of, request_by, requested_reading};
ghost use Rattle.ua_messages.specs.declared.enumerations.TheConstants.ApplicationType as application_type;
ghost use Rattle.ua_messages.specs.declared.enumerations.TheConstants.MessageSecurityMode as security_mode;
ghost use Rattle.ua_messages.specs.declared.enumerations.TheConstants.SecurityTokenRequestType as request_type;
ghost use Rattle.ua_messages.specs.declared.enumerations.TheConstants.TimestampsToReturn as timestamps;
ghost use Rattle.ua_messages.specs.declared.enumerations.TheConstants.UserTokenType as token_type;
ghost use Rattle.ua_messages.specs.declared.type_ids.TheConstants as type_id;

use ua_binary::Wire;

/// Each encoding has the id of the standard (IEC 62541-6, Annex A).
pub fn encodings_have_the_standards_ids()
    ensures anonymous_identity_token { type_id.ANONYMOUS_IDENTITY_TOKEN ≡ 321 }
    ensures service_fault { type_id.SERVICE_FAULT ≡ 397 }
    ensures get_endpoints_request { type_id.GET_ENDPOINTS_REQUEST ≡ 428 }
    ensures get_endpoints_response { type_id.GET_ENDPOINTS_RESPONSE ≡ 431 }
    ensures open_secure_channel_request { type_id.OPEN_SECURE_CHANNEL_REQUEST ≡ 446 }
    ensures open_secure_channel_response { type_id.OPEN_SECURE_CHANNEL_RESPONSE ≡ 449 }
    ensures close_secure_channel_request { type_id.CLOSE_SECURE_CHANNEL_REQUEST ≡ 452 }
    ensures create_session_request { type_id.CREATE_SESSION_REQUEST ≡ 461 }
    ensures create_session_response { type_id.CREATE_SESSION_RESPONSE ≡ 464 }
    ensures activate_session_request { type_id.ACTIVATE_SESSION_REQUEST ≡ 467 }
    ensures activate_session_response { type_id.ACTIVATE_SESSION_RESPONSE ≡ 470 }
    ensures close_session_request { type_id.CLOSE_SESSION_REQUEST ≡ 473 }
    ensures close_session_response { type_id.CLOSE_SESSION_RESPONSE ≡ 476 }
    ensures browse_request { type_id.BROWSE_REQUEST ≡ 527 }
    ensures browse_response { type_id.BROWSE_RESPONSE ≡ 530 }
    ensures browse_next_request { type_id.BROWSE_NEXT_REQUEST ≡ 533 }
    ensures browse_next_response { type_id.BROWSE_NEXT_RESPONSE ≡ 536 }
    ensures read_request { type_id.READ_REQUEST ≡ 631 }
    ensures read_response { type_id.READ_RESPONSE ≡ 634 }
    ensures read_raw_modified_details { type_id.READ_RAW_MODIFIED_DETAILS ≡ 649 }
    ensures history_data { type_id.HISTORY_DATA ≡ 658 }
    ensures history_read_request { type_id.HISTORY_READ_REQUEST ≡ 664 }
    ensures history_read_response { type_id.HISTORY_READ_RESPONSE ≡ 667 }
    ensures write_request { type_id.WRITE_REQUEST ≡ 673 }
    ensures write_response { type_id.WRITE_RESPONSE ≡ 676 }
    ensures data_change_filter { type_id.DATA_CHANGE_FILTER ≡ 724 }
    ensures create_monitored_items_request { type_id.CREATE_MONITORED_ITEMS_REQUEST ≡ 751 }
    ensures create_monitored_items_response { type_id.CREATE_MONITORED_ITEMS_RESPONSE ≡ 754 }
    ensures modify_monitored_items_request { type_id.MODIFY_MONITORED_ITEMS_REQUEST ≡ 763 }
    ensures modify_monitored_items_response { type_id.MODIFY_MONITORED_ITEMS_RESPONSE ≡ 766 }
    ensures set_monitoring_mode_request { type_id.SET_MONITORING_MODE_REQUEST ≡ 769 }
    ensures set_monitoring_mode_response { type_id.SET_MONITORING_MODE_RESPONSE ≡ 772 }
    ensures set_triggering_request { type_id.SET_TRIGGERING_REQUEST ≡ 775 }
    ensures set_triggering_response { type_id.SET_TRIGGERING_RESPONSE ≡ 778 }
    ensures delete_monitored_items_request { type_id.DELETE_MONITORED_ITEMS_REQUEST ≡ 781 }
    ensures delete_monitored_items_response { type_id.DELETE_MONITORED_ITEMS_RESPONSE ≡ 784 }
    ensures create_subscription_request { type_id.CREATE_SUBSCRIPTION_REQUEST ≡ 787 }
    ensures create_subscription_response { type_id.CREATE_SUBSCRIPTION_RESPONSE ≡ 790 }
    ensures modify_subscription_request { type_id.MODIFY_SUBSCRIPTION_REQUEST ≡ 793 }
    ensures modify_subscription_response { type_id.MODIFY_SUBSCRIPTION_RESPONSE ≡ 796 }
    ensures set_publishing_mode_request { type_id.SET_PUBLISHING_MODE_REQUEST ≡ 799 }
    ensures set_publishing_mode_response { type_id.SET_PUBLISHING_MODE_RESPONSE ≡ 802 }
    ensures data_change_notification { type_id.DATA_CHANGE_NOTIFICATION ≡ 811 }
    ensures status_change_notification { type_id.STATUS_CHANGE_NOTIFICATION ≡ 820 }
    ensures publish_request { type_id.PUBLISH_REQUEST ≡ 826 }
    ensures publish_response { type_id.PUBLISH_RESPONSE ≡ 829 }
    ensures republish_request { type_id.REPUBLISH_REQUEST ≡ 832 }
    ensures republish_response { type_id.REPUBLISH_RESPONSE ≡ 835 }
    ensures delete_subscriptions_request { type_id.DELETE_SUBSCRIPTIONS_REQUEST ≡ 847 }
    ensures delete_subscriptions_response { type_id.DELETE_SUBSCRIPTIONS_RESPONSE ≡ 850 }
{}

/// Each value of an enumeration has the number of the standard (IEC 62541-4, section 7).
pub fn enumerations_have_the_standards_numbers()
    ensures application_server { application_type.SERVER.0 ≡ pos 0 }
    ensures application_client { application_type.CLIENT.0 ≡ pos 1 }
    ensures application_client_and_server { application_type.CLIENT_AND_SERVER.0 ≡ pos 2 }
    ensures application_discovery_server { application_type.DISCOVERY_SERVER.0 ≡ pos 3 }
    ensures security_none { security_mode.NONE.0 ≡ pos 1 }
    ensures security_sign { security_mode.SIGN.0 ≡ pos 2 }
    ensures security_sign_and_encrypt { security_mode.SIGN_AND_ENCRYPT.0 ≡ pos 3 }
    ensures token_anonymous { token_type.ANONYMOUS.0 ≡ pos 0 }
    ensures token_user_name { token_type.USER_NAME.0 ≡ pos 1 }
    ensures token_certificate { token_type.CERTIFICATE.0 ≡ pos 2 }
    ensures token_issued_token { token_type.ISSUED_TOKEN.0 ≡ pos 3 }
    ensures request_issue { request_type.ISSUE.0 ≡ pos 0 }
    ensures request_renew { request_type.RENEW.0 ≡ pos 1 }
    ensures timestamps_source { timestamps.SOURCE.0 ≡ pos 0 }
    ensures timestamps_server { timestamps.SERVER.0 ≡ pos 1 }
    ensures timestamps_both { timestamps.BOTH.0 ≡ pos 2 }
    ensures timestamps_neither { timestamps.NEITHER.0 ≡ pos 3 }
{}

/// A body whose request is read in two steps, its header and then the fields behind it, holds that request, and has the same
/// fault where it can't be read.
#[tactic(auto, using(crate::proofs::RequestLemmas::in_two_steps))]
pub fn requests_are_read_in_two_steps<F: Wire>()
    ensures { (body : List ℕ) → message_of (requested_reading F.reading) body ≡ request_by F.reading (headed_of body) }
{}

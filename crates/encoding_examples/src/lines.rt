//! What comes of each line.

use crate::viewed::Viewed;
use std::alloc::{AllocError, Global};
use std::fmt::Debug;
use std::io;
use std::io::Write;
use ua_binary::{Cursor, TakeFault, Wire};
use ua_messages::type_ids::*;
use ua_messages::*;
use ua_service_messages::*;
use ua_subscription_messages::*;
use ua_types::{
    Array, ByteString, Copyable, DataValue, Double, Duration, ExpandedNodeId, ExtensionObject,
    Float, Guid, LocalizedText, Moment, NodeId, QualifiedName, Status, Text, Variant, write_id,
};
use ua_views::*;

// What was read, how it is written again, and how many bytes are left.
fn write_read<T: Wire + Debug>(
    alloc: Global,
    read: Result<T, TakeFault>,
    left: usize,
    output: &mut Vec<u8>,
) -> io::Result<()> {
    match read {
        Ok(value) => {
            let mut again = Vec::new(alloc);
            value.put(&mut again)?;
            let digits = hex::encode(alloc, again.as_slice())?;
            write!(output, "{value:?}\n{digits}, {left} left\n")
        }
        Err(fault) => write!(output, "{fault:?}, {left} left\n"),
    }
}

// A value that bytes begin with, how it is written again, and how many bytes are left.
fn write_value<T: Wire + Debug>(
    alloc: Global,
    bytes: &[u8],
    output: &mut Vec<u8>,
) -> io::Result<()> {
    let mut cursor = Cursor::new(bytes);
    let taken = T::take(alloc, &mut cursor);
    write_read(alloc, taken, cursor.rest().len(), output)
}

// A copy of what is viewed, or the fault.
fn copied<'a, V: Viewed<'a>>(
    alloc: Global,
    viewed: Result<V, TakeFault>,
) -> Result<Result<V::Value, TakeFault>, AllocError> {
    match viewed {
        Ok(view) => Ok(Ok(view.copied(alloc)?)),
        Err(fault) => Ok(Err(fault)),
    }
}

// Writes the lines of what was taken, and behind them those of its view, where they aren't the same.
fn write_both(taken: &[u8], viewed: &[u8], output: &mut Vec<u8>) -> io::Result<()> {
    output.write_all(taken)?;
    if taken != viewed {
        output.write_all(b"but otherwise:\n".as_slice())?;
        output.write_all(viewed)?;
    }
    Ok(())
}

// As `write_value`, where the value has a view, which is to say the same.
fn write_viewed<'a, V: Viewed<'a>>(
    alloc: Global,
    bytes: &'a [u8],
    output: &mut Vec<u8>,
) -> io::Result<()> {
    let mut taken = Vec::new(alloc);
    write_value::<V::Value>(alloc, bytes, &mut taken)?;
    let mut cursor = Cursor::new(bytes);
    let view = copied(alloc, V::view(&mut cursor))?;
    let mut viewed = Vec::new(alloc);
    write_read(alloc, view, cursor.rest().len(), &mut viewed)?;
    write_both(taken.as_slice(), viewed.as_slice(), output)
}

// The number of the id that a body begins with, the message that was read of it, and how it is written behind the id of its
// type.
fn write_body<T: Wire + Debug>(
    alloc: Global,
    type_id: u32,
    bytes: &[u8],
    read: Result<T, TakeFault>,
    output: &mut Vec<u8>,
) -> io::Result<()> {
    match read {
        Ok(value) => {
            let number = message_id(bytes).unwrap_or(0);
            let again = body(alloc, type_id, &value)?;
            let digits = hex::encode(alloc, again.as_slice())?;
            write!(output, "{number} {value:?}\n{digits}\n")
        }
        Err(fault) => write!(output, "{fault:?}\n"),
    }
}

fn write_message<T: Wire + Debug>(
    alloc: Global,
    type_id: u32,
    bytes: &[u8],
    output: &mut Vec<u8>,
) -> io::Result<()> {
    write_body(alloc, type_id, bytes, message::<T>(alloc, bytes), output)
}

// As `write_message`, of a message that is read in another way too, which is to say the same.
fn write_twice<T: Wire + Debug>(
    alloc: Global,
    type_id: u32,
    bytes: &[u8],
    otherwise: Result<T, TakeFault>,
    output: &mut Vec<u8>,
) -> io::Result<()> {
    let mut taken = Vec::new(alloc);
    write_message::<T>(alloc, type_id, bytes, &mut taken)?;
    let mut again = Vec::new(alloc);
    write_body(alloc, type_id, bytes, otherwise, &mut again)?;
    write_both(taken.as_slice(), again.as_slice(), output)
}

// The header of a request, which is looked at too.
fn write_header(alloc: Global, bytes: &[u8], output: &mut Vec<u8>) -> io::Result<()> {
    let viewed = match header_view(bytes) {
        Ok(headed) => Ok(headed.header.copied(alloc)?),
        Err(fault) => Err(fault),
    };
    write_twice::<RequestHeader>(alloc, READ_REQUEST, bytes, viewed, output)
}

// A request, of a header that was looked at and of what was read behind it.
fn whole<F: Drop>(
    alloc: Global,
    header: RequestHeaderView<'_>,
    fields: Result<F, TakeFault>,
) -> Result<Result<Requested<F>, TakeFault>, AllocError> {
    match fields {
        Ok(fields) => Ok(Ok(Requested {
            request_header: header.copied(alloc)?,
            fields,
        })),
        Err(fault) => Ok(Err(fault)),
    }
}

// A request, whose header and fields are looked at too.
fn write_request<'a, V: Viewed<'a>>(
    alloc: Global,
    type_id: u32,
    bytes: &'a [u8],
    output: &mut Vec<u8>,
) -> io::Result<()> {
    let viewed = match header_view(bytes) {
        Ok(headed) => {
            let fields = copied(alloc, fields_view::<V>(headed.fields))?;
            whole(alloc, headed.header, fields)?
        }
        Err(fault) => Err(fault),
    };
    write_twice::<Requested<V::Value>>(alloc, type_id, bytes, viewed, output)
}

// The structure that an object holds, and the object around it, or why it holds none.
fn write_held<T: Wire + Debug>(
    alloc: Global,
    type_id: u32,
    held: Result<T, StructureFault>,
    output: &mut Vec<u8>,
) -> io::Result<()> {
    match held {
        Ok(value) => {
            let around = extension_object(alloc, type_id, &value)?;
            let mut again = Vec::new(alloc);
            around.put(&mut again)?;
            let digits = hex::encode(alloc, again.as_slice())?;
            write!(output, "{value:?}\n{digits}\n")
        }
        Err(fault) => write!(output, "{fault:?}\n"),
    }
}

fn write_structure<T: Wire + Debug>(
    alloc: Global,
    type_id: u32,
    bytes: &[u8],
    output: &mut Vec<u8>,
) -> io::Result<()> {
    match ExtensionObject::take(alloc, &mut Cursor::new(bytes)) {
        Ok(object) => write_held(
            alloc,
            type_id,
            structure::<T>(alloc, type_id, &object),
            output,
        ),
        Err(fault) => write!(output, "{fault:?}\n"),
    }
}

// A copy of the structure of this type that an object holds, or why it holds none.
fn held_copied<'a, V: Viewed<'a>>(
    alloc: Global,
    type_id: u32,
    object: &ExtensionObjectView<'a>,
) -> Result<Result<V::Value, StructureFault>, AllocError> {
    match structure_view::<V>(type_id, object) {
        Ok(view) => Ok(Ok(view.copied(alloc)?)),
        Err(fault) => Ok(Err(fault)),
    }
}

// As `write_structure`, where the structure has a view, which is to say the same.
fn write_structure_viewed<'a, V: Viewed<'a>>(
    alloc: Global,
    type_id: u32,
    bytes: &'a [u8],
    output: &mut Vec<u8>,
) -> io::Result<()> {
    let mut taken = Vec::new(alloc);
    write_structure::<V::Value>(alloc, type_id, bytes, &mut taken)?;
    let mut viewed = Vec::new(alloc);
    match ExtensionObjectView::view(&mut Cursor::new(bytes)) {
        Ok(object) => {
            let held = held_copied::<V>(alloc, type_id, &object)?;
            write_held(alloc, type_id, held, &mut viewed)?;
        }
        Err(fault) => write!(viewed, "{fault:?}\n")?,
    }
    write_both(taken.as_slice(), viewed.as_slice(), output)
}

fn write_of_subscriptions(
    alloc: Global,
    name: &str,
    bytes: &[u8],
    output: &mut Vec<u8>,
) -> io::Result<()> {
    match name {
        "CreateMonitoredItemsRequest" => write_request::<CreateMonitoredItemsRequestView>(
            alloc,
            CREATE_MONITORED_ITEMS_REQUEST,
            bytes,
            output,
        ),
        "CreateMonitoredItemsResponse" => write_message::<CreateMonitoredItemsResponse>(
            alloc,
            CREATE_MONITORED_ITEMS_RESPONSE,
            bytes,
            output,
        ),
        "ModifyMonitoredItemsRequest" => write_request::<ModifyMonitoredItemsRequestView>(
            alloc,
            MODIFY_MONITORED_ITEMS_REQUEST,
            bytes,
            output,
        ),
        "ModifyMonitoredItemsResponse" => write_message::<ModifyMonitoredItemsResponse>(
            alloc,
            MODIFY_MONITORED_ITEMS_RESPONSE,
            bytes,
            output,
        ),
        "SetMonitoringModeRequest" => write_request::<SetMonitoringModeRequestView>(
            alloc,
            SET_MONITORING_MODE_REQUEST,
            bytes,
            output,
        ),
        "SetMonitoringModeResponse" => write_message::<SetMonitoringModeResponse>(
            alloc,
            SET_MONITORING_MODE_RESPONSE,
            bytes,
            output,
        ),
        "DeleteMonitoredItemsRequest" => write_request::<DeleteMonitoredItemsRequestView>(
            alloc,
            DELETE_MONITORED_ITEMS_REQUEST,
            bytes,
            output,
        ),
        "DeleteMonitoredItemsResponse" => write_message::<DeleteMonitoredItemsResponse>(
            alloc,
            DELETE_MONITORED_ITEMS_RESPONSE,
            bytes,
            output,
        ),
        "SetTriggeringRequest" => write_request::<SetTriggeringRequestView>(
            alloc,
            SET_TRIGGERING_REQUEST,
            bytes,
            output,
        ),
        "SetTriggeringResponse" => write_message::<SetTriggeringResponse>(
            alloc,
            SET_TRIGGERING_RESPONSE,
            bytes,
            output,
        ),
        "CreateSubscriptionRequest" => write_request::<CreateSubscriptionRequest>(
            alloc,
            CREATE_SUBSCRIPTION_REQUEST,
            bytes,
            output,
        ),
        "CreateSubscriptionResponse" => write_message::<CreateSubscriptionResponse>(
            alloc,
            CREATE_SUBSCRIPTION_RESPONSE,
            bytes,
            output,
        ),
        "ModifySubscriptionRequest" => write_request::<ModifySubscriptionRequest>(
            alloc,
            MODIFY_SUBSCRIPTION_REQUEST,
            bytes,
            output,
        ),
        "ModifySubscriptionResponse" => write_message::<ModifySubscriptionResponse>(
            alloc,
            MODIFY_SUBSCRIPTION_RESPONSE,
            bytes,
            output,
        ),
        "SetPublishingModeRequest" => write_request::<SetPublishingModeRequestView>(
            alloc,
            SET_PUBLISHING_MODE_REQUEST,
            bytes,
            output,
        ),
        "SetPublishingModeResponse" => write_message::<SetPublishingModeResponse>(
            alloc,
            SET_PUBLISHING_MODE_RESPONSE,
            bytes,
            output,
        ),
        "DeleteSubscriptionsRequest" => write_request::<DeleteSubscriptionsRequestView>(
            alloc,
            DELETE_SUBSCRIPTIONS_REQUEST,
            bytes,
            output,
        ),
        "DeleteSubscriptionsResponse" => write_message::<DeleteSubscriptionsResponse>(
            alloc,
            DELETE_SUBSCRIPTIONS_RESPONSE,
            bytes,
            output,
        ),
        "PublishRequest" => write_request::<PublishRequestView>(
            alloc,
            PUBLISH_REQUEST,
            bytes,
            output,
        ),
        "PublishResponse" => write_message::<PublishResponse>(
            alloc,
            PUBLISH_RESPONSE,
            bytes,
            output,
        ),
        "RepublishRequest" => write_request::<RepublishRequest>(
            alloc,
            REPUBLISH_REQUEST,
            bytes,
            output,
        ),
        "RepublishResponse" => write_message::<RepublishResponse>(
            alloc,
            REPUBLISH_RESPONSE,
            bytes,
            output,
        ),
        "DataChangeFilter" => write_structure_viewed::<DataChangeFilter>(
            alloc,
            DATA_CHANGE_FILTER,
            bytes,
            output,
        ),
        "DataChangeNotification" => write_structure::<DataChangeNotification>(
            alloc,
            DATA_CHANGE_NOTIFICATION,
            bytes,
            output,
        ),
        "StatusChangeNotification" => write_structure::<StatusChangeNotification>(
            alloc,
            STATUS_CHANGE_NOTIFICATION,
            bytes,
            output,
        ),
        _ => output.write_all(b"no such type\n".as_slice()),
    }
}

fn write_of_services(
    alloc: Global,
    name: &str,
    bytes: &[u8],
    output: &mut Vec<u8>,
) -> io::Result<()> {
    match name {
        "CreateSessionRequest" => write_request::<CreateSessionRequestView>(
            alloc,
            CREATE_SESSION_REQUEST,
            bytes,
            output,
        ),
        "CreateSessionResponse" => write_message::<CreateSessionResponse>(
            alloc,
            CREATE_SESSION_RESPONSE,
            bytes,
            output,
        ),
        "ActivateSessionRequest" => write_request::<ActivateSessionRequestView>(
            alloc,
            ACTIVATE_SESSION_REQUEST,
            bytes,
            output,
        ),
        "ActivateSessionResponse" => write_message::<ActivateSessionResponse>(
            alloc,
            ACTIVATE_SESSION_RESPONSE,
            bytes,
            output,
        ),
        "CloseSessionRequest" => write_request::<CloseSessionRequest>(
            alloc,
            CLOSE_SESSION_REQUEST,
            bytes,
            output,
        ),
        "CloseSessionResponse" => write_message::<CloseSessionResponse>(
            alloc,
            CLOSE_SESSION_RESPONSE,
            bytes,
            output,
        ),
        "BrowseRequest" => write_request::<BrowseRequestView>(alloc, BROWSE_REQUEST, bytes, output),
        "BrowseResponse" => write_message::<BrowseResponse>(alloc, BROWSE_RESPONSE, bytes, output),
        "BrowseNextRequest" => write_request::<BrowseNextRequestView>(
            alloc,
            BROWSE_NEXT_REQUEST,
            bytes,
            output,
        ),
        "BrowseNextResponse" => write_message::<BrowseNextResponse>(
            alloc,
            BROWSE_NEXT_RESPONSE,
            bytes,
            output,
        ),
        "ReadRequest" => write_request::<ReadRequestView>(alloc, READ_REQUEST, bytes, output),
        "ReadResponse" => write_message::<ReadResponse>(alloc, READ_RESPONSE, bytes, output),
        "WriteRequest" => write_request::<WriteRequestView>(alloc, WRITE_REQUEST, bytes, output),
        "WriteResponse" => write_message::<WriteResponse>(alloc, WRITE_RESPONSE, bytes, output),
        "HistoryReadRequest" => write_request::<HistoryReadRequestView>(
            alloc,
            HISTORY_READ_REQUEST,
            bytes,
            output,
        ),
        "HistoryReadResponse" => write_message::<HistoryReadResponse>(
            alloc,
            HISTORY_READ_RESPONSE,
            bytes,
            output,
        ),
        "AnonymousIdentityToken" => write_structure_viewed::<AnonymousIdentityTokenView>(
            alloc,
            ANONYMOUS_IDENTITY_TOKEN,
            bytes,
            output,
        ),
        "ReadRawModifiedDetails" => write_structure_viewed::<ReadRawModifiedDetails>(
            alloc,
            READ_RAW_MODIFIED_DETAILS,
            bytes,
            output,
        ),
        "HistoryData" => write_structure::<HistoryData>(alloc, HISTORY_DATA, bytes, output),
        _ => write_of_subscriptions(alloc, name, bytes, output),
    }
}

fn write_of_channels(
    alloc: Global,
    name: &str,
    bytes: &[u8],
    output: &mut Vec<u8>,
) -> io::Result<()> {
    match name {
        "GetEndpointsRequest" => write_request::<GetEndpointsRequestView>(
            alloc,
            GET_ENDPOINTS_REQUEST,
            bytes,
            output,
        ),
        "GetEndpointsResponse" => write_message::<GetEndpointsResponse>(
            alloc,
            GET_ENDPOINTS_RESPONSE,
            bytes,
            output,
        ),
        "OpenSecureChannelRequest" => write_message::<OpenSecureChannelRequest>(
            alloc,
            OPEN_SECURE_CHANNEL_REQUEST,
            bytes,
            output,
        ),
        "OpenSecureChannelResponse" => write_message::<OpenSecureChannelResponse>(
            alloc,
            OPEN_SECURE_CHANNEL_RESPONSE,
            bytes,
            output,
        ),
        "CloseSecureChannelRequest" => write_message::<CloseSecureChannelRequest>(
            alloc,
            CLOSE_SECURE_CHANNEL_REQUEST,
            bytes,
            output,
        ),
        "ServiceFault" => write_message::<ServiceFault>(alloc, SERVICE_FAULT, bytes, output),
        "RequestHeader" => write_header(alloc, bytes, output),
        "DiagnosticInfo" => write_value::<DiagnosticInfo>(alloc, bytes, output),
        "DiagnosticInfos" => write_value::<DiagnosticInfos>(alloc, bytes, output),
        _ => write_of_services(alloc, name, bytes, output),
    }
}

fn write_named(alloc: Global, name: &str, bytes: &[u8], output: &mut Vec<u8>) -> io::Result<()> {
    match name {
        "Boolean" => write_viewed::<bool>(alloc, bytes, output),
        "SByte" => write_value::<i8>(alloc, bytes, output),
        "Byte" => write_value::<u8>(alloc, bytes, output),
        "Int16" => write_value::<i16>(alloc, bytes, output),
        "UInt16" => write_viewed::<u16>(alloc, bytes, output),
        "Int32" => write_value::<i32>(alloc, bytes, output),
        "UInt32" => write_viewed::<u32>(alloc, bytes, output),
        "Int64" => write_value::<i64>(alloc, bytes, output),
        "UInt64" => write_value::<u64>(alloc, bytes, output),
        "Float" => write_value::<Float>(alloc, bytes, output),
        "Double" => write_value::<Double>(alloc, bytes, output),
        "DateTime" => write_viewed::<Moment>(alloc, bytes, output),
        "StatusCode" => write_viewed::<Status>(alloc, bytes, output),
        "Duration" => write_viewed::<Duration>(alloc, bytes, output),
        "String" => write_viewed::<TextView>(alloc, bytes, output),
        "ByteString" => write_viewed::<ByteStringView>(alloc, bytes, output),
        "Guid" => write_value::<Guid>(alloc, bytes, output),
        "NodeId" => write_viewed::<NodeIdView>(alloc, bytes, output),
        "ExpandedNodeId" => write_viewed::<ExpandedNodeIdView>(alloc, bytes, output),
        "QualifiedName" => write_viewed::<QualifiedNameView>(alloc, bytes, output),
        "LocalizedText" => write_viewed::<LocalizedTextView>(alloc, bytes, output),
        "ExtensionObject" => write_viewed::<ExtensionObjectView>(alloc, bytes, output),
        "Variant" => write_viewed::<VariantView>(alloc, bytes, output),
        "DataValue" => write_viewed::<DataValueView>(alloc, bytes, output),
        "UInt32s" => write_value::<Array<u32>>(alloc, bytes, output),
        "Strings" => write_value::<Array<Text>>(alloc, bytes, output),
        _ => write_of_channels(alloc, name, bytes, output),
    }
}

// How the first of two values is ordered beside the second, whether they are equal, and a copy of the first.
fn write_order<T: Wire + Ord + Copyable + Debug>(
    alloc: Global,
    first: &[u8],
    second: &[u8],
    output: &mut Vec<u8>,
) -> io::Result<()> {
    let (Ok(first), Ok(second)) = (
        T::take(alloc, &mut Cursor::new(first)),
        T::take(alloc, &mut Cursor::new(second)),
    ) else {
        return output.write_all(b"no such values\n".as_slice());
    };
    let order = first.cmp(&second);
    let equal = first == second;
    let copy = first.copy(alloc)?;
    write!(output, "{order:?} {equal}\n{copy:?}\n")
}

fn write_order_named(
    alloc: Global,
    name: &str,
    first: &[u8],
    second: &[u8],
    output: &mut Vec<u8>,
) -> io::Result<()> {
    match name {
        "String" => write_order::<Text>(alloc, first, second, output),
        "ByteString" => write_order::<ByteString>(alloc, first, second, output),
        "NodeId" => write_order::<NodeId>(alloc, first, second, output),
        "ExtensionObject" => write_order::<ExtensionObject>(alloc, first, second, output),
        "Variant" => write_order::<Variant>(alloc, first, second, output),
        "DataValue" => write_order::<DataValue>(alloc, first, second, output),
        _ => output.write_all(b"no such type\n".as_slice()),
    }
}

// What the bytes of a type mean, and how it is written again.
fn write_taken(alloc: Global, name: &str, digits: &str, output: &mut Vec<u8>) -> io::Result<()> {
    match hex::decode(alloc, digits) {
        Ok(bytes) => write_named(alloc, name, bytes.as_slice(), output),
        Err(_) => output.write_all(b"no hex digits\n".as_slice()),
    }
}

// How two values of a type are ordered, whether they are equal, and a copy of the first.
fn write_compared(
    alloc: Global,
    name: &str,
    first: &str,
    second: &str,
    output: &mut Vec<u8>,
) -> io::Result<()> {
    match (hex::decode(alloc, first), hex::decode(alloc, second)) {
        (Ok(first), Ok(second)) => {
            write_order_named(alloc, name, first.as_slice(), second.as_slice(), output)
        }
        _ => output.write_all(b"no hex digits\n".as_slice()),
    }
}

// The number of the id that a body begins with, or why it has none.
fn write_number(alloc: Global, digits: &str, output: &mut Vec<u8>) -> io::Result<()> {
    let Ok(bytes) = hex::decode(alloc, digits) else {
        return output.write_all(b"no hex digits\n".as_slice());
    };
    match message_id(bytes.as_slice()) {
        Ok(number) => write!(output, "{number}\n"),
        Err(fault) => write!(output, "{fault:?}\n"),
    }
}

// The id that a text says, and its text as it is written, or why it says none.
fn write_node_id(alloc: Global, text: &str, output: &mut Vec<u8>) -> io::Result<()> {
    match NodeId::parse(alloc, text) {
        Ok(id) => {
            let again = write_id(alloc, &id)?;
            write!(output, "{id:?}\n{again}\n")
        }
        Err(fault) => write!(output, "{fault:?}: {fault}\n"),
    }
}

/// Writes what comes of a line of the encoding with these words: `take TYPE HEX`, `compare TYPE HEX HEX`, `number HEX` or
/// `node_id TEXT`. None where they are no such line.
pub fn write_encoding(
    alloc: Global,
    words: &[&str],
    output: &mut Vec<u8>,
) -> Option<io::Result<()>> {
    match words {
        ["take", name, digits] => Some(write_taken(alloc, name, digits, output)),
        ["compare", name, first, second] => {
            Some(write_compared(alloc, name, first, second, output))
        }
        ["number", digits] => Some(write_number(alloc, digits, output)),
        ["node_id", text] => Some(write_node_id(alloc, text, output)),
        ["node_id"] => Some(write_node_id(alloc, "", output)),
        _ => None,
    }
}

//! What the server sends, in words: before the bytes of each message its name and its result, and what a message of a
//! subscription tells. Bytes that can't be read so get no words.

use crate::names::{message_name, status_name};
use std::alloc::Global;
use std::io;
use std::io::Write;
use ua_binary::{Cursor, Wire};
use ua_messages::type_ids::*;
use ua_messages::{ResponseHeader, message, message_id, structure};
use ua_subscription_messages::{
    DataChangeNotification, NotificationMessage, PublishResponse, RepublishResponse,
    StatusChangeNotification,
};
use ua_transport::{ChunkHeader, OpeningHeader};
use ua_types::{ExtensionObject, Status};

// The result of a call, as the header of its response says it.
fn result_of(alloc: Global, body: &[u8]) -> Option<Status> {
    match message::<ResponseHeader>(alloc, body) {
        Ok(header) => Some(header.service_result),
        Err(_) => None,
    }
}

// The name of the response of this body, and that of its result.
fn names_of(alloc: Global, body: &[u8]) -> Option<(&'static str, &'static str)> {
    let name = message_name(message_id(body).unwrap_or(0))?;
    let result = status_name(result_of(alloc, body)?)?;
    Some((name, result))
}

/// Writes the name of the response of this body, and that of its result, a space behind each.
pub(crate) fn write_names(alloc: Global, body: &[u8], output: &mut Vec<u8>) -> io::Result<()> {
    match names_of(alloc, body) {
        Some((name, result)) => write!(output, "{name} {result} "),
        None => Ok(()),
    }
}

// A status behind what has it.
fn write_status(words: &str, status: Status, output: &mut Vec<u8>) -> io::Result<()> {
    match status_name(status) {
        Some(name) => write!(output, "{words} {name} "),
        None => Ok(()),
    }
}

fn write_notification(
    alloc: Global,
    object: &ExtensionObject,
    output: &mut Vec<u8>,
) -> io::Result<()> {
    if structure::<DataChangeNotification>(alloc, DATA_CHANGE_NOTIFICATION, object).is_ok() {
        return output.write_all(b"DataChangeNotification ".as_slice());
    }
    match structure::<StatusChangeNotification>(alloc, STATUS_CHANGE_NOTIFICATION, object) {
        Ok(change) => write_status("StatusChangeNotification", change.status, output),
        Err(_) => Ok(()),
    }
}

fn write_notifications(
    alloc: Global,
    notifications: Option<&[ExtensionObject]>,
    output: &mut Vec<u8>,
) -> io::Result<()> {
    let objects = notifications.unwrap_or(&[]);
    if objects.is_empty() {
        return output.write_all(b"keep-alive ".as_slice());
    }
    for object in objects {
        write_notification(alloc, object, output)?;
    }
    Ok(())
}

// What a message of a subscription tells, each notification by its name.
fn write_told(alloc: Global, told: &NotificationMessage, output: &mut Vec<u8>) -> io::Result<()> {
    write_notifications(alloc, told.notification_data.as_slice(), output)
}

fn write_published(alloc: Global, body: &[u8], output: &mut Vec<u8>) -> io::Result<()> {
    match message::<PublishResponse>(alloc, body) {
        Ok(response) => write_told(alloc, &response.notification_message, output),
        Err(_) => Ok(()),
    }
}

fn write_republished(alloc: Global, body: &[u8], output: &mut Vec<u8>) -> io::Result<()> {
    match message::<RepublishResponse>(alloc, body) {
        Ok(response) => write_told(alloc, &response.notification_message, output),
        Err(_) => Ok(()),
    }
}

/// Writes the same two names, and behind them what a message of a subscription tells.
pub(crate) fn write_response(alloc: Global, body: &[u8], output: &mut Vec<u8>) -> io::Result<()> {
    write_names(alloc, body, output)?;
    match message_id(body) {
        Ok(PUBLISH_RESPONSE) => write_published(alloc, body, output),
        Ok(REPUBLISH_RESPONSE) => write_republished(alloc, body, output),
        _ => Ok(()),
    }
}

// What stands behind a header of this type.
fn behind<'a, T: Wire>(alloc: Global, bytes: &'a [u8]) -> &'a [u8] {
    let mut cursor = Cursor::new(bytes);
    match T::take(alloc, &mut cursor) {
        Ok(_) => cursor.rest(),
        Err(_) => &[],
    }
}

// An Error, or what gives a message up: both begin with a status.
fn write_error(words: &str, bytes: &[u8], output: &mut Vec<u8>) -> io::Result<()> {
    match Cursor::new(bytes).number() {
        Ok(code) => write_status(words, Status(code), output),
        Err(_) => Ok(()),
    }
}

// The words for the last part of a message, whose other parts came before.
fn write_final(
    alloc: Global,
    part: &[u8],
    begun: &mut Vec<u8>,
    output: &mut Vec<u8>,
) -> io::Result<()> {
    if begun.is_empty() {
        return write_response(alloc, part, output);
    }
    begun.extend_from_slice(part)?;
    output.write_all(b"final chunk ".as_slice())?;
    write_response(alloc, begun.as_slice(), output)?;
    begun.clear();
    Ok(())
}

/// Writes the words for a frame, a space behind each. The parts of a message that isn't whole yet are kept in `begun`.
pub(crate) fn write_frame(
    alloc: Global,
    frame: &[u8],
    begun: &mut Vec<u8>,
    output: &mut Vec<u8>,
) -> io::Result<()> {
    let letters = std::str::from_utf8(frame.get(..4).unwrap_or(&[])).unwrap_or("");
    let rest = frame.get(8..).unwrap_or(&[]);
    match letters {
        "ACKF" => output.write_all(b"Acknowledge ".as_slice()),
        "ERRF" => write_error("Error", rest, output),
        "OPNF" => write_response(alloc, behind::<OpeningHeader>(alloc, rest), output),
        "MSGC" => {
            begun.extend_from_slice(behind::<ChunkHeader>(alloc, rest))?;
            output.write_all(b"intermediate chunk ".as_slice())
        }
        "MSGA" => {
            begun.clear();
            write_error("aborting chunk", behind::<ChunkHeader>(alloc, rest), output)
        }
        "MSGF" => write_final(alloc, behind::<ChunkHeader>(alloc, rest), begun, output),
        _ => Ok(()),
    }
}

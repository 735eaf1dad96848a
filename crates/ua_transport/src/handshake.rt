//! A connection's first frame, and the answers to it.

ghost use Rattle.std.specs.Prelude.{◌≡◌, ◌<◌, ◌≤◌, length, IfOk};
ghost use Rattle.ua_transport.specs.Agreements.{is_too_small as is_too_small_spec, outcome_of_frame, acknowledge_encoding, error_encoding};

use crate::frame::{Frame, MessageType};
use crate::hello_message::BorrowedHello;
use crate::limits::Limits;
use bytes::Bytes;
use std::alloc::Global;
use std::marker::Model;
use ua_binary::Cursor;
use ua_types::{Memory, Status};

/// The version of the protocol that is acknowledged.
const PROTOCOL_VERSION: u32 = 0;

/// The longest endpoint URL, in bytes.
const MAX_URL_LEN: usize = 4096;

/// The smallest buffer, and the smallest limit of an answer, that a client may name, in bytes.
const MIN_SIZE: u32 = 1024;

/// How long an Acknowledge frame is, in bytes.
const ACKNOWLEDGE_SIZE: u32 = 28;

/// How long an Error frame with a null reason is, in bytes.
const ERROR_SIZE: u32 = 16;

/// What holds on a connection once its Hello was taken.
///
/// The two sizes are those of the Acknowledge. They always lie between 1024 and 1048576, and the
/// client's largest answer, where it has one, is never below 1024.
#[derive(Clone, Copy, Debug, PartialEq, Eq)]
pub struct Agreed {
    /// The largest frame that the client may send, in bytes: 1024 to 1048576.
    pub receive_size: u32,

    /// The largest frame that the server may send, in bytes: 1024 to 1048576.
    pub send_size: u32,

    /// The largest answer that the client takes, in bytes of its body: 1024 at least, or 0 for no
    /// limit.
    pub max_message_size: u32,

    /// The most chunks of an answer that the client takes, or 0 for no limit.
    pub max_chunk_count: u32,

    /// The server's own limits.
    pub limits: Limits,
}

impl Model for Agreed {
    ghost use Rattle.ua_transport.specs.Agreements.{Agreement, IsAgreement};

    ghost Value = { Agreement };

    ghost view = { λ a. record {
      receive_size = a.receive_size;
      send_size = a.send_size;
      max_message_size = a.max_message_size;
      max_chunk_count = a.max_chunk_count;
      limits = a.limits;
    } };

    ghost invariant = { λ a. IsAgreement (view a) };

    ghost inverse = { λ a. record {
      receive_size = a.receive_size;
      send_size = a.send_size;
      max_message_size = a.max_message_size;
      max_chunk_count = a.max_chunk_count;
      limits = a.limits;
    } };
}

fn is_too_small(hello: &BorrowedHello<'_>) -> bool
    ensures { result ≡ is_too_small_spec hello.now }
{
    hello.receive_size < MIN_SIZE
        || hello.send_size < MIN_SIZE
        || (hello.max_message_size > 0 && hello.max_message_size < MIN_SIZE)
}

/// Takes a connection's first frame, a Hello (IEC 62541-6, "Hello Message" and "Establishing a
/// connection").
///
/// The refusals, which an Error frame tells the client, are in this order:
///
/// - `BAD_TCP_MESSAGE_TYPE_INVALID` where the frame is no Hello;
/// - `BAD_DECODING_ERROR` where its body can't be read. Bytes after the last field are ignored;
/// - `BAD_TCP_ENDPOINT_URL_INVALID` where the URL has more than 4096 bytes;
/// - `BAD_TCP_NOT_ENOUGH_RESOURCES` where a buffer is smaller than 1024 bytes, or the largest answer
///   is limited to less than 1024 bytes.
///
/// Takes no memory.
pub fn hello(frame: &Frame, limits: &Limits) -> Result<Agreed, Status>
    ensures { result ≡ outcome_of_frame limits.now frame.now }
{
    if frame.message_type != MessageType::Hello {
        return Err(Status::BAD_TCP_MESSAGE_TYPE_INVALID);
    }
    let Ok(hello) = BorrowedHello::read(&mut Cursor::new(frame.body.as_slice())) else {
        return Err(Status::BAD_DECODING_ERROR);
    };
    if let Some(url) = hello.endpoint_url {
        if url.len() > MAX_URL_LEN {
            return Err(Status::BAD_TCP_ENDPOINT_URL_INVALID);
        }
    }
    if is_too_small(&hello) {
        return Err(Status::BAD_TCP_NOT_ENOUGH_RESOURCES);
    }
    Ok(Agreed {
        receive_size: hello.send_size.min(limits.receive_size),
        send_size: hello.receive_size.min(limits.send_size),
        max_message_size: hello.max_message_size,
        max_chunk_count: hello.max_chunk_count,
        limits: *limits,
    })
}

/// The Acknowledge frame, which tells the client what was agreed (IEC 62541-6, "Acknowledge
/// Message"). The error is want of memory.
pub fn ack(alloc: Global, agreed: &Agreed) -> Result<Bytes, Memory>
    ensures bytes { IfOk result (λ frame. frame ≡ acknowledge_encoding agreed.now) }
    ensures length { IfOk result (λ frame. length frame ≡ 28) }
{
    let mut frame = Vec::with_capacity(alloc, ACKNOWLEDGE_SIZE as usize)?;
    frame.extend_from_slice(b"ACKF")?;
    frame.extend_from_slice(&ACKNOWLEDGE_SIZE.to_le_bytes())?;
    frame.extend_from_slice(&PROTOCOL_VERSION.to_le_bytes())?;
    frame.extend_from_slice(&agreed.receive_size.to_le_bytes())?;
    frame.extend_from_slice(&agreed.send_size.to_le_bytes())?;
    frame.extend_from_slice(&agreed.limits.max_message.to_le_bytes())?;
    frame.extend_from_slice(&agreed.limits.max_chunks.to_le_bytes())?;
    Ok(Bytes::from_vec(frame)?)
}

/// The Error frame, after which the connection is closed, with this status and no reason in words
/// (IEC 62541-6, "Error Message"). The error is want of memory.
pub fn err(alloc: Global, status: Status) -> Result<Bytes, Memory>
    ensures bytes { IfOk result (λ frame. frame ≡ error_encoding status) }
    ensures length { IfOk result (λ frame. length frame ≡ 16) }
{
    let mut frame = Vec::with_capacity(alloc, ERROR_SIZE as usize)?;
    frame.extend_from_slice(b"ERRF")?;
    frame.extend_from_slice(&ERROR_SIZE.to_le_bytes())?;
    frame.extend_from_slice(&status.0.to_le_bytes())?;
    // The length of a null text.
    frame.extend_from_slice(&u32::MAX.to_le_bytes())?;
    Ok(Bytes::from_vec(frame)?)
}

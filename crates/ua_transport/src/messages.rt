//! Messages out of the chunks that they come in.

ghost use Rattle.std.specs.Prelude.{◌≡◌, ◌≤◌, ◌<◌, ◌+◌, ◌++◌, ℕ, length, drop, true, false, Some, None, Err, OnOk, OnErr, IfOk, IfSome};
ghost use Rattle.ua_types.specs.declared.refusal.Refusal.TheVariants.{Memory};
ghost use Rattle.ua_types.specs.Refusals.{TakesOrRefuses};
ghost use Rattle.ua_transport.specs.Messages.{may_join as may_join_spec, extended, exceeds_limits as exceeds_limits_spec, joining_of, brings_part, AreWithinLimits};

use crate::frame::{ChunkType, Frame};
use crate::headers::HEADER_SIZE;
use crate::limits::Limits;
use crate::taken::Taken;
use bytes::{Bytes, BytesMut};
use std::alloc::{AllocError, Global};
use std::marker::Model;
use ua_types::{Refusal, Status};

/// A message of which not all chunks have come.
#[derive(Debug, Drop)]
pub(crate) struct Unfinished {
    // The request that the chunks belong to.
    request_id: u32,
    // How many chunks of it have come.
    chunk_count: u32,
    // Their bodies, joined. It grows by what comes of it, to twice its size at a time.
    body: BytesMut,
}

impl Model for Unfinished {
    ghost use Rattle.ua_transport.specs.Messages.{UnfinishedMessage};

    ghost Value = { UnfinishedMessage };

    ghost view = { λ u. record { request_id = u.request_id; chunk_count = u.chunk_count; body = u.body.items } };
}

impl Unfinished {
    fn new(alloc: Global, request_id: u32, part: &[u8]) -> Result<Unfinished, AllocError>
        ensures { IfOk result (λ message. message ≡ record { request_id = request_id; chunk_count = 1; body = part.now }) }
    {
        Ok(Unfinished {
            request_id,
            chunk_count: 1,
            body: BytesMut::copy_from_slice(alloc, part)?,
        })
    }

    fn extend(&mut self, part: &[u8]) -> Result<(), AllocError>
        requires { self.old.chunk_count < 4294967295 }
        ensures ok { OnOk result (Some self.new ≡ Some (extended (Some self.old) self.old.request_id part.now)) }
        ensures err { OnErr result (self.new ≡ self.old) }
    {
        self.body.extend_from_slice(part)?;
        self.chunk_count += 1;
        Ok(())
    }

    // The body with its last part. Where there is no memory, it is as before.
    fn finish(&mut self, part: &[u8]) -> Result<Bytes, AllocError>
        ensures ok { IfOk result (λ body. body ≡ self.old.body ++ part.now) }
        ensures err { OnErr result (self.new ≡ self.old) }
    {
        let before = self.body.len();
        self.body.extend_from_slice(part)?;
        let whole = self.body.freeze_to(self.body.len());
        if whole.is_err() {
            self.body.truncate(before);
        }
        whole
    }
}

// Whether a chunk of this request may come next.
fn may_join(unfinished: &Option<Unfinished>, request_id: u32) -> bool
    ensures { result ≡ may_join_spec unfinished.now request_id }
{
    match unfinished {
        Some(message) => message.request_id == request_id,
        None => true,
    }
}

// Whether the message is too large with one more part.
fn exceeds_limits(limits: &Limits, unfinished: &Option<Unfinished>, part: &[u8]) -> bool
    ensures exceeds { (request_id : ℕ) →
        result ≡ exceeds_limits_spec limits.now (extended unfinished.now request_id part.now) }
    ensures room { result ≡ false → IfSome unfinished.now (λ message. message.chunk_count < 65535) }
{
    let (chunk_count, len) = match unfinished {
        Some(message) => (message.chunk_count, message.body.len()),
        None => (0, 0),
    };
    len.saturating_add(part.len()) > limits.max_message as usize || chunk_count >= limits.max_chunks
}

// The message with one more chunk.
fn extend(
    alloc: Global,
    unfinished: &mut Option<Unfinished>,
    request_id: u32,
    part: &[u8],
) -> Result<(), AllocError>
    requires { IfSome unfinished.old (λ message. message.chunk_count < 4294967295) }
    ensures ok { OnOk result (unfinished.new ≡ Some (extended unfinished.old request_id part.now)) }
    ensures err { OnErr result (unfinished.new ≡ unfinished.old) }
{
    match unfinished {
        Some(message) => message.extend(part),
        None => {
            *unfinished = Some(Unfinished::new(alloc, request_id, part)?);
            Ok(())
        }
    }
}

// The body of the message that ends with this frame. That of a message in one chunk is not copied.
fn finish(unfinished: &mut Option<Unfinished>, frame: &Frame) -> Result<Bytes, AllocError>
    requires { 16 ≤ length frame.now.body }
    ensures ok { (request_id : ℕ) → IfOk result (λ body. body ≡ (extended unfinished.old request_id (drop 16 frame.now.body)).body) }
    ensures none { OnOk result (unfinished.new ≡ None) }
    ensures err { OnErr result (unfinished.new ≡ unfinished.old) }
{
    let body = match unfinished {
        Some(message) => message.finish(&frame.body.as_slice()[HEADER_SIZE..])?,
        None => frame.body.slice(HEADER_SIZE..)?,
    };
    *unfinished = None;
    Ok(body)
}

// Joins a chunk to what has come of its message.
#[tactic(auto, unfolding(crate::specs::Messages::joining_of))]
pub(crate) fn join(
    alloc: Global,
    limits: &Limits,
    unfinished: &mut Option<Unfinished>,
    request_id: u32,
    frame: &Frame,
) -> Result<Taken, Refusal>
    requires header { 16 ≤ length frame.now.body }
    requires limits { AreWithinLimits limits.now unfinished.old }
    ensures joins { TakesOrRefuses result unfinished.old unfinished.new
        (joining_of limits.now unfinished.old request_id frame.now.chunk_type (drop 16 frame.now.body)) }
    ensures limits { AreWithinLimits limits.now unfinished.new }
    ensures err { OnErr result (unfinished.new ≡ unfinished.old) }
    ensures memory { result ≡ Err Memory → brings_part (joining_of limits.now unfinished.old request_id frame.now.chunk_type (drop 16 frame.now.body)).answer ≡ true }
{
    let part = &frame.body.as_slice()[HEADER_SIZE..];
    if !may_join(unfinished, request_id) {
        return Err(Refusal::Service(Status::BAD_DECODING_ERROR));
    }
    if exceeds_limits(limits, unfinished, part) {
        return Err(Refusal::Service(Status::BAD_TCP_MESSAGE_TOO_LARGE));
    }
    match frame.chunk_type {
        ChunkType::Intermediate => {
            extend(alloc, unfinished, request_id, part)?;
            Ok(Taken::Nothing)
        }
        ChunkType::Final => {
            let body = finish(unfinished, frame)?;
            Ok(Taken::Request {
                id: request_id,
                body,
            })
        }
        ChunkType::Aborted => {
            *unfinished = None;
            Ok(Taken::Aborted { id: request_id })
        }
    }
}

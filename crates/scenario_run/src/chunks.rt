//! Frames, and the chunks of a request.

ghost use Rattle.std.specs.Prelude.{◌≡◌, ◌<◌, ◌+◌, ◌^◌, ◌++◌, true, false, length, OnOk, IfOk};
ghost use Rattle.std.specs.List.{concat};
ghost use Rattle.ua_transport.specs.Encoding.{letters_of, frame_encoding};
ghost use Rattle.scenario_run.specs.RequestRuns.{request_run};

use bytes::Bytes;
use std::alloc::{AllocError, Global};
use ua_transport::{ChunkHeader, ChunkType, MessageType, chunk, cut, sequence_number_after};

/// Why a message is given up: a status of 0 and a reason that is null.
const NO_REASON: [u8; 8] = [0, 0, 0, 0, 0xff, 0xff, 0xff, 0xff];

fn put_letters(out: &mut Vec<u8>, message_type: MessageType) -> Result<(), AllocError>
    ensures { OnOk result (out.new.items ≡ out.old.items ++ letters_of message_type) }
{
    match message_type {
        MessageType::Hello => out.extend_from_slice(b"HEL"),
        MessageType::Acknowledge => out.extend_from_slice(b"ACK"),
        MessageType::Error => out.extend_from_slice(b"ERR"),
        MessageType::OpenSecureChannel => out.extend_from_slice(b"OPN"),
        MessageType::Message => out.extend_from_slice(b"MSG"),
        MessageType::CloseSecureChannel => out.extend_from_slice(b"CLO"),
    }
}

/// Writes a frame behind what was written before. At an `Err` a part of it is written.
pub(crate) fn put_frame(
    out: &mut Vec<u8>,
    message_type: MessageType,
    chunk_type: ChunkType,
    body: &[u8],
) -> Result<(), AllocError>
    requires { 8 + length body.now < 2 ^ 32 }
    ensures { OnOk result (out.new.items ≡ out.old.items
        ++ frame_encoding (record { message_type = message_type; chunk_type = chunk_type; body = body.now })) }
{
    let size = 8 + body.len();
    put_letters(out, message_type)?;
    out.push(chunk_type.letter())?;
    out.extend_from_slice(&(size as u32).to_le_bytes())?;
    out.extend_from_slice(body)?;
    Ok(())
}

// Writes chunks, one behind the other.
fn put_chunks(out: &mut Vec<u8>, chunks: &[Bytes]) -> Result<(), AllocError>
    ensures { OnOk result (out.new.items ≡ out.old.items ++ concat chunks.now) }
{
    for chunk in chunks {
        out.extend_from_slice(chunk.as_slice())?;
    }
    Ok(())
}

#[tactic(auto, unfolding(crate::specs::RequestRuns::request_run))]
fn put_whole(
    alloc: Global,
    out: &mut Vec<u8>,
    first: &ChunkHeader,
    room: usize,
    body: &[u8],
) -> Result<u32, AllocError>
    requires some { 0 < room }
    requires small { room + 24 < 2 ^ 32 }
    ensures bytes { OnOk result (out.new.items ≡ out.old.items ++ (request_run false first.now room body.now).bytes) }
    ensures next { IfOk result (λ n. n ≡ (request_run false first.now room body.now).next.sequence_number) }
{
    let (chunks, sent) = cut(alloc, ChunkType::Final, *first, room, body)?;
    put_chunks(out, chunks.as_slice())?;
    Ok(sequence_number_after(sent))
}

// Writes all parts, and then the chunk that gives up the message.
#[tactic(auto, unfolding(crate::specs::RequestRuns::request_run))]
fn put_aborted(
    alloc: Global,
    out: &mut Vec<u8>,
    first: &ChunkHeader,
    room: usize,
    body: &[u8],
) -> Result<u32, AllocError>
    requires some { 0 < room }
    requires small { room + 24 < 2 ^ 32 }
    ensures bytes { OnOk result (out.new.items ≡ out.old.items ++ (request_run true first.now room body.now).bytes) }
    ensures next { IfOk result (λ n. n ≡ (request_run true first.now room body.now).next.sequence_number) }
{
    let (chunks, sent) = cut(alloc, ChunkType::Intermediate, *first, room, body)?;
    put_chunks(out, chunks.as_slice())?;
    let next = ChunkHeader {
        sequence_number: sequence_number_after(sent),
        ..*first
    };
    let end = chunk(alloc, &next, ChunkType::Aborted, &NO_REASON)?;
    out.extend_from_slice(end.as_slice())?;
    Ok(sequence_number_after(next.sequence_number))
}

/// Writes a request in parts of this size, and gives up the message where it is to be aborted. The answer is
/// the sequence number of the next chunk. At an `Err` a part of it is written.
pub(crate) fn put_request(
    alloc: Global,
    out: &mut Vec<u8>,
    aborted: bool,
    first: &ChunkHeader,
    room: usize,
    body: &[u8],
) -> Result<u32, AllocError>
    requires some { 0 < room }
    requires small { room + 24 < 2 ^ 32 }
    ensures bytes { OnOk result (out.new.items ≡ out.old.items ++ (request_run aborted first.now room body.now).bytes) }
    ensures next { IfOk result (λ n. n ≡ (request_run aborted first.now room body.now).next.sequence_number) }
{
    match aborted {
        true => put_aborted(alloc, out, first, room, body),
        false => put_whole(alloc, out, first, room, body),
    }
}

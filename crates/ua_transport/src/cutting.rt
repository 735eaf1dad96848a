//! Messages cut into chunks.

ghost use Rattle.std.specs.Prelude.{◌≡◌, ◌<◌, ◌≤◌, ◌+◌, ◌^◌, ◌∷◌, ◌++◌, ℕ, length, false, IfOk};
ghost use Rattle.std.specs.Int.{w32, to_le_bytes};
ghost use Rattle.ua_transport.specs.Encoding.{frame_encoding, letters_of, letter_of};
ghost use Rattle.ua_transport.specs.declared.frame.MessageType.TheVariants.{Message};
ghost use Rattle.ua_transport.specs.declared.frame.ChunkType.TheVariants.{Final};
ghost use Rattle.ua_transport.specs.Headers.{chunk_header_encoding};
ghost use Rattle.ua_transport.specs.Cutting.{chunk_encoding, cut_of, is_too_large as is_too_large_spec, exceeds as exceeds_spec, opening_frame, opening_header_by, is_opening_too_large as is_opening_too_large_spec};

use crate::frame::ChunkType;
use crate::handshake::Agreed;
use crate::headers::{ChunkHeader, FRAME_HEADER_SIZE, OPENING_FRAME_HEADER_SIZE, OpeningHeader};
use crate::sequence_numbers::sequence_number_after;
use bytes::Bytes;
use collections::ShortList;
use std::alloc::{AllocError, Global};
use ua_binary::Wire;
use ua_messages::{HEAD_SIZE, MessageBody};

// How many bytes of a body a chunk holds.
pub(crate) fn room(agreed: &Agreed) -> usize
    ensures value { result + 24 ≡ agreed.now.send_size }
    ensures some { 0 < result }
    ensures small { result + 24 < 2 ^ 32 }
{
    (agreed.send_size - FRAME_HEADER_SIZE) as usize
}

// Whether the client doesn't take a body of this length.
pub(crate) fn is_too_large(agreed: &Agreed, len: usize) -> bool
    ensures { result ≡ is_too_large_spec agreed.now len }
{
    let chunk_count = len.saturating_sub(1) / room(agreed) + 1;
    exceeds(agreed.max_message_size, len) || exceeds(agreed.max_chunk_count, chunk_count)
}

// A limit of 0 is none.
pub(crate) fn exceeds(limit: u32, n: usize) -> bool
    ensures { result ≡ exceeds_spec limit n }
{
    limit != 0 && n > limit as usize
}

/// The chunks of a body, each of which holds so many bytes of it, and the sequence number of the last of them. The
/// first has this header, and the last this type.
pub fn cut(
    alloc: Global,
    last: ChunkType,
    first: ChunkHeader,
    room: usize,
    body: &[u8],
) -> Result<(ShortList<Bytes>, u32), AllocError>
    requires some { 0 < room }
    requires small { room + 24 < 2 ^ 32 }
    ensures cut { IfOk result (λ cut. record { chunks = cut.0; sent = cut.1 } ≡ cut_of last first room body.now) }
    ensures sent { first.sequence_number ≤ 4294966272 → IfOk result (λ cut. cut.1 ≤ 4294966272) }
{
    let mut chunks = ShortList::new(alloc);
    let mut header = first;
    let mut rest = body;
    while rest.len() > room {
        let (part, behind) = rest.split_at(room);
        chunks.push(chunk(alloc, &header, ChunkType::Intermediate, part)?)?;
        header.sequence_number = sequence_number_after(header.sequence_number);
        rest = behind;
    }
    chunks.push(chunk(alloc, &header, last, rest)?)?;
    Ok((chunks, header.sequence_number))
}

/// The chunks of a body that is given away, and the sequence number of the last of them. Where one chunk holds the body, it
/// is sent from where it was written, and none of it is copied.
#[tactic(auto, using(crate::proofs::CuttingLemmas::cut_last))]
pub(crate) fn cut_up(
    alloc: Global,
    first: ChunkHeader,
    room: usize,
    body: MessageBody,
) -> Result<(ShortList<Bytes>, u32), AllocError>
    requires some { 0 < room }
    requires small { room + 24 < 2 ^ 32 }
    ensures cut { IfOk result (λ cut. record { chunks = cut.0; sent = cut.1 } ≡ cut_of Final first room body) }
    ensures sent { first.sequence_number ≤ 4294966272 → IfOk result (λ cut. cut.1 ≤ 4294966272) }
{
    if body.len() > room {
        return cut(alloc, ChunkType::Final, first, room, body.as_slice());
    }
    let mut chunks = ShortList::new(alloc);
    chunks.push(only_chunk(&first, body)?)?;
    Ok((chunks, first.sequence_number))
}

// The one chunk of a body.
#[tactic(auto, using(crate::proofs::HeaderLemmas::encoding_length, crate::proofs::HeaderLemmas::head_before))]
fn only_chunk(header: &ChunkHeader, body: MessageBody) -> Result<Bytes, AllocError>
    requires { length body + 24 < 2 ^ 32 }
    ensures { IfOk result (λ chunk. chunk ≡ chunk_encoding header.now Final body) }
{
    let head = head(header, (HEAD_SIZE + body.len()) as u32);
    body.into_frame(&head)
}

// What stands before the body in its one chunk, which has this size.
#[tactic(auto, unfolding(crate::specs::Headers::chunk_header_encoding, ua_binary::specs::Numbers::number_encoding))]
fn head(header: &ChunkHeader, size: u32) -> [u8; HEAD_SIZE]
    ensures { result ≡ letters_of Message ++ (letter_of Final ∷ (to_le_bytes w32 size ++ chunk_header_encoding header.now)) }
{
    let size = size.to_le_bytes();
    let channel = header.channel_id.to_le_bytes();
    let token = header.token_id.to_le_bytes();
    let sequence = header.sequence_number.to_le_bytes();
    let request = header.request_id.to_le_bytes();
    [
        b'M',
        b'S',
        b'G',
        b'F',
        size[0],
        size[1],
        size[2],
        size[3],
        channel[0],
        channel[1],
        channel[2],
        channel[3],
        token[0],
        token[1],
        token[2],
        token[3],
        sequence[0],
        sequence[1],
        sequence[2],
        sequence[3],
        request[0],
        request[1],
        request[2],
        request[3],
    ]
}

/// A MSG of this type with this part of a body.
#[tactic(auto, using(crate::proofs::HeaderLemmas::encoding_length))]
pub fn chunk(
    alloc: Global,
    header: &ChunkHeader,
    chunk_type: ChunkType,
    part: &[u8],
) -> Result<Bytes, AllocError>
    requires { length part.now + 24 < 2 ^ 32 }
    ensures { IfOk result (λ chunk. chunk ≡ chunk_encoding header.now chunk_type part.now) }
{
    let size = FRAME_HEADER_SIZE as usize + part.len();
    let mut frame = Vec::with_capacity(alloc, size)?;
    frame.extend_from_slice(b"MSG")?;
    frame.push(chunk_type.letter())?;
    frame.extend_from_slice(&(size as u32).to_le_bytes())?;
    header.encode(&mut frame)?;
    frame.extend_from_slice(part)?;
    Ok(Bytes::from_vec(frame)?)
}

// Whether the client doesn't take this body in one OPN, or the agreed send size doesn't hold it.
#[tactic(auto, using(crate::proofs::HeaderLemmas::opening_length))]
pub(crate) fn is_opening_too_large(agreed: &Agreed, body: &[u8]) -> bool
    ensures large { (channel_id sequence_number request_id : ℕ) → result ≡ is_opening_too_large_spec agreed.now
        (opening_frame (opening_header_by channel_id sequence_number request_id) body.now) (length body.now) }
    ensures fits { result ≡ false → length body.now + 79 ≤ agreed.now.send_size }
    ensures small { agreed.now.send_size < 2 ^ 32 }
{
    exceeds(agreed.max_message_size, body.len())
        || body
            .len()
            .saturating_add(OPENING_FRAME_HEADER_SIZE as usize)
            > agreed.send_size as usize
}

/// The OPN with this body.
#[tactic(auto, using(crate::proofs::HeaderLemmas::opening_length))]
pub fn opening_chunk(
    alloc: Global,
    channel_id: u32,
    sequence_number: u32,
    request_id: u32,
    body: &[u8],
) -> Result<Bytes, AllocError>
    requires { length body.now + 79 < 2 ^ 32 }
    ensures { IfOk result (λ chunk. chunk ≡ frame_encoding
        (opening_frame (opening_header_by channel_id sequence_number request_id) body.now)) }
{
    let header = OpeningHeader::unsecured(alloc, channel_id, sequence_number, request_id)?;
    let size = OPENING_FRAME_HEADER_SIZE as usize + body.len();
    let mut frame = Vec::with_capacity(alloc, size)?;
    frame.extend_from_slice(b"OPNF")?;
    frame.extend_from_slice(&(size as u32).to_le_bytes())?;
    header.encode(&mut frame)?;
    frame.extend_from_slice(body)?;
    Ok(Bytes::from_vec(frame)?)
}

//! One frame, and what its first eight bytes say.

ghost use Rattle.ua_transport.specs.Encoding.{letter_of};
ghost use Rattle.std.specs.Prelude.{◌≡◌, ◌<◌, ◌≤◌, length, take, slice_index};
ghost use Rattle.ua_transport.specs.Header.{message_type_of, chunk_type_of, may_come_in, header_of, judgement_of};

use bytes::Bytes;
use thiserror::Error;

/// Which message a frame belongs to: its first three letters (IEC 62541-6, "Message structure" and
/// "MessageChunk structure").
#[derive(Clone, Copy, Debug, PartialEq, Eq)]
pub enum MessageType {
    /// `HEL`, with which a client opens a connection.
    Hello,
    /// `ACK`, the server's answer to it.
    Acknowledge,
    /// `ERR`, with which either side says why it closes the connection.
    Error,
    /// `OPN`, a chunk of an OpenSecureChannel message.
    OpenSecureChannel,
    /// `MSG`, a chunk of a message that the secure channel carries.
    Message,
    /// `CLO`, a chunk of a CloseSecureChannel message.
    CloseSecureChannel,
}

/// Which part of a message a frame carries: its fourth letter, the `IsFinal` of IEC 62541-6,
/// "MessageChunk structure".
#[derive(Clone, Copy, Debug, PartialEq, Eq)]
pub enum ChunkType {
    /// `C`: more chunks of the message follow.
    Intermediate,
    /// `F`: the last chunk of the message, or all of it.
    Final,
    /// `A`: the sender gives the message up.
    Aborted,
}

impl ChunkType {
    /// Its letter.
    pub fn letter(self) -> u8
        ensures { result ≡ letter_of self }
    {
        match self {
            ChunkType::Intermediate => b'C',
            ChunkType::Final => b'F',
            ChunkType::Aborted => b'A',
        }
    }
}

/// Why a stream has no further frames.
#[derive(Clone, Copy, Debug, PartialEq, Eq, Error)]
pub enum FrameFault {
    /// The first four letters of a frame are none that begin one. `HEL`, `ACK` and `ERR` come with
    /// `F` alone, `OPN`, `MSG` and `CLO` with `C`, `F` or `A`.
    #[error("the first four letters begin no frame")]
    Letters,

    /// The size in a frame's header is below 8, the header itself, or above the limit.
    #[error("the frame's size is below 8 or above the limit")]
    Size,

    /// An earlier piece had one of the other faults, after which nothing is read.
    #[error("an earlier frame was at fault")]
    Failed,
}

/// A frame of a stream (IEC 62541-6, "Message structure"): three letters, a chunk letter, the size
/// of the whole frame, and the body.
#[derive(Debug, Drop)]
pub struct Frame {
    pub message_type: MessageType,
    pub chunk_type: ChunkType,
    /// What stands behind the first eight bytes.
    pub body: Bytes,
}

// What a frame's first eight bytes say.
#[derive(Clone, Copy)]
pub struct Header {
    pub message_type: MessageType,
    pub chunk_type: ChunkType,
    // Of the whole frame, these eight bytes too.
    pub size: u32,
}

// What the bytes from a frame's first on say of it.
#[derive(Clone, Copy)]
pub enum Judgement {
    Incomplete,
    Faulty(FrameFault),
    Whole(Header),
}

fn message_type_from(letters: &[u8]) -> Option<MessageType>
    ensures { result ≡ message_type_of letters.now }
{
    if letters == b"HEL".as_slice() {
        Some(MessageType::Hello)
    } else if letters == b"ACK".as_slice() {
        Some(MessageType::Acknowledge)
    } else if letters == b"ERR".as_slice() {
        Some(MessageType::Error)
    } else if letters == b"OPN".as_slice() {
        Some(MessageType::OpenSecureChannel)
    } else if letters == b"MSG".as_slice() {
        Some(MessageType::Message)
    } else if letters == b"CLO".as_slice() {
        Some(MessageType::CloseSecureChannel)
    } else {
        None
    }
}

fn chunk_type_from(letter: u8) -> Option<ChunkType>
    ensures { result ≡ chunk_type_of letter }
{
    match letter {
        b'C' => Some(ChunkType::Intermediate),
        b'F' => Some(ChunkType::Final),
        b'A' => Some(ChunkType::Aborted),
        _ => None,
    }
}

fn comes_in(message_type: MessageType, chunk_type: ChunkType) -> bool
    ensures { result ≡ may_come_in message_type chunk_type }
{
    match message_type {
        MessageType::OpenSecureChannel | MessageType::Message | MessageType::CloseSecureChannel =>
            true,
        MessageType::Hello | MessageType::Acknowledge | MessageType::Error => {
            chunk_type == ChunkType::Final
        }
    }
}

#[tactic(auto, unfolding(crate::specs::Header::header_of))]
// The header that these bytes are, and its first fault otherwise.
pub(crate) fn read_header(limit: u32, bytes: &[u8; 8]) -> Result<Header, FrameFault>
    ensures { result ≡ header_of limit bytes.now }
{
    let (Some(message_type), Some(chunk_type)) = (
        message_type_from(&bytes[..3]),
        chunk_type_from(bytes[3]),
    ) else {
        return Err(FrameFault::Letters);
    };
    let size = u32::from_le_bytes([bytes[4], bytes[5], bytes[6], bytes[7]]);
    if !comes_in(message_type, chunk_type) {
        return Err(FrameFault::Letters);
    }
    if size < 8 || size > limit {
        return Err(FrameFault::Size);
    }
    Ok(Header {
        message_type,
        chunk_type,
        size,
    })
}

#[tactic(auto, unfolding(crate::specs::Header::judgement_of))]
// Judges the frame that these bytes begin, once eight are there.
pub(crate) fn judge(limit: u32, bytes: &[u8]) -> Judgement
    ensures { result ≡ judgement_of limit bytes.now }
{
    let Some(head) = bytes.first_chunk::<8>() else {
        return Judgement::Incomplete;
    };
    match read_header(limit, head) {
        Err(fault) => Judgement::Faulty(fault),
        Ok(header) if bytes.len() < header.size as usize => Judgement::Incomplete,
        Ok(header) => Judgement::Whole(header),
    }
}

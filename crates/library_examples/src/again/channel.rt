//! The frames of a stream, the request that they bring to a channel, and its answers.

use super::TWICE;
use bytes::Bytes;
use collections::ShortList;
use std::alloc::{AllocError, Global};
use std::io;
use std::io::Write;
use ua_messages::MessageBody;
use ua_transport::{Agreed, Channel, Fed, Frame, Framer, Limits, SendFault, Taken};
use ua_types::{ByteString, Refusal};

// Two chunks of the request 2, of 26 bytes each, on channel 7.
const CHUNKS: &[u8] =
    b"MSGC\x1a\0\0\0\x07\0\0\0\x01\0\0\0\x01\0\0\0\x02\0\0\0abMSGF\x1a\0\0\0\x07\0\0\0\x01\0\0\0\x02\0\0\0\x02\0\0\0cd";

// Channel 7, open, whose answers go out in frames of 1,024 bytes.
fn opened() -> Channel {
    let mut channel = Channel::new(Agreed {
        receive_size: 1024,
        send_size: 1024,
        max_message_size: 0,
        max_chunk_count: 0,
        limits: Limits {
            receive_size: 1024,
            send_size: 1024,
            max_message: 4096,
            max_chunks: 64,
        },
    });
    channel.grant(7);
    channel
}

// The frames that are whole with a piece. None where memory ran out twice.
fn fed(alloc: Global, framer: &mut Framer, piece: &[u8]) -> io::Result<Option<ShortList<Frame>>> {
    let piece = Bytes::from_vec(Vec::from_slice(alloc, piece)?)?;
    let fed = match framer.feed(alloc, &piece) {
        Err(_) => framer.feed(alloc, &piece),
        fed => fed,
    };
    match fed {
        Ok(Fed { frames, fault: _ }) => Ok(Some(frames)),
        Err(_) => Ok(None),
    }
}

// A body of so many bytes, behind four that say how many there are.
fn body(alloc: Global, size: u16) -> Result<MessageBody, AllocError> {
    let bytes = vec![in alloc; 7u8; usize::from(size)]?;
    let mut body = MessageBody::new(alloc)?;
    body.write(&ByteString::from_slice(alloc, bytes.as_slice())?)?;
    Ok(body)
}

// The heads of an answer's chunks.
fn write_answer(
    alloc: Global,
    channel: &mut Channel,
    size: u16,
    output: &mut Vec<u8>,
) -> io::Result<()> {
    let sent = match channel.send(alloc, 2, body(alloc, size)?) {
        Err(SendFault::Memory) => channel.send(alloc, 2, body(alloc, size)?),
        sent => sent,
    };
    let Ok(chunks) = sent else {
        return output.write_all(TWICE);
    };
    for chunk in chunks.as_slice() {
        let head = chunk.as_slice().get(..24).unwrap_or(b"".as_slice());
        let digits = hex::encode(alloc, head)?;
        write!(output, "{digits}\n")?;
    }
    Ok(())
}

// What frames ask of the server.
fn write_requests(
    alloc: Global,
    channel: &mut Channel,
    frames: &[Frame],
    output: &mut Vec<u8>,
) -> io::Result<()> {
    for frame in frames {
        let taken = match channel.take(alloc, frame) {
            Err(Refusal::Memory) => channel.take(alloc, frame),
            taken => taken,
        };
        match taken {
            Ok(Taken::Request { id, body }) => {
                let digits = hex::encode(alloc, body.as_slice())?;
                write!(output, "request {id} {digits}\n")?;
            }
            other => write!(output, "{other:?}\n")?,
        }
    }
    Ok(())
}

/// Writes what pieces of a stream, which end within a header, within a body and behind a header, ask of the server, and the heads
/// of the chunks of three answers, of which the first has two.
pub(super) fn write_channel(alloc: Global, output: &mut Vec<u8>) -> io::Result<()> {
    let mut framer = Framer::new(1024);
    let mut channel = opened();
    let mut rest = CHUNKS;
    for size in [5, 15, 14, 18] {
        let (piece, behind) = rest.split_at(size.min(rest.len()));
        match fed(alloc, &mut framer, piece)? {
            Some(frames) => write_requests(alloc, &mut channel, frames.as_slice(), output)?,
            None => output.write_all(TWICE)?,
        }
        rest = behind;
    }
    for size in [1496u16, 2, 2] {
        write_answer(alloc, &mut channel, size, output)?;
    }
    Ok(())
}

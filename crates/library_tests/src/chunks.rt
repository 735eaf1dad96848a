//! Chunks that no connection comes to: every opening's answer has room there, and a frame that is too long doesn't reach the
//! channel.

use crate::holding::holds;
use bytes::Bytes;
use std::alloc::Global;
use std::test::*;
use ua_transport::{Agreed, Channel, ChunkType, Frame, Limits, MessageType, SendFault};
use ua_types::{Refusal, Status};

// Frames of 65,536 bytes from the client, and of 1,024 to it.
fn unopened() -> Channel {
    Channel::new(Agreed {
        receive_size: 65536,
        send_size: 1024,
        max_message_size: 0,
        max_chunk_count: 0,
        limits: Limits {
            receive_size: 65536,
            send_size: 65536,
            max_message: 4096,
            max_chunks: 64,
        },
    })
}

// How long the frame of an opening's answer is whose body is so long, and 0 where there is none, for want of room.
fn opening_size(alloc: Global, size: usize) -> Result<usize, Fail> {
    let body = vec![in alloc; 0u8; size]?;
    let mut channel = unopened();
    channel.grant(7);
    match channel.send_opening(alloc, 1, body.as_slice()) {
        Ok(chunks) => match chunks.as_slice() {
            [chunk] => Ok(chunk.len()),
            _ => Err(Fail::new("more than one chunk")),
        },
        Err(SendFault::TooLarge) => Ok(0),
        Err(SendFault::Memory) => Err(Fail::new("memory")),
    }
}

#[test]
fn an_opening_in_one_chunk(rt: HostRuntime) -> Result<(), Fail> {
    // Headers of 79 bytes stand before the body.
    holds(&rt, "135", opening_size(rt.alloc(), 56)? == 135);
    holds(&rt, "1,024", opening_size(rt.alloc(), 945)? == 1024);
    holds(&rt, "1,025", opening_size(rt.alloc(), 946)? == 0);
    Ok(())
}

// With what a frame of 65,537 bytes is refused, and 0 where it isn't.
fn status_of(alloc: Global, message_type: MessageType, chunk_type: ChunkType) -> Result<u32, Fail> {
    let body = Bytes::from_vec(vec![in alloc; 0u8; 65529]?)?;
    let frame = Frame {
        message_type,
        chunk_type,
        body,
    };
    match unopened().take(alloc, &frame) {
        Err(Refusal::Service(Status(code))) => Ok(code),
        _ => Ok(0),
    }
}

#[test]
fn frames_that_are_too_long(rt: HostRuntime) -> Result<(), Fail> {
    let opening = MessageType::OpenSecureChannel;
    let status = status_of(rt.alloc(), opening, ChunkType::Intermediate)?;
    holds(
        &rt,
        "of two faults that of the letters",
        status == 0x807E_0000,
    );
    let status = status_of(rt.alloc(), MessageType::Message, ChunkType::Final)?;
    holds(&rt, "too long", status == 0x8080_0000);
    Ok(())
}

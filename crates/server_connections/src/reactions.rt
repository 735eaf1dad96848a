//! What the server does about a frame of one connection.

ghost use Rattle.std.specs.Prelude.{◌≡◌, ◌++◌, IfOk, OnOk};
ghost use Rattle.server_connections.specs.Reactions.{reaction, reaction_after, counted, counted_after, left_by, refused, refusal, closed, acknowledgement, granted, opening_body, opening_reaction, sends, first_reaction, later_reaction, reaction_of, fault_reaction};

use crate::connection::Phase;
use crate::frame_outcome::FrameOutcome;
use bytes::Bytes;
use collections::ShortList;
use server_messages::{Origin, Out, Request, Setting};
use std::alloc::{AllocError, Global};
use ua_messages::{MessageBody, OpenSecureChannelResponse, ResponseHeader, body, type_ids};
use ua_transport::{
    Agreed, Channel, Frame, FrameFault, Limits, MessageType, SendFault, Taken, ack, err, hello,
};
use ua_types::{ByteString, Refusal, Status};

/// What every answer is made with.
#[derive(Clone, Copy, Debug)]
pub(crate) struct Answering<'a> {
    /// From where memory is taken.
    pub alloc: Global,
    /// What the server was told about itself, with its clock.
    pub setting: &'a Setting,
}

/// A frame and the connection that it came on.
#[derive(Clone, Copy, Debug)]
pub(crate) struct Received<'a> {
    /// The number of the connection.
    pub conn: u64,
    /// The random bytes with which the connection was opened.
    pub key: [u8; 32],
    /// The frame itself.
    pub frame: &'a Frame,
}

// The connection is to be closed.
fn close(conn: u64, outs: &mut ShortList<Out>) -> Result<FrameOutcome, AllocError>
    ensures { IfOk result (λ asked. reaction Phase.Closed outs.new asked ≡ reaction_after outs.old (closed conn)) }
{
    outs.push(Out::Close { conn })?;
    Ok(FrameOutcome::Closed)
}

/// The client is told this status, to be followed by the end of the connection.
#[tactic(auto, unfolding(crate::specs::Reactions::refusal))]
pub(crate) fn put_refusal(
    alloc: Global,
    conn: u64,
    status: Status,
    outs: &mut ShortList<Out>,
) -> Result<(), AllocError>
    ensures { OnOk result (outs.new ≡ outs.old ++ refusal conn status) }
{
    outs.push(Out::Send {
        conn,
        bytes: err(alloc, status)?,
    })?;
    outs.push(Out::Close { conn })?;
    Ok(())
}

// The client is told this status, and then the connection is to be closed.
fn refuse(
    alloc: Global,
    conn: u64,
    status: Status,
    outs: &mut ShortList<Out>,
) -> Result<FrameOutcome, AllocError>
    ensures { IfOk result (λ asked. reaction Phase.Closed outs.new asked ≡ reaction_after outs.old (refused conn status)) }
{
    put_refusal(alloc, conn, status, outs)?;
    Ok(FrameOutcome::Closed)
}

// The client is told what was agreed.
#[tactic(auto, unfolding(crate::specs::Reactions::acknowledgement))]
fn acknowledge(
    alloc: Global,
    conn: u64,
    agreed: &Agreed,
    outs: &mut ShortList<Out>,
) -> Result<(), AllocError>
    ensures { OnOk result (outs.new ≡ outs.old ++ acknowledgement conn agreed.now) }
{
    outs.push(Out::Send {
        conn,
        bytes: ack(alloc, agreed)?,
    })?;
    Ok(())
}

// The first frame of a connection, which makes its channel where it isn't to be closed.
#[tactic(auto, unfolding(crate::specs::Reactions::first_reaction))]
fn take_first_frame(
    answering: Answering<'_>,
    received: Received<'_>,
    phase: &mut Phase,
    outs: &mut ShortList<Out>,
) -> Result<FrameOutcome, AllocError>
    ensures { IfOk result (λ asked. reaction (left_by asked phase.new) outs.new asked
        ≡ reaction_after outs.old (first_reaction answering.entry.setting.now received.entry.conn received.entry.frame.now)) }
{
    let Answering { alloc, setting } = answering;
    let Received {
        conn,
        key: _,
        frame,
    } = received;
    if frame.message_type == MessageType::Error {
        return close(conn, outs);
    }
    match hello(frame, &Limits::new(&setting.config)) {
        Ok(agreed) => {
            acknowledge(alloc, conn, &agreed, outs)?;
            *phase = Phase::Talking(Channel::new(agreed));
            Ok(FrameOutcome::Nothing)
        }
        Err(status) => refuse(alloc, conn, status, outs),
    }
}

/// Sends frames on a connection.
pub(crate) fn send_all(
    conn: u64,
    chunks: ShortList<Bytes>,
    outs: &mut ShortList<Out>,
) -> Result<(), AllocError>
    ensures { OnOk result (outs.new ≡ outs.old ++ sends conn chunks) }
{
    for bytes in chunks {
        outs.push(Out::Send { conn, bytes })?;
    }
    Ok(())
}

#[tactic(auto, unfolding(crate::specs::Reactions::opening_body))]
fn opening_response(
    answering: Answering<'_>,
    handle: u32,
    channel_id: u32,
    token_id: u32,
) -> Result<MessageBody, AllocError>
    ensures { IfOk result (λ body. body ≡ opening_body answering.entry.setting.now handle channel_id token_id) }
{
    let Answering { alloc, setting } = answering;
    let response = OpenSecureChannelResponse {
        response_header: ResponseHeader::good(handle, setting.clock),
        server_protocol_version: 0,
        channel_id,
        token_id,
        created_at: setting.clock,
        revised_lifetime: setting.config.lifetime_ms,
        server_nonce: ByteString::null(),
    };
    body(alloc, type_ids::OPEN_SECURE_CHANNEL_RESPONSE, &response)
}

// Grants a token of the channel with this number, and gives the chunk that says so.
#[tactic(auto, unfolding(crate::specs::Reactions::granted, crate::specs::Reactions::opening_sent))]
fn grant(
    answering: Answering<'_>,
    channel: &mut Channel,
    origin: Origin,
    number: u32,
) -> Result<ShortList<Bytes>, AllocError>
    ensures { IfOk result (λ chunks. record { frames = chunks; channel = channel.new } ≡ granted answering.entry.setting.now channel.old origin number) }
{
    let token_id = channel.grant(number);
    let body = opening_response(answering, origin.handle, number, token_id)?;
    match channel.send_opening(answering.alloc, origin.id, body.as_slice()) {
        Ok(chunks) => Ok(chunks),
        Err(SendFault::TooLarge) => Ok(ShortList::new(answering.alloc)),
        Err(SendFault::Memory) => Err(AllocError),
    }
}

// A request to open the channel or to renew its token.
#[derive(Clone, Copy, Debug)]
struct Opening {
    origin: Origin,
    // Whether it is a renewal.
    renew: bool,
}

// Opens the channel, or renews its token.
#[tactic(auto, unfolding(crate::specs::Reactions::opening_reaction))]
fn open(
    answering: Answering<'_>,
    channels: &mut u32,
    channel: &mut Channel,
    opening: Opening,
    outs: &mut ShortList<Out>,
) -> Result<FrameOutcome, AllocError>
    ensures { IfOk result (λ asked. counted channels.new (reaction (left_by asked (Phase.Talking channel.new)) outs.new asked)
        ≡ counted_after outs.old (opening_reaction answering.entry.setting.now channels.old channel.old opening.origin opening.renew)) }
{
    let Opening { origin, renew } = opening;
    let number = if renew {
        channel.number().unwrap_or(0)
    } else if *channels == u32::MAX {
        return refuse(
            answering.alloc,
            origin.conn,
            Status::BAD_TCP_NOT_ENOUGH_RESOURCES,
            outs,
        );
    } else {
        *channels += 1;
        *channels
    };
    let chunks = grant(answering, channel, origin, number)?;
    send_all(origin.conn, chunks, outs)?;
    Ok(FrameOutcome::Nothing)
}

// A later frame of a connection.
#[tactic(auto, unfolding(crate::specs::Reactions::later_reaction))]
fn talk(
    answering: Answering<'_>,
    channels: &mut u32,
    received: Received<'_>,
    channel: &mut Channel,
    outs: &mut ShortList<Out>,
) -> Result<FrameOutcome, AllocError>
    ensures { IfOk result (λ asked. counted channels.new (reaction (left_by asked (Phase.Talking channel.new)) outs.new asked)
        ≡ counted_after outs.old (later_reaction answering.entry.setting.now channels.old received.entry.conn received.entry.key received.entry.frame.now channel.old)) }
{
    let Received { conn, key, frame } = received;
    match channel.take(answering.alloc, frame) {
        Ok(Taken::Nothing) => Ok(FrameOutcome::Nothing),
        Ok(Taken::Aborted { id: _ }) => Ok(FrameOutcome::Nothing),
        Ok(Taken::Closed) => close(conn, outs),
        Ok(Taken::Opening { id, handle, renew }) => {
            let origin = Origin { conn, id, handle };
            let opening = Opening { origin, renew };
            open(answering, channels, channel, opening, outs)
        }
        Ok(Taken::Request { id, body }) => Ok(FrameOutcome::Request(Request {
            conn,
            key,
            id,
            body,
        })),
        Err(Refusal::Service(status)) => refuse(answering.alloc, conn, status, outs),
        Err(Refusal::Memory) => Err(AllocError),
        Err(Refusal::Exhausted) => unreachable!(),
    }
}

/// A frame of a connection in this phase, which is changed in its place.
pub(crate) fn frame_reaction(
    answering: Answering<'_>,
    channels: &mut u32,
    received: Received<'_>,
    phase: &mut Phase,
    outs: &mut ShortList<Out>,
) -> Result<FrameOutcome, AllocError>
    ensures { IfOk result (λ asked. counted channels.new (reaction phase.new outs.new asked)
        ≡ counted_after outs.old (reaction_of answering.entry.setting.now channels.old received.entry.conn received.entry.key received.entry.frame.now phase.old)) }
{
    let asked = match phase {
        Phase::Greeting => take_first_frame(answering, received, phase, outs)?,
        Phase::Talking(channel) => talk(answering, channels, received, channel, outs)?,
        Phase::Closed => FrameOutcome::Closed,
    };
    if matches!(&asked, FrameOutcome::Closed) {
        *phase = Phase::Closed;
    }
    Ok(asked)
}

/// What is no frame ends a connection.
pub(crate) fn break_off(
    alloc: Global,
    conn: u64,
    fault: FrameFault,
    phase: &mut Phase,
    outs: &mut ShortList<Out>,
) -> Result<FrameOutcome, AllocError>
    ensures { IfOk result (λ asked. reaction phase.new outs.new asked ≡ reaction_after outs.old (fault_reaction conn fault)) }
{
    *phase = Phase::Closed;
    match fault {
        FrameFault::Letters => refuse(alloc, conn, Status::BAD_TCP_MESSAGE_TYPE_INVALID, outs),
        FrameFault::Size => refuse(alloc, conn, Status::BAD_TCP_MESSAGE_TOO_LARGE, outs),
        FrameFault::Failed => close(conn, outs),
    }
}

//! How a reply is sent.

ghost use Rattle.std.specs.Prelude.{◌≡◌, ◌++◌, IfOk, OnOk};
ghost use Rattle.server_connections.specs.Delivering.{too_large_sent, reply_sent, said_by, said, said_after};

use crate::connection::Phase;
use crate::reactions::{Answering, send_all};
use bytes::Bytes;
use collections::ShortList;
use server_messages::{Origin, Out, Reply};
use std::alloc::{AllocError, Global};
use ua_messages::fault;
use ua_transport::{Channel, SendFault};
use ua_types::{Moment, Status};

// The fault that is sent in the place of a reply that is too large for the client.
#[tactic(auto, unfolding(crate::specs::Delivering::too_large_sent))]
fn too_large(
    alloc: Global,
    channel: &mut Channel,
    origin: Origin,
    clock: Moment,
) -> Result<ShortList<Bytes>, AllocError>
    ensures { IfOk result (λ chunks. record { frames = chunks; channel = channel.new } ≡ too_large_sent channel.old origin clock) }
{
    let body = fault(alloc, origin.handle, Status::BAD_RESPONSE_TOO_LARGE, clock)?;
    match channel.send(alloc, origin.id, body) {
        Ok(chunks) => Ok(chunks),
        Err(SendFault::TooLarge) => Ok(ShortList::new(alloc)),
        Err(SendFault::Memory) => Err(AllocError),
    }
}

// The chunks of a reply.
#[tactic(auto, unfolding(crate::specs::Delivering::reply_sent))]
fn reply_chunks(
    alloc: Global,
    channel: &mut Channel,
    reply: Reply,
    clock: Moment,
) -> Result<ShortList<Bytes>, AllocError>
    ensures { IfOk result (λ chunks. record { frames = chunks; channel = channel.new }
        ≡ reply_sent channel.old reply clock) }
{
    let Reply { origin, body } = reply;
    match channel.send(alloc, origin.id, body) {
        Ok(chunks) => Ok(chunks),
        Err(SendFault::TooLarge) => too_large(alloc, channel, origin, clock),
        Err(SendFault::Memory) => Err(AllocError),
    }
}

/// Sends a reply on its connection, in this phase. Only one that talks has a channel to send it by.
pub(crate) fn say(
    answering: Answering<'_>,
    phase: &mut Phase,
    reply: Reply,
    outs: &mut ShortList<Out>,
) -> Result<(), AllocError>
    ensures { OnOk result (said phase.new outs.new ≡ said_after outs.old (said_by answering.entry.setting.now reply phase.old)) }
{
    match phase {
        Phase::Greeting => Ok(()),
        Phase::Talking(channel) => {
            let conn = reply.origin.conn;
            let chunks = reply_chunks(answering.alloc, channel, reply, answering.setting.clock)?;
            send_all(conn, chunks, outs)
        }
        Phase::Closed => Ok(()),
    }
}

//! What a client sends.

ghost use Rattle.std.specs.Prelude.{◌≡◌, ◌<◌, ◌≤◌, length, Ok, IfOk, OnOk};
ghost use Rattle.ua_types.specs.Answers.{Gives, GivesAs};
ghost use Rattle.scenario_text.specs.declared.fault.Cause.TheVariants.{Memory};
ghost use Rattle.ua_transport.specs.Hellos.{hello_reading, hello_encoding};
ghost use Rattle.scenario_text.specs.Messages.{opening_body, closing_body, IsOpeningBody, IsClosingBody};
ghost use Rattle.scenario_run.specs.Groups.{null_header};
ghost use Rattle.scenario_run.specs.Reading.{hello_said};
ghost use Rattle.scenario_run.specs.Sendings.{limited, body_limit, new_client, header_of as header_of_spec, after_request, hello_of, named_channel, opened as opened_spec, opening_of, closing_of, room_of as room_of_spec, service_of};

use crate::chunks::{put_frame, put_request};
use scenario_text::{Cause, ChannelRequest, closing_body, opening_body, request_header};
use std::alloc::Global;
use ua_binary::Wire;
use ua_transport::{
    ChunkHeader, ChunkType, Hello, MessageType, opening_chunk, sequence_number_after,
};
use ua_types::{NodeId, Text};

/// The longest body of a message, in bytes.
const BODY_LIMIT: usize = 1_048_576;

/// The sizes that a Hello names, in bytes.
const SIZE: u32 = 65536;

/// What a client counts and was given.
#[derive(Clone, Copy, Debug)]
pub struct Client {
    /// The connection's key.
    pub key: [u8; 32],
    /// The number of the secure channel, 0 before one was asked for.
    pub channel_id: u32,
    /// The number of the newest token, 0 before one was asked for.
    pub token_id: u32,
    /// The sequence number of the next chunk.
    pub sequence_number: u32,
    /// The id of the next request, and its handle.
    pub request_id: u32,
}

/// A client that has sent nothing yet.
pub(crate) fn new_client(key: [u8; 32]) -> Client
    ensures { result ≡ new_client key }
{
    Client {
        key,
        channel_id: 0,
        token_id: 0,
        sequence_number: 1,
        request_id: 1,
    }
}

// The body, unless it is too long.
fn limited(body: Vec<u8>) -> Result<Vec<u8>, Cause>
    ensures given { GivesAs Memory (λ b. b.items) result (limited body.items) }
    ensures short { IfOk result (λ b. length b.items ≤ body_limit) }
{
    if body.len() > BODY_LIMIT {
        return Err(Cause::Limit);
    }
    Ok(body)
}

fn header_of(client: &Client) -> ChunkHeader
    ensures { result ≡ header_of_spec client.now }
{
    ChunkHeader {
        channel_id: client.channel_id,
        token_id: client.token_id,
        sequence_number: client.sequence_number,
        request_id: client.request_id,
    }
}

// After a request, whose next chunk would have this sequence number.
fn after_request(client: &Client, sequence_number: u32) -> Client
    ensures { result ≡ after_request client.now sequence_number }
{
    let mut after = *client;
    after.sequence_number = sequence_number;
    after.request_id = sequence_number_after(client.request_id);
    after
}

/// A Hello.
#[tactic(auto, using(crate::proofs::HappeningLemmas::alone), unfolding(crate::specs::Sendings::hello_of))]
pub(crate) fn hello(alloc: Global, client: &Client, url: Text) -> Result<(Vec<u8>, Client), Cause>
    ensures given { GivesAs Memory (λ s. (s.0.items, s.1)) result (hello_of client.now url) }
    ensures read { OnOk result (hello_reading (hello_encoding (hello_said url).0) ≡ Ok (hello_said url)) }
{
    let hello = Hello {
        protocol_version: 0,
        receive_size: SIZE,
        send_size: SIZE,
        max_message_size: 0,
        max_chunk_count: 0,
        endpoint_url: url,
    };
    let mut body = Vec::new(alloc);
    hello.encode(&mut body)?;
    let body = limited(body)?;
    let mut out = Vec::new(alloc);
    put_frame(
        &mut out,
        MessageType::Hello,
        ChunkType::Final,
        body.as_slice(),
    )?;
    Ok((out, *client))
}

fn named_channel(client: &Client, request: ChannelRequest) -> u32
    ensures { result ≡ named_channel client.now request }
{
    match request {
        ChannelRequest::Issue => 0,
        ChannelRequest::Renew => client.channel_id,
    }
}

// The client with its new token: the first of a new channel, or the next one of the channel that it has.
fn opened(number: u32, request: ChannelRequest, client: &Client) -> Client
    ensures { result ≡ opened_spec number request client.now }
{
    let mut opened = *client;
    match request {
        ChannelRequest::Issue => {
            opened.channel_id = number;
            opened.token_id = 1;
        }
        ChannelRequest::Renew => opened.token_id = sequence_number_after(client.token_id),
    }
    opened
}

/// A request for a channel, which has this number where it is new, or for a new token.
#[tactic(auto, unfolding(crate::specs::Sendings::opening_of))]
pub(crate) fn opening(
    alloc: Global,
    client: &Client,
    number: u32,
    request: ChannelRequest,
) -> Result<(Vec<u8>, Client), Cause>
    ensures given { GivesAs Memory (λ s. (s.0.items, s.1)) result (opening_of client.now number request) }
    ensures read { OnOk result (IsOpeningBody (null_header client.now.request_id) request (opening_body (null_header client.now.request_id) request)) }
{
    let header = request_header(NodeId::null(), client.request_id);
    let body = limited(opening_body(alloc, header, request)?)?;
    let channel_id = named_channel(client, request);
    let frame = opening_chunk(
        alloc,
        channel_id,
        client.sequence_number,
        client.request_id,
        body.as_slice(),
    )?;
    let mut out = Vec::new(alloc);
    out.extend_from_slice(frame.as_slice())?;
    let after = after_request(client, sequence_number_after(client.sequence_number));
    Ok((out, opened(number, request, &after)))
}

/// The end of a channel.
#[tactic(auto, using(ua_transport::proofs::HeaderLemmas::encoding_length), unfolding(crate::specs::Sendings::closing_of))]
pub(crate) fn closing(alloc: Global, client: &Client) -> Result<(Vec<u8>, Client), Cause>
    ensures given { GivesAs Memory (λ s. (s.0.items, s.1)) result (closing_of client.now) }
    ensures read { OnOk result (IsClosingBody (null_header client.now.request_id) (closing_body (null_header client.now.request_id))) }
{
    let header = request_header(NodeId::null(), client.request_id);
    let body = limited(closing_body(alloc, header)?)?;
    let mut inside = Vec::new(alloc);
    header_of(client).encode(&mut inside)?;
    inside.extend_from_slice(body.as_slice())?;
    let mut out = Vec::new(alloc);
    put_frame(
        &mut out,
        MessageType::CloseSecureChannel,
        ChunkType::Final,
        inside.as_slice(),
    )?;
    Ok((
        out,
        after_request(client, sequence_number_after(client.sequence_number)),
    ))
}

fn room_of(chunk: u64) -> usize
    ensures value { result ≡ room_of_spec chunk }
    ensures some { 0 < result }
    ensures small { result ≤ body_limit }
{
    if chunk == 0 || chunk > BODY_LIMIT as u64 {
        return BODY_LIMIT;
    }
    chunk as usize
}

/// A request with this body, in chunks of so many bytes of it, that is given up or not.
#[tactic(auto, unfolding(crate::specs::Sendings::service_of))]
pub(crate) fn service(
    alloc: Global,
    aborted: bool,
    chunk: u64,
    client: &Client,
    body: Vec<u8>,
) -> Result<(Vec<u8>, Client), Cause>
    ensures { GivesAs Memory (λ s. (s.0.items, s.1)) result (service_of aborted chunk client.now body.items) }
{
    let body = limited(body)?;
    let header = header_of(client);
    let mut out = Vec::new(alloc);
    let next = put_request(
        alloc,
        &mut out,
        aborted,
        &header,
        room_of(chunk),
        body.as_slice(),
    )?;
    Ok((out, after_request(client, next)))
}

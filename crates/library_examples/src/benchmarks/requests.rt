//! Requests to a whole server, handed in as the bytes of a connection.

use super::elapsed;
use bytes::Bytes;
use node_loader::load;
use server_core::{Event, Out, Server, Step};
use std::alloc::{AllocError, Global};
use std::io::{self, ErrorKind, Write};
use std::time::Instant;
use ua_space::Space;
use ua_types::Config;

/// A variable that is read and written.
pub(crate) const NODES: &str = "version = 1

[[node]]
id = \"ns=1;i=1\"
class = \"Variable\"
name = \"Count\"
parent = \"i=85\"
type = \"UInt16\"
value = 0
access = 3
";

// Hello of protocol version 0, with buffers of 65536 bytes and no limits; OpenSecureChannel of the mode
// None for an hour, as the request 1.
const HELLO: &[u8] =
    b"HELF\x38\0\0\0\0\0\0\0\0\0\x01\0\0\0\x01\0\0\0\0\0\0\0\0\0\x18\0\0\0opc.tcp://localhost:4840";

const OPEN: &[u8] =
    b"OPNF\x84\0\0\0\0\0\0\0\x2f\0\0\0http://opcfoundation.org/UA/SecurityPolicy#None\xff\xff\xff\xff\xff\xff\xff\xff\x01\0\0\0\x01\0\0\0\x01\0\xbe\x01\0\0\0\0\0\0\0\0\0\0\x01\0\0\0\0\0\0\0\xff\xff\xff\xff\0\0\0\0\0\0\0\0\0\0\0\0\0\0\0\x01\0\0\0\xff\xff\xff\xff\x80\xee\x36\0";

// The type ids of CreateSession, ActivateSession, Read and Write.
const CREATE: [u8; 4] = [0x01, 0x00, 0xcd, 0x01];

const ACTIVATE: [u8; 4] = [0x01, 0x00, 0xd3, 0x01];

pub(crate) const READ: [u8; 4] = [0x01, 0x00, 0x77, 0x02];

pub(crate) const WRITE: [u8; 4] = [0x01, 0x00, 0xa1, 0x02];

// No token, and that of the first session on a connection with a key of zeros.
const NO_TOKEN: &[u8] = b"\0\0";

pub(crate) const TOKEN: &[u8] = b"\x05\0\0\x14\0\0\0\0\0\0\0\0\0\0\0\0\0\0\0\0\0\0\0\x01\0\0\0";

// What a request's header has behind the token.
const HEADER: &[u8] = b"\0\0\0\0\0\0\0\0\x07\0\0\0\0\0\0\0\xff\xff\xff\xff\0\0\0\0\0\0\0";

// The fields of CreateSession and ActivateSession, with nothing said.
const NO_CLIENT: &[u8] =
    b"\xff\xff\xff\xff\xff\xff\xff\xff\0\x01\0\0\0\xff\xff\xff\xff\xff\xff\xff\xff\xff\xff\xff\xff\xff\xff\xff\xff\xff\xff\xff\xff\xff\xff\xff\xff\xff\xff\xff\xff\xff\xff\xff\xff\0\0\0\0\0\0\0\0\0\0\0\0";

const NO_USER: &[u8] =
    b"\xff\xff\xff\xff\xff\xff\xff\xff\xff\xff\xff\xff\xff\xff\xff\xff\0\0\0\xff\xff\xff\xff\xff\xff\xff\xff";

// A Read without times, up to its list; the variable's value, to be read; and the same, to be written with the number 258.
pub(crate) const NO_TIMES: &[u8] = b"\0\0\0\0\0\0\0\0\x03\0\0\0";

pub(crate) const VALUE: &[u8] = b"\x01\x01\x01\0\x0d\0\0\0\xff\xff\xff\xff\0\0\xff\xff\xff\xff";

pub(crate) const WRITTEN: &[u8] = b"\x01\x01\x01\0\x0d\0\0\0\xff\xff\xff\xff\x01\x05\x02\x01";

// The same with the number 1027.
pub(crate) const ANOTHER: &[u8] = b"\x01\x01\x01\0\x0d\0\0\0\xff\xff\xff\xff\x01\x05\x03\x04";

pub(crate) fn failed() -> io::Error {
    io::Error::from(ErrorKind::Other)
}

pub(crate) fn joined(alloc: Global, parts: &[&[u8]]) -> Result<Vec<u8>, AllocError> {
    let mut out = Vec::new(alloc);
    for part in parts {
        out.extend_from_slice(part)?;
    }
    Ok(out)
}

/// Tells the server what happens.
pub(crate) fn tell(server: &mut Server, event: &Event) -> io::Result<Step> {
    match server.step(event) {
        Ok(step) => Ok(step),
        Err(_) => Err(failed()),
    }
}

// Hands bytes of a connection to the server.
fn step(server: &mut Server, conn: u64, bytes: Vec<u8>) -> io::Result<Step> {
    let bytes = Bytes::from_vec(bytes)?;
    tell(server, &Event::Bytes { conn, bytes })
}

/// How many bytes a step sends, where it closes no connection.
pub(crate) fn sent_at(step: &Step) -> io::Result<usize> {
    let mut sent = 0usize;
    for out in step.outs.as_slice() {
        match out {
            Out::Send { conn: _, bytes } => sent = sent.saturating_add(bytes.len()),
            Out::Close { conn: _ } => return Err(failed()),
        }
    }
    Ok(sent)
}

/// Hands bytes of the first connection to the server, and says how many it sends.
pub(crate) fn hand_in(server: &mut Server, bytes: Vec<u8>) -> io::Result<usize> {
    hand_in_on(server, 1, bytes)
}

/// Hands bytes of a connection to the server, and says how many it sends.
pub(crate) fn hand_in_on(server: &mut Server, conn: u64, bytes: Vec<u8>) -> io::Result<usize> {
    let step = step(server, conn, bytes)?;
    sent_at(&step)
}

// Hands bytes to the server, and writes the bodies of what it sends.
fn write_answers(rt: &HostRuntime, server: &mut Server, bytes: Vec<u8>) -> io::Result<()> {
    let alloc = rt.alloc();
    let step = step(server, 1, bytes)?;
    let mut output = rt.stdout();
    for out in step.outs.as_slice() {
        match out {
            Out::Send { conn: _, bytes } => {
                let body = bytes.as_slice().get(24..).unwrap_or(b"".as_slice());
                let digits = hex::encode(alloc, body)?;
                writeln!(output, "{digits}")?;
            }
            Out::Close { conn: _ } => return Err(failed()),
        }
    }
    Ok(())
}

/// A request in one chunk of the first channel.
pub(crate) fn request(
    alloc: Global,
    number: u32,
    type_id: &[u8; 4],
    token: &[u8],
    fields: &[u8],
) -> Result<Vec<u8>, AllocError> {
    request_on(alloc, 1, number, type_id, token, fields)
}

/// A request in one chunk of a channel.
pub(crate) fn request_on(
    alloc: Global,
    channel: u32,
    number: u32,
    type_id: &[u8; 4],
    token: &[u8],
    fields: &[u8],
) -> Result<Vec<u8>, AllocError> {
    let rest = token.len().saturating_add(fields.len());
    let size = u32::try_from(rest).unwrap_or(0).saturating_add(55);
    let mut out = Vec::new(alloc);
    out.extend_from_slice(b"MSGF".as_slice())?;
    out.extend_from_slice(size.to_le_bytes().as_slice())?;
    out.extend_from_slice(channel.to_le_bytes().as_slice())?;
    out.extend_from_slice(b"\x01\0\0\0".as_slice())?;
    out.extend_from_slice(number.to_le_bytes().as_slice())?;
    out.extend_from_slice(number.to_le_bytes().as_slice())?;
    out.extend_from_slice(type_id.as_slice())?;
    out.extend_from_slice(token)?;
    out.extend_from_slice(HEADER)?;
    out.extend_from_slice(fields)?;
    Ok(out)
}

/// The configuration and the address space of a node file's text.
pub(crate) fn plant(alloc: Global, text: &str) -> io::Result<(Config, Space)> {
    let Ok(loaded) = load(alloc, text) else {
        return Err(failed());
    };
    let nodes = loaded.nodes.into_vec();
    let triples = loaded.triples.into_vec();
    let config = loaded.config;
    match Space::build(alloc, &config, nodes, triples) {
        Ok(space) => Ok((config, space)),
        Err(_) => Err(failed()),
    }
}

/// The server of a node file's text.
pub(crate) fn server_of(alloc: Global, text: &str) -> io::Result<Server> {
    let (config, space) = plant(alloc, text)?;
    Ok(Server::new(alloc, config, space)?)
}

/// Opens the first connection with its channel, and a session on it, by two requests.
pub(crate) fn greet(alloc: Global, server: &mut Server) -> io::Result<()> {
    greet_on(alloc, server, 1, TOKEN)?;
    Ok(())
}

/// Opens the connection with this number, the channel with the same number, and a session on it, which gets this token, by
/// two requests. Says how many bytes the server sends.
pub(crate) fn greet_on(
    alloc: Global,
    server: &mut Server,
    number: u32,
    token: &[u8],
) -> io::Result<usize> {
    let conn = u64::from(number);
    let opened = Event::Opened { conn, key: [0; 32] };
    tell(server, &opened)?;
    let opening = joined(alloc, &[HELLO, OPEN])?;
    let acknowledged = hand_in_on(server, conn, opening)?;
    let create = request_on(alloc, number, 2, &CREATE, NO_TOKEN, NO_CLIENT)?;
    let created = hand_in_on(server, conn, create)?;
    let activate = request_on(alloc, number, 3, &ACTIVATE, token, NO_USER)?;
    let activated = hand_in_on(server, conn, activate)?;
    Ok(
        acknowledged
            .saturating_add(created)
            .saturating_add(activated),
    )
}

/// A request, and what it is called.
#[derive(Clone, Copy)]
pub(crate) struct Asked<'a> {
    pub(crate) name: &'a str,
    pub(crate) type_id: &'a [u8; 4],
    pub(crate) fields: &'a [u8],
}

/// Hands in a request so many times, and tells how many are answered in a second, and how long an answer is.
pub(crate) fn time_requests(
    rt: &HostRuntime,
    server: &mut Server,
    asked: Asked<'_>,
    first: u32,
    rounds: u32,
) -> io::Result<()> {
    let Asked {
        name,
        type_id,
        fields,
    } = asked;
    let alloc = rt.alloc();
    let start = Instant::now(rt);
    let mut sent = 0;
    for round in 0..rounds {
        let number = first.saturating_add(round);
        sent = hand_in(server, request(alloc, number, type_id, TOKEN, fields)?)?;
    }
    let each_second = u128::from(rounds) * 1_000_000_000 / elapsed(rt, start).max(1);
    let mut errors = rt.stderr();
    let _ = writeln!(errors, "{name}: {each_second} a second");
    let mut out = rt.stdout();
    writeln!(out, "{name}: {rounds}, each answered in {sent} bytes")
}

// A request's fields: what stands before its list, and the list of so many of the same.
fn listed(alloc: Global, before: &[u8], entry: &[u8], many: u32) -> Result<Vec<u8>, AllocError> {
    let mut fields = Vec::new(alloc);
    fields.extend_from_slice(before)?;
    fields.extend_from_slice(many.to_le_bytes().as_slice())?;
    for _ in 0..many {
        fields.extend_from_slice(entry)?;
    }
    Ok(fields)
}

// Hands in requests for one and for 1,000 of an entry, behind these fields, the first under this number, and gives the number of the
// next one.
fn time_both(
    rt: &HostRuntime,
    server: &mut Server,
    (before, entry): (&[u8], Asked<'_>),
    first: u32,
    rounds: u32,
) -> io::Result<u32> {
    let alloc = rt.alloc();
    let Asked {
        name,
        type_id,
        fields,
    } = entry;
    let one = listed(alloc, before, fields, 1)?;
    let of_one = format!(in alloc; "{name} of one value")?;
    let asked = Asked {
        name: of_one.as_str(),
        type_id,
        fields: one.as_slice(),
    };
    time_requests(rt, server, asked, first, rounds)?;
    let many = listed(alloc, before, fields, 1000)?;
    let of_many = format!(in alloc; "{name} of 1000 values")?;
    let next = first.saturating_add(rounds);
    let asked = Asked {
        name: of_many.as_str(),
        type_id,
        fields: many.as_slice(),
    };
    time_requests(rt, server, asked, next, rounds)?;
    Ok(next.saturating_add(rounds))
}

fn time_all(rt: &HostRuntime, server: &mut Server, rounds: u32) -> io::Result<()> {
    greet(rt.alloc(), server)?;
    let reads = Asked {
        name: "reads",
        type_id: &READ,
        fields: VALUE,
    };
    let writes = Asked {
        name: "writes",
        type_id: &WRITE,
        fields: WRITTEN,
    };
    let next = time_both(rt, server, (NO_TIMES, reads), 4, rounds)?;
    let next = time_both(rt, server, (b"".as_slice(), writes), next, rounds)?;
    cut_short(rt, server, next)
}

// A Write of 1,000 values of which the last lacks its last byte is answered by a fault, and writes none: then the value is read.
fn cut_short(rt: &HostRuntime, server: &mut Server, number: u32) -> io::Result<()> {
    let alloc = rt.alloc();
    let mut values = listed(alloc, b"".as_slice(), ANOTHER, 1000)?;
    values.pop();
    write_answers(
        rt,
        server,
        request(alloc, number, &WRITE, TOKEN, values.as_slice())?,
    )?;
    let value = listed(alloc, NO_TIMES, VALUE, 1)?;
    let next = number.saturating_add(1);
    write_answers(
        rt,
        server,
        request(alloc, next, &READ, TOKEN, value.as_slice())?,
    )
}

/// Reads one value and 1,000 values, and writes as many, each so many times; and then writes 1,000 that are cut short.
pub(crate) fn run(rt: &HostRuntime, rounds: u32) -> io::Result<()> {
    let mut server = server_of(rt.alloc(), NODES)?;
    time_all(rt, &mut server, rounds.min(1_000_000_000))
}

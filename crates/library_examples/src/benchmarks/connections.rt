//! Clients that come, are served and go, beside very many that stay.

use super::elapsed;
use super::requests::{NO_TIMES, READ, greet_on, hand_in_on, joined, request_on, server_of, tell};
use server_core::{Event, Server};
use std::alloc::{AllocError, Global};
use std::io::{self, Write};
use std::time::Instant;

// Room for 100,000 connections and sessions.
const NODES: &str = "version = 2

[server]
connections = 100000
sessions = 100000
";

// The clients that come and go, one after the other.
const GUESTS: u32 = 1000;

// The type id of CloseSession, and its fields: the subscriptions go too.
const CLOSE: [u8; 4] = [0x01, 0x00, 0xd9, 0x01];

const WITH_SUBSCRIPTIONS: &[u8] = b"\x01";

// A Read of one value: that of the variable State.
const STATE: &[u8] = b"\x01\0\0\0\x01\0\xd3\x08\x0d\0\0\0\xff\xff\xff\xff\0\0\xff\xff\xff\xff";

// What precedes a session's number in its token, where its connection has a key of zeros.
const NO_KEY: &[u8] = b"\x05\0\0\x14\0\0\0\0\0\0\0\0\0\0\0\0\0\0\0\0\0\0\0";

fn token(alloc: Global, number: u32) -> Result<Vec<u8>, AllocError> {
    joined(alloc, &[NO_KEY, number.to_le_bytes().as_slice()])
}

// The clients up to this number come, and stay, each with a connection, a channel and a session of its own.
fn fill(alloc: Global, server: &mut Server, stay: u32) -> io::Result<()> {
    for before in 0..stay {
        let number = before.saturating_add(1);
        let token = token(alloc, number)?;
        greet_on(alloc, server, number, token.as_slice())?;
    }
    Ok(())
}

// A client comes, reads a value, closes its session and goes. Says how many bytes the server sends.
fn visit(alloc: Global, server: &mut Server, number: u32) -> io::Result<usize> {
    let token = token(alloc, number)?;
    let token = token.as_slice();
    let conn = u64::from(number);
    let greeted = greet_on(alloc, server, number, token)?;
    let fields = joined(alloc, &[NO_TIMES, STATE])?;
    let read = request_on(alloc, number, 4, &READ, token, fields.as_slice())?;
    let answered = hand_in_on(server, conn, read)?;
    let close = request_on(alloc, number, 5, &CLOSE, token, WITH_SUBSCRIPTIONS)?;
    let closed = hand_in_on(server, conn, close)?;
    tell(server, &Event::Gone { conn })?;
    Ok(greeted.saturating_add(answered).saturating_add(closed))
}

// The clients behind this number come, are served and go. Says how many bytes the last of them is sent.
fn visit_all(alloc: Global, server: &mut Server, stay: u32) -> io::Result<usize> {
    let mut sent = 0;
    for guest in 0..GUESTS {
        let number = stay.saturating_add(guest).saturating_add(1);
        sent = visit(alloc, server, number)?;
    }
    Ok(sent)
}

// The clients that stay come, and then those that come and go, and it tells how long each of these takes.
fn time_all(rt: &HostRuntime, server: &mut Server, stay: u32) -> io::Result<()> {
    let alloc = rt.alloc();
    fill(alloc, server, stay)?;
    let start = Instant::now(rt);
    let sent = visit_all(alloc, server, stay)?;
    let each = elapsed(rt, start) / u128::from(GUESTS);
    let mut errors = rt.stderr();
    let _ = writeln!(errors, "each client beside {stay}: {each} ns");
    let mut out = rt.stdout();
    writeln!(
        out,
        "{GUESTS} clients beside {stay}, each answered in {sent} bytes"
    )
}

/// Lets clients come, be served and go beside so many that stay, at most 99,999, and tells how long each takes.
pub(crate) fn run(rt: &HostRuntime, stay: u32) -> io::Result<()> {
    let mut server = server_of(rt.alloc(), NODES)?;
    time_all(rt, &mut server, stay.min(99_999))
}

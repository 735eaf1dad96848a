//! Writes of a variable whose history is kept, and reading the history by pages.

use super::elapsed;
use super::requests::{TOKEN, greet, hand_in, request, server_of};
use server_core::Server;
use std::alloc::{AllocError, Global};
use std::io::{self, Write};
use std::time::Instant;

/// How many values are written, all of which are kept, and how many of them each request writes or reads.
const MANY: u32 = 100_000;

const EACH: u32 = 1000;

const NODES: &str = "version = 1

[server]
history = 100000

[[node]]
id = \"ns=1;i=1\"
class = \"Variable\"
name = \"Count\"
parent = \"i=85\"
type = \"UInt16\"
value = 0
access = 7
historizing = true
";

// The type ids of Write and HistoryRead.
const WRITE: [u8; 4] = [0x01, 0x00, 0xa1, 0x02];

const READ_HISTORY: [u8; 4] = [0x01, 0x00, 0x98, 0x02];

// The variable's value, to be written with the number 258 and a time of its source.
const VALUE: &[u8] = b"\x01\x01\x01\0\x0d\0\0\0\xff\xff\xff\xff\x05\x05\x02\x01";

// From the time 1 on, so many on a page as there may be, with the times of the source, of the variable.
const ALL: &[u8] =
    b"\x01\0\x89\x02\x01\x16\0\0\0\0\x01\0\0\0\0\0\0\0\0\0\0\0\0\0\0\0\xe8\x03\0\0\0\0\0\0\0\0\x01\0\0\0\x01\x01\x01\0\xff\xff\xff\xff\0\0\xff\xff\xff\xff";

// No point, and the length of one.
const NO_POINT: &[u8] = b"\xff\xff\xff\xff";

const POINT: &[u8] = b"\x08\0\0\0";

// Many values, at the times after this one.
fn values(alloc: Global, after: u32) -> Result<Vec<u8>, AllocError> {
    let mut out = Vec::new(alloc);
    out.extend_from_slice(EACH.to_le_bytes().as_slice())?;
    for place in 0..EACH {
        out.extend_from_slice(VALUE)?;
        let time = u64::from(after.saturating_add(place).saturating_add(1));
        out.extend_from_slice(time.to_le_bytes().as_slice())?;
    }
    Ok(out)
}

// Writes them all, each later than the ones before it.
fn time_writes(rt: &HostRuntime, server: &mut Server) -> io::Result<()> {
    let alloc = rt.alloc();
    let start = Instant::now(rt);
    let mut sent = 0usize;
    let requests = MANY / EACH;
    for round in 0..requests {
        let fields = values(alloc, round.saturating_mul(EACH))?;
        let number = round.saturating_add(4);
        let asked = request(alloc, number, &WRITE, TOKEN, fields.as_slice())?;
        sent = sent.saturating_add(hand_in(server, asked)?);
    }
    let each = elapsed(rt, start) / u128::from(MANY);
    let mut errors = rt.stderr();
    let _ = writeln!(errors, "writes that are kept: {each} ns each");
    let mut out = rt.stdout();
    writeln!(
        out,
        "writes that are kept: {MANY} in {requests} requests, answered in {sent} bytes"
    )
}

// Reads them all, page by page; the points are counted from 1.
fn time_pages(rt: &HostRuntime, server: &mut Server, first: u32) -> io::Result<()> {
    let alloc = rt.alloc();
    let start = Instant::now(rt);
    let mut sent = 0usize;
    let pages = MANY / EACH;
    for point in 0..pages {
        let mut fields = Vec::new(alloc);
        fields.extend_from_slice(ALL)?;
        if point == 0 {
            fields.extend_from_slice(NO_POINT)?;
        } else {
            fields.extend_from_slice(POINT)?;
            fields.extend_from_slice(u64::from(point).to_le_bytes().as_slice())?;
        }
        let number = first.saturating_add(point);
        let asked = request(alloc, number, &READ_HISTORY, TOKEN, fields.as_slice())?;
        sent = sent.saturating_add(hand_in(server, asked)?);
    }
    let each = elapsed(rt, start) / u128::from(pages);
    let mut errors = rt.stderr();
    let _ = writeln!(
        errors,
        "history of {MANY} values: {each} ns each page of {EACH}"
    );
    let mut out = rt.stdout();
    writeln!(
        out,
        "history of {MANY} values: {pages} pages in {sent} bytes"
    )
}

fn time_all(rt: &HostRuntime, server: &mut Server) -> io::Result<()> {
    greet(rt.alloc(), server)?;
    time_writes(rt, server)?;
    time_pages(rt, server, MANY / EACH + 4)
}

/// Writes the values of a variable whose history is kept, and reads its history by pages, once.
pub(crate) fn run(rt: &HostRuntime) -> io::Result<()> {
    let mut server = server_of(rt.alloc(), NODES)?;
    time_all(rt, &mut server)
}

//! Messages of 1,000 notifications, and the same messages again.

use super::elapsed;
use super::requests::{
    ANOTHER, NODES, TOKEN, VALUE, WRITE, WRITTEN, greet, hand_in, joined, request, sent_at,
    server_of, tell,
};
use server_core::{Event, Server};
use std::alloc::{AllocError, Global};
use std::io::{self, Write};
use std::time::Instant;
use ua_types::Moment;

// How many items watch the variable: each of them tells of each change.
const MANY: u32 = 1000;

// The type ids of CreateSubscription, CreateMonitoredItems, Publish and Republish.
const CREATE_SUBSCRIPTION: [u8; 4] = [0x01, 0x00, 0x13, 0x03];

const CREATE_ITEMS: [u8; 4] = [0x01, 0x00, 0xef, 0x02];

const PUBLISH: [u8; 4] = [0x01, 0x00, 0x3a, 0x03];

const REPUBLISH: [u8; 4] = [0x01, 0x00, 0x40, 0x03];

// A second between its timers, which is what the server gives; a lifetime of 30 of them, a keep-alive at the tenth, no bound of its
// own on the notifications of a message, publishing on, priority 0.
const SUBSCRIPTION: &[u8] = b"\0\0\0\0\0\x40\x8f\x40\x1e\0\0\0\x0a\0\0\0\0\0\0\0\x01\0";

// The time between two timers, in steps of 100 ns.
const TIMER: i64 = 10_000_000;

// Items of the subscription 1, without times; and what stands behind the variable in each of them: it reports, by the
// client's handle 7, and without a filter one value waits.
const ITEMS: &[u8] = b"\x01\0\0\0\x03\0\0\0";

const REPORTING: &[u8] = b"\x02\0\0\0\x07\0\0\0\0\0\0\0\0\0\0\0\0\0\0\x01\0\0\0\x01";

// Nothing is acknowledged; and one message of the subscription 1 is.
const NOTHING: &[u8] = b"\0\0\0\0";

const ONE: &[u8] = b"\x01\0\0\0\x01\0\0\0";

// The subscription 1.
const FIRST: &[u8] = b"\x01\0\0\0";

// The fields of CreateMonitoredItems for them all.
fn items(alloc: Global) -> Result<Vec<u8>, AllocError> {
    let mut out = joined(alloc, &[ITEMS, MANY.to_le_bytes().as_slice()])?;
    for _ in 0..MANY {
        out.extend_from_slice(VALUE)?;
        out.extend_from_slice(REPORTING)?;
    }
    Ok(out)
}

// A Write of the variable: by turns the one number and the other.
fn written(alloc: Global, round: u32) -> Result<Vec<u8>, AllocError> {
    let value = if round % 2 == 0 { WRITTEN } else { ANOTHER };
    joined(alloc, &[b"\x01\0\0\0".as_slice(), value])
}

// Hands in a request of the session.
fn ask(
    server: &mut Server,
    alloc: Global,
    number: u32,
    type_id: &[u8; 4],
    fields: &[u8],
) -> io::Result<usize> {
    let asked = request(alloc, number, type_id, TOKEN, fields)?;
    hand_in(server, asked)
}

// The timer of the subscription comes, and the message with all that waits is made. Says how many bytes are sent.
fn fire(server: &mut Server, timer: u32) -> io::Result<usize> {
    let now = Moment(i64::from(timer).saturating_mul(TIMER));
    let step = tell(server, &Event::Tick { now })?;
    sent_at(&step)
}

// What the message with a number, and the same again, took together with those before it, and how long each is.
#[derive(Drop)]
struct Told {
    made: u128,
    again: u128,
    sent: usize,
    resent: usize,
}

// A value is written, a Publish request waits, which acknowledges the message before, and the timer comes; then the message
// is asked for again.
fn time_one(rt: &HostRuntime, server: &mut Server, round: u32, told: &mut Told) -> io::Result<()> {
    let alloc = rt.alloc();
    let first = round.saturating_mul(3).saturating_add(7);
    let value = written(alloc, round)?;
    ask(server, alloc, first, &WRITE, value.as_slice())?;
    let before = round.saturating_add(1).to_le_bytes();
    let acknowledged = joined(alloc, &[ONE, before.as_slice()])?;
    ask(
        server,
        alloc,
        first.saturating_add(1),
        &PUBLISH,
        acknowledged.as_slice(),
    )?;
    let start = Instant::now(rt);
    told.sent = fire(server, round.saturating_add(2))?;
    told.made = told.made.saturating_add(elapsed(rt, start));
    let this = round.saturating_add(2).to_le_bytes();
    let again = joined(alloc, &[FIRST, this.as_slice()])?;
    let asked = request(
        alloc,
        first.saturating_add(2),
        &REPUBLISH,
        TOKEN,
        again.as_slice(),
    )?;
    let start = Instant::now(rt);
    told.resent = hand_in(server, asked)?;
    told.again = told.again.saturating_add(elapsed(rt, start));
    Ok(())
}

// Has a new subscription tell of its items so many times.
fn tell_all(rt: &HostRuntime, server: &mut Server, rounds: u32) -> io::Result<Told> {
    let alloc = rt.alloc();
    greet(alloc, server)?;
    ask(server, alloc, 4, &CREATE_SUBSCRIPTION, SUBSCRIPTION)?;
    let items = items(alloc)?;
    ask(server, alloc, 5, &CREATE_ITEMS, items.as_slice())?;
    ask(server, alloc, 6, &PUBLISH, NOTHING)?;
    fire(server, 1)?;
    let mut told = Told {
        made: 0,
        again: 0,
        sent: 0,
        resent: 0,
    };
    for round in 0..rounds {
        time_one(rt, server, round, &mut told)?;
    }
    Ok(told)
}

// The time of each of so many rounds.
fn each(total: u128, rounds: u32) -> u128 {
    total / u128::from(rounds.max(1))
}

fn write_times(rt: &HostRuntime, told: &Told, rounds: u32) {
    let made = each(told.made, rounds);
    let again = each(told.again, rounds);
    let mut errors = rt.stderr();
    let _ = writeln!(
        errors,
        "a message of {MANY} notifications: {made} ns, and again: {again} ns"
    );
}

fn time_all(rt: &HostRuntime, server: &mut Server, rounds: u32) -> io::Result<()> {
    let told = tell_all(rt, server, rounds)?;
    write_times(rt, &told, rounds);
    let mut out = rt.stdout();
    let sent = told.sent;
    let resent = told.resent;
    writeln!(
        out,
        "messages of {MANY} notifications: {rounds}, each answered in {sent} bytes, and again in {resent}"
    )
}

/// Has a subscription tell of 1,000 items so many times, each in one message, and asks for each message again.
pub(crate) fn run(rt: &HostRuntime, rounds: u32) -> io::Result<()> {
    let mut server = server_of(rt.alloc(), NODES)?;
    time_all(rt, &mut server, rounds.min(1_000_000_000))
}

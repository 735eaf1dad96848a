//! Lines `again OBJECT`: calls on an object, each of which is made again where memory ran out.
//!
//! None of the lines runs out of memory. But whoever refuses one growth after the other, and runs a line each time, has to see
//! the same lines printed, or none where a growth was refused outside of the calls: an object is as it was before a call that
//! ran out of memory, and the second call gives what the first would have given. Of `write` and `sample` the first values are
//! served then. What is out of memory for good says so of itself (`subscriptions`, `server`).

mod channel;
mod halting;
mod items;
mod nodes;

use std::alloc::Global;
use std::io;
use std::io::Write;
use std::rt::Files;
use ua_binary::{Cursor, TakeFault, Wire};
use ua_history::{History, Interval, KeptRuns, KeptValues};
use ua_session::{Created, Sessions};
use ua_types::{Config, Content, DataValue, Moment, NodeId, Refusal, Status, Variant};

// What is printed where a call that is made again runs out of memory again.
const TWICE: &[u8] = b"out of memory again\n";

// A Variant with the texts "a" and "bc".
const TEXTS: [u8; 16] = [0x8c, 2, 0, 0, 0, 1, 0, 0, 0, 0x61, 2, 0, 0, 0, 0x62, 0x63];

// A value that bytes begin with, and how many bytes are left.
fn write_value(alloc: Global, output: &mut Vec<u8>) -> io::Result<()> {
    let mut cursor = Cursor::new(&TEXTS);
    let taken = match Variant::take(alloc, &mut cursor) {
        Err(TakeFault::Memory) => Variant::take(alloc, &mut cursor),
        taken => taken,
    };
    let left = cursor.rest().len();
    match taken {
        Ok(value) => write!(output, "{value:?}, {left} left\n"),
        Err(fault) => write!(output, "{fault:?}, {left} left\n"),
    }
}

fn created(alloc: Global, sessions: &mut Sessions, conn: u64) -> Result<Created, Refusal> {
    let key = [0; 32];
    match sessions.create(alloc, conn, &key) {
        Err(Refusal::Memory) => sessions.create(alloc, conn, &key),
        created => created,
    }
}

// A session of a connection, with its token and its nonce.
fn write_session(
    alloc: Global,
    sessions: &mut Sessions,
    conn: u64,
    output: &mut Vec<u8>,
) -> io::Result<()> {
    match created(alloc, sessions, conn) {
        Ok(session) => {
            let nonce = hex::encode(alloc, session.nonce.as_slice())?;
            write!(output, "{} {nonce}\n", session.number)
        }
        Err(refusal) => write!(output, "{refusal:?}\n"),
    }
}

// Two sessions.
fn write_sessions(alloc: Global, output: &mut Vec<u8>) -> io::Result<()> {
    let mut sessions = Sessions::new(alloc, &Config::standard(alloc)?);
    write_session(alloc, &mut sessions, 1, output)?;
    write_session(alloc, &mut sessions, 2, output)
}

fn counted(number: u16, time: i64) -> DataValue {
    DataValue {
        value: Some(Variant::UInt16(Content::Scalar(number))),
        status: Status::GOOD,
        source_time: Some(Moment(time)),
        server_time: None,
    }
}

// Whether a value is kept, at the second time where memory ran out.
fn is_kept(alloc: Global, history: &mut History, number: u16, time: i64) -> bool {
    let node = NodeId::numeric(1, 11);
    history.keep(alloc, &node, counted(number, time)).is_ok()
        || history.keep(alloc, &node, counted(number, time)).is_ok()
}

// The history of a node that keeps three values, of which four were written, and one in place of another.
fn filled(alloc: Global, output: &mut Vec<u8>) -> io::Result<History> {
    let mut config = Config::standard(alloc)?;
    config.history = 3;
    let mut history = History::new(alloc, &config);
    for (number, time) in [(1, 100), (2, 200), (4, 400), (3, 300), (8, 300)] {
        if !is_kept(alloc, &mut history, number, time) {
            output.write_all(TWICE)?;
        }
    }
    Ok(history)
}

fn write_values(values: &KeptValues<'_>, output: &mut Vec<u8>) -> io::Result<()> {
    match values.runs() {
        KeptRuns::Rising(runs) => {
            for run in runs {
                for (time, value) in run.iter() {
                    write!(output, "{} {:?}\n", time, value.value)?;
                }
            }
        }
        KeptRuns::Falling(runs) => {
            for run in runs {
                for (time, value) in run.iter().rev() {
                    write!(output, "{} {:?}\n", time, value.value)?;
                }
            }
        }
    }
    Ok(())
}

fn write_history(alloc: Global, output: &mut Vec<u8>) -> io::Result<()> {
    let history = filled(alloc, output)?;
    let node = NodeId::numeric(1, 11);
    let cut = history.read(alloc, &node, Interval::new(Moment(0), Moment(0)), 9)?;
    write_values(&cut.values, output)
}

/// Writes what the calls give.
pub(crate) fn write_again<R: Files + AllocGlobal>(
    rt: &R,
    object: &str,
    output: &mut Vec<u8>,
) -> io::Result<()> {
    match object {
        "value" => write_value(rt.alloc(), output),
        "channel" => channel::write_channel(rt.alloc(), output),
        "sessions" => write_sessions(rt.alloc(), output),
        "history" => write_history(rt.alloc(), output),
        "nodes" => nodes::write_nodes(rt, output),
        "items" => items::write_items(rt, output),
        "scenario" => halting::write_scenario(rt, output),
        "subscriptions" => halting::write_subscriptions(rt.alloc(), output),
        "server" => halting::write_steps(rt, output),
        _ => output.write_all(b"no such object\n".as_slice()),
    }
}

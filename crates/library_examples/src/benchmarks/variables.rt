//! Reads of many variables: in the order of their ids, and in one without a pattern.

use super::requests::{Asked, NO_TIMES, READ, VALUE, greet, server_of, time_requests};
use server_core::Server;
use std::alloc::{AllocError, Global};
use std::io;

// So many variables, one fewer than a prime.
const VARIABLES: u32 = 996;

// How the next number follows from the one before, modulo that prime: 7 is one of its primitive roots, so its powers are all the
// numbers, once each, in an order without a pattern.
const ROOT: u32 = 7;

const PRIME: u32 = 997;

// A node file of them.
fn nodes(alloc: Global) -> Result<String, AllocError> {
    let mut text = String::new(alloc);
    text.push_str("version = 1\n")?;
    for number in 1..VARIABLES.saturating_add(1) {
        let node = format!(in alloc;
            "
[[node]]
id = \"ns=1;i={number}\"
class = \"Variable\"
name = \"Count{number}\"
parent = \"i=85\"
type = \"UInt16\"
value = 0
access = 3
"
        )?;
        text.push_str(node.as_str())?;
    }
    Ok(text)
}

// One of them, to be read: the id of four bytes, and then as of the one variable of the other benchmarks.
fn put_entry(out: &mut Vec<u8>, number: u32) -> Result<(), AllocError> {
    let [low, high, _, _] = number.to_le_bytes();
    out.extend_from_slice([1, 1, low, high].as_slice())?;
    out.extend_from_slice(VALUE.get(4..).unwrap_or(b"".as_slice()))
}

// What stands before the list of them all.
fn before(alloc: Global) -> Result<Vec<u8>, AllocError> {
    let mut out = Vec::new(alloc);
    out.extend_from_slice(NO_TIMES)?;
    out.extend_from_slice(VARIABLES.to_le_bytes().as_slice())?;
    Ok(out)
}

// The fields of a Read of them all, in the order of their ids.
fn in_order(alloc: Global) -> Result<Vec<u8>, AllocError> {
    let mut out = before(alloc)?;
    for number in 1..VARIABLES.saturating_add(1) {
        put_entry(&mut out, number)?;
    }
    Ok(out)
}

// The same, each once, in an order without a pattern.
fn scattered(alloc: Global) -> Result<Vec<u8>, AllocError> {
    let mut out = before(alloc)?;
    let mut number = 1u32;
    for _ in 0..VARIABLES {
        put_entry(&mut out, number)?;
        number = number.saturating_mul(ROOT) % PRIME;
    }
    Ok(out)
}

fn time_all(rt: &HostRuntime, server: &mut Server, rounds: u32) -> io::Result<()> {
    let alloc = rt.alloc();
    greet(alloc, server)?;
    let fields = in_order(alloc)?;
    let asked = Asked {
        name: "reads of 996 variables in order",
        type_id: &READ,
        fields: fields.as_slice(),
    };
    time_requests(rt, server, asked, 4, rounds)?;
    let fields = scattered(alloc)?;
    let asked = Asked {
        name: "reads of 996 variables out of order",
        type_id: &READ,
        fields: fields.as_slice(),
    };
    let next = rounds.saturating_add(4);
    time_requests(rt, server, asked, next, rounds)
}

/// Reads 996 variables, in the order of their ids and out of it, each so many times.
pub(crate) fn run(rt: &HostRuntime, rounds: u32) -> io::Result<()> {
    let text = nodes(rt.alloc())?;
    let mut server = server_of(rt.alloc(), text.as_str())?;
    time_all(rt, &mut server, rounds.min(1_000_000_000))
}

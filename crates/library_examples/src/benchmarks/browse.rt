//! Browsing a node of few references and one of many, in a large address space.

use super::elapsed;
use super::requests::{TOKEN, failed, greet, hand_in, joined, request};
use server_core::Server;
use std::alloc::{AllocError, Global};
use std::io::{self, Write};
use std::time::Instant;
use ua_space::{Node, NodeDetails, Part, Space, Triple};
use ua_types::{Config, Listed, LocalizedText, NodeId, QualifiedName, Text};

/// How many objects stand below the folder.
const MANY: u32 = 99_000;

// The type ids of Browse and BrowseNext.
const BROWSE: [u8; 4] = [0x01, 0x00, 0x0f, 0x02];

const NEXT: [u8; 4] = [0x01, 0x00, 0x15, 0x02];

// Browse of one node in no view, with as many references on a page as there may be.
const NO_VIEW: &[u8] = b"\0\0\0\0\0\0\0\0\0\0\0\0\0\0\0\0\0\0\x01\0\0\0";

// Forward, by hierarchical references and their subtypes, with their names.
const HIERARCHY: &[u8] = b"\0\0\0\0\0\x21\x01\0\0\0\0\x08\0\0\0";

// The folder of all objects; the first of them, below which three stand.
const FOLDER: &[u8] = b"\x01\x01\0\0";

const FIRST: &[u8] = b"\x01\x01\x01\0";

// One point to go on from, of 8 bytes.
const ONE_POINT: &[u8] = b"\0\x01\0\0\0\x08\0\0\0";

fn object(alloc: Global, number: u32) -> Result<Node, AllocError> {
    Ok(Node {
        id: NodeId::numeric(1, number),
        browse_name: QualifiedName {
            namespace: 1,
            name: Text::from_str(alloc, "Object")?,
        },
        display_name: LocalizedText {
            locale: Text::null(),
            text: Text::from_str(alloc, "Object")?,
        },
        description: LocalizedText {
            locale: Text::null(),
            text: Text::null(),
        },
        details: NodeDetails::Object,
        history: Listed::new(alloc),
    })
}

// A reference of the type Organizes.
fn organizes(source: u32, target: u32) -> Triple {
    Triple {
        source: NodeId::numeric(1, source),
        reference_type: NodeId::numeric(0, 35),
        target: NodeId::numeric(1, target),
        part: Part::File,
    }
}

// A folder with so many objects, the first of which has the next three below it.
fn plant(alloc: Global) -> io::Result<(Config, Space)> {
    let config = Config::standard(alloc)?;
    let mut nodes = Vec::new(alloc);
    let mut triples = Vec::new(alloc);
    nodes.push(object(alloc, 0)?)?;
    for number in 1..MANY.saturating_add(1) {
        nodes.push(object(alloc, number)?)?;
        triples.push(organizes(0, number))?;
    }
    for number in 2..5u32 {
        triples.push(organizes(1, number))?;
    }
    match Space::build(alloc, &config, nodes, triples) {
        Ok(space) => Ok((config, space)),
        Err(_) => Err(failed()),
    }
}

// The server of that folder.
fn server(alloc: Global) -> io::Result<Server> {
    let (config, space) = plant(alloc)?;
    Ok(Server::new(alloc, config, space)?)
}

// Browses the node of three references so many times.
fn time_few(rt: &HostRuntime, server: &mut Server, first: u32, rounds: u32) -> io::Result<()> {
    let alloc = rt.alloc();
    let fields = joined(alloc, &[NO_VIEW, FIRST, HIERARCHY])?;
    let start = Instant::now(rt);
    let mut sent = 0;
    for round in 0..rounds {
        let number = first.saturating_add(round);
        let asked = request(alloc, number, &BROWSE, TOKEN, fields.as_slice())?;
        sent = hand_in(server, asked)?;
    }
    let each = elapsed(rt, start) / u128::from(rounds).max(1);
    let mut errors = rt.stderr();
    let _ = writeln!(errors, "browse of 3 references: {each} ns each");
    let mut out = rt.stdout();
    writeln!(
        out,
        "browse of 3 references: {rounds}, each answered in {sent} bytes"
    )
}

// Browses the folder, page by page; the points are counted from 1.
fn time_many(rt: &HostRuntime, server: &mut Server, first: u32) -> io::Result<()> {
    let alloc = rt.alloc();
    let fields = joined(alloc, &[NO_VIEW, FOLDER, HIERARCHY])?;
    let start = Instant::now(rt);
    let asked = request(alloc, first, &BROWSE, TOKEN, fields.as_slice())?;
    let mut sent = hand_in(server, asked)?;
    let page = elapsed(rt, start);
    let start = Instant::now(rt);
    let pages = MANY / 1000;
    for point in 1..pages {
        let serial = u64::from(point).to_le_bytes();
        let fields = joined(alloc, &[ONE_POINT, serial.as_slice()])?;
        let number = first.saturating_add(point);
        let asked = request(alloc, number, &NEXT, TOKEN, fields.as_slice())?;
        sent = sent.saturating_add(hand_in(server, asked)?);
    }
    let each = elapsed(rt, start) / u128::from(pages.saturating_sub(1)).max(1);
    let mut errors = rt.stderr();
    let _ = writeln!(
        errors,
        "browse of {MANY} references: {page} ns the first page, {each} ns each of the others"
    );
    let mut out = rt.stdout();
    writeln!(
        out,
        "browse of {MANY} references: {pages} pages in {sent} bytes"
    )
}

fn time_all(rt: &HostRuntime, server: &mut Server, rounds: u32) -> io::Result<()> {
    greet(rt.alloc(), server)?;
    time_few(rt, server, 4, rounds)?;
    time_many(rt, server, rounds.saturating_add(4))
}

/// Browses a node of three references so many times, and one of very many by pages.
pub(crate) fn run(rt: &HostRuntime, rounds: u32) -> io::Result<()> {
    let mut server = server(rt.alloc())?;
    time_all(rt, &mut server, rounds.min(1_000_000_000))
}

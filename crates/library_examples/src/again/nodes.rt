//! A node file, its address space, and what is written to it.

use crate::benchmarks::failed;
use node_loader::{Cause, LoadFault, Loaded, load};
use std::alloc::Global;
use std::io::Write;
use std::rt::Files;
use std::{fs, io};
use ua_binary::Cursor;
use ua_read_write::write as write_values;
use ua_service_messages::WriteValueView;
use ua_space::{Node, NodeDetails, Space, SpaceFault};
use ua_types::{Moment, NodeId};
use ua_views::{ArrayView, View};

// Values to be written: 7 to Count, and 9 to Speed.
const VALUES: &[u8] =
    b"\x02\0\0\0\x01\x01\x0b\0\x0d\0\0\0\xff\xff\xff\xff\x01\x05\x07\0\x01\x01\x0c\0\x0d\0\0\0\xff\xff\xff\xff\x01\x06\x09\0\0\0";

const CLOCK: Moment = Moment(5);

fn loaded(alloc: Global, text: &str) -> Result<Loaded, LoadFault> {
    match load(alloc, text) {
        Err(
            LoadFault {
                cause: Cause::Memory,
                ..
            },
        ) => load(alloc, text),
        loaded => loaded,
    }
}

fn built(alloc: Global, text: &str) -> io::Result<Result<Space, SpaceFault>> {
    let Ok(loaded) = load(alloc, text) else {
        return Err(failed());
    };
    let nodes = loaded.nodes.into_vec();
    let triples = loaded.triples.into_vec();
    Ok(Space::build(alloc, &loaded.config, nodes, triples))
}

// Writes the values, and says whether there was memory for both.
fn write_both(alloc: Global, space: &mut Space) -> io::Result<bool> {
    match ArrayView::<WriteValueView<'_>>::view(&mut Cursor::new(VALUES)) {
        Ok(values) => Ok(write_values(alloc, space, CLOCK, values).is_ok()),
        Err(_) => Err(failed()),
    }
}

// Whether the variable with this number was written.
fn is_written(space: &Space, number: u32) -> bool {
    match space.node(&NodeId::numeric(1, number)) {
        Some(
            Node {
                details: NodeDetails::Variable(variable),
                ..
            },
        ) => variable.value.server_time == Some(CLOCK),
        _ => false,
    }
}

// Writes how many nodes and references a space has, and whether both values are written in the end, and the second at no time
// before the first.
fn write_space(alloc: Global, space: &mut Space, output: &mut Vec<u8>) -> io::Result<()> {
    let mut is_done = write_both(alloc, space)?;
    let is_in_order = is_written(space, 11) || !is_written(space, 12);
    if !is_done {
        is_done = write_both(alloc, space)?;
    }
    let is_so = is_in_order && is_done && is_written(space, 11) && is_written(space, 12);
    let nodes = space.node_count();
    let triples = space.triple_count();
    write!(
        output,
        "{nodes} nodes, {triples} references\nwritten in order: {is_so}\n"
    )
}

fn write_loaded(alloc: Global, text: &str, output: &mut Vec<u8>) -> io::Result<()> {
    match loaded(alloc, text) {
        Ok(loaded) => {
            let nodes = loaded.nodes.as_slice().len();
            let triples = loaded.triples.as_slice().len();
            write!(output, "{nodes} nodes, {triples} references\n")
        }
        Err(fault) => write!(output, "{fault}\n"),
    }
}

fn write_built(alloc: Global, text: &str, output: &mut Vec<u8>) -> io::Result<()> {
    let space = match built(alloc, text)? {
        Err(SpaceFault::Memory) => built(alloc, text)?,
        space => space,
    };
    match space {
        Ok(mut space) => write_space(alloc, &mut space, output),
        Err(fault) => write!(output, "{fault:?}\n"),
    }
}

/// Writes how many nodes and references a node file has, and its space with the base set, and whether two values are written to it.
pub(super) fn write_nodes<R: Files + AllocGlobal>(rt: &R, output: &mut Vec<u8>) -> io::Result<()> {
    let text = fs::read_to_string(rt, "sample.toml")?;
    write_loaded(rt.alloc(), text.as_str(), output)?;
    write_built(rt.alloc(), text.as_str(), output)
}

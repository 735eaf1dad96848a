//! Lists of 1,000 elements, written, read, and looked at in place.

use super::elapsed;
use std::alloc::{AllocError, Global};
use std::io::{self, Write};
use std::time::Instant;
use ua_binary::{Cursor, Wire};
use ua_messages::{ReadValueId, ReadValueIdView};
use ua_types::{
    Array, Content, DataValue, Double, Moment, NodeId, QualifiedName, Status, Text, Variant,
};
use ua_views::{ArrayView, DataValueView, TextView, View};

/// How many elements each list has.
const ELEMENTS: u32 = 1000;

// A double with both times, as a server answers.
fn data_value(number: u32) -> DataValue {
    DataValue {
        value: Some(Variant::Double(Content::Scalar(Double((number as u64).to_le_bytes())))),
        status: Status::GOOD,
        source_time: Some(Moment(number as i64)),
        server_time: Some(Moment(7)),
    }
}

// The value of a node with a number in a namespace of its own, all of it.
fn read_value_id(number: u32) -> ReadValueId {
    ReadValueId {
        node_id: NodeId::numeric(2, number),
        attribute_id: 13,
        index_range: Text::null(),
        data_encoding: QualifiedName {
            namespace: 0,
            name: Text::null(),
        },
    }
}

fn data_values(alloc: Global) -> Result<Vec<DataValue>, AllocError> {
    let mut list = Vec::new(alloc);
    for number in 0..ELEMENTS {
        list.push(data_value(number))?;
    }
    Ok(list)
}

fn read_value_ids(alloc: Global) -> Result<Vec<ReadValueId>, AllocError> {
    let mut list = Vec::new(alloc);
    for number in 0..ELEMENTS {
        list.push(read_value_id(number))?;
    }
    Ok(list)
}

fn texts(alloc: Global) -> Result<Vec<Text>, AllocError> {
    let mut list = Vec::new(alloc);
    for _ in 0..ELEMENTS {
        list.push(Text::from_str(alloc, "Line 4, pump 12")?)?;
    }
    Ok(list)
}

// The time of an element in the fastest round, in tenths of a nanosecond.
fn report(rt: &HostRuntime, name: &str, way: &str, fastest: u128) {
    let each = fastest / (ELEMENTS as u128 / 10);
    let mut errors = rt.stderr();
    let _ = writeln!(errors, "{name} {way}: {}.{} ns", each / 10, each % 10);
}

// Which list is looked at in place.
#[derive(Clone, Copy)]
enum Looked {
    DataValues,
    ReadValueIds,
    Texts,
}

// Looks at each element that is left, and says how many there are.
fn count<'a, V: View<'a>>(list: ArrayView<'a, V>) -> usize {
    let mut count = 0usize;
    for _ in list {
        count = count.saturating_add(1);
    }
    count
}

// Looks at a list in place: at all of it, and then at each element. Says how many there are.
fn look(looked: Looked, bytes: &[u8]) -> usize {
    let mut cursor = Cursor::new(bytes);
    match looked {
        Looked::DataValues => match ArrayView::<DataValueView<'_>>::view(&mut cursor) {
            Ok(list) => count(list),
            Err(_) => 0,
        },
        Looked::ReadValueIds => match ArrayView::<ReadValueIdView<'_>>::view(&mut cursor) {
            Ok(list) => count(list),
            Err(_) => 0,
        },
        Looked::Texts => match ArrayView::<TextView<'_>>::view(&mut cursor) {
            Ok(list) => count(list),
            Err(_) => 0,
        },
    }
}

// Looks at a list in place so many times, and tells how many elements it has.
fn time_views(
    rt: &HostRuntime,
    name: &str,
    looked: Looked,
    bytes: &[u8],
    rounds: u32,
) -> io::Result<()> {
    let mut fastest = u128::MAX;
    let mut count = 0;
    for _ in 0..rounds {
        let start = Instant::now(rt);
        count = look(looked, bytes);
        fastest = fastest.min(elapsed(rt, start));
    }
    report(rt, name, "viewed", fastest);
    let mut out = rt.stdout();
    writeln!(out, "{name}: {count} viewed")
}

// Writes and reads a list so many times, tells how many bytes and elements it has, and gives its bytes.
fn time_both_ways<T: Wire>(
    rt: &HostRuntime,
    name: &str,
    elements: Vec<T>,
    rounds: u32,
) -> io::Result<Vec<u8>> {
    let alloc = rt.alloc();
    let mut bytes = Vec::new(alloc);
    if elements.len() > ELEMENTS as usize {
        return Ok(bytes);
    }
    let list = Array::new(elements);
    let mut fastest = u128::MAX;
    for _ in 0..rounds {
        let start = Instant::now(rt);
        bytes.clear();
        list.put(&mut bytes)?;
        fastest = fastest.min(elapsed(rt, start));
    }
    report(rt, name, "written", fastest);
    let mut fastest = u128::MAX;
    let mut count = 0;
    for _ in 0..rounds {
        let start = Instant::now(rt);
        let mut cursor = Cursor::new(bytes.as_slice());
        if let Ok(list) = Array::<T>::take(alloc, &mut cursor) {
            count = list.as_slice().map_or(0, |elements| elements.len());
        }
        fastest = fastest.min(elapsed(rt, start));
    }
    report(rt, name, "read", fastest);
    let mut out = rt.stdout();
    writeln!(out, "{name}: {count} in {} bytes", bytes.len())?;
    Ok(bytes)
}

/// Writes and reads data values, read value ids and texts, and looks at them in place.
pub(crate) fn run(rt: &HostRuntime, rounds: u32) -> io::Result<()> {
    let alloc = rt.alloc();
    let name = "data values";
    let bytes = time_both_ways(rt, name, data_values(alloc)?, rounds)?;
    time_views(rt, name, Looked::DataValues, bytes.as_slice(), rounds)?;
    let name = "read value ids";
    let bytes = time_both_ways(rt, name, read_value_ids(alloc)?, rounds)?;
    time_views(rt, name, Looked::ReadValueIds, bytes.as_slice(), rounds)?;
    let name = "texts";
    let bytes = time_both_ways(rt, name, texts(alloc)?, rounds)?;
    time_views(rt, name, Looked::Texts, bytes.as_slice(), rounds)
}

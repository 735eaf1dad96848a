//! Limits of an address space, what its faults print where no node file has them, and a type of lists, which no node file makes.

use crate::holding::holds;
use collections::Near;
use std::alloc::{AllocError, Global};
use std::test::*;
use ua_binary::{Cursor, Wire as _, Written as _};
use ua_messages::{ReadValueId, ReadValueIdView};
use ua_read_write::{Timestamps, read};
use ua_space::*;
use ua_types::{Config, Listed, LocalizedText, Moment, NodeId, QualifiedName, Text};
use ua_views::View as _;

fn no_words() -> LocalizedText {
    LocalizedText {
        locale: Text::null(),
        text: Text::null(),
    }
}

fn no_name() -> QualifiedName {
    QualifiedName {
        namespace: 0,
        name: Text::null(),
    }
}

// A node of namespace 1 without names.
fn node(alloc: Global, number: u32, details: NodeDetails) -> Node {
    Node {
        id: NodeId::numeric(1, number),
        browse_name: no_name(),
        display_name: no_words(),
        description: no_words(),
        details,
        history: Listed::new(alloc),
    }
}

// So many objects with the same id.
fn alike(alloc: Global, count: u32) -> Result<Vec<Node>, AllocError> {
    let mut nodes = Vec::new(alloc);
    for _ in 0..count {
        nodes.push(node(alloc, 0, NodeDetails::Object))?;
    }
    Ok(nodes)
}

// The reference from Root to Objects, which every server has, so many times.
fn again(alloc: Global, count: u64) -> Result<Vec<Triple>, AllocError> {
    let mut triples = Vec::new(alloc);
    for place in 0..count {
        triples.push(Triple {
            source: NodeId::numeric(0, 84),
            reference_type: NodeId::numeric(0, 35),
            target: NodeId::numeric(0, 85),
            part: Part::Reference(place),
        })?;
    }
    Ok(triples)
}

// The fault of a space with these nodes and references beside those that every server has.
fn fault(
    alloc: Global,
    nodes: Vec<Node>,
    triples: Vec<Triple>,
) -> Result<Option<SpaceFault>, AllocError> {
    let config = Config::standard(alloc)?;
    match Space::build(alloc, &config, nodes, triples) {
        Ok(_) => Ok(None),
        Err(fault) => Ok(Some(fault)),
    }
}

// 1,000,000 nodes with the 22 that every server has.
#[test]
fn most_nodes(rt: HostRuntime) -> Result<(), Fail> {
    let alloc = rt.alloc();
    let most = fault(alloc, alike(alloc, 999_978)?, Vec::new(alloc))?;
    let is_judged = matches!(most, Some(SpaceFault::Duplicate(Part::Node(2))));
    holds(&rt, "1,000,000 nodes", is_judged);
    let more = fault(alloc, alike(alloc, 999_979)?, Vec::new(alloc))?;
    holds(&rt, "one more", matches!(more, Some(SpaceFault::Limit)));
    Ok(())
}

// 4,000,000 references with the 29 that every server has.
#[test]
fn most_references(rt: HostRuntime) -> Result<(), Fail> {
    let alloc = rt.alloc();
    let most = fault(alloc, Vec::new(alloc), again(alloc, 3_999_971)?)?;
    let is_judged = matches!(most, Some(SpaceFault::Duplicate(Part::Reference(0))));
    holds(&rt, "4,000,000 references", is_judged);
    let more = fault(alloc, Vec::new(alloc), again(alloc, 3_999_972)?)?;
    holds(&rt, "one more", matches!(more, Some(SpaceFault::Limit)));
    Ok(())
}

fn is_shown(alloc: Global, fault: SpaceFault, text: &str) -> Result<bool, AllocError> {
    let shown = format!(in alloc; "{fault}")?;
    Ok(shown.as_str() == text)
}

#[test]
fn texts_of_faults(rt: HostRuntime) -> Result<(), Fail> {
    let alloc = rt.alloc();
    for (fault, text) in [
        (SpaceFault::Duplicate(Part::Server), "Duplicate server 0"),
        (SpaceFault::Limit, "Limit file 0"),
        (SpaceFault::Memory, "Memory"),
        (SpaceFault::History(Part::Node(3)), "History node 3"),
    ] {
        holds(&rt, text, is_shown(alloc, fault, text)?);
    }
    Ok(())
}

// The space of every server.
fn base_space(alloc: Global) -> Result<Option<Space>, AllocError> {
    let config = Config::standard(alloc)?;
    Ok(Space::build(alloc, &config, Vec::new(alloc), Vec::new(alloc)).ok())
}

// HasComponent lies two steps below HierarchicalReferences, and HasTypeDefinition beside it.
#[test]
fn subtypes_of_the_base(rt: HostRuntime) -> Result<(), Fail> {
    let alloc = rt.alloc();
    let Some(space) = base_space(alloc)? else {
        return Err(Fail::new("no space"));
    };
    let upper = NodeId::numeric(0, 33);
    let types = space.subtypes(alloc, &upper)?;
    for (number, is_below) in [(33, true), (47, true), (31, false), (40, false)] {
        let id = NodeId::numeric(0, number);
        holds(&rt, "in the set", types.contains(&id) == is_below);
        holds(&rt, "by itself", space.is_subtype(&id, &upper) == is_below);
    }
    Ok(())
}

// Values that a server has by itself are of its start.
#[test]
fn times_of_the_base(rt: HostRuntime) -> Result<(), Fail> {
    let Some(space) = base_space(rt.alloc())? else {
        return Err(Fail::new("no space"));
    };
    for number in [2254, 2255, 2259] {
        let time = match space.value(&NodeId::numeric(0, number)) {
            Some(value) => value.server_time,
            None => None,
        };
        holds(&rt, "the start", matches!(time, Some(Moment(0))));
    }
    Ok(())
}

// A space with a type of lists of Double (IEC 62541-3, 5.6.5).
fn list_space(alloc: Global) -> Result<Option<Space>, AllocError> {
    let details = NodeDetails::VariableType {
        data_type: 11,
        value_rank: ValueRank::List,
        is_abstract: false,
    };
    let nodes = vec![in alloc; node(alloc, 21, details)]?;
    let config = Config::standard(alloc)?;
    Ok(Space::build(alloc, &config, nodes, Vec::new(alloc)).ok())
}

// The bytes of an attribute of its type, asked for as a request has it. Empty where its bytes aren't such an entry.
fn attribute(alloc: Global, space: &Space, attribute_id: u32) -> Result<Vec<u8>, AllocError> {
    let entry = ReadValueId {
        node_id: NodeId::numeric(1, 21),
        attribute_id,
        index_range: Text::null(),
        data_encoding: no_name(),
    };
    let mut request = Vec::new(alloc);
    entry.put(&mut request)?;
    let mut bytes = Vec::new(alloc);
    if let Ok(asked) = ReadValueIdView::view(&mut Cursor::new(&request)) {
        read(
            space,
            &mut Near::new(),
            Moment(9),
            Timestamps::Neither,
            &asked,
        )
        .write(&mut bytes)?;
    }
    Ok(bytes)
}

#[test]
fn a_type_of_lists(rt: HostRuntime) -> Result<(), Fail> {
    let alloc = rt.alloc();
    let Some(space) = list_space(alloc)? else {
        return Err(Fail::new("no space"));
    };
    let double: &[u8] = &[1, 17, 0, 11];
    let one: &[u8] = &[1, 6, 1, 0, 0, 0];
    for (number, expected) in [(14, double), (15, one)] {
        let bytes = attribute(alloc, &space, number)?;
        holds(&rt, "its bytes", bytes.as_slice() == expected);
    }
    Ok(())
}

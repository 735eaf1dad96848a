//! Nodes and references beside each other: ids that were given before, and ends that dangle.

use crate::judging::Judge;
use crate::parts::{Part, of_part, part_text, word_in, word_of};
use crate::told::{Told, joined, tell};
use std::alloc::{AllocError, Global};
use std::collections::BTreeMap;
use toml::Value;
use ua_types::{NodeId, write_id};

// The ids of the nodes that every server has, at last those of ReferenceTypes.
static BASE: [&str; 22] = [
    "i=84", "i=85", "i=86", "i=87", "i=2253", "i=2254", "i=2255", "i=2259", "i=58", "i=61", "i=63",
    "i=68", "i=31", "i=32", "i=33", "i=34", "i=35", "i=40", "i=44", "i=45", "i=46", "i=47",
];

// How many of them are no ReferenceTypes.
const OTHERS: usize = 12;

// The references that every server has: from, type and to.
static BASE_REFERENCES: [(&str, &str, &str); 29] = [
    ("i=84", "i=35", "i=85"),
    ("i=84", "i=35", "i=86"),
    ("i=84", "i=35", "i=87"),
    ("i=85", "i=35", "i=2253"),
    ("i=2253", "i=46", "i=2254"),
    ("i=2253", "i=46", "i=2255"),
    ("i=2253", "i=47", "i=2259"),
    ("i=86", "i=35", "i=58"),
    ("i=86", "i=35", "i=63"),
    ("i=86", "i=35", "i=68"),
    ("i=86", "i=35", "i=31"),
    ("i=58", "i=45", "i=61"),
    ("i=31", "i=45", "i=32"),
    ("i=31", "i=45", "i=33"),
    ("i=33", "i=45", "i=34"),
    ("i=33", "i=45", "i=35"),
    ("i=34", "i=45", "i=44"),
    ("i=34", "i=45", "i=45"),
    ("i=44", "i=45", "i=46"),
    ("i=44", "i=45", "i=47"),
    ("i=32", "i=45", "i=40"),
    ("i=84", "i=40", "i=61"),
    ("i=85", "i=40", "i=61"),
    ("i=86", "i=40", "i=61"),
    ("i=87", "i=40", "i=61"),
    ("i=2253", "i=40", "i=58"),
    ("i=2254", "i=40", "i=68"),
    ("i=2255", "i=40", "i=68"),
    ("i=2259", "i=40", "i=63"),
];

// What was declared so far, by the ids: one for a node, three for a reference.
type Seen = BTreeMap<String, Part>;

// A reference's end: its key, and the id there.
#[derive(Clone, Copy)]
struct End<'a> {
    key: &'a str,
    id: &'a str,
}

// An id as it is always written.
fn written(alloc: Global, text: &str) -> Result<String, AllocError> {
    match NodeId::parse(alloc, text) {
        Ok(id) => write_id(alloc, &id),
        Err(_) => String::from_str(alloc, text),
    }
}

// Adds what a part declares, unless it was declared before.
fn declare(
    judge: &Judge,
    seen: &mut Seen,
    what: &str,
    ids: String,
    part: Part,
) -> Result<(), Told> {
    match seen.insert(ids, part)? {
        None => Ok(()),
        Some(before) => {
            let place = part_text(judge, before)?;
            Err(tell(
                judge.alloc,
                &[what, " was given before, by ", place.as_str()],
            ))
        }
    }
}

// The nodes of every server and of the file.
fn declare_nodes(judge: &Judge, seen: &mut Seen) -> Result<(), Told> {
    for (place, id) in BASE.iter().enumerate() {
        let id = String::from_str(judge.alloc, *id)?;
        declare(judge, seen, "its id", id, Part::Base(place))?;
    }
    for (place, entry) in judge.nodes.iter().enumerate() {
        let part = Part::Node(place);
        let id = written(judge.alloc, word_in(entry, "id", ""))?;
        of_part(judge, part, declare(judge, seen, "its id", id, part))?;
    }
    Ok(())
}

fn is_reference_type(judge: &Judge, part: Part) -> bool {
    match part {
        Part::Base(place) => place >= OTHERS,
        Part::Node(place) => word_of(judge, place, "class") == "ReferenceType",
        _ => false,
    }
}

// The id at an end as it is always written, where it is that of a node, or of a reference's type.
fn end_id(judge: &Judge, nodes: &Seen, end: End, is_type: bool) -> Result<String, Told> {
    let id = written(judge.alloc, end.id)?;
    let lacking = match nodes.get(id.as_str()) {
        None => "node",
        Some(part) if is_type && !is_reference_type(judge, *part) => "ReferenceType",
        Some(_) => "",
    };
    if lacking == "" {
        return Ok(id);
    }
    let parts = [end.key, " is \"", end.id, "\", the id of no ", lacking];
    Err(tell(judge.alloc, &parts))
}

// The three ends of a reference.
#[derive(Clone, Copy)]
struct Ends<'a> {
    source: End<'a>,
    kind: End<'a>,
    target: End<'a>,
}

// The three ids of a reference, where its ends and its type are there.
fn ids(judge: &Judge, nodes: &Seen, ends: Ends) -> Result<String, Told> {
    let source = end_id(judge, nodes, ends.source, false)?;
    let target = end_id(judge, nodes, ends.target, false)?;
    let kind = end_id(judge, nodes, ends.kind, true)?;
    let parts = [source.as_str(), "\n", kind.as_str(), "\n", target.as_str()];
    Ok(joined(judge.alloc, &parts)?)
}

// Adds a reference that a part declares.
fn refer(judge: &Judge, nodes: &Seen, seen: &mut Seen, part: Part, ends: Ends) -> Result<(), Told> {
    let ids = match ids(judge, nodes, ends) {
        Ok(ids) => ids,
        Err(told) => return of_part(judge, part, Err(told)),
    };
    let declared = declare(judge, seen, "its reference", ids, part);
    of_part(judge, part, declared)
}

fn refer_base(judge: &Judge, nodes: &Seen, seen: &mut Seen) -> Result<(), Told> {
    for (place, (source, kind, target)) in BASE_REFERENCES.iter().enumerate() {
        let ends = Ends {
            source: End {
                key: "from",
                id: *source,
            },
            kind: End {
                key: "type",
                id: *kind,
            },
            target: End {
                key: "to",
                id: *target,
            },
        };
        refer(judge, nodes, seen, Part::Base(place), ends)?;
    }
    Ok(())
}

// The reference from a node's parent, if it has one.
fn refer_parent(judge: &Judge, nodes: &Seen, seen: &mut Seen, place: usize) -> Result<(), Told> {
    let parent = word_of(judge, place, "parent");
    if parent == "" {
        return Ok(());
    }
    let via = match word_of(judge, place, "via") {
        "" => "i=35",
        via => via,
    };
    let ends = Ends {
        source: End {
            key: "parent",
            id: parent,
        },
        kind: End {
            key: "via",
            id: via,
        },
        target: End {
            key: "id",
            id: word_of(judge, place, "id"),
        },
    };
    refer(judge, nodes, seen, Part::Node(place), ends)
}

// The reference to a node's type definition, if its class has one.
fn refer_definition(
    judge: &Judge,
    nodes: &Seen,
    seen: &mut Seen,
    place: usize,
) -> Result<(), Told> {
    let standard = match word_of(judge, place, "class") {
        "Object" => "i=58",
        "Variable" => "i=63",
        _ => return Ok(()),
    };
    let definition = match word_of(judge, place, "definition") {
        "" => standard,
        definition => definition,
    };
    let ends = Ends {
        source: End {
            key: "id",
            id: word_of(judge, place, "id"),
        },
        kind: End {
            key: "definition",
            id: "i=40",
        },
        target: End {
            key: "definition",
            id: definition,
        },
    };
    refer(judge, nodes, seen, Part::Node(place), ends)
}

// An entry of the list `reference`.
fn refer_entry(
    judge: &Judge,
    nodes: &Seen,
    seen: &mut Seen,
    place: usize,
    entry: &Value,
) -> Result<(), Told> {
    let ends = Ends {
        source: End {
            key: "from",
            id: word_in(entry, "from", ""),
        },
        kind: End {
            key: "type",
            id: word_in(entry, "type", ""),
        },
        target: End {
            key: "to",
            id: word_in(entry, "to", ""),
        },
    };
    refer(judge, nodes, seen, Part::Reference(place), ends)
}

/// The first fault of nodes and references that are right each by itself.
pub(crate) fn judge_ends(judge: &Judge) -> Result<(), Told> {
    let mut nodes = BTreeMap::new(judge.alloc);
    declare_nodes(judge, &mut nodes)?;
    let mut seen = BTreeMap::new(judge.alloc);
    refer_base(judge, &nodes, &mut seen)?;
    for place in 0..judge.nodes.len() {
        refer_parent(judge, &nodes, &mut seen, place)?;
        refer_definition(judge, &nodes, &mut seen, place)?;
    }
    for (place, entry) in judge.references.iter().enumerate() {
        refer_entry(judge, &nodes, &mut seen, place, entry)?;
    }
    Ok(())
}

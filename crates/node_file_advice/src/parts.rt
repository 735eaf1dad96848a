//! The parts of a node file, by the lines at which they begin.

use crate::judging::{Judge, word};
use crate::told::{Told, count_text, joined, tell};
use std::alloc::{AllocError, Global};
use toml::Value;

/// A part of a node file. The places of entries, and of base nodes, count from 0.
#[derive(Clone, Copy)]
pub(crate) enum Part {
    File,
    Server,
    Node(usize),
    Reference(usize),
    Base(usize),
}

// The line of a header, where there are as many such headers as entries.
fn header_line(text: &str, header: &str, place: usize, count: usize) -> Option<usize> {
    let mut line: usize = 0;
    let mut seen: usize = 0;
    let mut found = None;
    for row in text.lines() {
        line = line.saturating_add(1);
        if row.trim().starts_with(header) {
            if seen == place {
                found = Some(line);
            }
            seen = seen.saturating_add(1);
        }
    }
    if seen == count { found } else { None }
}

// A part that begins with a header, or goes by a word where its line isn't known.
fn header_text(
    judge: &Judge,
    header: &str,
    word: &str,
    place: usize,
    count: usize,
) -> Result<String, AllocError> {
    match header_line(judge.text, header, place, count) {
        Some(line) => {
            let number = count_text(judge.alloc, line)?;
            joined(judge.alloc, &[header, " at line ", number.as_str()])
        }
        None => {
            let number = count_text(judge.alloc, place.saturating_add(1))?;
            joined(judge.alloc, &[word, " ", number.as_str()])
        }
    }
}

/// The text at a key of an entry, or the other one.
pub(crate) fn word_in<'a>(entry: &'a Value, key: &str, other: &'a str) -> &'a str {
    match entry.as_table() {
        Some(table) => match word(table, key) {
            "" => other,
            text => text,
        },
        None => other,
    }
}

/// The text at a key of a node, or the other one.
pub(crate) fn word_of<'a>(judge: &Judge<'a>, place: usize, key: &str) -> &'a str {
    match judge.nodes.get(place) {
        Some(entry) => word_in(entry, key, ""),
        None => "",
    }
}

// A node, with its id where it has one.
fn node_text(judge: &Judge, place: usize) -> Result<String, AllocError> {
    let at = header_text(judge, "[[node]]", "node", place, judge.nodes.len())?;
    match word_of(judge, place, "id") {
        "" => Ok(at),
        id => joined(judge.alloc, &[at.as_str(), ", id \"", id, "\""]),
    }
}

/// The words for a part.
pub(crate) fn part_text(judge: &Judge, part: Part) -> Result<String, AllocError> {
    match part {
        Part::File => String::from_str(judge.alloc, "the file"),
        Part::Server => header_text(judge, "[server]", "server", 0, 1),
        Part::Node(place) => node_text(judge, place),
        Part::Reference(place) => {
            header_text(
                judge,
                "[[reference]]",
                "reference",
                place,
                judge.references.len(),
            )
        }
        Part::Base(_) => String::from_str(judge.alloc, "what every server has"),
    }
}

fn placed(judge: &Judge, part: Part, fault: &Told) -> Result<Told, AllocError> {
    let place = part_text(judge, part)?;
    match &fault.text {
        Some(text) => Ok(tell(judge.alloc, &[place.as_str(), ": ", text.as_str()])),
        None => Err(AllocError),
    }
}

/// The same fault, of this part.
pub(crate) fn of_part(judge: &Judge, part: Part, judged: Result<(), Told>) -> Result<(), Told> {
    match judged {
        Ok(()) => Ok(()),
        Err(fault) => Err(placed(judge, part, &fault)?),
    }
}

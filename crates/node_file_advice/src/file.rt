//! A whole node file.

use crate::ends::judge_ends;
use crate::entries::{node, part, reference};
use crate::judging::{Judge, entries_at, integer};
use crate::known::known;
use crate::parts::{Part, of_part};
use crate::rules::{FILE, SERVER};
use crate::told::{Told, joined};
use std::alloc::{AllocError, Global};
use toml::Table;
use toml::de::Error;

// Where no fault is found.
const NONE: &str =
    "each table is right by itself, and each end is there: a SubtypeLoop is a circle of HasSubtype references (i=45), on which the part above lies\n";

// Nothing but the text and its lists is known yet.
fn judge_of<'a>(alloc: Global, text: &'a str, table: &'a Table) -> Judge<'a> {
    Judge {
        alloc,
        text,
        nodes: entries_at(table, "node"),
        references: entries_at(table, "reference"),
        is_later: integer(table, "version", 0) == 2,
        highest: 1,
        history: 10_000,
    }
}

// The file's own keys: the version before all others.
fn keys(judge: &Judge, table: &Table) -> Result<(), Told> {
    part(judge, &FILE[..1], table)?;
    known(judge, "a node file", &[], &FILE, table)?;
    part(judge, &FILE, table)
}

// The table `server`.
fn server(judge: &Judge, table: &Table) -> Result<(), Told> {
    known(judge, "[server]", &[], &SERVER, table)?;
    part(judge, &SERVER, table)
}

// What nodes depend on, once the table `server` is found to be right.
fn with_server<'a>(judge: &Judge<'a>, table: &Table) -> Result<Judge<'a>, Told> {
    of_part(judge, Part::Server, server(judge, table))?;
    let more = u16::try_from(entries_at(table, "namespaces").len()).unwrap_or(100);
    Ok(Judge {
        highest: more.saturating_add(1),
        history: integer(table, "history", 10_000),
        ..*judge
    })
}

// The entries of both lists.
fn lists(judge: &Judge) -> Result<(), Told> {
    for (place, value) in judge.nodes.iter().enumerate() {
        of_part(judge, Part::Node(place), node(judge, value))?;
    }
    for (place, value) in judge.references.iter().enumerate() {
        of_part(judge, Part::Reference(place), reference(judge, value))?;
    }
    judge_ends(judge)
}

// The first fault of a file.
fn judged(alloc: Global, text: &str, table: &Table) -> Result<(), Told> {
    let judge = judge_of(alloc, text, table);
    of_part(&judge, Part::File, keys(&judge, table))?;
    match table.get("server") {
        Some(value) => match value.as_table() {
            Some(server) => lists(&with_server(&judge, server)?),
            None => Ok(()),
        },
        None => lists(&judge),
    }
}

fn of_table(alloc: Global, text: &str, table: &Table) -> Result<String, AllocError> {
    match judged(alloc, text, table) {
        Ok(()) => String::from_str(alloc, NONE),
        Err(Told { text: None }) => Err(AllocError),
        Err(Told { text: Some(told) }) => joined(alloc, &[told.as_str(), "\n"]),
    }
}

// The line and the column of what is no TOML, and why.
fn of_error(alloc: Global, error: &Error) -> Result<String, AllocError> {
    let told = format!(in alloc; "{error}")?;
    let told = told.as_str().trim();
    let told = told.strip_prefix("TOML parse error at ").unwrap_or(told);
    match told.split_once('\n') {
        Some((place, why)) => joined(alloc, &[place, ": ", why, "\n"]),
        None => joined(alloc, &[told, "\n"]),
    }
}

/// What is wrong with the text of a node file: one line, which says where the first fault is, what is there and what was
/// expected. Where no fault is found a line says so: a loop of HasSubtype references isn't looked for, nor is a file counted that
/// has too many nodes or references.
pub fn advice(alloc: Global, text: &str) -> Result<String, AllocError> {
    match toml::table_from_str(alloc, text) {
        Ok(table) => of_table(alloc, text, &table),
        Err(error) if error.is_memory() => Err(AllocError),
        Err(error) => of_error(alloc, &error),
    }
}

//! The keys of a part one by one, and the entries of its lists.

use crate::judging::{
    Judge, entries, fits, integer, is_in, is_kind, is_true, misfit, missing, type_rule, word,
};
use crate::known::known;
use crate::rules::{
    ENTRY, Form, NODE, OBJECT, OTHER, PAST, REFERENCE, REFERENCE_TYPE, Rule, VALUES, VARIABLE,
    VARIABLE_TYPE, WORD,
};
use crate::told::{Told, count_text, integer_text, joined, tell};
use std::alloc::AllocError;
use toml::{Table, Value};

// An entry, by its number from 1 on.
fn entry_name(judge: &Judge, key: &str, place: usize) -> Result<String, AllocError> {
    let number = count_text(judge.alloc, place.saturating_add(1))?;
    joined(judge.alloc, &[key, " (entry ", number.as_str(), ")"])
}

// What is told of an entry of a list.
fn entry_misfit(judge: &Judge, key: &str, place: usize, rule: &Rule, value: &Value) -> Told {
    match entry_name(judge, key, place) {
        Ok(name) => misfit(judge, name.as_str(), rule, value),
        Err(error) => Told::from(error),
    }
}

// Whether all entries are of their kind.
fn have_kind(judge: &Judge, key: &str, rule: &Rule, values: &[Value]) -> Result<(), Told> {
    for (place, value) in values.iter().enumerate() {
        if !is_kind(rule.form, value) {
            return Err(entry_misfit(judge, key, place, rule, value));
        }
    }
    Ok(())
}

// Whether all entries belong there.
fn all_in(judge: &Judge, key: &str, rule: &Rule, values: &[Value]) -> Result<(), Told> {
    for (place, value) in values.iter().enumerate() {
        if !is_in(judge, rule, value) {
            return Err(entry_misfit(judge, key, place, rule, value));
        }
    }
    Ok(())
}

// Whether a list has at most so many entries.
fn few(judge: &Judge, key: &str, most: i64, values: &[Value]) -> Result<(), Told> {
    let count = values.len();
    if count as u64 <= most.unsigned_abs() {
        return Ok(());
    }
    let count = count_text(judge.alloc, count)?;
    let most_text = integer_text(judge.alloc, most)?;
    let hint = if most == 0 {
        ", unless historizing = true"
    } else {
        ""
    };
    let parts = [
        key,
        " has entries: ",
        count.as_str(),
        "; expected: at most ",
        most_text.as_str(),
        hint,
    ];
    Err(tell(judge.alloc, &parts))
}

fn texts(judge: &Judge, rule: &Rule, value: &Value) -> Result<(), Told> {
    fits(judge, rule.key, rule, value)?;
    have_kind(judge, rule.key, &WORD, entries(value))?;
    few(judge, rule.key, 100, entries(value))
}

// The value of a variable, or its list.
fn held(judge: &Judge, node: &Table, value: &Value) -> Result<(), Told> {
    let rule = type_rule(word(node, "type")).unwrap_or(&WORD);
    if !is_true(node, "list") {
        return fits(judge, "value", rule, value);
    }
    fits(judge, "value", &VALUES, value)?;
    have_kind(judge, "value", rule, entries(value))?;
    all_in(judge, "value", rule, entries(value))
}

// Whether what stands at a key belongs there, if it isn't a list or a value of a variable.
fn plain(judge: &Judge, rule: &Rule, table: &Table) -> Result<(), Told> {
    match table.get(rule.key) {
        Some(value) => fits(judge, rule.key, rule, value),
        None if rule.is_required => Err(missing(judge, rule)),
        None => Ok(()),
    }
}

// Whether an entry of a node's history has its time, which is at least this, its value and its status.
fn past_keys(judge: &Judge, node: &Table, least: i64, table: &Table) -> Result<(), Told> {
    if integer(table, "time", least) < least {
        let text = format!(in judge.alloc;
            "time isn't later than the entry before; expected: an integer from {least} on"
        )?;
        return Err(Told { text: Some(text) });
    }
    plain(judge, &PAST[0], table)?;
    match table.get("value") {
        Some(value) => held(judge, node, value)?,
        None => return Err(missing(judge, &PAST[1])),
    }
    plain(judge, &PAST[2], table)
}

// An entry of a node's history: the least time of the next one.
fn past(judge: &Judge, node: &Table, least: i64, value: &Value) -> Result<i64, Told> {
    let Some(table) = value.as_table() else {
        return Err(misfit(judge, "it", &ENTRY, value));
    };
    known(judge, "an entry of history", &[], &PAST, table)?;
    past_keys(judge, node, least, table)?;
    Ok(integer(table, "time", least).saturating_add(1))
}

// What is told of an entry of a node's history.
fn past_told(judge: &Judge, place: usize, told_of: &Told) -> Result<Told, AllocError> {
    let number = count_text(judge.alloc, place.saturating_add(1))?;
    match &told_of.text {
        Some(text) => Ok(tell(
            judge.alloc,
            &["entry ", number.as_str(), " of history: ", text.as_str()],
        )),
        None => Err(AllocError),
    }
}

// The history of a variable.
fn history(judge: &Judge, rule: &Rule, node: &Table, value: &Value) -> Result<(), Told> {
    fits(judge, rule.key, rule, value)?;
    let values = entries(value);
    let most = if is_true(node, "historizing") {
        judge.history
    } else {
        0
    };
    few(judge, rule.key, most, values)?;
    let mut least = 1;
    for (place, value) in values.iter().enumerate() {
        match past(judge, node, least, value) {
            Ok(next) => least = next,
            Err(told) => return Err(past_told(judge, place, &told)?),
        }
    }
    Ok(())
}

// Whether what stands at a key belongs there.
fn at(judge: &Judge, rule: &Rule, table: &Table) -> Result<(), Told> {
    let Some(value) = table.get(rule.key) else {
        return plain(judge, rule, table);
    };
    match rule.form {
        Form::Texts => texts(judge, rule, value),
        Form::Value => held(judge, table, value),
        Form::History => history(judge, rule, table, value),
        _ => fits(judge, rule.key, rule, value),
    }
}

/// The first fault of a part at these keys.
pub(crate) fn part(judge: &Judge, rules: &[Rule], table: &Table) -> Result<(), Told> {
    for rule in rules {
        at(judge, rule, table)?;
    }
    Ok(())
}

// The keys of a class beside those of all nodes.
fn class_rules(class: &str) -> &'static [Rule] {
    match class {
        "Object" => &OBJECT,
        "Variable" => &VARIABLE,
        "VariableType" => &VARIABLE_TYPE,
        "ReferenceType" => &REFERENCE_TYPE,
        _ => &OTHER,
    }
}

/// The first fault of an entry of the list `node`, by itself: its id and its class before the rest.
pub(crate) fn node(judge: &Judge, value: &Value) -> Result<(), Told> {
    let Some(table) = value.as_table() else {
        return Err(misfit(judge, "it", &ENTRY, value));
    };
    part(judge, &NODE[..2], table)?;
    let class = word(table, "class");
    let own = class_rules(class);
    known(judge, class, &NODE, own, table)?;
    part(judge, &NODE, table)?;
    part(judge, own, table)
}

/// The first fault of an entry of the list `reference`, by itself.
pub(crate) fn reference(judge: &Judge, value: &Value) -> Result<(), Told> {
    let Some(table) = value.as_table() else {
        return Err(misfit(judge, "it", &ENTRY, value));
    };
    known(judge, "[[reference]]", &[], &REFERENCE, table)?;
    part(judge, &REFERENCE, table)
}

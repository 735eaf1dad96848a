//! Whether a value is what belongs at a key.

use crate::rules::{Form, Rule, TYPES};
use crate::told::{Told, count_text, integer_text, joined, tell};
use std::alloc::{AllocError, Global};
use toml::{Table, Value};
use ua_types::{Guid, NodeId};

/// The file at hand, and what its values depend on.
#[derive(Clone, Copy)]
pub(crate) struct Judge<'a> {
    pub alloc: Global,
    pub text: &'a str,
    pub nodes: &'a [Value],
    pub references: &'a [Value],
    /// Whether the file has version 2.
    pub is_later: bool,
    /// The highest namespace.
    pub highest: u16,
    /// The most values of a node's history.
    pub history: i64,
}

/// The text at a key, or an empty one.
pub(crate) fn word<'a>(table: &'a Table, key: &str) -> &'a str {
    match table.get(key) {
        Some(value) => value.as_str().unwrap_or(""),
        None => "",
    }
}

/// The integer at a key, or the other one.
pub(crate) fn integer(table: &Table, key: &str, other: i64) -> i64 {
    match table.get(key) {
        Some(value) => value.as_integer().unwrap_or(other),
        None => other,
    }
}

/// Whether a key says `true`.
pub(crate) fn is_true(table: &Table, key: &str) -> bool {
    match table.get(key) {
        Some(value) => value.as_bool().unwrap_or(false),
        None => false,
    }
}

/// The entries of a list, none where it is no list.
pub(crate) fn entries(value: &Value) -> &[Value] {
    match value.as_array() {
        Some(values) => values.as_slice(),
        None => &[],
    }
}

/// The entries at a key.
pub(crate) fn entries_at<'a>(table: &'a Table, key: &str) -> &'a [Value] {
    match table.get(key) {
        Some(value) => entries(value),
        None => &[],
    }
}

/// Whether a value is of the kind that belongs there, as a text.
pub(crate) fn is_kind(form: Form, value: &Value) -> bool {
    match form {
        Form::Table => value.is_table(),
        Form::List | Form::Texts | Form::History => value.is_array(),
        Form::Truth => value.is_bool(),
        Form::Integer | Form::Namespace => value.is_integer(),
        _ => value.is_str(),
    }
}

// The most that a number may be.
fn most_of(judge: &Judge, rule: &Rule) -> i64 {
    match rule.form {
        Form::Namespace => judge.highest as i64,
        _ if judge.is_later => rule.most,
        _ => rule.first,
    }
}

// Whether a text is the id of a node whose namespace the server has.
fn is_id(judge: &Judge, text: &str) -> bool {
    match NodeId::parse(judge.alloc, text) {
        Ok(id) => id.namespace <= judge.highest,
        Err(_) => false,
    }
}

// Whether a text is so many bytes in hex digits, or any number of bytes.
fn is_hex(text: &str, is_long: bool) -> bool {
    let is_whole = if is_long {
        text.len() % 2 == 0
    } else {
        text.len() == 16
    };
    is_whole && text.as_bytes().iter().all(|byte| byte.is_ascii_hexdigit())
}

fn is_class(text: &str) -> bool {
    matches!(
        text,
        "Object" | "Variable" | "ObjectType" | "VariableType" | "ReferenceType" | "DataType"
    )
}

/// What values of the type that a word names are written as.
pub(crate) fn type_rule(word: &str) -> Option<&'static Rule> {
    TYPES.iter().find(|rule| rule.key == word)
}

// Whether a text is one of those that belong there.
fn is_text_in(judge: &Judge, form: Form, text: &str) -> bool {
    match form {
        Form::Id => is_id(judge, text),
        Form::Class => is_class(text),
        Form::Type => type_rule(text).is_some(),
        Form::Duration => is_hex(text, false),
        Form::Hex => is_hex(text, true),
        Form::Guid => Guid::parse(text).is_some(),
        _ => true,
    }
}

/// Whether a value of the right kind is one of those that belong there.
pub(crate) fn is_in(judge: &Judge, rule: &Rule, value: &Value) -> bool {
    if let Some(number) = value.as_integer() {
        return rule.least <= number && number <= most_of(judge, rule);
    }
    match value.as_str() {
        Some(text) => is_text_in(judge, rule.form, text),
        None => true,
    }
}

// What belongs there, where the words are always the same.
fn form_words(form: Form) -> &'static str {
    match form {
        Form::Table => "a table",
        Form::Truth => "true or false",
        Form::Class => "Object, Variable, ObjectType, VariableType, ReferenceType or DataType",
        Form::Type =>
            "Boolean, SByte, Byte, Int16, UInt16, Int32, UInt32, Int64, UInt64, String, DateTime, Guid, ByteString, NodeId or StatusCode",
        Form::Duration => "16 hex digits, a double of milliseconds (docs/NODE_FILE.md)",
        Form::Guid => "a Guid, as 72962b91-fa75-4ae6-8d28-b404dc7daf63",
        Form::Hex => "hex digits, two for each byte",
        Form::Value => "a value of the type",
        Form::Text => "a text",
        _ => "a list",
    }
}

// The range of a number in words.
fn range_text(judge: &Judge, rule: &Rule) -> Result<String, AllocError> {
    let least = integer_text(judge.alloc, rule.least)?;
    let most = integer_text(judge.alloc, most_of(judge, rule))?;
    let parts = ["an integer from ", least.as_str(), " to ", most.as_str()];
    joined(judge.alloc, &parts)
}

// What belongs there.
fn expected(judge: &Judge, rule: &Rule) -> Result<String, AllocError> {
    match rule.form {
        Form::Integer | Form::Namespace => range_text(judge, rule),
        Form::Id => {
            let highest = integer_text(judge.alloc, judge.highest as i64)?;
            joined(
                judge.alloc,
                &[
                    "a node id, as i=85 or ns=1;i=11, of a namespace up to ",
                    highest.as_str(),
                ],
            )
        }
        form => String::from_str(judge.alloc, form_words(form)),
    }
}

// What is there, but for what is long.
fn there(alloc: Global, value: &Value) -> Result<String, AllocError> {
    if let Some(values) = value.as_array() {
        let count = count_text(alloc, values.len())?;
        return joined(alloc, &["a list of ", count.as_str()]);
    }
    if value.is_table() {
        return String::from_str(alloc, "a table");
    }
    if value.as_str().unwrap_or("").len() > 200 {
        return String::from_str(alloc, "a long text");
    }
    value.to_string(alloc)
}

/// What is told of a value that doesn't belong there.
pub(crate) fn misfit(judge: &Judge, what: &str, rule: &Rule, value: &Value) -> Told {
    match told_misfit(judge, what, rule, value) {
        Ok(told) => told,
        Err(error) => Told::from(error),
    }
}

fn told_misfit(judge: &Judge, what: &str, rule: &Rule, value: &Value) -> Result<Told, AllocError> {
    let there = there(judge.alloc, value)?;
    let wanted = expected(judge, rule)?;
    let parts = [
        what,
        " is ",
        there.as_str(),
        "; expected: ",
        wanted.as_str(),
    ];
    Ok(tell(judge.alloc, &parts))
}

/// What is told of a key that is missing.
pub(crate) fn missing(judge: &Judge, rule: &Rule) -> Told {
    match expected(judge, rule) {
        Ok(wanted) => tell(
            judge.alloc,
            &[rule.key, " is missing; expected: ", wanted.as_str()],
        ),
        Err(error) => Told::from(error),
    }
}

/// Whether a value belongs at a key.
pub(crate) fn fits(judge: &Judge, what: &str, rule: &Rule, value: &Value) -> Result<(), Told> {
    if is_kind(rule.form, value) && is_in(judge, rule, value) {
        Ok(())
    } else {
        Err(misfit(judge, what, rule, value))
    }
}

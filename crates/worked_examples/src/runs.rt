//! Lines of `run` and `trace`, and parts of them. Words stand before the bytes of each message (`messages`).

use crate::messages::{write_frame, write_names, write_response};
use std::alloc::Global;
use std::io;
use std::io::Write;

// What precedes the hex digits of a message of one chunk: those of `MSGF`.
const MESSAGE: &str = "4d534746";

// The connection and the hex digits of a line of `run` that sends a frame.
fn frame(line: &str) -> Option<(&str, &str)> {
    line.strip_prefix("send ")?.split_once(' ')
}

// The same of a line that sends a message of one chunk.
fn message(line: &str) -> Option<(&str, &str)> {
    let (conn, digits) = frame(line)?;
    if digits.starts_with(MESSAGE) {
        Some((conn, digits))
    } else {
        None
    }
}

// The digits of a message's body, behind the headers of its chunk.
fn body(digits: &str) -> &str {
    digits.get(48..).unwrap_or("")
}

// What a line of `trace` says of a row that fired, but for its states and for why others didn't fire.
fn write_row(line: &str, output: &mut Vec<u8>) -> io::Result<()> {
    let mut words = line.split(' ');
    let (Some(_event), Some(subscription), Some(row)) = (words.next(), words.next(), words.next())
    else {
        return Ok(());
    };
    let mut counters = words.skip(3);
    let (Some(keep), Some(life)) = (counters.next(), counters.next()) else {
        return Ok(());
    };
    write!(output, "row {subscription} {row} {keep} {life}\n")
}

// The bytes of a message's type id, behind two of its encoding, and of its service result.
fn write_message(alloc: Global, digits: &str, output: &mut Vec<u8>) -> io::Result<()> {
    let type_id = digits.get(52..56).unwrap_or("");
    let result = digits.get(80..88).unwrap_or("");
    output.write_all(b"message ".as_slice())?;
    if let Ok(bytes) = hex::decode(alloc, body(digits)) {
        write_names(alloc, bytes.as_slice(), output)?;
    }
    write!(output, "{type_id} {result}\n")
}

// The body of a message.
fn write_answer(alloc: Global, conn: &str, digits: &str, output: &mut Vec<u8>) -> io::Result<()> {
    let digits = body(digits);
    write!(output, "answer {conn} ")?;
    if let Ok(bytes) = hex::decode(alloc, digits) {
        write_response(alloc, bytes.as_slice(), output)?;
    }
    write!(output, "{digits}\n")
}

// A frame. `begun` has the parts of a message that isn't whole yet.
fn write_sent(
    alloc: Global,
    conn: &str,
    digits: &str,
    begun: &mut Vec<u8>,
    output: &mut Vec<u8>,
) -> io::Result<()> {
    write!(output, "send {conn} ")?;
    if let Ok(bytes) = hex::decode(alloc, digits) {
        write_frame(alloc, bytes.as_slice(), begun, output)?;
    }
    write!(output, "{digits}\n")
}

/// Writes all lines of a run.
pub(crate) fn write_run(alloc: Global, sent: &str, output: &mut Vec<u8>) -> io::Result<()> {
    let mut begun = Vec::new(alloc);
    for line in sent.lines() {
        match frame(line) {
            Some((conn, digits)) => write_sent(alloc, conn, digits, &mut begun, output)?,
            None => write!(output, "{line}\n")?,
        }
    }
    Ok(())
}

/// Writes a line for each row that fired, and then one for each message that was sent.
pub(crate) fn write_rows(
    alloc: Global,
    traced: &str,
    sent: &str,
    output: &mut Vec<u8>,
) -> io::Result<()> {
    for line in traced.lines() {
        write_row(line, output)?;
    }
    for line in sent.lines() {
        if let Some((_, digits)) = message(line) {
            write_message(alloc, digits, output)?;
        }
    }
    Ok(())
}

/// Writes the body of each message that was sent.
pub(crate) fn write_answers(alloc: Global, sent: &str, output: &mut Vec<u8>) -> io::Result<()> {
    for line in sent.lines() {
        if let Some((conn, digits)) = message(line) {
            write_answer(alloc, conn, digits, output)?;
        }
    }
    Ok(())
}

/// Writes the body of what was sent last, where that is a message.
pub(crate) fn write_last(alloc: Global, sent: &str, output: &mut Vec<u8>) -> io::Result<()> {
    let Some(line) = sent.lines().last() else {
        return Ok(());
    };
    match message(line) {
        Some((conn, digits)) => write_answer(alloc, conn, digits, output),
        None => Ok(()),
    }
}

//! Worked examples, as a transcript: each line of the files in `data` that are named below is printed behind a `$`, and then
//! what comes of it; a line that begins with `#` is a comment. Each scenario in `data` can be copied, and tried by hand
//! (docs/SCENARIOS.md). Words behind the program's name are one such line, and nothing but what comes of it is printed.
//!
//! A line is a command of `uaserver`, as `check NODES` or `trace NODES SCENARIO`, whose output is printed as it is, but for
//! the names of the frames of `run`. Where it isn't done, a line `status N` with its exit status follows, and then what it
//! said to standard error. Or it is one of these, of a server:
//!
//! - `rows NODES SCENARIO`: a part of what `trace` and `run` print: `row SUBSCRIPTION ROW Kk Ll`, a line for each row of the
//!   state table that fired, with the keep-alive and lifetime counters after it, and then `message NAMES TYPE RESULT`, a
//!   line for each message that was sent: the bytes of its type id and of its service result;
//! - `answers NODES SCENARIO`: `answer CONNECTION NAMES BODY`, a line for each message, with the bytes of its body;
//! - `last NODES SCENARIO`: the last of these lines, where the last that was sent is a message;
//! - `behind SCENARIO LINE`: what `asm` prints where this line stands behind the scenario's;
//! - `nodes TEXT`: what `check` says of a node file of this text, in which `\n` stands for the end of a line;
//! - `explain TEXT`: the same, and below it what `check --explain` explains;
//! - `uaserver`: what the program prints where no word follows its name;
//! - `state_table`: the rows of the state table of subscriptions, each with where and at which event it may fire, its
//!   conditions, its actions, and the state afterwards.
//!
//! A message is one of a single chunk. What else a server sends or does, as the answers to a Hello and to an opening, a
//! chunk of a longer answer, or a close, has no line in the first three: `run` shows it.
//!
//! NAMES are the standard's for a message and its result, as in `answer 1 ReadResponse Good 01007a02..`; behind them stands
//! what a message of a subscription tells, `DataChangeNotification`, `StatusChangeNotification STATUS` or `keep-alive`. The
//! lines of `run` have them too, as in `send 1 Error Bad_TcpMessageTypeInvalid 45525246..`. A frame that is a part of a
//! message is an `intermediate chunk`, or the `final chunk`, where the names are those of the whole message.
//!
//! Of the encoding ([`encoding_examples`]):
//!
//! - `take TYPE HEX`: what the bytes mean as a value of this type, how it is written again, and how many bytes are left,
//!   or why they mean none, and how many are then left. Where the type is a message, they are its body, whose number
//!   precedes the value; where it is the structure in an ExtensionObject, they are that object. No rest is told of these.
//!   Where the type has a view, it has to say the same of the same bytes: what it says else is printed too;
//! - `compare TYPE HEX HEX`: how the first of two values is ordered beside the second, whether they are equal, and a copy
//!   of the first;
//! - `number HEX`: the number of the id that a body begins with, 0 where that is none of the standard's;
//! - `node_id TEXT`: the id that a text says, and how it is written, or what is wrong with the text.
//!
//! What is to be printed stands in `stdout`: written by hand from the standard's layouts and the state table, and never
//! from what was printed. The names are put in by `scripts/authoring/name_messages.py`, which knows the standard and none of this code.
#![tactic(auto)]

mod behind;
mod endings;
mod messages;
mod names;
mod node_files;
mod runs;
mod state_table;

use behind::{named, write_behind};
use commands::Machine;
use encoding_examples::write_encoding;
use endings::write_end;
use node_files::write_nodes;
use runs::{write_answers, write_last, write_rows, write_run};
use state_table::write_table;
use std::alloc::{AllocError, Global};
use std::io::Write;
use std::net::Net;
use std::process::ExitCode;
use std::random::RandomSource;
use std::rt::Files;
use std::sync::Wait;
use std::time::Clock;
use std::{env, io};
use store_restoring::NoStores;
use stream_taps::Tap;

// The files of lines, in the order in which they are printed.
const FILES: [&str; 5] = [
    "examples",
    "encoding",
    "conversations",
    "explained",
    "plant_cases",
];

// Runs a command of the program, and gives what it prints.
fn printed<R: Files + AllocGlobal + Net + RandomSource + Clock + Wait>(
    rt: &R,
    words: &[&str],
) -> io::Result<Vec<u8>> {
    let nothing: &[u8] = &[];
    let mut input = Tap::new(nothing);
    let mut output = Tap::new(Vec::new(rt.alloc()));
    let mut errors = Vec::new(rt.alloc());
    let machine = Machine {
        rt,
        stores: &NoStores,
    };
    let ended = commands::run(machine, words, &mut input, &mut output, &mut errors);
    let mut all = output.into_inner();
    write_end(ended.status, errors.as_slice(), &mut all)?;
    Ok(all)
}

fn text_of(bytes: &[u8]) -> &str {
    std::str::from_utf8(bytes).unwrap_or("")
}

// What a run sends: all of it, the bodies of its messages, or the last of these.
fn write_part<R: Files + AllocGlobal + Net + RandomSource + Clock + Wait>(
    rt: &R,
    part: &str,
    nodes: &str,
    scenario: &str,
    output: &mut Vec<u8>,
) -> io::Result<()> {
    let sent = printed(rt, &["run", nodes, scenario])?;
    let sent = text_of(sent.as_slice());
    match part {
        "answers" => write_answers(rt.alloc(), sent, output),
        "last" => write_last(rt.alloc(), sent, output),
        _ => write_run(rt.alloc(), sent, output),
    }
}

// The rows that fire, and what is sent.
fn write_traced<R: Files + AllocGlobal + Net + RandomSource + Clock + Wait>(
    rt: &R,
    nodes: &str,
    scenario: &str,
    output: &mut Vec<u8>,
) -> io::Result<()> {
    let traced = printed(rt, &["trace", nodes, scenario])?;
    let sent = printed(rt, &["run", nodes, scenario])?;
    write_rows(
        rt.alloc(),
        text_of(traced.as_slice()),
        text_of(sent.as_slice()),
        output,
    )
}

// A line whose words are a command, or a part of what commands print.
fn write_command<R: Files + AllocGlobal + Net + RandomSource + Clock + Wait>(
    rt: &R,
    words: &[&str],
    output: &mut Vec<u8>,
) -> io::Result<()> {
    match words {
        ["uaserver"] => output.write_all(printed(rt, &[])?.as_slice()),
        ["state_table"] => write_table(output),
        ["rows", nodes, scenario] => write_traced(rt, nodes, scenario, output),
        [part @ ("run" | "answers" | "last"), nodes, scenario] => {
            write_part(rt, part, nodes, scenario, output)
        }
        command => output.write_all(printed(rt, command)?.as_slice()),
    }
}

fn write_example<R: Files + AllocGlobal + Net + RandomSource + Clock + Wait>(
    rt: &R,
    line: &str,
    output: &mut Vec<u8>,
) -> io::Result<()> {
    if let Some((scenario, last)) = named(line) {
        return write_behind(rt, scenario, last, output);
    }
    let (kind, text) = line.split_once(' ').unwrap_or((line, ""));
    match kind {
        "nodes" => return write_nodes(rt.alloc(), text, false, output),
        "explain" => return write_nodes(rt.alloc(), text, true, output),
        _ => {}
    }
    let words: Vec<&str> = line.split(' ').collect(rt.alloc())?;
    match write_encoding(rt.alloc(), words.as_slice(), output) {
        Some(written) => written,
        None => write_command(rt, words.as_slice(), output),
    }
}

// The lines of a file, each behind a `$`, and what comes of it.
fn write_examples<R: Files + AllocGlobal + Net + RandomSource + Clock + Wait>(
    rt: &R,
    file: &str,
    output: &mut Vec<u8>,
) -> io::Result<()> {
    let examples = std::fs::read_to_string(rt, file)?;
    for line in examples.lines() {
        if !line.starts_with('#') {
            write!(output, "$ {line}\n")?;
            write_example(rt, line, output)?;
        }
    }
    Ok(())
}

// What comes of a line, or of all files where it is empty.
fn transcript<R: Files + AllocGlobal + Net + RandomSource + Clock + Wait>(
    rt: &R,
    line: &str,
) -> io::Result<Vec<u8>> {
    let mut output = Vec::new(rt.alloc());
    if !line.is_empty() {
        write_example(rt, line, &mut output)?;
        return Ok(output);
    }
    for file in FILES {
        write_examples(rt, file, &mut output)?;
    }
    Ok(output)
}

// The words of the command line, behind the program's name, as one line.
fn line_of(alloc: Global, words: &[String]) -> Result<String, AllocError> {
    let mut line = String::new(alloc);
    for word in words.iter().skip(1) {
        if !line.is_empty() {
            line.push(' ')?;
        }
        line.push_str(word.as_str())?;
    }
    Ok(line)
}

fn main(rt: HostRuntime) -> ExitCode {
    let alloc = rt.alloc();
    let Ok(words) = env::args(&rt) else {
        return ExitCode::FAILURE;
    };
    let Ok(words) = words.collect::<Vec<String>>(alloc) else {
        return ExitCode::FAILURE;
    };
    let Ok(line) = line_of(alloc, words.as_slice()) else {
        return ExitCode::FAILURE;
    };
    let Ok(printed) = transcript(&rt, line.as_str()) else {
        return ExitCode::FAILURE;
    };
    if rt.stdout().write_all(printed.as_slice()).is_err() {
        return ExitCode::FAILURE;
    }
    ExitCode::SUCCESS
}

//! Calls of the libraries that no command of `uaserver` makes, as a transcript: each line of the file `lines` in `data` is printed
//! behind a `$`, and then what comes of it. The words `lines FILE` behind the program's name say another file of lines; other words are
//! one line, and only what comes of it is printed.
//!
//! - `again OBJECT`: what calls on it give, each of which is made again where memory ran out ([`again`]);
//! - `benchmark NAME ROUNDS`: what is counted of a benchmark ([`benchmarks`]); the times go to standard error.
//!
//! What is to be printed stands in `stdout`, written by hand.
#![tactic(auto)]

mod again;
mod benchmarks;

use again::write_again;
use std::alloc::Global;
use std::env;
use std::io::{self, ErrorKind, Write};
use std::process::ExitCode;

// What comes of the words of a line. Of a line whose memory ran out nothing is printed.
fn run(rt: &HostRuntime, words: &[&str]) -> io::Result<()> {
    match words {
        ["again", object] => {
            let mut output = Vec::new(rt.alloc());
            write_again(rt, object, &mut output)?;
            rt.stdout().write_all(output.as_slice())
        }
        ["benchmark", name, rounds] => match rounds.parse::<u32>() {
            Ok(rounds) => benchmarks::run(rt, name, rounds),
            Err(_) => Err(io::Error::from(ErrorKind::InvalidInput)),
        },
        _ => Err(io::Error::from(ErrorKind::InvalidInput)),
    }
}

// The lines of a file, each behind a `$`, and what comes of it.
fn run_lines(rt: &HostRuntime, file: &str) -> io::Result<()> {
    let lines = std::fs::read_to_string(rt, file)?;
    for line in lines.lines() {
        writeln!(rt.stdout(), "$ {line}")?;
        let words: Vec<&str> = line.split(' ').collect(rt.alloc())?;
        run(rt, words.as_slice())?;
    }
    Ok(())
}

// What the words behind the program's name ask for.
fn run_asked(rt: &HostRuntime, words: &[&str]) -> io::Result<()> {
    match words {
        [] => run_lines(rt, "lines"),
        ["lines", file] => run_lines(rt, file),
        line => run(rt, line),
    }
}

fn run_program(rt: &HostRuntime, alloc: Global) -> io::Result<()> {
    let words: Vec<String> = env::args(rt)?.skip(1).collect(alloc)?;
    let words: Vec<&str> = words.iter().map(String::as_str).collect(alloc)?;
    run_asked(rt, words.as_slice())
}

fn main(rt: HostRuntime) -> ExitCode {
    match run_program(&rt, rt.alloc()) {
        Ok(()) => ExitCode::SUCCESS,
        Err(_) => ExitCode::FAILURE,
    }
}

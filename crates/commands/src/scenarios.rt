//! What the commands do that take a scenario.

ghost use Rattle.std.specs.Prelude.{◌≡◌};
ghost use Rattle.scenario_run.specs.Assembly.{events_of};
ghost use Rattle.scenario_run.specs.Held.{place};
ghost use Rattle.commands.specs.Scenarios.{AssembledBy, Assembles, AssemblesFile, Tells, TellsFile, TellsFiles, status_printed, status_told};

use crate::exit_status::ExitStatus;
use crate::program::{Ended, no_memory, nodes_in, read_file, step_fault, stream};
use crate::text_file::TextFile;
use scenario_run::{Lines, PrintFault, RunFault, assemble, print_events, print_run};
use scenario_text::Cause;
use server_core::{Event, Server};
use std::alloc::Global;
use std::io::Write;
use std::rt::Files;
use stream_taps::Tap;
use ua_space::Space;
use ua_types::{Config, Listed};

/// What is to be told of a server to which a scenario happens.
#[derive(Clone, Copy)]
pub(crate) struct Telling<'a> {
    /// The lines that are to be printed.
    pub(crate) lines: Lines,

    /// The path of the scenario, or its text once that is read.
    pub(crate) scenario: &'a str,
}

// The events of a scenario, or the status of why there are none.
fn events_in<E: Write>(
    alloc: Global,
    text: &str,
    errors: &mut E,
) -> Result<Listed<Event>, ExitStatus>
    ensures { AssembledBy result (events_of text.now) }
{
    match assemble(alloc, text) {
        Ok(events) => Ok(events),
        Err(fault) if fault.cause == Cause::Memory => Err(no_memory(errors)),
        Err(fault) => {
            let _ = writeln!(errors, "scenario: {fault}");
            Err(ExitStatus::Scenario)
        }
    }
}

// How printing ends the program.
fn printed<E: Write>(done: Result<(), PrintFault>, errors: &mut E) -> ExitStatus
    ensures { result ≡ status_printed done }
{
    match done {
        Ok(()) => ExitStatus::Done,
        Err(PrintFault::Write) => stream(errors),
        Err(PrintFault::Memory) => no_memory(errors),
    }
}

/// Prints the events that a scenario comes to, a line for each.
///
/// `Scenario` comes where the scenario has a bad line, and nothing is printed then. `Halted` comes where
/// memory ran out, and the lines of the events before that for which there was no room are out, or none.
/// `Stream` comes where a call of the output failed, and a part of the lines may be out, from their
/// beginning on.
pub fn asm<O: Write, E: Write>(
    alloc: Global,
    text: &str,
    output: &mut Tap<O>,
    errors: &mut E,
) -> ExitStatus
    ensures { Assembles (place O.contents output.old) (place O.contents output.new) (events_of text.now) result }
{
    match events_in(alloc, text, errors) {
        Ok(events) => {
            let done = print_events(alloc, events.as_slice(), output);
            printed(done, errors)
        }
        Err(status) => status,
    }
}

/// `asm` of the scenario at this path.
pub(crate) fn asm_at<R: Files + AllocGlobal, O: Write, E: Write>(
    rt: &R,
    path: &str,
    output: &mut Tap<O>,
    errors: &mut E,
) -> Ended
    ensures { AssemblesFile (place O.contents output.old) (place O.contents output.new) path.now result.status result.scenario }
{
    match read_file(rt, path, errors) {
        Ok(file) => Ended {
            status: asm(rt.alloc(), file.text(), output, errors),
            file: None,
            scenario: Some(file),
        },
        Err(status) => Ended::by(status),
    }
}

// How a run of events ends the program.
fn told<E: Write>(ran: Result<(), RunFault>, errors: &mut E) -> ExitStatus
    ensures { result ≡ status_told ran }
{
    match ran {
        Ok(()) => ExitStatus::Done,
        Err(RunFault::Write) => stream(errors),
        Err(RunFault::Memory) => no_memory(errors),
        Err(RunFault::Step(fault)) => step_fault(fault, errors),
    }
}

// Hands the events of a scenario, of which the text is given, to a server of this configuration and address space, and
// prints lines of what it does.
fn run<O: Write, E: Write>(
    alloc: Global,
    telling: Telling<'_>,
    made: (Config, Space),
    output: &mut Tap<O>,
    errors: &mut E,
) -> ExitStatus
    ensures { Tells telling.entry.lines (place O.contents output.old) (place O.contents output.new) made (events_of telling.entry.scenario.now) result }
{
    match events_in(alloc, telling.scenario, errors) {
        Ok(events) => {
            let (config, space) = made;
            let Ok(mut server) = Server::new(alloc, config, space) else {
                return no_memory(errors);
            };
            let ran = print_run(telling.lines, &mut server, events.as_slice(), output);
            told(ran, errors)
        }
        Err(status) => status,
    }
}

// `run` of what was made, with the scenario at the path that `telling` has.
fn run_with<R: Files + AllocGlobal, O: Write, E: Write>(
    rt: &R,
    telling: Telling<'_>,
    made: (Config, Space),
    output: &mut Tap<O>,
    errors: &mut E,
) -> (ExitStatus, Option<TextFile>)
    ensures { TellsFile telling.entry.lines (place O.contents output.old) (place O.contents output.new) made telling.entry.scenario.now result.0 result.1 }
{
    match read_file(rt, telling.scenario, errors) {
        Ok(file) => {
            let read = Telling {
                lines: telling.lines,
                scenario: file.text(),
            };
            let status = run(rt.alloc(), read, made, output, errors);
            (status, Some(file))
        }
        Err(status) => (status, None),
    }
}

/// Tells what is to be told of the scenario at a path, on a server of the node file at another.
pub(crate) fn run_at<R: Files + AllocGlobal, O: Write, E: Write>(
    rt: &R,
    nodes: &str,
    telling: Telling<'_>,
    output: &mut Tap<O>,
    errors: &mut E,
) -> Ended
    ensures { TellsFiles telling.entry.lines (place O.contents output.old) (place O.contents output.new) nodes.now telling.entry.scenario.now
        result.status result.file result.scenario }
{
    let file = match read_file(rt, nodes, errors) {
        Ok(file) => file,
        Err(status) => return Ended::by(status),
    };
    match nodes_in(rt.alloc(), file.text(), errors) {
        Ok(made) => {
            let (status, told) = run_with(rt, telling, made, output, errors);
            Ended {
                status,
                file: Some(file),
                scenario: told,
            }
        }
        Err(status) => Ended::with_nodes(status, file),
    }
}

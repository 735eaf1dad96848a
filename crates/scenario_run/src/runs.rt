//! Events that happen to a server, and what it does, printed.

ghost use Rattle.std.specs.Prelude.{◌≡◌, ◌<◌, false, [], OnOk, string_bytes};
ghost use Rattle.server_core.specs.World.{world_of};
ghost use Rattle.scenario_run.specs.Held.{Holds, place};
ghost use Rattle.scenario_run.specs.Runs.{RunPrinted, fault_of, is_cut_short, step_lines as step_lines_spec};
ghost use Rattle.scenario_run.specs.declared.runs.Lines.TheVariants.{Rows};

use crate::held::{MOST_HELD, PrintFault, hold, put_held};
use crate::texts::step_lines;
use server_core::{Event, Server, Step, StepFault};
use std::alloc::Global;
use std::io::Write;
use stream_taps::Tap;
use thiserror::Error;

/// Which lines are printed of what a server does.
#[derive(Clone, Copy)]
pub enum Lines {
    /// One for each thing that is to be done: `send C HEX` and `close C`, with lower-case hex digits. They are held
    /// until they are many.
    Outs,
    /// One for each row of the subscriptions' state table that fired. Those of an event are written as it is answered,
    /// by one write where the stream takes them whole, and flushed.
    Rows,
}

/// Why a run ended before its events did.
#[derive(Clone, Copy, Debug, PartialEq, Eq, Error)]
pub enum RunFault {
    /// A write or a flush failed. A part of the lines may be out, from their beginning on.
    #[error("a write failed")]
    Write,
    /// The server didn't answer an event. The lines of the events before it are out.
    #[error("the server did not answer")]
    Step(StepFault),
    /// There was no room for the lines of the event that the server answered last. The lines before are
    /// out.
    #[error("out of memory")]
    Memory,
}

impl From<PrintFault> for RunFault {
    ghost from_gives = { λ print fault. fault ≡ fault_of print };

    fn from(fault: PrintFault) -> RunFault {
        match fault {
            PrintFault::Write => RunFault::Write,
            PrintFault::Memory => RunFault::Memory,
        }
    }
}

// Did a write fail?
fn is_cut_short(ran: &Result<(), RunFault>) -> bool
    ensures { result ≡ is_cut_short ran.now }
{
    matches!(ran, Err(RunFault::Write))
}

// From so many bytes on, such lines are written.
fn most_held(lines: Lines) -> usize
    ensures some { 0 < result }
    ensures rows { lines ≡ Rows → result ≡ 1 }
{
    match lines {
        Lines::Outs => MOST_HELD,
        Lines::Rows => 1,
    }
}

// The lines of a step that came of the event of this number, held.
fn hold_step<W: Write>(
    alloc: Global,
    lines: Lines,
    number: u64,
    step: &Step,
    writer: &mut Tap<W>,
    held: &mut String,
) -> Result<(), PrintFault>
    ensures holds { Holds result (place W.contents writer.old) (place W.contents writer.new)
        (string_bytes held.old) (step_lines_spec lines number step.now) (string_bytes held.new) }
    ensures rows { OnOk result (lines ≡ Rows → string_bytes held.new ≡ []) }
{
    let text = step_lines(alloc, lines, number, step)?;
    hold(writer, held, text.as_str(), most_held(lines))
}

// A run whose last lines may still be held.
fn hold_run<W: Write>(
    lines: Lines,
    server: &mut Server,
    events: &[Event],
    writer: &mut Tap<W>,
    held: &mut String,
) -> Result<(), RunFault>
    requires { string_bytes held.old ≡ [] }
    ensures printed { RunPrinted lines result (world_of server.old) (world_of server.new) (place W.contents writer.old)
        (place W.contents writer.new) events.now (string_bytes held.new) }
    ensures rows { lines ≡ Rows → is_cut_short result ≡ false → string_bytes held.new ≡ [] }
{
    let alloc = server.allocator();
    let mut number: u64 = 0;
    for event in events {
        number += 1;
        match server.step(event) {
            Ok(step) => {
                if let Err(fault) = hold_step(alloc, lines, number, &step, writer, held) {
                    return Err(RunFault::from(fault));
                }
            }
            Err(fault) => return Err(RunFault::Step(fault)),
        }
    }
    Ok(())
}

/// Hands the events to the server, one after the other, and writes these lines of what it does. The events count
/// from 1.
///
/// At a fault the lines of all that was answered before it are out, unless the writer failed.
pub fn print_run<W: Write>(
    lines: Lines,
    server: &mut Server,
    events: &[Event],
    writer: &mut Tap<W>,
) -> Result<(), RunFault>
    ensures { RunPrinted lines result (world_of server.old) (world_of server.new) (place W.contents writer.old) (place W.contents writer.new) events.now [] }
{
    let mut held = String::new(server.allocator());
    let ran = hold_run(lines, server, events, writer, &mut held);
    if is_cut_short(&ran) {
        return ran;
    }
    if held.is_empty() {
        return ran;
    }
    if put_held(writer, &mut held).is_err() {
        return Err(RunFault::Write);
    }
    ran
}

//! Events, what is sent and which rows fire, as lines.

ghost use Rattle.std.specs.Prelude.{◌≡◌, IfOk, string_bytes};
ghost use Rattle.scenario_run.specs.Texts.{event_line, out_line, outs_lines};
ghost use Rattle.scenario_run.specs.TraceText.{rows_text};
ghost use Rattle.scenario_run.specs.Runs.{step_lines};

use crate::runs::Lines;
use crate::trace_text::append_lines;
use server_core::{Event, Fired, Out, Step};
use std::alloc::{AllocError, Global};
use ua_types::Moment;

/// The line of an event, with its newline.
#[tactic(auto, unfolding(crate::specs::Texts::event_line))]
pub(crate) fn event_line(alloc: Global, event: &Event) -> Result<String, AllocError>
    ensures { IfOk result (λ line. string_bytes line ≡ event_line event.now) }
{
    match event {
        Event::Opened { conn, key } => {
            let key = hex::encode(alloc, key.as_slice())?;
            format!(in alloc; "open {conn} {key}\n")
        }
        Event::Bytes { conn, bytes } => {
            let bytes = hex::encode(alloc, bytes.as_slice())?;
            format!(in alloc; "bytes {conn} {bytes}\n")
        }
        Event::Gone { conn } => format!(in alloc; "gone {conn}\n"),
        Event::Tick { now } => {
            let moment: i64 = now.0;
            format!(in alloc; "tick {moment}\n")
        }
        Event::Shutdown => format!(in alloc; "shutdown\n"),
    }
}

// The line of one thing that is to be done.
#[tactic(auto, unfolding(crate::specs::Texts::out_line))]
fn out_line(alloc: Global, out: &Out) -> Result<String, AllocError>
    ensures { IfOk result (λ line. string_bytes line ≡ out_line out.now) }
{
    match out {
        Out::Send { conn, bytes } => {
            let bytes = hex::encode(alloc, bytes.as_slice())?;
            format!(in alloc; "send {conn} {bytes}\n")
        }
        Out::Close { conn } => format!(in alloc; "close {conn}\n"),
    }
}

// A line for each thing that is to be done, in order.
fn outs_lines(alloc: Global, outs: &[Out]) -> Result<String, AllocError>
    ensures { IfOk result (λ lines. string_bytes lines ≡ outs_lines outs.now) }
{
    let mut lines = String::new(alloc);
    for out in outs {
        let line = out_line(alloc, out)?;
        lines.push_str(line.as_str())?;
    }
    Ok(lines)
}

// A line for each row that fired at the event of this number.
fn rows_lines(alloc: Global, number: u64, rows: &[Fired]) -> Result<String, AllocError>
    ensures { IfOk result (λ lines. string_bytes lines ≡ rows_text number rows.now) }
{
    let mut lines = String::new(alloc);
    append_lines(&mut lines, number, rows)?;
    Ok(lines)
}

/// The lines of a step that came of the event of this number.
pub(crate) fn step_lines(
    alloc: Global,
    lines: Lines,
    number: u64,
    step: &Step,
) -> Result<String, AllocError>
    ensures { IfOk result (λ text. string_bytes text ≡ step_lines lines number step.now) }
{
    match lines {
        Lines::Outs => outs_lines(alloc, step.outs.as_slice()),
        Lines::Rows => rows_lines(alloc, number, step.rows.as_slice()),
    }
}

//! The events of a scenario, printed.

ghost use Rattle.std.specs.Prelude.{◌≡◌, [], string_bytes};
ghost use Rattle.scenario_run.specs.Held.{EventsPrinted, Holds, place};
ghost use Rattle.scenario_run.specs.Texts.{event_line as event_line_spec};

use crate::held::{MOST_HELD, PrintFault, hold, put_held};
use crate::texts::event_line;
use server_core::Event;
use std::alloc::Global;
use std::io::Write;
use stream_taps::Tap;

// The line of one event, held.
fn hold_event<W: Write>(
    alloc: Global,
    event: &Event,
    writer: &mut Tap<W>,
    held: &mut String,
) -> Result<(), PrintFault>
    ensures { Holds result (place W.contents writer.old) (place W.contents writer.new)
        (string_bytes held.old) (event_line_spec event.now) (string_bytes held.new) }
{
    let line = event_line(alloc, event)?;
    hold(writer, held, line.as_str(), MOST_HELD)
}

// Lines of events, the last of which may still be held.
fn hold_events<W: Write>(
    alloc: Global,
    events: &[Event],
    writer: &mut Tap<W>,
    held: &mut String,
) -> Result<(), PrintFault>
    requires { string_bytes held.old ≡ [] }
    ensures { EventsPrinted result (place W.contents writer.old) (place W.contents writer.new) events.now (string_bytes held.new) }
{
    for event in events {
        if let Err(fault) = hold_event(alloc, event, writer, held) {
            return Err(fault);
        }
    }
    Ok(())
}

/// Writes a line for each event: `open C KEY`, `bytes C HEX`, `gone C` and `tick M`, with lower-case hex
/// digits.
///
/// At `Memory` the lines of the events before that for which there was no room are out.
pub fn print_events<W: Write>(
    alloc: Global,
    events: &[Event],
    writer: &mut Tap<W>,
) -> Result<(), PrintFault>
    ensures { EventsPrinted result (place W.contents writer.old) (place W.contents writer.new) events.now [] }
{
    let mut held = String::new(alloc);
    match hold_events(alloc, events, writer, &mut held) {
        Ok(()) => put_held(writer, &mut held),
        Err(PrintFault::Memory) => {
            if put_held(writer, &mut held).is_err() {
                return Err(PrintFault::Write);
            }
            Err(PrintFault::Memory)
        }
        Err(PrintFault::Write) => Err(PrintFault::Write),
    }
}

//! The rows that fired at one event, printed.

ghost use Rattle.scenario_run.specs.Held.{Puts, place};
ghost use Rattle.scenario_run.specs.TraceText.{rows_text};

use crate::held::{PrintFault, put_held};
use crate::trace_text::append_lines;
use server_core::Fired;
use std::io::Write;
use stream_taps::Tap;

/// Writes the lines of the rows that fired at the event of this number, by one write where the stream takes
/// them whole, and flushes them. The text is room for them.
pub fn put_rows<W: Write>(
    text: &mut String,
    number: u64,
    rows: &[Fired],
    writer: &mut Tap<W>,
) -> Result<(), PrintFault>
    ensures { Puts result (place W.contents writer.old) (place W.contents writer.new) (rows_text number rows.now) }
{
    text.clear();
    append_lines(text, number, rows)?;
    put_held(writer, text)
}

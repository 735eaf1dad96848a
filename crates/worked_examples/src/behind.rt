//! Lines `behind SCENARIO LINE`.

use crate::endings::write_end;
use std::alloc::Global;
use std::io::Write;
use std::rt::Files;
use std::{fs, io};
use stream_taps::Tap;

/// The scenario and the line that are named there.
pub(crate) fn named(line: &str) -> Option<(&str, &str)> {
    line.strip_prefix("behind ")?.split_once(' ')
}

// Writes what `asm` prints of the text of a scenario, and how it ends.
fn write_assembled(alloc: Global, text: &str, output: &mut Vec<u8>) -> io::Result<()> {
    let mut lines = Tap::new(Vec::new(alloc));
    let mut errors = Vec::new(alloc);
    let status = commands::asm(alloc, text, &mut lines, &mut errors);
    output.write_all(lines.into_inner().as_slice())?;
    write_end(status, errors.as_slice(), output)
}

/// Writes what `asm` says to this line behind the lines of a scenario.
pub(crate) fn write_behind<R: Files + AllocGlobal>(
    rt: &R,
    scenario: &str,
    line: &str,
    output: &mut Vec<u8>,
) -> io::Result<()> {
    let mut text = fs::read_to_string(rt, scenario)?;
    text.push_str(line)?;
    write_assembled(rt.alloc(), text.as_str(), output)
}

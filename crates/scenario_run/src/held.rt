//! Lines on their way to a writer.

ghost use Rattle.std.specs.Prelude.{◌≡◌, ◌<◌, [], length, MatchResult, OnOk, string_bytes};
ghost use Rattle.scenario_run.specs.Held.{CutShort, Holds, Printed, place};
ghost use Rattle.scenario_run.specs.declared.held.PrintFault.TheVariants.{Memory};

use std::alloc::AllocError;
use std::io::Write;
use stream_taps::{Tap, put_bytes};
use thiserror::Error;

/// From so many bytes on, lines that needn't be out at once are written.
pub(crate) const MOST_HELD: usize = 65_536;

/// Why not all lines are out.
#[derive(Clone, Copy, Debug, PartialEq, Eq, Error)]
pub enum PrintFault {
    /// A write or a flush failed. A part of the lines may be out, from their beginning on.
    #[error("a write failed")]
    Write,
    /// An allocation failed. The lines before are out.
    #[error("out of memory")]
    Memory,
}

impl From<AllocError> for PrintFault {
    ghost from_gives = { λ _ fault. fault ≡ Memory };

    fn from(_e: AllocError) -> PrintFault {
        PrintFault::Memory
    }
}

/// Writes all that is held.
pub(crate) fn put_held<W: Write>(writer: &mut Tap<W>, held: &mut String) -> Result<(), PrintFault>
    ensures { let old = place W.contents writer.old in
        let new = place W.contents writer.new in
        MatchResult result (λ _. Printed old new (string_bytes held.old) (string_bytes held.new) × (string_bytes held.new ≡ []))
        (λ fault. (fault ≡ PrintFault.Write) × CutShort old new (string_bytes held.old)) }
{
    let bytes = held.as_str().as_bytes();
    let count = put_bytes(writer, bytes);
    if count < bytes.len() {
        return Err(PrintFault::Write);
    }
    if writer.flush().is_err() {
        return Err(PrintFault::Write);
    }
    held.clear();
    Ok(())
}

/// Holds some lines, and writes all that is held once it is so much.
pub(crate) fn hold<W: Write>(
    writer: &mut Tap<W>,
    held: &mut String,
    lines: &str,
    most: usize,
) -> Result<(), PrintFault>
    requires { 0 < most }
    ensures holds { Holds result (place W.contents writer.old) (place W.contents writer.new)
        (string_bytes held.old) lines.now (string_bytes held.new) }
    ensures few { OnOk result (length (string_bytes held.new) < most) }
{
    held.push_str(lines)?;
    if held.len() < most {
        return Ok(());
    }
    put_held(writer, held)
}

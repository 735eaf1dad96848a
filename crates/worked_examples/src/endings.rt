//! How a command ends.

use commands::ExitStatus;
use std::io;
use std::io::Write;

/// Writes how a command ended and what it said to standard error, behind what it said to standard output: nothing where it
/// is done and said nothing there.
pub(crate) fn write_end(status: ExitStatus, errors: &[u8], output: &mut Vec<u8>) -> io::Result<()> {
    let code = status.code();
    if code == 0 && errors.is_empty() {
        return Ok(());
    }
    write!(output, "status {code}\n")?;
    output.write_all(errors)
}

//! Lines `nodes TEXT` and `explain TEXT`: what the command `check` says of a node file of this text, in which `\n` stands for the end of
//! a line, and what it explains below that.

use std::alloc::Global;
use std::io;
use std::io::Write;
use stream_taps::Tap;

/// Writes what `check` says of a text in which `\n` stands for the end of a line, and what it explains where it is to.
pub(crate) fn write_nodes(
    alloc: Global,
    inline: &str,
    explains: bool,
    output: &mut Vec<u8>,
) -> io::Result<()> {
    let text = inline.replace(alloc, "\\n", "\n")?;
    let mut said = Tap::new(Vec::new(alloc));
    let mut errors = Vec::new(alloc);
    let status = commands::check(alloc, text.as_str(), &mut said, &mut errors);
    if explains {
        commands::explain(alloc, text.as_str(), status, &mut errors);
    }
    output.write_all(said.into_inner().as_slice())?;
    output.write_all(errors.as_slice())
}

//! What is told while the program serves, line by line.

use jiff::Timestamp;
use std::alloc::Global;
use std::io;
use std::io::Write;
use std::time::Clock;

/// Writes lines, each behind the moment at which it was begun, in UTC: `2026-11-29T08:12:31.123Z connection 3 from 10.0.0.9:51344`.
///
/// A line is written in one piece, once it is whole. One that can't be written is lost, and so is one for which there is no memory.
#[derive(Drop)]
pub struct Log<'a, 'b, R, E> {
    clock: &'a R,
    errors: &'b mut E,
    // What came of the line whose end isn't there yet, behind its moment.
    line: Vec<u8>,
}

impl<'a, 'b, R, E> Log<'a, 'b, R, E> {
    /// No line is begun.
    pub fn new(alloc: Global, clock: &'a R, errors: &'b mut E) -> Log<'a, 'b, R, E> {
        Log {
            clock,
            errors,
            line: Vec::new(alloc),
        }
    }
}

impl<R, E> Log<'_, '_, R, E> {
    // Whose clock it is.
    pub(crate) fn machine(&self) -> &R {
        self.clock
    }
}

// Begins a line. A clock that can't be read has no moment.
fn put_moment<R: Clock>(clock: &R, line: &mut Vec<u8>) -> io::Result<()> {
    match Timestamp::now(clock) {
        Ok(now) => write!(line, "{now:.3} "),
        Err(_) => Ok(()),
    }
}

impl<R: Clock, E: Write> Write for Log<'_, '_, R, E> {
    fn write(&mut self, bytes: &[u8]) -> io::Result<usize> {
        if self.line.is_empty() {
            put_moment(self.clock, &mut self.line)?;
        }
        self.line.write_all(bytes)?;
        if bytes.ends_with(b"\n") {
            let written = self.errors.write_all(self.line.as_slice());
            self.line.clear();
            written?;
        }
        Ok(bytes.len())
    }

    fn flush(&mut self) -> io::Result<()> {
        self.errors.flush()
    }
}

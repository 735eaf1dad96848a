//! A reader or writer that counts the calls that failed.

ghost use Rattle.std.specs.Prelude.{◌≡◌, ◌≢◌, true, false, ℕ, ◌<◌, ◌≤◌, length, nat_lt, take, is_err};
ghost use Rattle.std.specs.IoError.{error_kind};
ghost use Rattle.std.specs.Io.{ReadsAtMost, WritesAtMost};
ghost use Rattle.std.specs.Io.KnownBytes.{Appends, Keeps, ReadConsumes, WriteAppends};
ghost use Rattle.stream_taps.specs.Tapped.{Rose, counted, untouched, CountsFailure, CountsError};

use std::io;
use std::io::{ErrorKind, Read, Write};
use std::marker::Model;

/// A reader or a writer, with a count of its calls that failed, and one of those that were interrupted.
///
/// Each read, write and flush is passed on to the stream, and its answer passed back. A read or a write that
/// is interrupted may be made again, and isn't counted as failed. Each other call that answers an error is, and
/// so is a write that takes no byte of a piece that has some.
///
/// Contracts see the stream and the counts.
#[derive(Debug, Drop)]
pub struct Tap<S> {
    stream: S,
    // How many calls on the stream failed. It stays at its last value.
    failures: u64,
    // How many reads and writes were interrupted. It stays at its last value.
    interruptions: u64,
}

impl<S> Model for Tap<S> {
    ghost use Rattle.stream_taps.specs.Tapped.{Tapped, tapped_code};

    ghost Value = { Tapped S };

    ghost view = { λ t. record { stream = t.stream; failures = t.failures; interruptions = t.interruptions } };
}

impl<S> Tap<S> {
    /// A tap on `stream`, on which no call has failed.
    pub fn new(stream: S) -> Tap<S>
        ensures { result ≡ untouched stream }
    {
        Tap {
            stream,
            failures: 0,
            interruptions: 0,
        }
    }

    /// How many calls failed. The count stays at the last number of its type.
    pub fn failures(&self) -> u64
        ensures { result ≡ self.now.failures }
    {
        self.failures
    }

    /// How many reads and writes were interrupted. The count stays at the last number of its type.
    pub fn interruptions(&self) -> u64
        ensures { result ≡ self.now.interruptions }
    {
        self.interruptions
    }

    /// The stream itself.
    pub fn into_inner(self) -> S
        ensures { result ≡ self.stream }
    {
        let Tap {
            stream,
            failures: _,
            interruptions: _,
        } = self;
        stream
    }

    // Counts a call that failed.
    fn count_if(&mut self, failed: bool)
        ensures counts { CountsFailure failed self.old self.new }
        ensures stream { self.new.stream ≡ self.old.stream }
    {
        if failed {
            self.failures = self.failures.saturating_add(1);
        }
    }

    // Counts a call that answered this.
    fn count_error(&mut self, error: &io::Error)
        ensures counts { CountsError error.now self.old self.new }
        ensures stream { self.new.stream ≡ self.old.stream }
    {
        if is_interruption(error) {
            self.interruptions = self.interruptions.saturating_add(1);
        } else {
            self.count_if(true);
        }
    }
}

impl<R: Read> Read for Tap<R> {
    ghost use Rattle.stream_taps.specs.Tapped.{CountsRead};

    ghost remaining = { λ t. R.remaining t.stream };

    fn read(&mut self, buf: &mut [u8]) -> io::Result<usize>
        ensures bound { ReadsAtMost result buf.new }
        ensures bytes { ReadConsumes (R.remaining self.old.stream) (R.remaining self.new.stream) result buf.new }
        ensures counts { CountsRead result self.old self.new }
    {
        let result = self.stream.read(buf);
        if let Err(error) = &result {
            self.count_error(error);
        }
        result
    }
}

impl<W: Write> Write for Tap<W> {
    ghost use Rattle.stream_taps.specs.Tapped.{CountsWrite};

    ghost contents = { λ t. W.contents t.stream };

    fn write(&mut self, buf: &[u8]) -> io::Result<usize>
        ensures bound { WritesAtMost result buf.now }
        ensures bytes { WriteAppends (W.contents self.old.stream) (W.contents self.new.stream) result buf.now }
        ensures counts { CountsWrite result (length buf.now) self.old self.new }
    {
        let result = self.stream.write(buf);
        match &result {
            Ok(count) => self.count_if(*count == 0 && !buf.is_empty()),
            Err(error) => self.count_error(error),
        }
        result
    }

    fn flush(&mut self) -> io::Result<()>
        ensures bytes { Keeps (W.contents self.old.stream) (W.contents self.new.stream) }
        ensures counts { self.new.failures ≡ counted self.old.failures (is_err result) }
    {
        let result = self.stream.flush();
        self.count_if(result.is_err());
        result
    }
}

/// Whether a call that answered this error was only interrupted, and may be made again.
pub fn is_interruption(error: &io::Error) -> bool
    ensures yes { result ≡ true → error_kind error.now ≡ ErrorKind.Interrupted }
    ensures no { result ≡ false → error_kind error.now ≢ ErrorKind.Interrupted }
{
    error.kind() == ErrorKind::Interrupted
}

/// Writes the bytes, and says how many of them went out, from the first on.
///
/// A write that is interrupted is made again, and no other one that failed: fewer than all went out only
/// where the last write failed, which the tap counted, once. One that is interrupted without end counts as failed.
pub fn put_bytes<W: Write>(writer: &mut Tap<W>, bytes: &[u8]) -> usize
    ensures count { result ≤ length bytes.now }
    ensures written { Appends (W.contents writer.old.stream) (W.contents writer.new.stream) (take result bytes.now) }
    ensures once { writer.new.failures ≡ counted writer.old.failures (nat_lt result (length bytes.now)) }
    ensures failed { result < length bytes.now → Rose writer.old.failures writer.new.failures }
    ensures failures { writer.old.failures ≤ writer.new.failures }
{
    let mut done = 0;
    for _turn in 0..u64::MAX {
        if done == bytes.len() {
            return done;
        }
        match writer.write(&bytes[done..]) {
            Ok(0) => return done,
            Ok(n) => done += n,
            Err(e) => {
                if !is_interruption(&e) {
                    return done;
                }
            }
        }
    }
    writer.count_if(done < bytes.len());
    done
}

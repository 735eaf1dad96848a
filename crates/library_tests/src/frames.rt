//! Streams that fail.

use crate::holding::holds;
use std::io;
use std::io::{ErrorKind, Read, Write};
use std::test::*;
use stream_taps::{Tap, put_bytes};

// Writes down each call that reaches it by two digits, 10 and the size of a read, 20 and that of a write, 30 for a flush,
// and fails at one of them, the first being 1.
#[derive(Drop)]
struct Recorder {
    digits: u64,
    calls: u64,
    fails_at: u64,
}

impl Recorder {
    fn record(&mut self, call: u64) -> io::Result<()> {
        self.digits = self.digits.wrapping_mul(100).wrapping_add(call);
        self.calls = self.calls.wrapping_add(1);
        if self.calls == self.fails_at {
            return Err(ErrorKind::BrokenPipe.into());
        }
        Ok(())
    }
}

impl Read for Recorder {
    fn read(&mut self, buf: &mut [u8]) -> io::Result<usize> {
        self.record((buf.len() as u64).wrapping_add(10))?;
        Ok(buf.len().min(1))
    }
}

impl Write for Recorder {
    fn write(&mut self, buf: &[u8]) -> io::Result<usize> {
        self.record((buf.len() as u64).wrapping_add(20))?;
        Ok(buf.len().min(1))
    }

    fn flush(&mut self) -> io::Result<()> {
        self.record(30)
    }
}

#[test]
fn a_tap_passes_each_call_on(rt: HostRuntime) {
    for fails_at in 1..5 {
        let mut tap = Tap::new(Recorder {
            digits: 0,
            calls: 0,
            fails_at,
        });
        let mut piece = [0; 3];
        holds(
            &rt,
            "read",
            tap.read(&mut piece).is_err() == (fails_at == 1),
        );
        holds(&rt, "at first", (tap.failures() == 1) == (fails_at == 1));
        holds(&rt, "write", tap.write(b"ab").is_err() == (fails_at == 2));
        holds(&rt, "no byte", tap.write(b"").is_err() == (fails_at == 3));
        holds(&rt, "then", (tap.failures() == 0) == (fails_at == 4));
        holds(&rt, "flush", tap.flush().is_err() == (fails_at == 4));
        holds(&rt, "at last", tap.failures() == 1);
        holds(&rt, "calls", tap.into_inner().digits == 13_22_20_30);
    }
}

// Takes a byte a call, and at one call takes none or fails, the first being 1. What it took is a number of 256 digits.
#[derive(Drop)]
struct Sink {
    taken: u64,
    calls: usize,
    fails_at: usize,
    kind: Option<ErrorKind>,
}

impl Write for Sink {
    fn write(&mut self, buf: &[u8]) -> io::Result<usize> {
        self.calls = self.calls.wrapping_add(1);
        if self.calls == self.fails_at {
            return match self.kind {
                Some(kind) => Err(kind.into()),
                None => Ok(0),
            };
        }
        match buf.first() {
            Some(byte) => {
                self.taken = self.taken.wrapping_mul(256).wrapping_add(u64::from(*byte));
                Ok(1)
            }
            None => Ok(0),
        }
    }

    fn flush(&mut self) -> io::Result<()> {
        Ok(())
    }
}

// The first bytes of `hello`, as such numbers.
const FIRST: [u64; 6] = [0, 0x68, 0x6865, 0x68_656c, 0x6865_6c6c, 0x68_656c_6c6f];

// Whether so many of five bytes go out to a stream that fails so. One failure is counted where it was the last call, and one
// interruption where it wasn't; and none where all five went out before.
fn goes_out(fails_at: usize, kind: Option<ErrorKind>, due: usize) -> bool {
    let mut writer = Tap::new(Sink {
        taken: 0,
        calls: 0,
        fails_at,
        kind,
    });
    let count = put_bytes(&mut writer, b"hello");
    let is_interrupted = kind == Some(ErrorKind::Interrupted);
    let met = u64::from(fails_at < 6);
    let counts = if is_interrupted { (0, met) } else { (met, 0) };
    let is_counted = (writer.failures(), writer.interruptions()) == counts;
    let taken = writer.into_inner().taken;
    count == due && is_counted && FIRST.get(due) == Some(&taken)
}

#[test]
fn bytes_go_out_up_to_a_failure(rt: HostRuntime) {
    let interrupted = Some(ErrorKind::Interrupted);
    for before in 0..6 {
        holds(&rt, "none", goes_out(before + 1, None, before));
        let kind = Some(ErrorKind::BrokenPipe);
        holds(&rt, "broken", goes_out(before + 1, kind, before));
        holds(&rt, "interrupted", goes_out(before + 1, interrupted, 5));
    }
}

//! Streams that give and take a few bytes at a time, and fail.

use crate::bytes_due::{ANSWERS, REQUESTS};
use crate::events::{base_server, opened};
use crate::holding::holds;
use server_core::Server;
use std::alloc::Global;
use std::io;
use std::io::{ErrorKind, Read, Write};
use std::test::*;
use stream_server::{Pump, PumpFault};
use stream_taps::Tap;

// Gives its bytes a few at a time, and fails at one call, the first being 1.
#[derive(Drop)]
struct Source {
    rest: &'static [u8],
    size: usize,
    calls: u64,
    fails_at: u64,
    kind: ErrorKind,
}

impl Read for Source {
    fn read(&mut self, buf: &mut [u8]) -> io::Result<usize> {
        self.calls = self.calls.wrapping_add(1);
        if self.calls == self.fails_at {
            return Err(self.kind.into());
        }
        let count = self.size.min(self.rest.len()).min(buf.len());
        let (front, rest) = self.rest.split_at(count);
        buf[..count].copy_from_slice(front);
        self.rest = rest;
        Ok(count)
    }
}

// Takes a few bytes at a time, those of the answers, and at one call fails or takes none. It knows how many it took, how
// many of them were flushed, and whether they were those.
#[derive(Drop)]
struct Sink {
    taken: usize,
    flushed: usize,
    is_due: bool,
    size: usize,
    calls: u64,
    fails_at: u64,
    kind: Option<ErrorKind>,
}

impl Write for Sink {
    fn write(&mut self, buf: &[u8]) -> io::Result<usize> {
        self.calls = self.calls.wrapping_add(1);
        if self.calls == self.fails_at {
            return match self.kind {
                Some(kind) => Err(kind.into()),
                None => Ok(0),
            };
        }
        let count = self.size.min(buf.len());
        let end = self.taken.saturating_add(count);
        self.is_due = self.is_due && ANSWERS.get(self.taken..end) == Some(&buf[..count]);
        self.taken = end;
        Ok(count)
    }

    fn flush(&mut self) -> io::Result<()> {
        self.flushed = self.taken;
        Ok(())
    }
}

fn giving(size: usize, fails_at: u64, kind: ErrorKind) -> Source {
    Source {
        rest: REQUESTS,
        size,
        calls: 0,
        fails_at,
        kind,
    }
}

fn taking(size: usize, fails_at: u64, kind: Option<ErrorKind>) -> Sink {
    Sink {
        taken: 0,
        flushed: 0,
        is_due: true,
        size,
        calls: 0,
        fails_at,
        kind,
    }
}

// How a run of the pump ended.
#[derive(Clone, Copy, PartialEq, Eq)]
enum End {
    Done,
    Read,
    Write,
    Other,
}

fn end_of(ran: Result<(), PumpFault>) -> End {
    match ran {
        Ok(()) => End::Done,
        Err(PumpFault::Read) => End::Read,
        Err(PumpFault::Write) => End::Write,
        Err(_) => End::Other,
    }
}

// How a run of the pump ends on a connection that it opens, how many bytes it counts, and what the sink knows.
fn pumped(server: &mut Server, source: Source, sink: Sink) -> Result<(End, u128, Sink), Fail> {
    if server.step(&opened(1)).is_err() {
        return Err(Fail::new("not opened"));
    }
    let mut reader = Tap::new(source);
    let mut writer = Tap::new(sink);
    let mut pump = Pump::new();
    let end = end_of(pump.run(server, 1, &mut reader, &mut writer));
    Ok((end, pump.sent(), writer.into_inner()))
}

// `ends`, with this server.
fn ends_on(
    server: &mut Server,
    source: Source,
    sink: Sink,
    end: End,
    count: usize,
) -> Result<bool, Fail> {
    let (ended, counted, sink) = pumped(server, source, sink)?;
    let is_flushed = ended != End::Done || sink.flushed == count;
    Ok(ended == end && is_flushed && sink.is_due && sink.taken == count && counted == count as u128)
}

// Whether the requests from this stream end so, with so many bytes of their answers out there, which the pump counts, and which
// are flushed at the end.
fn ends(alloc: Global, source: Source, sink: Sink, end: End, count: usize) -> Result<bool, Fail> {
    let mut server = base_server(alloc)?;
    ends_on(&mut server, source, sink, end, count)
}

// How many bytes answer the first so many bytes of the requests.
fn answered(read: usize) -> usize {
    if read < 56 {
        0
    } else if read < 188 {
        28
    } else if read < 257 {
        163
    } else {
        486
    }
}

#[test]
fn a_few_bytes_at_a_time(rt: HostRuntime) -> Result<(), Fail> {
    for size in 1..8 {
        let source = giving(size, 0, ErrorKind::Other);
        let is_so = ends(rt.alloc(), source, taking(size, 0, None), End::Done, 486)?;
        holds(&rt, "answered", is_so);
    }
    Ok(())
}

#[test]
fn a_read_fails(rt: HostRuntime) -> Result<(), Fail> {
    for before in 0..63u64 {
        let out = answered((before as usize) * 5);
        let broken = giving(5, before + 1, ErrorKind::Other);
        let is_so = ends(rt.alloc(), broken, taking(5, 0, None), End::Read, out)?;
        holds(&rt, "broken", is_so);
        let interrupted = giving(5, before + 1, ErrorKind::Interrupted);
        let is_so = ends(rt.alloc(), interrupted, taking(5, 0, None), End::Done, 486)?;
        holds(&rt, "interrupted", is_so);
    }
    Ok(())
}

#[test]
fn a_write_fails(rt: HostRuntime) -> Result<(), Fail> {
    for before in 0..486u64 {
        let out = before as usize;
        // Each answer is written by itself.
        let apart = giving(5, 0, ErrorKind::Other);
        let none = taking(1, before + 1, None);
        let is_so = ends(rt.alloc(), apart, none, End::Write, out)?;
        holds(&rt, "no byte is taken", is_so);
        // All are written at once.
        let whole = giving(314, 0, ErrorKind::Other);
        let broken = taking(1, before + 1, Some(ErrorKind::BrokenPipe));
        let is_so = ends(rt.alloc(), whole, broken, End::Write, out)?;
        holds(&rt, "broken", is_so);
    }
    Ok(())
}

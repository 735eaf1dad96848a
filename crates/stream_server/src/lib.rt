//! One connection of the server over a reader and a writer that block.
//!
//! [`Pump::run`] reads pieces of a stream, hands each to the server as an event, and writes what the
//! server sends, before it reads the next. `specs/Pumped` says what a run comes to.
//!
//! What a contract sees: of a [`Pump`] how many bytes the last run put out.
#![tactic(auto)]

ghost use Rattle.std.specs.Prelude.{◌≡◌, ℕ, ◌+◌, ◌-◌, ◌^◌, ◌<◌, ◌≤◌, length, take, IfOk, IfSome, IfErr, MatchResult, OnErr, is_err, not, Err, ◌≢◌, true};
ghost use Rattle.std.specs.Bool.{MatchBool};
ghost use Rattle.std.specs.Io.KnownBytes.{Appends, Consumes, Keeps, IsAtEnd};
ghost use Rattle.stream_taps.specs.Tapped.{counted, CountsRead};
ghost use Rattle.server_core.specs.Running.{joined, closes};
ghost use Rattle.server_core.specs.World.{world_of};

use bytes::Bytes;
use server_core::{Event, Out, Server, StepFault};
use std::alloc::Global;
use std::io;
use std::io::{Read, Write};
use std::marker::Model;
use stream_taps::{Tap, is_interruption, put_bytes};
use thiserror::Error;

/// The most bytes of a piece.
const PIECE: usize = 4096;

/// The most bytes of several sends that are joined for one write.
const MOST_JOINED: usize = 65_536;

/// The most reads of a run.
const READS: u64 = 1_000_000_000;

/// Why a run ended before its input did.
#[derive(Clone, Copy, Debug, PartialEq, Eq, Error)]
pub enum PumpFault {
    /// A read failed, and was not just interrupted.
    #[error("a read failed")]
    Read,
    /// A write or a flush failed. A part of what the server sends may be out.
    #[error("a write failed")]
    Write,
    /// The server didn't answer the last piece, or a growth of the pump's own was refused.
    #[error("the server did not answer")]
    Step(StepFault),
    /// There were too many reads for one run.
    #[error("too many reads")]
    Turns,
}

/// Moves bytes between a connection's streams and the server. Contracts see how many bytes the last
/// run put out.
#[derive(Debug, Drop)]
pub struct Pump {
    sent: u128,
}

impl Model for Pump {
    ghost Value = { ℕ };

    ghost view = { λ p. p.sent };
}

// The bytes of the sends, one after the other. None where they are many, or for want of memory.
fn joined_in(alloc: Global, outs: &[Out]) -> Option<Vec<u8>>
    ensures { IfSome result (λ bytes. bytes.items ≡ joined outs.now) }
{
    let mut all = Vec::new(alloc);
    for out in outs {
        if let Out::Send { conn: _, bytes } = out {
            let bytes = bytes.as_slice();
            if all.len().saturating_add(bytes.len()) > MOST_JOINED {
                return None;
            }
            if all.extend_from_slice(bytes).is_err() {
                return None;
            }
        }
    }
    Some(all)
}

/// Writes the bytes of the sends, and says how many went out, and whether all did. A write failed where not.
///
/// Up to 65,536 bytes of several sends are one write, which is what a pipe takes at once. One send alone is
/// written as it is.
fn put_outs<W: Write>(alloc: Global, writer: &mut Tap<W>, outs: &[Out]) -> (u128, bool)
    ensures count { result.0 ≤ length (joined outs.now) }
    ensures all { result.1 ≡ true → result.0 ≡ length (joined outs.now) }
    ensures small { result.0 < 2 ^ 128 }
    ensures written { Appends (W.contents writer.old.stream) (W.contents writer.new.stream) (take result.0 (joined outs.now)) }
    ensures failures { writer.new.failures ≡ counted writer.old.failures (not result.1) }
{
    if outs.len() < 2 {
        return put_each(writer, outs);
    }
    match joined_in(alloc, outs) {
        Some(bytes) => {
            let count = put_bytes(writer, bytes.as_slice());
            (count as u128, count == bytes.len())
        }
        None => put_each(writer, outs),
    }
}

// Writes the bytes of the sends, with a write for each.
fn put_each<W: Write>(writer: &mut Tap<W>, outs: &[Out]) -> (u128, bool)
    ensures count { result.0 ≤ length (joined outs.now) }
    ensures all { result.1 ≡ true → result.0 ≡ length (joined outs.now) }
    ensures small { result.0 < 2 ^ 128 }
    ensures written { Appends (W.contents writer.old.stream) (W.contents writer.new.stream) (take result.0 (joined outs.now)) }
    ensures failures { writer.new.failures ≡ counted writer.old.failures (not result.1) }
{
    let mut done = 0;
    for out in outs {
        if let Out::Send { conn: _, bytes } = out {
            let bytes = bytes.as_slice();
            let count = put_bytes(writer, bytes);
            done += count as u128;
            if count < bytes.len() {
                return (done, false);
            }
        }
    }
    (done, true)
}

/// Reads a piece of at most the length of `piece`, which holds it afterwards.
fn read_piece<R: Read>(reader: &mut Tap<R>, piece: &mut Vec<u8>) -> io::Result<usize>
    ensures piece { IfOk result (λ n. (length piece.new.items ≡ n) × (n ≤ length piece.old.items)
        × Consumes (R.remaining reader.old.stream) (R.remaining reader.new.stream) piece.new.items) }
    ensures end { IfOk result (λ n. n ≡ 0 → 0 < length piece.old.items → IsAtEnd (R.remaining reader.new.stream)) }
    ensures err { OnErr result (Keeps (R.remaining reader.old.stream) (R.remaining reader.new.stream)) }
    ensures counts { CountsRead result reader.old reader.new }
{
    match reader.read(piece) {
        Ok(n) => {
            piece.truncate(n);
            Ok(n)
        }
        Err(e) => Err(e),
    }
}

/// Is the connection closed among these?
fn closes_among(outs: &[Out], conn: u64) -> bool
    ensures { result ≡ closes conn outs.now }
{
    outs.iter().any(|out| match out {
        Out::Send { conn: _, bytes: _ } => false,
        Out::Close { conn: closed } => *closed == conn,
    })
}

impl Pump {
    ghost use Rattle.stream_server.specs.Pumped.{scene, Goes, Done, Stopped, Answered};

    /// A pump that has put nothing out.
    pub fn new() -> Pump
        ensures { result ≡ 0 }
    {
        Pump { sent: 0 }
    }

    /// How many bytes the last run put out. The count stays at the last number of its type.
    pub fn sent(&self) -> u128
        ensures { result ≡ self.now }
    {
        self.sent
    }

    /// Writes the sends, and says whether the connection is still open.
    fn answer<W: Write>(
        &mut self,
        alloc: Global,
        conn: u64,
        outs: &[Out],
        writer: &mut Tap<W>,
    ) -> Result<bool, PumpFault>
        ensures answered { Answered conn outs.now (W.contents writer.old.stream) (W.contents writer.new.stream)
            self.old self.new result }
        ensures write { IfErr result (λ fault. fault ≡ PumpFault.Write) }
        ensures failures { writer.new.failures ≡ counted writer.old.failures (is_err result) }
    {
        let (count, all) = put_outs(alloc, writer, outs);
        self.sent = self.sent.saturating_add(count);
        if !all {
            return Err(PumpFault::Write);
        }
        if writer.flush().is_err() {
            return Err(PumpFault::Write);
        }
        Ok(!closes_among(outs, conn))
    }

    /// One read, and what follows from it. Says whether there may be more.
    fn turn<R: Read, W: Write>(
        &mut self,
        server: &mut Server,
        conn: u64,
        reader: &mut Tap<R>,
        writer: &mut Tap<W>,
    ) -> Result<bool, PumpFault>
        requires room { self.old < 2 ^ 128 }
        ensures went { let old = scene R.remaining W.contents self.old (world_of server.old) reader.old writer.old in
            let new = scene R.remaining W.contents self.new (world_of server.new) reader.new writer.new in
            MatchResult result (λ more. MatchBool more (Goes 1 conn old new) (Done conn old new)) (Stopped conn old new) }
        ensures no_turns { result ≢ Err PumpFault.Turns }
    {
        let Ok(mut piece) = vec![in server.allocator(); 0u8; PIECE] else {
            return Err(PumpFault::Step(StepFault::Memory));
        };
        match read_piece(reader, &mut piece) {
            Ok(0) => return Ok(false),
            Ok(_) => {}
            Err(e) => {
                if is_interruption(&e) {
                    return Ok(true);
                }
                return Err(PumpFault::Read);
            }
        }
        let Ok(bytes) = Bytes::from_vec(piece) else {
            return Err(PumpFault::Step(StepFault::Memory));
        };
        let event = Event::Bytes { conn, bytes };
        match server.step(&event) {
            Ok(step) => self.answer(server.allocator(), conn, step.outs.as_slice(), writer),
            Err(fault) => Err(PumpFault::Step(fault)),
        }
    }

    /// Hands what is read to the server, a piece of at most 4096 bytes at a time, and writes what it
    /// sends, until the input ends or the connection is closed.
    ///
    /// All that the server sends is written here, so it should know no other connection. A call that is
    /// interrupted is made again; any other one that fails is the last.
    ///
    /// Each piece is answered before the next is read, and nothing is read once the connection is closed.
    /// So where the run ends well, at `Read`, `Step` and `Turns`, all that the server sends to what was
    /// read before is out. At `Write` a part of it is, from its beginning on. [`Pump::sent`] is the
    /// length of what is out. `Read` and `Write` come only where a call of that tap failed, which was then the last. At
    /// `Step(Memory)` the server is halted, or as its last step left it, where a growth of the pump's own
    /// was refused. `Turns` comes after 10^9 reads.
    pub fn run<R: Read, W: Write>(
        &mut self,
        server: &mut Server,
        conn: u64,
        reader: &mut Tap<R>,
        writer: &mut Tap<W>,
    ) -> Result<(), PumpFault>
        ensures { let old = scene R.remaining W.contents 0 (world_of server.old) reader.old writer.old in
            let new = scene R.remaining W.contents self.new (world_of server.new) reader.new writer.new in
            MatchResult result (λ _. Done conn old new) (Stopped conn old new) }
    {
        self.sent = 0;
        for _read in 0..READS {
            match self.turn(server, conn, reader, writer) {
                Ok(true) => {}
                Ok(false) => return Ok(()),
                Err(fault) => return Err(fault),
            }
        }
        Err(PumpFault::Turns)
    }
}

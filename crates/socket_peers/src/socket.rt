//! Streams that don't wait.

ghost use Rattle.std.specs.Prelude.{◌≡◌, ◌<◌, ℕ, List, Option, None, length};
ghost use Rattle.std.specs.Io.{ReadsAtMost, WritesAtMost};
ghost use Rattle.std.specs.Io.KnownBytes.{Keeps, ReadConsumes, WriteAppends};
ghost use Rattle.std.specs.IoError.{error_kind};
ghost use Rattle.socket_peers.specs.Socket.{Calls, CountsRead, CountsWrite, missed_by};

use mio::net::TcpStream;
use std::io;
use std::io::{ErrorKind, Read, Write};

/// Why a call moved no byte.
#[derive(Clone, Copy, Debug, PartialEq, Eq)]
pub enum Missed {
    /// It would have had to wait.
    Waits,
    /// It was interrupted, and may be made again.
    Interrupted,
    Failed,
}

/// Why a call that answered this error moved no byte.
pub(crate) fn why_missed(error: &io::Error) -> Missed
    ensures { result ≡ missed_by (error_kind error.now) }
{
    match error.kind() {
        ErrorKind::WouldBlock => Missed::Waits,
        ErrorKind::Interrupted => Missed::Interrupted,
        _ => Missed::Failed,
    }
}

/// A stream of bytes in both directions. Where a call would have to wait, it answers
/// [`io::ErrorKind::WouldBlock`].
///
/// Contracts name the bytes that are still to come and those that went out, and how many calls moved no byte
/// and why, where these are known. Of a socket they are not: what a network carries no contract can say.
pub trait Socket {
    ghost remaining: { Self → Option (List ℕ) } = { λ _. None };

    ghost contents: { Self → Option (List ℕ) } = { λ _. None };

    ghost calls: { Self → Option Calls } = { λ _. None };

    /// Reads into `piece`, from its front on. No byte comes only at the end of the stream, or where there
    /// is no room.
    fn receive(&mut self, piece: &mut [u8]) -> io::Result<usize>
        ensures bound { ReadsAtMost result piece.new }
        ensures bytes { ReadConsumes (remaining self.old) (remaining self.new) result piece.new }
        ensures written { Keeps (contents self.old) (contents self.new) }
        ensures calls { CountsRead result (calls self.old) (calls self.new) };

    /// Writes as many of the bytes as the stream takes at once, from the first on.
    fn send(&mut self, bytes: &[u8]) -> io::Result<usize>
        ensures bound { WritesAtMost result bytes.now }
        ensures bytes { WriteAppends (contents self.old) (contents self.new) result bytes.now }
        ensures read { Keeps (remaining self.old) (remaining self.new) }
        ensures calls { 0 < length bytes.now → CountsWrite result (calls self.old) (calls self.new) };
}

impl Socket for TcpStream {
    fn receive(&mut self, piece: &mut [u8]) -> io::Result<usize> {
        self.read(piece)
    }

    fn send(&mut self, bytes: &[u8]) -> io::Result<usize> {
        self.write(bytes)
    }
}

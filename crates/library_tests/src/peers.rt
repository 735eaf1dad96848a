//! What sockets get and give, over streams whose bytes are known.

use crate::holding::holds;
use bytes::Bytes;
use collections::ShortList;
use server_messages::Out;
use socket_peers::{End, Heard, Peer, PeerLimits, Peers, Readiness, Socket};
use std::alloc::Global;
use std::io;
use std::io::ErrorKind;
use std::test::*;
use ua_types::{Moment, Status};

// A stream that takes at most seven bytes in a write, so often, gives so many bytes, and is at its end then, or has no more for now.
#[derive(Drop)]
struct Slow {
    taken: Vec<u8>,
    writes: usize,
    given: usize,
    is_at_end: bool,
}

impl Socket for Slow {
    fn receive(&mut self, piece: &mut [u8]) -> io::Result<usize> {
        if self.given == 0 && !self.is_at_end {
            return Err(io::Error::from(ErrorKind::WouldBlock));
        }
        let count = piece.len().min(self.given);
        self.given -= count;
        Ok(count)
    }

    fn send(&mut self, bytes: &[u8]) -> io::Result<usize> {
        if self.writes == 0 {
            return Err(io::Error::from(ErrorKind::WouldBlock));
        }
        let count = bytes.len().min(7);
        self.writes -= 1;
        self.taken.extend_from_slice(&bytes[..count])?;
        Ok(count)
    }
}

fn slow_stream(alloc: Global, writes: usize) -> Slow {
    Slow {
        taken: Vec::new(alloc),
        writes,
        given: 0,
        is_at_end: false,
    }
}

// A peer that takes two writes, and is owed three frames, of four, four and six bytes.
fn owed_three(alloc: Global) -> Result<Peer<Slow>, Fail> {
    let mut peer = Peer::new(alloc, slow_stream(alloc, 2), 0, Moment(0));
    for text in [b"one ".as_slice(), b"two ".as_slice(), b"three!".as_slice()] {
        let bytes = Bytes::copy_from_slice(alloc, text)?;
        peer.owe(bytes, Moment(0))?;
    }
    Ok(peer)
}

#[test]
fn several_frames_in_one_write(rt: HostRuntime) -> Result<(), Fail> {
    let mut peer = owed_three(rt.alloc())?;
    peer.flush(&mut Vec::new(rt.alloc()));
    let mut piece = Vec::new(rt.alloc());
    let heard = peer.read(&mut [0; 16], &mut piece)?;
    holds(
        &rt,
        "nothing heard",
        matches!(heard, Heard::Nothing) && piece.is_empty(),
    );
    peer.close();
    holds(&rt, "over", peer.is_over());
    let Slow { taken, .. } = peer.into_stream();
    holds(
        &rt,
        "two writes of seven",
        taken.as_slice() == b"one two three!".as_slice(),
    );
    Ok(())
}

// Two sockets, the first of which is owed a byte and then the end.
fn two_peers(alloc: Global) -> Result<Peers<Slow>, Fail> {
    let mut peers = Peers::new(alloc, PeerLimits::NONE);
    peers.admit(alloc, 1, 0, slow_stream(alloc, 9))?;
    peers.admit(alloc, 2, 0, slow_stream(alloc, 9))?;
    let mut outs = ShortList::new(alloc);
    let bytes = Bytes::copy_from_slice(alloc, b"A")?;
    outs.push(Out::Send { conn: 1, bytes })?;
    outs.push(Out::Close { conn: 1 })?;
    peers.owe_all(outs)?;
    Ok(peers)
}

#[test]
fn each_on_its_own_connection(rt: HostRuntime) -> Result<(), Fail> {
    let mut peers = two_peers(rt.alloc())?;
    holds(&rt, "not before its byte is out", !peers.depart(1));
    peers.flush_touched()?;
    holds(&rt, "awake", peers.is_any_awake());
    holds(&rt, "not before it is told", !peers.release(1));
    holds(&rt, "told once", peers.depart(1) && !peers.depart(1));
    holds(&rt, "the first goes", peers.release(1));
    holds(
        &rt,
        "the second stays",
        !peers.depart(2) && !peers.release(2) && peers.len() == 1,
    );
    let mut piece = Vec::new(rt.alloc());
    let heard = peers.read(2, &mut piece)?;
    holds(&rt, "nothing heard", matches!(heard, Heard::Nothing));
    Ok(())
}

// A socket whose input is at its end, which is owed a byte and takes none yet.
fn ended(alloc: Global) -> Result<Peers<Slow>, Fail> {
    let mut peers = Peers::new(alloc, PeerLimits::NONE);
    let mut stream = slow_stream(alloc, 0);
    stream.is_at_end = true;
    peers.admit(alloc, 1, 0, stream)?;
    let mut outs = ShortList::new(alloc);
    let bytes = Bytes::copy_from_slice(alloc, b"A")?;
    outs.push(Out::Send { conn: 1, bytes })?;
    peers.owe_all(outs)?;
    Ok(peers)
}

#[test]
fn a_client_that_has_hung_up_is_gone_at_once(rt: HostRuntime) -> Result<(), Fail> {
    let mut peers = ended(rt.alloc())?;
    let mut piece = Vec::new(rt.alloc());
    let heard = peers.read(1, &mut piece)?;
    holds(&rt, "at its end", matches!(heard, Heard::End));
    holds(&rt, "told, though it is owed a byte", peers.depart(1));
    holds(&rt, "its byte is still to be written", !peers.release(1));
    Ok(())
}

// A report that a socket is closed for reading.
const ENDING: Readiness = Readiness {
    is_writable: false,
    is_ending: true,
};

// A socket that has sent five bytes and hung up at once.
fn hung_up(alloc: Global) -> Result<Peers<Slow>, Fail> {
    let mut peers = Peers::new(alloc, PeerLimits::NONE);
    let mut stream = slow_stream(alloc, 0);
    stream.given = 5;
    stream.is_at_end = true;
    peers.admit(alloc, 1, 0, stream)?;
    Ok(peers)
}

// Whether a read comes to this, with so many bytes.
fn hears(alloc: Global, peers: &mut Peers<Slow>, due: Heard, count: usize) -> Result<bool, Fail> {
    let mut piece = Vec::new(alloc);
    let heard = peers.read(1, &mut piece)?;
    Ok(heard == due && piece.len() == count)
}

#[test]
fn an_end_that_is_reported_before_the_last_bytes_are_read(rt: HostRuntime) -> Result<(), Fail> {
    let mut peers = hung_up(rt.alloc())?;
    peers.report(1, ENDING)?;
    let is_piece = hears(rt.alloc(), &mut peers, Heard::Piece, 5)?;
    holds(&rt, "five bytes, and there may be more", is_piece);
    let is_end = hears(rt.alloc(), &mut peers, Heard::End, 0)?;
    holds(&rt, "the end", is_end);
    Ok(())
}

#[test]
fn an_end_that_is_reported_after_the_last_bytes_were_read(rt: HostRuntime) -> Result<(), Fail> {
    let mut peers = hung_up(rt.alloc())?;
    let is_last = hears(rt.alloc(), &mut peers, Heard::Last, 5)?;
    holds(&rt, "five bytes, and no more for now", is_last);
    peers.report(1, ENDING)?;
    let is_end = hears(rt.alloc(), &mut peers, Heard::End, 0)?;
    holds(&rt, "the end", is_end);
    Ok(())
}

// So many seconds behind a first moment.
fn seconds(count: i64) -> Moment {
    Moment(count.wrapping_mul(10_000_000).wrapping_add(1_000_000_000))
}

// Owes the socket under this number some bytes.
fn owe(alloc: Global, peers: &mut Peers<Slow>, conn: u64, bytes: &[u8]) -> Result<(), Fail> {
    let mut outs = ShortList::new(alloc);
    let bytes = Bytes::copy_from_slice(alloc, bytes)?;
    outs.push(Out::Send { conn, bytes })?;
    peers.owe_all(outs)?;
    Ok(())
}

// Two sockets that may be silent for two seconds. A second behind the first moment the other one is owed something.
fn one_silent(alloc: Global) -> Result<Peers<Slow>, Fail> {
    let limits = PeerLimits {
        idle: 2,
        per_address: 0,
    };
    let mut peers = Peers::new(alloc, limits);
    peers.tell_time(seconds(0));
    peers.admit(alloc, 1, 0, slow_stream(alloc, 0))?;
    peers.admit(alloc, 2, 0, slow_stream(alloc, 0))?;
    peers.tell_time(seconds(1));
    owe(alloc, &mut peers, 2, b"A")?;
    Ok(peers)
}

#[test]
fn a_silent_socket_is_let_go_of(rt: HostRuntime) -> Result<(), Fail> {
    let mut peers = one_silent(rt.alloc())?;
    holds(&rt, "not yet", peers.expire(1).is_none());
    peers.tell_time(seconds(2));
    holds(&rt, "time to look", peers.is_sweep_due());
    let numbers = peers.begin_sweep(rt.alloc())?;
    holds(&rt, "among both", numbers.as_slice() == [1, 2].as_slice());
    holds(&rt, "not again in this second", !peers.is_sweep_due());
    holds(&rt, "the first goes", peers.expire(1) == Some(false));
    holds(&rt, "the second was written to", peers.expire(2).is_none());
    holds(&rt, "one is left", peers.len() == 1);
    peers.tell_time(seconds(3));
    holds(
        &rt,
        "the second goes, owed a byte",
        peers.expire(2) == Some(false),
    );
    Ok(())
}

// Two sockets of one address, and as many may be.
fn two_of_one_address(alloc: Global) -> Result<Peers<Slow>, Fail> {
    let limits = PeerLimits {
        idle: 0,
        per_address: 2,
    };
    let mut peers = Peers::new(alloc, limits);
    peers.admit(alloc, 1, 7, slow_stream(alloc, 0))?;
    peers.admit(alloc, 2, 7, slow_stream(alloc, 0))?;
    peers.admit(alloc, 3, 8, slow_stream(alloc, 0))?;
    Ok(peers)
}

#[test]
fn so_many_of_an_address(rt: HostRuntime) -> Result<(), Fail> {
    let mut peers = two_of_one_address(rt.alloc())?;
    holds(&rt, "as many as may be", peers.is_crowded(7));
    holds(&rt, "of another fewer", !peers.is_crowded(8));
    let mut outs = ShortList::new(rt.alloc());
    outs.push(Out::Close { conn: 1 })?;
    peers.owe_all(outs)?;
    holds(&rt, "one goes", peers.depart(1) && peers.release(1));
    holds(&rt, "one fewer", !peers.is_crowded(7));
    Ok(())
}

// A socket that has sent five bytes and hung up, and takes nothing of the 2 MiB that it is owed.
fn half_closed(alloc: Global) -> Result<Peers<Slow>, Fail> {
    let mut peers = hung_up(alloc)?;
    let mut owed = Vec::new(alloc);
    owed.resize(2_097_152, 0)?;
    owe(alloc, &mut peers, 1, owed.as_slice())?;
    Ok(peers)
}

#[test]
fn a_half_closed_socket_is_read_to_its_end(rt: HostRuntime) -> Result<(), Fail> {
    let mut peers = half_closed(rt.alloc())?;
    let is_nothing = hears(rt.alloc(), &mut peers, Heard::Nothing, 0)?;
    holds(&rt, "nothing while it is owed that much", is_nothing);
    peers.report(1, ENDING)?;
    let is_piece = hears(rt.alloc(), &mut peers, Heard::Piece, 5)?;
    holds(&rt, "five bytes, since it is ending", is_piece);
    let is_end = hears(rt.alloc(), &mut peers, Heard::End, 0)?;
    holds(&rt, "the end", is_end && peers.end_of(1) == End::Client);
    Ok(())
}

#[test]
fn the_status_of_an_error_message(rt: HostRuntime) -> Result<(), Fail> {
    let mut peers = two_peers(rt.alloc())?;
    owe(
        rt.alloc(),
        &mut peers,
        2,
        b"ERRF\x10\0\0\0\0\0\x0c\x80\xff\xff\xff\xff",
    )?;
    holds(&rt, "none", peers.end_of(1) == End::Server(None));
    holds(
        &rt,
        "Bad_Shutdown",
        peers.end_of(2) == End::Server(Some(Status(0x800C_0000))),
    );
    Ok(())
}

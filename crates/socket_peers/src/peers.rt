//! All sockets, under their numbers.

ghost use Rattle.std.specs.Prelude.{◌≡◌, ◌+◌, ◌<◌, ◌==◌, not, true, [], IfOk, OnOk, OnErr, length, Some};
ghost use Rattle.std.specs.FinMap as map;
ghost use Rattle.socket_peers.specs.Peers.{nobody, number_after, with_joined, without, at_time, is_crowded as is_crowded_spec, is_sweep_due as is_sweep_due_spec, swept_now, is_owed_at, numbers_of, listed_if, woken_if, reported, owed_out, owed_all, Departs, LetsGo, Expires, ReadsAt, LosesAt, FlushesAt, LooksAt, FlushesAll};

use crate::end::End;
use crate::peer::{Heard, Peer, Readiness};
use crate::peer_limits::PeerLimits;
use crate::socket::Socket;
use crate::tally::Tally;
use collections::{Numbered, ShortList};
use server_messages::Out;
use std::alloc::{AllocError, Global};
use std::marker::Model;
use std::mem;
use ua_types::Moment;

// The most bytes of a piece.
const PIECE: usize = 4096;

// How long it takes until silent sockets are looked for again: a second, in units of 100 ns.
const BETWEEN_SWEEPS: i128 = 10_000_000;

/// The sockets that are connected, under the numbers of their connections, and which of them are to be
/// looked at.
///
/// Numbers count up from 1, and none is given twice. Contracts see the sockets, the number that was given
/// last, both lists, the limits, the counts of addresses, and the moments. At an `Err`, which is want of memory, nothing is known of
/// what is left.
#[derive(Drop)]
pub struct Peers<S> {
    connected: Numbered<Peer<S>>,
    // The number that was given last, 0 before the first.
    last: u64,
    // Sockets that may have something to read, or whose connections may be no more.
    awake: Vec<u64>,
    // Sockets that were owed something or closed since all were flushed.
    touched: Vec<u64>,
    // What is asked of each.
    limits: PeerLimits,
    // How many there are of each address.
    tally: Tally,
    // The moment that was told last. 0 before the first.
    clock: Moment,
    // The moment at which silent ones were last looked for. 0 before the first.
    swept: Moment,
    // Room for frames that are joined for one write.
    joint: Vec<u8>,
    // Room for what one read gives.
    room: [u8; PIECE],
}

impl<S> Model for Peers<S> {
    ghost use Rattle.socket_peers.specs.Peers.{PeersState, peers_code};

    ghost Value = { PeersState S };

    ghost coded = { peers_code S.code };

    ghost view = { λ p. record {
      connected = p.connected;
      last = p.last;
      awake = p.awake.items;
      touched = p.touched.items;
      limits = p.limits;
      tally = p.tally;
      clock = p.clock;
      swept = p.swept;
    } };
}

impl<S> Peers<S> {
    /// None yet. Takes no memory.
    pub fn new(alloc: Global, limits: PeerLimits) -> Peers<S>
        ensures { result ≡ nobody limits }
    {
        Peers {
            connected: Numbered::new(alloc),
            last: 0,
            awake: Vec::new(alloc),
            touched: Vec::new(alloc),
            limits,
            tally: Tally::new(alloc),
            clock: Moment(0),
            swept: Moment(0),
            joint: Vec::new(alloc),
            room: [0; PIECE],
        }
    }

    /// How many there are.
    pub fn len(&self) -> usize
        ensures { result ≡ map.len self.now.connected }
    {
        self.connected.len()
    }

    /// The number that the next socket gets. None after the last of 64 bits.
    pub fn next(&self) -> Option<u64>
        ensures { result ≡ number_after self.now.last }
    {
        self.last.checked_add(1)
    }

    /// How many bytes all of them are owed. Takes memory for their numbers.
    pub fn owed(&self, alloc: Global) -> Result<u64, AllocError> {
        let mut owed = 0u64;
        for number in self.connected.numbers(alloc)? {
            if let Some(peer) = self.connected.get(number) {
                owed = owed.saturating_add(peer.owed() as u64);
            }
        }
        Ok(owed)
    }

    /// The moment that was told last; 0 before the first.
    pub fn moment(&self) -> Moment
        ensures { result ≡ self.now.clock }
    {
        self.clock
    }

    /// It is so late now.
    pub fn tell_time(&mut self, now: Moment)
        ensures { self.new ≡ at_time now self.old }
    {
        self.clock = now;
    }

    /// Whether there are as many sockets of the address of these bits as may be.
    pub fn is_crowded(&self, address: u128) -> bool
        ensures { result ≡ is_crowded_spec self.now address }
    {
        self.limits.per_address > 0 && self.tally.of(address) >= self.limits.per_address
    }

    /// Whether silent sockets are to be looked for now: where that was done last a second ago or more, or by a clock that was set back
    /// since. Never where a socket may stay for ever.
    pub fn is_sweep_due(&self) -> bool
        ensures { result ≡ is_sweep_due_spec self.now }
    {
        self.limits.idle > 0
            && (self.clock.0 < self.swept.0
                || self.swept.0 as i128 + BETWEEN_SWEEPS <= self.clock.0 as i128)
    }

    /// All sockets, among which silent ones are looked for now.
    pub fn begin_sweep(&mut self, alloc: Global) -> Result<Vec<u64>, AllocError>
        ensures numbers { IfOk result (λ numbers. numbers.items ≡ numbers_of self.old) }
        ensures swept { OnOk result (self.new ≡ swept_now self.old) }
    {
        self.swept = self.clock;
        self.connected.numbers(alloc)
    }

    /// How the connection of this number ended, of which the socket is still there.
    pub fn end_of(&self, number: u64) -> End {
        match self.connected.get(number) {
            Some(peer) => peer.end(),
            None => End::Silent(self.limits.idle),
        }
    }

    /// Whether the socket under this number is owed something.
    pub fn is_owed(&self, number: u64) -> bool
        ensures { result ≡ is_owed_at self.now number }
    {
        match self.connected.get(number) {
            Some(peer) => peer.owed() > 0,
            None => false,
        }
    }

    /// Whether some socket is to be looked at.
    pub fn is_any_awake(&self) -> bool
        ensures { result ≡ not (length self.now.awake == 0) }
    {
        !self.awake.is_empty()
    }

    /// The sockets to be looked at, with none on the list from then on.
    pub fn take_awake(&mut self, alloc: Global) -> Vec<u64>
        ensures taken { result.items ≡ self.old.awake }
        ensures none { self.new ≡ record self.old { awake = [] } }
    {
        mem::replace(&mut self.awake, Vec::new(alloc))
    }
}

// Puts a socket on the list of those to be looked at, where it is to be and doesn't stand there yet.
fn wake_if<S>(
    is_woken: bool,
    awake: &mut Vec<u64>,
    number: u64,
    peer: &mut Peer<S>,
) -> Result<(), AllocError>
    ensures list { OnOk result (awake.new.items ≡ listed_if is_woken awake.old.items number peer.old) }
    ensures peer { OnOk result (peer.new ≡ woken_if is_woken peer.old) }
{
    if is_woken {
        if !peer.is_awake() {
            awake.push(number)?;
        }
        peer.set_awake(true);
    }
    Ok(())
}

impl<S: Drop> Peers<S> {
    /// Takes in a socket under the next number, of a client at the IP address of these bits.
    pub fn admit(
        &mut self,
        alloc: Global,
        number: u64,
        address: u128,
        stream: S,
    ) -> Result<(), AllocError>
        requires { number ≡ self.old.last + 1 }
        ensures { OnOk result (self.new ≡ with_joined self.old address stream) }
    {
        self.last = number;
        self.tally.add(address)?;
        self.connected
            .insert(number, Peer::new(alloc, stream, address, self.clock))
    }

    // Lets go of a socket.
    fn forget(&mut self, number: u64)
        ensures { self.new ≡ without self.old number }
    {
        if let Some(peer) = self.connected.remove(number) {
            self.tally.subtract(peer.address());
        }
    }

    /// Lets go of a socket to which nothing was sent for as long as one may stay so, whatever it is owed, and of no other. Says
    /// whether the server was told before that its connection is no more. None: it stays. Takes no memory.
    pub fn expire(&mut self, number: u64) -> Option<bool>
        ensures { Expires number self.old self.new result }
    {
        let Some(peer) = self.connected.get(number) else {
            return None;
        };
        if !peer.is_silent(self.limits.idle, self.clock) {
            return None;
        }
        let is_told = peer.is_gone();
        self.forget(number);
        Some(is_told)
    }

    /// A socket was reported as ready, and is to be looked at.
    pub fn report(&mut self, number: u64, readiness: Readiness) -> Result<(), AllocError>
        ensures { OnOk result (self.new ≡ reported self.old number readiness) }
    {
        let Some(peer) = self.connected.get_mut(number) else {
            return Ok(());
        };
        peer.report(readiness);
        wake_if(true, &mut self.awake, number, peer)
    }

    /// Says whether the connection of a socket is no more and the server is still to be told. It counts as told from then on:
    /// of each connection this is said once. Takes no memory.
    pub fn depart(&mut self, number: u64) -> bool
        ensures { Departs number self.old self.new result }
    {
        let Some(peer) = self.connected.get_mut(number) else {
            return false;
        };
        if !peer.departs() {
            return false;
        }
        peer.depart();
        true
    }

    /// Lets go of a socket of which the server was told that its connection is no more, once nothing is left to be written.
    /// Says whether it did. Takes no memory.
    pub fn release(&mut self, number: u64) -> bool
        ensures { LetsGo number self.old self.new result }
    {
        let Some(peer) = self.connected.get(number) else {
            return false;
        };
        if !peer.is_done() {
            return false;
        }
        self.forget(number);
        true
    }

    // Does one thing that is to be done.
    fn owe(&mut self, out: Out) -> Result<(), AllocError>
        ensures { OnOk result (self.new ≡ owed_out self.old out) }
    {
        match out {
            Out::Send { conn, bytes } => {
                let Some(peer) = self.connected.get_mut(conn) else {
                    return Ok(());
                };
                self.touched.push(conn)?;
                peer.owe(bytes, self.clock)?;
            }
            Out::Close { conn } => {
                let Some(peer) = self.connected.get_mut(conn) else {
                    return Ok(());
                };
                self.touched.push(conn)?;
                peer.close();
            }
        }
        Ok(())
    }

    /// Owes each socket what is sent on its connection, in order, and closes those whose connections are
    /// closed. Nothing is owed to a socket that isn't there.
    pub fn owe_all(&mut self, outs: ShortList<Out>) -> Result<(), AllocError>
        ensures { OnOk result (self.new ≡ owed_all self.old outs) }
    {
        for out in outs {
            self.owe(out)?;
        }
        Ok(())
    }
}

impl<S: Socket + Drop> Peers<S> {
    /// Reads from a socket, at most 4,096 bytes, which are put into `piece`, empty before. Memory is taken for these alone. At an
    /// `Err` some came, which are lost, and nothing else changed.
    pub fn read(&mut self, number: u64, piece: &mut Vec<u8>) -> Result<Heard, AllocError>
        requires { piece.old.items ≡ [] }
        ensures heard { IfOk result (λ heard. ReadsAt S.remaining S.contents S.calls number self.old self.new 4096 piece.new.items heard) }
        ensures lost { OnErr result (LosesAt S.remaining S.contents S.calls number self.old self.new 4096) }
    {
        let Some(peer) = self.connected.get_mut(number) else {
            return Ok(Heard::Nothing);
        };
        peer.read(&mut self.room, piece)
    }

    // Writes what a socket is owed, as much as it takes. One that is over now is to be looked at, and one of
    // which a write was interrupted.
    fn flush(&mut self, number: u64) -> Result<(), AllocError>
        ensures { OnOk result (FlushesAt S.remaining S.contents S.calls number self.old self.new) }
    {
        let Some(peer) = self.connected.get_mut(number) else {
            return Ok(());
        };
        let is_interrupted = peer.flush(&mut self.joint);
        let is_woken = is_interrupted | peer.is_over();
        wake_if(is_woken, &mut self.awake, number, peer)
    }

    /// Writes what a socket is owed that is looked at now, and so no longer stands on the list. Where a write
    /// was interrupted it is to be looked at again.
    pub fn look_at(&mut self, number: u64) -> Result<(), AllocError>
        ensures { OnOk result (LooksAt S.remaining S.contents S.calls number self.old self.new) }
    {
        let Some(peer) = self.connected.get_mut(number) else {
            return Ok(());
        };
        peer.set_awake(false);
        let is_interrupted = peer.flush(&mut self.joint);
        wake_if(is_interrupted, &mut self.awake, number, peer)
    }

    /// Writes what was owed to sockets since this was done last. Those that are over now are to be looked
    /// at, as is one of which too much is left ([`Peer::flush`]), and those of which a write was interrupted.
    pub fn flush_touched(&mut self) -> Result<(), AllocError>
        ensures { OnOk result (FlushesAll S.remaining S.contents S.calls self.old self.new) }
    {
        for place in 0..self.touched.len() {
            let number = self.touched[place];
            self.flush(number)?;
        }
        self.touched.clear();
        Ok(())
    }
}

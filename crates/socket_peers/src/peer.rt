//! One socket, and the bytes that it is owed.

ghost use Rattle.std.specs.Prelude.{◌≡◌, ◌<◌, ◌≤◌, ℕ, ◌||◌, true, false, [], nat_lt, take, IfOk, OnOk, OnErr, length};
ghost use Rattle.bytes.specs.Unread.{IsChunkOf, concat_slices};
ghost use Rattle.socket_peers.specs.Peer.{is_piece as is_piece_spec, may_be_more as may_be_more_spec, fresh, owing, closing, failing, ready, awake_if, is_over as is_over_spec, departs as departs_spec, departed, is_done as is_done_spec, is_silent as is_silent_spec, listens as listens_spec, judged, one_if, Reads, Loses, Writes, Drains, Flushes};

use crate::end::{End, status_of_error};
use crate::socket::{Missed, Socket, why_missed};
use bytes::{Buf, Bytes, BytesQueue};
use std::alloc::{AllocError, AllocFailed, Global};
use std::marker::Model;
use ua_types::Moment;

/// Nothing is read from a peer that is owed more than this many bytes, until it takes some or was reported as ending.
pub(crate) const MOST_OWED: usize = 1_048_576;

/// A peer that is owed more than this many bytes once it was flushed is dropped: it has failed.
pub(crate) const MOST_UNSENT: usize = 4_194_304;

// The most bytes that are joined for one write, and the most frames.
const MOST_JOINED: usize = 65_536;

const MOST_FRAMES: usize = 64;

// The 100 ns units of a second.
const UNITS: i128 = 10_000_000;

/// How a socket was reported as ready.
#[derive(Clone, Copy, Debug, PartialEq, Eq)]
pub struct Readiness {
    /// It takes bytes again.
    pub is_writable: bool,
    /// It is closed for reading, or has failed: its end lies behind what is still to be read.
    pub is_ending: bool,
}

/// What a read came to.
#[derive(Clone, Copy, Debug, PartialEq, Eq)]
pub enum Heard {
    /// Some bytes, and there may be more: they filled the room that there was, or the socket was reported as ending.
    Piece,
    /// Some bytes, and no more for now: less came than there was room for, from a socket that wasn't reported as ending.
    Last,
    /// Nothing, but the next read may give some: this one was interrupted.
    Again,
    /// Nothing for now: the socket would have to wait, or nothing is to be read from it.
    Nothing,
    /// The stream is at its end, or failed.
    End,
}

impl Heard {
    /// Whether some bytes came.
    pub fn is_piece(self) -> bool
        ensures { result ≡ is_piece_spec self }
    {
        matches!(self, Heard::Piece | Heard::Last)
    }

    /// Whether the next read may give some.
    pub fn may_be_more(self) -> bool
        ensures { result ≡ may_be_more_spec self }
    {
        matches!(self, Heard::Piece | Heard::Again)
    }
}

/// A socket, and the bytes that the server sent and the socket hasn't taken yet, in order.
///
/// The frames stay shared: none is copied to be kept. Several that lie behind one another are joined for
/// one write, up to 65,536 bytes, and one that lies there alone is written as it is.
#[derive(Drop)]
pub struct Peer<S> {
    stream: S,
    owed: BytesQueue,
    // Nothing more is read. It is over once all is out.
    is_closing: bool,
    // It was reported as ending: its end lies behind what is still to be read. It stays so.
    is_ending: bool,
    // Its input is at its end: its connection is no more, and what it is owed is still written.
    has_ended: bool,
    // Its stream failed, or took too little of what it was owed.
    has_failed: bool,
    // The server was told that its connection is no more.
    is_gone: bool,
    // The stream took less than there was. It will be reported as writable.
    is_full: bool,
    // It stands on the list of those to be looked at.
    is_awake: bool,
    // The moment at which it was last owed something; when it was taken in, at first.
    served: Moment,
    // The bits of its client's IP address.
    address: u128,
    // How its connection ends, as far as that is known. Contracts see nothing of it.
    end: End,
}

impl<S> Model for Peer<S> {
    ghost use Rattle.socket_peers.specs.Peer.{PeerState, peer_code};

    ghost Value = { PeerState S };

    ghost coded = { peer_code S.code };

    ghost view = { λ p. record {
      stream = p.stream;
      owed = p.owed;
      is_closing = p.is_closing;
      is_ending = p.is_ending;
      has_ended = p.has_ended;
      has_failed = p.has_failed;
      is_gone = p.is_gone;
      is_full = p.is_full;
      is_awake = p.is_awake;
      served = p.served;
      address = p.address;
    } };
}

// Joins the first of these frames, as many as there is room for.
fn join(joint: &mut Vec<u8>, frames: &[&[u8]])
    requires { joint.old.items ≡ [] }
    ensures { (count : ℕ) × (joint.new.items ≡ concat_slices (take count frames.now)) }
{
    for place in 0..frames.len() {
        let frame = frames[place];
        if joint.len().saturating_add(frame.len()) > MOST_JOINED {
            return;
        }
        if joint.extend_from_slice(frame).is_err() {
            return;
        }
    }
}

// The bytes for one write: some at the front of what is owed. Frames that lie behind one another are joined in `joint`.
#[tactic(auto, using(crate::proofs::PeerLemmas::first_slices))]
fn front<'a>(owed: &'a BytesQueue, joint: &'a mut Vec<u8>) -> &'a [u8]
    ensures { IsChunkOf result.now owed.now }
{
    let first = owed.chunk();
    if first.len() == owed.len() || first.len() >= MOST_JOINED {
        return first;
    }
    let mut frames = [[0u8; 0].as_slice(); MOST_FRAMES];
    let count = owed.chunks_vectored(&mut frames);
    joint.clear();
    join(joint, &frames[..count]);
    if joint.is_empty() {
        return first;
    }
    joint.as_slice()
}

impl<S> Peer<S> {
    /// A socket that is owed nothing, of a client at the address of this number, taken in at this moment.
    pub fn new(alloc: Global, stream: S, address: u128, now: Moment) -> Peer<S>
        ensures { result ≡ fresh address now stream }
    {
        Peer {
            stream,
            owed: BytesQueue::new(alloc),
            is_closing: false,
            is_ending: false,
            has_ended: false,
            has_failed: false,
            is_gone: false,
            is_full: false,
            is_awake: false,
            served: now,
            address,
            end: End::Server(None),
        }
    }

    /// The stream itself. What is still owed is lost.
    pub fn into_stream(self) -> S
        ensures { result ≡ self.stream }
    {
        let Peer {
            stream,
            owed: _,
            is_closing: _,
            is_ending: _,
            has_ended: _,
            has_failed: _,
            is_gone: _,
            is_full: _,
            is_awake: _,
            served: _,
            address: _,
            end: _,
        } = self;
        stream
    }

    /// How many bytes it is owed.
    pub fn owed(&self) -> usize
        ensures { result ≡ length self.now.owed }
    {
        self.owed.len()
    }

    /// Whether nothing more is read and nothing more is written.
    pub fn is_over(&self) -> bool
        ensures { result ≡ is_over_spec self.now }
    {
        self.has_failed || self.is_closing && self.owed.is_empty()
    }

    /// Whether its connection is no more, and the server is still to be told: its input is at its end, whatever it is still
    /// owed, or it is over.
    pub fn departs(&self) -> bool
        ensures { result ≡ departs_spec self.now }
    {
        !self.is_gone && (self.has_ended || self.is_over())
    }

    /// The server is told that its connection is no more.
    pub fn depart(&mut self)
        ensures { self.new ≡ departed self.old }
    {
        self.is_gone = true;
    }

    /// Whether the socket can be let go of: the server was told, and nothing is left to be written.
    pub fn is_done(&self) -> bool
        ensures { result ≡ is_done_spec self.now }
    {
        self.is_gone && self.is_over()
    }

    /// Whether there is something to read from it now: it isn't closing, and isn't owed too much. One that was reported as ending is
    /// read to its end whatever it is owed: what its socket still holds is finite.
    pub fn listens(&self) -> bool
        ensures { result ≡ listens_spec self.now }
    {
        !self.is_closing && !self.has_failed && (self.is_ending || self.owed.len() <= MOST_OWED)
    }

    /// Whether nothing was sent to it for so many seconds. Never for 0.
    pub fn is_silent(&self, idle: u64, now: Moment) -> bool
        ensures { result ≡ is_silent_spec idle now self.now }
    {
        idle > 0 && self.served.0 as i128 + idle as i128 * UNITS <= now.0 as i128
    }

    /// Whether the server was told that its connection is no more.
    pub fn is_gone(&self) -> bool
        ensures { result ≡ self.now.is_gone }
    {
        self.is_gone
    }

    /// The bits of its client's IP address.
    pub fn address(&self) -> u128
        ensures { result ≡ self.now.address }
    {
        self.address
    }

    /// How its connection ended, once it has.
    pub fn end(&self) -> End {
        self.end
    }

    // Its connection ends so, unless the server closed it before.
    fn note(&mut self, end: End)
        ensures { self.new ≡ self.old }
    {
        if !self.is_closing {
            self.end = end;
        }
    }

    // It has failed, for this reason.
    fn fail(&mut self, end: End)
        ensures { self.new ≡ failing self.old }
    {
        self.note(end);
        self.has_failed = true;
    }

    // The server sends this.
    fn note_sent(&mut self, bytes: &Bytes)
        ensures { self.new ≡ self.old }
    {
        if let Some(status) = status_of_error(bytes) {
            self.note(End::Server(Some(status)));
        }
    }

    /// Owes it these bytes, after all others, from this moment on.
    pub fn owe(&mut self, bytes: Bytes, now: Moment) -> Result<(), AllocFailed<Bytes>>
        ensures ok { OnOk result (self.new ≡ owing now bytes self.old) }
        ensures err { OnErr result (self.new ≡ self.old) }
    {
        self.note_sent(&bytes);
        self.owed.push(bytes)?;
        self.served = now;
        Ok(())
    }

    /// Nothing more is read, and once all it is owed is out, the socket is over.
    pub fn close(&mut self)
        ensures { self.new ≡ closing self.old }
    {
        self.is_closing = true;
    }

    // Lets go of what it is owed, and has failed, where that is more than may stay unsent.
    fn judge(&mut self)
        ensures { self.new ≡ judged self.old }
    {
        let owed = self.owed.len();
        if owed > MOST_UNSENT {
            self.owed.clear();
            self.fail(End::Owed(owed));
        }
    }

    /// The socket was reported as ready.
    pub fn report(&mut self, readiness: Readiness)
        ensures { self.new ≡ ready readiness self.old }
    {
        if readiness.is_writable {
            self.is_full = false;
        }
        if readiness.is_ending {
            self.is_ending = true;
        }
    }

    /// Whether it stands on the list of those to be looked at.
    pub fn is_awake(&self) -> bool
        ensures { result ≡ self.now.is_awake }
    {
        self.is_awake
    }

    /// Notes whether it stands on the list of those to be looked at.
    pub fn set_awake(&mut self, is_awake: bool)
        ensures { self.new ≡ awake_if is_awake self.old }
    {
        self.is_awake = is_awake;
    }
}

impl<S: Socket> Peer<S> {
    /// One read into `room`. What came is copied into `piece`, which is empty before, and takes no more memory than that. At the
    /// end of the stream the connection is no more, and the peer closes; one that failed is over. At an `Err`, which is want of
    /// memory and comes only where bytes came, these are lost, and nothing else changed.
    ///
    /// A read that gives less than there is room for has emptied the socket, whose next bytes are reported anew. But where the
    /// socket was reported as ending, no report comes of the end, so it is read from until its end is read.
    pub fn read(&mut self, room: &mut [u8], piece: &mut Vec<u8>) -> Result<Heard, AllocError>
        requires room { 0 < length room.old }
        requires empty { piece.old.items ≡ [] }
        ensures heard { IfOk result (λ heard. Reads S.remaining S.contents S.calls self.old self.new (length room.old) piece.new.items heard) }
        ensures lost { OnErr result (Loses S.remaining S.contents S.calls self.old self.new (length room.old)) }
    {
        if !self.listens() {
            return Ok(Heard::Nothing);
        }
        match self.stream.receive(room) {
            Ok(0) => {
                self.note(End::Client);
                self.is_closing = true;
                self.has_ended = true;
                Ok(Heard::End)
            }
            Ok(count) => {
                piece.extend_from_slice(&room[..count])?;
                if count < room.len() && !self.is_ending {
                    Ok(Heard::Last)
                } else {
                    Ok(Heard::Piece)
                }
            }
            Err(error) => match why_missed(&error) {
                Missed::Waits => Ok(Heard::Nothing),
                Missed::Interrupted => Ok(Heard::Again),
                Missed::Failed => {
                    self.fail(End::Failed(Some(error.kind())));
                    Ok(Heard::End)
                }
            },
        }
    }

    // One write of some of the bytes that are owed. Says whether it was interrupted.
    fn write(&mut self, joint: &mut Vec<u8>) -> bool
        requires full { self.old.is_full ≡ false }
        requires failed { self.old.has_failed ≡ false }
        requires owed { 0 < length self.old.owed }
        ensures writes { Writes S.remaining S.contents S.calls self.old self.new (one_if result) }
        ensures moves { result ≡ false → (self.new.is_full || self.new.has_failed || nat_lt (length self.new.owed) (length self.old.owed)) ≡ true }
    {
        match self.stream.send(front(&self.owed, joint)) {
            Ok(0) => self.fail(End::Failed(None)),
            Ok(count) => self.owed.advance(count),
            Err(error) => match why_missed(&error) {
                Missed::Waits => self.is_full = true,
                Missed::Interrupted => return true,
                Missed::Failed => self.fail(End::Failed(Some(error.kind()))),
            },
        }
        false
    }

    // Writes what is owed, until all is out or the socket takes no more or fails. Says whether a write was interrupted
    // before that.
    #[tactic(auto, using(crate::proofs::PeerLemmas::writes_none, crate::proofs::PeerLemmas::writes_trans))]
    fn drain(&mut self, joint: &mut Vec<u8>) -> bool
        ensures { Drains S.remaining S.contents S.calls self.old self.new result }
    {
        // Each write takes a byte at least.
        for _write in 0..self.owed.len() {
            if self.is_full || self.has_failed || self.owed.is_empty() {
                return false;
            }
            if self.write(joint) {
                return true;
            }
        }
        false
    }

    /// Writes what is owed, until all is out or the socket takes no more or fails. A peer that is then still owed more than
    /// 4,194,304 bytes has failed, and what it is owed is let go of, whether its connection is open or is no more.
    ///
    /// Says whether a write was interrupted before that: the peer is then to be flushed again, and nothing is judged yet.
    /// `joint` is room for frames that are joined.
    #[tactic(auto, using(crate::proofs::PeerLemmas::flushed, crate::proofs::PeerLemmas::is_within, crate::proofs::PeerLemmas::drains_spared))]
    pub fn flush(&mut self, joint: &mut Vec<u8>) -> bool
        ensures flushes { Flushes S.remaining S.contents S.calls self.old self.new result }
        ensures within { result ≡ false → length self.new.owed ≤ 4194304 }
        ensures spared { length self.old.owed ≤ 4194304 → Drains S.remaining S.contents S.calls self.old self.new result }
    {
        if self.drain(joint) {
            return true;
        }
        self.judge();
        false
    }
}

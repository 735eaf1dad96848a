//! The server and the sockets: what happens at a socket is an event of the server, and what the server
//! sends is owed to the sockets.

ghost use Rattle.std.specs.Prelude.{◌≡◌, ℕ, ◌+◌, [], ◌∷◌, true, false, OnOk, MatchResult};
ghost use Rattle.rand_core.specs.Stream.{Stream};
ghost use Rattle.server_core.specs.declared.event.Event.TheVariants as happening;
ghost use Rattle.socket_server.specs.Keeping.{keeping};
ghost use Rattle.socket_peers.specs.Peers.{departs_at, is_crowded, is_sweep_due};
ghost use Rattle.socket_server.specs.Output.{Output, EventText};
ghost use Rattle.socket_server.specs.Serving.{scene, IsNextKey, Connects, Does, Takes, Fails, SendsOut, IsUnsent, WindsUp, LooksOn, GoesOn, ReadsOn, Attends, AttendsEach, AttendsAll, TakesIn, AreNoneSilent, MayExpire, ExpiresAmong, SweepsIfDue, Stops, LeavesIf, Finishes};

use crate::kept_server::{Answer, KeptServer};
use crate::observer::Observer;
use crate::serve_fault::ServeFault;
use bytes::Bytes;
use server_core::{Event, Out};
use server_messages::Keeper;
use socket_peers::{End, Peers, Readiness, Socket};
use std::net::SocketAddr;

// The most sockets that are read from before what is owed is written.
const GROUP: usize = 16;

// There may be more to read from a socket, and nothing else is known.
const READABLE: Readiness = Readiness {
    is_writable: false,
    is_ending: false,
};

/// A connection that a socket begins.
#[derive(Clone, Copy)]
pub(crate) struct Arrival {
    /// The next number.
    pub(crate) number: u64,
    /// Where its peer is.
    pub(crate) address: SocketAddr,
    /// The bits of that address, without the port.
    pub(crate) address_bits: u128,
    pub(crate) key: [u8; 32],
}

// A connection that is no more.
#[derive(Clone, Copy)]
struct Departure {
    number: u64,
    end: End,
}

// Whether a connection is to be closed.
fn closes(outs: &[Out]) -> bool {
    for out in outs {
        if let Out::Close { conn: _ } = out {
            return true;
        }
    }
    false
}

/// Hands an event to the server, owes the sockets what it sends, and tells that and which rows fired. Says whether a connection is
/// to be closed.
pub(crate) fn hand_in<S: Socket + Drop, K: Keeper, W: Observer>(
    peers: &mut Peers<S>,
    events: &mut u64,
    server: &mut KeptServer<K>,
    observer: &mut W,
    event: &Event,
) -> Result<bool, ServeFault>
    ensures { (keys : Stream) → let old = scene keys (keeping K.kept server.old) peers.old events.old (W.output observer.old) in
        let new = scene keys (keeping K.kept server.new) peers.new events.new (W.output observer.new) in
        MatchResult result (λ _. Takes W.text event.now old new) (Fails W.text event.now old new) }
{
    let Some(number) = events.checked_add(1) else {
        return Err(ServeFault::Memory);
    };
    let Answer { outs, rows } = match server.step(event) {
        Ok(answer) => answer,
        Err(fault) => return Err(fault),
    };
    let is_close = closes(outs.as_slice());
    observer.sent(outs.as_slice());
    if peers.owe_all(outs).is_err() {
        return Err(ServeFault::Memory);
    }
    *events = number;
    match observer.saw(number, rows.as_slice()) {
        Ok(()) => Ok(is_close),
        Err(fault) => Err(fault),
    }
}

// Tells the server, and the observer, of a new connection.
fn hand_in_opening<S: Socket + Drop, K: Keeper, W: Observer>(
    peers: &mut Peers<S>,
    events: &mut u64,
    server: &mut KeptServer<K>,
    observer: &mut W,
    arrival: Arrival,
) -> Result<(), ServeFault>
    ensures { (keys : Stream) → let opened = happening.Opened arrival.number arrival.key in
        let old = scene keys (keeping K.kept server.old) peers.old events.old (W.output observer.old) in
        let new = scene keys (keeping K.kept server.new) peers.new events.new (W.output observer.new) in
        MatchResult result (λ _. Takes W.text opened old new) (Fails W.text opened old new) }
{
    let key = arrival.key;
    let opened = Event::Opened {
        conn: arrival.number,
        key,
    };
    match hand_in(peers, events, server, observer, &opened) {
        Ok(true) => {
            observer.refused(arrival.number, arrival.address);
            Ok(())
        }
        Ok(false) => {
            observer.connected(arrival.number, arrival.address);
            Ok(())
        }
        Err(fault) => Err(fault),
    }
}

// Takes in a socket that has connected: it gets the next number, and the server is told.
fn admit<S: Socket + Drop, K: Keeper, W: Observer>(
    peers: &mut Peers<S>,
    events: &mut u64,
    server: &mut KeptServer<K>,
    observer: &mut W,
    arrival: Arrival,
    stream: S,
) -> Result<(), ServeFault>
    requires number { arrival.number ≡ peers.old.last + 1 }
    requires room { is_crowded peers.old arrival.address_bits ≡ false }
    ensures { (keys : Stream) → (left : Stream) → IsNextKey keys left arrival.key →
        let old = scene keys (keeping K.kept server.old) peers.old events.old (W.output observer.old) in
        let new = scene left (keeping K.kept server.new) peers.new events.new (W.output observer.new) in
        MatchResult result (λ _. Does S.remaining S.contents S.calls W.text (Connects arrival.address_bits arrival.key) old new) (Stops S.remaining S.contents S.calls W.text old new) }
{
    if peers
        .admit(
            server.allocator(),
            arrival.number,
            arrival.address_bits,
            stream,
        )
        .is_err()
    {
        return Err(ServeFault::Memory);
    }
    hand_in_opening(peers, events, server, observer, arrival)
}

// Hands in a piece that was read from a socket.
fn hand_in_piece<S: Socket + Drop, K: Keeper, W: Observer>(
    peers: &mut Peers<S>,
    events: &mut u64,
    server: &mut KeptServer<K>,
    observer: &mut W,
    number: u64,
    piece: Vec<u8>,
) -> Result<(), ServeFault>
    ensures { (keys : Stream) → let old = scene keys (keeping K.kept server.old) peers.old events.old (W.output observer.old) in
        let new = scene keys (keeping K.kept server.new) peers.new events.new (W.output observer.new) in
        MatchResult result (λ _. Takes W.text (happening.Bytes number piece.items) old new)
        (Fails W.text (happening.Bytes number piece.items) old new) }
{
    let Ok(bytes) = Bytes::from_vec(piece) else {
        return Err(ServeFault::Memory);
    };
    let event = Event::Bytes {
        conn: number,
        bytes,
    };
    match hand_in(peers, events, server, observer, &event) {
        Ok(_) => Ok(()),
        Err(fault) => Err(fault),
    }
}

// Reads once from a socket, and hands a piece that came to the server. Says whether there may be more to read.
fn hear<S: Socket + Drop, K: Keeper, W: Observer>(
    peers: &mut Peers<S>,
    events: &mut u64,
    server: &mut KeptServer<K>,
    observer: &mut W,
    number: u64,
) -> Result<bool, ServeFault>
    ensures { (keys : Stream) →
        let old = scene keys (keeping K.kept server.old) peers.old events.old (W.output observer.old) in
        let new = scene keys (keeping K.kept server.new) peers.new events.new (W.output observer.new) in
        MatchResult result (λ more. GoesOn S.remaining S.contents S.calls W.text number old new more) (Stops S.remaining S.contents S.calls W.text old new) }
{
    let mut piece = Vec::new(server.allocator());
    let Ok(heard) = peers.read(number, &mut piece) else {
        return Err(ServeFault::Memory);
    };
    let more = heard.may_be_more();
    if !heard.is_piece() {
        return Ok(more);
    }
    match hand_in_piece(peers, events, server, observer, number, piece) {
        Ok(()) => Ok(more),
        Err(fault) => Err(fault),
    }
}

// Tells the server, and the observer, that a connection is no more.
fn hand_in_end<S: Socket + Drop, K: Keeper, W: Observer>(
    peers: &mut Peers<S>,
    events: &mut u64,
    server: &mut KeptServer<K>,
    observer: &mut W,
    departure: Departure,
) -> Result<(), ServeFault>
    ensures { (keys : Stream) → let old = scene keys (keeping K.kept server.old) peers.old events.old (W.output observer.old) in
        let new = scene keys (keeping K.kept server.new) peers.new events.new (W.output observer.new) in
        MatchResult result (λ _. Takes W.text (happening.Gone departure.number) old new)
        (Fails W.text (happening.Gone departure.number) old new) }
{
    let gone = Event::Gone {
        conn: departure.number,
    };
    match hand_in(peers, events, server, observer, &gone) {
        Ok(_) => {
            observer.closed(departure.number, departure.end);
            Ok(())
        }
        Err(fault) => Err(fault),
    }
}

// Tells the server, and the observer, where a connection is no more and they weren't told yet.
fn depart<S: Socket + Drop, K: Keeper, W: Observer>(
    peers: &mut Peers<S>,
    events: &mut u64,
    server: &mut KeptServer<K>,
    observer: &mut W,
    number: u64,
) -> Result<(), ServeFault>
    ensures serves { (keys : Stream) →
        let old = scene keys (keeping K.kept server.old) peers.old events.old (W.output observer.old) in
        let new = scene keys (keeping K.kept server.new) peers.new events.new (W.output observer.new) in
        MatchResult result (λ _. LeavesIf S.remaining S.contents S.calls W.text (departs_at peers.old number) number old new) (Stops S.remaining S.contents S.calls W.text old new) }
    ensures told { OnOk result (departs_at peers.new number ≡ false) }
{
    if peers.depart(number) {
        let departure = Departure {
            number,
            end: peers.end_of(number),
        };
        return hand_in_end(peers, events, server, observer, departure);
    }
    Ok(())
}

// Tells the server where a connection is no more, and lets go of its socket once all that it is owed was written.
fn finish<S: Socket + Drop, K: Keeper, W: Observer>(
    peers: &mut Peers<S>,
    events: &mut u64,
    server: &mut KeptServer<K>,
    observer: &mut W,
    number: u64,
) -> Result<(), ServeFault>
    ensures serves { (keys : Stream) →
        let old = scene keys (keeping K.kept server.old) peers.old events.old (W.output observer.old) in
        let new = scene keys (keeping K.kept server.new) peers.new events.new (W.output observer.new) in
        MatchResult result (λ _. Finishes S.remaining S.contents S.calls W.text number old new) (Stops S.remaining S.contents S.calls W.text old new) }
    ensures told { OnOk result (departs_at peers.new number ≡ false) }
{
    match depart(peers, events, server, observer, number) {
        Ok(()) => {
            peers.release(number);
            Ok(())
        }
        Err(fault) => Err(fault),
    }
}

// Hands in a piece that a socket has sent. One that may have more then is to be looked at again, behind all others.
fn read_piece<S: Socket + Drop, K: Keeper, W: Observer>(
    peers: &mut Peers<S>,
    events: &mut u64,
    server: &mut KeptServer<K>,
    observer: &mut W,
    number: u64,
) -> Result<(), ServeFault>
    ensures { (keys : Stream) →
        let old = scene keys (keeping K.kept server.old) peers.old events.old (W.output observer.old) in
        let new = scene keys (keeping K.kept server.new) peers.new events.new (W.output observer.new) in
        MatchResult result (λ _. ReadsOn S.remaining S.contents S.calls W.text number old new) (Stops S.remaining S.contents S.calls W.text old new) }
{
    match hear(peers, events, server, observer, number) {
        Ok(true) => match peers.report(number, READABLE) {
            Ok(()) => Ok(()),
            Err(_) => Err(ServeFault::Memory),
        },
        Ok(false) => Ok(()),
        Err(fault) => Err(fault),
    }
}

/// Has all that waits be kept, and then writes what was owed to sockets since this was done last.
pub(crate) fn send_out<S: Socket + Drop, K: Keeper>(
    peers: &mut Peers<S>,
    server: &mut KeptServer<K>,
) -> Result<(), ServeFault>
    ensures { (text : EventText) → (keys : Stream) → (events : ℕ) → (output : Output) →
        let old = scene keys (keeping K.kept server.old) peers.old events output in
        let new = scene keys (keeping K.kept server.new) peers.new events output in
        MatchResult result (λ _. SendsOut S.remaining S.contents S.calls text old new) (IsUnsent old new) }
{
    match server.settle() {
        Ok(()) => {}
        Err(fault) => return Err(fault),
    }
    match peers.flush_touched() {
        Ok(()) => Ok(()),
        Err(_) => Err(ServeFault::Memory),
    }
}

/// What is left to be done after a fault. Where who keeps what is stored failed, that is nothing: nothing may go out. After another
/// fault what the events before made the server store is kept, and then what they made it send is written, as far as the sockets take it.
pub(crate) fn wind_up<S: Socket + Drop, K: Keeper>(
    peers: &mut Peers<S>,
    server: &mut KeptServer<K>,
    fault: ServeFault,
)
    ensures { (keys : Stream) → (events : ℕ) → (output : Output) →
        let old = scene keys (keeping K.kept server.old) peers.old events output in
        let new = scene keys (keeping K.kept server.new) peers.new events output in
        WindsUp fault old new }
{
    match fault {
        ServeFault::Store(_) => {}
        _ => {
            let _ = send_out(peers, server);
        }
    }
}

// Looks at a socket, which writes what it is owed. Where that is something, all that waits is kept before.
fn look_on<S: Socket + Drop, K: Keeper>(
    peers: &mut Peers<S>,
    server: &mut KeptServer<K>,
    number: u64,
) -> Result<(), ServeFault>
    ensures { (text : EventText) → (keys : Stream) → (events : ℕ) → (output : Output) →
        let old = scene keys (keeping K.kept server.old) peers.old events output in
        let new = scene keys (keeping K.kept server.new) peers.new events output in
        MatchResult result (λ _. LooksOn S.remaining S.contents S.calls text number old new) (Stops S.remaining S.contents S.calls text old new) }
{
    if peers.is_owed(number) {
        match server.settle() {
            Ok(()) => {}
            Err(fault) => return Err(fault),
        }
    }
    match peers.look_at(number) {
        Ok(()) => Ok(()),
        Err(_) => Err(ServeFault::Memory),
    }
}

// Looks at a socket: writes what it is owed, hands in what it has sent, tells the server where its connection is no more, and
// lets go of it where it is done with.
fn attend<S: Socket + Drop, K: Keeper, W: Observer>(
    peers: &mut Peers<S>,
    events: &mut u64,
    server: &mut KeptServer<K>,
    observer: &mut W,
    number: u64,
) -> Result<(), ServeFault>
    ensures serves { (keys : Stream) →
        let old = scene keys (keeping K.kept server.old) peers.old events.old (W.output observer.old) in
        let new = scene keys (keeping K.kept server.new) peers.new events.new (W.output observer.new) in
        MatchResult result (λ _. Attends S.remaining S.contents S.calls W.text number old new) (Stops S.remaining S.contents S.calls W.text old new) }
    ensures told { OnOk result (departs_at peers.new number ≡ false) }
{
    match look_on(peers, server, number) {
        Ok(()) => {}
        Err(fault) => return Err(fault),
    }
    match read_piece(peers, events, server, observer, number) {
        Ok(()) => finish(peers, events, server, observer, number),
        Err(fault) => Err(fault),
    }
}

// Looks at these sockets, one after the other.
fn attend_each<S: Socket + Drop, K: Keeper, W: Observer>(
    peers: &mut Peers<S>,
    events: &mut u64,
    server: &mut KeptServer<K>,
    observer: &mut W,
    numbers: &[u64],
) -> Result<(), ServeFault>
    ensures { (keys : Stream) →
        let old = scene keys (keeping K.kept server.old) peers.old events.old (W.output observer.old) in
        let new = scene keys (keeping K.kept server.new) peers.new events.new (W.output observer.new) in
        MatchResult result (λ _. AttendsEach S.remaining S.contents S.calls W.text numbers.now old new) (Stops S.remaining S.contents S.calls W.text old new) }
{
    for number in numbers {
        match attend(peers, events, server, observer, *number) {
            Ok(()) => {}
            Err(fault) => return Err(fault),
        }
    }
    Ok(())
}

/// Writes what the sockets are owed, and looks at each that is to be looked at. What the server sends to several of them is written
/// together, behind the last of at most 16 that are read from: so writes come in a row, while their code is at hand. And what it
/// stores of several of them is kept together, right before that.
pub(crate) fn attend_all<S: Socket + Drop, K: Keeper, W: Observer>(
    peers: &mut Peers<S>,
    events: &mut u64,
    server: &mut KeptServer<K>,
    observer: &mut W,
) -> Result<(), ServeFault>
    ensures { (keys : Stream) →
        let old = scene keys (keeping K.kept server.old) peers.old events.old (W.output observer.old) in
        let new = scene keys (keeping K.kept server.new) peers.new events.new (W.output observer.new) in
        MatchResult result (λ _. AttendsAll S.remaining S.contents S.calls W.text old new) (Stops S.remaining S.contents S.calls W.text old new) }
{
    match send_out(peers, server) {
        Ok(()) => {}
        Err(fault) => return Err(fault),
    }
    let awake = peers.take_awake(server.allocator());
    for group in awake.chunks(GROUP) {
        match attend_each(peers, events, server, observer, group) {
            Ok(()) => {}
            Err(fault) => return Err(fault),
        }
        match send_out(peers, server) {
            Ok(()) => {}
            Err(fault) => return Err(fault),
        }
    }
    Ok(())
}

/// Takes in a socket that has connected, and looks at it at once: it may have sent its first frame, or be
/// gone again.
pub(crate) fn join_socket<S: Socket + Drop, K: Keeper, W: Observer>(
    peers: &mut Peers<S>,
    events: &mut u64,
    server: &mut KeptServer<K>,
    observer: &mut W,
    arrival: Arrival,
    stream: S,
) -> Result<(), ServeFault>
    requires number { arrival.number ≡ peers.old.last + 1 }
    requires room { is_crowded peers.old arrival.address_bits ≡ false }
    ensures { (keys : Stream) → (left : Stream) → IsNextKey keys left arrival.key →
        let old = scene keys (keeping K.kept server.old) peers.old events.old (W.output observer.old) in
        let new = scene left (keeping K.kept server.new) peers.new events.new (W.output observer.new) in
        MatchResult result (λ _. TakesIn S.remaining S.contents S.calls W.text arrival.address_bits old new) (Stops S.remaining S.contents S.calls W.text old new) }
{
    let number = arrival.number;
    match admit(peers, events, server, observer, arrival, stream) {
        Ok(()) => attend(peers, events, server, observer, number),
        Err(fault) => Err(fault),
    }
}

// Lets go of a socket to which nothing was sent for as long as one may stay so, and of no other. The server and the observer are told
// that its connection is no more, unless they were told before.
fn expire<S: Socket + Drop, K: Keeper, W: Observer>(
    peers: &mut Peers<S>,
    events: &mut u64,
    server: &mut KeptServer<K>,
    observer: &mut W,
    number: u64,
) -> Result<(), ServeFault>
    ensures expires { (keys : Stream) →
        let old = scene keys (keeping K.kept server.old) peers.old events.old (W.output observer.old) in
        let new = scene keys (keeping K.kept server.new) peers.new events.new (W.output observer.new) in
        MatchResult result (λ _. MayExpire S.remaining S.contents S.calls W.text number old new) (Stops S.remaining S.contents S.calls W.text old new) }
    ensures silent { OnOk result (AreNoneSilent (number ∷ []) peers.old peers.new) }
{
    match peers.expire(number) {
        Some(false) => {
            let departure = Departure {
                number,
                end: peers.end_of(number),
            };
            hand_in_end(peers, events, server, observer, departure)
        }
        Some(true) => Ok(()),
        None => Ok(()),
    }
}

// Lets go of the silent ones among these sockets.
fn expire_each<S: Socket + Drop, K: Keeper, W: Observer>(
    peers: &mut Peers<S>,
    events: &mut u64,
    server: &mut KeptServer<K>,
    observer: &mut W,
    numbers: &[u64],
) -> Result<(), ServeFault>
    ensures { (keys : Stream) →
        let old = scene keys (keeping K.kept server.old) peers.old events.old (W.output observer.old) in
        let new = scene keys (keeping K.kept server.new) peers.new events.new (W.output observer.new) in
        MatchResult result (λ _. ExpiresAmong S.remaining S.contents S.calls W.text numbers.now old new) (Stops S.remaining S.contents S.calls W.text old new) }
{
    for number in numbers {
        match expire(peers, events, server, observer, *number) {
            Ok(()) => {}
            Err(fault) => return Err(fault),
        }
    }
    Ok(())
}

/// Lets go of the sockets to which nothing was sent for as long as one may stay so, where they were last looked for a second ago or
/// more.
pub(crate) fn sweep<S: Socket + Drop, K: Keeper, W: Observer>(
    peers: &mut Peers<S>,
    events: &mut u64,
    server: &mut KeptServer<K>,
    observer: &mut W,
) -> Result<(), ServeFault>
    ensures { (keys : Stream) →
        let old = scene keys (keeping K.kept server.old) peers.old events.old (W.output observer.old) in
        let new = scene keys (keeping K.kept server.new) peers.new events.new (W.output observer.new) in
        MatchResult result (λ _. SweepsIfDue S.remaining S.contents S.calls W.text (is_sweep_due peers.old) old new) (Stops S.remaining S.contents S.calls W.text old new) }
{
    if !peers.is_sweep_due() {
        return Ok(());
    }
    let Ok(numbers) = peers.begin_sweep(server.allocator()) else {
        return Err(ServeFault::Memory);
    };
    expire_each(peers, events, server, observer, numbers.as_slice())
}

//! The loop over `mio`.

ghost use Rattle.std.specs.Prelude.{◌≡◌, ℕ, List, OnOk, IfOk, IfErr, IfSome, false, true, MatchResult};
ghost use Rattle.std.specs.FinMap as map;
ghost use Rattle.std.specs.Duration.{as_nanos};
ghost use Rattle.std.specs.Net.Socket.{socket_ip};
ghost use Rattle.mio.specs.declared.event.event.Event as ready;
ghost use Rattle.mio.specs.Events.{items};
ghost use Rattle.socket_server.specs.Keeping.{keeping};
ghost use Rattle.server_core.specs.declared.event.Event.TheVariants as ending;
ghost use Rattle.socket_server.specs.Moments.{moment_since_1970};
ghost use Rattle.socket_server.specs.Sockets.{IsUnserved, IsLocal, unlimited, address_bits as address_bits_spec, key_stream};
ghost use Rattle.socket_server.specs.Serving.{scene, unknown, uncounted, is_of_listener, is_listener_among, with_reports, readiness_of as readiness_of_spec, reported_event, reported_events, Passes, Does, IsOutside, Takes, HandsIn, Fails, Stops, GivesUp, MayTakeIn, TakesInSome, SweepsIfDue, TakesTurn, Turns, IsTurns, ServesUntil, Drawn};
ghost use Rattle.socket_peers.specs.Peers.{is_sweep_due};

use crate::events::{Arrival, attend_all, hand_in, join_socket, send_out, sweep, wind_up};
use crate::kept_server::KeptServer;
use crate::observer::Observer;
use crate::serve_fault::ServeFault;
use crate::until::Until;
use mio::event::Event;
use mio::net::{TcpListener, TcpStream};
use mio::{Events, Interest, Poll, Token};
use rand::make_rng;
use rand::rngs::StdRng;
use rand_core::Rng;
use server_core::Event as ServerEvent;
use server_messages::Keeper;
use socket_peers::{PeerLimits, Peers, Readiness};
use std::alloc::{AllocError, Global};
use std::io;
use std::io::ErrorKind;
use std::marker::Model;
use std::net::{IpAddr, Ipv4Addr, Net, SocketAddr};
use std::random::RandomSource;
use std::sync::Wait;
use std::time::{Clock, Duration, SystemTime};
use ua_types::Moment;

// The listening socket. Connections have the numbers from 1 on.
const LISTENER: Token = Token(0);

// How long a turn waits where no socket is ready, in milliseconds.
const WAIT: u64 = 100;

// The most sockets that are reported in a turn. Others are reported in the next.
const REPORTS: usize = 1024;

// The most connections that are taken in within a turn.
const ACCEPTS: usize = 256;

// What the address ::ffff:0:0 is as a number. Behind it lie those of 32 bits.
const MAPPED: u128 = 0xffff_0000_0000;

// The 100 ns units from 1601, where moments begin, to 1970, where the system's clock does.
const FROM_1601_TO_1970: u128 = 116_444_736_000_000_000;

/// A listening socket, and the sockets of the connections that it took in.
#[derive(Drop)]
pub struct Serve {
    poll: Poll,
    events: Events,
    listener: TcpListener,
    // Where it was asked to listen. The system chooses a port for port 0.
    asked_address: IpAddr,
    asked_port: u16,
    keys: StdRng,
    // There may be a connection to be taken in.
    may_accept: bool,
    // As many were taken in within the last turn as may be: there may be more.
    is_backlogged: bool,
    peers: Peers<TcpStream>,
    // How many events the server was handed. The next has the number behind that.
    events_so_far: u64,
}

impl Model for Serve {
    ghost use Rattle.mio.specs.declared.net.stream.TcpStream.{TcpStream};
    ghost use Rattle.mio.specs.contracts.net.stream.TcpStream as tcp_stream;
    ghost use Rattle.std.specs.contracts.net.ip_addr.IpAddr as ip_addr_row;
    ghost use Rattle.socket_server.specs.Sockets.{Sockets, sockets_code};

    ghost Value = { Sockets TcpStream };

    ghost coded = { sockets_code ip_addr_row.the_row.coded tcp_stream.the_row.coded };

    ghost view = { λ s. record {
      address = s.asked_address;
      port = s.asked_port;
      keys = s.keys;
      may_accept = s.may_accept;
      peers = s.peers;
      events = s.events_so_far;
    } };
}

// How a socket is reported as ready. One that is closed for reading, or in error, is reported as ending: its end, or its failure, may
// lie behind bytes, and no further report comes of it.
fn readiness_of(event: &Event) -> Readiness
    ensures { result ≡ readiness_of_spec event.now }
{
    Readiness {
        is_writable: event.is_writable() || event.is_write_closed() || event.is_error(),
        is_ending: event.is_read_closed() || event.is_error(),
    }
}

// Wakes the socket that is reported as ready, or says that one may have connected.
fn report_event(peers: &mut Peers<TcpStream>, event: &Event) -> Result<bool, AllocError>
    ensures { IfOk result (λ connected. (connected ≡ is_of_listener event.now) × (peers.new ≡ reported_event peers.old event.now)) }
{
    if event.token() == LISTENER {
        return Ok(true);
    }
    let Token(number) = event.token();
    peers.report(number as u64, readiness_of(event))?;
    Ok(false)
}

// Wakes the sockets that are reported as ready, and says whether one may have connected.
fn report_all(peers: &mut Peers<TcpStream>, events: &Events) -> Result<bool, AllocError>
    ensures peers { OnOk result (peers.new ≡ reported_events peers.old (items events.now)) }
    ensures connected { IfOk result (λ connected. connected ≡ is_listener_among (items events.now)) }
{
    let mut connected = false;
    for event in events.iter() {
        connected |= report_event(peers, event)?;
    }
    Ok(connected)
}

// Why it can't be listened.
fn not_had(kind: ErrorKind) -> ServeFault
    ensures { IsOutside result }
{
    match kind {
        ErrorKind::AddrInUse | ErrorKind::PermissionDenied => ServeFault::Port,
        ErrorKind::AddrNotAvailable => ServeFault::Address,
        _ => ServeFault::Network,
    }
}

// The bits of an address.
fn address_bits(address: IpAddr) -> u128
    ensures { result ≡ address_bits_spec address }
{
    match address {
        IpAddr::V4(short) => MAPPED + short.to_bits() as u128,
        IpAddr::V6(long) => long.to_bits(),
    }
}

// The key of a new connection: the next bytes of a generator that the system seeded.
fn fresh_key<K: Rng>(keys: &mut K) -> [u8; 32]
    ensures { Drawn K.stream keys.old keys.new result }
{
    let mut key = [0; 32];
    keys.fill_bytes(&mut key);
    key
}

// The moment so long after the beginning of 1970, or the last that there is: 100 ns units since the year 1601.
fn moment_of(since_1970: Duration) -> Moment
    ensures { result ≡ moment_since_1970 (as_nanos since_1970) }
{
    let units = since_1970.as_nanos() / 100 + FROM_1601_TO_1970;
    Moment(i64::try_from(units).unwrap_or(i64::MAX))
}

// The moment that the system's clock shows. A clock before 1970 shows 1970.
fn moment<R: Clock>(rt: &R) -> io::Result<Moment> {
    let now = SystemTime::now(rt)?;
    let since_1970 = match now.duration_since(SystemTime::UNIX_EPOCH) {
        Ok(since) => since,
        Err(_) => Duration::ZERO,
    };
    Ok(moment_of(since_1970))
}

impl Serve {
    /// Listens at this port of 127.0.0.1, as [`Serve::listen`] does.
    pub fn bind<R: Net + RandomSource>(
        rt: &R,
        alloc: Global,
        port: u16,
    ) -> Result<Serve, ServeFault>
        ensures ok { IfOk result (λ serve. IsLocal serve.address × IsUnserved serve.address port unlimited serve) }
        ensures err { IfErr result IsOutside }
    {
        Serve::listen(
            rt,
            alloc,
            IpAddr::V4(Ipv4Addr::LOCALHOST),
            port,
            PeerLimits::NONE,
        )
    }

    /// Listens at this port of this address, where port 0 is one that the system chooses, and the
    /// addresses 0.0.0.0 and :: are all that the machine has. `Port` or `Address` where that can't be had.
    pub fn listen<R: Net + RandomSource>(
        rt: &R,
        alloc: Global,
        address: IpAddr,
        port: u16,
        limits: PeerLimits,
    ) -> Result<Serve, ServeFault>
        ensures ok { IfOk result (IsUnserved address port limits) }
        ensures err { IfErr result IsOutside }
    {
        let mut listener = match TcpListener::bind(rt, SocketAddr::from((address, port))) {
            Ok(listener) => listener,
            Err(error) => return Err(not_had(error.kind())),
        };
        let Ok(poll) = Poll::new(rt) else {
            return Err(ServeFault::Network);
        };
        let registry = poll.registry();
        if registry
            .register(&mut listener, LISTENER, Interest::READABLE)
            .is_err()
        {
            return Err(ServeFault::Network);
        }
        let Ok(keys) = make_rng(rt) else {
            return Err(ServeFault::Network);
        };
        let Ok(events) = Events::with_capacity(alloc, REPORTS) else {
            return Err(ServeFault::Memory);
        };
        Ok(Serve {
            poll,
            events,
            listener,
            asked_address: address,
            asked_port: port,
            keys,
            may_accept: true,
            is_backlogged: false,
            peers: Peers::new(alloc, limits),
            events_so_far: 0,
        })
    }

    /// The address that it listens at.
    pub fn address(&self) -> io::Result<SocketAddr> {
        self.listener.local_addr()
    }

    /// How many connections there are.
    pub fn len(&self) -> usize
        ensures { result ≡ map.len self.now.peers.connected }
    {
        self.peers.len()
    }

    /// How many bytes its sockets are owed. Takes memory for their numbers.
    pub fn owed(&self, alloc: Global) -> Result<u64, AllocError> {
        self.peers.owed(alloc)
    }

    /// The moment of the last turn; 0 before the first.
    pub fn moment(&self) -> Moment
        ensures { result ≡ self.now.peers.clock }
    {
        self.peers.moment()
    }

    /// Serves until it is to end: for so many turns, without end for 0, or until it is asked to stop. A turn waits until a socket is
    /// ready, at most for 100 ms; then it tells the server the time, takes in who has connected, lets go of silent sockets, once a
    /// second, and looks at each socket that is ready. After the last turn the server is told to end: what waits is answered, each
    /// connection is told that the server shuts down, and what is owed then is written as far as the sockets take it at once. The
    /// observer is told what is sent and which rows fire at each event, which connections come and go, and when a turn is over.
    ///
    /// Each event that is handed to the server counts, from 1 on; a later run counts on. Without end it ends with a fault alone, or as
    /// it is asked to.
    ///
    /// The server should know no connection of another's, since numbers count up from 1. At `Step`,
    /// `Trace` and `Memory` it is as its last step left it. What the events before sent is still written then, as far as the sockets
    /// take it, but where memory is wanting for that, too; what the last one sent may be lost, at `Memory` also what was read last.
    ///
    /// What the server stores is kept before anything is written that it sent then or later: what at most 16 sockets made it store is
    /// kept by one call, and none is made where nothing was stored. At `Store` what was stored last isn't kept, and nothing is written
    /// from then on.
    pub fn run<R: Clock + Wait, K: Keeper, W: Observer, U: Until<R>>(
        &mut self,
        rt: &R,
        server: &mut KeptServer<K>,
        observer: &mut W,
        until: &mut U,
    ) -> Result<(), ServeFault>
        ensures { let old = scene (key_stream self.old.keys) (keeping K.kept server.old) self.old.peers self.old.events (W.output observer.old) in
            let new = scene (key_stream self.new.keys) (keeping K.kept server.new) self.new.peers self.new.events (W.output observer.new) in
            MatchResult result (λ _. ServesUntil unknown unknown uncounted W.text U.may_ask (U.most until.old) old new) (GivesUp unknown unknown uncounted W.text old new) }
    {
        match self.run_on(rt, server, observer, until) {
            Ok(()) => self.tell_the_end(server, observer),
            Err(fault) => Err(fault),
        }
    }

    // Turns, up to the bound or until it is asked to stop.
    fn run_on<R: Clock + Wait, K: Keeper, W: Observer, U: Until<R>>(
        &mut self,
        rt: &R,
        server: &mut KeptServer<K>,
        observer: &mut W,
        until: &mut U,
    ) -> Result<(), ServeFault>
        ensures { let old = scene (key_stream self.old.keys) (keeping K.kept server.old) self.old.peers self.old.events (W.output observer.old) in
            let new = scene (key_stream self.new.keys) (keeping K.kept server.new) self.new.peers self.new.events (W.output observer.new) in
            MatchResult result (λ _. (turns : ℕ) × IsTurns U.may_ask (U.most until.old) turns × Turns unknown unknown uncounted W.text turns old new) (GivesUp unknown unknown uncounted W.text old new) }
    {
        // 0 where there is no bound.
        let mut left = until.turns();
        for _turn in rt.forever() {
            match self.turn(rt, server, observer) {
                Ok(()) => {}
                Err(fault) => return Err(fault),
            }
            if left == 1 {
                return Ok(());
            }
            if until.asks_to_stop(rt) {
                return Ok(());
            }
            left = left.saturating_sub(1);
        }
        unreachable!()
    }

    // A turn, of whose end the observer is told. Where it fails, what the events before made the server store is still kept, and then
    // what they made it send is written, as far as the sockets take it; but not where the keeper failed.
    fn turn<R: Clock, K: Keeper, W: Observer>(
        &mut self,
        rt: &R,
        server: &mut KeptServer<K>,
        observer: &mut W,
    ) -> Result<(), ServeFault>
        ensures { let old = scene (key_stream self.old.keys) (keeping K.kept server.old) self.old.peers self.old.events (W.output observer.old) in
            let new = scene (key_stream self.new.keys) (keeping K.kept server.new) self.new.peers self.new.events (W.output observer.new) in
            MatchResult result (λ _. TakesTurn unknown unknown uncounted W.text old new) (GivesUp unknown unknown uncounted W.text old new) }
    {
        match self.take_turn(rt, server, observer) {
            Ok(()) => {
                observer.turned(server.allocator(), self, server.server());
                Ok(())
            }
            Err(fault) => {
                wind_up(&mut self.peers, server, fault);
                Err(fault)
            }
        }
    }

    fn take_turn<R: Clock, K: Keeper, W: Observer>(
        &mut self,
        rt: &R,
        server: &mut KeptServer<K>,
        observer: &mut W,
    ) -> Result<(), ServeFault>
        ensures { let old = scene (key_stream self.old.keys) (keeping K.kept server.old) self.old.peers self.old.events (W.output observer.old) in
            let new = scene (key_stream self.new.keys) (keeping K.kept server.new) self.new.peers self.new.events (W.output observer.new) in
            MatchResult result (λ _. TakesTurn unknown unknown uncounted W.text old new) (Stops unknown unknown uncounted W.text old new) }
    {
        match self.wait() {
            Ok(()) => {}
            Err(fault) => return Err(fault),
        }
        let Ok(now) = moment(rt) else {
            return Err(ServeFault::Network);
        };
        match self.tick(server, observer, now) {
            Ok(()) => {}
            Err(fault) => return Err(fault),
        }
        match self.accept_all(server, observer) {
            Ok(()) => {}
            Err(fault) => return Err(fault),
        }
        match self.expire_silent(server, observer) {
            Ok(()) => attend_all(&mut self.peers, &mut self.events_so_far, server, observer),
            Err(fault) => Err(fault),
        }
    }

    // Tells the sockets and the server the time.
    fn tick<K: Keeper, W: Observer>(
        &mut self,
        server: &mut KeptServer<K>,
        observer: &mut W,
        now: Moment,
    ) -> Result<(), ServeFault>
        ensures { let old = scene (key_stream self.old.keys) (keeping K.kept server.old) self.old.peers self.old.events (W.output observer.old) in
            let new = scene (key_stream self.new.keys) (keeping K.kept server.new) self.new.peers self.new.events (W.output observer.new) in
            MatchResult result (λ _. Does unknown unknown uncounted W.text (Passes now) old new) (Fails W.text (ending.Tick now) old new) }
    {
        self.peers.tell_time(now);
        self.tell(server, observer, &ServerEvent::Tick { now })
    }

    // Lets go of silent sockets, once a second.
    fn expire_silent<K: Keeper, W: Observer>(
        &mut self,
        server: &mut KeptServer<K>,
        observer: &mut W,
    ) -> Result<(), ServeFault>
        ensures { let old = scene (key_stream self.old.keys) (keeping K.kept server.old) self.old.peers self.old.events (W.output observer.old) in
            let new = scene (key_stream self.new.keys) (keeping K.kept server.new) self.new.peers self.new.events (W.output observer.new) in
            MatchResult result (λ _. SweepsIfDue unknown unknown uncounted W.text (is_sweep_due self.old.peers) old new) (Stops unknown unknown uncounted W.text old new) }
    {
        sweep(&mut self.peers, &mut self.events_so_far, server, observer)
    }

    // Tells the server what happened.
    fn tell<K: Keeper, W: Observer>(
        &mut self,
        server: &mut KeptServer<K>,
        observer: &mut W,
        event: &ServerEvent,
    ) -> Result<(), ServeFault>
        ensures { let old = scene (key_stream self.old.keys) (keeping K.kept server.old) self.old.peers self.old.events (W.output observer.old) in
            let new = scene (key_stream self.new.keys) (keeping K.kept server.new) self.new.peers self.new.events (W.output observer.new) in
            MatchResult result (λ _. Takes W.text event.now old new) (Fails W.text event.now old new) }
    {
        match hand_in(
            &mut self.peers,
            &mut self.events_so_far,
            server,
            observer,
            event,
        ) {
            Ok(_) => Ok(()),
            Err(fault) => Err(fault),
        }
    }

    // Tells the server to end, has what waits be kept, and writes what the sockets take of what it sends then.
    fn tell_the_end<K: Keeper, W: Observer>(
        &mut self,
        server: &mut KeptServer<K>,
        observer: &mut W,
    ) -> Result<(), ServeFault>
        ensures { let old = scene (key_stream self.old.keys) (keeping K.kept server.old) self.old.peers self.old.events (W.output observer.old) in
            let new = scene (key_stream self.new.keys) (keeping K.kept server.new) self.new.peers self.new.events (W.output observer.new) in
            MatchResult result (λ _. HandsIn unknown unknown uncounted W.text ending.Shutdown old new) (GivesUp unknown unknown uncounted W.text old new) }
    {
        match self.tell(server, observer, &ServerEvent::Shutdown) {
            Ok(()) => {}
            Err(fault) => return Err(fault),
        }
        send_out(&mut self.peers, server)
    }

    // Waits until a socket is ready, and wakes those that are.
    fn wait(&mut self) -> Result<(), ServeFault>
        ensures ok { OnOk result ((events : List ready.Event) × (self.new ≡ with_reports self.old events)) }
        ensures outside { IfErr result IsOutside }
    {
        let wait = if self.is_backlogged || self.peers.is_any_awake() {
            Duration::ZERO
        } else {
            Duration::from_millis(WAIT)
        };
        if self.poll.poll(&mut self.events, Some(wait)).is_err() {
            return Err(ServeFault::Network);
        }
        match report_all(&mut self.peers, &self.events) {
            Ok(connected) => {
                self.may_accept |= connected;
                Ok(())
            }
            Err(_) => Err(ServeFault::Memory),
        }
    }

    // Takes in those who have connected. Where there may be more than a turn takes in, the next one doesn't wait.
    fn accept_all<K: Keeper, W: Observer>(
        &mut self,
        server: &mut KeptServer<K>,
        observer: &mut W,
    ) -> Result<(), ServeFault>
        ensures { let old = scene (key_stream self.old.keys) (keeping K.kept server.old) self.old.peers self.old.events (W.output observer.old) in
            let new = scene (key_stream self.new.keys) (keeping K.kept server.new) self.new.peers self.new.events (W.output observer.new) in
            MatchResult result (λ _. TakesInSome unknown unknown uncounted W.text old new) (Stops unknown unknown uncounted W.text old new) }
    {
        match self.accept_some(server, observer) {
            Ok(is_backlogged) => {
                self.is_backlogged = is_backlogged;
                Ok(())
            }
            Err(fault) => Err(fault),
        }
    }

    // Takes in as many of those who have connected as a turn may. Says whether they were as many.
    fn accept_some<K: Keeper, W: Observer>(
        &mut self,
        server: &mut KeptServer<K>,
        observer: &mut W,
    ) -> Result<bool, ServeFault>
        ensures { let old = scene (key_stream self.old.keys) (keeping K.kept server.old) self.old.peers self.old.events (W.output observer.old) in
            let new = scene (key_stream self.new.keys) (keeping K.kept server.new) self.new.peers self.new.events (W.output observer.new) in
            MatchResult result (λ _. TakesInSome unknown unknown uncounted W.text old new) (Stops unknown unknown uncounted W.text old new) }
    {
        for _accept in 0..ACCEPTS {
            let Some((stream, address)) = self.accept() else {
                return Ok(false);
            };
            match self.take_in(server, observer, stream, address) {
                Ok(()) => {}
                Err(fault) => return Err(fault),
            }
        }
        Ok(true)
    }

    // The next who has connected. A connection that is gone again is passed over. Where there are no more
    // descriptors, or no memory, it is tried again in the next turn.
    fn accept(&mut self) -> Option<(TcpStream, SocketAddr)>
        ensures still { self.new ≡ record self.old { may_accept = self.new.may_accept } }
        ensures more { IfSome result (λ _. self.new.may_accept ≡ true) }
        ensures none { self.old.may_accept ≡ false → self.new.may_accept ≡ false }
    {
        for _try in 0..ACCEPTS {
            if !self.may_accept {
                return None;
            }
            match self.listener.accept() {
                Ok(accepted) => return Some(accepted),
                Err(error) => match error.kind() {
                    ErrorKind::ConnectionAborted | ErrorKind::Interrupted => {}
                    kind => {
                        self.may_accept = kind != ErrorKind::WouldBlock;
                        return None;
                    }
                },
            }
        }
        None
    }

    // Takes in one who has connected. A further socket of an address of which there are as many as may be is closed at once, and
    // one that can't be waited for is let go of.
    fn take_in<K: Keeper, W: Observer>(
        &mut self,
        server: &mut KeptServer<K>,
        observer: &mut W,
        mut stream: TcpStream,
        address: SocketAddr,
    ) -> Result<(), ServeFault>
        ensures { let old = scene (key_stream self.old.keys) (keeping K.kept server.old) self.old.peers self.old.events (W.output observer.old) in
            let new = scene (key_stream self.new.keys) (keeping K.kept server.new) self.new.peers self.new.events (W.output observer.new) in
            MatchResult result (λ _. MayTakeIn unknown unknown uncounted W.text (address_bits_spec (socket_ip address)) old new) (Stops unknown unknown uncounted W.text old new) }
    {
        let bits = address_bits(address.ip());
        if self.peers.is_crowded(bits) {
            observer.crowded(address);
            return Ok(());
        }
        let Some(number) = self.peers.next() else {
            return Ok(());
        };
        let _ = stream.set_nodelay(true);
        let token = Token(number as usize);
        let both = Interest::READABLE | Interest::WRITABLE;
        if self
            .poll
            .registry()
            .register(&mut stream, token, both)
            .is_err()
        {
            return Ok(());
        }
        let arrival = Arrival {
            number,
            address,
            address_bits: bits,
            key: fresh_key(&mut self.keys),
        };
        join_socket(
            &mut self.peers,
            &mut self.events_so_far,
            server,
            observer,
            arrival,
            stream,
        )
    }
}

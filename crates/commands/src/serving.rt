//! What `serve` does.

ghost use Rattle.std.specs.Prelude.{◌≡◌, Option, Some, IfOk, MatchResult, is_some, option_map, string_bytes};
ghost use Rattle.server_core.specs.World.{opening};
ghost use Rattle.socket_server.specs.Keeping.{keeping, keeping_all};
ghost use Rattle.socket_server.specs.Sockets.{key_stream};
ghost use Rattle.socket_server.specs.Serving.{scene, unknown, uncounted, ServesUntil, GivesUp};
ghost use Rattle.scenario_run.specs.Held.{place};
ghost use Rattle.commands.specs.NodeFiles.{Made};
ghost use Rattle.commands.specs.Said.{MadeBy};
ghost use Rattle.commands.specs.Serving.{BeginsWithStore, Restores, IsUnopened, ServesWith, ServesOn, ServesBy, ServesMade, ServesFile, status_served, status_stored};
ghost use Rattle.commands.specs.Serving.{idle_of as idle_of_spec, listening_line as listening_line_spec, with_url as with_url_spec, configured as configured_spec, with_store as with_store_spec};

use crate::exit_status::ExitStatus;
use crate::footprint::most_bytes;
use crate::log::Log;
use crate::machine::Machine;
use crate::process::Process;
use crate::program::{Ended, no_memory, nodes_in, read_file, say, step_fault, stream};
use crate::stop_file::StopFile;
use crate::watching::{Tracing, Visitors, Visits};
use command_line::ServeOptions;
use server_core::Server;
use server_messages::{Keeper, KeptValues, NoKeeper, StoreFault};
use socket_server::{KeptServer, Observer, PeerLimits, Serve, ServeFault, Turns};
use std::alloc::{AllocError, Global};
use std::io::Write;
use std::net::{IpAddr, Net, SocketAddr};
use std::random::RandomSource;
use std::rt::Files;
use std::sync::Wait;
use std::time::Clock;
use store_restoring::{OpensStores, Restoring, latest_time, restore};
use stream_taps::Tap;
use ua_space::Space;
use ua_types::{Config, Text, write_id};

// Says why a store can't keep what is to be kept, or can't be opened.
fn store_fault<E: Write>(fault: StoreFault, errors: &mut E) -> ExitStatus
    ensures { result ≡ status_stored fault }
{
    match fault {
        StoreFault::Memory => no_memory(errors),
        _ => {
            let _ = writeln!(errors, "store {fault:?}");
            ExitStatus::Store
        }
    }
}

// How the end of serving ends the program.
fn served<E: Write>(ran: Result<(), ServeFault>, errors: &mut E) -> ExitStatus
    ensures { result ≡ status_served ran }
{
    match ran {
        Ok(()) => ExitStatus::Done,
        Err(ServeFault::Step(fault)) => step_fault(fault, errors),
        Err(ServeFault::Memory) => no_memory(errors),
        Err(ServeFault::Trace) => stream(errors),
        Err(ServeFault::Store(fault)) => store_fault(fault, errors),
        Err(ServeFault::Network | ServeFault::Port | ServeFault::Address) => {
            let _ = writeln!(errors, "network");
            ExitStatus::Network
        }
    }
}

// The line of `serve`.
#[tactic(auto, unfolding(crate::specs::Serving::listening_line))]
fn listening_line(alloc: Global, port: u16) -> Result<String, AllocError>
    ensures { IfOk result (λ line. string_bytes line ≡ listening_line_spec port) }
{
    format!(in alloc; "listening {port}\n")
}

// How long nothing may be sent to a socket, in seconds: as the words say, or else twice as long as a session lasts without a
// request, and ten minutes at least.
fn idle_of(session_time: u64, asked: Option<u64>) -> u64
    ensures { result ≡ idle_of_spec session_time asked }
{
    match asked {
        Some(seconds) => seconds,
        None => (session_time / 5_000_000).max(600),
    }
}

// The configuration with the URL of the words, where they have one.
fn with_url(alloc: Global, mut config: Config, url: Option<&str>) -> Result<Config, AllocError>
    ensures { IfOk result (λ c. c ≡ with_url_spec config (option_map (λ u. u.now) url.entry)) }
{
    if let Some(url) = url {
        if url.len() >= 2_147_483_648 {
            return Err(AllocError);
        }
        config.url = Text::from_str(alloc, url)?;
    }
    Ok(config)
}

// The configuration as the words have it: with their URL, and with as many subscriptions and items of the whole server.
#[tactic(auto, unfolding(crate::specs::Serving::configured))]
fn configured(
    alloc: Global,
    config: Config,
    options: &ServeOptions<'_>,
) -> Result<Config, AllocError>
    ensures { IfOk result (λ c. c ≡ configured_spec config options.now) }
{
    let mut config = with_url(alloc, config, options.url)?;
    if let Some(most) = options.all_subscriptions {
        config.subscriptions_in_all = most;
    }
    if let Some(most) = options.all_items {
        config.items_in_all = most;
    }
    Ok(config)
}

// The host and the port that a URL names. Where it names no port, that is 4840, the one of `opc.tcp`. An IPv6 address has no brackets here.
fn host_and_port(url: &str) -> (&str, Option<u16>) {
    let rest = match url.split_once("://") {
        Some((_, rest)) => rest,
        None => url,
    };
    let place = match rest.split_once('/') {
        Some((front, _)) => front,
        None => rest,
    };
    match place.rsplit_once(':') {
        // An IPv6 address has colons of its own, in brackets.
        Some((host, digits)) if !digits.ends_with(']') => (
            without_brackets(host),
            digits.parse::<u16>().ok(),
        ),
        _ => (without_brackets(place), Some(4840)),
    }
}

fn without_brackets(host: &str) -> &str {
    match host.strip_prefix('[') {
        Some(rest) => rest.strip_suffix(']').unwrap_or(rest),
        None => host,
    }
}

// What is wrong with a host by which clients are to reach an address, where something is.
fn doubt_of(host: &str, address: IpAddr) -> Option<&'static str> {
    let named = host.parse::<IpAddr>().ok();
    let is_local = host == "localhost" || named.is_some_and(|named| named.is_loopback());
    if address.is_loopback() {
        if is_local {
            return None;
        }
        return Some(
            "which other machines can't reach: it listens on this machine alone, without --address",
        );
    }
    if is_local {
        return Some("which to other machines are themselves: name this machine by --url");
    }
    match named {
        Some(named) if named != address && !address.is_unspecified() => {
            Some("which isn't the address that it listens at")
        }
        _ => None,
    }
}

// Says what will be served, how much memory clients may take, and whether they are told where it isn't.
fn tell_served<E: Write>(
    config: &Config,
    space: &Space,
    options: &ServeOptions<'_>,
    errors: &mut E,
) {
    let nodes = space.node_count();
    let references = space.triple_count();
    let url = config.url.as_str().unwrap_or("");
    let megabytes = most_bytes(config, nodes) / 1_000_000;
    let _ = write!(
        errors,
        "{nodes} nodes, {references} references, at most {megabytes} MB; clients are told {url}"
    );
    let (host, port) = host_and_port(url);
    if port != Some(options.port) {
        let asked = options.port;
        let _ = write!(
            errors,
            ", which isn't port {asked}: change `url` in the node file"
        );
    }
    if let Some(doubt) = doubt_of(host, options.address) {
        let _ = write!(errors, ", {doubt}");
    }
    let _ = writeln!(errors);
}

// Says on standard error which address or port can't be had.
fn tell_not_had<E: Write>(fault: ServeFault, address: IpAddr, port: u16, errors: &mut E) {
    let at = SocketAddr::from((address, port));
    let _ = match fault {
        ServeFault::Port => writeln!(
            errors,
            "can't listen at {at}: another program has the port {port}, or only an administrator may"
        ),
        ServeFault::Address => {
            writeln!(
                errors,
                "can't listen at {at}: the address {address} is none of this machine's"
            )
        }
        _ => writeln!(errors, "can't listen at {at}"),
    };
}

// Serves until the turns are over, or the file to stop at is there.
fn run_until<R: Files + Clock + Wait, K: Keeper, W: Observer>(
    rt: &R,
    serve: &mut Serve,
    server: &mut KeptServer<K>,
    observer: &mut W,
    options: &ServeOptions<'_>,
) -> Result<(), ServeFault>
    ensures { let old = scene (key_stream serve.old.keys) (keeping K.kept server.old) serve.old.peers serve.old.events (W.output observer.old) in
        let new = scene (key_stream serve.new.keys) (keeping K.kept server.new) serve.new.peers serve.new.events (W.output observer.new) in
        MatchResult result (λ _. ServesUntil unknown unknown uncounted W.text (is_some options.now.stop_file) options.now.turns old new)
        (GivesUp unknown unknown uncounted W.text old new) }
{
    match options.stop_file {
        Some(path) => {
            let mut until = StopFile::new(path, options.turns);
            serve.run(rt, server, observer, &mut until)
        }
        None => serve.run(rt, server, observer, &mut Turns(options.turns)),
    }
}

// A server, and the sockets at which it serves. Both are lent.
#[derive(Drop)]
struct Listening<'a, 'b, K> {
    serve: &'a mut Serve,
    server: &'b mut KeptServer<K>,
}

// Serves by this server, and tells what happens.
fn serve_and_tell<R: Files + Clock + Wait, K: Keeper, O: Write, E: Write + Process>(
    rt: &R,
    listening: Listening<'_, '_, K>,
    options: &ServeOptions<'_>,
    output: &mut Tap<O>,
    errors: &mut E,
) -> Result<(), ServeFault>
    ensures { ServesWith options.now listening.entry.serve.now (keeping K.kept listening.entry.server.now) (place O.contents output.old) (place O.contents output.new) result }
{
    let Listening { serve, server } = listening;
    let alloc = server.allocator();
    let mut visits = Visits::new(alloc, options.quiet, options.summary);
    if options.trace {
        let mut text = String::new(alloc);
        let mut tracing = Tracing {
            output,
            errors,
            visits: &mut visits,
            text: &mut text,
        };
        run_until(rt, serve, server, &mut tracing, options)
    } else {
        let mut visitors = Visitors {
            errors,
            visits: &mut visits,
        };
        run_until(rt, serve, server, &mut visitors, options)
    }
}

// The same, into a log.
fn serve_and_log<R: Files + Clock + Wait, K: Keeper, O: Write, E: Write>(
    rt: &R,
    listening: Listening<'_, '_, K>,
    options: &ServeOptions<'_>,
    output: &mut Tap<O>,
    errors: &mut E,
) -> Result<(), ServeFault>
    ensures { ServesWith options.now listening.entry.serve.now (keeping K.kept listening.entry.server.now) (place O.contents output.old) (place O.contents output.new) result }
{
    let alloc = listening.server.allocator();
    let mut log = Log::new(alloc, rt, errors);
    serve_and_tell(rt, listening, options, output, &mut log)
}

// What the words ask of a server, and how many seconds nothing may be sent to a socket. 0 is no bound.
#[derive(Clone, Copy)]
struct Asked<'a, 'b> {
    options: &'a ServeOptions<'b>,
    idle: u64,
}

// Serves by this server, which knows no connection.
fn serve_on<R: Files + Net + RandomSource + Clock + Wait, K: Keeper, O: Write, E: Write>(
    rt: &R,
    server: &mut KeptServer<K>,
    asked: Asked<'_, '_>,
    output: &mut Tap<O>,
    errors: &mut E,
) -> ExitStatus
    ensures { ServesOn (place O.contents output.old) (place O.contents output.new) asked.entry.idle asked.entry.options.now (keeping K.kept server.old) result }
{
    let Asked { options, idle } = asked;
    let address = options.address;
    let port = options.port;
    let alloc = server.allocator();
    let Ok(line) = listening_line(alloc, port) else {
        return no_memory(errors);
    };
    let limits = PeerLimits {
        idle,
        per_address: options.per_address,
    };
    let mut serve = match Serve::listen(rt, alloc, address, port, limits) {
        Ok(serve) => serve,
        Err(fault) => {
            tell_not_had(fault, address, port, errors);
            return served(Err(fault), errors);
        }
    };
    match say(line.as_str(), output, errors) {
        ExitStatus::Done => {
            let listening = Listening {
                serve: &mut serve,
                server,
            };
            let ran = serve_and_log(rt, listening, options, output, errors);
            served(ran, errors)
        }
        status => status,
    }
}

// Says of each value that was kept and isn't put back why, where there is memory for its node's id.
fn tell_left_out<E: Write>(alloc: Global, restoring: &Restoring, errors: &mut E) {
    for one in restoring.left_out.as_slice() {
        if let Ok(id) = write_id(alloc, &one.kept.node_id) {
            let what = if one.is_historical {
                "a value of the history"
            } else {
                "the value"
            };
            let why = one.why;
            let _ = writeln!(errors, "store: {what} of {id} isn't put back: {why}");
        }
    }
}

// The configuration of a server whose store has kept these values: its clock starts at the latest of their times, where that is
// later.
fn with_store(mut config: Config, kept: &KeptValues) -> Config
    ensures { result ≡ with_store_spec config kept.now }
{
    config.has_store = true;
    if let Some(time) = latest_time(kept) {
        config.start = config.start.later(time);
    }
    config
}

// A server of this configuration and address space, and who keeps what it stores.
fn kept_server<K: Keeper + Drop, E: Write>(
    alloc: Global,
    config: Config,
    space: Space,
    keeper: K,
    errors: &mut E,
) -> Result<KeptServer<K>, ExitStatus>
    ensures { MatchResult result (λ server. keeping K.kept server ≡ keeping_all (Some (opening config space)) (K.kept keeper)) (λ status. status ≡ ExitStatus.Halted) }
{
    match Server::new(alloc, config, space) {
        Ok(server) => Ok(KeptServer::new(server, keeper)),
        Err(_) => Err(no_memory(errors)),
    }
}

// The address space with what was kept. Says what isn't put back.
fn restored<E: Write>(
    alloc: Global,
    mut space: Space,
    kept: KeptValues,
    errors: &mut E,
) -> Result<Space, AllocError>
    ensures { IfOk result (Restores kept space) }
{
    match restore(alloc, &mut space, kept) {
        Ok(restoring) => {
            tell_left_out(alloc, &restoring, errors);
            Ok(space)
        }
        Err(fault) => Err(fault),
    }
}

// A server of this configuration and address space that begins with what is kept in the store at this path.
fn stored_server<P: OpensStores, E: Write>(
    stores: &P,
    alloc: Global,
    path: &str,
    made: (Config, Space),
    errors: &mut E,
) -> Result<KeptServer<P::Store>, ExitStatus>
    ensures { MatchResult result (λ server. BeginsWithStore made.0 made.1 (keeping P.Store.kept server)) IsUnopened }
{
    let (config, space) = made;
    let (store, kept) = match stores.open(alloc, path) {
        Ok(opened) => opened,
        Err(fault) => return Err(store_fault(fault, errors)),
    };
    let config = with_store(config, &kept);
    let Ok(space) = restored(alloc, space, kept, errors) else {
        return Err(no_memory(errors));
    };
    match kept_server(alloc, config, space, store, errors) {
        Ok(server) => Ok(server),
        Err(status) => Err(status),
    }
}

// Serves by a server that has begun, or ends as it didn't.
fn serve_begun<R: Files + Net + RandomSource + Clock + Wait, K: Keeper + Drop, O: Write, E: Write>(
    rt: &R,
    begun: Result<KeptServer<K>, ExitStatus>,
    asked: Asked<'_, '_>,
    output: &mut Tap<O>,
    errors: &mut E,
) -> ExitStatus
    ensures { let old = place O.contents output.old in
        let new = place O.contents output.new in
        MatchResult begun (λ server. ServesOn old new asked.entry.idle asked.entry.options.now (keeping K.kept server) result) (λ status. (result ≡ status) × (new ≡ old)) }
{
    match begun {
        Ok(mut server) => serve_on(rt, &mut server, asked, output, errors),
        Err(status) => status,
    }
}

/// Serves connections to a port of an address by a server of this configuration and address space, for so
/// many turns, or without end for 0, or until the file to stop at is there. Says `listening` and the port once clients can connect, and before
/// that, on standard error, what is served. There it tells too which connections come and how they end, and each minute how much is
/// served, as it is asked to.
///
/// With a store the server begins with what is kept there, and each write that it accepts is kept before it is answered. What was
/// kept and isn't put back is told on standard error, a line for each value.
///
/// With a trace the rows of the subscriptions' state table that fire follow, a line for each, in the form of
/// [`scenario_run`]. The events that the server is handed count from 1 on.
///
/// `Done` comes after the turns, or where it was asked to stop, `Network` where the port or the address can't be had, or where the system
/// refuses the wait, the clock or random bytes, and `Halted` where memory ran out or the server halted. `Stream`
/// comes where a call of the output failed: nobody is served where it isn't known that the program listens,
/// and nobody any more where the trace can't be written. `Store` comes where the store can't be opened, or can't keep what was written.
pub fn serve<
    R: Files + AllocGlobal + Net + RandomSource + Clock + Wait,
    P: OpensStores,
    O: Write,
    E: Write,
>(
    machine: Machine<'_, R, P>,
    made: (Config, Space),
    options: &ServeOptions<'_>,
    output: &mut Tap<O>,
    errors: &mut E,
) -> ExitStatus
    ensures { ServesBy (place O.contents output.old) (place O.contents output.new) options.now made result }
{
    let rt = machine.rt;
    let alloc = rt.alloc();
    let (config, space) = made;
    let idle = idle_of(config.session_time, options.idle);
    let Ok(config) = configured(alloc, config, options) else {
        return no_memory(errors);
    };
    tell_served(&config, &space, options, &mut Log::new(alloc, rt, errors));
    let asked = Asked { options, idle };
    match options.store {
        None => {
            let begun = kept_server(alloc, config, space, NoKeeper, errors);
            serve_begun(rt, begun, asked, output, errors)
        }
        Some(path) => {
            let begun = stored_server(machine.stores, alloc, path, (config, space), errors);
            serve_begun(rt, begun, asked, output, errors)
        }
    }
}

// `serve` of what was made.
fn serve_made<
    R: Files + AllocGlobal + Net + RandomSource + Clock + Wait,
    P: OpensStores,
    O: Write,
    E: Write,
>(
    machine: Machine<'_, R, P>,
    made: Result<(Config, Space), ExitStatus>,
    options: &ServeOptions<'_>,
    output: &mut Tap<O>,
    errors: &mut E,
) -> ExitStatus
    ensures { (said : Option Made) → MadeBy made said →
        ServesMade (place O.contents output.old) (place O.contents output.new) options.now said result }
{
    match made {
        Ok(made) => serve(machine, made, options, output, errors),
        Err(status) => status,
    }
}

// `serve` of the node file that the words name.
pub(crate) fn serve_at<
    R: Files + AllocGlobal + Net + RandomSource + Clock + Wait,
    P: OpensStores,
    O: Write,
    E: Write,
>(
    machine: Machine<'_, R, P>,
    options: &ServeOptions<'_>,
    output: &mut Tap<O>,
    errors: &mut E,
) -> Ended
    ensures { ServesFile (place O.contents output.old) (place O.contents output.new) options.now result.status result.file }
{
    let rt = machine.rt;
    match read_file(rt, options.nodes, errors) {
        Ok(file) => {
            let made = nodes_in(rt.alloc(), file.text(), errors);
            let status = serve_made(machine, made, options, output, errors);
            Ended::with_nodes(status, file)
        }
        Err(status) => Ended::by(status),
    }
}

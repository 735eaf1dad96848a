//! The table `server`: the configuration, key by key.

ghost use Rattle.std.specs.Prelude.{◌≡◌, ◌≤◌, is_some, Err, IfOk, IfErr};
ghost use Rattle.std.specs.List.{list_all};
ghost use Rattle.toml.specs.Data.{as_str};
ghost use Rattle.std.specs.Vec.{vec_len};
ghost use Rattle.toml.specs.View.{items_view, table_view, view};
ghost use Rattle.ua_types.specs.Answers.{Gives, GivesAs};
ghost use Rattle.ua_types.specs.Configuration.{IsIn};
ghost use Rattle.node_loader.specs.declared.fault.Cause.TheVariants.{Memory};
ghost use Rattle.node_loader.specs.Server.{few_texts, texts_at, duration_at, names_of, durations_of, server_of, server_keys, AreNames, sizes_of, AreSizes, tables_of, AreTables, messages_of, AreMessages, pages_of, ArePages, times_of, AreTimes};
ghost use Rattle.node_loader.specs.Keys.{number_at, only};
ghost use Rattle.node_loader.specs.Versions.{IsPartOf, range_of};

use crate::element::elements;
use crate::fault::Cause;
use crate::keys::{number_at, only, text_or, value_at, word_at};
use crate::version::{FIRST_CONNECTIONS, FIRST_HISTORY, FIRST_QUEUE, FIRST_SESSIONS, Version};
use hex::FromHex;
use std::alloc::Global;
use toml::{Table, Value};
use ua_types::{Array, Config, Duration, Moment, NumberRange, Text};

fn all_texts(values: &[Value]) -> bool
    ensures { result ≡ list_all (λ v. is_some (as_str (view v))) values.now }
{
    values.iter().all(|value| value.as_str().is_some())
}

// At most so many texts.
#[tactic(auto, using(crate::proofs::Tables::all_items_are, crate::proofs::Tables::count_is))]
fn few_texts(alloc: Global, values: &[Value], most: usize) -> Result<Vec<Text>, Cause>
    ensures given { GivesAs Memory (λ ts. ts.items) result (few_texts most (items_view values.now)) }
    ensures few { IfOk result (λ ts. vec_len ts ≤ most) }
{
    if !all_texts(values) {
        return Err(Cause::WrongKind);
    }
    if values.len() > most {
        return Err(Cause::OutOfRange);
    }
    elements(alloc, 0, values)
}

// At most so many texts, none where the key is absent.
#[tactic(auto, unfolding(crate::specs::Server::texts_at))]
fn texts_at(alloc: Global, table: &Table, key: &str, most: usize) -> Result<Vec<Text>, Cause>
    ensures given { GivesAs Memory (λ ts. ts.items) result (texts_at key.now most (table_view table.now)) }
    ensures few { IfOk result (λ ts. vec_len ts ≤ most) }
{
    let Some(value) = value_at(table, key) else {
        return Ok(Vec::new(alloc));
    };
    match value.as_array() {
        None => Err(Cause::WrongKind),
        Some(values) => few_texts(alloc, values.as_slice(), most),
    }
}

// The eight bytes that hex digits spell, or the default.
#[tactic(auto, unfolding(crate::specs::Server::duration_at))]
fn duration_at(table: &Table, key: &str, fallback: [u8; 8]) -> Result<Duration, Cause>
    ensures { result ≡ duration_at key.now fallback (table_view table.now) }
{
    let Some(text) = word_at(table, key)? else {
        return Ok(Duration(fallback));
    };
    match <[u8; 8] as FromHex>::from_hex(text) {
        Ok(bytes) => Ok(Duration(bytes)),
        Err(_) => Err(Cause::OutOfRange),
    }
}

// What the server is called.
#[derive(Drop)]
struct Names {
    uri: Text,
    name: Text,
    url: Text,
    namespaces: Array<Text>,
}

#[tactic(auto, unfolding(crate::specs::Server::names_of))]
fn names_in(alloc: Global, table: &Table) -> Result<Names, Cause>
    ensures given { Gives Memory result (names_of (table_view table.now)) }
    ensures good { IfOk result (λ n. AreNames n) }
{
    let uri = text_or(alloc, table, "uri", "urn:uaserver")?;
    let name = text_or(alloc, table, "name", "uaserver")?;
    let url = text_or(alloc, table, "url", "opc.tcp://localhost:4840")?;
    let namespaces = Array::new(texts_at(alloc, table, "namespaces", 100)?);
    Ok(Names {
        uri,
        name,
        url,
        namespaces,
    })
}

// The sizes of frames and requests, and the lifetime of a channel's token.
#[derive(Clone, Copy)]
struct Sizes {
    receive_size: u32,
    send_size: u32,
    max_message: u32,
    max_chunks: u32,
    lifetime_ms: u32,
}

#[tactic(auto, unfolding(crate::specs::Server::sizes_of))]
fn sizes_in(table: &Table) -> Result<Sizes, Cause>
    ensures given { result ≡ sizes_of (table_view table.now) }
    ensures ranges { IfOk result (λ s. AreSizes s) }
{
    let receive_size = number_at(table, "receive_size", 65536, NumberRange::RECEIVE_SIZE)? as u32;
    let send_size = number_at(table, "send_size", 65536, NumberRange::SEND_SIZE)? as u32;
    let max_message = number_at(table, "max_message", 1048576, NumberRange::MAX_MESSAGE)? as u32;
    let max_chunks = number_at(table, "max_chunks", 64, NumberRange::MAX_CHUNKS)? as u32;
    let lifetime_ms = number_at(table, "lifetime_ms", 3600000, NumberRange::LIFETIME_MS)? as u32;
    Ok(Sizes {
        receive_size,
        send_size,
        max_message,
        max_chunks,
        lifetime_ms,
    })
}

// The range of version 1, and the later one, of which it is a part.
#[derive(Clone, Copy)]
struct Widened {
    first: NumberRange,
    later: NumberRange,
}

// The number at a key, or the default.
fn widened_at(
    version: Version,
    table: &Table,
    key: &str,
    fallback: u64,
    range: Widened,
) -> Result<u64, Cause>
    requires part { IsPartOf range.first range.later }
    requires fallback { IsIn range.first fallback }
    ensures given { result ≡ number_at key.now fallback (range_of version range.first range.later) (table_view table.now) }
    ensures range { IfOk result (λ n. IsIn range.later n) }
{
    let range = version.range(range.first, range.later);
    number_at(table, key, fallback, range)
}

// How much the server holds of each thing.
#[derive(Clone, Copy)]
struct Tables {
    connections: u32,
    sessions: u32,
    subscriptions: u32,
    items: u32,
    queue: u32,
}

#[tactic(auto, unfolding(crate::specs::Server::tables_of))]
fn tables_in(version: Version, table: &Table) -> Result<Tables, Cause>
    ensures given { result ≡ tables_of version (table_view table.now) }
    ensures ranges { IfOk result (λ s. AreTables s) }
{
    let connections = widened_at(
        version,
        table,
        "connections",
        100,
        Widened {
            first: FIRST_CONNECTIONS,
            later: NumberRange::CONNECTIONS,
        },
    )? as u32;
    let sessions = widened_at(
        version,
        table,
        "sessions",
        100,
        Widened {
            first: FIRST_SESSIONS,
            later: NumberRange::SESSIONS,
        },
    )? as u32;
    let subscriptions = number_at(table, "subscriptions", 100, NumberRange::SUBSCRIPTIONS)? as u32;
    let items = number_at(table, "items", 1000, NumberRange::ITEMS)? as u32;
    let queue = widened_at(
        version,
        table,
        "queue",
        100,
        Widened {
            first: FIRST_QUEUE,
            later: NumberRange::QUEUE,
        },
    )? as u32;
    Ok(Tables {
        connections,
        sessions,
        subscriptions,
        items,
        queue,
    })
}

// What a session and a subscription hold.
#[derive(Clone, Copy)]
struct Messages {
    publish_queue: u32,
    kept: u32,
    notifications: u32,
    points: u32,
}

#[tactic(auto, unfolding(crate::specs::Server::messages_of))]
fn messages_in(table: &Table) -> Result<Messages, Cause>
    ensures given { result ≡ messages_of (table_view table.now) }
    ensures ranges { IfOk result (λ s. AreMessages s) }
{
    let publish_queue = number_at(table, "publish_queue", 10, NumberRange::PUBLISH_QUEUE)? as u32;
    let kept = number_at(table, "kept", 100, NumberRange::KEPT)? as u32;
    let notifications = number_at(table, "notifications", 1000, NumberRange::NOTIFICATIONS)? as u32;
    let points = number_at(table, "points", 10, NumberRange::POINTS)? as u32;
    Ok(Messages {
        publish_queue,
        kept,
        notifications,
        points,
    })
}

// The sizes of pages, lists and histories.
#[derive(Clone, Copy)]
struct Pages {
    references: u32,
    operations: u32,
    history_page: u32,
    history: u32,
}

#[tactic(auto, unfolding(crate::specs::Server::pages_of))]
fn pages_in(version: Version, table: &Table) -> Result<Pages, Cause>
    ensures given { result ≡ pages_of version (table_view table.now) }
    ensures ranges { IfOk result (λ s. ArePages s) }
{
    let references = number_at(table, "references", 1000, NumberRange::REFERENCES)? as u32;
    let operations = number_at(table, "operations", 1000, NumberRange::OPERATIONS)? as u32;
    let history_page = number_at(table, "history_page", 1000, NumberRange::HISTORY_PAGE)? as u32;
    let history = widened_at(
        version,
        table,
        "history",
        10000,
        Widened {
            first: FIRST_HISTORY,
            later: NumberRange::HISTORY,
        },
    )? as u32;
    Ok(Pages {
        references,
        operations,
        history_page,
        history,
    })
}

// The two times, in steps of 100 ns.
#[derive(Clone, Copy)]
struct Times {
    session_time: u64,
    publish_time: u64,
}

#[tactic(auto, unfolding(crate::specs::Server::times_of))]
fn times_in(table: &Table) -> Result<Times, Cause>
    ensures given { result ≡ times_of (table_view table.now) }
    ensures ranges { IfOk result (λ s. AreTimes s) }
{
    let session_time = number_at(table, "session_time", 600000000, NumberRange::SESSION_TIME)?;
    let publish_time = number_at(table, "publish_time", 10000000, NumberRange::PUBLISH_TIME)?;
    Ok(Times {
        session_time,
        publish_time,
    })
}

// The times as clients are told them.
#[derive(Clone, Copy)]
struct Durations {
    session_duration: Duration,
    publish_duration: Duration,
    sampling_duration: Duration,
}

#[tactic(auto, unfolding(crate::specs::Server::durations_of))]
fn durations_in(table: &Table) -> Result<Durations, Cause>
    ensures { result ≡ durations_of (table_view table.now) }
{
    let session_duration = duration_at(
        table,
        "session_duration",
        [0, 0, 0, 0, 0, 0x4c, 0xed, 0x40],
    )?;
    let publish_duration = duration_at(
        table,
        "publish_duration",
        [0, 0, 0, 0, 0, 0x40, 0x8f, 0x40],
    )?;
    let sampling_duration = duration_at(table, "sampling_duration", [0; 8])?;
    Ok(Durations {
        session_duration,
        publish_duration,
        sampling_duration,
    })
}

// From 1601 to the last moment that a DateTime has.
const STARTS: NumberRange = NumberRange {
    least: 0,
    most: 9223372036854775807,
};

/// The configuration that the table `server` says.
#[tactic(auto, unfolding(crate::specs::Server::server_of))]
pub(crate) fn server(alloc: Global, version: Version, table: &Table) -> Result<Config, Cause>
    ensures given { Gives Memory result (server_of version (table_view table.now)) }
    ensures refused { IfErr (only server_keys (table_view table.now)) (λ cause. result ≡ Err cause) }
{
    known(table)?;
    let names = names_in(alloc, table)?;
    let start = number_at(table, "start", 0, STARTS)?;
    let sizes = sizes_in(table)?;
    let tables = tables_in(version, table)?;
    let messages = messages_in(table)?;
    let pages = pages_in(version, table)?;
    let times = times_in(table)?;
    let durations = durations_in(table)?;
    Ok(Config {
        uri: names.uri,
        name: names.name,
        url: names.url,
        namespaces: names.namespaces,
        start: Moment(start as i64),
        receive_size: sizes.receive_size,
        send_size: sizes.send_size,
        max_message: sizes.max_message,
        max_chunks: sizes.max_chunks,
        lifetime_ms: sizes.lifetime_ms,
        connections: tables.connections,
        sessions: tables.sessions,
        subscriptions: tables.subscriptions,
        subscriptions_in_all: 100_000,
        items: tables.items,
        items_in_all: 1_000_000,
        queue: tables.queue,
        publish_queue: messages.publish_queue,
        kept: messages.kept,
        notifications: messages.notifications,
        points: messages.points,
        references: pages.references,
        operations: pages.operations,
        history_page: pages.history_page,
        history: pages.history,
        has_store: false,
        session_time: times.session_time,
        publish_time: times.publish_time,
        session_duration: durations.session_duration,
        publish_duration: durations.publish_duration,
        sampling_duration: durations.sampling_duration,
    })
}

// The keys of the table, in the order in which they are judged.
fn known(table: &Table) -> Result<(), Cause>
    ensures { result ≡ only server_keys (table_view table.now) }
{
    only(
        &[
            "uri",
            "name",
            "url",
            "namespaces",
            "start",
            "receive_size",
            "send_size",
            "max_message",
            "max_chunks",
            "lifetime_ms",
            "connections",
            "sessions",
            "subscriptions",
            "items",
            "queue",
            "publish_queue",
            "kept",
            "notifications",
            "points",
            "references",
            "operations",
            "history_page",
            "history",
            "session_time",
            "publish_time",
            "session_duration",
            "publish_duration",
            "sampling_duration",
        ],
        table,
    )
}

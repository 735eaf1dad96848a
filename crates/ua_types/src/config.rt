//! The server's configuration.

ghost use Rattle.std.specs.Prelude.{◌≡◌, IfOk};
ghost use Rattle.ua_types.specs.Configuration.{standard};

use crate::array::Array;
use crate::copyable::Copyable;
use crate::duration::Duration;
use crate::moment::Moment;
use crate::text::Text;
use std::alloc::{AllocError, Global};
use std::marker::Model;

/// What the server is told about itself. Each number lies in its range, the constant of [`NumberRange`](crate::NumberRange)
/// with its name, where there is one; and the server's URI, name and URL are given.
#[derive(Debug, Drop)]
pub struct Config {
    /// The application's URI, which is also the URI of namespace 1.
    pub uri: Text,
    /// The application's name for people.
    pub name: Text,
    /// The URL that the endpoint names.
    pub url: Text,
    /// The URIs of the namespaces from 2 on, at most 100.
    pub namespaces: Array<Text>,
    /// What the clock shows before the first tick, not before 1601.
    pub start: Moment,
    /// The largest frame that is read, in bytes.
    pub receive_size: u32,
    /// The largest frame that is sent, in bytes.
    pub send_size: u32,
    /// The largest request that is put together, in bytes.
    pub max_message: u32,
    /// The most chunks of a request.
    pub max_chunks: u32,
    /// The lifetime of a channel's token that clients are told, in milliseconds.
    pub lifetime_ms: u32,
    /// The most connections that are open at once.
    pub connections: u32,
    /// The most sessions.
    pub sessions: u32,
    /// The most subscriptions of a session.
    pub subscriptions: u32,
    /// The most subscriptions of the whole server, those whose sessions ended among them.
    pub subscriptions_in_all: u32,
    /// The most monitored items of a subscription.
    pub items: u32,
    /// The most monitored items of the whole server.
    pub items_in_all: u32,
    /// The most values that wait in a monitored item.
    pub queue: u32,
    /// The most Publish requests that wait in a session.
    pub publish_queue: u32,
    /// The most sent messages that a subscription keeps for Republish.
    pub kept: u32,
    /// The most notifications of a message.
    pub notifications: u32,
    /// The most continuation points of a session.
    pub points: u32,
    /// The most references of a page of Browse.
    pub references: u32,
    /// The most entries of a request's list.
    pub operations: u32,
    /// The most values of a page of raw history.
    pub history_page: u32,
    /// The most values that a node's history keeps.
    pub history: u32,
    /// Whether values and histories are kept in a store, so that each step tells what it has to keep.
    pub has_store: bool,
    /// How long a session lasts without a request, in steps of 100 ns.
    pub session_time: u64,
    /// The time between two publishing timers of a subscription, in steps of 100 ns.
    pub publish_time: u64,
    /// `session_time` as clients are told it.
    pub session_duration: Duration,
    /// `publish_time` as clients are told it.
    pub publish_duration: Duration,
    /// The sampling interval that clients are told.
    pub sampling_duration: Duration,
}

impl Model for Config {
    ghost use Rattle.ua_types.specs.Configuration.{Configuration, IsConfigured};

    ghost Value = { Configuration };

    ghost view = { λ c. record {
      uri = c.uri;
      name = c.name;
      url = c.url;
      namespaces = c.namespaces;
      start = c.start;
      receive_size = c.receive_size;
      send_size = c.send_size;
      max_message = c.max_message;
      max_chunks = c.max_chunks;
      lifetime_ms = c.lifetime_ms;
      connections = c.connections;
      sessions = c.sessions;
      subscriptions = c.subscriptions;
      subscriptions_in_all = c.subscriptions_in_all;
      items = c.items;
      items_in_all = c.items_in_all;
      queue = c.queue;
      publish_queue = c.publish_queue;
      kept = c.kept;
      notifications = c.notifications;
      points = c.points;
      references = c.references;
      operations = c.operations;
      history_page = c.history_page;
      history = c.history;
      has_store = c.has_store;
      session_time = c.session_time;
      publish_time = c.publish_time;
      session_duration = c.session_duration;
      publish_duration = c.publish_duration;
      sampling_duration = c.sampling_duration;
    } };

    ghost invariant = { λ c. IsConfigured (view c) };
}

impl Config {
    /// The configuration that holds where nothing else is said.
    #[tactic(auto, unfolding(crate::specs::Configuration::standard))]
    pub fn standard(alloc: Global) -> Result<Config, AllocError>
        ensures { IfOk result (λ c. c ≡ standard) }
    {
        Ok(Config {
            uri: Text::from_str(alloc, "urn:uaserver")?,
            name: Text::from_str(alloc, "uaserver")?,
            url: Text::from_str(alloc, "opc.tcp://localhost:4840")?,
            namespaces: Array::new(Vec::new(alloc)),
            start: Moment(0),
            receive_size: 65536,
            send_size: 65536,
            max_message: 1048576,
            max_chunks: 64,
            lifetime_ms: 3600000,
            connections: 100,
            sessions: 100,
            subscriptions: 100,
            subscriptions_in_all: 100_000,
            items: 1000,
            items_in_all: 1_000_000,
            queue: 100,
            publish_queue: 10,
            kept: 100,
            notifications: 1000,
            points: 10,
            references: 1000,
            operations: 1000,
            history_page: 1000,
            history: 10000,
            has_store: false,
            session_time: 600_000_000,
            publish_time: 10_000_000,
            session_duration: Duration([0, 0, 0, 0, 0, 0x4c, 0xed, 0x40]),
            publish_duration: Duration([0, 0, 0, 0, 0, 0x40, 0x8f, 0x40]),
            sampling_duration: Duration([0; 8]),
        })
    }
}

impl Copyable for Config {
    fn copy(&self, alloc: Global) -> Result<Config, AllocError> {
        Ok(Config {
            uri: self.uri.copy(alloc)?,
            name: self.name.copy(alloc)?,
            url: self.url.copy(alloc)?,
            namespaces: self.namespaces.copy(alloc)?,
            start: self.start,
            receive_size: self.receive_size,
            send_size: self.send_size,
            max_message: self.max_message,
            max_chunks: self.max_chunks,
            lifetime_ms: self.lifetime_ms,
            connections: self.connections,
            sessions: self.sessions,
            subscriptions: self.subscriptions,
            subscriptions_in_all: self.subscriptions_in_all,
            items: self.items,
            items_in_all: self.items_in_all,
            queue: self.queue,
            publish_queue: self.publish_queue,
            kept: self.kept,
            notifications: self.notifications,
            points: self.points,
            references: self.references,
            operations: self.operations,
            history_page: self.history_page,
            history: self.history,
            has_store: self.has_store,
            session_time: self.session_time,
            publish_time: self.publish_time,
            session_duration: self.session_duration,
            publish_duration: self.publish_duration,
            sampling_duration: self.sampling_duration,
        })
    }
}

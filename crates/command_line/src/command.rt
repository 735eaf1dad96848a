//! What can be asked for.

use std::net::IpAddr;

/// What `uaserver` is asked to do. NODES is the path of a node file and SCENARIO that of a scenario, as
/// they stand in the words.
#[derive(Clone, Copy, Debug)]
pub enum Command<'a> {
    /// `uaserver pipe [NODES]`: one connection over standard input and output, with the
    /// configuration of the node file, or with the standard one where the words name no file.
    Pipe { nodes: Option<&'a str> },

    /// `uaserver check NODES [--explain]`: the number of nodes and references of the node file, and below
    /// it, where it is to explain, what is wrong with the file in its own words.
    Check { nodes: &'a str, explain: bool },

    /// `uaserver asm SCENARIO`: the events of the scenario.
    Asm { scenario: &'a str },

    /// `uaserver run NODES SCENARIO`: what the server of the node file sends when the scenario happens
    /// to it.
    Run { nodes: &'a str, scenario: &'a str },

    /// `uaserver trace NODES SCENARIO`: the rows of the subscriptions' state table that fire when the
    /// scenario happens to the server of the node file.
    Trace { nodes: &'a str, scenario: &'a str },

    /// `uaserver serve NODES --port P`: the server of the node file over sockets.
    Serve(ServeOptions<'a>),
}

/// What the words behind `serve` say.
#[derive(Clone, Copy, Debug)]
pub struct ServeOptions<'a> {
    /// The path of the node file.
    pub nodes: &'a str,

    /// `--port P`: the port to listen at, from 1 on.
    pub port: u16,

    /// `--turns N`: ends after so many turns; 0, also where the words have none, is without end.
    pub turns: u64,

    /// `--address A`: the IPv4 or IPv6 address to listen at, 127.0.0.1 where the words have none.
    pub address: IpAddr,

    /// `--trace`: prints the rows of the state table as they fire.
    pub trace: bool,

    /// `--idle SECONDS`, below 2^32: after how long a silent socket is let go of; 0 is never, and `None`
    /// is what the server chooses.
    pub idle: Option<u64>,

    /// `--per-address N`: how many sockets one address may have; 0, also where the words have none, is no
    /// bound.
    pub per_address: u64,

    /// `--all-subscriptions N`, from 1 to 2^32 - 1: how many subscriptions the whole server may have; `None` is as many as the
    /// configuration says.
    pub all_subscriptions: Option<u32>,

    /// `--all-items N`, from 1 to 2^32 - 1: how many monitored items the whole server may have; `None` is as many as the
    /// configuration says.
    pub all_items: Option<u32>,

    /// `--stop-file PATH`: the server ends once this file is there.
    pub stop_file: Option<&'a str>,

    /// `--store FILE`: what is written, and the histories of it, are kept in this file, and put back at the next start.
    pub store: Option<&'a str>,

    /// `--url URL`: the endpoint URL that clients are told in place of the node file's.
    pub url: Option<&'a str>,

    /// `--quiet`: leaves out who comes and goes.
    pub quiet: bool,

    /// `--summary`: tells each minute how much is served.
    pub summary: bool,
}

//! What `--help` says of the program, its commands and their options. Texts with names cost no proof where they are used.

// The program and its commands.

pub(crate) const PROGRAM: &str =
    "An OPC UA server (opc.tcp, binary encoding, no security). README.md says what it serves and how to begin";

pub(crate) const PIPE: &str =
    "Serves one connection on standard input and standard output (docs/USING.md)";

pub(crate) const CHECK: &str =
    "Counts the nodes and references of a node file, or says what is wrong with it (docs/NODE_FILE.md)";

pub(crate) const ASM: &str = "Prints the events of a scenario (docs/SCENARIOS.md)";

pub(crate) const RUN: &str =
    "Prints what is sent when a scenario happens to the server (docs/SCENARIOS.md)";

pub(crate) const TRACE: &str =
    "Prints the state table rows that fire when a scenario happens to the server (docs/SCENARIOS.md)";

pub(crate) const SERVE: &str =
    "Serves connections to a port, from this machine alone unless an address is given (docs/USING.md)";

// What the commands take.

pub(crate) const NODES_OR_NONE: &str =
    "a node file (TOML); the standard's base nodes alone where left out";

pub(crate) const EXPLAIN: &str =
    "says on standard error what is wrong in the file's own words, or how long its durations are (docs/NODE_FILE.md)";

// What `serve` takes.

pub(crate) const PORT: &str = "the port, from 1 to 65535";

pub(crate) const ADDRESS: &str =
    "the IPv4 or IPv6 address to listen at; 127.0.0.1 where left out, 0.0.0.0 for all. Whoever reaches it may write";

pub(crate) const TURNS: &str =
    "ends after so many turns of the loop, of at most 100 ms each; 0, the default, never ends";

pub(crate) const IDLE: &str =
    "lets go of a socket that is silent for so long; twice the file's session_time, at least 600, where left out; 0 never does";

pub(crate) const PER_ADDRESS: &str =
    "closes a further socket of an address that has so many; 0, the default, is no bound";

pub(crate) const ALL_SUBSCRIPTIONS: &str =
    "the most subscriptions of the whole server, those whose sessions ended among them; 100000 where left out";

pub(crate) const ALL_ITEMS: &str =
    "the most monitored items of the whole server; 1000000 where left out";

pub(crate) const URL: &str = "the endpoint URL that clients are told, in place of the node file's";

pub(crate) const STOP_FILE: &str = "ends once this file is there, as after the last turn";

pub(crate) const STORE: &str =
    "keeps what is written, with its history, in this SQLite file, and begins with what is kept there";

pub(crate) const TRACED: &str =
    "prints the state table rows of subscriptions as they fire, behind the line 'listening P' (docs/USING.md)";

pub(crate) const QUIET: &str = "leaves out of standard error who comes and goes";

pub(crate) const SUMMARY: &str = "tells on standard error each minute how much is served";

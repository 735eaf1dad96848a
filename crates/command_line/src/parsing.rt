//! From words to a command.

ghost use Rattle.std.specs.Prelude.{◌≡◌, ◌∷◌, ℕ, List, [], Some, None, IfOk, IfErr, IfSome, IsNone, codes, map, option_map};
ghost use Rattle.std.specs.declared.net.ip_addr.IpAddr.{IpAddr};
ghost use Rattle.command_line.specs.declared.command.ServeOptions.{ServeOptions};
ghost use Rattle.std.specs.Char.{is_ascii_digit};
ghost use Rattle.std.specs.List.{list_all};
ghost use Rattle.clap.specs.Words.{first_value, found_of, kind_of, subcommand_rows_of};
ghost use Rattle.command_line.specs.Words.{Answers, AsksFor, IsAddressIn, IsAskedBy, IsNoCommand, IsPlainWord, IsServedWith, IsStopOf, StopsBy, bound_of as bound_in, idle_of as idle_in, is_given as is_given_spec, number_of, port_of as port_in, total_of as total_in};

use crate::program::uaserver;
use crate::{Command, ServeOptions, Stop};
use clap::error::ErrorKind;
use clap::{ArgMatches, Error};
use std::alloc::{AllocError, Global};
use std::net::IpAddr;

/// Reads the words after the program's name.
///
/// A command comes where nothing is wrong with the words and they name it and its NODES, [`Stop::Help`]
/// where they may ask for help or for the version, and [`Stop::Usage`] where something else may be wrong with them:
/// `faults` of `specs/Words.antt` is what may be wrong, and `asked` what they name, each computed from
/// the words. So `pipe`, `pipe NODES` and `check NODES` are commands for each NODES that does not begin
/// with a hyphen; one that does may follow a `--`. What a text says is shown by tests alone, and the
/// contract does not rule out a [`Stop::Memory`] with no growth refused.
pub fn parse<'a>(alloc: Global, words: &'a [&'a str]) -> Result<Command<'a>, Stop>
    ensures ok { IfOk result (AsksFor (map (λ w. w.now) words.now)) }
    ensures err { IfErr result (StopsBy (map (λ w. w.now) words.now)) }
    ensures pipe { map (λ w. w.now) words.now ≡ codes "pipe" ∷ []
        → Answers (codes "pipe", None) result }
    ensures pipe_nodes { (nodes : List ℕ) → IsPlainWord nodes
        → map (λ w. w.now) words.now ≡ codes "pipe" ∷ nodes ∷ []
        → Answers (codes "pipe", Some nodes) result }
    ensures check { (nodes : List ℕ) → IsPlainWord nodes
        → map (λ w. w.now) words.now ≡ codes "check" ∷ nodes ∷ []
        → Answers (codes "check", Some nodes) result }
{
    answer(alloc, words)
}

// `parse`, without what it says of words that are written out.
fn answer<'a>(alloc: Global, words: &'a [&'a str]) -> Result<Command<'a>, Stop>
    ensures ok { IfOk result (AsksFor (map (λ w. w.now) words.now)) }
    ensures err { IfErr result (StopsBy (map (λ w. w.now) words.now)) }
{
    let mut program = uaserver(alloc)?;
    match program.try_get_matches_from_mut(words) {
        Ok(matches) => match command_of(&matches) {
            Some(command) => Ok(command),
            None => {
                let why = wrong_word(alloc, &matches)?;
                let error = program.error(ErrorKind::InvalidSubcommand, why.as_str())?;
                Err(stop_of(alloc, &error))
            }
        },
        Err(error) => Err(stop_of(alloc, &error)),
    }
}

// The command whose subcommand was used.
fn command_of<'a>(matches: &ArgMatches<'a>) -> Option<Command<'a>>
    ensures some { IfSome result (IsAskedBy (subcommand_rows_of matches.now)) }
    ensures none { IsNone result → IsNoCommand (subcommand_rows_of matches.now) }
{
    let (name, given) = matches.subcommand()?;
    let nodes = given.get_str("NODES");
    let scenario = given.get_str("SCENARIO");
    match name {
        "pipe" => Some(Command::Pipe { nodes }),
        "check" => Some(Command::Check {
            nodes: nodes?,
            explain: is_given(given.get_str("explain")),
        }),
        "asm" => match nodes {
            None => Some(Command::Asm {
                scenario: scenario?,
            }),
            Some(_) => None,
        },
        "run" => Some(Command::Run {
            nodes: nodes?,
            scenario: scenario?,
        }),
        "trace" => Some(Command::Trace {
            nodes: nodes?,
            scenario: scenario?,
        }),
        "serve" => Some(Command::Serve(serve_options(given)?)),
        _ => None,
    }
}

// What the words behind `serve` say.
fn serve_options<'a>(given: &ArgMatches<'a>) -> Option<ServeOptions<'a>>
    ensures some { IfSome result (IsServedWith (first_value (found_of given.now))) }
    ensures none { IsNone result → (options : ServeOptions) → IsServedWith (first_value (found_of given.now)) options → ⊥ }
{
    Some(ServeOptions {
        nodes: given.get_str("NODES")?,
        port: port_of(given.get_str("port"))?,
        turns: bound_of(given.get_str("turns"))?,
        address: address_of(given.get_str("address"))?,
        trace: is_given(given.get_str("trace")),
        idle: idle_of(given.get_str("idle"))?,
        per_address: bound_of(given.get_str("per-address"))?,
        all_subscriptions: total_of(given.get_str("all-subscriptions"))?,
        all_items: total_of(given.get_str("all-items"))?,
        stop_file: given.get_str("stop-file"),
        store: given.get_str("store"),
        url: given.get_str("url"),
        quiet: is_given(given.get_str("quiet")),
        summary: is_given(given.get_str("summary")),
    })
}

// Which word of `serve` clap takes though it is none that its option takes, and why.
fn wrong_word(alloc: Global, matches: &ArgMatches) -> Result<String, AllocError> {
    let Some((_, given)) = matches.subcommand() else {
        return String::from_str(alloc, "no command");
    };
    let port = given.get_str("port");
    if port_of(port).is_none() {
        return wanted(alloc, "port", port, "1 to 65535");
    }
    let address = given.get_str("address");
    if address_of(address).is_none() {
        return wanted(
            alloc,
            "address",
            address,
            "an IPv4 or IPv6 address, as 127.0.0.1 or ::1",
        );
    }
    let turns = given.get_str("turns");
    if bound_of(turns).is_none() {
        return wanted(alloc, "turns", turns, "a number below 2^64");
    }
    let idle = given.get_str("idle");
    if idle_of(idle).is_none() {
        return wanted(alloc, "idle", idle, "seconds, below 2^32");
    }
    let per_address = given.get_str("per-address");
    if bound_of(per_address).is_none() {
        return wanted(alloc, "per-address", per_address, "a number below 2^64");
    }
    let subscriptions = given.get_str("all-subscriptions");
    if total_of(subscriptions).is_none() {
        return wanted(alloc, "all-subscriptions", subscriptions, "1 to 4294967295");
    }
    wanted(
        alloc,
        "all-items",
        given.get_str("all-items"),
        "1 to 4294967295",
    )
}

// What an option takes, and the word that it has.
fn wanted(
    alloc: Global,
    option: &str,
    word: Option<&str>,
    takes: &str,
) -> Result<String, AllocError> {
    let word = word.unwrap_or("");
    format!(in alloc; "--{option} {word}: {takes}")
}

// One or more decimal digits, and the number that they name where it is one of 64 bits.
fn number(digits: &str) -> Option<u64>
    ensures { result ≡ number_of digits.now }
{
    if !all_digits(digits) {
        return None;
    }
    let Ok(number) = digits.parse::<u64>() else {
        return None;
    };
    Some(number)
}

fn all_digits(text: &str) -> bool
    ensures { result ≡ list_all is_ascii_digit text.now }
{
    text.as_bytes().iter().all(|byte| byte.is_ascii_digit())
}

// The port of the words, from 1 on.
fn port_of(text: Option<&str>) -> Option<u16>
    ensures { result ≡ port_in (option_map (λ t. t.now) text.entry) }
{
    let port = number(text?)?;
    if 1 <= port && port < 65_536 {
        Some(port as u16)
    } else {
        None
    }
}

// The bound of the words, or 0.
fn bound_of(text: Option<&str>) -> Option<u64>
    ensures { result ≡ bound_in (option_map (λ t. t.now) text.entry) }
{
    match text {
        Some(digits) => number(digits),
        None => Some(0),
    }
}

// How many seconds a socket may be silent, where the words say it.
fn idle_of(text: Option<&str>) -> Option<Option<u64>>
    ensures { result ≡ idle_in (option_map (λ t. t.now) text.entry) }
{
    let Some(digits) = text else {
        return Some(None);
    };
    let seconds = number(digits)?;
    if seconds < 4_294_967_296 {
        Some(Some(seconds))
    } else {
        None
    }
}

// How many of a kind the whole server may have, where the words say it.
fn total_of(text: Option<&str>) -> Option<Option<u32>>
    ensures { result ≡ total_in (option_map (λ t. t.now) text.entry) }
{
    let Some(digits) = text else {
        return Some(None);
    };
    let most = number(digits)?;
    if 1 <= most && most < 4_294_967_296 {
        Some(Some(most as u32))
    } else {
        None
    }
}

// The address of the words, or 127.0.0.1.
fn address_of(text: Option<&str>) -> Option<IpAddr>
    ensures some { IfSome result (IsAddressIn (option_map (λ t. t.now) text.entry)) }
    ensures none { IsNone result → (address : IpAddr) → IsAddressIn (option_map (λ t. t.now) text.entry) address → ⊥ }
{
    let written = match text {
        Some(written) => written,
        None => "127.0.0.1",
    };
    match written.parse::<IpAddr>() {
        Ok(address) => Some(address),
        Err(_) => None,
    }
}

// Whether a flag stands in the words.
fn is_given(text: Option<&str>) -> bool
    ensures { result ≡ is_given_spec (option_map (λ t. t.now) text.entry) }
{
    match text {
        Some(word) => word == "true",
        None => false,
    }
}

// What to print for an error.
fn stop_of(alloc: Global, error: &Error) -> Stop
    ensures { IsStopOf (kind_of error.now) result }
{
    let kind = error.kind();
    if kind == ErrorKind::OutOfMemory {
        return Stop::Memory;
    }
    let Ok(text) = format!(in alloc; "{error}") else {
        return Stop::Memory;
    };
    if kind == ErrorKind::DisplayHelp || kind == ErrorKind::DisplayVersion {
        Stop::Help(text)
    } else {
        Stop::Usage(text)
    }
}

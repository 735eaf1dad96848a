//! The command line as `clap` takes it.

ghost use Rattle.std.specs.Prelude.{◌≡◌, IfOk, false};
ghost use Rattle.clap.specs.Words.{app_of, rule_of};
ghost use Rattle.clap.specs.declared.builder.command.Command.TheViews.{out-Command as fields_of};
ghost use Rattle.command_line.specs.Words.{asm_app, check_app, flag_rule, nodes_rule, option_rule, pipe_app, program, run_app, scenario_rule, serve_app, serve_bounds, serve_paths, serve_place, serve_totals, trace_app, with_nodes, with_scenarios};

use crate::help;
use clap::{Arg, ArgAction, Command};
use std::alloc::{AllocError, Global};

// What `--version` prints behind the program's name.
const VERSION: &str = "0.1.0";

/// The program with each of its commands.
pub(crate) fn uaserver<'a>(alloc: Global) -> Result<Command<'a>, AllocError>
    ensures { IfOk result (λ c. app_of c ≡ program) }
{
    // With no word for the program's name, a command's usage would leave it out.
    with_scenarios(alloc)?
        .subcommand(serve(alloc)?)?
        .bin_name("uaserver")
}

// With the commands of node files and of scenarios.
fn with_scenarios<'a>(alloc: Global) -> Result<Command<'a>, AllocError>
    ensures { IfOk result (λ c. app_of c ≡ with_scenarios) }
{
    with_nodes(alloc)?
        .subcommand(asm(alloc)?)?
        .subcommand(run(alloc)?)?
        .subcommand(trace(alloc)?)
}

// With the commands that take a node file alone.
fn with_nodes<'a>(alloc: Global) -> Result<Command<'a>, AllocError>
    ensures { IfOk result (λ c. app_of c ≡ with_nodes) }
{
    Command::new(alloc, "uaserver")
        .about(help::PROGRAM)
        .version(VERSION)
        .no_binary_name(true)
        .subcommand_required(true)
        .arg_required_else_help(true)
        .subcommand(pipe(alloc)?)?
        .subcommand(check(alloc)?)
}

fn pipe<'a>(alloc: Global) -> Result<Command<'a>, AllocError>
    ensures { IfOk result (λ c. (app_of c ≡ pipe_app) × ((fields_of c).has_globals ≡ false)) }
{
    Command::new(alloc, "pipe")
        .about(help::PIPE)
        .arg(nodes(alloc).help(help::NODES_OR_NONE))
}

fn check<'a>(alloc: Global) -> Result<Command<'a>, AllocError>
    ensures { IfOk result (λ c. (app_of c ≡ check_app) × ((fields_of c).has_globals ≡ false)) }
{
    Command::new(alloc, "check")
        .about(help::CHECK)
        .arg(nodes(alloc).required(true))?
        .arg(flag(alloc, "explain", help::EXPLAIN))
}

fn asm<'a>(alloc: Global) -> Result<Command<'a>, AllocError>
    ensures { IfOk result (λ c. (app_of c ≡ asm_app) × ((fields_of c).has_globals ≡ false)) }
{
    Command::new(alloc, "asm")
        .about(help::ASM)
        .arg(scenario(alloc))
}

fn run<'a>(alloc: Global) -> Result<Command<'a>, AllocError>
    ensures { IfOk result (λ c. (app_of c ≡ run_app) × ((fields_of c).has_globals ≡ false)) }
{
    Command::new(alloc, "run")
        .about(help::RUN)
        .arg(nodes(alloc).required(true))?
        .arg(scenario(alloc))
}

fn trace<'a>(alloc: Global) -> Result<Command<'a>, AllocError>
    ensures { IfOk result (λ c. (app_of c ≡ trace_app) × ((fields_of c).has_globals ≡ false)) }
{
    Command::new(alloc, "trace")
        .about(help::TRACE)
        .arg(nodes(alloc).required(true))?
        .arg(scenario(alloc))
}

fn serve<'a>(alloc: Global) -> Result<Command<'a>, AllocError>
    ensures { IfOk result (λ c. (app_of c ≡ serve_app) × ((fields_of c).has_globals ≡ false)) }
{
    serve_paths(alloc)?
        .arg(flag(alloc, "trace", help::TRACED))?
        .arg(flag(alloc, "quiet", help::QUIET))?
        .arg(flag(alloc, "summary", help::SUMMARY))
}

// `serve` with its place, what bounds its sockets and the whole server, its URL and its files.
fn serve_paths<'a>(alloc: Global) -> Result<Command<'a>, AllocError>
    ensures { IfOk result (λ c. (app_of c ≡ serve_paths) × ((fields_of c).has_globals ≡ false)) }
{
    serve_totals(alloc)?
        .arg(option(alloc, "url", "URL", help::URL))?
        .arg(option(alloc, "stop-file", "PATH", help::STOP_FILE))?
        .arg(option(alloc, "store", "FILE", help::STORE))
}

// `serve` with its place, what bounds its sockets and what bounds the whole server.
fn serve_totals<'a>(alloc: Global) -> Result<Command<'a>, AllocError>
    ensures { IfOk result (λ c. (app_of c ≡ serve_totals) × ((fields_of c).has_globals ≡ false)) }
{
    serve_bounds(alloc)?
        .arg(option(alloc, "all-subscriptions", "N", help::ALL_SUBSCRIPTIONS))?
        .arg(option(alloc, "all-items", "N", help::ALL_ITEMS))
}

// `serve` with its place and what bounds its turns and sockets.
fn serve_bounds<'a>(alloc: Global) -> Result<Command<'a>, AllocError>
    ensures { IfOk result (λ c. (app_of c ≡ serve_bounds) × ((fields_of c).has_globals ≡ false)) }
{
    serve_place(alloc)?
        .arg(option(alloc, "turns", "N", help::TURNS))?
        .arg(option(alloc, "idle", "SECONDS", help::IDLE))?
        .arg(option(alloc, "per-address", "N", help::PER_ADDRESS))
}

// `serve` with its NODES, its port and its address.
fn serve_place<'a>(alloc: Global) -> Result<Command<'a>, AllocError>
    ensures { IfOk result (λ c. (app_of c ≡ serve_place) × ((fields_of c).has_globals ≡ false)) }
{
    Command::new(alloc, "serve")
        .about(help::SERVE)
        .arg(nodes(alloc).required(true))?
        .arg(option(alloc, "port", "P", help::PORT).required(true))?
        .arg(option(alloc, "address", "A", help::ADDRESS))
}

// An option with a value.
fn option<'a>(alloc: Global, name: &'a str, value: &'a str, help: &'a str) -> Arg<'a>
    ensures rule { rule_of result ≡ option_rule name.entry.now }
    ensures local { result.global ≡ false }
{
    Arg::new(alloc, name)
        .long(name)
        .value_name(value)
        .help(help)
}

// An option without a value, which is there or not.
fn flag<'a>(alloc: Global, name: &'a str, help: &'a str) -> Arg<'a>
    ensures rule { rule_of result ≡ flag_rule name.entry.now }
    ensures local { result.global ≡ false }
{
    Arg::new(alloc, name)
        .long(name)
        .action(ArgAction::SetTrue)
        .help(help)
}

// NODES, as `pipe` takes it.
fn nodes<'a>(alloc: Global) -> Arg<'a>
    ensures rule { rule_of result ≡ nodes_rule }
    ensures local { result.global ≡ false }
{
    Arg::new(alloc, "NODES").help("a node file (TOML)")
}

// SCENARIO, which may not be left out.
fn scenario<'a>(alloc: Global) -> Arg<'a>
    ensures rule { rule_of result ≡ scenario_rule }
    ensures local { result.global ≡ false }
{
    Arg::new(alloc, "SCENARIO")
        .help("a scenario")
        .required(true)
}

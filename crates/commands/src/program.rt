//! What the commands do, over words, texts and streams. Those that take a scenario stand in `scenarios`.

ghost use Rattle.std.specs.Prelude.{◌≡◌, Option, Some, None, IfOk, IfErr, map, option_map, string_bytes};
ghost use Rattle.server_core.specs.World.{world_of};
ghost use Rattle.ua_space.specs.Build.{space_of};
ghost use Rattle.scenario_run.specs.Held.{place};
ghost use Rattle.commands.specs.NodeFiles.{Made, ReadsNone, built, made_in, made_of_none};
ghost use Rattle.commands.specs.Said.{MadeBy, Says};
ghost use Rattle.commands.specs.Commands.{Checks, opened, status_of, Pipes, PipesMade, PipesFile, Runs};
ghost use Rattle.commands.specs.Commands.{counts_line as counts_line_spec};

use crate::checking::check_at;
use crate::exit_status::ExitStatus;
use crate::machine::Machine;
use crate::scenarios::{Telling, asm_at, run_at};
use crate::serving::serve_at;
use crate::text_file::{FileFault, TextFile};
use command_line::{Command, Stop, parse};
use node_loader::{Cause, Loaded, load};
use scenario_run::Lines;
use server_core::{Event, Server, StepFault};
use std::alloc::{AllocError, Global};
use std::io::{Read, Write};
use std::net::Net;
use std::random::RandomSource;
use std::rt::Files;
use std::sync::Wait;
use std::time::Clock;
use store_restoring::OpensStores;
use stream_server::{Pump, PumpFault};
use stream_taps::{Tap, put_bytes};
use ua_space::{Node, Space, SpaceFault, Triple};
use ua_types::Config;

/// The one connection of `pipe`.
const CONNECTION: u64 = 1;

/// How a run of the program ended, and the node file and the scenario that it read.
#[derive(Debug, Drop)]
pub struct Ended {
    pub status: ExitStatus,
    pub file: Option<TextFile>,
    pub scenario: Option<TextFile>,
}

impl Ended {
    // No file was read.
    pub(crate) fn by(status: ExitStatus) -> Ended
        ensures { result ≡ record { status = status; file = None; scenario = None } }
    {
        Ended {
            status,
            file: None,
            scenario: None,
        }
    }

    // Of the two the node file alone was read.
    pub(crate) fn with_nodes(status: ExitStatus, file: TextFile) -> Ended
        ensures { result ≡ record { status = status; file = Some file; scenario = None } }
    {
        Ended {
            status,
            file: Some(file),
            scenario: None,
        }
    }
}

/// Says that memory ran out.
pub fn no_memory<E: Write>(errors: &mut E) -> ExitStatus
    ensures { result ≡ ExitStatus.Halted }
{
    let _ = writeln!(errors, "memory");
    ExitStatus::Halted
}

/// Says on standard error why a step of the server failed: `memory`, and `halted` for every other fault. Public for the test of these
/// texts, since nothing outside brings most of them about.
pub fn step_fault<E: Write>(fault: StepFault, errors: &mut E) -> ExitStatus
    ensures { result ≡ ExitStatus.Halted }
{
    match fault {
        StepFault::Memory => no_memory(errors),
        _ => {
            let _ = writeln!(errors, "halted");
            ExitStatus::Halted
        }
    }
}

pub(crate) fn stream<E: Write>(errors: &mut E) -> ExitStatus
    ensures { result ≡ ExitStatus.Stream }
{
    let _ = writeln!(errors, "stream");
    ExitStatus::Stream
}

// Writes a text whole, or says that the stream failed.
pub(crate) fn say<O: Write, E: Write>(text: &str, output: &mut Tap<O>, errors: &mut E) -> ExitStatus
    ensures { Says text.now (place O.contents output.old) (place O.contents output.new) result }
{
    let bytes = text.as_bytes();
    let count = put_bytes(output, bytes);
    if count < bytes.len() {
        return stream(errors);
    }
    if output.flush().is_err() {
        return stream(errors);
    }
    ExitStatus::Done
}

// Reads the file at this path, or says why there is none.
pub(crate) fn read_file<R: Files + AllocGlobal, E: Write>(
    rt: &R,
    path: &str,
    errors: &mut E,
) -> Result<TextFile, ExitStatus>
    ensures file { IfOk result (λ file. file.path ≡ path.now) }
    ensures status { IfErr result ReadsNone }
{
    match TextFile::read(rt, path) {
        Ok(file) => Ok(file),
        Err(FileFault::Memory) => Err(no_memory(errors)),
        Err(FileFault::Unreadable) => {
            let _ = writeln!(errors, "file {path}");
            Err(ExitStatus::File)
        }
    }
}

// The address space of a configuration, or the status of why there is none.
fn build<E: Write>(
    alloc: Global,
    config: Config,
    nodes: Vec<Node>,
    triples: Vec<Triple>,
    errors: &mut E,
) -> Result<(Config, Space), ExitStatus>
    ensures { MadeBy result (built config (space_of config nodes.items triples.items)) }
{
    match Space::build(alloc, &config, nodes, triples) {
        Ok(space) => Ok((config, space)),
        Err(SpaceFault::Memory) => Err(no_memory(errors)),
        Err(fault) => {
            let _ = writeln!(errors, "nodes: {fault}");
            Err(ExitStatus::Nodes)
        }
    }
}

// The configuration and the address space that the text of a node file means.
pub(crate) fn nodes_in<E: Write>(
    alloc: Global,
    text: &str,
    errors: &mut E,
) -> Result<(Config, Space), ExitStatus>
    ensures { MadeBy result (made_in text.now) }
{
    let Loaded {
        config,
        nodes,
        triples,
    } = match load(alloc, text) {
        Ok(loaded) => loaded,
        Err(fault) if fault.cause == Cause::Memory => return Err(no_memory(errors)),
        Err(fault) => {
            let _ = writeln!(errors, "nodes: {fault}");
            return Err(ExitStatus::Nodes);
        }
    };
    build(alloc, config, nodes.into_vec(), triples.into_vec(), errors)
}

// The standard configuration, and the base set alone.
fn no_nodes<E: Write>(alloc: Global, errors: &mut E) -> Result<(Config, Space), ExitStatus>
    ensures { MadeBy result made_of_none }
{
    match Config::standard(alloc) {
        Ok(config) => build(alloc, config, Vec::new(alloc), Vec::new(alloc), errors),
        Err(_) => Err(no_memory(errors)),
    }
}

// The line of `check`.
fn counts_line(alloc: Global, space: &Space) -> Result<String, AllocError>
    ensures { IfOk result (λ line. string_bytes line ≡ counts_line_spec space.now) }
{
    let nodes = space.node_count();
    let references = space.triple_count();
    format!(in alloc; "{nodes} nodes, {references} references\n")
}

/// Prints how many nodes and references the text of a node file means, those that every server has
/// included.
///
/// `Nodes` comes where something is wrong with the text, and `Halted` where memory ran out: nothing is
/// printed then. `Stream` comes where a call of the output failed, and a part of the line may be out.
pub fn check<O: Write, E: Write>(
    alloc: Global,
    text: &str,
    output: &mut Tap<O>,
    errors: &mut E,
) -> ExitStatus
    ensures { Checks (place O.contents output.old) (place O.contents output.new) text.now result }
{
    match nodes_in(alloc, text, errors) {
        Ok((_config, space)) => match counts_line(alloc, &space) {
            Ok(line) => say(line.as_str(), output, errors),
            Err(_) => no_memory(errors),
        },
        Err(status) => status,
    }
}

// A server whose one connection is open.
fn opened_server(alloc: Global, made: (Config, Space)) -> Result<Server, StepFault>
    ensures { IfOk result (λ server. world_of server ≡ opened made) }
{
    let (config, space) = made;
    let mut server = Server::new(alloc, config, space)?;
    let opening = Event::Opened {
        conn: CONNECTION,
        key: [0; 32],
    };
    match server.step(&opening) {
        Ok(_) => Ok(server),
        Err(fault) => Err(fault),
    }
}

// How a run of the pump ends the program.
fn pumped<E: Write>(ran: Result<(), PumpFault>, errors: &mut E) -> ExitStatus
    ensures { result ≡ status_of ran }
{
    match ran {
        Ok(()) => ExitStatus::Done,
        Err(PumpFault::Step(fault)) => step_fault(fault, errors),
        Err(PumpFault::Read | PumpFault::Write | PumpFault::Turns) => stream(errors),
    }
}

/// Hands the input to a server of this configuration and address space, as its only connection, and
/// writes the server's answers.
///
/// `Done` comes at the end of the input, or once the server has closed the connection: all answers are out
/// then. `Stream` comes where a call of the input or the output failed, or where the input had no end, and
/// `Halted` where memory ran out or the server halted.
pub fn pipe<I: Read, O: Write, E: Write>(
    alloc: Global,
    made: (Config, Space),
    input: &mut Tap<I>,
    output: &mut Tap<O>,
    errors: &mut E,
) -> ExitStatus
    ensures { Pipes I.remaining O.contents input.old input.new output.old output.new made result }
{
    let mut server = match opened_server(alloc, made) {
        Ok(server) => server,
        Err(fault) => return step_fault(fault, errors),
    };
    let ran = Pump::new().run(&mut server, CONNECTION, input, output);
    pumped(ran, errors)
}

// `pipe` of what was made.
fn pipe_made<I: Read, O: Write, E: Write>(
    alloc: Global,
    made: Result<(Config, Space), ExitStatus>,
    input: &mut Tap<I>,
    output: &mut Tap<O>,
    errors: &mut E,
) -> ExitStatus
    ensures { (said : Option Made) → MadeBy made said →
        PipesMade I.remaining O.contents input.old input.new output.old output.new said result }
{
    match made {
        Ok(made) => pipe(alloc, made, input, output, errors),
        Err(status) => status,
    }
}

// `pipe`, with the configuration and the nodes of the file at this path where there is one.
fn pipe_with<R: Files + AllocGlobal, I: Read, O: Write, E: Write>(
    rt: &R,
    nodes: Option<&str>,
    input: &mut Tap<I>,
    output: &mut Tap<O>,
    errors: &mut E,
) -> Ended
    ensures { PipesFile I.remaining O.contents input.old input.new output.old output.new
        (option_map (λ n. n.now) nodes.entry) result.status result.file }
{
    let alloc = rt.alloc();
    match nodes {
        None => {
            let made = no_nodes(alloc, errors);
            Ended::by(pipe_made(alloc, made, input, output, errors))
        }
        Some(path) => match read_file(rt, path, errors) {
            Ok(file) => {
                let made = nodes_in(alloc, file.text(), errors);
                let status = pipe_made(alloc, made, input, output, errors);
                Ended::with_nodes(status, file)
            }
            Err(status) => Ended::by(status),
        },
    }
}

/// Does what these words ask for: the words after the program's name. What is asked for goes to
/// `output`, what went wrong to `errors`, each as a line. A store that they name is opened by the machine's `stores`.
pub fn run<
    R: Files + AllocGlobal + Net + RandomSource + Clock + Wait,
    P: OpensStores,
    I: Read,
    O: Write,
    E: Write,
>(
    machine: Machine<'_, R, P>,
    words: &[&str],
    input: &mut Tap<I>,
    output: &mut Tap<O>,
    errors: &mut E,
) -> Ended
    ensures { Runs I.remaining O.contents input.old input.new output.old output.new (map (λ w. w.now) words.now) result }
{
    let rt = machine.rt;
    match parse(rt.alloc(), words) {
        Ok(Command::Pipe { nodes }) => pipe_with(rt, nodes, input, output, errors),
        Ok(Command::Check { nodes, explain }) => check_at(rt, nodes, explain, output, errors),
        Ok(Command::Asm { scenario }) => asm_at(rt, scenario, output, errors),
        Ok(Command::Run { nodes, scenario }) => {
            let telling = Telling {
                lines: Lines::Outs,
                scenario,
            };
            run_at(rt, nodes, telling, output, errors)
        }
        Ok(Command::Trace { nodes, scenario }) => {
            let telling = Telling {
                lines: Lines::Rows,
                scenario,
            };
            run_at(rt, nodes, telling, output, errors)
        }
        Ok(Command::Serve(options)) => serve_at(machine, &options, output, errors),
        Err(Stop::Help(text)) => Ended::by(say(text.as_str(), output, errors)),
        Err(Stop::Usage(text)) => {
            let _ = write!(errors, "{text}");
            Ended::by(ExitStatus::Usage)
        }
        Err(Stop::Memory) => Ended::by(no_memory(errors)),
    }
}

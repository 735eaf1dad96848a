//! Calls of public functions of `ua_transport`, `server_core`, and the crates that carry its bytes and tell its runs, each under the
//! clauses that its callers rely on. That the crate is proved says that the contracts below give these clauses; each edit in
//! `must-fail` puts a wrong body in the place of a call, which the clauses have to refuse. Nothing calls these functions.
#![tactic(auto)]

ghost use Rattle.std.specs.Prelude.{◌≡◌, ◌++◌, Err, MatchResult, OnOk, string_bytes, true, false};
ghost use Rattle.ua_types.specs.Refusals.{TakesOrRefuses};
ghost use Rattle.ua_types.specs.declared.refusal.Refusal.TheVariants as refusal;
ghost use Rattle.ua_transport.specs.Acceptance.{take_of};
ghost use Rattle.ua_transport.specs.Messages.{brings_part};
ghost use Rattle.server_core.specs.World.{world_of};
ghost use Rattle.server_core.specs.Stepping.{step_on, StepsTo, takes_no_memory_on};
ghost use Rattle.server_core.specs.declared.out.StepFault.TheVariants as step_fault;
ghost use Rattle.scenario_text.specs.Scenarios.{Means};
ghost use Rattle.scenario_run.specs.Assembly.{events_of};
ghost use Rattle.scenario_run.specs.TraceText.{row_line};
ghost use Rattle.stream_server.specs.Pumped.{scene, Done, Stopped};
ghost use Rattle.socket_peers.specs.Peers.{owed_all};

use collections::ShortList;
use scenario_run::{append_line, assemble};
use scenario_text::AsmFault;
use server_core::{Event, Fired, Listed, Out, Server, Step, StepFault};
use socket_peers::Peers;
use std::alloc::{AllocError, Global};
use std::io::{Read, Write};
use stream_server::{Pump, PumpFault};
use stream_taps::Tap;
use ua_transport::{Channel, Frame, Taken};
use ua_types::Refusal;

/// As [`Channel::take`].
pub fn frame_taken(channel: &mut Channel, alloc: Global, frame: &Frame) -> Result<Taken, Refusal>
    ensures { TakesOrRefuses result channel.old channel.new (take_of channel.old frame.now) }
{
    channel.take(alloc, frame)
}

/// As [`Channel::take`], of which nothing is said but when it wants memory.
pub fn chunk_taken(channel: &mut Channel, alloc: Global, chunk: &Frame) -> Result<Taken, Refusal>
    ensures { result ≡ Err refusal.Memory → brings_part (take_of channel.old chunk.now).answer ≡ true }
{
    channel.take(alloc, chunk)
}

/// As [`Server::step`].
pub fn stepped(server: &mut Server, event: &Event) -> Result<Step, StepFault>
    ensures step { StepsTo result (world_of server.old) (world_of server.new) (step_on (world_of server.old) event.now) }
    ensures memory { result ≡ Err step_fault.Memory → takes_no_memory_on (world_of server.old) event.now ≡ false }
{
    server.step(event)
}

/// As [`assemble`].
pub fn scenario_assembled(alloc: Global, text: &str) -> Result<Listed<Event>, AsmFault>
    ensures { Means result (events_of text.now) }
{
    assemble(alloc, text)
}

/// As [`append_line`].
pub fn row_traced(out: &mut String, event: u64, fired: &Fired) -> Result<(), AllocError>
    ensures { OnOk result (string_bytes out.new ≡ string_bytes out.old ++ row_line event fired.now) }
{
    append_line(out, event, fired)
}

/// As [`Pump::run`].
pub fn pumped<R: Read, W: Write>(
    pump: &mut Pump,
    server: &mut Server,
    conn: u64,
    reader: &mut Tap<R>,
    writer: &mut Tap<W>,
) -> Result<(), PumpFault>
    ensures { let old = scene R.remaining W.contents 0 (world_of server.old) reader.old writer.old in
        let new = scene R.remaining W.contents pump.new (world_of server.new) reader.new writer.new in
        MatchResult result (λ _. Done conn old new) (Stopped conn old new) }
{
    pump.run(server, conn, reader, writer)
}

/// As [`Peers::owe_all`].
pub fn sockets_owed<S: Drop>(peers: &mut Peers<S>, outs: ShortList<Out>) -> Result<(), AllocError>
    ensures { OnOk result (peers.new ≡ owed_all peers.old outs) }
{
    peers.owe_all(outs)
}

//! Scenarios as lists of events.

ghost use Rattle.std.specs.Prelude.{◌≡◌, ◌<◌, ◌≤◌, ◌++◌, ◌∷◌, [], map, length, None, Ok, Err, IfOk, IfErr, OnOk, IsOkAnd, ◌≢◌};
ghost use Rattle.server_core.specs.declared.event.Event.TheVariants as happening;
ghost use Rattle.scenario_text.specs.Scenarios.{Means};
ghost use Rattle.scenario_text.specs.declared.fault.Cause.TheVariants.{Limit, Memory};
ghost use Rattle.scenario_run.specs.Pieces.{pieces_of};
ghost use Rattle.scenario_run.specs.Assembly.{Puts, event_limit, stream_events, group_of, in_line, joined, groups_from, MeansAs, events_of as events_of_spec};
ghost use Rattle.scenario_run.specs.Members.{nothing_sent};
ghost use Rattle.scenario_run.specs.Meaning.{plain_manner, happenings_of, meaning};
ghost use Rattle.scenario_run.specs.Groups.{nothing_counted, AreGroups};

use crate::assembler::{Assembler, Member};
use bytes::Bytes;
use scenario_text::{AsmFault, Cause, Line, Scenario, readable};
use server_core::Event;
use std::alloc::Global;
use ua_types::Listed;

/// How many events a scenario may have.
const EVENT_LIMIT: usize = 100_000;

fn put_event(events: &mut Vec<Event>, event: Event) -> Result<(), Cause>
    ensures { Puts result events.old.items events.new.items (event ∷ []) }
{
    if events.len() >= EVENT_LIMIT {
        return Err(Cause::Limit);
    }
    events.push(event)?;
    Ok(())
}

// An event of a piece of a stream.
fn put_piece(alloc: Global, conn: u64, piece: &[u8], events: &mut Vec<Event>) -> Result<(), Cause>
    ensures { Puts result events.old.items events.new.items (happening.Bytes conn piece.now ∷ []) }
{
    let bytes = Bytes::copy_from_slice(alloc, piece)?;
    put_event(events, Event::Bytes { conn, bytes })
}

// Bytes in events of so many.
fn put_pieces(
    alloc: Global,
    size: usize,
    conn: u64,
    bytes: &[u8],
    events: &mut Vec<Event>,
) -> Result<(), Cause>
    requires { 0 < size }
    ensures { Puts result events.old.items events.new.items (map (λ piece. happening.Bytes conn piece) (pieces_of size bytes.now)) }
{
    let mut rest = bytes;
    while rest.len() > size {
        let (piece, more) = rest.split_at(size);
        put_piece(alloc, conn, piece, events)?;
        rest = more;
    }
    put_piece(alloc, conn, rest, events)
}

#[tactic(auto, unfolding(crate::specs::Assembly::stream_events))]
fn put_stream(
    alloc: Global,
    cut: u64,
    conn: u64,
    bytes: Vec<u8>,
    events: &mut Vec<Event>,
) -> Result<(), Cause>
    ensures { Puts result events.old.items events.new.items (stream_events cut conn bytes.items) }
{
    if cut == 0 {
        let bytes = Bytes::from_vec(bytes)?;
        return put_event(events, Event::Bytes { conn, bytes });
    }
    put_pieces(alloc, cut as usize, conn, bytes.as_slice(), events)
}

// The events of a line.
fn put_group(alloc: Global, cut: u64, member: Member, events: &mut Vec<Event>) -> Result<(), Cause>
    requires { length events.old.items ≤ event_limit }
    ensures { Puts result events.old.items events.new.items (group_of cut member) }
{
    match member {
        Member::Nothing => Ok(()),
        Member::Own(event) => put_event(events, event),
        Member::Stream { connection, bytes } => {
            put_stream(alloc, cut, connection, bytes.into_vec(), events)
        }
    }
}

// What is wrong with a line, where something is.
fn in_line<T: Drop>(number: u64, outcome: Result<T, Cause>) -> Result<T, AsmFault>
    ensures { result ≡ in_line number outcome }
{
    match outcome {
        Ok(value) => Ok(value),
        Err(cause) => Err(AsmFault {
            cause,
            line: number,
        }),
    }
}

// The events of these lines, unless one of them comes to too much.
#[tactic(auto, using(crate::proofs::AssemblyLemmas::begins, crate::proofs::CountLemmas::nothing_counted, crate::proofs::HappeningLemmas::begins_grouped))]
fn events_of(
    alloc: Global,
    fault: Option<AsmFault>,
    lines: Vec<Line>,
) -> Result<Vec<Event>, AsmFault>
    ensures given { MeansAs (λ v. v.items) result (joined (groups_from fault nothing_sent 0 lines.items)) }
    ensures meant { IfOk result (λ v. (fault ≡ None) × AreGroups nothing_counted (happenings_of plain_manner lines.items) v.items) }
{
    let mut assembler = Assembler::new(alloc);
    let mut events = Vec::new(alloc);
    for line in lines {
        let Line { number, statement } = line;
        let member = in_line(number, assembler.take(alloc, statement))?;
        in_line(number, put_group(alloc, assembler.cut, member, &mut events))?;
    }
    match fault {
        None => Ok(events),
        Some(fault) => Err(fault),
    }
}

/// The events of a scenario: a group for each line that says something, in their order.
///
/// `meant` says what the events are without the definition `given`: what the text says happens, in order, each in frames
/// that are read as it.
///
/// The error is the first bad line, with the cause of its leftmost bad word. Where all words of the line
/// are good it is [`Cause::Limit`]: the line brings more than 100,000 events together, or a body of more
/// than 1,048,576 bytes. `Memory` comes only where an allocation failed.
#[tactic(auto, using(crate::proofs::RefusalLemmas::fault_meant, crate::proofs::RefusalLemmas::text_meant))]
pub fn assemble(alloc: Global, text: &str) -> Result<Listed<Event>, AsmFault>
    ensures given { Means result (events_of_spec text.now) }
    ensures meant { IfOk result (λ events. IsOkAnd (meaning text.now) (λ happenings. AreGroups nothing_counted happenings events)) }
    ensures refused { IfErr result (λ f. f.cause ≢ Memory → f.cause ≢ Limit → meaning text.now ≡ Err f) }
{
    let Scenario { lines, fault } = readable(alloc, text)?;
    let events = events_of(alloc, fault, lines.into_vec())?;
    Ok(Listed::from_vec(events))
}

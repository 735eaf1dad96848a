//! What the server tells of its subscriptions beside its answers.

use crate::events::base_server;
use crate::holding::holds;
use scenario_run::assemble;
use server_core::{Out, Ran, Server, Step};
use std::alloc::Global;
use std::process::Abort;
use std::test::*;
use ua_state_table::State;

// A subscription of one value a message with three items, whose names are their first values: two requests are answered at
// the timer and a third one, which acknowledges the first message, at once. The second message is published again.
const KEEPS_MESSAGES: &str =
    "open 1 0000000000000000000000000000000000000000000000000000000000000000
hel 1 \"opc.tcp://localhost:4840\"
opn 1 issue
session 1
activate 1 1
sub 1 1 0 0 1 0 on
item 1 1 1 2 i=84 4 2 1 1 oldest 1
item 1 1 1 2 i=85 4 2 2 1 oldest 1
item 1 1 1 2 i=86 4 2 3 1 oldest 1
publish 1 1
publish 1 1
tick 10000000
publish 1 1 1:1
republish 1 1 1 2
";

// Whether a step sends a frame that ends in these bytes.
fn is_sent(step: &Step, bytes: &[u8]) -> bool {
    for out in step.outs.as_slice() {
        if let Out::Send {
            conn: _,
            bytes: frame,
        } = out
        {
            if frame.as_slice().ends_with(bytes) {
                return true;
            }
        }
    }
    false
}

// Whether the one subscription stands in Normal, with both of its counters at their counts.
fn is_normal(server: &Server) -> bool {
    let is_normal = match server.vars(1) {
        Some(vars) => vars.state == State::Normal && vars.keep_alive == 2 && vars.lifetime == 6,
        None => false,
    };
    is_normal && server.vars(2).is_none()
}

// Whether the last step sent the message 2 as it is kept, and the message 1 is kept no more.
fn is_same(server: &Server, ran: &Ran) -> bool {
    match (ran.steps.as_slice().last(), server.kept(1, 2)) {
        (Some(last), Some(message)) => is_sent(last, message) && server.kept(1, 1).is_none(),
        _ => false,
    }
}

// Whether the message 2 was sent again as it is kept, when all this has happened.
fn is_republished(alloc: Global, server: &mut Server) -> Result<bool, Fail> {
    let Ok(events) = assemble(alloc, KEEPS_MESSAGES) else {
        return Err(Fail::new("not assembled"));
    };
    let ran = server.run(events.as_slice());
    Ok(is_same(server, &ran))
}

// Whether the messages 2 and 3 are kept.
fn are_others_kept(server: &Server) -> Result<bool, Fail> {
    let numbers = server.kept_numbers(1)?;
    Ok(numbers.as_slice() == [2, 3].as_slice())
}

fn tells(rt: &impl Abort, alloc: Global, server: &mut Server) -> Result<(), Fail> {
    holds(rt, "the second again", is_republished(alloc, server)?);
    holds(rt, "where it stands", is_normal(server));
    holds(rt, "the others", are_others_kept(server)?);
    Ok(())
}

#[test]
fn what_is_told_and_kept(rt: HostRuntime) -> Result<(), Fail> {
    let alloc = rt.alloc();
    let mut server = base_server(alloc)?;
    tells(&rt, alloc, &mut server)
}

//! Events that no scenario brings: its connections are opened once, and before they are gone.

use crate::holding::holds;
use server_core::{Event, Server, StepFault};
use std::alloc::Global;
use std::process::Abort;
use std::test::*;
use ua_space::Space;
use ua_types::{Config, Moment};

/// A server as it is without a node file.
pub(crate) fn base_server(alloc: Global) -> Result<Server, Fail> {
    let config = Config::standard(alloc)?;
    let space = Space::build(alloc, &config, Vec::new(alloc), Vec::new(alloc))?;
    Ok(Server::new(alloc, config, space)?)
}

/// The event that a connection opens.
pub(crate) fn opened(conn: u64) -> Event {
    Event::Opened { conn, key: [0; 32] }
}

fn ends_at_its_first_fault(rt: &impl Abort, server: &mut Server) {
    let gone = server.step(&Event::Gone { conn: 1 });
    holds(
        rt,
        "unknown",
        matches!(gone, Err(StepFault::UnknownConnection)),
    );
    let events = [opened(1), opened(1), Event::Tick { now: Moment(8) }];
    let ran = server.run(&events);
    holds(
        rt,
        "known",
        matches!(ran.fault, Some(StepFault::KnownConnection)),
    );
    holds(rt, "one step", ran.steps.as_slice().len() == 1);
}

#[test]
fn a_run_ends_at_its_first_fault(rt: HostRuntime) -> Result<(), Fail> {
    let alloc = rt.alloc();
    let mut server = base_server(alloc)?;
    ends_at_its_first_fault(&rt, &mut server);
    Ok(())
}

//! Scenarios, and what is out of memory for good.

use crate::benchmarks::{failed, server_of};
use scenario_run::assemble;
use scenario_text::{AsmFault, Cause};
use server_core::{Event, Server, StepFault};
use server_messages::{Halt, Origin};
use std::alloc::Global;
use std::io::Write;
use std::rt::Files;
use std::{fs, io};
use ua_binary::Cursor;
use ua_monitored_items::Items;
use ua_subscription_messages::{SubscriptionAcknowledgement, SubscriptionId};
use ua_subscriptions::{Answered, PublishCall, Requester, Settings, Subscriptions};
use ua_types::{Config, Listed, Moment};
use ua_views::{ArrayView, View};

/// Writes how many events a scenario brings.
pub(super) fn write_scenario<R: Files + AllocGlobal>(
    rt: &R,
    output: &mut Vec<u8>,
) -> io::Result<()> {
    let alloc = rt.alloc();
    let text = fs::read_to_string(rt, "aborted_write.scenario")?;
    let events = match assemble(alloc, text.as_str()) {
        Err(
            AsmFault {
                cause: Cause::Memory,
                line: _,
            },
        ) => assemble(alloc, text.as_str()),
        events => events,
    };
    match events {
        Ok(events) => write!(output, "{} events\n", events.as_slice().len()),
        Err(fault) => write!(output, "{fault}\n"),
    }
}

// Whether an answer may come where memory ran out before, or didn't, which it notes: any but an error, or want of memory.
fn goes_on<T: Drop>(halted: &mut bool, answer: Result<T, Halt>) -> bool {
    match answer {
        Ok(_) => !*halted,
        Err(Halt::Memory) => {
            *halted = true;
            true
        }
        Err(Halt::Exhausted) => false,
    }
}

const SETTINGS: Settings = Settings {
    keep_alive_count: 2,
    lifetime_count: 6,
    notifications: 0,
    priority: 0,
};

// The first session, at once.
const REQUESTER: Requester = Requester {
    session: 1,
    clock: Moment(0),
};

// The bytes of a list that is null.
const NULL_LIST: &[u8] = &[0xff; 4];

// Has a Publish taken that acknowledges nothing.
fn publish(
    alloc: Global,
    subscriptions: &mut Subscriptions,
    items: &mut Items,
    id: u32,
) -> Result<Answered<()>, Halt> {
    let call = PublishCall {
        origin: Origin {
            conn: 1,
            id,
            handle: id,
        },
        results: Listed::new(alloc),
    };
    match ArrayView::<SubscriptionAcknowledgement>::view(&mut Cursor::new(NULL_LIST)) {
        Ok(none) => subscriptions.publish(items, REQUESTER, call, none),
        Err(_) => Err(Halt::Exhausted),
    }
}

// Whether each call is answered, or want of memory from one on.
fn go_on(alloc: Global, subscriptions: &mut Subscriptions, items: &mut Items) -> bool {
    let mut halted = false;
    let mut so = true;
    for id in 1..4 {
        let created = subscriptions.create(items, REQUESTER, SETTINGS, true);
        so = goes_on(&mut halted, created) && so;
        let published = publish(alloc, subscriptions, items, id);
        so = goes_on(&mut halted, published) && so;
        let modified = subscriptions.modify(items, REQUESTER, SubscriptionId(1), SETTINGS);
        so = goes_on(&mut halted, modified) && so;
    }
    so
}

/// Writes whether subscriptions, once out of memory, are so for good.
pub(super) fn write_subscriptions(alloc: Global, output: &mut Vec<u8>) -> io::Result<()> {
    let config = Config::standard(alloc)?;
    let mut items = Items::new(alloc, &config);
    let mut subscriptions = Subscriptions::new(alloc, &config);
    let so = go_on(alloc, &mut subscriptions, &mut items);
    write!(
        output,
        "each call is answered, or Memory from one on: {so}\n"
    )
}

// Whether this may answer an event: a step; want of memory once, which it notes; and behind that only that the server is halted.
fn steps_on(server: &mut Server, event: &Event, halted: &mut bool) -> bool {
    match server.step(event) {
        Ok(_) => !*halted,
        Err(StepFault::Memory) => {
            let first = !*halted;
            *halted = true;
            first
        }
        Err(StepFault::Halted) => *halted,
        Err(_) => false,
    }
}

// Whether each event is answered, or want of memory at one and from then on that the server is halted, also at events that take
// no memory.
fn are_answered(server: &mut Server, events: &[Event]) -> bool {
    let mut halted = false;
    let mut so = true;
    for event in events {
        so = steps_on(server, event, &mut halted) && so;
    }
    let last = [
        Event::Gone { conn: 1 },
        Event::Tick { now: Moment(0) },
        Event::Shutdown,
    ];
    for event in &last {
        so = steps_on(server, event, &mut halted) && so;
    }
    so
}

// The events of a scenario.
fn events_of<R: Files + AllocGlobal>(rt: &R, scenario: &str) -> io::Result<Listed<Event>> {
    let text = fs::read_to_string(rt, scenario)?;
    assemble(rt.alloc(), text.as_str()).map_err(|_| failed())
}

// The server of a node file.
fn server_at<R: Files + AllocGlobal>(rt: &R, nodes: &str) -> io::Result<Server> {
    let text = fs::read_to_string(rt, nodes)?;
    server_of(rt.alloc(), text.as_str())
}

/// Writes whether a server, once out of memory, is halted for good.
pub(super) fn write_steps<R: Files + AllocGlobal>(rt: &R, output: &mut Vec<u8>) -> io::Result<()> {
    let events = events_of(rt, "keep_alives.scenario")?;
    let mut server = server_at(rt, "sample.toml")?;
    let so = are_answered(&mut server, events.as_slice());
    write!(
        output,
        "each event is answered, or Memory at one and Halted from then on: {so}\n"
    )
}

//! A connection over a pipe. Its answers to whole conversations are those of `run`, in `worked_examples`.

use crate::bytes_due::{ACKNOWLEDGE, HELLO};
use crate::holding::holds;
use commands::{ExitStatus, Machine};
use server_core::StepFault;
use std::alloc::Global;
use std::fs;
use std::net::Net;
use std::random::RandomSource;
use std::rt::Files;
use std::sync::Wait;
use std::test::*;
use std::time::Clock;
use store_restoring::NoStores;
use stream_taps::Tap;

// Whether these words are done, and answer this input so.
fn answers<R: Files + AllocGlobal + Net + RandomSource + Clock + Wait>(
    rt: &R,
    words: &[&str],
    input: &[u8],
    due: &[u8],
) -> bool {
    let mut input = Tap::new(input);
    let mut output = Tap::new(Vec::new(rt.alloc()));
    let mut errors = Vec::new(rt.alloc());
    let machine = Machine {
        rt,
        stores: &NoStores,
    };
    let ended = commands::run(machine, words, &mut input, &mut output, &mut errors);
    matches!(ended.status, ExitStatus::Done)
        && errors.is_empty()
        && output.into_inner().as_slice() == due
}

const LIMITS: &str = "version = 1
[server]
max_message = 2048
max_chunks = 7
";

#[test]
fn hello_over_a_pipe(rt: HostRuntime) -> Result<(), Fail> {
    holds(&rt, "standard", answers(&rt, &["pipe"], HELLO, ACKNOWLEDGE));
    let refused = b"ERRF\x10\0\0\0\0\0\x7e\x80\xff\xff\xff\xff";
    holds(
        &rt,
        "refused",
        answers(&rt, &["pipe"], b"MSGF\x08\0\0\0HELF", refused),
    );
    fs::write(&rt, "limits.toml", LIMITS)?;
    // Messages of 2048 bytes, in 7 chunks.
    let due = b"ACKF\x1c\0\0\0\0\0\0\0\0\0\x01\0\0\0\x01\0\0\x08\0\0\x07\0\0\0";
    holds(
        &rt,
        "limits",
        answers(&rt, &["pipe", "limits.toml"], HELLO, due),
    );
    Ok(())
}

// Whether this is told of a fault.
fn is_told(alloc: Global, fault: StepFault, due: &[u8]) -> bool {
    let mut errors = Vec::new(alloc);
    let status = commands::step_fault(fault, &mut errors);
    matches!(status, ExitStatus::Halted) && errors.as_slice() == due
}

// No client and no scenario brings about those but `Memory`.
#[test]
fn faults_of_steps(rt: HostRuntime) {
    let alloc = rt.alloc();
    for (fault, due) in [
        (StepFault::Memory, "memory\n"),
        (StepFault::Halted, "halted\n"),
        (StepFault::Exhausted, "halted\n"),
        (StepFault::KnownConnection, "halted\n"),
        (StepFault::UnknownConnection, "halted\n"),
    ] {
        holds(&rt, due, is_told(alloc, fault, due.as_bytes()));
    }
}

#[test]
fn exit_statuses(rt: HostRuntime) {
    // Those that no example shows.
    holds(&rt, "halted", ExitStatus::Halted.code() == 5);
    holds(&rt, "network", ExitStatus::Network.code() == 6);
    holds(&rt, "stream", ExitStatus::Stream.code() == 7);
}

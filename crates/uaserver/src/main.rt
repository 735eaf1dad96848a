//! The program `uaserver`: an OPC UA server.
//!
//! `uaserver pipe` serves one connection over standard input and output, `uaserver serve` any number over
//! sockets, and `uaserver check` counts what a node file holds. `uaserver asm` prints the events of a
//! scenario, `uaserver run` what is sent when they happen to a server, and `uaserver trace` which rows of the
//! subscriptions' state table fire then. What a run does stands in [`commands::run_args`], over words, files,
//! stores and streams; `main` hands it the machine with what opens a store, the words of the command line and the three
//! standard streams, and ends with its status.
#![tactic(auto)]

mod store_files;

use crate::store_files::StoreFiles;
use commands::Machine;
use std::alloc::AllocError;
use std::env;
use std::io::ErrorKind;
use std::process::ExitCode;
use stream_taps::Tap;

// The program's name and the words behind it. Where one isn't UTF-8 a word that names no command stands in their place.
fn words(rt: &HostRuntime) -> Result<Vec<String>, AllocError> {
    let alloc = rt.alloc();
    match env::args(rt) {
        Ok(args) => args.collect(alloc),
        Err(error) if error.kind() == ErrorKind::OutOfMemory => Err(AllocError),
        Err(_) => {
            let (name, word) = ("uaserver", "\u{fffd}");
            Ok(vec![in alloc;
                String::from_str(alloc, name)?,
                String::from_str(alloc, word)?,
            ]?)
        }
    }
}

fn main(rt: HostRuntime) -> ExitCode {
    let stores = StoreFiles::new(&rt);
    let mut input = Tap::new(rt.stdin());
    let mut output = Tap::new(rt.stdout());
    let mut errors = rt.stderr();
    let Ok(words) = words(&rt) else {
        return ExitCode::from(commands::no_memory(&mut errors).code());
    };
    let machine = Machine {
        rt: &rt,
        stores: &stores,
    };
    let ended = commands::run_args(
        machine,
        words.as_slice(),
        &mut input,
        &mut output,
        &mut errors,
    );
    ExitCode::from(ended.status.code())
}

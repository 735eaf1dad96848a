//! Lines `benchmark NAME ROUNDS`: how long parts of the server take.

mod browse;
mod connections;
mod encoding;
mod history;
mod publish;
mod requests;
mod space;
mod variables;

pub(crate) use requests::{failed, plant, server_of};
use std::io::{self, ErrorKind};
use std::time::Instant;

// The nanoseconds since a moment, and the greatest number where there is no clock.
fn elapsed(rt: &HostRuntime, start: io::Result<Instant>) -> u128 {
    match start {
        Ok(start) => start.elapsed(rt).map_or(u128::MAX, |time| time.as_nanos()),
        Err(_) => u128::MAX,
    }
}

/// The benchmark of this name, each of its requests so many times:
///
/// - `encoding`: lists of 1,000 elements are written and read; the time of an element in the fastest round;
/// - `requests`: requests are handed to a whole server; how many are answered in a second;
/// - `variables`: 996 variables are read at once, in the order of their ids and out of it; how many Reads are answered in a second;
/// - `browse`: Browse of a node of 3 references, and, once, of one of 99,000 by pages of 1,000;
/// - `history`: a variable is written 100,000 times, whose history is kept, and the history is read by pages of 1,000, once;
/// - `publish`: a subscription tells of 1,000 items in one message, which is then asked for again; the time of each;
/// - `space`: an address space of so many tenths of the largest is built and asked, once;
/// - `connections`: clients come, are served and go, beside so many that stay; the time of one.
///
/// The counts go to standard output, and are the same each time; the times go to standard error.
pub(crate) fn run(rt: &HostRuntime, name: &str, rounds: u32) -> io::Result<()> {
    match name {
        "encoding" => encoding::run(rt, rounds),
        "requests" => requests::run(rt, rounds),
        "variables" => variables::run(rt, rounds),
        "browse" => browse::run(rt, rounds),
        "history" => history::run(rt),
        "publish" => publish::run(rt, rounds),
        "space" => space::run(rt, rounds),
        "connections" => connections::run(rt, rounds),
        _ => Err(io::Error::from(ErrorKind::InvalidInput)),
    }
}

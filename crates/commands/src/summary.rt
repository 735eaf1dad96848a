//! How much is served, told once a minute.

use crate::frames::Counts;
use crate::process::Process;
use server_core::{Out, Server};
use socket_server::Serve;
use std::alloc::Global;
use std::io::Write;
use ua_types::Moment;

// The 100 ns units of a second, and those of a minute.
const SECOND: u128 = 10_000_000;

const MINUTE: i128 = 600_000_000;

/// What was counted since the last line.
#[derive(Drop)]
pub(crate) struct Summary {
    counts: Counts,
    // The moment of the last line, or of the first turn. None before that.
    since: Option<Moment>,
}

// How many a second, to the nearest.
fn rate(count: u64, units: i128) -> u128 {
    if units <= 0 {
        return 0;
    }
    let units = units as u128;
    (count as u128 * SECOND + units / 2) / units
}

impl Summary {
    /// Nothing was counted.
    pub(crate) fn new() -> Summary {
        Summary {
            counts: Counts::NONE,
            since: None,
        }
    }

    pub(crate) fn count(&mut self, outs: &[Out]) {
        self.counts.count(outs);
    }

    // How long nothing was told, in units of 100 ns, where a minute is over. A clock that was set back begins anew.
    fn minute_until(&mut self, now: Moment) -> Option<i128> {
        let Some(since) = self.since else {
            self.since = Some(now);
            return None;
        };
        let units = now.0 as i128 - since.0 as i128;
        if units < 0 {
            self.since = Some(now);
        }
        if units < MINUTE {
            return None;
        }
        self.since = Some(now);
        Some(units)
    }

    /// Tells how much there is, and how much was served, where a minute is over.
    pub(crate) fn tell<E: Write + Process>(
        &mut self,
        alloc: Global,
        serve: &Serve,
        server: &Server,
        errors: &mut E,
    ) {
        let Some(units) = self.minute_until(serve.moment()) else {
            return;
        };
        let requests = rate(self.counts.requests, units);
        let values = rate(self.counts.values, units);
        self.counts = Counts::NONE;
        let connections = serve.len();
        let owed = serve.owed(alloc).unwrap_or(0);
        let Some(population) = server.population() else {
            return;
        };
        let sessions = population.sessions;
        let subscriptions = population.subscriptions;
        let items = population.items;
        let _ = write!(
            errors,
            "{connections} connections, {sessions} sessions, {subscriptions} subscriptions, {items} items; {requests} requests and {values} values a second; {owed} bytes owed"
        );
        if let Some(bytes) = errors.resident() {
            let megabytes = bytes / 1_000_000;
            let _ = write!(errors, "; {megabytes} MB");
        }
        let _ = writeln!(errors);
    }
}

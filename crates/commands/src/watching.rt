//! What is told while the program serves: the connections and how much is served on standard error, and with a trace the rows of
//! the subscriptions' state table that fire on standard output.

ghost use Rattle.std.specs.Prelude.{ℕ, []};
ghost use Rattle.scenario_run.specs.TraceText.{rows_text};
ghost use Rattle.scenario_run.specs.Held.{place};
ghost use Rattle.socket_server.specs.Output.{PutsOrFails, no_output};
ghost use Rattle.commands.specs.Serving.{output_at};

use crate::ends::{tell_end, tell_status};
use crate::frames::{Refusal, refusal_among};
use crate::process::Process;
use crate::summary::Summary;
use collections::Numbered;
use scenario_run::{PrintFault, put_rows};
use server_core::{Fired, Out, Server};
use socket_server::{End, Observer, Serve, ServeFault};
use std::alloc::Global;
use std::io::Write;
use std::net::SocketAddr;
use stream_taps::Tap;

/// What is known of connections, and what is told of them.
#[derive(Drop)]
pub struct Visits {
    // Of the connections that are open.
    addresses: Numbered<SocketAddr>,
    // Nothing is told of who comes and goes.
    is_quiet: bool,
    summary: Option<Summary>,
}

impl Visits {
    /// Nobody came yet. `is_quiet`: nothing is told of who comes and goes; `sums_up`: how much is served is told once a minute.
    pub fn new(alloc: Global, is_quiet: bool, sums_up: bool) -> Visits {
        let summary = if sums_up { Some(Summary::new()) } else { None };
        Visits {
            addresses: Numbered::new(alloc),
            is_quiet,
            summary,
        }
    }

    // Where there is no memory for the address, the end of the connection won't be told.
    fn connected<E: Write>(&mut self, errors: &mut E, number: u64, address: SocketAddr) {
        if !self.is_quiet {
            let _ = writeln!(errors, "connection {number} from {address}");
            let _ = self.addresses.insert(number, address);
        }
    }

    fn refused<E: Write>(&self, errors: &mut E, number: u64, address: SocketAddr) {
        if !self.is_quiet {
            let _ = writeln!(
                errors,
                "connection {number} from {address} refused: as many as may be are open"
            );
        }
    }

    fn crowded<E: Write>(&self, errors: &mut E, address: SocketAddr) {
        if !self.is_quiet {
            let _ = writeln!(
                errors,
                "a connection from {address} turned away: as many as may be of its address are open"
            );
        }
    }

    // Tells the first refusal of a session among them.
    fn sent<E: Write>(&mut self, errors: &mut E, outs: &[Out]) {
        if let Some(Refusal { number, status }) = refusal_among(outs)
            && let Some(address) = self.addresses.get(number)
        {
            let _ = write!(
                errors,
                "connection {number} from {address} is refused a session: "
            );
            tell_status(errors, status);
        }
        if let Some(summary) = &mut self.summary {
            summary.count(outs);
        }
    }

    fn turned<E: Write + Process>(
        &mut self,
        errors: &mut E,
        alloc: Global,
        serve: &Serve,
        server: &Server,
    ) {
        if let Some(summary) = &mut self.summary {
            summary.tell(alloc, serve, server, errors);
        }
    }

    fn closed<E: Write>(&mut self, errors: &mut E, number: u64, end: End) {
        if let Some(address) = self.addresses.remove(number) {
            let _ = write!(errors, "connection {number} from {address} ");
            tell_end(errors, end);
        }
    }
}

/// Tells on standard error which connections come and go, and how much is served. All of it is lent.
#[derive(Drop)]
pub struct Visitors<'a, 'b, E> {
    pub errors: &'a mut E,
    pub visits: &'b mut Visits,
}

impl<E: Write + Process> Observer for Visitors<'_, '_, E> {
    ghost output = { λ _. no_output };

    ghost text = { λ _ _. [] };

    fn saw(&mut self, _event: u64, _rows: &[Fired]) -> Result<(), ServeFault> {
        Ok(())
    }

    fn connected(&mut self, number: u64, address: SocketAddr) {
        self.visits.connected(self.errors, number, address);
    }

    fn refused(&mut self, number: u64, address: SocketAddr) {
        self.visits.refused(self.errors, number, address);
    }

    fn crowded(&mut self, address: SocketAddr) {
        self.visits.crowded(self.errors, address);
    }

    fn sent(&mut self, outs: &[Out]) {
        self.visits.sent(self.errors, outs);
    }

    fn turned(&mut self, alloc: Global, serve: &Serve, server: &Server) {
        self.visits.turned(self.errors, alloc, serve, server);
    }

    fn closed(&mut self, number: u64, end: End) {
        self.visits.closed(self.errors, number, end);
    }
}

// Puts the lines of the rows that fired at an event, and flushes them. The text is room for them.
fn put_out<O: Write>(
    text: &mut String,
    event: u64,
    rows: &[Fired],
    output: &mut Tap<O>,
) -> Result<(), ServeFault>
    ensures { (writer : ℕ) → PutsOrFails (rows_text event rows.now) (output_at writer (place O.contents output.old))
        (output_at writer (place O.contents output.new)) result }
{
    match put_rows(text, event, rows, output) {
        Ok(()) => Ok(()),
        Err(PrintFault::Memory) => Err(ServeFault::Memory),
        Err(PrintFault::Write) => Err(ServeFault::Trace),
    }
}

/// Tells on standard error what [`Visitors`] tells, and on standard output which rows fire: a line for each, in the form of a trace.
/// All of it is lent.
#[derive(Drop)]
pub struct Tracing<'a, 'b, 'c, 'd, O, E> {
    pub output: &'a mut Tap<O>,
    pub errors: &'b mut E,
    pub visits: &'c mut Visits,
    /// Room for the lines of an event.
    pub text: &'d mut String,
}

impl<O: Write, E: Write + Process> Observer for Tracing<'_, '_, '_, '_, O, E> {
    ghost output = { λ t. output_at t.output.ghost_name (place O.contents t.output.now) };

    ghost text = { rows_text };

    fn saw(&mut self, event: u64, rows: &[Fired]) -> Result<(), ServeFault> {
        if rows.is_empty() {
            return Ok(());
        }
        put_out(self.text, event, rows, self.output)
    }

    fn connected(&mut self, number: u64, address: SocketAddr) {
        self.visits.connected(self.errors, number, address);
    }

    fn refused(&mut self, number: u64, address: SocketAddr) {
        self.visits.refused(self.errors, number, address);
    }

    fn crowded(&mut self, address: SocketAddr) {
        self.visits.crowded(self.errors, address);
    }

    fn sent(&mut self, outs: &[Out]) {
        self.visits.sent(self.errors, outs);
    }

    fn turned(&mut self, alloc: Global, serve: &Serve, server: &Server) {
        self.visits.turned(self.errors, alloc, serve, server);
    }

    fn closed(&mut self, number: u64, end: End) {
        self.visits.closed(self.errors, number, end);
    }
}

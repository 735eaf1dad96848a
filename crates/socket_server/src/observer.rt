//! Who is told what happens while the server serves.

ghost use Rattle.std.specs.Prelude.{◌≡◌, ℕ, List, []};
ghost use Rattle.server_messages.specs.declared.fired.Fired.{Fired};
ghost use Rattle.socket_server.specs.Output.{Output, PutsOrFails, no_output};

use crate::serve::Serve;
use crate::serve_fault::ServeFault;
use server_core::{Fired, Out, Server};
use socket_peers::End;
use std::alloc::Global;
use std::net::SocketAddr;

/// Who is told what happens while the server serves: what is sent and which rows of the subscriptions' state table fire at each
/// event, which connections come and go, and when a turn is over.
///
/// Contracts see what is put out of the rows. Nothing is promised of what is done about the rest.
pub trait Observer {
    /// Where it puts its text.
    ghost output: { Self → Output };

    /// What it puts out at the event of a number, at which these rows fired.
    ghost text: { ℕ → List Fired → List ℕ };

    /// The server has answered the event of this number, and these rows fired at it. The first event has
    /// the number 1. Serving ends with an `Err`, which is `Trace` or `Memory`.
    fn saw(&mut self, event: u64, rows: &[Fired]) -> Result<(), ServeFault>
        ensures { PutsOrFails (text event rows.now) (output self.old) (output self.new) result };

    /// The connection of this number is open, to a peer at this address.
    fn connected(&mut self, number: u64, address: SocketAddr)
        ensures { output self.new ≡ output self.old };

    /// The connection of this number is turned away, since as many as may be are open. It isn't told to be
    /// closed.
    fn refused(&mut self, number: u64, address: SocketAddr)
        ensures { output self.new ≡ output self.old };

    /// A further socket of this address was closed at once, since as many of its IP address as may be are there. The server is told
    /// nothing of it, and it has no number.
    fn crowded(&mut self, address: SocketAddr)
        ensures { output self.new ≡ output self.old };

    /// The server has answered an event by these frames and closings, which no socket has yet. The rows that fired at it come next.
    fn sent(&mut self, outs: &[Out])
        ensures { output self.new ≡ output self.old };

    /// A turn is over.
    fn turned(&mut self, alloc: Global, serve: &Serve, server: &Server)
        ensures { output self.new ≡ output self.old };

    /// The connection of this number is over, and this is how it ended.
    fn closed(&mut self, number: u64, end: End)
        ensures { output self.new ≡ output self.old };
}

/// Nobody: nothing is told.
#[derive(Clone, Copy, Debug)]
pub struct Unobserved;

impl Observer for Unobserved {
    ghost output = { λ _. no_output };

    ghost text = { λ _ _. [] };

    fn saw(&mut self, _event: u64, _rows: &[Fired]) -> Result<(), ServeFault> {
        Ok(())
    }

    fn connected(&mut self, _number: u64, _address: SocketAddr) {}

    fn refused(&mut self, _number: u64, _address: SocketAddr) {}

    fn crowded(&mut self, _address: SocketAddr) {}

    fn sent(&mut self, _outs: &[Out]) {}

    fn turned(&mut self, _alloc: Global, _serve: &Serve, _server: &Server) {}

    fn closed(&mut self, _number: u64, _end: End) {}
}

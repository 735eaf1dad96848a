//! A server, and who keeps what it stores.

ghost use Rattle.std.specs.Prelude.{◌≡◌};
ghost use Rattle.server_core.specs.World.{world_of};
ghost use Rattle.socket_server.specs.Keeping.{keeping, keeping_all, Steps, SettlesOr};

use crate::serve_fault::ServeFault;
use collections::ShortList;
use server_core::{Event, Fired, Out, Server};
use server_messages::{Keeper, Stored};
use std::alloc::Global;
use ua_types::Listed;

/// A server, who keeps what it stores, and what waits to be kept: what the server stored since that was done last.
///
/// What the server sends may go out only while nothing waits. Contracts see `keeping` it: what the server knows, what waits and what
/// is kept.
#[derive(Drop)]
pub struct KeptServer<K> {
    server: Server,
    keeper: K,
    // In the order in which it was stored.
    waiting: Vec<Stored>,
}

/// What a server answers to an event, but for what it stored.
#[derive(Debug, Drop)]
pub(crate) struct Answer {
    /// What is to be done, in order.
    pub(crate) outs: ShortList<Out>,
    /// The rows of the subscriptions' state table that fired, in order.
    pub(crate) rows: Listed<Fired>,
}

impl<K: Keeper> KeptServer<K> {
    /// This server, and who keeps what it stores from now on. Takes no memory.
    pub fn new(server: Server, keeper: K) -> KeptServer<K>
        ensures { keeping K.kept result ≡ keeping_all (world_of server) (K.kept keeper) }
    {
        let waiting = Vec::new(server.allocator());
        KeptServer {
            server,
            keeper,
            waiting,
        }
    }

    /// From where all that is served takes memory.
    pub fn allocator(&self) -> Global {
        self.server.allocator()
    }

    /// The server itself.
    pub fn server(&self) -> &Server
        ensures { result.now ≡ self.now.server }
    {
        &self.server
    }

    /// Has the server answer an event. What it stores at it waits to be kept from then on. At `Memory` it may be lost.
    pub(crate) fn step(&mut self, event: &Event) -> Result<Answer, ServeFault>
        ensures { Steps event.now (keeping K.kept self.old) (keeping K.kept self.new) result }
    {
        let step = match self.server.step(event) {
            Ok(step) => step,
            Err(fault) => return Err(ServeFault::Step(fault)),
        };
        let mut stored = step.stored.into_vec();
        match self.waiting.append(&mut stored) {
            Ok(()) => Ok(Answer {
                outs: step.outs,
                rows: step.rows,
            }),
            Err(_) => Err(ServeFault::Memory),
        }
    }

    /// Has all that waits be kept, by one call of who keeps it, and of nobody where nothing waits. Nothing waits then. At an `Err`
    /// it waits still.
    pub(crate) fn settle(&mut self) -> Result<(), ServeFault>
        ensures { SettlesOr (keeping K.kept self.old) (keeping K.kept self.new) result }
    {
        if self.waiting.is_empty() {
            return Ok(());
        }
        match self.keeper.keep(self.waiting.as_slice()) {
            Ok(()) => {
                self.waiting.clear();
                Ok(())
            }
            Err(fault) => Err(ServeFault::Store(fault)),
        }
    }
}

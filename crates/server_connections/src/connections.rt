//! Who is connected.

ghost use Rattle.std.specs.Prelude.{◌≡◌, ◌++◌, ℕ, [], false, IfOk, OnOk, IsOk};
ghost use Rattle.std.specs.FinMap.{get};
ghost use Rattle.server_connections.specs.Coherent.{is_open as is_open_spec, AreAllClosed};
ghost use Rattle.server_connections.specs.Connecting.{no_connections, is_known as is_known_spec, is_new as is_new_spec, welcomed, refusing, turned_away, gone, taking, taking_after, taking_of, break_of};
ghost use Rattle.server_connections.specs.Connecting as connecting;
ghost use Rattle.server_connections.specs.Delivering.{sending, sending_after, delivered, delivery_of};
ghost use Rattle.server_connections.specs.Shutting.{shut_one, shut, ended, refusing_after};

use crate::connection::{Connection, Phase};
use crate::frame_outcome::FrameOutcome;
use crate::reactions::{Answering, Received, break_off, frame_reaction, put_refusal};
use crate::sending::say;
use crate::shutting::close_open;
use collections::{Numbered, ShortList};
use server_messages::{Out, Reply, Setting};
use std::alloc::{AllocError, Global};
use std::marker::Model;
use ua_transport::{Frame, FrameFault};
use ua_types::Status;

/// Who is connected, and what was agreed with each.
///
/// Give each frame to [`Connections::take`], have the request served that it asks for, and send the
/// replies by [`Connections::deliver`]. At an `Err`, which is want of memory, nothing is known of
/// what is left.
#[derive(Debug, Drop)]
pub struct Connections {
    // The connections that aren't gone.
    known: Numbered<Connection>,
    // The greatest number of a connection that was opened so far.
    greatest: Option<u64>,
    // The number of the secure channel that was opened last, 0 before the first.
    channels: u32,
    alloc: Global,
}

impl Model for Connections {
    ghost use Rattle.server_connections.specs.contracts.connection.Connection as connection_row;
    ghost use Rattle.server_connections.specs.Connecting as connecting;

    ghost Value = { connecting.Connections };

    ghost coded = { connecting.connections_code connection_row.the_row.coded };

    ghost view = { λ c. record { known = c.known; greatest = c.greatest; channels = c.channels } };
}

impl Connections {
    /// No connection was opened yet.
    pub fn new(alloc: Global) -> Connections
        ensures { result ≡ no_connections }
    {
        Connections {
            known: Numbered::new(alloc),
            greatest: None,
            channels: 0,
            alloc,
        }
    }

    /// Whether the connection was opened and isn't gone.
    pub fn is_known(&self, conn: u64) -> bool
        ensures { result ≡ is_known_spec self.now conn }
    {
        self.known.contains(conn)
    }

    /// Whether the number is above those of all connections before.
    pub fn is_new(&self, conn: u64) -> bool
        ensures { result ≡ is_new_spec self.now conn }
    {
        match self.greatest {
            Some(greatest) => greatest < conn,
            None => true,
        }
    }

    fn know(&mut self, conn: u64, key: &[u8; 32], phase: Phase) -> Result<(), AllocError>
        ensures { OnOk result (self.new ≡ connecting.known_as self.old conn key.now phase) }
    {
        self.greatest = Some(conn);
        self.known.insert(conn, Connection { key: *key, phase })
    }

    /// Knows a connection whose first frame is awaited.
    pub fn await_first_frame(&mut self, conn: u64, key: &[u8; 32]) -> Result<(), AllocError>
        ensures { OnOk result (self.new ≡ welcomed self.old conn key.now) }
    {
        self.know(conn, key, Phase::Greeting)
    }

    /// Knows a connection that is closed at once, and tells it why.
    pub fn turn_away(
        &mut self,
        conn: u64,
        key: &[u8; 32],
        status: Status,
        outs: &mut ShortList<Out>,
    ) -> Result<(), AllocError>
        ensures connections { OnOk result (self.new ≡ (turned_away self.old conn key.now status).connections) }
        ensures outs { OnOk result (outs.new ≡ outs.old ++ (turned_away self.old conn key.now status).outs) }
    {
        put_refusal(self.alloc, conn, status, outs)?;
        self.know(conn, key, Phase::Closed)
    }

    // Closes a connection that is open, as the server shuts down.
    #[tactic(auto, unfolding(crate::specs::Shutting::shut_one))]
    fn shut_one(&mut self, conn: u64, outs: &mut ShortList<Out>) -> Result<(), AllocError>
        ensures { OnOk result (refusing self.new outs.new ≡ refusing_after outs.old (shut_one self.old conn)) }
    {
        let Some(connection) = self.known.get_mut(conn) else {
            return Ok(());
        };
        close_open(self.alloc, conn, &mut connection.phase, outs)
    }

    // Whether the connection is open: known, and not closed.
    fn is_open(&self, conn: u64) -> bool
        ensures { result ≡ is_open_spec self.now conn }
    {
        match self.known.get(conn) {
            Some(connection) => !matches!(connection.phase, Phase::Closed),
            None => false,
        }
    }

    // Whether a connection is open. Takes no memory.
    fn has_open(&self) -> bool
        ensures open { AreAllClosed self.now → result ≡ false }
        ensures none { result ≡ false → AreAllClosed self.now }
    {
        let mut last = None;
        while let Some(conn) = self.known.number_above(last) {
            if self.is_open(conn) {
                return true;
            }
            last = Some(conn);
        }
        false
    }

    /// Closes all connections that are open, by rising number, as the server shuts down: each is told
    /// `BAD_SHUTDOWN`. They stay known until they are gone. Takes no memory where none is open, also if closed ones aren't gone yet.
    pub fn shut(&mut self, outs: &mut ShortList<Out>) -> Result<(), AllocError>
        ensures shut { OnOk result (refusing self.new outs.new ≡ refusing_after outs.old (shut self.old)) }
        ensures ended { OnOk result ((conn : ℕ) → get self.new.known conn ≡ ended (get self.old.known conn)) }
        ensures none { AreAllClosed self.old → IsOk result }
    {
        if !self.has_open() {
            return Ok(());
        }
        for conn in self.known.numbers(self.alloc)? {
            self.shut_one(conn, outs)?;
        }
        Ok(())
    }

    /// Forgets a connection that is no more. Takes no memory.
    pub fn forget(&mut self, conn: u64)
        ensures { self.new ≡ gone self.old conn }
    {
        self.known.remove(conn);
    }

    /// Does what a frame asks for, up to a request, and says what is left to do.
    #[tactic(auto, unfolding(crate::specs::Connecting::taking_of))]
    pub fn take(
        &mut self,
        setting: &Setting,
        conn: u64,
        frame: &Frame,
        outs: &mut ShortList<Out>,
    ) -> Result<FrameOutcome, AllocError>
        ensures { IfOk result (λ asked. taking self.new outs.new asked
            ≡ taking_after outs.old (taking_of setting.now conn self.old frame.now)) }
    {
        let Some(connection) = self.known.get_mut(conn) else {
            return Ok(FrameOutcome::Closed);
        };
        let key = connection.key;
        frame_reaction(
            Answering {
                alloc: self.alloc,
                setting,
            },
            &mut self.channels,
            Received { conn, key, frame },
            &mut connection.phase,
            outs,
        )
    }

    /// Closes a connection on which comes what can be no frame.
    #[tactic(auto, unfolding(crate::specs::Connecting::break_of))]
    pub fn break_off(
        &mut self,
        conn: u64,
        fault: FrameFault,
        outs: &mut ShortList<Out>,
    ) -> Result<(), AllocError>
        ensures connections { OnOk result (self.new ≡ (break_of conn self.old fault).connections) }
        ensures outs { OnOk result (outs.new ≡ outs.old ++ (break_of conn self.old fault).outs) }
    {
        let Some(connection) = self.known.get_mut(conn) else {
            return Ok(());
        };
        break_off(self.alloc, conn, fault, &mut connection.phase, outs)?;
        Ok(())
    }

    // Sends one reply.
    #[tactic(auto, unfolding(crate::specs::Delivering::delivered))]
    fn deliver_one(
        &mut self,
        setting: &Setting,
        reply: Reply,
        outs: &mut ShortList<Out>,
    ) -> Result<(), AllocError>
        ensures { OnOk result (sending self.new outs.new
            ≡ sending_after outs.old (delivered setting.now self.old reply)) }
    {
        let Some(connection) = self.known.get_mut(reply.origin.conn) else {
            return Ok(());
        };
        let answering = Answering {
            alloc: self.alloc,
            setting,
        };
        say(answering, &mut connection.phase, reply, outs)
    }

    /// Sends replies, each on the connection that its request came by.
    pub fn deliver(
        &mut self,
        setting: &Setting,
        replies: ShortList<Reply>,
        outs: &mut ShortList<Out>,
    ) -> Result<(), AllocError>
        ensures sent { OnOk result (sending self.new outs.new
            ≡ sending_after outs.old (delivery_of setting.now self.old replies)) }
        ensures none { replies ≡ [] → IsOk result }
    {
        for reply in replies {
            self.deliver_one(setting, reply, outs)?;
        }
        Ok(())
    }
}

//! All that the server is, and what an event does to it.

ghost use Rattle.std.specs.Prelude.{◌≡◌, true, false, Some, None, Ok, Err, IsOk, IfOk, OnOk};
ghost use Rattle.std.specs.FinMap.{get};
ghost use Rattle.server_connections.specs.Connecting.{is_new, is_known};
ghost use Rattle.server_core.specs.Stepping.{fed, greeted, has_room as has_room_spec, refusal_of, opened, shut_down, step_of, StepsTo, left_by, IsUnspent, takes_no_memory};
ghost use Rattle.server_core.specs.declared.out.StepFault.TheVariants as step_fault;

use crate::event::Event;
use crate::out::{Step, StepFault};
use crate::parts::Core;
use bytes::Bytes;
use collections::Numbered;
use std::alloc::{AllocError, Global};
use ua_transport::Framer;
use ua_types::Status;

/// The framers of the open connections, and the rest. So nothing but a framer touches the bytes that
/// are held of a frame.
#[derive(Drop)]
pub struct World {
    /// The framer of each open connection. A closed one has none, so its bytes go nowhere.
    pub framers: Numbered<Framer>,
    /// Everything else.
    pub core: Core,
}

impl World {
    // Takes a piece of a connection's stream. One that is closed takes nothing, and no memory.
    #[tactic(auto, unfolding(crate::specs::Stepping::fed))]
    fn feed(&mut self, alloc: Global, conn: u64, piece: &Bytes) -> Result<Step, StepFault>
        ensures fed { StepsTo result (Some self.old) (left_by result self.new) (Ok (fed self.old conn piece.now)) × IfOk result (λ step. IsUnspent (Ok (fed self.old conn piece.now))) }
        ensures closed { get self.old.framers conn ≡ None → IsOk result }
    {
        let mut step = Step::new(alloc);
        let Some(framer) = self.framers.get_mut(conn) else {
            return Ok(step);
        };
        let fed = framer.feed(alloc, piece)?;
        let goes_on = self.core.finish(conn, &fed, &mut step)?;
        if goes_on {
            return Ok(step);
        }
        self.framers.remove(conn);
        Ok(step)
    }

    // Awaits the first frame of a new connection.
    fn await_first_frame(&mut self, conn: u64, key: &[u8; 32]) -> Result<(), AllocError>
        ensures { OnOk result (self.new ≡ greeted self.old conn key.now) }
    {
        self.core.connections.await_first_frame(conn, key)?;
        self.framers
            .insert(conn, Framer::new(self.core.setting.config.receive_size))
    }

    fn has_room(&self) -> bool
        ensures { result ≡ has_room_spec self.now }
    {
        self.framers.len() < self.core.setting.config.connections as usize
    }

    // Why a connection that is new may not go on, if it may not.
    fn refusal(&self) -> Option<Status>
        ensures { result ≡ refusal_of self.now }
    {
        if self.core.is_shut {
            return Some(Status::BAD_SHUTDOWN);
        }
        if self.has_room() {
            None
        } else {
            Some(Status::BAD_TCP_NOT_ENOUGH_RESOURCES)
        }
    }

    #[tactic(auto, using(crate::proofs::EffectLemmas::shown_doing, crate::proofs::EffectLemmas::doing_spends_none))]
    fn open(&mut self, alloc: Global, conn: u64, key: &[u8; 32]) -> Result<Step, StepFault>
        ensures opened { StepsTo result (Some self.old) (left_by result self.new) (opened self.old conn key.now) × IfOk result (λ step. IsUnspent (opened self.old conn key.now)) }
        ensures memory { result ≡ Err step_fault.Memory → is_new self.old.core.connections conn ≡ true }
    {
        if !self.core.connections.is_new(conn) {
            return Err(StepFault::KnownConnection);
        }
        let mut step = Step::new(alloc);
        match self.refusal() {
            None => self.await_first_frame(conn, key)?,
            Some(status) => {
                self.core
                    .connections
                    .turn_away(conn, key, status, &mut step.outs)?;
            }
        }
        Ok(step)
    }

    // Ends all that is open, unless that was done before.
    fn shut_down(&mut self, alloc: Global) -> Result<Step, StepFault>
        ensures shut { StepsTo result (Some self.old) (left_by result self.new) (Ok (shut_down self.old)) × IfOk result (λ step. IsUnspent (Ok (shut_down self.old))) }
        ensures again { self.old.core.is_shut ≡ true → IsOk result }
    {
        if self.core.is_shut {
            return Ok(Step::new(alloc));
        }
        let step = self.core.shut_down(alloc)?;
        self.framers = Numbered::new(alloc);
        Ok(step)
    }

    /// Does what an event asks for. The world is as it was at a fault that refuses the event.
    pub fn step(&mut self, alloc: Global, event: &Event) -> Result<Step, StepFault>
        ensures step { StepsTo result (Some self.old) (left_by result self.new) (step_of self.old event.now) }
        ensures counted { IfOk result (λ step. IsUnspent (step_of self.old event.now)) }
        ensures memory { result ≡ Err step_fault.Memory → takes_no_memory self.old event.now ≡ false }
    {
        match event {
            Event::Opened { conn, key } => self.open(alloc, *conn, key),
            Event::Bytes { conn, bytes } => {
                if !self.core.connections.is_known(*conn) {
                    return Err(StepFault::UnknownConnection);
                }
                self.feed(alloc, *conn, bytes)
            }
            Event::Gone { conn } => {
                if !self.core.connections.is_known(*conn) {
                    return Err(StepFault::UnknownConnection);
                }
                self.framers.remove(*conn);
                self.core.forget(*conn);
                Ok(Step::new(alloc))
            }
            Event::Tick { now } => {
                let clock = self.core.setting.clock.later(*now);
                Ok(self.core.tick(alloc, clock)?)
            }
            Event::Shutdown => self.shut_down(alloc),
        }
    }
}

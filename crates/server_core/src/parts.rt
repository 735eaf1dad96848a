//! All that the server is but the framers.

ghost use Rattle.std.specs.Prelude.{◌≡◌, true, false, OnOk, IsOk};
ghost use Rattle.ua_services.specs.Services.{is_idle};
ghost use Rattle.ua_transport.specs.Pieces.{all_handled, and_then, refused_if};
ghost use Rattle.server_core.specs.Handling.{setting_at, Handles, Shows, TicksTo, handled, broken, gone_from, ticked_core, shut_core, Ends};

use crate::out::Step;
use server_connections::{Connections, FrameOutcome};
use server_messages::{Halt, Served, Setting};
use std::alloc::{AllocError, Global};
use ua_services::Services;
use ua_transport::{Fed, Frame, FrameFault};
use ua_types::Moment;

/// All but the framers.
#[derive(Drop)]
pub struct Core {
    /// What every part may read.
    pub setting: Setting,
    /// Who is connected.
    pub connections: Connections,
    /// What is served.
    pub services: Services,
    /// Whether the server was shut down, for good.
    pub is_shut: bool,
}

impl Core {
    // Does what a frame asks for, and says whether the connection goes on.
    #[tactic(auto, using(crate::proofs::EffectLemmas::after_doing, crate::proofs::EffectLemmas::spent_answered, crate::proofs::EffectLemmas::doing_spends_none), unfolding(crate::specs::Handling::handled))]
    fn handle(&mut self, conn: u64, frame: &Frame, step: &mut Step) -> Result<bool, Halt>
        ensures { Handles result self.new step.old step.new (handled conn self.old frame.now) }
    {
        match self
            .connections
            .take(&self.setting, conn, frame, &mut step.outs)?
        {
            FrameOutcome::Nothing => Ok(true),
            FrameOutcome::Closed => {
                self.services.forget(conn);
                Ok(false)
            }
            FrameOutcome::Request(request) => {
                let served = self.services.serve(&self.setting, &request)?;
                let Served {
                    replies,
                    rows,
                    stored,
                } = served;
                self.connections
                    .deliver(&self.setting, replies, &mut step.outs)?;
                step.add(rows, stored)?;
                Ok(true)
            }
        }
    }

    // Closes a connection on which comes what can be no frame.
    #[tactic(auto, using(crate::proofs::EffectLemmas::after_doing, crate::proofs::EffectLemmas::doing_spends_none), unfolding(crate::specs::Handling::broken))]
    fn break_off(&mut self, conn: u64, fault: FrameFault, step: &mut Step) -> Result<(), AllocError>
        ensures { OnOk result (Shows self.new step.old step.new false (broken conn self.old fault)) }
    {
        self.connections.break_off(conn, fault, &mut step.outs)?;
        self.services.forget(conn);
        Ok(())
    }

    // Handles frames up to one that closes the connection, and says whether it goes on.
    fn handle_all(&mut self, conn: u64, frames: &[Frame], step: &mut Step) -> Result<bool, Halt>
        ensures { Handles result self.new step.old step.new (all_handled (handled conn) self.old frames.now) }
    {
        for frame in frames {
            match self.handle(conn, frame, step) {
                Ok(true) => {}
                Ok(false) => return Ok(false),
                Err(halt) => return Err(halt),
            }
        }
        Ok(true)
    }

    /// Handles what a piece brought, and says whether the connection goes on.
    pub fn finish(&mut self, conn: u64, fed: &Fed, step: &mut Step) -> Result<bool, Halt>
        ensures { Handles result self.new step.old step.new
            (and_then (all_handled (handled conn) self.old fed.now.frames) (refused_if (broken conn) fed.now.fault)) }
    {
        if !self.handle_all(conn, fed.frames.as_slice(), step)? {
            return Ok(false);
        }
        let Some(fault) = fed.fault else {
            return Ok(true);
        };
        self.break_off(conn, fault, step)?;
        Ok(false)
    }

    /// Forgets a connection that is no more. Takes no memory.
    pub fn forget(&mut self, conn: u64)
        ensures { self.new ≡ gone_from self.old conn }
    {
        self.connections.forget(conn);
        self.services.forget(conn);
    }

    /// Does what is due as time has passed.
    #[tactic(auto, using(crate::proofs::EffectLemmas::shown_effects, crate::proofs::EffectLemmas::spent_effects, crate::proofs::EffectLemmas::effects_spend_none))]
    pub fn tick(&mut self, alloc: Global, clock: Moment) -> Result<Step, Halt>
        ensures ticks { TicksTo result self.new (ticked_core self.old clock) }
        ensures idle { is_idle (setting_at self.old clock) self.old.services ≡ true → IsOk result }
    {
        self.setting.clock = clock;
        let served = self.services.tick(&self.setting)?;
        let mut step = Step::new(alloc);
        let Served {
            replies,
            rows,
            stored,
        } = served;
        self.connections
            .deliver(&self.setting, replies, &mut step.outs)?;
        step.rows = rows;
        step.stored = stored;
        Ok(step)
    }

    /// Ends all that is open: the subscriptions, the requests that wait, the sessions and the connections.
    #[tactic(auto, using(crate::proofs::EffectLemmas::shown_ending, crate::proofs::EffectLemmas::spent_before, crate::proofs::EffectLemmas::spent_effects, crate::proofs::EffectLemmas::ending_spends_none))]
    pub fn shut_down(&mut self, alloc: Global) -> Result<Step, Halt>
        ensures { Ends result self.new (shut_core self.old) }
    {
        self.is_shut = true;
        let served = self.services.shut_down(&self.setting)?;
        let mut step = Step::new(alloc);
        let Served {
            replies,
            rows,
            stored,
        } = served;
        self.connections
            .deliver(&self.setting, replies, &mut step.outs)?;
        self.connections.shut(&mut step.outs)?;
        step.rows = rows;
        step.stored = stored;
        Ok(step)
    }
}

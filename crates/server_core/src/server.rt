//! The server.

ghost use Rattle.std.specs.Prelude.{◌≡◌, option_map, Some, None, Err, false, IfOk, IsOk};
ghost use Rattle.ua_space.specs.Histories.{without_histories};
ghost use Rattle.server_core.specs.World.{opening, world_of};
ghost use Rattle.server_core.specs.Stepping.{step_on, StepsTo, IsUnspent, takes_no_memory_on};
ghost use Rattle.server_core.specs.Subscriptions.{vars_on, kept_numbers_on, kept_on, population_on};
ghost use Rattle.server_core.specs.Running.{Runs};
ghost use Rattle.server_core.specs.declared.out.StepFault.TheVariants as step_fault;

use crate::event::Event;
use crate::out::{Ran, Step, StepFault};
use crate::parts::Core;
use crate::population::Population;
use crate::world::World;
use collections::Numbered;
use server_connections::Connections;
use server_messages::Setting;
use std::alloc::{AllocError, Global};
use ua_services::Services;
use ua_space::Space;
use ua_state_table::Vars;
use ua_subscription_messages::SubscriptionId;
use ua_types::{Config, Listed};

/// An OPC UA server without a socket, a clock and a source of random numbers.
///
/// Tell it what happens, one [`Event`] after the other, and do what each [`Step`] says. Contracts see
/// `world_of` it: what the server knows, its world, or none once it is halted.
pub struct Server {
    // None for good once it is halted.
    world: Option<World>,
    alloc: Global,
}

// Written out, so that a proof sees a drop as one call and not as its cases.
impl Drop for Server {
    fn drop(self) {
        let Server { world: _, alloc: _ } = self;
    }
}

// Nothing is left of a server that is halted. It stands apart, so that a step that goes on makes no room for another world
// on the stack, which it would clear each time.
#[inline(never)]
fn let_go(world: &mut Option<World>)
    ensures { world.new ≡ None }
{
    *world = None;
}

impl Server {
    /// A server of this configuration and address space, whose clock shows the configured start. It
    /// knows no connection. Its histories begin with the values that the nodes had before, of each the last ones that the
    /// configuration lets be kept; where there are none, it takes no memory.
    pub fn new(alloc: Global, config: Config, space: Space) -> Result<Server, AllocError>
        ensures opening { IfOk result (λ server. world_of server ≡ Some (opening config space)) }
        ensures memory { without_histories space.nodes ≡ space.nodes → IsOk result }
    {
        let clock = config.start;
        let services = Services::new(alloc, &config, space)?;
        Ok(Server {
            world: Some(World {
                framers: Numbered::new(alloc),
                core: Core {
                    setting: Setting { config, clock },
                    connections: Connections::new(alloc),
                    services,
                    is_shut: false,
                },
            }),
            alloc,
        })
    }

    /// From where the server takes memory.
    pub fn allocator(&self) -> Global {
        self.alloc
    }

    /// Takes an event, and says what is to be done about it. `specs/Stepping` defines both the answer
    /// and the world after it.
    ///
    /// `KnownConnection` and `UnknownConnection` refuse the event, and nothing has changed. `Memory`
    /// comes only where an allocation failed, and never for an event that is refused, is of a
    /// connection that is closed, is `Gone`, is a `Tick` at which nothing is due, or is a second `Shutdown`. `Exhausted` comes
    /// only where the event passes the last serial of 64 bits, and no such event is answered. Both halt the server, which answers
    /// `Halted` from then on, and at no other time.
    pub fn step(&mut self, event: &Event) -> Result<Step, StepFault>
        ensures step { StepsTo result (world_of self.old) (world_of self.new) (step_on (world_of self.old) event.now) }
        ensures memory { result ≡ Err step_fault.Memory → takes_no_memory_on (world_of self.old) event.now ≡ false }
        ensures counted { IfOk result (λ step. IsUnspent (step_on (world_of self.old) event.now)) }
    {
        let Some(world) = &mut self.world else {
            return Err(StepFault::Halted);
        };
        let answer = world.step(self.alloc, event);
        if matches!(&answer, Err(StepFault::Memory | StepFault::Exhausted)) {
            let_go(&mut self.world);
        }
        answer
    }

    /// Takes events in order, up to the first that has no answer.
    ///
    /// Room for an answer is taken before its event is. Where that growth is refused, the fault is
    /// `Memory` too, and the server is halted.
    pub fn run(&mut self, events: &[Event]) -> Ran
        ensures { Runs result.fault result.steps (world_of self.old) events.now (world_of self.new) }
    {
        let mut steps = Listed::new(self.alloc);
        for event in events {
            if steps.reserve_one().is_err() {
                return self.halt(steps);
            }
            match self.step(event) {
                Ok(step) => {
                    if steps.push(step).is_err() {
                        return self.halt(steps);
                    }
                }
                Err(fault) => {
                    return Ran {
                        steps,
                        fault: Some(fault),
                    };
                }
            }
        }
        Ran { steps, fault: None }
    }

    /// The variables of the subscription with this number that the state table looks at ([`ua_state_table`]), or None where there
    /// is none, or the server is halted. Takes no memory.
    pub fn vars(&self, number: u32) -> Option<Vars>
        ensures { result ≡ vars_on (world_of self.now) number }
    {
        match &self.world {
            None => None,
            Some(world) => {
                let services = &world.core.services;
                services
                    .subscriptions
                    .vars(SubscriptionId(number), &services.items)
            }
        }
    }

    /// The numbers of the messages that a subscription keeps until they are acknowledged, in the order in which they were
    /// sent; none where there is no such subscription, or the server is halted.
    pub fn kept_numbers(&self, number: u32) -> Result<Vec<u32>, AllocError>
        ensures numbers { IfOk result (λ numbers. numbers.items ≡ kept_numbers_on (world_of self.now) number) }
        ensures halted { world_of self.now ≡ None → IsOk result }
    {
        match &self.world {
            None => Ok(Vec::new(self.alloc)),
            Some(world) => {
                let subscription = SubscriptionId(number);
                world
                    .core
                    .services
                    .subscriptions
                    .kept_numbers(self.alloc, subscription)
            }
        }
    }

    /// The message of a subscription with this number, as it was first sent, if it is kept. Takes no memory.
    pub fn kept(&self, number: u32, wanted: u32) -> Option<&[u8]>
        ensures { option_map (λ bytes. bytes.now) result ≡ kept_on (world_of self.now) number wanted }
    {
        match &self.world {
            None => None,
            Some(world) => {
                let subscription = SubscriptionId(number);
                world.core.services.subscriptions.kept(subscription, wanted)
            }
        }
    }

    /// How many sessions, subscriptions and items there are, or None where the server is halted. Takes no memory.
    pub fn population(&self) -> Option<Population>
        ensures { result ≡ population_on (world_of self.now) }
    {
        match &self.world {
            None => None,
            Some(world) => {
                let services = &world.core.services;
                Some(Population {
                    sessions: services.sessions.len(),
                    subscriptions: services.subscriptions.len(),
                    items: services.items.len(),
                })
            }
        }
    }

    // Breaks a run off for want of memory.
    fn halt(&mut self, steps: Listed<Step>) -> Ran
        ensures steps { result.steps ≡ steps }
        ensures fault { result.fault ≡ Some step_fault.Memory }
        ensures halted { world_of self.new ≡ None }
    {
        let_go(&mut self.world);
        Ran {
            steps,
            fault: Some(StepFault::Memory),
        }
    }
}

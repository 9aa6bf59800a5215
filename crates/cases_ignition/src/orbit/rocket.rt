//! A rocket in orbit.
use crate::orbit::actor::{OrbitActor, OrbitActs};
use crate::sentries::Tells;
use crate::site::{Site, Stopped};
use cases::{CaseError, parsed};
use rkt_base::{NoMemory, Seq};
use rkt_fairing::{Called, Fairings, Slot, ViewOf, down_room, liftoff, shut_down};
use rkt_request::{Config, Managed};
use rkt_router::{Dummy, Router};
use rkt_turn::{Shutdown, TripWire};
use std::alloc::Global;

/// What a rocket has in orbit.
#[derive(Drop)]
pub struct Orbit {
    router: Router<Dummy, u32, Tells>,
    fairings: Fairings<OrbitActor>,
    config: Config,
    managed: Managed<u32>,
    shutdown: Shutdown<Stopped>,
}

impl Orbit {
    /// One with nothing attached.
    fn new(alloc: Global, config: Config) -> Result<Orbit, NoMemory> {
        let (_wire, shutdown) = TripWire::new(alloc)?;
        Ok(Orbit {
            router: Router::new(alloc),
            fairings: Fairings::new(alloc),
            config,
            managed: Managed::new(alloc),
            shutdown,
        })
    }

    /// The same, with the configuration by default.
    pub fn with_default(alloc: Global) -> Result<Orbit, NoMemory> {
        Orbit::new(alloc, Config::default(alloc)?)
    }

    pub fn fairings(&self) -> &Fairings<OrbitActor> {
        &self.fairings
    }

    /// The word that the handle has seen.
    pub fn seen(&self) -> u64 {
        self.shutdown.seen()
    }

    pub fn attach(&mut self, slot: Slot<OrbitActor>) -> Result<(), NoMemory> {
        self.fairings.add(slot)
    }

    pub fn lift(&mut self, alloc: Global) -> Result<Seq<Called>, NoMemory> {
        let view = ViewOf {
            config: &self.config,
            managed: &self.managed,
            router: &self.router,
        };
        liftoff::<Site, OrbitActor, OrbitActs>(alloc, &mut self.fairings, &view, &mut self.shutdown)
    }

    pub fn shut(&self, alloc: Global) -> Result<Seq<Called>, NoMemory> {
        let view = ViewOf {
            config: &self.config,
            managed: &self.managed,
            router: &self.router,
        };
        let room = down_room(alloc, &self.fairings)?;
        Ok(shut_down::<Site, OrbitActor, OrbitActs>(alloc, &self.fairings, &view, room))
    }
}

fn read_config(alloc: Global, turns: &str) -> Result<Config, CaseError> {
    let mut config = Config::default(alloc)?;
    config.turns = parsed::<u32>(turns)?;
    Ok(config)
}

/// One with nothing attached, whose configuration grants so many turns.
pub fn read_orbit(alloc: Global, turns: &str) -> Result<Orbit, CaseError> {
    let config = read_config(alloc, turns)?;
    Ok(Orbit::new(alloc, config)?)
}

//! A fairing that does what a line says where it is called.
use crate::orbit::act::{Ending, OrbitAct, read_kind, read_orbit_act};
use crate::site::{Site, Stopped};
use cases::{CaseError, first_word};
use rkt_fairing::{Attach, Info, Kind, LiftoffCallback, ShutdownCallback, View};
use rkt_http::Key;
use rkt_router::Step;
use rkt_turn::Shutdown;
use std::alloc::Global;

/// A fairing, by its kind and what it does.
#[derive(Drop)]
pub struct OrbitActor {
    kind: Kind,
    act: OrbitAct,
    polled: u32,
}

impl OrbitActor {
    /// How often it was polled at liftoff.
    pub fn polled(&self) -> u32 {
        self.polled
    }
}

impl Attach for OrbitActor {
    ghost use Rattle.std.specs.Prelude.{codes};

    ghost key = { λ f. record { 0 = 1 } };

    ghost info = { λ f. record { name = codes "actor"; kind = f.kind } };

    fn key(&self) -> Key {
        Key(1)
    }

    fn info(&self) -> Info {
        Info {
            name: "actor",
            kind: self.kind,
        }
    }
}

/// The fairing that a line says.
pub fn read_orbit_actor(text: &str) -> Result<OrbitActor, CaseError> {
    let (kind, act) = first_word(text);
    Ok(OrbitActor {
        kind: read_kind(kind)?,
        act: read_orbit_act(act)?,
        polled: 0,
    })
}

/// Stands for how these fairings are called: as often Pending as the act says, and then done.
pub struct OrbitActs;

impl LiftoffCallback<Site, OrbitActor> for OrbitActs {
    ghost use Rattle.std.specs.Prelude.{◌≡◌, ◌^◌, ⊤};
    ghost use Rattle.rkt_turn.specs.HandsBack.{HandsBack};

    type Task = u32;

    ghost calling = { record {
      may = λ _ _ before _ _ after. HandsBack before.shutdown after.shutdown;
      begun = λ _ _ task before now _ n. (n ≡ task) × HandsBack before.shutdown now.shutdown;
      pendings = λ _ _ _. 2 ^ 32;
      may_fault = λ _ _ _. ⊤;
    } };

    fn start(_fairing: &OrbitActor, _view: &View<'_, Site>) -> u32 {
        0
    }

    fn poll(
        fairing: &mut OrbitActor,
        _alloc: Global,
        polled: &mut u32,
        _view: &View<'_, Site>,
        shutdown: &mut Shutdown<Stopped>,
    ) -> Step<()> {
        fairing.polled = fairing.polled.saturating_add(1);
        match fairing.act {
            OrbitAct::Pend(times) if *polled < times => {
                *polled += 1;
                Step::Pending
            }
            OrbitAct::Notify => {
                shutdown.notify(Stopped);
                Step::Done(())
            }
            act => match act.lifted(shutdown.seen()) {
                Ending::Done => Step::Done(()),
                Ending::Fault => Step::Fault,
                Ending::Starved => Step::Starved,
            },
        }
    }

    ghost keeps = { record { done = λ _ _ _ _ _ is. is; begun = λ _ _ _ _ _ _ is. is.1 } };
}

impl ShutdownCallback<Site, OrbitActor> for OrbitActs {
    ghost use Rattle.std.specs.Prelude.{◌≡◌, ◌^◌, ⊤};

    type Task = u32;

    ghost calling = { record {
      may = λ _ _ _ _ _ _. ⊤;
      begun = λ _ _ task _ _ _ n. n ≡ task;
      pendings = λ _ _ _. 2 ^ 32;
      may_fault = λ _ _ _. ⊤;
    } };

    fn start(_fairing: &OrbitActor, _view: &View<'_, Site>) -> u32 {
        0
    }

    fn poll(
        fairing: &OrbitActor,
        _alloc: Global,
        polled: &mut u32,
        _view: &View<'_, Site>,
    ) -> Step<()> {
        match fairing.act {
            OrbitAct::Pend(times) if *polled < times => {
                *polled += 1;
                Step::Pending
            }
            act => match act.shut() {
                Ending::Done => Step::Done(()),
                Ending::Fault => Step::Fault,
                Ending::Starved => Step::Starved,
            },
        }
    }
}

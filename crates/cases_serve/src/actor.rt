//! A fairing that does what a line says where it is called.
use crate::act::{Act, Attached, Ending};
use crate::app::{Site, Stopped};
use rkt_base::NoMemory;
use rkt_fairing::{
    Attach, Fairing, Fairings, Info, Kind, LiftoffCallback, Quiet, ShutdownCallback, Slot, View,
};
use rkt_http::Key;
use rkt_router::Step;
use rkt_shield::Shield;
use rkt_turn::Shutdown;
use std::alloc::Global;

/// A fairing, by its kind and what it does.
#[derive(Drop)]
pub struct Actor {
    kind: Kind,
    act: Act,
    polled: u32,
}

impl Attach for Actor {
    ghost use Rattle.std.specs.Prelude.{codes};

    ghost key = { λ f. record { 0 = 1 } };

    ghost info = { λ f. record { name = codes "actor"; kind = f.kind } };

    fn key(&self) -> Key {
        Key(1)
    }

    fn info(&self) -> Info {
        Info {
            name: "actor",
            kind: self.kind,
        }
    }
}

fn slot_of(alloc: Global, attached: Attached) -> Slot<Actor> {
    match attached {
        Attached::Actor(kind, act) => Slot::App(Actor {
            kind,
            act,
            polled: 0,
        }),
        Attached::Shield => Slot::Shield(Shield::new(alloc)),
    }
}

/// These, attached in this order.
pub fn fairings_of(alloc: Global, list: &[Attached]) -> Result<Fairings<Actor>, NoMemory> {
    let mut fairings = Fairings::new(alloc);
    for attached in list {
        fairings.add(slot_of(alloc, *attached))?;
    }
    Ok(fairings)
}

/// Stands for how these fairings are called: as often Pending as the act says, and then done.
pub struct Acts;

impl LiftoffCallback<Site, Actor> for Acts {
    ghost use Rattle.std.specs.Prelude.{◌≡◌, ◌^◌, ⊤};
    ghost use Rattle.rkt_turn.specs.HandsBack.{HandsBack};

    type Task = u32;

    ghost calling = { record {
      may = λ _ _ before _ _ after. HandsBack before.shutdown after.shutdown;
      begun = λ _ _ task before now _ n. (n ≡ task) × HandsBack before.shutdown now.shutdown;
      pendings = λ _ _ _. 2 ^ 32;
      may_fault = λ _ _ _. ⊤;
    } };

    fn start(_fairing: &Actor, _view: &View<'_, Site>) -> u32 {
        0
    }

    fn poll(
        fairing: &mut Actor,
        _alloc: Global,
        polled: &mut u32,
        _view: &View<'_, Site>,
        shutdown: &mut Shutdown<Stopped>,
    ) -> Step<()> {
        fairing.polled = fairing.polled.saturating_add(1);
        match fairing.act {
            Act::Pend(times) if *polled < times => {
                *polled += 1;
                Step::Pending
            }
            Act::Notify => {
                shutdown.notify(Stopped);
                Step::Done(())
            }
            act => match act.lifted(shutdown.seen(), fairing.polled) {
                Ending::Done => Step::Done(()),
                Ending::Fault => Step::Fault,
                Ending::Starved => Step::Starved,
            },
        }
    }

    ghost keeps = { record { done = λ _ _ _ _ _ is. is; begun = λ _ _ _ _ _ _ is. is.1 } };
}

impl ShutdownCallback<Site, Actor> for Acts {
    ghost use Rattle.std.specs.Prelude.{◌≡◌, ◌^◌, ⊤};

    type Task = u32;

    ghost calling = { record {
      may = λ _ _ _ _ _ _. ⊤;
      begun = λ _ _ task _ _ _ n. n ≡ task;
      pendings = λ _ _ _. 2 ^ 32;
      may_fault = λ _ _ _. ⊤;
    } };

    fn start(_fairing: &Actor, _view: &View<'_, Site>) -> u32 {
        0
    }

    fn poll(fairing: &Actor, _alloc: Global, polled: &mut u32, _view: &View<'_, Site>) -> Step<()> {
        match fairing.act {
            Act::Pend(times) if *polled < times => {
                *polled += 1;
                Step::Pending
            }
            act => match act.shut() {
                Ending::Done => Step::Done(()),
                Ending::Fault => Step::Fault,
                Ending::Starved => Step::Starved,
            },
        }
    }
}

impl Fairing<Site> for Actor {
    type Ignites = Quiet;

    type Lifts = Acts;

    type Requests = Quiet;

    type Responses = Quiet;

    type Shuts = Acts;
}

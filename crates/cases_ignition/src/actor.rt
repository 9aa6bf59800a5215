//! A fairing that does at ignition what a line says.
use crate::act::{Act, Ending, act_once, read_act};
use crate::site::Site;
use cases::{CaseError, first_word, parsed};
use rkt_fairing::{Attach, Building, IgniteCallback, Info, Kind};
use rkt_http::Key;
use rkt_router::Step;
use std::alloc::Global;

/// A fairing, by what it tells and what it does.
#[derive(Clone, Copy, Drop)]
pub struct Actor {
    name: &'static str,
    key: u32,
    singleton: bool,
    act: Act,
}

impl Actor {
    pub fn new(name: &'static str, key: u32, singleton: bool, act: Act) -> Actor {
        Actor {
            name,
            key,
            singleton,
            act,
        }
    }

    pub fn act(&self) -> Act {
        self.act
    }

    /// One like itself.
    pub fn again(&self) -> Actor {
        *self
    }
}

impl Attach for Actor {
    ghost use Rattle.std.specs.Prelude.{true, false};

    ghost key = { λ f. record { 0 = f.key } };

    ghost info = { λ f. record {
      name = f.name.now;
      kind = record {
        ignite = true;
        liftoff = false;
        request = false;
        response = false;
        shutdown = false;
        singleton = f.singleton;
      };
    } };

    fn key(&self) -> Key {
        Key(self.key)
    }

    fn info(&self) -> Info {
        Info {
            name: self.name,
            kind: Kind {
                ignite: true,
                liftoff: false,
                request: false,
                response: false,
                shutdown: false,
                singleton: self.singleton,
            },
        }
    }
}

/// The name that a line says.
pub fn read_name(text: &str) -> Result<&'static str, CaseError> {
    match text {
        "ada" => Ok("ada"),
        "bob" => Ok("bob"),
        "cy" => Ok("cy"),
        _ => Err(CaseError::Line),
    }
}

/// The fairing that a line says.
pub fn read_actor(text: &str, singleton: bool) -> Result<Actor, CaseError> {
    let (name, rest) = first_word(text);
    let (key, act) = first_word(rest);
    Ok(Actor::new(
        read_name(name)?,
        parsed::<u32>(key)?,
        singleton,
        read_act(act)?,
    ))
}

/// Stands for how these fairings are called at ignition: as often Pending as the act says, and then done.
pub struct Acts;

impl IgniteCallback<Site, Actor> for Acts {
    ghost use Rattle.std.specs.Prelude.{◌≡◌, ◌^◌, ⊤};

    type Task = u32;

    ghost calling = { record {
      may = λ _ _ _ _ _ _. ⊤;
      begun = λ _ _ task _ _ _ n. n ≡ task;
      pendings = λ _ _ _. 2 ^ 32;
      may_fault = λ _ _ _. ⊤;
    } };

    fn start(_fairing: &Actor) -> u32 {
        0
    }

    fn poll(
        fairing: &mut Actor,
        alloc: Global,
        polled: &mut u32,
        building: &mut Building<Site, Actor>,
    ) -> Step<Result<(), ()>> {
        match fairing.act {
            Act::Pend(times) if *polled < times => {
                *polled += 1;
                Step::Pending
            }
            _ => match act_once(alloc, fairing, building) {
                Ending::Done => Step::Done(Ok(())),
                Ending::Refused => Step::Done(Err(())),
                Ending::Fault => Step::Fault,
                Ending::Starved => Step::Starved,
            },
        }
    }
}

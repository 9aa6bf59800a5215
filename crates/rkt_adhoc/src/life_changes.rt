//! Callbacks of a rocket's life that an author writes as one change, and proves nothing of.
ghost use Rattle.std.specs.Prelude.{◌≡◌, IfOk, OnOk, Result, ⊤};
ghost use Rattle.rkt_turn.specs.HandsBack.{HandsBack};
ghost use Rattle.rkt_turn.specs.Shutdown.{Handle};
ghost use Rattle.rkt_fairing.specs.Building.{SeenBuilding};
ghost use Rattle.rkt_fairing.specs.Life.{SeenView};

use crate::AtOnce;
use rkt_base::NoMemory;
use rkt_fairing::{Building, IgniteCallback, LiftoffCallback, Parts, ShutdownCallback, View};
use rkt_router::Step;
use rkt_turn::Shutdown;
use std::alloc::Global;

/// What changes the builder of a rocket at ignition, of a type that says nothing of itself: then it may change it to any
/// other. `G` is the type of the builder's fairings.
pub trait ChangesBuilding<A: Parts, G> {
    /// What it may leave of itself and of the builder.
    ghost may: { Self → SeenBuilding A.Handler A.Catch A.Sentinel A.Value G → Self
        → SeenBuilding A.Handler A.Catch A.Sentinel A.Value G → Type 0 } = { λ _ _ _ _. ⊤ };

    /// The change.
    fn on_ignite(&mut self, alloc: Global, building: &mut Building<A, G>) -> Result<(), NoMemory>
        ensures { OnOk result (may self.old building.old self.new building.new) };
}

/// The same, of what may refuse: then the rocket does not ignite.
pub trait TriesBuilding<A: Parts, G> {
    /// What it may answer, and leave of itself and of the builder.
    ghost may: { Self → SeenBuilding A.Handler A.Catch A.Sentinel A.Value G → Result (Unit {0}) (Unit {0}) → Self
        → SeenBuilding A.Handler A.Catch A.Sentinel A.Value G → Type 0 } = { λ _ _ _ _ _. ⊤ };

    /// The change. It is refused by an Err in Ok.
    fn try_on_ignite(
        &mut self,
        alloc: Global,
        building: &mut Building<A, G>,
    ) -> Result<Result<(), ()>, NoMemory>
        ensures { IfOk result (λ answer. may self.old building.old answer self.new building.new) };
}

/// What is called once a rocket is in orbit, of a type that says nothing of itself.
pub trait SeesLiftoff<A: Parts> {
    /// What it may leave of itself and of the wire's handle.
    ghost may: { Self → SeenView A.Handler A.Catch A.Sentinel A.Value → Handle → Self → Handle → Type 0 } = { λ _ _ _ _ _. ⊤ };

    /// The call. The handle stays one of its wire, for want of memory too.
    fn on_liftoff(
        &mut self,
        alloc: Global,
        view: &View<'_, A>,
        shutdown: &mut Shutdown<A::Reason>,
    ) -> Result<(), NoMemory>
        ensures changes { OnOk result (may self.old view.now shutdown.old self.new shutdown.new) }
        ensures hands_back { HandsBack shutdown.old shutdown.new };
}

/// What is called once a shutdown has begun, of a type that says nothing of itself.
pub trait SeesShutdown<A: Parts> {
    /// Whether it may be done.
    ghost may: { Self → SeenView A.Handler A.Catch A.Sentinel A.Value → Type 0 } = { λ _ _. ⊤ };

    /// The call.
    fn on_shutdown(&self, alloc: Global, view: &View<'_, A>) -> Result<(), NoMemory>
        ensures { OnOk result (may self.now view.now) };
}

// The task of a call at ignition or at liftoff says whether it found no memory.
impl<A: Parts, F: TriesBuilding<A, F>> IgniteCallback<A, F> for AtOnce {
    ghost use Rattle.rkt_adhoc.specs.LifeChanges.{trying_building};

    type Task = bool;

    ghost calling = { trying_building F.may };

    fn start(_fairing: &F) -> bool {
        false
    }

    fn poll(
        fairing: &mut F,
        alloc: Global,
        starved: &mut bool,
        building: &mut Building<A, F>,
    ) -> Step<Result<(), ()>> {
        if *starved {
            return Step::Starved;
        }
        match fairing.try_on_ignite(alloc, building) {
            Ok(answer) => Step::Done(answer),
            Err(_) => {
                *starved = true;
                Step::Starved
            }
        }
    }
}

impl<A: Parts, F: SeesLiftoff<A>> LiftoffCallback<A, F> for AtOnce {
    ghost use Rattle.rkt_adhoc.specs.LifeChanges.{lifting, lifting_keeps};

    type Task = bool;

    ghost calling = { lifting F.may };

    fn start(_fairing: &F, _view: &View<'_, A>) -> bool {
        false
    }

    fn poll(
        fairing: &mut F,
        alloc: Global,
        starved: &mut bool,
        view: &View<'_, A>,
        shutdown: &mut Shutdown<A::Reason>,
    ) -> Step<()> {
        if *starved {
            return Step::Starved;
        }
        match fairing.on_liftoff(alloc, view, shutdown) {
            Ok(()) => Step::Done(()),
            Err(_) => {
                *starved = true;
                Step::Starved
            }
        }
    }

    ghost keeps = { lifting_keeps _ };
}

impl<A: Parts, F: SeesShutdown<A>> ShutdownCallback<A, F> for AtOnce {
    ghost use Rattle.rkt_adhoc.specs.LifeChanges.{shutting};

    type Task = ();

    ghost calling = { shutting F.may };

    fn start(_fairing: &F, _view: &View<'_, A>) {}

    fn poll(fairing: &F, alloc: Global, _task: &mut (), view: &View<'_, A>) -> Step<()> {
        match fairing.on_shutdown(alloc, view) {
            Ok(()) => Step::Done(()),
            Err(_) => Step::Starved,
        }
    }
}

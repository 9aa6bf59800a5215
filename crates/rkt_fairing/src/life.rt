//! What is called at the events of a rocket's life. Such a callback may change the fairing itself at ignition and at liftoff.
ghost use Rattle.std.specs.Prelude.{Result};

use crate::{Building, Parts, View};
use rkt_router::Step;
use rkt_turn::Shutdown;
use std::alloc::Global;

/// How fairings of a type are called at ignition. They may change the builder, and refuse.
pub trait IgniteCallback<A: Parts, F> {
    ghost use Rattle.rkt_fairing.specs.Life.{IgniteAt, CanPollAlone, PollsAlone};
    ghost use Rattle.rkt_router.specs.Calling.{Calling, Starts};

    /// A call that is under way. One that was Done is not polled again.
    type Task: Drop;

    /// What a call means.
    ghost calling: { Calling (Unit {0}) (Unit {0}) (IgniteAt A.Handler A.Catch A.Sentinel A.Value F)
        (Result (Unit {0}) (Unit {0})) Self.Task };

    /// Begins a call.
    fn start(fairing: &F) -> Self::Task
        ensures { Starts calling tt tt result };

    /// Goes on with a call.
    fn poll(
        fairing: &mut F,
        alloc: Global,
        task: &mut Self::Task,
        building: &mut Building<A, F>,
    ) -> Step<Result<(), ()>>
        requires begun { CanPollAlone calling tt tt task.old (record { fairing = fairing.old; building = building.old }) }
        ensures { PollsAlone calling tt tt task.old (record { fairing = fairing.old; building = building.old }) result task.new
            (record { fairing = fairing.new; building = building.new }) };
}

/// How fairings of a type are called at liftoff. They may notify a shutdown.
pub trait LiftoffCallback<A: Parts, F> {
    ghost use Rattle.rkt_fairing.specs.Life.{LiftoffAt, SeenView, KeepsLiftoff, CanPollAlone, PollsAlone};
    ghost use Rattle.rkt_router.specs.Calling.{Calling, Starts};

    /// A call that is under way. One that was Done is not polled again.
    type Task: Drop;

    /// What a call means.
    ghost calling: { Calling (Unit {0}) (SeenView A.Handler A.Catch A.Sentinel A.Value) (LiftoffAt F) (Unit {0}) Self.Task };

    /// Begins a call.
    fn start(fairing: &F, view: &View<'_, A>) -> Self::Task
        ensures { Starts calling tt view.now result };

    /// Goes on with a call.
    fn poll(
        fairing: &mut F,
        alloc: Global,
        task: &mut Self::Task,
        view: &View<'_, A>,
        shutdown: &mut Shutdown<A::Reason>,
    ) -> Step<()>
        requires begun { CanPollAlone calling tt view.now task.old (record { fairing = fairing.old; shutdown = shutdown.old }) }
        ensures { PollsAlone calling tt view.now task.old (record { fairing = fairing.old; shutdown = shutdown.old }) result
            task.new (record { fairing = fairing.new; shutdown = shutdown.new }) };

    /// The handle stays one of its wire.
    ghost keeps: { KeepsLiftoff calling };
}

/// How fairings of a type are called once a shutdown has begun.
pub trait ShutdownCallback<A: Parts, F> {
    ghost use Rattle.rkt_fairing.specs.Life.{SeenView, CanPollAlone, PollsAlone};
    ghost use Rattle.rkt_router.specs.Calling.{Calling, Starts};

    /// A call that is under way. One that was Done is not polled again.
    type Task: Drop;

    /// What a call means.
    ghost calling: { Calling F (SeenView A.Handler A.Catch A.Sentinel A.Value) (Unit {0}) (Unit {0}) Self.Task };

    /// Begins a call.
    fn start(fairing: &F, view: &View<'_, A>) -> Self::Task
        ensures { Starts calling fairing.now view.now result };

    /// Goes on with a call.
    fn poll(fairing: &F, alloc: Global, task: &mut Self::Task, view: &View<'_, A>) -> Step<()>
        requires begun { CanPollAlone calling fairing.now view.now task.old tt }
        ensures { PollsAlone calling fairing.now view.now task.old tt result task.new tt };
}

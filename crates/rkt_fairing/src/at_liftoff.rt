//! One call at liftoff, polled to its end.
ghost use Rattle.std.specs.Prelude.{[]};
ghost use Rattle.rkt_router.specs.Calls.{Gives};
ghost use Rattle.rkt_turn.specs.HandsBack.{HandsBack};
ghost use Rattle.rkt_fairing.specs.Calls.{CalledAtLiftoff, reply_of, turns_of};

use crate::{Called, LiftoffCallback, Parts, Slot, View};
use rkt_router::Step;
use rkt_turn::Shutdown;
use std::alloc::Global;

// One call at liftoff of a fairing of the application.
fn lift_fairing<A: Parts, F, P: LiftoffCallback<A, F>>(
    alloc: Global,
    fairing: &mut F,
    view: &View<'_, A>,
    shutdown: &mut Shutdown<A::Reason>,
) -> Called
    ensures gives { Gives P.calling tt view.now (turns_of view.now) (record { fairing = fairing.old; shutdown = shutdown.old })
        [] (reply_of result) (record { fairing = fairing.new; shutdown = shutdown.new }) }
    ensures hands_back { HandsBack shutdown.old shutdown.new }
{
    let mut task = P::start(fairing, view);
    for turn in 0..view.config.turns.max(1) {
        match P::poll(fairing, alloc, &mut task, view, shutdown) {
            Step::Pending => {}
            Step::Done(()) => return Called::Done,
            Step::Fault => return Called::FailedTurn,
            Step::Starved => return Called::Starved,
        }
    }
    Called::FailedTurn
}

/// One call at liftoff of what is in a slot.
pub(crate) fn lift_slot<A: Parts, F, P: LiftoffCallback<A, F>>(
    alloc: Global,
    slot: &mut Slot<F>,
    view: &View<'_, A>,
    shutdown: &mut Shutdown<A::Reason>,
) -> Called
    ensures { CalledAtLiftoff P.calling view.now slot.old shutdown.old result slot.new shutdown.new }
{
    match slot {
        Slot::Shield(_) => Called::Done,
        Slot::App(fairing) => lift_fairing::<A, F, P>(alloc, fairing, view, shutdown),
    }
}

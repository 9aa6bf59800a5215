//! One call at a shutdown, polled to its end.
ghost use Rattle.std.specs.Prelude.{[]};
ghost use Rattle.rkt_router.specs.Calls.{Gives};
ghost use Rattle.rkt_fairing.specs.Calls.{CalledAtShutdown, reply_of, turns_of};

use crate::{Called, Parts, ShutdownCallback, Slot, View};
use rkt_router::Step;
use std::alloc::Global;

// One call at a shutdown of a fairing of the application.
fn shut_fairing<A: Parts, F, P: ShutdownCallback<A, F>>(
    alloc: Global,
    fairing: &F,
    view: &View<'_, A>,
) -> Called
    ensures { Gives P.calling fairing.now view.now (turns_of view.now) tt [] (reply_of result) tt }
{
    let mut task = P::start(fairing, view);
    for turn in 0..view.config.turns.max(1) {
        match P::poll(fairing, alloc, &mut task, view) {
            Step::Pending => {}
            Step::Done(()) => return Called::Done,
            Step::Fault => return Called::FailedTurn,
            Step::Starved => return Called::Starved,
        }
    }
    Called::FailedTurn
}

/// One call at a shutdown of what is in a slot.
pub(crate) fn shut_slot<A: Parts, F, P: ShutdownCallback<A, F>>(
    alloc: Global,
    slot: &Slot<F>,
    view: &View<'_, A>,
) -> Called
    ensures { CalledAtShutdown P.calling view.now slot.now result }
{
    match slot {
        Slot::Shield(_) => Called::Done,
        Slot::App(fairing) => shut_fairing::<A, F, P>(alloc, fairing, view),
    }
}

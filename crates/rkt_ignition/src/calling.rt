//! One call at ignition, polled to its end.
ghost use Rattle.std.specs.Prelude.{[], IfOk};
ghost use Rattle.rkt_router.specs.Calls.{Gives};
ghost use Rattle.rkt_ignition.specs.Calls.{CalledSlot, ignite_turns, reply_of};

use crate::IgniteAnswer;
use rkt_base::NoMemory;
use rkt_fairing::{Building, IgniteCallback, Parts, Slot};
use rkt_router::Step;
use std::alloc::{AllocError, Global};

/// How often one callback is polled.
const TURNS: u32 = 1_048_576;

// One call of a fairing of the application. Starved is want of memory.
fn call_fairing<A: Parts, F, P: IgniteCallback<A, F>>(
    alloc: Global,
    fairing: &mut F,
    building: &mut Building<A, F>,
) -> Result<IgniteAnswer, NoMemory>
    ensures { IfOk result (λ answer.
        Gives P.calling tt tt ignite_turns (record { fairing = fairing.old; building = building.old }) [] (reply_of answer)
        (record { fairing = fairing.new; building = building.new })) }
{
    let mut task = P::start(fairing);
    for turn in 0..TURNS {
        match P::poll(fairing, alloc, &mut task, building) {
            Step::Pending => {}
            Step::Done(Ok(())) => return Ok(IgniteAnswer::Done),
            Step::Done(Err(())) => return Ok(IgniteAnswer::Err),
            Step::Fault => return Ok(IgniteAnswer::FailedTurn),
            Step::Starved => return Err(AllocError),
        }
    }
    Ok(IgniteAnswer::FailedTurn)
}

/// One call of what is in a slot.
pub(crate) fn call_slot<A: Parts, F, P: IgniteCallback<A, F>>(
    alloc: Global,
    slot: &mut Slot<F>,
    building: &mut Building<A, F>,
) -> Result<IgniteAnswer, NoMemory>
    ensures { IfOk result (λ answer. CalledSlot P.calling slot.old building.old answer slot.new building.new) }
{
    match slot {
        Slot::Shield(_) => Ok(IgniteAnswer::Done),
        Slot::App(fairing) => call_fairing::<A, F, P>(alloc, fairing, building),
    }
}

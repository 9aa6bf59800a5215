//! The rounds of an ignition: all that wait are called, and those attached meanwhile are added, until none waits.
ghost use Rattle.std.specs.Prelude.{◌≡◌, ◌<◌, IfOk, OnOk};
ghost use Rattle.rkt_ignition.specs.Ignites.{CallsNext, Waits, answered};
ghost use Rattle.rkt_ignition.specs.Rounds.{IsNext, RoundsEnd, Settles};

use crate::calling::call_slot;
use crate::{IgniteAnswer, IgniteCall};
use rkt_base::{NoMemory, Seq};
use rkt_fairing::{Attach, Building, Fairings, IgniteCallback, Parts};
use std::alloc::Global;

/// How many callbacks are called.
const CALLS: usize = 1024;

/// How the calls of an ignition ended.
#[derive(Debug, Drop)]
pub(crate) enum Rounds {
    /// All that waited were called.
    Over(Seq<IgniteCall>),
    /// As many were called as may be, and another waits.
    TooMany(Seq<IgniteCall>),
}

// Where none waits, those that were attached meanwhile are added one by one.
fn settle<A: Parts, F: Attach + Drop>(
    attached: &mut Fairings<F>,
    building: &mut Building<A, F>,
) -> Result<(), NoMemory>
    ensures { OnOk result (Settles F.key F.info (record { attached = attached.old; building = building.old })
        (record { attached = attached.new; building = building.new })) }
{
    if !attached.waits() {
        attached.append(&mut building.fairings)?;
    }
    Ok(())
}

// Puts the fairing of a call that was not Done behind the failures.
fn note<F>(attached: &mut Fairings<F>, call: &IgniteCall) -> Result<(), NoMemory>
    requires called { 0 < attached.old.ignited }
    ensures { OnOk result (attached.new ≡ answered call.now.answer call.now.info attached.old) }
{
    match call.answer {
        IgniteAnswer::Done => Ok(()),
        IgniteAnswer::Err | IgniteAnswer::FailedTurn => attached.push_failure(call.info),
    }
}

// Calls the next that waits.
fn call_next<A: Parts, F: Attach + Drop, P: IgniteCallback<A, F>>(
    alloc: Global,
    attached: &mut Fairings<F>,
    building: &mut Building<A, F>,
) -> Result<IgniteCall, NoMemory>
    requires { Waits attached.old }
    // Where it was not Done, it is still to be put behind the failures.
    ensures calls { IfOk result (λ call. CallsNext P.calling F.info
        (record { attached = attached.old; building = building.old }) call
        (record { attached = answered call.answer call.info attached.new; building = building.new })) }
    ensures called { IfOk result (λ _. 0 < attached.new.ignited) }
{
    match attached.next_ignite() {
        Some(slot) => {
            let info = slot.info();
            let answer = call_slot::<A, F, P>(alloc, slot, building)?;
            Ok(IgniteCall { info, answer })
        }
        None => unreachable!(),
    }
}

// The next call, where one waits.
fn next_call<A: Parts, F: Attach + Drop, P: IgniteCallback<A, F>>(
    alloc: Global,
    attached: &mut Fairings<F>,
    building: &mut Building<A, F>,
) -> Result<Option<IgniteCall>, NoMemory>
    ensures { IfOk result (λ next. IsNext P.calling F.key F.info (record { attached = attached.old; building = building.old })
        next (record { attached = attached.new; building = building.new })) }
{
    settle::<A, F>(attached, building)?;
    if !attached.waits() {
        return Ok(None);
    }
    let call = call_next::<A, F, P>(alloc, attached, building)?;
    note(attached, &call)?;
    Ok(Some(call))
}

/// All calls of an ignition, whose fairings were taken out of the builder.
pub(crate) fn call_all<A: Parts, F: Attach + Drop, P: IgniteCallback<A, F>>(
    alloc: Global,
    attached: &mut Fairings<F>,
    building: &mut Building<A, F>,
) -> Result<Rounds, NoMemory>
    ensures { IfOk result (λ rounds.
        RoundsEnd P.calling F.key F.info (record { attached = attached.old; building = building.old }) rounds
        (record { attached = attached.new; building = building.new })) }
{
    let mut calls = Seq::new(alloc);
    for _made in 0..CALLS {
        match next_call::<A, F, P>(alloc, attached, building)? {
            Some(call) => calls.push(call)?,
            None => return Ok(Rounds::Over(calls)),
        }
    }
    settle::<A, F>(attached, building)?;
    if attached.waits() {
        return Ok(Rounds::TooMany(calls));
    }
    Ok(Rounds::Over(calls))
}

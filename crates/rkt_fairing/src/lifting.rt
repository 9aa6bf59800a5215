//! The calls at liftoff.
ghost use Rattle.std.specs.List.{Contains};
ghost use Rattle.std.specs.Prelude.{◌≡◌, ◌≤◌, ◌<◌, ℕ, [], IfOk, OnErr, length, slice_get, vec_capacity};
ghost use Rattle.rkt_turn.specs.HandsBack.{HandsBack};
ghost use Rattle.rkt_fairing.specs.Lifts.{LiftsAt, Lifts};

use crate::at_liftoff::lift_slot;
use crate::{Callback, Called, Fairings, LiftoffCallback, Parts, View};
use rkt_base::{NoMemory, Seq};
use rkt_turn::Shutdown;
use std::alloc::Global;

// Calls the fairing at a place of those that are called at liftoff.
fn lift_at<A: Parts, F, P: LiftoffCallback<A, F>>(
    alloc: Global,
    fairings: &mut Fairings<F>,
    n: usize,
    view: &View<'_, A>,
    shutdown: &mut Shutdown<A::Reason>,
) -> Called
    requires within { n < length fairings.old.places.liftoff }
    ensures { LiftsAt P.calling view.now n (record { fairings = fairings.old; shutdown = shutdown.old }) result
        (record { fairings = fairings.new; shutdown = shutdown.new }) }
{
    match fairings.get_mut(Callback::Liftoff, n) {
        Some(slot) => lift_slot::<A, F, P>(alloc, slot, view, shutdown),
        None => unreachable!(),
    }
}

// Calls all of them, and fills a list that has room.
fn lift_all<A: Parts, F, P: LiftoffCallback<A, F>>(
    alloc: Global,
    fairings: &mut Fairings<F>,
    view: &View<'_, A>,
    shutdown: &mut Shutdown<A::Reason>,
    calls: &mut Vec<Called>,
)
    requires empty { calls.old.items ≡ [] }
    requires room { length fairings.old.places.liftoff ≤ vec_capacity calls.old }
    ensures { Lifts P.calling view.now (record { fairings = fairings.old; shutdown = shutdown.old }) calls.new.items
        (record { fairings = fairings.new; shutdown = shutdown.new }) }
{
    for n in 0..fairings.count(Callback::Liftoff) {
        calls.push_reserved(lift_at::<A, F, P>(alloc, fairings, n, view, shutdown));
    }
}

/// Calls the fairings of liftoff in the order in which they were attached. A turn fails only where the callback may
/// answer Fault, or may be Pending as often as the configuration grants turns; a call that is not done is passed over. The
/// answer has one for each of them, in order.
pub fn liftoff<A: Parts, F, P: LiftoffCallback<A, F>>(
    alloc: Global,
    fairings: &mut Fairings<F>,
    view: &View<'_, A>,
    shutdown: &mut Shutdown<A::Reason>,
) -> Result<Seq<Called>, NoMemory>
    // Each call is one of its fairing, on what those before it left.
    ensures lifts { IfOk result (λ calls. Lifts P.calling view.now (record { fairings = fairings.old; shutdown = shutdown.old })
        calls (record { fairings = fairings.new; shutdown = shutdown.new })) }
    // A fairing that is not called at liftoff stays as it is.
    ensures others { (place : ℕ)
        → ¬ Contains fairings.old.places.liftoff place
        → slice_get fairings.new.slots place ≡ slice_get fairings.old.slots place }
    // Nothing but the fairings themselves differs.
    ensures kept { fairings.new ≡ record fairings.old { slots = fairings.new.slots } }
    ensures hands_back { HandsBack shutdown.old shutdown.new }
    // For want of memory nothing was called.
    ensures err { OnErr result ((fairings.new ≡ fairings.old) × (shutdown.new ≡ shutdown.old)) }
{
    let mut calls = Vec::with_capacity(alloc, fairings.count(Callback::Liftoff))?;
    lift_all::<A, F, P>(alloc, fairings, view, shutdown, &mut calls);
    Ok(Seq::from_vec(calls))
}

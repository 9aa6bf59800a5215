//! The calls at a shutdown.
ghost use Rattle.std.specs.Prelude.{◌≡◌, ◌≤◌, ◌<◌, [], IfOk, length, vec_capacity};
ghost use Rattle.rkt_fairing.specs.ShutsDown.{ShutsDownAt, ShutsDown};

use crate::at_shutdown::shut_slot;
use crate::{Callback, Called, Fairings, Parts, ShutdownCallback, View};
use rkt_base::{NoMemory, Seq};
use std::alloc::Global;

// Calls the fairing at a place of those that are called at a shutdown.
fn shut_at<A: Parts, F, P: ShutdownCallback<A, F>>(
    alloc: Global,
    fairings: &Fairings<F>,
    n: usize,
    view: &View<'_, A>,
) -> Called
    requires within { n < length fairings.now.places.shutdown }
    ensures { ShutsDownAt P.calling view.now fairings.now n result }
{
    match fairings.get(Callback::Shutdown, n) {
        Some(slot) => shut_slot::<A, F, P>(alloc, slot, view),
        None => unreachable!(),
    }
}

/// An empty list with room for a call of each fairing that is called at a shutdown.
pub fn down_room<F>(alloc: Global, fairings: &Fairings<F>) -> Result<Vec<Called>, NoMemory>
    ensures empty { IfOk result (λ room. room.items ≡ []) }
    ensures room { IfOk result (λ room. length fairings.now.places.shutdown ≤ vec_capacity room) }
{
    Vec::with_capacity(alloc, fairings.count(Callback::Shutdown))
}

/// Calls the fairings of a shutdown in the order in which they were attached. A turn fails only where the callback may
/// answer Fault, or may be Pending as often as the configuration grants turns; a call that is not done is passed over. The
/// answer has one for each of them, in order. It stands in the room that is handed in.
pub fn shut_down<A: Parts, F, P: ShutdownCallback<A, F>>(
    alloc: Global,
    fairings: &Fairings<F>,
    view: &View<'_, A>,
    room: Vec<Called>,
) -> Seq<Called>
    requires empty { room.items ≡ [] }
    requires room { length fairings.now.places.shutdown ≤ vec_capacity room }
    // Each call is one of its fairing.
    ensures { ShutsDown P.calling view.now fairings.now result }
{
    let mut calls = room;
    for n in 0..fairings.count(Callback::Shutdown) {
        calls.push_reserved(shut_at::<A, F, P>(alloc, fairings, n, view));
    }
    Seq::from_vec(calls)
}

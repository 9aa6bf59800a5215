//! What calls of fairings begin with, hold, and come to.
ghost use Rattle.std.specs.Prelude.{◌≡◌, ◌<◌, ◌+◌, length};
ghost use Rattle.rkt_fairing.specs.Places.{places_of};
ghost use Rattle.rkt_exchange.specs.Recorded.{fairing_answer};

use rkt_fairing::{Callback, Fairings};
use rkt_message::Response;
use rkt_request::{Body0, Ctx, Request, Types};
use rkt_router::Final;
use rkt_routing::{Answer, Live};

/// A request as it arrives, with its body: R is the type of requests, B that of bodies, X that of contexts.
#[derive(Drop)]
pub struct Arrival<R, B, X> {
    pub live: Live<R, X>,
    pub body: B,
}

/// A response before it departs, with its request: S is the type of streams.
#[derive(Drop)]
pub struct Departure<R, X, S> {
    pub live: Live<R, X>,
    pub response: Response<S>,
}

/// A request of an application as it arrives.
pub type ArrivalOf<'a, T> = Arrival<Request<'a, T>, Body0<T>, Ctx<T>>;

/// A response of an application before it departs.
pub type DepartureOf<'a, T> = Departure<Request<'a, T>, Ctx<T>, <T as Types>::Stream>;

/// The call of the fairing at a place, which was Pending so many turns; a shield has no task of its own.
#[derive(Drop)]
pub struct FairingTask<K> {
    pub place: usize,
    pub task: Option<K>,
    pub turn: u32,
}

/// What is under way: what fairings are lent, and the call of one, or none where all were called.
#[derive(Drop)]
pub struct Underway<L, K> {
    pub lent: L,
    pub next: Option<FairingTask<K>>,
}

/// What the calls for a request come to: W is the type of handles.
#[derive(Drop)]
pub enum PreprocessedOf<R, B, X, W> {
    Done(Arrival<R, B, X>),
    /// There was no memory.
    Starved { shutdown: W },
}

/// What the calls for a response come to.
#[derive(Drop)]
pub enum FinalizedOf<R, X, S, W> {
    Done(Departure<R, X, S>),
    /// There was no memory.
    Starved { shutdown: W },
}

// What a fairing's call is recorded with.
pub(crate) fn fairing_says(reply: &Final<()>) -> Answer
    ensures { result ≡ fairing_answer reply.now }
{
    match reply {
        Final::Done(()) => Answer::Done,
        Final::FailedTurn | Final::Starved => Answer::FailedTurn,
    }
}

// The place behind one of an event's list, which it has.
pub(crate) fn place_behind<F>(fairings: &Fairings<F>, event: Callback, place: usize) -> usize
    ensures { place < length (places_of event fairings.now.places) → result ≡ place + 1 }
{
    if place < fairings.count(event) {
        return place + 1;
    }
    place
}

//! The data guards that every application has.
ghost use Rattle.std.specs.Prelude.{◌≡◌, ◌≢◌, ◌↔◌, [], Err, MatchResult};
ghost use Rattle.rkt_request.specs.Guards.{guard_map, body_guard, strict, kept_answer, kept_value, or_bad_request, ErrsWith400, ErrsOrIsCut};

mod bytes;
mod text;

use crate::from_data::{FromData, GuardError};
use crate::request::Request;
use crate::types::{Body0, Types};
use rkt_base::{NoMemory, Poll};
use rkt_data::{CancellableIo, Capped, Data, DataError, Gate};
use rkt_http::{Outcome, Status};
use std::alloc::{AllocError, Global};
use std::convert::Infallible;

/// What a reading that is over makes of a guard: its value, or 400.
fn or_bad_request<V, F>(
    answer: Result<V, DataError>,
) -> Result<Outcome<V, (Status, GuardError), F>, NoMemory>
    ensures { MatchResult result (λ outcome. (outcome ≡ or_bad_request answer) × (answer ≢ Err DataError.NoMemory))
        (λ _. answer ≡ Err DataError.NoMemory) }
{
    match answer {
        Ok(value) => Ok(Outcome::Success(value)),
        Err(DataError::NoMemory) => Err(AllocError),
        Err(error) => Ok(Outcome::Error((Status::BadRequest, GuardError::Io(error)))),
    }
}

/// What is complete, and 400 for what is not.
fn strict<V: Drop, F>(
    outcome: Outcome<Capped<V>, (Status, GuardError), F>,
) -> Outcome<V, (Status, GuardError), F>
    ensures value { result ≡ strict outcome }
    ensures errs { ErrsWith400 result ↔ ErrsOrIsCut outcome }
{
    match outcome {
        Outcome::Success(capped) => {
            let written = capped.n.written;
            if capped.n.complete {
                Outcome::Success(capped.value)
            } else {
                Outcome::Error((Status::BadRequest, GuardError::LimitExceeded { written }))
            }
        }
        Outcome::Error(error) => Outcome::Error(error),
        Outcome::Forward(forward) => Outcome::Forward(forward),
    }
}

fn kept_answer<G, E, D, F>(
    outcome: Outcome<G, (Status, E), F>,
) -> Outcome<Result<G, E>, (Status, D), F>
    ensures { result ≡ kept_answer outcome }
{
    match outcome {
        Outcome::Success(value) => Outcome::Success(Ok(value)),
        Outcome::Error((_, error)) => Outcome::Success(Err(error)),
        Outcome::Forward(forward) => Outcome::Forward(forward),
    }
}

fn kept_value<G, E: Drop, D, F: Drop, H>(outcome: Outcome<G, E, F>) -> Outcome<Option<G>, D, H>
    ensures { result ≡ kept_value outcome }
{
    match outcome {
        Outcome::Success(value) => Outcome::Success(Some(value)),
        Outcome::Error(_) | Outcome::Forward(_) => Outcome::Success(None),
    }
}

/// The body as it is.
impl<T: Types> FromData<T> for Data<CancellableIo<T::Source>> {
    type Error = Infallible;

    type Reading = Option<Body0<T>>;

    ghost guarding = { body_guard };

    fn from_data(_request: &Request<'_, T>, body: Body0<T>) -> Option<Body0<T>> {
        Some(body)
    }

    fn poll_data(
        _alloc: Global,
        reading: &mut Option<Body0<T>>,
        _gate: Gate,
    ) -> Poll<Result<Outcome<Body0<T>, (Status, Infallible), (Body0<T>, Status)>, NoMemory>> {
        match reading.take() {
            Some(body) => Poll::Ready(Ok(Outcome::Success(body))),
            None => unreachable!(),
        }
    }
}

/// Keeps an Error as Err.
impl<T: Types, G: FromData<T>> FromData<T> for Result<G, G::Error> {
    type Error = Infallible;

    type Reading = G::Reading;

    ghost guarding = { guard_map kept_answer G.guarding };

    fn from_data(request: &Request<'_, T>, body: Body0<T>) -> G::Reading {
        G::from_data(request, body)
    }

    fn poll_data(
        alloc: Global,
        reading: &mut G::Reading,
        gate: Gate,
    ) -> Poll<
        Result<Outcome<Result<G, G::Error>, (Status, Infallible), (Body0<T>, Status)>, NoMemory>,
    > {
        match G::poll_data(alloc, reading, gate) {
            Poll::Pending => Poll::Pending,
            Poll::Ready(Ok(outcome)) => Poll::Ready(Ok(kept_answer(outcome))),
            Poll::Ready(Err(error)) => Poll::Ready(Err(error)),
        }
    }
}

/// None in place of an Error and of a Forward, with which the body is let go.
impl<T: Types, G: FromData<T>> FromData<T> for Option<G> {
    type Error = Infallible;

    type Reading = G::Reading;

    ghost guarding = { guard_map kept_value G.guarding };

    fn from_data(request: &Request<'_, T>, body: Body0<T>) -> G::Reading {
        G::from_data(request, body)
    }

    fn poll_data(
        alloc: Global,
        reading: &mut G::Reading,
        gate: Gate,
    ) -> Poll<Result<Outcome<Option<G>, (Status, Infallible), (Body0<T>, Status)>, NoMemory>> {
        match G::poll_data(alloc, reading, gate) {
            Poll::Pending => Poll::Pending,
            Poll::Ready(Ok(outcome)) => Poll::Ready(Ok(kept_value(outcome))),
            Poll::Ready(Err(error)) => Poll::Ready(Err(error)),
        }
    }
}

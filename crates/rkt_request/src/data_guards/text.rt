//! The text of a body.
ghost use Rattle.rkt_request.specs.Guards.{text_guard, guard_map, strict};

use super::{or_bad_request, strict};
use crate::from_data::{FromData, GuardError};
use crate::request::Request;
use crate::types::{Body0, Types};
use rkt_base::{NoMemory, Poll};
use rkt_config::Limits;
use rkt_data::{CancellableIo, Capped, Gate, IntoString, Source};
use rkt_http::{Outcome, Status};
use std::alloc::Global;

/// The text of the body, up to the limit `string`.
impl<T: Types> FromData<T> for Capped<String> {
    type Error = GuardError;

    type Reading = IntoString<CancellableIo<T::Source>>;

    ghost guarding = { text_guard ⟦<CancellableIo<T::Source> as Source>⟧.meaning
        ⟦<CancellableIo<T::Source> as Source>⟧.polled };

    fn from_data(request: &Request<'_, T>, body: Body0<T>) -> IntoString<CancellableIo<T::Source>> {
        let limit = request.limits().get("string").unwrap_or(Limits::STRING);
        body.open(limit).into_string()
    }

    fn poll_data(
        alloc: Global,
        reading: &mut IntoString<CancellableIo<T::Source>>,
        gate: Gate,
    ) -> Poll<Result<Outcome<Capped<String>, (Status, GuardError), (Body0<T>, Status)>, NoMemory>> {
        match reading.poll(alloc, gate) {
            Poll::Pending => Poll::Pending,
            Poll::Ready(answer) => Poll::Ready(or_bad_request(answer)),
        }
    }
}

/// The text of the body, which must fit the limit `string`.
impl<T: Types> FromData<T> for String {
    type Error = GuardError;

    type Reading = IntoString<CancellableIo<T::Source>>;

    ghost guarding = { guard_map strict ⟦<Capped<String> as FromData<T>>⟧.guarding };

    fn from_data(request: &Request<'_, T>, body: Body0<T>) -> IntoString<CancellableIo<T::Source>> {
        <Capped<String> as FromData<T>>::from_data(request, body)
    }

    fn poll_data(
        alloc: Global,
        reading: &mut IntoString<CancellableIo<T::Source>>,
        gate: Gate,
    ) -> Poll<Result<Outcome<String, (Status, GuardError), (Body0<T>, Status)>, NoMemory>> {
        match <Capped<String> as FromData<T>>::poll_data(alloc, reading, gate) {
            Poll::Pending => Poll::Pending,
            Poll::Ready(Ok(outcome)) => Poll::Ready(Ok(strict(outcome))),
            Poll::Ready(Err(error)) => Poll::Ready(Err(error)),
        }
    }
}

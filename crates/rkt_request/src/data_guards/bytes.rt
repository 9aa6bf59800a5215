//! The bytes of a body.
ghost use Rattle.rkt_request.specs.Guards.{bytes_guard, guard_map, strict};

use super::{or_bad_request, strict};
use crate::from_data::{FromData, GuardError};
use crate::request::Request;
use crate::types::{Body0, Types};
use rkt_base::{NoMemory, Poll};
use rkt_config::Limits;
use rkt_data::{CancellableIo, Capped, Gate, IntoBytes, Source};
use rkt_http::{Outcome, Status};
use std::alloc::Global;

/// The bytes of the body, up to the limit `bytes`.
impl<T: Types> FromData<T> for Capped<Vec<u8>> {
    type Error = GuardError;

    type Reading = IntoBytes<CancellableIo<T::Source>>;

    ghost guarding = { bytes_guard ⟦<CancellableIo<T::Source> as Source>⟧.meaning
        ⟦<CancellableIo<T::Source> as Source>⟧.polled };

    fn from_data(request: &Request<'_, T>, body: Body0<T>) -> IntoBytes<CancellableIo<T::Source>> {
        let limit = request.limits().get("bytes").unwrap_or(Limits::BYTES);
        body.open(limit).into_bytes()
    }

    fn poll_data(
        alloc: Global,
        reading: &mut IntoBytes<CancellableIo<T::Source>>,
        gate: Gate,
    ) -> Poll<
        Result<Outcome<Capped<Vec<u8>>, (Status, GuardError), (Body0<T>, Status)>, NoMemory>,
    > {
        match reading.poll(alloc, gate) {
            Poll::Pending => Poll::Pending,
            Poll::Ready(answer) => Poll::Ready(or_bad_request(answer)),
        }
    }
}

/// The bytes of the body, which must fit the limit `bytes`.
impl<T: Types> FromData<T> for Vec<u8> {
    type Error = GuardError;

    type Reading = IntoBytes<CancellableIo<T::Source>>;

    ghost guarding = { guard_map strict ⟦<Capped<Vec<u8>> as FromData<T>>⟧.guarding };

    fn from_data(request: &Request<'_, T>, body: Body0<T>) -> IntoBytes<CancellableIo<T::Source>> {
        <Capped<Vec<u8>> as FromData<T>>::from_data(request, body)
    }

    fn poll_data(
        alloc: Global,
        reading: &mut IntoBytes<CancellableIo<T::Source>>,
        gate: Gate,
    ) -> Poll<Result<Outcome<Vec<u8>, (Status, GuardError), (Body0<T>, Status)>, NoMemory>> {
        match <Capped<Vec<u8>> as FromData<T>>::poll_data(alloc, reading, gate) {
            Poll::Pending => Poll::Pending,
            Poll::Ready(Ok(outcome)) => Poll::Ready(Ok(strict(outcome))),
            Poll::Ready(Err(error)) => Poll::Ready(Err(error)),
        }
    }
}

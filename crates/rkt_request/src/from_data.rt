//! Data guards: what the body of a request may be taken as.
ghost use Rattle.std.specs.Prelude.{[]};

use crate::request::Request;
use crate::types::HasBody;
use rkt_base::{NoMemory, Poll};
use rkt_data::{DataError, Gate};
use rkt_http::{Outcome, Status};
use std::alloc::Global;
use thiserror::Error;

/// Why a body is not what a guard takes.
#[derive(Clone, Copy, Debug, Drop, PartialEq, Eq, Error)]
pub enum GuardError {
    /// It could not be read, or is no text.
    #[error("{0}")]
    Io(DataError),
    /// It is longer than its limit.
    #[error("more than {written} bytes")]
    LimitExceeded { written: u64 },
}

/// What a data guard answers: its value, an error with a status, or the body `B`, left to another route with a status.
pub type DataOutcome<G, E, B> = Outcome<G, (Status, E), (B, Status)>;

/// A value that is read from the body of a request.
pub trait FromData<T: HasBody>: Sized {
    ghost use Rattle.rkt_request.specs.Guarding.{Guarding, CanRead, ReadsOn, any_guard};

    /// Why a body gives none.
    type Error: Drop;

    /// How far the reading has come. One that has answered Ready is not polled again.
    type Reading: Drop;

    /// What contracts see of the guard: nothing, where it says nothing.
    ghost guarding: { Guarding T.Value T.Body Self Self.Error Self.Reading } = { any_guard };

    fn from_data(request: &Request<'_, T>, body: T::Body) -> Self::Reading
        ensures { guarding.begun request.now body [] 0 result };

    fn poll_data(
        alloc: Global,
        reading: &mut Self::Reading,
        gate: Gate,
    ) -> Poll<Result<Outcome<Self, (Status, Self::Error), (T::Body, Status)>, NoMemory>>
        requires { CanRead guarding reading.old }
        ensures { ReadsOn guarding reading.old gate result reading.new };
}

//! Data guards by what the text of a body spells.
ghost use Rattle.std.specs.Prelude.{◌≡◌, IfOk, ℕ, List, Result};
ghost use Rattle.rkt_param.specs.Reads.{UnlessNoMemory};
ghost use Rattle.rkt_request.specs.Guards.{guard_by, ParsedAs, value_or_refusal};

use crate::from_data::{DataOutcome, FromData, GuardError};
use crate::request::Request;
use crate::types::{Body0, Types};
use rkt_base::{NoMemory, Poll, Want};
use rkt_data::{CancellableIo, Gate, IntoString};
use rkt_http::{Outcome, Status};
use std::alloc::{AllocError, Global};

/// A value that the text of a body may spell: `Parsed` is the guard that reads it.
pub trait FromText: Sized {
    /// Why a text spells none.
    type Error: Drop;

    /// What a text may give: any value and any error, where nothing is said.
    ghost reads: { List ℕ → Result Self Self.Error → Type 0 } = { λ _ _. Unit {0} };

    fn from_text(alloc: Global, text: &str) -> Result<Self, Want<Self::Error>>
        ensures { UnlessNoMemory (reads text.now) result };
}

/// The value that the text of a body spells, which must fit the limit `string`.
#[derive(Debug, Drop)]
pub struct Parsed<P>(pub P);

/// Why a body gives no such value.
#[derive(Debug, Drop)]
pub enum TextError<E> {
    /// It could not be read, is no text, or is longer than its limit.
    Body(GuardError),
    /// The text spells no value.
    Text(E),
}

/// The value that a text spells, or an error with 400.
fn parsed_text<P: FromText, B>(
    alloc: Global,
    text: &str,
) -> Result<DataOutcome<Parsed<P>, TextError<P::Error>, B>, NoMemory>
    ensures { IfOk result (λ outcome.
        (answer : Result P P.Error) × P.reads text.now answer × (outcome ≡ value_or_refusal answer)) }
{
    match P::from_text(alloc, text) {
        Ok(value) => Ok(Outcome::Success(Parsed(value))),
        Err(Want::Refused(error)) => Ok(Outcome::Error((
            Status::BadRequest,
            TextError::Text(error),
        ))),
        Err(Want::NoMemory) => Err(AllocError),
    }
}

fn text_outcome<P: FromText, B>(
    alloc: Global,
    outcome: DataOutcome<String, GuardError, B>,
) -> Result<DataOutcome<Parsed<P>, TextError<P::Error>, B>, NoMemory>
    ensures { IfOk result (λ made. ParsedAs P.reads outcome made) }
{
    match outcome {
        Outcome::Success(text) => parsed_text(alloc, text.as_str()),
        Outcome::Error((status, error)) => Ok(Outcome::Error((status, TextError::Body(error)))),
        Outcome::Forward(forward) => Ok(Outcome::Forward(forward)),
    }
}

impl<T: Types, P: FromText> FromData<T> for Parsed<P> {
    type Error = TextError<P::Error>;

    type Reading = IntoString<CancellableIo<T::Source>>;

    ghost guarding = { guard_by (ParsedAs P.reads) ⟦<String as FromData<T>>⟧.guarding };

    fn from_data(request: &Request<'_, T>, body: Body0<T>) -> IntoString<CancellableIo<T::Source>> {
        <String as FromData<T>>::from_data(request, body)
    }

    fn poll_data(
        alloc: Global,
        reading: &mut IntoString<CancellableIo<T::Source>>,
        gate: Gate,
    ) -> Poll<Result<DataOutcome<Parsed<P>, TextError<P::Error>, Body0<T>>, NoMemory>> {
        match <String as FromData<T>>::poll_data(alloc, reading, gate) {
            Poll::Pending => Poll::Pending,
            Poll::Ready(Ok(outcome)) => match text_outcome(alloc, outcome) {
                Ok(outcome) => Poll::Ready(Ok(outcome)),
                Err(error) => Poll::Ready(Err(error)),
            },
            Poll::Ready(Err(error)) => Poll::Ready(Err(error)),
        }
    }
}

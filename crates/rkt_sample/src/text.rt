//! The text of a body.
ghost use Rattle.std.specs.Prelude.{◌∷◌, [], IfOk};
ghost use Rattle.rkt_sample.specs.Echo.{IsText};

use crate::source::ToldSource;
use rkt_base::{NoMemory, Poll};
use rkt_data::Gate;
use rkt_request::{Body0, DataOutcome, FromData, GuardError, Request, Types};
use std::alloc::Global;

/// The text of a body, as the guard reads it. It is never waited for.
pub(crate) fn read_text<T: Types<Source = S>, S: ToldSource>(
    alloc: Global,
    request: &Request<'_, T>,
    body: Body0<T>,
    gate: Gate,
) -> Result<DataOutcome<String, GuardError, Body0<T>>, NoMemory>
    ensures { IfOk result (IsText S.Source.meaning request.now body (gate ∷ [])) }
{
    // For contracts alone: what is complete is held whole.
    let _ = body.peek_complete();
    let mut reading = <String as FromData<T>>::from_data(request, body);
    match <String as FromData<T>>::poll_data(alloc, &mut reading, gate) {
        Poll::Ready(answer) => answer,
        Poll::Pending => unreachable!(),
    }
}

//! Guards of whether another guard succeeds.
ghost use Rattle.std.specs.Prelude.{◌≡◌};
ghost use Rattle.rkt_http.specs.declared.outcome.Outcome.{Outcome};
ghost use Rattle.rkt_http.specs.declared.outcome.Outcome.TheVariants.{Success};
ghost use Rattle.rkt_http.specs.declared.status.Status.{Status};
ghost use Rattle.rkt_request.specs.FromRequest.{as_option, as_result};

use crate::from_request::{Context, FromRequest, GuardOutcome};
use rkt_base::NoMemory;
use rkt_http::{Outcome, Status};
use std::alloc::Global;
use std::convert::Infallible;

impl<R, C: Context, G: FromRequest<R, C> + Drop> FromRequest<R, C> for Option<G> {
    type Error = Infallible;

    ghost may = { λ seen before outcome after.
        (inner : Outcome G (Status × G.Error) Status) × G.may seen before inner after × (outcome ≡ as_option inner) };

    ghost starves = { G.starves };

    fn from_request(
        alloc: Global,
        request: &R,
        ctx: &mut C,
    ) -> Result<GuardOutcome<Option<G>, Infallible>, NoMemory> {
        match G::from_request(alloc, request, ctx)? {
            Outcome::Success(value) => Ok(Outcome::Success(Some(value))),
            Outcome::Error(_) | Outcome::Forward(_) => Ok(Outcome::Success(None)),
        }
    }
}

impl<R, C: Context, G: FromRequest<R, C>> FromRequest<R, C> for Result<G, G::Error> {
    type Error = Infallible;

    ghost may = { λ seen before outcome after.
        (inner : Outcome G (Status × G.Error) Status) × G.may seen before inner after × (outcome ≡ as_result inner) };

    ghost starves = { G.starves };

    fn from_request(
        alloc: Global,
        request: &R,
        ctx: &mut C,
    ) -> Result<GuardOutcome<Result<G, G::Error>, Infallible>, NoMemory> {
        match G::from_request(alloc, request, ctx)? {
            Outcome::Success(value) => Ok(Outcome::Success(Ok(value))),
            Outcome::Error((_status, error)) => Ok(Outcome::Success(Err(error))),
            Outcome::Forward(status) => Ok(Outcome::Forward(status)),
        }
    }
}

impl<R, C: Context, G: FromRequest<R, C>> FromRequest<R, C> for GuardOutcome<G, G::Error> {
    type Error = Infallible;

    ghost may = { λ seen before outcome after.
        (inner : Outcome G (Status × G.Error) Status) × G.may seen before inner after × (outcome ≡ Success inner) };

    ghost starves = { G.starves };

    fn from_request(
        alloc: Global,
        request: &R,
        ctx: &mut C,
    ) -> Result<GuardOutcome<GuardOutcome<G, G::Error>, Infallible>, NoMemory> {
        let outcome = G::from_request(alloc, request, ctx)?;
        Ok(Outcome::Success(outcome))
    }
}

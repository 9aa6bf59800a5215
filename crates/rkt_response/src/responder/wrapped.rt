//! Responders that answer as an inner one.
ghost use Rattle.std.specs.Prelude.{◌≡◌};
ghost use Rattle.std.specs.Option.{MatchOption};
ghost use Rattle.std.specs.Result.{MatchResult};
ghost use Rattle.either.specs.Either.{MatchEither};
ghost use Rattle.rkt_request.specs.FromRequest.{Answers};
ghost use Rattle.rkt_response.specs.Responder.{refusal};

use crate::responder::{Responder, ResponseResult};
use either::{Either, Left, Right};
use rkt_base::Want;
use rkt_data::Capped;
use rkt_http::Status;
use rkt_request::{Ctx, Request, Types};
use std::alloc::Global;

impl<T: Types, R: Responder<T>> Responder<T> for Option<R> {
    ghost may = { λ value seen before answer after.
        MatchOption value (Answers answer (refusal 404) before after) (λ inner. R.may inner seen before answer after) };

    ghost starves = { λ value seen before after. MatchOption value ⊥ (λ inner. R.starves inner seen before after) };

    fn respond_to(
        self,
        alloc: Global,
        request: &Request<'_, T>,
        ctx: &mut Ctx<T>,
    ) -> ResponseResult<T::Stream> {
        match self {
            Some(responder) => responder.respond_to(alloc, request, ctx),
            None => Err(Want::Refused(Status::NotFound)),
        }
    }
}

impl<T: Types, R: Responder<T>, E: Responder<T>> Responder<T> for Result<R, E> {
    ghost may = { λ value seen before answer after.
        MatchResult value (λ inner. R.may inner seen before answer after) (λ inner. E.may inner seen before answer after) };

    ghost starves = { λ value seen before after.
        MatchResult value (λ inner. R.starves inner seen before after) (λ inner. E.starves inner seen before after) };

    fn respond_to(
        self,
        alloc: Global,
        request: &Request<'_, T>,
        ctx: &mut Ctx<T>,
    ) -> ResponseResult<T::Stream> {
        match self {
            Ok(responder) => responder.respond_to(alloc, request, ctx),
            Err(responder) => responder.respond_to(alloc, request, ctx),
        }
    }
}

impl<T: Types, L: Responder<T>, R: Responder<T>> Responder<T> for Either<L, R> {
    ghost may = { λ value seen before answer after.
        MatchEither value (λ inner. L.may inner seen before answer after) (λ inner. R.may inner seen before answer after) };

    ghost starves = { λ value seen before after.
        MatchEither value (λ inner. L.starves inner seen before after) (λ inner. R.starves inner seen before after) };

    fn respond_to(
        self,
        alloc: Global,
        request: &Request<'_, T>,
        ctx: &mut Ctx<T>,
    ) -> ResponseResult<T::Stream> {
        match self {
            Left(responder) => responder.respond_to(alloc, request, ctx),
            Right(responder) => responder.respond_to(alloc, request, ctx),
        }
    }
}

impl<T: Types, R: Responder<T>> Responder<T> for Box<R> {
    ghost may = { λ boxed seen before answer after. R.may boxed.value seen before answer after };

    ghost starves = { λ boxed seen before after. R.starves boxed.value seen before after };

    fn respond_to(
        self,
        alloc: Global,
        request: &Request<'_, T>,
        ctx: &mut Ctx<T>,
    ) -> ResponseResult<T::Stream> {
        Box::into_inner(self).respond_to(alloc, request, ctx)
    }
}

impl<T: Types, R: Responder<T>> Responder<T> for Capped<R> {
    ghost may = { λ capped seen before answer after. R.may capped.value seen before answer after };

    ghost starves = { λ capped seen before after. R.starves capped.value seen before after };

    fn respond_to(
        self,
        alloc: Global,
        request: &Request<'_, T>,
        ctx: &mut Ctx<T>,
    ) -> ResponseResult<T::Stream> {
        self.into_inner().respond_to(alloc, request, ctx)
    }
}

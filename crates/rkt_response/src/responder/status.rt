//! Responders that set the status.
ghost use Rattle.std.specs.Prelude.{◌≡◌, Ok};
ghost use Rattle.rkt_request.specs.FromRequest.{Answers};
ghost use Rattle.rkt_response.specs.Responder.{Changes, status_alone, with_status};

pub use crate::responder::created::Created;
use crate::responder::making::with_status;
use crate::responder::{Responder, ResponseResult};
use rkt_http::Status;
use rkt_message::Response;
use rkt_request::{Ctx, Request, Types};
use std::alloc::Global;

impl<T: Types, R: Responder<T>> Responder<T> for (Status, R) {
    ghost may = { λ value seen before answer after.
        Changes (with_status value.0.code) (R.may value.1 seen before) answer after };

    ghost starves = { λ value seen before after. R.starves value.1 seen before after };

    fn respond_to(
        self,
        alloc: Global,
        request: &Request<'_, T>,
        ctx: &mut Ctx<T>,
    ) -> ResponseResult<T::Stream> {
        with_status(self.0, self.1, alloc, request, ctx)
    }
}

/// The response of an inner responder with another status.
#[derive(Debug, Drop, PartialEq)]
pub struct Custom<R>(pub Status, pub R);

impl<T: Types, R: Responder<T>> Responder<T> for Custom<R> {
    ghost may = { λ value seen before answer after.
        Changes (with_status value.0.code) (R.may value.1 seen before) answer after };

    ghost starves = { λ value seen before after. R.starves value.1 seen before after };

    fn respond_to(
        self,
        alloc: Global,
        request: &Request<'_, T>,
        ctx: &mut Ctx<T>,
    ) -> ResponseResult<T::Stream> {
        with_status(self.0, self.1, alloc, request, ctx)
    }
}

/// The response of an inner responder with the status 202.
#[derive(Debug, Drop, PartialEq)]
pub struct Accepted<R>(pub R);

impl<T: Types, R: Responder<T>> Responder<T> for Accepted<R> {
    ghost may = { λ value seen before answer after. Changes (with_status 202) (R.may value.0 seen before) answer after };

    ghost starves = { λ value seen before after. R.starves value.0 seen before after };

    fn respond_to(
        self,
        alloc: Global,
        request: &Request<'_, T>,
        ctx: &mut Ctx<T>,
    ) -> ResponseResult<T::Stream> {
        with_status(Status::Accepted, self.0, alloc, request, ctx)
    }
}

/// The response of an inner responder with the status 400.
#[derive(Debug, Drop, PartialEq)]
pub struct BadRequest<R>(pub R);

impl<T: Types, R: Responder<T>> Responder<T> for BadRequest<R> {
    ghost may = { λ value seen before answer after. Changes (with_status 400) (R.may value.0 seen before) answer after };

    ghost starves = { λ value seen before after. R.starves value.0 seen before after };

    fn respond_to(
        self,
        alloc: Global,
        request: &Request<'_, T>,
        ctx: &mut Ctx<T>,
    ) -> ResponseResult<T::Stream> {
        with_status(Status::BadRequest, self.0, alloc, request, ctx)
    }
}

/// The response of an inner responder with the status 401.
#[derive(Debug, Drop, PartialEq)]
pub struct Unauthorized<R>(pub R);

impl<T: Types, R: Responder<T>> Responder<T> for Unauthorized<R> {
    ghost may = { λ value seen before answer after. Changes (with_status 401) (R.may value.0 seen before) answer after };

    ghost starves = { λ value seen before after. R.starves value.0 seen before after };

    fn respond_to(
        self,
        alloc: Global,
        request: &Request<'_, T>,
        ctx: &mut Ctx<T>,
    ) -> ResponseResult<T::Stream> {
        with_status(Status::Unauthorized, self.0, alloc, request, ctx)
    }
}

/// The response of an inner responder with the status 403.
#[derive(Debug, Drop, PartialEq)]
pub struct Forbidden<R>(pub R);

impl<T: Types, R: Responder<T>> Responder<T> for Forbidden<R> {
    ghost may = { λ value seen before answer after. Changes (with_status 403) (R.may value.0 seen before) answer after };

    ghost starves = { λ value seen before after. R.starves value.0 seen before after };

    fn respond_to(
        self,
        alloc: Global,
        request: &Request<'_, T>,
        ctx: &mut Ctx<T>,
    ) -> ResponseResult<T::Stream> {
        with_status(Status::Forbidden, self.0, alloc, request, ctx)
    }
}

/// The response of an inner responder with the status 404.
#[derive(Debug, Drop, PartialEq)]
pub struct NotFound<R>(pub R);

impl<T: Types, R: Responder<T>> Responder<T> for NotFound<R> {
    ghost may = { λ value seen before answer after. Changes (with_status 404) (R.may value.0 seen before) answer after };

    ghost starves = { λ value seen before after. R.starves value.0 seen before after };

    fn respond_to(
        self,
        alloc: Global,
        request: &Request<'_, T>,
        ctx: &mut Ctx<T>,
    ) -> ResponseResult<T::Stream> {
        with_status(Status::NotFound, self.0, alloc, request, ctx)
    }
}

/// The response of an inner responder with the status 409.
#[derive(Debug, Drop, PartialEq)]
pub struct Conflict<R>(pub R);

impl<T: Types, R: Responder<T>> Responder<T> for Conflict<R> {
    ghost may = { λ value seen before answer after. Changes (with_status 409) (R.may value.0 seen before) answer after };

    ghost starves = { λ value seen before after. R.starves value.0 seen before after };

    fn respond_to(
        self,
        alloc: Global,
        request: &Request<'_, T>,
        ctx: &mut Ctx<T>,
    ) -> ResponseResult<T::Stream> {
        with_status(Status::Conflict, self.0, alloc, request, ctx)
    }
}

/// The status 204, without a body.
#[derive(Debug, Drop, PartialEq)]
pub struct NoContent;

impl<T: Types> Responder<T> for NoContent {
    ghost may = { λ _ _ before answer after. Answers answer (Ok (status_alone 204)) before after };

    fn respond_to(
        self,
        alloc: Global,
        _request: &Request<'_, T>,
        _ctx: &mut Ctx<T>,
    ) -> ResponseResult<T::Stream> {
        let mut response = Response::new(alloc);
        response.set_status(Status::NoContent);
        Ok(response)
    }
}

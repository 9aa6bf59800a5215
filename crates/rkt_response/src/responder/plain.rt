//! Responders without a body.
ghost use Rattle.std.specs.Prelude.{◌≡◌, Ok};
ghost use Rattle.rkt_request.specs.FromRequest.{Answers};
ghost use Rattle.rkt_message.specs.Response.{empty_response};
ghost use Rattle.rkt_response.specs.Responder.{answer_of_status, refusal};

use crate::responder::{Responder, ResponseResult};
use rkt_base::Want;
use rkt_data::SourceError;
use rkt_http::Status;
use rkt_message::Response;
use rkt_request::{Ctx, Request, Types};
use std::alloc::Global;

impl<T: Types> Responder<T> for () {
    ghost may = { λ _ _ before answer after. Answers answer (Ok empty_response) before after };

    fn respond_to(
        self,
        alloc: Global,
        _request: &Request<'_, T>,
        _ctx: &mut Ctx<T>,
    ) -> ResponseResult<T::Stream> {
        Ok(Response::new(alloc))
    }
}

impl<T: Types> Responder<T> for Status {
    ghost may = { λ status _ before answer after. Answers answer (answer_of_status status.code) before after };

    fn respond_to(
        self,
        alloc: Global,
        _request: &Request<'_, T>,
        _ctx: &mut Ctx<T>,
    ) -> ResponseResult<T::Stream> {
        match self.code {
            100 | 200..=205 => {
                let mut response = Response::new(alloc);
                response.set_status(self);
                Ok(response)
            }
            400..=599 => Err(Want::Refused(self)),
            _ => Err(Want::Refused(Status::InternalServerError)),
        }
    }
}

impl<T: Types> Responder<T> for SourceError {
    ghost may = { λ _ _ before answer after. Answers answer (refusal 500) before after };

    fn respond_to(
        self,
        _alloc: Global,
        _request: &Request<'_, T>,
        _ctx: &mut Ctx<T>,
    ) -> ResponseResult<T::Stream> {
        Err(Want::Refused(Status::InternalServerError))
    }
}

/// An error that is no responder by itself.
#[derive(Debug, Drop)]
pub struct Debug<E>(pub E);

impl<E> From<E> for Debug<E> {
    ghost from_gives = { λ error debug. debug.0 ≡ error };

    fn from(error: E) -> Debug<E> {
        Debug(error)
    }
}

impl<T: Types, E: Drop> Responder<T> for Debug<E> {
    ghost may = { λ _ _ before answer after. Answers answer (refusal 500) before after };

    fn respond_to(
        self,
        _alloc: Global,
        _request: &Request<'_, T>,
        _ctx: &mut Ctx<T>,
    ) -> ResponseResult<T::Stream> {
        Err(Want::Refused(Status::InternalServerError))
    }
}

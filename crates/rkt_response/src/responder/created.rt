ghost use Rattle.std.specs.Prelude.{◌≡◌, None, Some, Ok, IfOk};
ghost use Rattle.std.specs.Option.{MatchOption};
ghost use Rattle.rkt_request.specs.FromRequest.{Answers};
ghost use Rattle.rkt_message.specs.Response.{empty_response};
ghost use Rattle.rkt_response.specs.Responder.{Changes, StarvesWithin, created_at};

use crate::responder::making::located;
use crate::responder::{Responder, ResponseResult};
use rkt_base::{NoMemory, Text};
use rkt_http::Status;
use rkt_message::Response;
use rkt_request::{Ctx, Request, Types};
use std::alloc::Global;
use std::marker::Model;

/// The status 201, and the place of what was created.
#[derive(Debug, Drop, PartialEq)]
pub struct Created<R> {
    location: Text,
    responder: Option<R>,
}

impl<R> Model for Created<R> {
    ghost use Rattle.rkt_response.specs.Responder.{Creation};

    ghost Value = { Creation R };

    ghost view = { λ c. record { location = c.location; responder = c.responder } };

    ghost inverse = { λ c. record { location = c.location; responder = c.responder } };
}

impl<R> Created<R> {
    /// Without a body.
    pub fn new(alloc: Global, location: &str) -> Result<Created<R>, NoMemory>
        ensures { IfOk result (λ created. created ≡ record { location = location.now; responder = None }) }
    {
        Ok(Created {
            location: Text::new(alloc, location)?,
            responder: None,
        })
    }
}

impl<R: Drop> Created<R> {
    /// With the response of a responder.
    pub fn body(self, responder: R) -> Created<R>
        ensures { result ≡ record self { responder = Some responder } }
    {
        Created {
            location: self.location,
            responder: Some(responder),
        }
    }
}

impl<T: Types, R: Responder<T>> Responder<T> for Created<R> {
    ghost may = { λ created seen before answer after. MatchOption created.responder
        (Answers answer (Ok (created_at created.location empty_response)) before after)
        (λ inner. Changes (created_at created.location) (R.may inner seen before) answer after) };

    ghost starves = { λ created seen before after. MatchOption created.responder
        (after ≡ before)
        (λ inner. StarvesWithin (R.may inner seen before) (R.starves inner seen before) after) };

    fn respond_to(
        self,
        alloc: Global,
        request: &Request<'_, T>,
        ctx: &mut Ctx<T>,
    ) -> ResponseResult<T::Stream> {
        let Created {
            location,
            responder,
        } = self;
        match responder {
            Some(responder) => {
                let response = responder.respond_to(alloc, request, ctx)?;
                Ok(located(Status::Created, location.as_str(), response)?)
            }
            None => Ok(located(Status::Created, location.as_str(), Response::new(alloc))?),
        }
    }
}

ghost use Rattle.std.specs.Prelude.{◌≡◌, None, Some, IfOk};
ghost use Rattle.rkt_uri.specs.Reference.{IsReference};
ghost use Rattle.rkt_request.specs.FromRequest.{Answers};
ghost use Rattle.rkt_response.specs.Responder.{answer_of_redirect};

use crate::responder::making::located;
use crate::responder::{Responder, ResponseResult};
use rkt_base::{NoMemory, Want};
use rkt_http::{Reference, Status};
use rkt_message::Response;
use rkt_request::{Ctx, Request, Types};
use std::alloc::{AllocError, Global};
use std::marker::Model;

/// Sends a client elsewhere.
#[derive(Debug, Drop)]
pub struct Redirect {
    status: Status,
    uri: Option<Reference>,
}

impl Model for Redirect {
    ghost use Rattle.rkt_response.specs.Responder.{Redirection};

    ghost Value = { Redirection };

    ghost view = { λ r. record { code = r.status.code; uri = r.uri } };
}

impl Redirect {
    fn new(alloc: Global, status: Status, uri: &str) -> Result<Redirect, NoMemory>
        ensures reference { IsReference uri.now
            → IfOk result (λ redirect. redirect ≡ record { code = status.code; uri = Some uri.now }) }
        ensures other { ¬ IsReference uri.now → IfOk result (λ redirect. redirect ≡ record { code = status.code; uri = None }) }
    {
        match Reference::parse(alloc, uri) {
            Ok(uri) => Ok(Redirect {
                status,
                uri: Some(uri),
            }),
            Err(Want::Refused(_)) => Ok(Redirect { status, uri: None }),
            Err(Want::NoMemory) => Err(AllocError),
        }
    }

    /// To be asked by GET.
    pub fn to(alloc: Global, uri: &str) -> Result<Redirect, NoMemory>
        ensures reference { IsReference uri.now
            → IfOk result (λ redirect. redirect ≡ record { code = 303; uri = Some uri.now }) }
        ensures other { ¬ IsReference uri.now → IfOk result (λ redirect. redirect ≡ record { code = 303; uri = None }) }
    {
        Redirect::new(alloc, Status::SeeOther, uri)
    }

    /// To be asked by the same method, this time.
    pub fn temporary(alloc: Global, uri: &str) -> Result<Redirect, NoMemory>
        ensures reference { IsReference uri.now
            → IfOk result (λ redirect. redirect ≡ record { code = 307; uri = Some uri.now }) }
        ensures other { ¬ IsReference uri.now → IfOk result (λ redirect. redirect ≡ record { code = 307; uri = None }) }
    {
        Redirect::new(alloc, Status::TemporaryRedirect, uri)
    }

    /// To be asked by the same method, from now on.
    pub fn permanent(alloc: Global, uri: &str) -> Result<Redirect, NoMemory>
        ensures reference { IsReference uri.now
            → IfOk result (λ redirect. redirect ≡ record { code = 308; uri = Some uri.now }) }
        ensures other { ¬ IsReference uri.now → IfOk result (λ redirect. redirect ≡ record { code = 308; uri = None }) }
    {
        Redirect::new(alloc, Status::PermanentRedirect, uri)
    }

    /// This time, by a method that the client chooses.
    pub fn found(alloc: Global, uri: &str) -> Result<Redirect, NoMemory>
        ensures reference { IsReference uri.now
            → IfOk result (λ redirect. redirect ≡ record { code = 302; uri = Some uri.now }) }
        ensures other { ¬ IsReference uri.now → IfOk result (λ redirect. redirect ≡ record { code = 302; uri = None }) }
    {
        Redirect::new(alloc, Status::Found, uri)
    }

    /// From now on, by a method that the client chooses.
    pub fn moved(alloc: Global, uri: &str) -> Result<Redirect, NoMemory>
        ensures reference { IsReference uri.now
            → IfOk result (λ redirect. redirect ≡ record { code = 301; uri = Some uri.now }) }
        ensures other { ¬ IsReference uri.now → IfOk result (λ redirect. redirect ≡ record { code = 301; uri = None }) }
    {
        Redirect::new(alloc, Status::MovedPermanently, uri)
    }
}

impl<T: Types> Responder<T> for Redirect {
    ghost may = { λ redirect _ before answer after. Answers answer (answer_of_redirect redirect) before after };

    fn respond_to(
        self,
        alloc: Global,
        _request: &Request<'_, T>,
        _ctx: &mut Ctx<T>,
    ) -> ResponseResult<T::Stream> {
        let Redirect { status, uri } = self;
        let Some(uri) = uri else {
            return Err(Want::Refused(Status::InternalServerError));
        };
        Ok(located(status, uri.as_str(), Response::new(alloc))?)
    }
}

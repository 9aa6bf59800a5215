//! Guards of what a request keeps, which give a copy.
ghost use Rattle.std.specs.Prelude.{◌≡◌, List, Option};
ghost use Rattle.rkt_media.specs.Accept.{Weighed};
ghost use Rattle.rkt_media.specs.Media.{Media};
ghost use Rattle.rkt_http.specs.declared.outcome.Outcome.TheVariants.{Success};
ghost use Rattle.rkt_request.specs.FromRequest.{Answers, or_forward};
ghost use Rattle.rkt_request.specs.Seen.{IsAccept, IsContentType};

use crate::ctx::Ctx;
use crate::from_request::{FromRequest, GuardOutcome};
use crate::request::Request;
use crate::types::Types;
use rkt_base::NoMemory;
use rkt_config::Limits;
use rkt_http::{Accept, ContentType, Host, Origin, Outcome, Status};
use std::alloc::Global;
use std::convert::Infallible;

impl<'a, T: Types> FromRequest<Request<'a, T>, Ctx<T>> for Origin {
    type Error = Infallible;

    ghost may = { λ seen before outcome after. Answers outcome (Success seen.uri) before after };

    fn from_request(
        alloc: Global,
        request: &Request<'a, T>,
        _ctx: &mut Ctx<T>,
    ) -> Result<GuardOutcome<Origin, Infallible>, NoMemory> {
        Ok(Outcome::Success(request.uri().try_clone(alloc)?))
    }
}

impl<'a, T: Types> FromRequest<Request<'a, T>, Ctx<T>> for Limits {
    type Error = Infallible;

    ghost may = { λ seen before outcome after. Answers outcome (Success seen.config.limits) before after };

    fn from_request(
        _alloc: Global,
        request: &Request<'a, T>,
        _ctx: &mut Ctx<T>,
    ) -> Result<GuardOutcome<Limits, Infallible>, NoMemory> {
        Ok(Outcome::Success(request.limits().try_clone()?))
    }
}

impl<'a, T: Types> FromRequest<Request<'a, T>, Ctx<T>> for Host {
    type Error = Infallible;

    ghost may = { λ seen before outcome after. Answers outcome (or_forward seen.host) before after };

    fn from_request(
        alloc: Global,
        request: &Request<'a, T>,
        _ctx: &mut Ctx<T>,
    ) -> Result<GuardOutcome<Host, Infallible>, NoMemory> {
        match request.host() {
            Some(host) => Ok(Outcome::Success(host.try_clone(alloc)?)),
            None => Ok(Outcome::Forward(Status::InternalServerError)),
        }
    }
}

impl<'a, T: Types> FromRequest<Request<'a, T>, Ctx<T>> for ContentType {
    type Error = Infallible;

    ghost may = { λ seen before outcome after.
        (found : Option Media) × IsContentType seen.headers found × Answers outcome (or_forward found) before after };

    fn from_request(
        alloc: Global,
        request: &Request<'a, T>,
        _ctx: &mut Ctx<T>,
    ) -> Result<GuardOutcome<ContentType, Infallible>, NoMemory> {
        match request.content_type() {
            Some(content_type) => Ok(Outcome::Success(content_type.try_clone(alloc)?)),
            None => Ok(Outcome::Forward(Status::InternalServerError)),
        }
    }
}

impl<'a, T: Types> FromRequest<Request<'a, T>, Ctx<T>> for Accept {
    type Error = Infallible;

    ghost may = { λ seen before outcome after.
        (found : Option (List Weighed)) × IsAccept seen.headers found × Answers outcome (or_forward found) before after };

    fn from_request(
        alloc: Global,
        request: &Request<'a, T>,
        _ctx: &mut Ctx<T>,
    ) -> Result<GuardOutcome<Accept, Infallible>, NoMemory> {
        match request.accept() {
            Some(accept) => Ok(Outcome::Success(accept.try_clone(alloc)?)),
            None => Ok(Outcome::Forward(Status::InternalServerError)),
        }
    }
}

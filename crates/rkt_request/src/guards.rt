//! Guards of what a request has.
ghost use Rattle.std.specs.Prelude.{◌≡◌, Option};
ghost use Rattle.std.specs.declared.net.ip_addr.IpAddr.{IpAddr};
ghost use Rattle.rkt_http.specs.declared.outcome.Outcome.TheVariants.{Success};
ghost use Rattle.rkt_request.specs.FromRequest.{Answers, or_error, or_forward};
ghost use Rattle.rkt_config.specs.Managed.{value_at};
ghost use Rattle.rkt_request.specs.Seen.{IsClientIp};

mod copied;
mod wrapped;

use crate::ctx::Ctx;
use crate::from_request::{FromRequest, GuardOutcome};
use crate::head::Mounted;
use crate::request::Request;
use crate::types::Types;
use rkt_base::NoMemory;
use rkt_config::State;
use rkt_http::{Method, Outcome, Status};
use std::alloc::Global;
use std::convert::Infallible;
use std::net::{IpAddr, SocketAddr};

impl<'a, T: Types> FromRequest<Request<'a, T>, Ctx<T>> for Method {
    type Error = Infallible;

    ghost may = { λ seen before outcome after. Answers outcome (Success seen.method) before after };

    fn from_request(
        _alloc: Global,
        request: &Request<'a, T>,
        _ctx: &mut Ctx<T>,
    ) -> Result<GuardOutcome<Method, Infallible>, NoMemory> {
        Ok(Outcome::Success(request.method()))
    }
}

impl<'a, T: Types> FromRequest<Request<'a, T>, Ctx<T>> for Mounted {
    type Error = Infallible;

    ghost may = { λ seen before outcome after. Answers outcome (or_forward seen.route) before after };

    fn from_request(
        _alloc: Global,
        request: &Request<'a, T>,
        _ctx: &mut Ctx<T>,
    ) -> Result<GuardOutcome<Mounted, Infallible>, NoMemory> {
        match request.route() {
            Some(route) => Ok(Outcome::Success(route)),
            None => Ok(Outcome::Forward(Status::InternalServerError)),
        }
    }
}

impl<'a, T: Types> FromRequest<Request<'a, T>, Ctx<T>> for SocketAddr {
    type Error = Infallible;

    ghost may = { λ seen before outcome after. Answers outcome (or_forward seen.remote) before after };

    fn from_request(
        _alloc: Global,
        request: &Request<'a, T>,
        _ctx: &mut Ctx<T>,
    ) -> Result<GuardOutcome<SocketAddr, Infallible>, NoMemory> {
        match request.remote() {
            Some(address) => Ok(Outcome::Success(address)),
            None => Ok(Outcome::Forward(Status::InternalServerError)),
        }
    }
}

impl<'a, T: Types> FromRequest<Request<'a, T>, Ctx<T>> for IpAddr {
    type Error = Infallible;

    ghost may = { λ seen before outcome after.
        (found : Option IpAddr) × IsClientIp seen found × Answers outcome (or_forward found) before after };

    fn from_request(
        _alloc: Global,
        request: &Request<'a, T>,
        _ctx: &mut Ctx<T>,
    ) -> Result<GuardOutcome<IpAddr, Infallible>, NoMemory> {
        match request.client_ip() {
            Some(address) => Ok(Outcome::Success(address)),
            None => Ok(Outcome::Forward(Status::InternalServerError)),
        }
    }
}

impl<'a, T: Types, const KEY: u32> FromRequest<Request<'a, T>, Ctx<T>>
    for State<'a, T::Value, KEY> {
    type Error = ();

    ghost may = { λ seen before outcome after.
        Answers outcome (or_error (value_at (record { 0 = KEY }) seen.managed)) before after };

    fn from_request(
        _alloc: Global,
        request: &Request<'a, T>,
        _ctx: &mut Ctx<T>,
    ) -> Result<GuardOutcome<State<'a, T::Value, KEY>, ()>, NoMemory> {
        match State::get(request.managed()) {
            Some(state) => Ok(Outcome::Success(state)),
            None => Ok(Outcome::Error((Status::InternalServerError, ()))),
        }
    }
}

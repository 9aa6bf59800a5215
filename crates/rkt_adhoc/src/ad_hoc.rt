//! Fairings of one kind, each over a change that the caller made.
ghost use Rattle.std.specs.Prelude.{◌≡◌, ⊤};
ghost use Rattle.rkt_request.specs.Lent.{MayGrow};
ghost use Rattle.rkt_router.specs.Steps.{StepsTo};

use crate::{AtOnce, ChangesRequest, ChangesResponse};
use rkt_base::NoMemory;
use rkt_fairing::{Attach, Fairing, Info, Kind, Parts, Quiet};
use rkt_http::Key;
use rkt_message::Response;
use rkt_request::{Body0, Ctx, Request, Types};
use rkt_router::Step;
use std::alloc::Global;

/// What makes fairings of one kind.
pub struct AdHoc;

impl AdHoc {
    /// One that is called for requests.
    pub fn on_request<C>(name: &'static str, key: Key, change: C) -> OnRequest<C>
        ensures name { result.name.now ≡ name.now }
        ensures key { result.key ≡ key }
        ensures change { result.change ≡ change }
    {
        OnRequest { name, key, change }
    }

    /// One that is called for responses.
    pub fn on_response<C>(name: &'static str, key: Key, change: C) -> OnResponse<C>
        ensures name { result.name.now ≡ name.now }
        ensures key { result.key ≡ key }
        ensures change { result.change ≡ change }
    {
        OnResponse { name, key, change }
    }
}

/// A change of requests under a name.
#[derive(Drop)]
pub struct OnRequest<C> {
    pub name: &'static str,
    pub key: Key,
    pub change: C,
}

impl<C> Attach for OnRequest<C> {
    ghost use Rattle.rkt_adhoc.specs.AdHoc.{request_kind};

    ghost key = { λ ad_hoc. ad_hoc.key };

    ghost info = { λ ad_hoc. record { name = ad_hoc.name.now; kind = request_kind } };

    fn key(&self) -> Key {
        self.key
    }

    fn info(&self) -> Info {
        Info {
            name: self.name,
            kind: Kind::Request,
        }
    }
}

impl<A: Types, C: ChangesRequest<A>> ChangesRequest<A> for OnRequest<C> {
    ghost may = { λ ad_hoc. C.may ad_hoc.change };

    fn on_request(
        &self,
        alloc: Global,
        request: &mut Request<'_, A>,
        body: &mut Body0<A>,
        ctx: &mut Ctx<A>,
    ) -> Result<(), NoMemory> {
        self.change.on_request(alloc, request, body, ctx)
    }
}

impl<A: Parts, C: ChangesRequest<A>> Fairing<A> for OnRequest<C> {
    type Ignites = Quiet;

    type Lifts = Quiet;

    type Requests = AtOnce;

    type Responses = Quiet;

    type Shuts = Quiet;
}

impl<C> OnRequest<C> {
    /// Makes the change once, and answers whether there was memory.
    pub fn run<A: Types>(
        &self,
        alloc: Global,
        request: &mut Request<'_, A>,
        body: &mut Body0<A>,
        ctx: &mut Ctx<A>,
    ) -> Step<()>
    where
        C: ChangesRequest<A>,
        ensures changes { StepsTo result
            (λ _. C.may self.now.change (record { request = request.old; body = body.old; kept = ctx.old.kept })
            (record { request = request.new; body = body.new; kept = ctx.new.kept })) ⊤ }
        // For want of memory too the request lends what it lent, and what the context leaves has grown.
        ensures config { request.new.config ≡ request.old.config }
        ensures managed { request.new.managed ≡ request.old.managed }
        ensures grows { MayGrow ctx.old ctx.new }
    {
        match self.change.on_request(alloc, request, body, ctx) {
            Ok(()) => Step::Done(()),
            Err(_) => Step::Starved,
        }
    }
}

/// A change of responses under a name.
#[derive(Drop)]
pub struct OnResponse<C> {
    pub name: &'static str,
    pub key: Key,
    pub change: C,
}

impl<C> Attach for OnResponse<C> {
    ghost use Rattle.rkt_adhoc.specs.AdHoc.{response_kind};

    ghost key = { λ ad_hoc. ad_hoc.key };

    ghost info = { λ ad_hoc. record { name = ad_hoc.name.now; kind = response_kind } };

    fn key(&self) -> Key {
        self.key
    }

    fn info(&self) -> Info {
        Info {
            name: self.name,
            kind: Kind::Response,
        }
    }
}

impl<A: Types, C: ChangesResponse<A>> ChangesResponse<A> for OnResponse<C> {
    ghost may = { λ ad_hoc. C.may ad_hoc.change };

    fn on_response(
        &self,
        alloc: Global,
        request: &Request<'_, A>,
        response: &mut Response<A::Stream>,
        ctx: &mut Ctx<A>,
    ) -> Result<(), NoMemory> {
        self.change.on_response(alloc, request, response, ctx)
    }
}

impl<A: Parts, C: ChangesResponse<A>> Fairing<A> for OnResponse<C> {
    type Ignites = Quiet;

    type Lifts = Quiet;

    type Requests = Quiet;

    type Responses = AtOnce;

    type Shuts = Quiet;
}

impl<C> OnResponse<C> {
    /// Makes the change once, and answers whether there was memory.
    pub fn run<A: Types>(
        &self,
        alloc: Global,
        request: &Request<'_, A>,
        response: &mut Response<A::Stream>,
        ctx: &mut Ctx<A>,
    ) -> Step<()>
    where
        C: ChangesResponse<A>,
        ensures changes { StepsTo result
            (λ _. C.may self.now.change request.now (record { response = response.old; kept = ctx.old.kept })
            (record { response = response.new; kept = ctx.new.kept })) ⊤ }
        ensures grows { MayGrow ctx.old ctx.new }
    {
        match self.change.on_response(alloc, request, response, ctx) {
            Ok(()) => Step::Done(()),
            Err(_) => Step::Starved,
        }
    }
}

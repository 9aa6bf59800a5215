//! The application that lines speak of.
ghost use Rattle.rkt_request.specs.Lent.{MayGrow};

use crate::actor::{Actor, fairings_of};
use crate::setting::{Place, Setting};
use cases::CaseError;
use rkt_base::{NoMemory, Want};
use rkt_data::{Gate, MemorySource, Source};
use rkt_http::{Method, Outcome, Status};
use rkt_life::{App, DefaultCatcher, Fairings, Ignite, Orbit, Parts, Rocket, TablesOf};
use rkt_message::Response;
use rkt_request::{Body0, Config, ConfigTable, Ctx, Managed, Request, Types};
use rkt_router::{Handler, Route, RouteOutcome, Router, Step};
use rkt_turn::{Reason, TripWire};
use std::alloc::Global;

/// Answers with its own text, once it was Pending so often. One that says `stop` or `trip` notifies the wire in its
/// first poll, and the latter answers with the word of the trip that its last Gate shows.
#[derive(Drop)]
pub struct Saying {
    text: String,
    waits: u32,
}

/// A plain text.
fn page<S: Source>(alloc: Global, text: &str) -> Result<Response<S>, NoMemory> {
    let text = String::from_str(alloc, text)?;
    let mut response = Response::new(alloc);
    response.set_status(Status::Ok);
    response.adjoin_raw_header("Content-Type", "text/plain; charset=utf-8")?;
    response.set_sized_body(None, text.into_bytes());
    Ok(response)
}

/// Notifies the wire, of the one reason, where what is said asks for it.
fn notify(text: &str, ctx: &mut Ctx<Site>)
    ensures grows { MayGrow ctx.old ctx.new }
{
    if text == "stop" || text == "trip" {
        ctx.shutdown().notify(Stopped);
    }
}

/// The page of what is said under a Gate.
fn said<S: Source>(alloc: Global, text: &str, gate: Gate) -> Result<Response<S>, NoMemory> {
    match gate.tripped {
        Some(word) if text == "trip" => {
            let text = format!(in alloc; "trip {word}")?;
            page(alloc, text.as_str())
        }
        _ => page(alloc, text),
    }
}

impl Handler<Site> for Saying {
    ghost use Rattle.cases_serve.specs.Sayings.{saying};
    ghost use Rattle.cases_serve.specs.SayingLaws.{saying_keeps};

    /// How often it was Pending.
    type Task = u32;

    ghost calling = { saying };

    fn start(&self, _request: &Request<'_, Site>, _body: Body0<Site>) -> u32 {
        0
    }

    fn poll(
        &self,
        alloc: Global,
        task: &mut u32,
        _request: &Request<'_, Site>,
        ctx: &mut Ctx<Site>,
    ) -> Step<RouteOutcome<Site>> {
        if *task == 0 {
            notify(self.text.as_str(), ctx);
        }
        if *task < self.waits {
            *task += 1;
            return Step::Pending;
        }
        match said(alloc, self.text.as_str(), ctx.gate()) {
            Ok(response) => Step::Done(Outcome::Success(response)),
            Err(_) => Step::Starved,
        }
    }

    ghost keeps = { saying_keeps _ };
}

/// The one reason for a shutdown.
#[derive(Clone, Copy)]
pub struct Stopped;

impl Reason for Stopped {
    ghost use Rattle.std.specs.Prelude.{◌≡◌};

    ghost allowed = { λ word. word ≡ 1 };

    fn word(self) -> u64 {
        1
    }
}

pub struct Site;

impl Types for Site {
    type Source = MemorySource;

    type Stream = MemorySource;

    type Cached = u64;

    type Value = u64;

    type Reason = Stopped;
}

impl Parts for Site {
    type Handler = Saying;

    type Catch = DefaultCatcher;

    type Sentinel = ();
}

impl App for Site {
    type Fairing = Actor;
}

type SiteRouter = Router<Saying, DefaultCatcher, ()>;

/// A route of GET that says its text.
pub type SiteRoute = Route<Saying, ()>;

fn route_of(alloc: Global, path: &str, saying: Saying) -> Result<SiteRoute, CaseError> {
    match SiteRoute::new(alloc, Method::Get, path, saying) {
        Ok(route) => Ok(route),
        Err(Want::Refused(_)) => Err(CaseError::Refused),
        Err(Want::NoMemory) => Err(CaseError::NoMemory),
    }
}

fn push_route(alloc: Global, routes: &mut Vec<SiteRoute>, place: &Place) -> Result<(), CaseError> {
    let text = place.text.clone()?;
    let waits = place.waits;
    let route = route_of(alloc, place.path.as_str(), Saying { text, waits })?;
    Ok(routes.push(route)?)
}

/// The routes of these places.
pub fn routes_of(alloc: Global, places: &[Place]) -> Result<Vec<SiteRoute>, CaseError> {
    let mut routes = Vec::new(alloc);
    for place in places {
        push_route(alloc, &mut routes, place)?;
    }
    Ok(routes)
}

fn router_of(alloc: Global, places: &[Place]) -> Result<SiteRouter, CaseError> {
    let mut router = SiteRouter::new(alloc);
    for route in routes_of(alloc, places)? {
        router.add_route(route)?;
    }
    Ok(router)
}

fn assembled(
    alloc: Global,
    fairings: Fairings<Actor>,
    router: SiteRouter,
) -> Result<Rocket<Ignite, Site>, NoMemory> {
    let config = Config::default(alloc)?;
    let tables = TablesOf {
        router,
        fairings,
        config,
        managed: Managed::new(alloc),
    };
    let (_wire, shutdown) = TripWire::new(alloc)?;
    let orbiting = Rocket::<Orbit, Site>::from_parts(tables, ConfigTable::new(alloc), shutdown);
    Ok(orbiting.into_ignite())
}

/// A rocket with the routes and the fairings of the setting.
pub fn rocket(alloc: Global, setting: &Setting) -> Result<Rocket<Ignite, Site>, CaseError> {
    let fairings = fairings_of(alloc, setting.fairings.as_slice())?;
    let router = router_of(alloc, setting.routes.as_slice())?;
    Ok(assembled(alloc, fairings, router)?)
}

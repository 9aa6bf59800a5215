//! What answers the application's requests and statuses.
ghost use Rattle.std.specs.Prelude.{◌≡◌};
ghost use Rattle.rkt_request.specs.Lent.{MayGrow};
ghost use Rattle.cases_exchange.specs.Pages.{Ends, IsLast};

use crate::acts::{Said, does, echoed, mark, peeked};
use crate::app::Site;
use rkt_base::NoMemory;
use rkt_data::MemorySource;
use rkt_http::{Outcome, Status};
use rkt_request::{Body0, Ctx, HasBody, Request};
use rkt_response::Response;
use rkt_router::{CatchHandler, Handler, RouteOutcome, Step};
use std::alloc::Global;

/// A response that is made with care.
#[derive(Clone, Copy, Debug)]
pub enum Made {
    /// Leads to `/page`, with a message.
    Flash,
    /// With a header whose value is a line feed.
    Broken,
    /// 204, with a body and with headers that tell of it.
    NoContent,
    /// 304, with a body.
    NotModified,
    /// With the name of a server of its own.
    Served,
    /// With a body that a source gives.
    Stream,
    /// A cookie is added and removed.
    Removal,
    /// A value is cached.
    Cached,
    /// The wire is notified, of the one reason.
    Notice,
    /// The page's own 404, which is no error.
    Missing,
    /// Tells the method of the request, and the route that it was tried on last.
    Facts,
}

/// What a page does once.
#[derive(Clone, Copy, Debug)]
pub enum Act {
    /// Greets the first segment behind the base, whose age is the second; where that is no small number, it leaves the
    /// request to another route, with 404.
    Greets,
    Says(&'static str),
    /// Says the text of the body.
    Echoes,
    Makes(Made),
    /// Leaves the request to another route, with this code.
    Passes(u16),
    /// The same, with the first bytes of the body peeked at.
    Peeks(u16),
    /// Errs as a route, and refuses as a catcher.
    Errs(u16),
    /// Fails its turn.
    Faults,
}

/// What is called for a route and for a catcher: each answers in both places.
#[derive(Clone, Copy, Debug)]
pub enum Page {
    Does(Act),
    /// Adds a cookie of this name, with the value 1, first.
    Marks(&'static str, Act),
    /// Is Pending so many times first.
    Waits(u32, Act),
}

impl Page {
    ghost use Rattle.cases_exchange.specs.Pages.{pendings};

    /// How often it is Pending.
    fn pendings(self) -> u32
        ensures { result ≡ pendings self }
    {
        match self {
            Page::Waits(turns, _) => turns,
            Page::Does(_) | Page::Marks(..) => 0,
        }
    }

    /// The cookie that it adds.
    fn mark(self) -> Option<&'static str> {
        match self {
            Page::Marks(name, _) => Some(name),
            Page::Does(_) | Page::Waits(..) => None,
        }
    }

    /// What it does then.
    fn last(self) -> Act {
        match self {
            Page::Does(act) | Page::Marks(_, act) | Page::Waits(_, act) => act,
        }
    }
}

/// A call of a route: how often it was Pending, and the body until it answers.
#[derive(Drop)]
pub struct Trying<B> {
    turn: u32,
    body: Option<B>,
}

/// A call of a catcher.
#[derive(Clone, Copy, Drop)]
pub struct Catching {
    turn: u32,
    status: Status,
}

impl Handler<Site> for Page {
    ghost use Rattle.cases_exchange.specs.Pages.{trying};
    ghost use Rattle.cases_exchange.specs.PageLaws.{trying_keeps};

    type Task = Trying<Body0<Site>>;

    ghost calling = { trying ⟦<Site as HasBody>⟧.whole };

    fn start(&self, _request: &Request<'_, Site>, body: Body0<Site>) -> Trying<Body0<Site>> {
        Trying {
            turn: 0,
            body: Some(body),
        }
    }

    fn poll(
        &self,
        alloc: Global,
        task: &mut Trying<Body0<Site>>,
        request: &Request<'_, Site>,
        ctx: &mut Ctx<Site>,
    ) -> Step<RouteOutcome<Site>> {
        if task.turn < self.pendings() {
            task.turn += 1;
            return Step::Pending;
        }
        match task.body.take() {
            Some(body) => replied(alloc, *self, request, body, ctx),
            None => Step::Fault,
        }
    }

    ghost keeps = { trying_keeps _ };
}

/// The reply of a route that says so; a Forward gives the body back.
fn reply(said: Result<Said, NoMemory>, body: Body0<Site>) -> Step<RouteOutcome<Site>>
    ensures { Ends ⟦<Site as HasBody>⟧.whole body result }
{
    match said {
        Ok(Said::Forward(status)) => Step::Done(Outcome::Forward((body, status))),
        said => {
            drop(body);
            spent(said)
        }
    }
}

/// The same of one that has read its body, and so leaves none.
fn spent(said: Result<Said, NoMemory>) -> Step<RouteOutcome<Site>>
    ensures { (body : _) → Ends ⟦<Site as HasBody>⟧.whole body result }
{
    match said {
        Ok(Said::Response(response)) => Step::Done(Outcome::Success(response)),
        Ok(Said::Error(status)) => Step::Done(Outcome::Error(status)),
        Ok(Said::Forward(_) | Said::Fault) => Step::Fault,
        Err(_) => Step::Starved,
    }
}

fn acted(
    alloc: Global,
    act: Act,
    request: &Request<'_, Site>,
    body: Body0<Site>,
    ctx: &mut Ctx<Site>,
) -> Step<RouteOutcome<Site>>
    ensures ends { Ends ⟦<Site as HasBody>⟧.whole body result }
    ensures grows { MayGrow ctx.old ctx.new }
{
    match act {
        Act::Echoes => spent(echoed(alloc, request, body, ctx)),
        Act::Peeks(code) => {
            let body = peeked(body, ctx.gate());
            Step::Done(Outcome::Forward((body, Status::new(code))))
        }
        act => reply(does(alloc, act, request, ctx), body),
    }
}

fn replied(
    alloc: Global,
    page: Page,
    request: &Request<'_, Site>,
    body: Body0<Site>,
    ctx: &mut Ctx<Site>,
) -> Step<RouteOutcome<Site>>
    ensures ends { Ends ⟦<Site as HasBody>⟧.whole body result }
    ensures grows { MayGrow ctx.old ctx.new }
{
    match mark(alloc, page.mark(), ctx) {
        Ok(()) => acted(alloc, page.last(), request, body, ctx),
        Err(_) => {
            drop(body);
            Step::Starved
        }
    }
}

/// What a catcher answers that says so.
fn answer(
    said: Result<Said, NoMemory>,
    status: Status,
) -> Step<Result<Response<MemorySource>, Status>>
    ensures { IsLast result }
{
    match said {
        Ok(Said::Response(mut response)) => {
            response.set_status(status);
            Step::Done(Ok(response))
        }
        Ok(Said::Error(status)) => Step::Done(Err(status)),
        Ok(Said::Forward(_) | Said::Fault) => Step::Fault,
        Err(_) => Step::Starved,
    }
}

fn answered(
    alloc: Global,
    page: Page,
    status: Status,
    request: &Request<'_, Site>,
    ctx: &mut Ctx<Site>,
) -> Step<Result<Response<MemorySource>, Status>>
    ensures last { IsLast result }
    ensures grows { MayGrow ctx.old ctx.new }
{
    if mark(alloc, page.mark(), ctx).is_err() {
        return Step::Starved;
    }
    answer(does(alloc, page.last(), request, ctx), status)
}

impl CatchHandler<Site> for Page {
    ghost use Rattle.cases_exchange.specs.Pages.{catching};
    ghost use Rattle.cases_exchange.specs.PageLaws.{catching_keeps};

    type Task = Catching;

    ghost calling = { catching };

    fn start(&self, status: Status, _request: &Request<'_, Site>) -> Catching {
        Catching { turn: 0, status }
    }

    fn poll(
        &self,
        alloc: Global,
        task: &mut Catching,
        request: &Request<'_, Site>,
        ctx: &mut Ctx<Site>,
    ) -> Step<Result<Response<MemorySource>, Status>> {
        if task.turn < self.pendings() {
            task.turn += 1;
            return Step::Pending;
        }
        answered(alloc, *self, task.status, request, ctx)
    }

    ghost keeps = { catching_keeps };
}

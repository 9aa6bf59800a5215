//! The routes: what each answers to a request.
ghost use Rattle.std.specs.Prelude.{◌≡◌, ◌∷◌, [], IfOk, OnOk, OnErr};
ghost use Rattle.rkt_router.specs.Steps.{StepsTo};
ghost use Rattle.rkt_sample.specs.Replies.{left_by};
ghost use Rattle.rkt_sample.specs.Routing.{Replies};

use crate::replies::{after_mark, broken, echo, flash, greet, say, stop};
use crate::source::ToldSource;
use crate::stop::StopReason;
use rkt_base::NoMemory;
use rkt_http::{Outcome, Status};
use rkt_request::{Body0, Ctx, Request, Types};
use rkt_router::{Handler, RouteOutcome, Step};
use std::alloc::Global;

/// A route of the application, by what answers it.
#[derive(Clone, Copy, Debug, PartialEq, Eq)]
pub enum SampleRoute {
    /// GET `/hello/<name>/<age>`: a greeting.
    Hello,
    /// GET `/page`: a text.
    Page,
    /// HEAD `/page`: left to another route.
    HeadPage,
    /// HEAD `/gone`: left to another route.
    HeadGone,
    /// POST `/form`: a text.
    PostForm,
    /// DELETE `/form`: a text.
    DeleteForm,
    /// GET `/trial`, of rank 1: adds a cookie, and leaves the request to another route.
    Trial,
    /// GET `/trial`, of rank 2: a text.
    Tried,
    /// GET `/spoiled`: adds a cookie, and errs.
    Spoiled,
    /// GET `/flash`: leads to `/page`, with a message.
    Flash,
    /// POST `/echo`: the text of the body.
    Echo,
    /// GET `/stop`: notifies the handle of the server, and says so.
    Stop,
    /// GET `/broken`: an empty response that cannot be sent.
    Broken,
}

impl<T: Types<Source = S, Reason = R>, S: ToldSource, R: StopReason> Handler<T> for SampleRoute {
    ghost use Rattle.rkt_sample.specs.Routing.{route_calling};
    ghost use Rattle.rkt_sample.specs.RoutingLaws.{routes_keep};

    type Task = Option<Body0<T>>;

    ghost calling = { route_calling S.Source.meaning R.stop_word };

    fn start(&self, _request: &Request<'_, T>, body: Body0<T>) -> Option<Body0<T>> {
        Some(body)
    }

    fn poll(
        &self,
        alloc: Global,
        task: &mut Option<Body0<T>>,
        request: &Request<'_, T>,
        ctx: &mut Ctx<T>,
    ) -> Step<RouteOutcome<T>> {
        match task.take() {
            Some(body) => step(alloc, *self, request, body, ctx),
            None => Step::Starved,
        }
    }

    ghost keeps = { routes_keep S.Source.meaning R.stop_word };
}

/// The step of a route that has its body.
fn step<T: Types<Source = S, Reason = R>, S: ToldSource, R: StopReason>(
    alloc: Global,
    route: SampleRoute,
    request: &Request<'_, T>,
    body: Body0<T>,
    ctx: &mut Ctx<T>,
) -> Step<RouteOutcome<T>>
    ensures { StepsTo result
        (λ reply. Replies S.Source.meaning route (record { request = request.now; body = body }) (ctx.old.gate ∷ []) reply
        × (ctx.new ≡ record ctx.old { kept = left_by R.stop_word route ctx.old.kept })) (ctx.new ≡ ctx.old) }
{
    match reply(alloc, route, request, body, ctx) {
        Ok(reply) => Step::Done(reply),
        Err(_) => Step::Starved,
    }
}

/// What a route replies, once there is memory.
fn reply<T: Types<Source = S, Reason = R>, S: ToldSource, R: StopReason>(
    alloc: Global,
    route: SampleRoute,
    request: &Request<'_, T>,
    body: Body0<T>,
    ctx: &mut Ctx<T>,
) -> Result<RouteOutcome<T>, NoMemory>
    ensures ok { IfOk result
        (Replies S.Source.meaning route (record { request = request.now; body = body }) (ctx.old.gate ∷ [])) }
    ensures kept { OnOk result (ctx.new ≡ record ctx.old { kept = left_by R.stop_word route ctx.old.kept }) }
    ensures err { OnErr result (ctx.new ≡ ctx.old) }
{
    match route {
        SampleRoute::Hello => greet(alloc, request, body, ctx),
        SampleRoute::Page => say(alloc, request, ctx, "hello"),
        SampleRoute::HeadPage | SampleRoute::HeadGone => {
            Ok(Outcome::Forward((body, Status::UnprocessableEntity)))
        }
        SampleRoute::PostForm => say(alloc, request, ctx, "post"),
        SampleRoute::DeleteForm => say(alloc, request, ctx, "delete"),
        SampleRoute::Trial => after_mark(alloc, ctx, Outcome::Forward((body, Status::NotFound))),
        SampleRoute::Tried => say(alloc, request, ctx, "tried"),
        SampleRoute::Spoiled => after_mark(alloc, ctx, Outcome::Error(Status::ImATeapot)),
        SampleRoute::Flash => flash(alloc, request, ctx),
        SampleRoute::Echo => echo(alloc, request, body, ctx),
        SampleRoute::Stop => stop(alloc, request, ctx),
        SampleRoute::Broken => Ok(Outcome::Success(broken(alloc)?)),
    }
}

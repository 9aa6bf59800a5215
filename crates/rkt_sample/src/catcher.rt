//! The catchers: what each answers for a status.
ghost use Rattle.std.specs.Prelude.{◌≡◌, Some, codes};
ghost use Rattle.rkt_router.specs.Steps.{StepsTo};
ghost use Rattle.rkt_response.specs.Responder.{refusal};
ghost use Rattle.rkt_sample.specs.Added.{mark_of, with_added};
ghost use Rattle.rkt_sample.specs.Catching.{tells};

use crate::cookies::mark;
use rkt_base::Want;
use rkt_http::Status;
use rkt_request::{Ctx, Request, Types};
use rkt_response::{Responder, Response};
use rkt_router::{CatchHandler, Step};
use std::alloc::Global;

/// A catcher of the application, by what answers for it.
#[derive(Clone, Copy, Debug, PartialEq, Eq)]
pub enum SampleCatcher {
    /// 404 at `/a`: a text.
    NotFound,
    /// Any status at `/a/b`: a text.
    Default,
    /// 404 at `/bad`: refuses.
    BadNotFound,
    /// 500 at `/bad`: adds a cookie, and refuses.
    BadFailed,
}

impl<T: Types> CatchHandler<T> for SampleCatcher {
    ghost use Rattle.rkt_sample.specs.Catching.{catch_calling};
    ghost use Rattle.rkt_sample.specs.CatchingLaws.{catchers_keep};

    type Task = Status;

    ghost calling = { catch_calling };

    fn start(&self, status: Status, _request: &Request<'_, T>) -> Status {
        status
    }

    fn poll(
        &self,
        alloc: Global,
        task: &mut Status,
        request: &Request<'_, T>,
        ctx: &mut Ctx<T>,
    ) -> Step<Result<Response<T::Stream>, Status>> {
        match self {
            SampleCatcher::NotFound => tell(alloc, *task, request, ctx, "404 at /a"),
            SampleCatcher::Default => tell(alloc, *task, request, ctx, "default at /a/b"),
            SampleCatcher::BadNotFound => Step::Done(Err(Status::ImATeapot)),
            SampleCatcher::BadFailed => refuse_marked(alloc, ctx),
        }
    }

    ghost keeps = { catchers_keep };
}

/// A text, with the status that was called for.
fn tell<T: Types>(
    alloc: Global,
    status: Status,
    request: &Request<'_, T>,
    ctx: &mut Ctx<T>,
    text: &str,
) -> Step<Result<Response<T::Stream>, Status>>
    ensures answer { StepsTo result (λ answer. answer ≡ tells status text.now) (Unit {0}) }
    ensures kept { ctx.new ≡ ctx.old }
{
    match (status, text).respond_to(alloc, request, ctx) {
        Ok(response) => Step::Done(Ok(response)),
        Err(Want::Refused(status)) => Step::Done(Err(status)),
        Err(Want::NoMemory) => Step::Starved,
    }
}

/// Refuses, once the cookie `k` was added.
fn refuse_marked<T: Types>(
    alloc: Global,
    ctx: &mut Ctx<T>,
) -> Step<Result<Response<T::Stream>, Status>>
    ensures { StepsTo result
        (λ answer.
        (answer ≡ refusal 418) × (ctx.new ≡ record ctx.old { kept = with_added (Some (mark_of (codes "k"))) ctx.old.kept }))
        (ctx.new ≡ ctx.old) }
{
    match mark(alloc, "k", ctx) {
        Ok(()) => Step::Done(Err(Status::ImATeapot)),
        Err(_) => Step::Starved,
    }
}

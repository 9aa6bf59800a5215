//! What answers requests and statuses: callbacks of the application that are polled until they are done.
ghost use Rattle.std.specs.Prelude.{◌≡◌};

use crate::Step;
use rkt_http::{Outcome, Status};
use rkt_message::Response;
use rkt_request::{Ctx, HasBody, Request, Types};
use std::alloc::Global;

/// What answers the requests of a route.
pub trait Handler<T: HasBody> {
    ghost use Rattle.rkt_request.specs.Lent.{Kept};
    ghost use Rattle.rkt_router.specs.Callbacks.{Handed, Reply, KeepsHandler};
    ghost use Rattle.rkt_router.specs.Calling.{Calling, Starts, CanPoll, Polls};

    /// A call that is under way. One that was Done is not polled again.
    type Task: Drop;

    /// What a call means.
    ghost calling: { Calling Self (Handed T.Value T.Body) (Kept T.Cached) (Reply T.Stream T.Body) Self.Task };

    /// Begins a call for a request and its body.
    fn start(&self, request: &Request<'_, T>, body: T::Body) -> Self::Task
        ensures { Starts calling self.now (record { request = request.now; body = body }) result };

    /// Goes on with a call, under the Gate of the context.
    fn poll(
        &self,
        alloc: Global,
        task: &mut Self::Task,
        request: &Request<'_, T>,
        ctx: &mut Ctx<T>,
    ) -> Step<Outcome<Response<T::Stream>, Status, (T::Body, Status)>>
        requires begun { (body : T.Body)
            × CanPoll calling self.now (record { request = request.now; body = body }) task.old ctx.old.kept }
        ensures gate { ctx.new.gate ≡ ctx.old.gate }
        ensures polls { (body : T.Body)
            → Polls calling self.now
            (record { request = request.now; body = body }) task.old ctx.old.kept ctx.old.gate result task.new ctx.new.kept };

    /// Originals and floor stay, the log and the cache grow, and a Forward gives the body back.
    ghost keeps: { KeepsHandler T.whole calling };
}

/// What answers for a status.
pub trait CatchHandler<T: Types> {
    ghost use Rattle.std.specs.Prelude.{Result};
    ghost use Rattle.rkt_http.specs.declared.status.Status.{Status};
    ghost use Rattle.rkt_request.specs.Lent.{Kept};
    ghost use Rattle.rkt_message.specs.Response.{ResponseOf};
    ghost use Rattle.rkt_router.specs.Callbacks.{Refused, Keeps};
    ghost use Rattle.rkt_router.specs.Calling.{Calling, Starts, CanPoll, Polls};

    /// A call that is under way. One that was Done is not polled again.
    type Task: Drop;

    /// What a call means.
    ghost calling: { Calling Self (Refused T.Value) (Kept T.Cached) (Result (ResponseOf T.Stream) Status) Self.Task };

    /// Begins a call for the status of a request.
    fn start(&self, status: Status, request: &Request<'_, T>) -> Self::Task
        ensures { Starts calling self.now (record { status = status; request = request.now }) result };

    /// Goes on with a call, under the Gate of the context.
    fn poll(
        &self,
        alloc: Global,
        task: &mut Self::Task,
        request: &Request<'_, T>,
        ctx: &mut Ctx<T>,
    ) -> Step<Result<Response<T::Stream>, Status>>
        requires begun { (status : Status)
            × CanPoll calling self.now (record { status = status; request = request.now }) task.old ctx.old.kept }
        ensures gate { ctx.new.gate ≡ ctx.old.gate }
        ensures polls { (status : Status)
            → Polls calling self.now (record { status = status; request = request.now }) task.old ctx.old.kept ctx.old.gate
            result task.new ctx.new.kept };

    /// Originals and floor stay, and the log and the cache grow.
    ghost keeps: { Keeps calling };
}

//! One call of a callback, turn by turn.
ghost use Rattle.std.specs.Prelude.{◌≡◌, ◌<◌, ◌+◌};
ghost use Rattle.rkt_http.specs.declared.status.Status.{Status};
ghost use Rattle.rkt_source.specs.Cancel.{Cancellable};
ghost use Rattle.rkt_data.specs.Body.{Body};
ghost use Rattle.rkt_request.specs.Lent.{Kept, Grows};
ghost use Rattle.rkt_router.specs.Calling.{Polls};
ghost use Rattle.rkt_router.specs.Calls.{GateRule, GateFits, Making, PolledAs, turn_of};

use crate::{CatchHandler, Handler, RouteOutcome, Step};
use rkt_http::Status;
use rkt_message::Response;
use rkt_request::{Ctx, Request, Types};
use std::alloc::Global;

/// What a whole call gives.
#[derive(Debug, Drop)]
pub enum Final<O> {
    Done(O),
    /// It answered Fault, or was still Pending at its last turn.
    FailedTurn,
    /// There was no memory.
    Starved,
}

/// What one more turn makes of a call.
#[derive(Debug, Drop)]
pub enum Polled<O> {
    /// It is under way.
    Pending,
    Over(Final<O>),
}

impl<O: Drop> Polled<O> {
    /// The turn that a poll makes. A call that is Pending fails its turn where no turn is left behind this one.
    pub fn of(step: Step<O>, left: bool) -> Polled<O>
        ensures { result ≡ turn_of left step }
    {
        match step {
            Step::Pending if left => Polled::Pending,
            Step::Done(answer) => Polled::Over(Final::Done(answer)),
            Step::Starved => Polled::Over(Final::Starved),
            _ => Polled::Over(Final::FailedTurn),
        }
    }
}

/// One more turn of a handler's call, which was Pending so many turns of those that it has.
pub fn turn_handler<T: Types, H: Handler<T>>(
    alloc: Global,
    handler: &H,
    turns: u32,
    turn: u32,
    task: &mut H::Task,
    request: &Request<'_, T>,
    ctx: &mut Ctx<T>,
) -> Polled<RouteOutcome<T>>
    requires underway { (rule : GateRule) × (body : Body (Cancellable T.Source)) × (before : Kept T.Cached)
        × Making H.calling rule turns handler.now
        (record { request = request.now; body = body }) before task.old ctx.old.kept turn }
    ensures gate { ctx.new.gate ≡ ctx.old.gate }
    ensures gives { (rule : GateRule) (body : Body (Cancellable T.Source)) (before : Kept T.Cached)
        → GateFits rule ctx.old.gate
        → Making H.calling rule turns handler.now
        (record { request = request.now; body = body }) before task.old ctx.old.kept turn
        → PolledAs H.calling rule turns handler.now
        (record { request = request.now; body = body }) before result task.new ctx.new.kept (turn + 1) }
    ensures grows { (rule : GateRule) (body : Body (Cancellable T.Source)) (before : Kept T.Cached)
        → Making H.calling rule turns handler.now
        (record { request = request.now; body = body }) before task.old ctx.old.kept turn
        → Grows before ctx.new.kept }
    // It goes on only where its poll was Pending, and a turn is left.
    ensures left { result ≡ Polled.Pending → turn + 1 < turns }
    ensures pending { result ≡ Polled.Pending
        → (body : Body (Cancellable T.Source))
        → Polls H.calling handler.now
        (record { request = request.now; body = body }) task.old ctx.old.kept ctx.old.gate Step.Pending task.new ctx.new.kept }
{
    let step = handler.poll(alloc, task, request, ctx);
    Polled::of(step, turn + 1 < turns)
}

/// One more turn of a catcher's call, which was Pending so many turns of those that it has.
pub fn turn_catch<T: Types, C: CatchHandler<T>>(
    alloc: Global,
    catcher: &C,
    turns: u32,
    turn: u32,
    task: &mut C::Task,
    request: &Request<'_, T>,
    ctx: &mut Ctx<T>,
) -> Polled<Result<Response<T::Stream>, Status>>
    requires underway { (rule : GateRule) × (status : Status) × (before : Kept T.Cached)
        × Making C.calling rule turns catcher.now
        (record { status = status; request = request.now }) before task.old ctx.old.kept turn }
    ensures gate { ctx.new.gate ≡ ctx.old.gate }
    ensures gives { (rule : GateRule) (status : Status) (before : Kept T.Cached)
        → GateFits rule ctx.old.gate
        → Making C.calling rule turns catcher.now
        (record { status = status; request = request.now }) before task.old ctx.old.kept turn
        → PolledAs C.calling rule turns catcher.now
        (record { status = status; request = request.now }) before result task.new ctx.new.kept (turn + 1) }
    ensures grows { (rule : GateRule) (status : Status) (before : Kept T.Cached)
        → Making C.calling rule turns catcher.now
        (record { status = status; request = request.now }) before task.old ctx.old.kept turn
        → Grows before ctx.new.kept }
    // It goes on only where its poll was Pending, and a turn is left.
    ensures left { result ≡ Polled.Pending → turn + 1 < turns }
    ensures pending { result ≡ Polled.Pending
        → (status : Status)
        → Polls C.calling catcher.now (record { status = status; request = request.now }) task.old ctx.old.kept ctx.old.gate
        Step.Pending task.new ctx.new.kept }
{
    let step = catcher.poll(alloc, task, request, ctx);
    Polled::of(step, turn + 1 < turns)
}

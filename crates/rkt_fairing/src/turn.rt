//! One call of a fairing, turn by turn.
ghost use Rattle.std.specs.Prelude.{◌≡◌, ◌<◌, ◌+◌};
ghost use Rattle.rkt_source.specs.Cancel.{Cancellable};
ghost use Rattle.rkt_data.specs.Body.{Body};
ghost use Rattle.rkt_request.specs.Lent.{Grows};
ghost use Rattle.rkt_router.specs.Calling.{Polls};
ghost use Rattle.rkt_router.specs.Calls.{GateRule, GateFits, Making, PolledAs};
ghost use Rattle.rkt_router.specs.Callbacks.{RequestAt};
ghost use Rattle.rkt_fairing.specs.Callbacks.{RequestGrows, ResponseAt};

use crate::{RequestCallback, ResponseCallback};
use rkt_message::Response;
use rkt_request::{Body0, Ctx, Request, Types};
use rkt_router::{Polled, Step};
use std::alloc::Global;

/// One more turn of a fairing's call for a request, which was Pending so many turns of those that it has.
pub fn turn_request<T: Types, F, P: RequestCallback<T, F>>(
    alloc: Global,
    fairing: &F,
    turns: u32,
    turn: u32,
    task: &mut P::Task,
    request: &mut Request<'_, T>,
    body: &mut Body0<T>,
    ctx: &mut Ctx<T>,
) -> Polled<()>
    requires underway { (rule : GateRule) × (before : RequestAt T.Value (Body (Cancellable T.Source)) T.Cached)
        × Making P.calling rule turns fairing.now tt before task.old
        (record { request = request.old; body = body.old; kept = ctx.old.kept }) turn }
    ensures gate { ctx.new.gate ≡ ctx.old.gate }
    ensures gives { (rule : GateRule) (before : RequestAt T.Value (Body (Cancellable T.Source)) T.Cached)
        → GateFits rule ctx.old.gate
        → Making P.calling rule turns fairing.now tt before task.old
        (record { request = request.old; body = body.old; kept = ctx.old.kept }) turn
        → PolledAs P.calling rule turns fairing.now tt before result task.new
        (record { request = request.new; body = body.new; kept = ctx.new.kept }) (turn + 1) }
    ensures grows { (rule : GateRule) (before : RequestAt T.Value (Body (Cancellable T.Source)) T.Cached)
        → Making P.calling rule turns fairing.now tt before task.old
        (record { request = request.old; body = body.old; kept = ctx.old.kept }) turn
        → RequestGrows before (record { request = request.new; body = body.new; kept = ctx.new.kept }) }
    // It goes on only where its poll was Pending, and a turn is left.
    ensures left { result ≡ Polled.Pending → turn + 1 < turns }
    ensures pending { result ≡ Polled.Pending
        → Polls P.calling fairing.now tt task.old (record { request = request.old; body = body.old; kept = ctx.old.kept })
        ctx.old.gate Step.Pending task.new (record { request = request.new; body = body.new; kept = ctx.new.kept }) }
{
    let step = P::poll(fairing, alloc, task, request, body, ctx);
    Polled::of(step, turn + 1 < turns)
}

/// One more turn of a fairing's call for the response to a request, which was Pending so many turns of those that it has.
pub fn turn_response<T: Types, F, P: ResponseCallback<T, F>>(
    alloc: Global,
    fairing: &F,
    turns: u32,
    turn: u32,
    task: &mut P::Task,
    request: &Request<'_, T>,
    response: &mut Response<T::Stream>,
    ctx: &mut Ctx<T>,
) -> Polled<()>
    requires underway { (rule : GateRule) × (before : ResponseAt T.Stream T.Cached)
        × Making P.calling rule turns fairing.now request.now before task.old
        (record { response = response.old; kept = ctx.old.kept }) turn }
    ensures gate { ctx.new.gate ≡ ctx.old.gate }
    ensures gives { (rule : GateRule) (before : ResponseAt T.Stream T.Cached)
        → GateFits rule ctx.old.gate
        → Making P.calling rule turns fairing.now request.now before task.old
        (record { response = response.old; kept = ctx.old.kept }) turn
        → PolledAs P.calling rule turns fairing.now request.now before result task.new
        (record { response = response.new; kept = ctx.new.kept }) (turn + 1) }
    ensures grows { (rule : GateRule) (before : ResponseAt T.Stream T.Cached)
        → Making P.calling rule turns fairing.now request.now before task.old
        (record { response = response.old; kept = ctx.old.kept }) turn
        → Grows before.kept ctx.new.kept }
    // It goes on only where its poll was Pending, and a turn is left.
    ensures left { result ≡ Polled.Pending → turn + 1 < turns }
    ensures pending { result ≡ Polled.Pending
        → Polls P.calling fairing.now request.now task.old (record { response = response.old; kept = ctx.old.kept })
        ctx.old.gate Step.Pending task.new (record { response = response.new; kept = ctx.new.kept }) }
{
    let step = P::poll(fairing, alloc, task, request, response, ctx);
    Polled::of(step, turn + 1 < turns)
}

//! The walk over the routes of a request.
ghost use Rattle.std.specs.Prelude.{◌≡◌, ◌+◌, None};
ghost use Rattle.rkt_router.specs.Left.{left};
ghost use Rattle.rkt_router.specs.Calls.{GateRule};
ghost use Rattle.rkt_source.specs.Cancel.{Cancellable};
ghost use Rattle.rkt_data.specs.Body.{Body};
ghost use Rattle.rkt_routing.specs.Beginning.{Beginning};
ghost use Rattle.rkt_routing.specs.Routed.{is_retried, mounted};
ghost use Rattle.rkt_routing.specs.Ranks.{RankDecreases, again_rank, next_rank, trying_rank};
ghost use Rattle.rkt_routing.specs.Recorded.{handler_answer, recorded};
ghost use Rattle.rkt_routing.specs.Relations.{relations};
ghost use Rattle.rkt_routing.specs.Invariant.{Forwards, LeadsOn, Moves, Replied, RouteTurned, Tried};

use crate::stage::{LiveOf, Moved, MovedOf, RouteTask, Stage};
use crate::{Answer, TableOf, Which, recorded};
use rkt_http::{Method, Outcome, Status};
use rkt_message::Response;
use rkt_request::{Body0, Mounted, Request, Types};
use rkt_router::{CatchHandler, Final, Handler, Polled, Route, RouteOutcome};
use std::alloc::Global;

// Makes a route the one that a request is tried on.
fn mount<T: Types, H, N>(request: &mut Request<'_, T>, route: &Route<H, N>, position: usize)
    ensures { request.new ≡ mounted request.old route.now position }
{
    request.set_route(Mounted {
        position,
        base_segments: route.uri.base_origin().segments().len(),
    });
}

// Finds the next route and begins its call, or is done with the walk.
pub(crate) fn begin_route<T: Types, H: Handler<T> + Drop, K: CatchHandler<T> + Drop, N: Drop>(
    table: &TableOf<'_, H, K, N>,
    live: &mut LiveOf<'_, T>,
    behind: Option<usize>,
    body: Body0<T>,
    status: Status,
    again: bool,
) -> MovedOf<T, H, K>
    ensures gives { LeadsOn H.calling K.calling table.now live.old (Stage.Next behind body status again) live.new result }
    ensures gate { live.new.ctx.gate ≡ live.old.ctx.gate }
    ensures falls { RankDecreases table.now (next_rank table.now behind again) result }
{
    match table.next_try(&live.request, behind) {
        None => forwarded(table, live, body, status, again),
        Some(position) => {
            let route = table.route(position);
            mount(&mut live.request, route, position);
            let task = route.handler.start(&live.request, body);
            Moved::Going(Stage::Trying(RouteTask {
                position,
                task,
                turn: 0,
                again,
            }))
        }
    }
}

// Whether a request that was forwarded is walked once more.
fn is_retried<T: Types>(request: &Request<'_, T>, again: bool) -> bool
    ensures { result ≡ is_retried request.now.method again }
{
    match request.method() {
        Method::Head => !again,
        _ => false,
    }
}

// A walk has forwarded: a HEAD request is walked once more as a GET, and any other is answered by a catcher.
fn forwarded<T: Types, H: Handler<T> + Drop, K: CatchHandler<T> + Drop, N: Drop>(
    table: &TableOf<'_, H, K, N>,
    live: &mut LiveOf<'_, T>,
    body: Body0<T>,
    status: Status,
    again: bool,
) -> MovedOf<T, H, K>
    ensures gives { (rule : GateRule) (first : Beginning T.Value (Body (Cancellable T.Source)) T.Cached)
        → Forwards (relations H.calling K.calling rule) first table.now live.old body status again
        → Moves (relations H.calling K.calling rule) first table.now live.new result }
    ensures gate { live.new.ctx.gate ≡ live.old.ctx.gate }
    ensures falls { RankDecreases table.now (again_rank (left table.now.router.routes None) again + 4) result }
{
    if is_retried(&live.request, again) {
        live.request.set_method(Method::Get);
        return Moved::Going(Stage::Next {
            behind: None,
            body,
            status: Status::NotFound,
            again: true,
        });
    }
    Moved::Going(Stage::Catch { status })
}

// Where a turn of a route's call leads.
pub(crate) fn route_turned<T: Types, H: Handler<T> + Drop, K: CatchHandler<T> + Drop, N: Drop>(
    table: &TableOf<'_, H, K, N>,
    live: &mut LiveOf<'_, T>,
    call: RouteTask<H::Task>,
    turn: Polled<RouteOutcome<T>>,
) -> MovedOf<T, H, K>
    ensures gives { (rule : GateRule) (first : Beginning T.Value (Body (Cancellable T.Source)) T.Cached)
        → RouteTurned (relations H.calling K.calling rule) first table.now live.old call turn
        → Moves (relations H.calling K.calling rule) first table.now live.new result }
    ensures gate { live.new.ctx.gate ≡ live.old.ctx.gate }
    ensures falls { RankDecreases table.now (trying_rank table.now call.position call.again) result }
{
    match turn {
        Polled::Pending => Moved::Pending(Stage::Trying(call)),
        Polled::Over(reply) => route_over(table, live, call.position, call.again, reply),
    }
}

fn handler_says<S, B>(reply: &Final<Outcome<Response<S>, Status, (B, Status)>>) -> Answer
    ensures { result ≡ handler_answer reply.now }
{
    match reply {
        Final::Done(Outcome::Success(_)) => Answer::Success,
        Final::Done(Outcome::Error(status)) => Answer::Error(*status),
        Final::Done(Outcome::Forward((_, status))) => Answer::Forward(*status),
        Final::FailedTurn | Final::Starved => Answer::FailedTurn,
    }
}

// Records the call of a route.
fn route_over<T: Types, H: Handler<T> + Drop, K: CatchHandler<T> + Drop, N: Drop>(
    table: &TableOf<'_, H, K, N>,
    live: &mut LiveOf<'_, T>,
    position: usize,
    again: bool,
    reply: Final<RouteOutcome<T>>,
) -> MovedOf<T, H, K>
    ensures gives { (rule : GateRule) (first : Beginning T.Value (Body (Cancellable T.Source)) T.Cached)
        → Tried (relations H.calling K.calling rule) first table.now live.old position again reply
        → Moves (relations H.calling K.calling rule) first table.now live.new result }
    ensures gate { live.new.ctx.gate ≡ live.old.ctx.gate }
    ensures falls { RankDecreases table.now (trying_rank table.now position again) result }
{
    let call = recorded(&live.ctx, Which::Route(position), handler_says(&reply));
    match live.calls.push(call) {
        Ok(()) => after_route(table, live, position, again, reply),
        Err(_) => Moved::Starved,
    }
}

// Where a route's reply leads.
fn after_route<T: Types, H: Handler<T> + Drop, K: CatchHandler<T> + Drop, N: Drop>(
    table: &TableOf<'_, H, K, N>,
    live: &LiveOf<'_, T>,
    position: usize,
    again: bool,
    reply: Final<RouteOutcome<T>>,
) -> MovedOf<T, H, K>
    ensures gives { (rule : GateRule) (first : Beginning T.Value (Body (Cancellable T.Source)) T.Cached)
        → Replied (relations H.calling K.calling rule) first table.now live.now position again reply
        → Moves (relations H.calling K.calling rule) first table.now live.now result }
    ensures falls { RankDecreases table.now (trying_rank table.now position again) result }
{
    match reply {
        Final::Done(Outcome::Success(response)) => Moved::Ended(response),
        Final::Done(Outcome::Error(status)) => Moved::Going(Stage::Catch { status }),
        Final::Done(Outcome::Forward((body, status))) => Moved::Going(Stage::Next {
            behind: Some(position),
            body,
            status,
            again,
        }),
        Final::FailedTurn => Moved::Going(Stage::Catch {
            status: Status::InternalServerError,
        }),
        Final::Starved => Moved::Starved,
    }
}

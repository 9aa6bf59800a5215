//! How a status is answered: by the catcher that is chosen for it, or by its default page.
ghost use Rattle.std.specs.Prelude.{◌≡◌, ℕ, Some, None, slice_get};
ghost use Rattle.rkt_dispatch.specs.Finalizing.{settled};
ghost use Rattle.rkt_route.specs.declared.catcher.Catching.TheVariants.{Rocket as ByRocket};
ghost use Rattle.rkt_route.specs.declared.catcher.Catcher.{Catcher};
ghost use Rattle.rkt_router.specs.Calls.{GateRule};
ghost use Rattle.rkt_source.specs.Cancel.{Cancellable};
ghost use Rattle.rkt_data.specs.Body.{Body};
ghost use Rattle.rkt_routing.specs.Beginning.{Beginning};
ghost use Rattle.rkt_routing.specs.Ranks.{RankDecreases, catch_rank, catching_rank};
ghost use Rattle.rkt_routing.specs.Recorded.{catcher_answer};
ghost use Rattle.rkt_routing.specs.Relations.{relations};
ghost use Rattle.rkt_routing.specs.Invariant.{Called, CatcherTurned, Caught, Chosen, LeadsOn, Moves, Pages};

use crate::stage::{CatcherTask, LiveOf, Moved, MovedOf, Stage};
use crate::{Answer, TableOf, Which, recorded};
use rkt_http::Status;
use rkt_message::Response;
use rkt_request::{Ctx, Types};
use rkt_router::{CatchHandler, Catching, Final, Handler, Polled, default_handler};
use std::alloc::Global;

// The changes so far are pending no more.
fn forget_changes<T: Types>(ctx: &mut Ctx<T>)
    ensures kept { ctx.new.kept ≡ settled ctx.old.kept }
    ensures gate { ctx.new.gate ≡ ctx.old.gate }
{
    ctx.cookies_mut().reset_delta();
}

// Forgets the changes so far, and chooses a catcher.
pub(crate) fn begin_catch<T: Types, H: Handler<T> + Drop, K: CatchHandler<T> + Drop, N: Drop>(
    alloc: Global,
    table: &TableOf<'_, H, K, N>,
    live: &mut LiveOf<'_, T>,
    status: Status,
) -> MovedOf<T, H, K>
    ensures gives { LeadsOn H.calling K.calling table.now live.old (Stage.Catch status) live.new result }
    ensures gate { live.new.ctx.gate ≡ live.old.ctx.gate }
    ensures falls { RankDecreases table.now (catch_rank status) result }
{
    forget_changes(&mut live.ctx);
    match table.catch(status, &live.request) {
        None => page(alloc, table, live, status),
        Some((position, catcher)) => match &catcher.handler {
            Catching::App(handler) => Moved::Going(Stage::Catching(CatcherTask {
                status,
                position,
                task: handler.start(status, &live.request),
                turn: 0,
            })),
            Catching::Rocket => page_of_catcher(alloc, table, live, status, position),
        },
    }
}

// Answers with the default page of a status.
fn page<T: Types, H: Handler<T> + Drop, K: CatchHandler<T> + Drop, N: Drop>(
    alloc: Global,
    table: &TableOf<'_, H, K, N>,
    live: &LiveOf<'_, T>,
    status: Status,
) -> MovedOf<T, H, K>
    ensures gives { (rule : GateRule) (first : Beginning T.Value (Body (Cancellable T.Source)) T.Cached)
        → Pages (relations H.calling K.calling rule) first table.now live.now status.code
        → Moves (relations H.calling K.calling rule) first table.now live.now result }
    ensures ends { (before : ℕ) → RankDecreases table.now before result }
{
    match default_handler(alloc, status, &live.request) {
        Ok(response) => Moved::Ended(response),
        Err(_) => Moved::Starved,
    }
}

// Answers by a catcher that has no handler of its own.
fn page_of_catcher<T: Types, H: Handler<T> + Drop, K: CatchHandler<T> + Drop, N: Drop>(
    alloc: Global,
    table: &TableOf<'_, H, K, N>,
    live: &mut LiveOf<'_, T>,
    status: Status,
    position: usize,
) -> MovedOf<T, H, K>
    ensures gives { (rule : GateRule) (first : Beginning T.Value (Body (Cancellable T.Source)) T.Cached) (catcher : Catcher K)
        → slice_get table.now.router.catchers position ≡ Some catcher → catcher.handler ≡ ByRocket
        → Chosen (relations H.calling K.calling rule) first table.now live.old live.old.ctx.kept status (Some position)
        → Moves (relations H.calling K.calling rule) first table.now live.new result }
    ensures gate { live.new.ctx.gate ≡ live.old.ctx.gate }
    ensures falls { RankDecreases table.now (catch_rank status) result }
{
    match default_handler(alloc, status, &live.request) {
        Ok(response) => catch_over(
            alloc,
            table,
            live,
            status,
            position,
            Final::Done(Ok(response)),
        ),
        Err(_) => Moved::Starved,
    }
}

// Where a turn of a catcher's call leads.
pub(crate) fn catch_turned<T: Types, H: Handler<T> + Drop, K: CatchHandler<T> + Drop, N: Drop>(
    alloc: Global,
    table: &TableOf<'_, H, K, N>,
    live: &mut LiveOf<'_, T>,
    call: CatcherTask<K::Task>,
    turn: Polled<Result<Response<T::Stream>, Status>>,
) -> MovedOf<T, H, K>
    ensures gives { (rule : GateRule) (first : Beginning T.Value (Body (Cancellable T.Source)) T.Cached)
        → CatcherTurned (relations H.calling K.calling rule) first table.now live.old call turn
        → Moves (relations H.calling K.calling rule) first table.now live.new result }
    ensures gate { live.new.ctx.gate ≡ live.old.ctx.gate }
    ensures falls { RankDecreases table.now (catching_rank call.status) result }
{
    match turn {
        Polled::Pending => Moved::Pending(Stage::Catching(call)),
        Polled::Over(reply) => catch_over(alloc, table, live, call.status, call.position, reply),
    }
}

type ReplyOf<T> = Final<Result<Response<<T as Types>::Stream>, Status>>;

fn catcher_says<S>(reply: &Final<Result<Response<S>, Status>>) -> Answer
    ensures { result ≡ catcher_answer reply.now }
{
    match reply {
        Final::Done(Ok(_)) => Answer::Caught,
        Final::Done(Err(status)) => Answer::Refused(*status),
        Final::FailedTurn | Final::Starved => Answer::FailedTurn,
    }
}

// Records the call of a catcher.
fn catch_over<T: Types, H: Handler<T> + Drop, K: CatchHandler<T> + Drop, N: Drop>(
    alloc: Global,
    table: &TableOf<'_, H, K, N>,
    live: &mut LiveOf<'_, T>,
    status: Status,
    position: usize,
    reply: ReplyOf<T>,
) -> MovedOf<T, H, K>
    ensures gives { (rule : GateRule) (first : Beginning T.Value (Body (Cancellable T.Source)) T.Cached)
        → Called (relations H.calling K.calling rule) first table.now live.old status position reply
        → Moves (relations H.calling K.calling rule) first table.now live.new result }
    ensures gate { live.new.ctx.gate ≡ live.old.ctx.gate }
    ensures falls { RankDecreases table.now (catching_rank status) result }
{
    let call = recorded(&live.ctx, Which::Catcher(position), catcher_says(&reply));
    match live.calls.push(call) {
        Ok(()) => after_catch(alloc, table, live, status, reply),
        Err(_) => Moved::Starved,
    }
}

// Where a catcher's reply leads.
fn after_catch<T: Types, H: Handler<T> + Drop, K: CatchHandler<T> + Drop, N: Drop>(
    alloc: Global,
    table: &TableOf<'_, H, K, N>,
    live: &LiveOf<'_, T>,
    status: Status,
    reply: ReplyOf<T>,
) -> MovedOf<T, H, K>
    ensures gives { (rule : GateRule) (first : Beginning T.Value (Body (Cancellable T.Source)) T.Cached)
        → Caught (relations H.calling K.calling rule) first table.now live.now status reply
        → Moves (relations H.calling K.calling rule) first table.now live.now result }
    ensures falls { RankDecreases table.now (catching_rank status) result }
{
    match reply {
        Final::Done(Ok(response)) => Moved::Ended(response),
        Final::Starved => Moved::Starved,
        Final::Done(Err(_)) => after_failure(alloc, table, live, status),
        Final::FailedTurn => after_failure(alloc, table, live, status),
    }
}

// A catcher has failed: that of 500 is to answer, and where it was that one, the default page of 500 does.
fn after_failure<T: Types, H: Handler<T> + Drop, K: CatchHandler<T> + Drop, N: Drop>(
    alloc: Global,
    table: &TableOf<'_, H, K, N>,
    live: &LiveOf<'_, T>,
    status: Status,
) -> MovedOf<T, H, K>
    ensures gives { (rule : GateRule) (first : Beginning T.Value (Body (Cancellable T.Source)) T.Cached)
        → Caught (relations H.calling K.calling rule) first table.now live.now status Final.FailedTurn
        → Moves (relations H.calling K.calling rule) first table.now live.now result }
    ensures falls { RankDecreases table.now (catching_rank status) result }
{
    if status.code == 500 {
        return page(alloc, table, live, Status::InternalServerError);
    }
    Moved::Going(Stage::Catch {
        status: Status::InternalServerError,
    })
}

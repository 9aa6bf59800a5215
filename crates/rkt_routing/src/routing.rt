//! How a request is routed, poll by poll.
ghost use Rattle.std.specs.Prelude.{◌≡◌};
ghost use Rattle.rkt_router.specs.Calls.{GateRule, GateFits};
ghost use Rattle.rkt_source.specs.Cancel.{Cancellable};
ghost use Rattle.rkt_data.specs.Body.{Body};
ghost use Rattle.rkt_routing.specs.Beginning.{Beginning};
ghost use Rattle.rkt_routing.specs.Relations.{relations};
ghost use Rattle.rkt_routing.specs.Invariant.{PolledGives, InvariantAt, begins};

use crate::catching::{begin_catch, catch_turned};
use crate::stage::{Live, LiveOf, Moved, Stage, StageOf, Underway, UnderwayOf};
use crate::trying::{begin_route, route_turned};
use crate::{Progress, RoutedOf, TableOf};
use rkt_base::Seq;
use rkt_data::Gate;
use rkt_http::Status;
use rkt_request::{Bad, Body0, Ctx, Request, Types};
use rkt_router::{CatchHandler, Handler, Router, turn_catch, turn_handler};
use rkt_turn::Shutdown;
use std::alloc::Global;
use std::marker::Model;

/// A request on its way to its response, by handlers H and catchers K.
#[derive(Drop)]
pub struct RoutingOf<'a, T: Types, H: Handler<T>, K: CatchHandler<T>, N> {
    alloc: Global,
    router: &'a Router<H, K, N>,
    turns: u32,
    underway: UnderwayOf<'a, T, H, K>,
}

impl<'a, T: Types, H: Handler<T>, K: CatchHandler<T>, N> Model for RoutingOf<'a, T, H, K, N> {
    ghost use Rattle.rkt_source.specs.Cancel.{Cancellable};
    ghost use Rattle.rkt_data.specs.Body.{Body};
    ghost use Rattle.rkt_routing.specs.Invariant.{Holding, IsSound};

    ghost Value = { Holding T.Value (Body (Cancellable T.Source)) T.Cached H H.Task K K.Task N };

    ghost view = { λ r. record {
      table = record { router = r.router.now; turns = r.turns };
      live = r.underway.live;
      stage = r.underway.stage;
    } };

    ghost invariant = { λ r. IsSound H.calling K.calling (record {
      table = record { router = r.router.now; turns = r.turns };
      live = r.underway.live;
      stage = r.underway.stage;
    }) };
}

/// What routing a request of an application comes to.
pub type Routed<'a, T> = RoutedOf<
    Request<'a, T>,
    Ctx<T>,
    <T as Types>::Stream,
    Shutdown<<T as Types>::Reason>,
>;

// Ends routing for which there is no memory.
fn give_up<'a, T: Types>(live: LiveOf<'a, T>) -> Routed<'a, T>
    ensures { result ≡ RoutedOf.Starved live.entry.ctx.kept.shutdown }
{
    let (ctx, _) = live.without_request();
    let (_, _, shutdown) = ctx.into_parts();
    RoutedOf::Starved { shutdown }
}

// Where routing begins: a bad request, which has faults, is answered by the catcher of 400.
fn begin<T: Types, H: Handler<T>, K: CatchHandler<T>>(
    faults: &[Bad],
    body: Body0<T>,
) -> StageOf<T, H, K>
    ensures { result ≡ begins faults.now body }
{
    match faults {
        [] => Stage::Next {
            behind: None,
            body,
            status: Status::NotFound,
            again: false,
        },
        [..] => Stage::Catch {
            status: Status::BadRequest,
        },
    }
}

impl<'a, T: Types, H: Handler<T> + Drop, K: CatchHandler<T> + Drop, N: Drop> RoutingOf<
    'a,
    T,
    H,
    K,
    N,
> {
    /// Begins to route a request, with what is wrong with it; nothing is called for it before the first poll. A callback may
    /// be polled `turns` times, and once where that is 0.
    pub fn new(
        alloc: Global,
        router: &'a Router<H, K, N>,
        turns: u32,
        request: Request<'a, T>,
        faults: &[Bad],
        body: Body0<T>,
        ctx: Ctx<T>,
    ) -> RoutingOf<'a, T, H, K, N>
        ensures table { result.table ≡ record { router = router.entry.now; turns = turns } }
        ensures stands { (rule : GateRule)
            → InvariantAt (relations H.calling K.calling rule) (record {
              at = record { request = request.entry; body = body; kept = ctx.kept };
              faults = faults.now;
            }) result.table result.live result.stage }
    {
        let stage = begin::<T, H, K>(faults, body);
        let live = Live {
            request,
            ctx,
            calls: Seq::new(alloc),
        };
        RoutingOf {
            alloc,
            router,
            turns,
            underway: Underway { live, stage },
        }
    }

    /// Goes on under a Gate, until a callback is Pending or there is a response.
    pub fn poll(self, gate: Gate) -> Progress<RoutingOf<'a, T, H, K, N>, Routed<'a, T>>
        ensures { (rule : GateRule) (first : Beginning T.Value (Body (Cancellable T.Source)) T.Cached) → GateFits rule gate
            → InvariantAt (relations H.calling K.calling rule) first self.entry.table self.entry.live self.entry.stage
            → PolledGives (relations H.calling K.calling rule) first self.entry.table gate result }
    {
        let RoutingOf {
            alloc,
            router,
            turns,
            underway,
        } = self;
        let Underway {
            mut live,
            mut stage,
        } = underway;
        let table = TableOf { router, turns };
        live.ctx.set_gate(gate);
        loop {
            let moved = match stage {
                Stage::Next {
                    behind,
                    body,
                    status,
                    again,
                } => begin_route(&table, &mut live, behind, body, status, again),
                Stage::Trying(mut call) => {
                    let lent = &mut live;
                    let turn = turn_handler(
                        alloc,
                        &table.route(call.position).handler,
                        table.turns(),
                        call.turn,
                        &mut call.task,
                        &lent.request,
                        &mut lent.ctx,
                    );
                    call.turn += 1;
                    route_turned(&table, &mut live, call, turn)
                }
                Stage::Catch { status } => begin_catch(alloc, &table, &mut live, status),
                Stage::Catching(mut call) => {
                    let lent = &mut live;
                    let turn = turn_catch(
                        alloc,
                        table.handler(call.position),
                        table.turns(),
                        call.turn,
                        &mut call.task,
                        &lent.request,
                        &mut lent.ctx,
                    );
                    call.turn += 1;
                    catch_turned(alloc, &table, &mut live, call, turn)
                }
            };
            match moved {
                Moved::Going(next) => stage = next,
                Moved::Pending(next) => {
                    return Progress::Pending(RoutingOf {
                        alloc,
                        router,
                        turns,
                        underway: Underway { live, stage: next },
                    });
                }
                Moved::Ended(response) => {
                    return Progress::Ready(RoutedOf::Found { live, response });
                }
                Moved::Starved => return Progress::Ready(give_up(live)),
            }
        }
    }
}

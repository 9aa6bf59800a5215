//! One exchange, poll by poll.
ghost use Rattle.std.specs.Prelude.{◌≡◌, ◌++◌, IfOk, IsSome};
ghost use Rattle.rkt_router.specs.Calls.{GateRule, GateFits};
ghost use Rattle.rkt_source.specs.Cancel.{Cancellable};
ghost use Rattle.rkt_data.specs.Body.{Body};
ghost use Rattle.rkt_routing.specs.Beginning.{Beginning};
ghost use Rattle.rkt_routing.specs.Routed.{is_head};
ghost use Rattle.rkt_exchange.specs.Asks.{asked_at};
ghost use Rattle.rkt_exchange.specs.Beginning.{beginning};
ghost use Rattle.rkt_dispatch.specs.Finalizing.{with_body_rule};
ghost use Rattle.rkt_exchange.specs.Finalized.{finalized};
ghost use Rattle.rkt_exchange.specs.Ended.{IfFinished, handle_of};
ghost use Rattle.rkt_exchange.specs.Peeks.{waits_of};
ghost use Rattle.rkt_exchange.specs.Relations.{relations_of};
ghost use Rattle.rkt_exchange.specs.Invariant.{ExchangeGives, IsAnswering, IsAsking, IsPeeking, IsRefusing, IsRouting, PolledGives, InvariantFor, InvariantIn, WasAsked, WasFound, WasOpened, found_of, opened_at};

use crate::calls::{Arrival, ArrivalOf, Departure, DepartureOf, FinalizedOf, PreprocessedOf};
use crate::{
    Ended, EndedOf, Peeking, PeekingOf, Phase, RequestFairings, ResponseFairings, RunOf, TablesOf,
};
use rkt_base::{NoMemory, Poll, Seq};
use rkt_data::Gate;
use rkt_dispatch::{finalize, keep_body_rule};
use rkt_fairing::{App, Fairing, Parts, RequestCallback, ResponseCallback};
use rkt_http::Method;
use rkt_message::Response;
use rkt_request::{Body0, Ctx, Incoming, Types};
use rkt_router::{CatchHandler, Handler};
use rkt_routing::{Call, Live, LiveOf, Progress, RoutedOf, RoutingOf};
use rkt_turn::Shutdown;
use std::alloc::Global;
use std::marker::Model;
use std::mem;

/// Where an exchange stands, for an application.
pub type PhaseOf<'a, T, F, P, Q, H, K, N> = Phase<
    Peeking<'a, T>,
    RequestFairings<'a, T, F, P>,
    RoutingOf<'a, T, H, K, N>,
    ResponseFairings<'a, T, F, Q>,
>;

type Advance<'a, T, F, P, Q, H, K, N> = Progress<PhaseOf<'a, T, F, P, Q, H, K, N>, Ended<T>>;

/// An exchange from what came in to its end, with fairings F, which are called for requests as P says and for responses as Q
/// says, handlers H, and catchers K.
#[derive(Drop)]
pub struct ExchangeOf<
    'a,
    T: Types,
    F,
    P: RequestCallback<T, F>,
    Q: ResponseCallback<T, F>,
    H: Handler<T>,
    K: CatchHandler<T>,
    N,
> {
    alloc: Global,
    tables: &'a TablesOf<F, H, K, N, T::Value>,
    phase: Option<PhaseOf<'a, T, F, P, Q, H, K, N>>,
}

/// An exchange of an application.
pub type Exchange<'a, A> = ExchangeOf<
    'a,
    A,
    <A as App>::Fairing,
    <<A as App>::Fairing as Fairing<A>>::Requests,
    <<A as App>::Fairing as Fairing<A>>::Responses,
    <A as Parts>::Handler,
    <A as Parts>::Catch,
    <A as Parts>::Sentinel,
>;

impl<
    'a,
    T: Types,
    F,
    P: RequestCallback<T, F>,
    Q: ResponseCallback<T, F>,
    H: Handler<T>,
    K: CatchHandler<T>,
    N,
> Model for ExchangeOf<'a, T, F, P, Q, H, K, N> {
    ghost use Rattle.rkt_source.specs.Cancel.{Cancellable};
    ghost use Rattle.rkt_data.specs.Body.{Body};
    ghost use Rattle.rkt_exchange.specs.Invariant.{SeenExchange};

    ghost Value = { SeenExchange T.Value (Body (Cancellable T.Source)) T.Cached T.Stream F P.Task Q.Task H H.Task K K.Task N };

    ghost view = { λ e. record { tables = e.tables.now; phase = e.phase } };
}

fn is_head(method: Method) -> bool
    ensures { result ≡ is_head method }
{
    method == Method::Head
}

// An exchange for which there is no memory.
fn starved<T: Types>(ctx: Ctx<T>) -> Ended<T>
    ensures { result ≡ EndedOf.Starved ctx.kept.shutdown }
{
    let (_, _, shutdown) = ctx.into_parts();
    EndedOf::Starved { shutdown }
}

// An exchange that has its response.
fn finished<T: Types>(
    ctx: Ctx<T>,
    calls: Seq<Call>,
    moment: u64,
    response: Response<T::Stream>,
) -> Ended<T>
    ensures { result ≡ EndedOf.Finished (record { calls = calls; jar = ctx.kept.jar; cache = ctx.kept.cache; moment = moment })
        response ctx.kept.shutdown }
{
    let (jar, cache, shutdown) = ctx.into_parts();
    EndedOf::Finished {
        run: RunOf {
            calls,
            jar,
            cache: Seq::from_vec(cache),
            moment,
        },
        response,
        shutdown,
    }
}

// Calls, and those behind them.
fn joined(calls: Seq<Call>, behind: Seq<Call>) -> Result<Seq<Call>, NoMemory>
    ensures { IfOk result (λ all. all ≡ calls ++ behind) }
{
    if calls.is_empty() {
        return Ok(behind);
    }
    let mut all = calls.into_vec();
    all.append(&mut behind.into_vec())?;
    Ok(Seq::from_vec(all))
}

// Ends an exchange behind the fairings of its response.
fn finish<T: Types>(
    departure: DepartureOf<'_, T>,
    calls: Seq<Call>,
    head: bool,
    moment: u64,
) -> Ended<T>
    ensures calls { IfFinished result (λ run response. run.calls ≡ calls ++ departure.entry.live.calls) }
    ensures jar { IfFinished result (λ run response. run.jar ≡ departure.entry.live.ctx.kept.jar) }
    ensures cache { IfFinished result (λ run response. run.cache ≡ departure.entry.live.ctx.kept.cache) }
    ensures moment { IfFinished result (λ run response. run.moment ≡ moment) }
    ensures response { IfFinished result (λ run response. response ≡ with_body_rule head departure.entry.response) }
    ensures handle { handle_of result ≡ departure.entry.live.ctx.kept.shutdown }
{
    let Departure { live, mut response } = departure;
    keep_body_rule(&mut response, head);
    let (ctx, behind) = live.without_request();
    match joined(calls, behind) {
        Ok(calls) => finished(ctx, calls, moment, response),
        Err(_) => starved(ctx),
    }
}

// Sends the cookies of what was found, and gives all calls so far.
fn dress_found<T: Types>(
    alloc: Global,
    live: &mut LiveOf<'_, T>,
    ident: &str,
    moment: u64,
    calls: Seq<Call>,
    mut response: Response<T::Stream>,
) -> Result<(Response<T::Stream>, Seq<Call>), NoMemory>
    ensures finalized { IfOk result (λ r.
        record { request = live.new.request; at = record { response = r.0; kept = live.new.ctx.kept } }
        ≡ finalized ident.now moment (found_of live.old response)) }
    ensures calls { IfOk result (λ r. r.1 ≡ calls ++ live.old.calls) }
    ensures shutdown { live.new.ctx.kept.shutdown ≡ live.old.ctx.kept.shutdown }
{
    finalize(alloc, &mut live.ctx, ident, moment, &mut response)?;
    let between = mem::replace(&mut live.calls, Seq::new(alloc));
    let calls = joined(calls, between)?;
    Ok((response, calls))
}

impl<
    'a,
    T: Types,
    F,
    P: RequestCallback<T, F>,
    Q: ResponseCallback<T, F>,
    H: Handler<T> + Drop,
    K: CatchHandler<T> + Drop,
    N: Drop,
> ExchangeOf<'a, T, F, P, Q, H, K, N> {
    /// Begins an exchange, which nothing is called for before the first poll.
    pub fn new(
        alloc: Global,
        tables: &'a TablesOf<F, H, K, N, T::Value>,
        incoming: Incoming<'a, T>,
        body: Body0<T>,
        shutdown: Shutdown<T::Reason>,
        gate: Gate,
    ) -> ExchangeOf<'a, T, F, P, Q, H, K, N>
        ensures tables { result.tables ≡ tables.entry.now }
        ensures going { IsSome result.phase }
        ensures stands { (rule : GateRule)
            → InvariantFor (relations_of T.Source.meaning P.calling Q.calling H.calling K.calling rule)
            (beginning incoming.entry.request incoming.entry.jar incoming.entry.faults body shutdown) result.tables
            result.phase }
    {
        let Incoming {
            request,
            jar,
            faults,
        } = incoming;
        let ctx = Ctx::new(alloc, jar, shutdown, gate);
        let turns = tables.config.turns;
        let phase = match faults.as_slice() {
            [] => Phase::Peeking(PeekingOf { request, body, ctx }),
            faults => Phase::Refusing(RoutingOf::new(
                alloc,
                &tables.router,
                turns,
                request,
                faults,
                body,
                ctx,
            )),
        };
        ExchangeOf {
            alloc,
            tables,
            phase: Some(phase),
        }
    }

    /// Goes on with the exchange under a Gate, until a callback is Pending or it ends. One that has ended is not polled
    /// again.
    pub fn poll(&mut self, gate: Gate) -> Poll<Ended<T>>
        requires going { IsSome self.old.phase }
        ensures tables { self.new.tables ≡ self.old.tables }
        ensures going { result ≡ Poll.Pending → IsSome self.new.phase }
        ensures gives { (rule : GateRule) (first : Beginning T.Value (Body (Cancellable T.Source)) T.Cached)
            → GateFits rule gate
            → InvariantFor (relations_of T.Source.meaning P.calling Q.calling H.calling K.calling rule)
            first self.old.tables self.old.phase
            → ExchangeGives (relations_of T.Source.meaning P.calling Q.calling H.calling K.calling rule)
            first self.new.tables (waits_of T.Source.meaning T.Source.shuts T.Source.polled) gate self.new.phase result }
    {
        let Some(phase) = self.phase.take() else {
            unreachable!();
        };
        match self.advance(phase, gate) {
            Progress::Pending(next) => {
                self.phase.insert(next);
                Poll::Pending
            }
            Progress::Ready(ended) => Poll::Ready(ended),
        }
    }

    fn advance(
        &self,
        phase: PhaseOf<'a, T, F, P, Q, H, K, N>,
        gate: Gate,
    ) -> Advance<'a, T, F, P, Q, H, K, N>
        ensures { (rule : GateRule) (first : Beginning T.Value (Body (Cancellable T.Source)) T.Cached) → GateFits rule gate
            → InvariantIn (relations_of T.Source.meaning P.calling Q.calling H.calling K.calling rule)
            first self.now.tables phase.entry
            → PolledGives (relations_of T.Source.meaning P.calling Q.calling H.calling K.calling rule)
            first self.now.tables (waits_of T.Source.meaning T.Source.shuts T.Source.polled) gate result }
    {
        match phase {
            Phase::Peeking(peeking) => self.peek(peeking, gate),
            Phase::Preprocessing(asking) => self.ask(asking, gate),
            Phase::Routing {
                routing,
                calls,
                head,
            } => self.find(routing, calls, head, gate),
            Phase::Refusing(routing) => self.refuse(routing, gate),
            Phase::Finalizing {
                answering,
                calls,
                head,
                moment,
            } => self.answer(answering, calls, head, moment, gate),
        }
    }

    // Peeks at the body, and goes on behind that.
    fn peek(&self, peeking: Peeking<'a, T>, gate: Gate) -> Advance<'a, T, F, P, Q, H, K, N>
        ensures { (rule : GateRule) (first : Beginning T.Value (Body (Cancellable T.Source)) T.Cached) → GateFits rule gate
            → IsPeeking (relations_of T.Source.meaning P.calling Q.calling H.calling K.calling rule)
            first self.now.tables peeking.entry
            → PolledGives (relations_of T.Source.meaning P.calling Q.calling H.calling K.calling rule)
            first self.now.tables (waits_of T.Source.meaning T.Source.shuts T.Source.polled) gate result }
    {
        match peeking.poll(gate) {
            Progress::Pending(peeking) => Progress::Pending(Phase::Peeking(peeking)),
            Progress::Ready(opened) => self.begin_asking(opened, gate),
        }
    }

    // Calls fairings for the request, which has its method.
    fn begin_asking(&self, opened: Peeking<'a, T>, gate: Gate) -> Advance<'a, T, F, P, Q, H, K, N>
        ensures { (rule : GateRule) (first : Beginning T.Value (Body (Cancellable T.Source)) T.Cached) → GateFits rule gate
            → WasOpened (relations_of T.Source.meaning P.calling Q.calling H.calling K.calling rule)
            first self.now.tables (opened_at opened.entry)
            → PolledGives (relations_of T.Source.meaning P.calling Q.calling H.calling K.calling rule)
            first self.now.tables (waits_of T.Source.meaning T.Source.shuts T.Source.polled) gate result }
    {
        let PeekingOf { request, body, ctx } = opened;
        let (alloc, tables) = (self.alloc, self.tables);
        let (fairings, turns) = (&tables.fairings, tables.config.turns);
        let asking = RequestFairings::new(alloc, fairings, turns, request, body, ctx);
        self.ask(asking, gate)
    }

    // Calls fairings for the request, and goes on behind them.
    fn ask(
        &self,
        asking: RequestFairings<'a, T, F, P>,
        gate: Gate,
    ) -> Advance<'a, T, F, P, Q, H, K, N>
        ensures { (rule : GateRule) (first : Beginning T.Value (Body (Cancellable T.Source)) T.Cached) → GateFits rule gate
            → IsAsking (relations_of T.Source.meaning P.calling Q.calling H.calling K.calling rule)
            first self.now.tables asking.entry
            → PolledGives (relations_of T.Source.meaning P.calling Q.calling H.calling K.calling rule)
            first self.now.tables (waits_of T.Source.meaning T.Source.shuts T.Source.polled) gate result }
    {
        match asking.poll(gate) {
            Progress::Pending(asking) => Progress::Pending(Phase::Preprocessing(asking)),
            Progress::Ready(PreprocessedOf::Done(arrival)) => self.begin_routing(arrival, gate),
            Progress::Ready(PreprocessedOf::Starved { shutdown }) => {
                Progress::Ready(EndedOf::Starved { shutdown })
            }
        }
    }

    // Routes the request, behind the fairings that were called for it.
    fn begin_routing(
        &self,
        arrival: ArrivalOf<'a, T>,
        gate: Gate,
    ) -> Advance<'a, T, F, P, Q, H, K, N>
        ensures { (rule : GateRule) (first : Beginning T.Value (Body (Cancellable T.Source)) T.Cached) → GateFits rule gate
            → WasAsked (relations_of T.Source.meaning P.calling Q.calling H.calling K.calling rule)
            first self.now.tables arrival.entry.live.calls (asked_at arrival.entry)
            → PolledGives (relations_of T.Source.meaning P.calling Q.calling H.calling K.calling rule)
            first self.now.tables (waits_of T.Source.meaning T.Source.shuts T.Source.polled) gate result }
    {
        let Arrival { live, body } = arrival;
        let Live {
            request,
            ctx,
            calls,
        } = live;
        let head = is_head(request.method());
        let (alloc, tables) = (self.alloc, self.tables);
        let (router, turns) = (&tables.router, tables.config.turns);
        let routing = RoutingOf::new(alloc, router, turns, request, &[], body, ctx);
        self.find(routing, calls, head, gate)
    }

    // Goes on with routing, and behind it.
    fn find(
        &self,
        routing: RoutingOf<'a, T, H, K, N>,
        calls: Seq<Call>,
        head: bool,
        gate: Gate,
    ) -> Advance<'a, T, F, P, Q, H, K, N>
        ensures { (rule : GateRule) (first : Beginning T.Value (Body (Cancellable T.Source)) T.Cached) → GateFits rule gate
            → IsRouting (relations_of T.Source.meaning P.calling Q.calling H.calling K.calling rule)
            first self.now.tables routing.entry calls head
            → PolledGives (relations_of T.Source.meaning P.calling Q.calling H.calling K.calling rule)
            first self.now.tables (waits_of T.Source.meaning T.Source.shuts T.Source.polled) gate result }
    {
        match routing.poll(gate) {
            Progress::Pending(routing) => Progress::Pending(Phase::Routing {
                routing,
                calls,
                head,
            }),
            Progress::Ready(RoutedOf::Found { live, response }) => {
                self.begin_answering(live, response, calls, head, gate)
            }
            Progress::Ready(RoutedOf::Starved { shutdown }) => {
                Progress::Ready(EndedOf::Starved { shutdown })
            }
        }
    }

    // Finalizes the response that was found, and calls fairings for it.
    fn begin_answering(
        &self,
        mut live: LiveOf<'a, T>,
        response: Response<T::Stream>,
        calls: Seq<Call>,
        head: bool,
        gate: Gate,
    ) -> Advance<'a, T, F, P, Q, H, K, N>
        ensures { (rule : GateRule) (first : Beginning T.Value (Body (Cancellable T.Source)) T.Cached) → GateFits rule gate
            → WasFound (relations_of T.Source.meaning P.calling Q.calling H.calling K.calling rule)
            first self.now.tables calls head live.entry response
            → PolledGives (relations_of T.Source.meaning P.calling Q.calling H.calling K.calling rule)
            first self.now.tables (waits_of T.Source.meaning T.Source.shuts T.Source.polled) gate result }
    {
        let (alloc, tables) = (self.alloc, self.tables);
        let ident = tables.config.ident.as_str();
        match dress_found(alloc, &mut live, ident, gate.moment, calls, response) {
            Ok((response, calls)) => {
                let (fairings, turns) = (&tables.fairings, tables.config.turns);
                let Live {
                    request,
                    ctx,
                    calls: _,
                } = live;
                let answering = ResponseFairings::new(
                    alloc, fairings, turns, request, response, ctx,
                );
                self.answer(answering, calls, head, gate.moment, gate)
            }
            Err(_) => Progress::Ready(starved(live.without_request().0)),
        }
    }

    // Calls fairings for the response, and ends behind them.
    fn answer(
        &self,
        answering: ResponseFairings<'a, T, F, Q>,
        calls: Seq<Call>,
        head: bool,
        moment: u64,
        gate: Gate,
    ) -> Advance<'a, T, F, P, Q, H, K, N>
        ensures { (rule : GateRule) (first : Beginning T.Value (Body (Cancellable T.Source)) T.Cached) → GateFits rule gate
            → IsAnswering (relations_of T.Source.meaning P.calling Q.calling H.calling K.calling rule)
            first self.now.tables answering.entry calls head moment
            → PolledGives (relations_of T.Source.meaning P.calling Q.calling H.calling K.calling rule)
            first self.now.tables (waits_of T.Source.meaning T.Source.shuts T.Source.polled) gate result }
    {
        match answering.poll(gate) {
            Progress::Pending(answering) => Progress::Pending(Phase::Finalizing {
                answering,
                calls,
                head,
                moment,
            }),
            Progress::Ready(FinalizedOf::Done(departure)) => {
                Progress::Ready(finish(departure, calls, head, moment))
            }
            Progress::Ready(FinalizedOf::Starved { shutdown }) => {
                Progress::Ready(EndedOf::Starved { shutdown })
            }
        }
    }

    // Answers a bad request, to which nothing else is done.
    fn refuse(
        &self,
        routing: RoutingOf<'a, T, H, K, N>,
        gate: Gate,
    ) -> Advance<'a, T, F, P, Q, H, K, N>
        ensures { (rule : GateRule) (first : Beginning T.Value (Body (Cancellable T.Source)) T.Cached) → GateFits rule gate
            → IsRefusing (relations_of T.Source.meaning P.calling Q.calling H.calling K.calling rule)
            first self.now.tables routing.entry
            → PolledGives (relations_of T.Source.meaning P.calling Q.calling H.calling K.calling rule)
            first self.now.tables (waits_of T.Source.meaning T.Source.shuts T.Source.polled) gate result }
    {
        match routing.poll(gate) {
            Progress::Pending(routing) => Progress::Pending(Phase::Refusing(routing)),
            Progress::Ready(RoutedOf::Found { live, response }) => {
                let (ctx, calls) = live.without_request();
                Progress::Ready(finished(ctx, calls, gate.moment, response))
            }
            Progress::Ready(RoutedOf::Starved { shutdown }) => {
                Progress::Ready(EndedOf::Starved { shutdown })
            }
        }
    }
}

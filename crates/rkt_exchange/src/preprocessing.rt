//! The fairings that are called for a request.
ghost use Rattle.std.specs.Prelude.{◌≡◌, ◌<◌, ◌+◌, IfOk, Some, length, max};
ghost use Rattle.rkt_source.specs.Cancel.{Cancellable};
ghost use Rattle.rkt_data.specs.Body.{Body};
ghost use Rattle.rkt_router.specs.Callbacks.{RequestAt};
ghost use Rattle.rkt_fairing.specs.Callbacks.{RequestGrows};
ghost use Rattle.rkt_fairing.specs.Fairings.{fairing_at};
ghost use Rattle.rkt_fairing.specs.InSlot.{slot_request};
ghost use Rattle.rkt_fairing.specs.Places.{places_of};
ghost use Rattle.rkt_router.specs.Calling.{Polls, Starts};
ghost use Rattle.rkt_router.specs.Calls.{GateFits, GateRule, Making, PolledAs, any_gate};
ghost use Rattle.rkt_exchange.specs.Asks.{AskInvariant, AskedSo, AskedGives, InvariantFor, asked_at};
ghost use Rattle.rkt_exchange.specs.Chain.{Begins, to_call};

use crate::calls::{
    Arrival, ArrivalOf, FairingTask, PreprocessedOf, Underway, fairing_says, place_behind,
};
use rkt_base::{NoMemory, Seq};
use rkt_data::Gate;
use rkt_fairing::{Callback, Fairings, InSlot, RequestCallback, Slot, turn_request};
use rkt_request::{Body0, Ctx, Request, Types};
use rkt_router::{Final, Polled, Step};
use rkt_routing::{Live, Progress, Which, recorded};
use rkt_turn::Shutdown;
use std::alloc::{AllocError, Global};
use std::marker::Model;

/// What the calls for a request of an application come to.
pub type Preprocessed<'a, T> = PreprocessedOf<
    Request<'a, T>,
    Body0<T>,
    Ctx<T>,
    Shutdown<<T as Types>::Reason>,
>;

/// A request that fairings F are called for as P says, in the order in which they were attached.
#[derive(Drop)]
pub struct RequestFairings<'a, T: Types, F, P: RequestCallback<T, F>> {
    alloc: Global,
    fairings: &'a Fairings<F>,
    turns: u32,
    underway: Underway<ArrivalOf<'a, T>, P::Task>,
}

impl<'a, T: Types, F, P: RequestCallback<T, F>> Model for RequestFairings<'a, T, F, P> {
    ghost use Rattle.rkt_source.specs.Cancel.{Cancellable};
    ghost use Rattle.rkt_data.specs.Body.{Body};
    ghost use Rattle.rkt_fairing.specs.InSlot.{slot_request};
    ghost use Rattle.rkt_exchange.specs.Asks.{Asks, IsSound};

    ghost Value = { Asks T.Value (Body (Cancellable T.Source)) T.Cached F P.Task };

    ghost view = { λ a. record { fairings = a.fairings.now; turns = a.turns; lent = a.underway.lent; next = a.underway.next } };

    ghost invariant = { λ a. IsSound (slot_request P.calling)
        (record { fairings = a.fairings.now; turns = a.turns; lent = a.underway.lent; next = a.underway.next }) };
}

// Begins the call of the fairing at a place, if there is one.
fn begin<T: Types, F, P: RequestCallback<T, F>>(
    fairings: &Fairings<F>,
    place: usize,
) -> Option<FairingTask<P::Task>>
    ensures begins { Begins Callback.Request fairings.now place
        (λ fairing task. Starts (slot_request P.calling) fairing tt task) result }
{
    let fairing = fairings.get(Callback::Request, place)?;
    Some(FairingTask {
        place,
        task: <InSlot<P> as RequestCallback<T, Slot<F>>>::start(fairing),
        turn: 0,
    })
}

// Records a call, and begins that of the next fairing, if there is one.
fn called<T: Types, F, P: RequestCallback<T, F>>(
    fairings: &Fairings<F>,
    turns: u32,
    arrival: &mut ArrivalOf<'_, T>,
    place: usize,
    reply: Final<()>,
) -> Result<Option<FairingTask<P::Task>>, NoMemory>
    ensures gate { arrival.new.live.ctx.gate ≡ arrival.old.live.ctx.gate }
    ensures shutdown { arrival.new.live.ctx.kept.shutdown ≡ arrival.old.live.ctx.kept.shutdown }
    ensures gives { IfOk result (λ next. (rule : GateRule) (first : RequestAt T.Value (Body (Cancellable T.Source)) T.Cached)
        → AskedSo (slot_request P.calling) rule fairings.now turns first arrival.old place reply
        → AskInvariant (slot_request P.calling) rule fairings.now turns first arrival.new next) }
    ensures falls { IfOk result (λ next. place < length (places_of Callback.Request fairings.now.places)
        → to_call Callback.Request fairings.now next + place < length (places_of Callback.Request fairings.now.places)) }
{
    if let Final::Starved = reply {
        return Err(AllocError);
    }
    let call = recorded(
        &arrival.live.ctx,
        Which::Request(place),
        fairing_says(&reply),
    );
    arrival.live.calls.push(call)?;
    let next = place_behind(fairings, Callback::Request, place);
    Ok(begin::<T, F, P>(fairings, next))
}

// The handle of what there is no memory for.
fn give_up<'a, T: Types>(arrival: ArrivalOf<'a, T>) -> Preprocessed<'a, T>
    ensures { result ≡ PreprocessedOf.Starved arrival.entry.live.ctx.kept.shutdown }
{
    let Arrival { live, body: _ } = arrival;
    let (ctx, _) = live.without_request();
    let (_, _, shutdown) = ctx.into_parts();
    PreprocessedOf::Starved { shutdown }
}

impl<'a, T: Types, F, P: RequestCallback<T, F>> RequestFairings<'a, T, F, P> {
    /// Begins with the first fairing, which nothing is asked of before the first poll. Each may be polled `turns` times, and
    /// once where that is 0.
    pub fn new(
        alloc: Global,
        fairings: &'a Fairings<F>,
        turns: u32,
        request: Request<'a, T>,
        body: Body0<T>,
        ctx: Ctx<T>,
    ) -> RequestFairings<'a, T, F, P>
        ensures fairings { result.fairings ≡ fairings.entry.now }
        ensures turns { result.turns ≡ turns }
        ensures stands { (rule : GateRule)
            → InvariantFor (slot_request P.calling) rule
            (record { request = request.entry; body = body; kept = ctx.kept }) result }
    {
        let next = begin::<T, F, P>(fairings, 0);
        let live = Live {
            request,
            ctx,
            calls: Seq::new(alloc),
        };
        let lent = Arrival { live, body };
        RequestFairings {
            alloc,
            fairings,
            turns,
            underway: Underway { lent, next },
        }
    }

    /// Goes on under a Gate, until a fairing is Pending or all were called.
    pub fn poll(self, gate: Gate) -> Progress<RequestFairings<'a, T, F, P>, Preprocessed<'a, T>>
        ensures { (rule : GateRule) (first : RequestAt T.Value (Body (Cancellable T.Source)) T.Cached)
            → GateFits rule gate
            → InvariantFor (slot_request P.calling) rule first self.entry
            → AskedGives (slot_request P.calling) rule first self.entry.fairings self.entry.turns gate result }
    {
        let RequestFairings {
            alloc,
            fairings,
            turns,
            underway,
        } = self;
        let Underway { mut lent, mut next } = underway;
        let most = turns.max(1);
        lent.live.ctx.set_gate(gate);
        loop {
            let Some(mut call) = next else {
                return Progress::Ready(PreprocessedOf::Done(lent));
            };
            let Some(fairing) = fairings.get(Callback::Request, call.place) else {
                unreachable!();
            };
            let arrival = &mut lent;
            let live = &mut arrival.live;
            let turn = turn_request::<T, Slot<F>, InSlot<P>>(
                alloc,
                fairing,
                most,
                call.turn,
                &mut call.task,
                &mut live.request,
                &mut arrival.body,
                &mut live.ctx,
            );
            call.turn += 1;
            let Polled::Over(reply) = turn else {
                let next = Some(call);
                return Progress::Pending(RequestFairings {
                    alloc,
                    fairings,
                    turns,
                    underway: Underway { lent, next },
                });
            };
            let Ok(begun) = called::<T, F, P>(fairings, turns, &mut lent, call.place, reply) else {
                return Progress::Ready(give_up(lent));
            };
            next = begun;
        }
    }
}

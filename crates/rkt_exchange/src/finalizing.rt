//! The fairings that are called for a response.
ghost use Rattle.std.specs.Prelude.{◌≡◌, ◌<◌, ◌+◌, IfOk, Some, length, max};
ghost use Rattle.rkt_fairing.specs.Callbacks.{ResponseAt};
ghost use Rattle.rkt_fairing.specs.Fairings.{fairing_at};
ghost use Rattle.rkt_fairing.specs.InSlot.{slot_response};
ghost use Rattle.rkt_fairing.specs.Places.{places_of};
ghost use Rattle.rkt_request.specs.Lent.{Grows};
ghost use Rattle.rkt_router.specs.Calling.{Polls, Starts};
ghost use Rattle.rkt_router.specs.Calls.{GateFits, GateRule, Making, PolledAs, any_gate};
ghost use Rattle.rkt_exchange.specs.Answers.{Outgoing, AnswerInvariant, AnsweredSo, AnsweredGives, InvariantFor, answered_at};
ghost use Rattle.rkt_exchange.specs.Chain.{Begins, to_call};

use crate::calls::{
    Departure, DepartureOf, FairingTask, FinalizedOf, Underway, fairing_says, place_behind,
};
use rkt_base::{NoMemory, Seq};
use rkt_data::Gate;
use rkt_fairing::{Callback, Fairings, InSlot, ResponseCallback, Slot, turn_response};
use rkt_message::Response;
use rkt_request::{Ctx, Request, Types};
use rkt_router::{Final, Polled, Step};
use rkt_routing::{Live, Progress, Which, recorded};
use rkt_turn::Shutdown;
use std::alloc::{AllocError, Global};
use std::marker::Model;

/// What the calls for a response of an application come to.
pub type Finalized<'a, T> = FinalizedOf<
    Request<'a, T>,
    Ctx<T>,
    <T as Types>::Stream,
    Shutdown<<T as Types>::Reason>,
>;

/// A response that fairings F are called for as Q says, in the order in which they were attached.
#[derive(Drop)]
pub struct ResponseFairings<'a, T: Types, F, Q: ResponseCallback<T, F>> {
    alloc: Global,
    fairings: &'a Fairings<F>,
    turns: u32,
    underway: Underway<DepartureOf<'a, T>, Q::Task>,
}

impl<'a, T: Types, F, Q: ResponseCallback<T, F>> Model for ResponseFairings<'a, T, F, Q> {
    ghost use Rattle.rkt_fairing.specs.InSlot.{slot_response};
    ghost use Rattle.rkt_exchange.specs.Answers.{Answers, IsSound};

    ghost Value = { Answers T.Value T.Cached T.Stream F Q.Task };

    ghost view = { λ a. record { fairings = a.fairings.now; turns = a.turns; lent = a.underway.lent; next = a.underway.next } };

    ghost invariant = { λ a. IsSound (slot_response Q.calling)
        (record { fairings = a.fairings.now; turns = a.turns; lent = a.underway.lent; next = a.underway.next }) };
}

// Begins the call of the fairing at a place, if there is one.
fn begin<T: Types, F, Q: ResponseCallback<T, F>>(
    fairings: &Fairings<F>,
    place: usize,
    request: &Request<'_, T>,
) -> Option<FairingTask<Q::Task>>
    ensures begins { Begins Callback.Response fairings.now place
        (λ fairing task. Starts (slot_response Q.calling) fairing request.now task) result }
{
    let fairing = fairings.get(Callback::Response, place)?;
    Some(FairingTask {
        place,
        task: <InSlot<Q> as ResponseCallback<T, Slot<F>>>::start(fairing, request),
        turn: 0,
    })
}

// Records a call, and begins that of the next fairing, if there is one.
fn called<T: Types, F, Q: ResponseCallback<T, F>>(
    fairings: &Fairings<F>,
    turns: u32,
    departure: &mut DepartureOf<'_, T>,
    place: usize,
    reply: Final<()>,
) -> Result<Option<FairingTask<Q::Task>>, NoMemory>
    ensures gate { departure.new.live.ctx.gate ≡ departure.old.live.ctx.gate }
    ensures shutdown { departure.new.live.ctx.kept.shutdown ≡ departure.old.live.ctx.kept.shutdown }
    ensures gives { IfOk result (λ next. (rule : GateRule) (first : Outgoing T.Value T.Cached T.Stream)
        → AnsweredSo (slot_response Q.calling) rule fairings.now turns first departure.old place reply
        → AnswerInvariant (slot_response Q.calling) rule fairings.now turns first departure.new next) }
    ensures falls { IfOk result (λ next. place < length (places_of Callback.Response fairings.now.places)
        → to_call Callback.Response fairings.now next + place < length (places_of Callback.Response fairings.now.places)) }
{
    if let Final::Starved = reply {
        return Err(AllocError);
    }
    let call = recorded(
        &departure.live.ctx,
        Which::Response(place),
        fairing_says(&reply),
    );
    departure.live.calls.push(call)?;
    let next = place_behind(fairings, Callback::Response, place);
    Ok(begin::<T, F, Q>(fairings, next, &departure.live.request))
}

// The handle of what there is no memory for.
fn give_up<'a, T: Types>(departure: DepartureOf<'a, T>) -> Finalized<'a, T>
    ensures { result ≡ FinalizedOf.Starved departure.entry.live.ctx.kept.shutdown }
{
    let Departure { live, response: _ } = departure;
    let (ctx, _) = live.without_request();
    let (_, _, shutdown) = ctx.into_parts();
    FinalizedOf::Starved { shutdown }
}

impl<'a, T: Types, F, Q: ResponseCallback<T, F>> ResponseFairings<'a, T, F, Q> {
    /// Begins with the first fairing, which nothing is asked of before the first poll. Each may be polled `turns` times, and
    /// once where that is 0.
    pub fn new(
        alloc: Global,
        fairings: &'a Fairings<F>,
        turns: u32,
        request: Request<'a, T>,
        response: Response<T::Stream>,
        ctx: Ctx<T>,
    ) -> ResponseFairings<'a, T, F, Q>
        ensures fairings { result.fairings ≡ fairings.entry.now }
        ensures turns { result.turns ≡ turns }
        ensures stands { (rule : GateRule)
            → InvariantFor (slot_response Q.calling) rule
            (record { request = request.entry; at = record { response = response; kept = ctx.kept } }) result }
    {
        let next = begin::<T, F, Q>(fairings, 0, &request);
        let live = Live {
            request,
            ctx,
            calls: Seq::new(alloc),
        };
        let lent = Departure { live, response };
        ResponseFairings {
            alloc,
            fairings,
            turns,
            underway: Underway { lent, next },
        }
    }

    /// Goes on under a Gate, until a fairing is Pending or all were called.
    pub fn poll(self, gate: Gate) -> Progress<ResponseFairings<'a, T, F, Q>, Finalized<'a, T>>
        ensures { (rule : GateRule) (first : Outgoing T.Value T.Cached T.Stream)
            → GateFits rule gate
            → InvariantFor (slot_response Q.calling) rule first self.entry
            → AnsweredGives (slot_response Q.calling) rule first self.entry.fairings self.entry.turns gate result }
    {
        let ResponseFairings {
            alloc,
            fairings,
            turns,
            underway,
        } = self;
        let Underway { mut lent, mut next } = underway;
        let most = turns.max(1);
        lent.live.ctx.set_gate(gate);
        loop {
            let Some(mut call) = next else {
                return Progress::Ready(FinalizedOf::Done(lent));
            };
            let Some(fairing) = fairings.get(Callback::Response, call.place) else {
                unreachable!();
            };
            let departure = &mut lent;
            let live = &mut departure.live;
            let turn = turn_response::<T, Slot<F>, InSlot<Q>>(
                alloc,
                fairing,
                most,
                call.turn,
                &mut call.task,
                &live.request,
                &mut departure.response,
                &mut live.ctx,
            );
            call.turn += 1;
            let Polled::Over(reply) = turn else {
                let next = Some(call);
                return Progress::Pending(ResponseFairings {
                    alloc,
                    fairings,
                    turns,
                    underway: Underway { lent, next },
                });
            };
            let Ok(begun) = called::<T, F, Q>(fairings, turns, &mut lent, call.place, reply) else {
                return Progress::Ready(give_up(lent));
            };
            next = begun;
        }
    }
}

//! One exchange, from what a link asks to its end.
ghost use Rattle.std.specs.Prelude.{◌≡◌, ◌↔◌, ℕ, Some, true, IfErr, IfOk, IfSome, IsNone, IsSome, IsTrue, MatchOption, is_some};
ghost use Rattle.std.specs.List.{All};
ghost use Rattle.rkt_source.specs.Cancel.{Cancellable};
ghost use Rattle.rkt_data.specs.Body.{Body};
ghost use Rattle.rkt_exchange.specs.Ended.{IfFinished, handle_of};
ghost use Rattle.rkt_exchange.specs.Invariant.{EndsSo, InvariantFor};
ghost use Rattle.rkt_router.specs.Calls.{GateRule};
ghost use Rattle.rkt_routing.specs.Backs.{Sees};
ghost use Rattle.rkt_routing.specs.Beginning.{Beginning};
ghost use Rattle.rkt_turn.specs.HandsBack.{HandsBack};
ghost use Rattle.rkt_link.specs.Asked.{Asked, GivesBody, IsUntouched};
ghost use Rattle.rkt_worker.specs.Begun.{AllFit, IsBegun, gate_at};
ghost use Rattle.rkt_worker.specs.Gates.{IsDelayedBy, told, word_in};
ghost use Rattle.rkt_link.specs.Clock.{IsAmid};
ghost use Rattle.rkt_worker.specs.Lifecycle.{Lifecycle};
ghost use Rattle.rkt_worker.specs.Serving.{gates_of};
ghost use Rattle.rkt_worker.specs.Waiting.{IsLate, MayBePending};

use crate::Gates;
use crate::serves::Exchanges;
use rkt_base::Poll;
use rkt_data::{CancellableIo, Data, Gate};
use rkt_exchange::{Ended, EndedOf, Exchange, Tables};
use rkt_fairing::App;
use rkt_request::{Head, Request};
use rkt_turn::Shutdown;
use std::alloc::Global;
use std::sync::Wait;

// The Gate of a moment, with the configuration's delays. There is no trip yet.
pub(crate) fn gate_of<A: App>(tables: &Tables<A>, moment: u64) -> Gate
    ensures { result ≡ gate_at tables.now moment }
{
    Gate {
        moment,
        tripped: None,
        grace: tables.config.grace,
        mercy: tables.config.mercy,
    }
}

// Begins the exchange of what a head asks, or hands the wire's handle back where there is no memory.
fn begin<'a, A: App>(
    alloc: Global,
    tables: &'a Tables<A>,
    head: &Head,
    source: A::Source,
    shutdown: Shutdown<A::Reason>,
    gate: Gate,
) -> Result<Exchange<'a, A>, Shutdown<A::Reason>>
    ensures begun { IfOk result (IsBegun ⟦<A as Exchanges>⟧.callbacks tables.entry.now head.now source shutdown) }
    ensures handle { IfErr result (λ back. back ≡ shutdown) }
{
    let Ok(incoming) = Request::from_incoming(alloc, head, &tables.config, &tables.managed) else {
        return Err(shutdown);
    };
    let Ok(body) = Data::from_source(alloc, CancellableIo::new(source)) else {
        // By a call, in which that is proved once for its type.
        drop(incoming);
        return Err(shutdown);
    };
    Ok(Exchange::new(alloc, tables, incoming, body, shutdown, gate))
}

// At this moment the grace and the mercy of a Trip are over.
fn is_late(trip: Option<(u64, u64)>, moment: u64, grace: u32, mercy: u32) -> bool
    ensures { IsTrue result ↔ IsLate grace mercy trip moment }
{
    match trip {
        Some((_, at)) => moment.saturating_sub(at) > u64::from(grace) + u64::from(mercy),
        None => false,
    }
}

// The Trip that is watched, which is asked for until there is one.
fn trip_of<G: Gates>(gates: &G, known: Option<(u64, u64)>) -> Option<(u64, u64)>
    requires keeps { G.keeps gates.now }
    requires known { (trip : ℕ × ℕ) → known ≡ Some trip → (G.watched gates.now).trip ≡ Some trip }
    ensures { result ≡ (G.watched gates.now).trip }
{
    match known {
        Some(trip) => Some(trip),
        None => gates.trip(),
    }
}

// Polls an exchange to its end, each time under the next Gate. One that still waits when the grace and the mercy of a Trip are over
// is left alone.
fn to_end<A: App, R: Wait, G: Gates>(
    rt: &R,
    exchange: &mut Exchange<'_, A>,
    grace: u32,
    mercy: u32,
    gates: &mut G,
) -> Option<Ended<A>>
    requires going { IsSome exchange.old.phase }
    requires keeps { G.keeps gates.old }
    requires delays { IsDelayedBy grace mercy (G.watched gates.old) }
    ensures keeps { G.keeps gates.new }
    ensures leads { G.leads gates.old gates.new }
    // Whatever rule all Gates fit that it may be polled under.
    ensures ends { (rule : GateRule) (first : Beginning A.Value (Body (Cancellable A.Source)) A.Cached)
        → AllFit rule grace mercy (told (G.watched gates.old)) (told (G.watched gates.new))
        (word_in (G.watched gates.new).trip)
        → InvariantFor (⟦<A as Exchanges>⟧.callbacks rule) first exchange.old.tables exchange.old.phase
        → MatchOption result (MayBePending (⟦<A as Exchanges>⟧.callbacks rule) A.Source.meaning exchange.old.tables)
        (EndsSo (⟦<A as Exchanges>⟧.callbacks rule) first exchange.old.tables) }
    ensures late { IsNone result → IsLate grace mercy (G.watched gates.new).trip (G.watched gates.new).last }
{
    let mut trip = None;
    for _ in rt.forever() {
        let gate = gates.next_gate();
        match exchange.poll(gate) {
            Poll::Ready(ended) => return Some(ended),
            Poll::Pending => {}
        }
        trip = trip_of(gates, trip);
        if is_late(trip, gate.moment, grace, mercy) {
            return None;
        }
    }
    unreachable!()
}

/// The exchange of what a head asks, with the body that a source gives, unless it still waits when the grace and the
/// mercy of a Trip are over. It begins at this moment. Each poll of it has a Gate of its own.
pub(crate) fn run_exchange<A: App, R: Wait, G: Gates>(
    rt: &R,
    alloc: Global,
    tables: &Tables<A>,
    head: &Head,
    source: A::Source,
    shutdown: Shutdown<A::Reason>,
    moment: u64,
    gates: &mut G,
) -> Option<Ended<A>>
    requires keeps { G.keeps gates.old }
    requires delays { IsDelayedBy tables.now.config.grace tables.now.config.mercy (G.watched gates.old) }
    ensures keeps { G.keeps gates.new }
    ensures leads { G.leads gates.old gates.new }
    ensures lifecycle { (asked : Asked) → asked.head ≡ head.now → IsUntouched (A.Source.meaning source)
        → GivesBody asked (A.Source.meaning source) → IfSome result (λ ended. IfFinished ended
        (Lifecycle (⟦<A as Exchanges>⟧.callbacks (gates_of (G.watched gates.old).window tables.now
        (is_some (word_in (G.watched gates.new).trip)))) tables.now A.Source.meaning asked)) }
    ensures waits { IsNone result
        → MayBePending (⟦<A as Exchanges>⟧.callbacks (gates_of (G.watched gates.old).window tables.now true))
        A.Source.meaning tables.now }
    ensures late { IsNone result → IsLate tables.now.config.grace tables.now.config.mercy
        (G.watched gates.new).trip (G.watched gates.new).last }
    ensures moment { IfSome result (λ ended. IfFinished ended (λ run response.
        IsAmid (told (G.watched gates.old)) (told (G.watched gates.new)) run.moment)) }
    ensures handle { IfSome result (λ ended. HandsBack shutdown (handle_of ended)) }
    // A word that a call of the run recorded is the one that the handle has seen which comes back.
    ensures words { IfSome result (λ ended. IfFinished ended (λ run response. All (Sees (handle_of ended)) run.calls)) }
{
    let gate = gate_of::<A>(tables, moment);
    match begin(alloc, tables, head, source, shutdown, gate) {
        Ok(mut exchange) => {
            let ended = to_end::<A, R, G>(rt, &mut exchange, gate.grace, gate.mercy, gates);
            // By a call, in which that is proved once for its type.
            drop(exchange);
            ended
        }
        Err(shutdown) => Some(EndedOf::Starved { shutdown }),
    }
}

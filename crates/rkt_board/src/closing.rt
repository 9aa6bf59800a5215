//! What a launch that is over leaves behind.
ghost use Rattle.std.specs.Prelude.{◌≡◌, ◌<◌, ◌≤◌, ◌+◌, ◌++◌, ◌⊎◌, [], ℕ, Some, true, false, IsTrue, vec_len, vec_capacity};
ghost use Rattle.std.specs.List.{AllByRecursion, list_any};
ghost use Rattle.std.specs.Option.{ForSome};
ghost use Rattle.rkt_turn.specs.HandsBack.{HandsBack};
ghost use Rattle.rkt_link.specs.Clock.{TellsOn};
ghost use Rattle.rkt_link.specs.Listener.{Settled};
ghost use Rattle.rkt_board.specs.After.{AfterFrom};
ghost use Rattle.rkt_board.specs.Board.{Keeps, SoundAs, TimedIn};
ghost use Rattle.rkt_board.specs.Closed.{AllAdmitted, HasCausedEntry};
ghost use Rattle.rkt_board.specs.Events.{is_abandoned, is_close, is_trip, admitted, lift_calls, trip_of, Ordered, IsClosed, EachEndsOnce};
ghost use Rattle.rkt_board.specs.Records.{events};

use crate::{Board, BoardOf, Event, History, HistoryOf, Log, Outside, Record, RecordOf, Served};
use rkt_base::Seq;
use rkt_link::{Clock, Link, Listener};
use rkt_request::Types;
use rkt_turn::Shutdown;

/// What a launch that is over leaves behind.
#[derive(Drop)]
pub struct ClosedOf<L, C, H, R> {
    pub listener: L,
    pub clock: C,
    pub handle: H,
    /// The listener has ended.
    pub over: bool,
    /// The listener has failed.
    pub faulted: bool,
    pub history: R,
}

/// What a launch of an application leaves behind.
pub type Closed<A, L, C> = ClosedOf<
    L,
    C,
    Shutdown<<A as Types>::Reason>,
    History<A, <L as Listener>::Link>,
>;

impl<L, T, H, C, S, K> ClosedOf<L, T, H, HistoryOf<C, S, K>> {
    /// Whether the listener has ended, or there is a Trip.
    #[tactic(auto, using(crate::proofs::Core::found_trip, crate::proofs::Core::none_found))]
    pub fn is_over(&self) -> bool
        ensures found { IsTrue result → (self.now.over ≡ true) ⊎ (list_any is_trip self.now.history.events ≡ true) }
        ensures goes_on { result ≡ false → self.now.over ≡ false }
        ensures trip { result ≡ false → list_any is_trip self.now.history.events ≡ false }
    {
        self.over || self.history.trip().is_some()
    }

    /// Whether the listener has failed, or an exchange was abandoned.
    pub fn has_failed(&self) -> bool
        ensures failed { IsTrue result → (self.now.faulted ≡ true) ⊎ (list_any is_abandoned self.now.history.events ≡ true) }
        ensures sound { result ≡ false → self.now.faulted ≡ false }
        ensures none_abandoned { result ≡ false → list_any is_abandoned self.now.history.events ≡ false }
    {
        self.faulted || self.history.abandoned()
    }
}

// Moves the events of records behind others, where there is room for them.
fn moved<A: Types, K: Link>(
    records: Vec<Record<A, K>>,
    mut history: Vec<Event<A, K>>,
) -> Vec<Event<A, K>>
    requires room { vec_len history + vec_len records ≤ vec_capacity history }
    ensures { result.items ≡ history.items ++ events records.items }
{
    for logged in records {
        let RecordOf {
            by: _,
            event,
            link: _,
        } = logged;
        history.push_reserved(event);
    }
    history
}

/// Hands out what a launch leaves behind whose Close was entered. It takes no memory.
pub fn finish<A: Types, P: Served<A, L::Link>, L: Listener, C: Clock>(
    board: BoardOf<A, P, L, C>,
) -> Closed<A, L, C>
    requires keeps { Keeps L.Link.meaning L.meaning C.meaning P.cause board }
    requires closed { list_any is_close (events board.log.records.items) ≡ true }
    requires fresh { ForSome (L.meaning board.name.listener.value).given (λ given. given ≡ []) }
    ensures history { result.history.events ≡ events board.log.records.items }
    ensures lifted { lift_calls result.history.events ≡ board.name.calls.value }
    ensures outside { (result.listener ≡ board.outside.listener)
        × (result.clock ≡ board.outside.clock)
        × (result.handle ≡ board.outside.handle)
        × (result.over ≡ board.outside.over)
        × (result.faulted ≡ board.outside.faulted) }
    ensures ordered { Ordered result.history.events }
    ensures caused { AfterFrom (P.cause board.name.served (C.meaning board.name.clock.value).window) [] result.history.events }
    ensures closed { IsClosed result.history.events }
    ensures ends { EachEndsOnce result.history.events }
    ensures requests { AllAdmitted (L.meaning result.listener).given result.history.events }
    ensures entries { (k : ℕ)
        → k < admitted result.history.events
        → HasCausedEntry L.Link.meaning (P.cause board.name.served (C.meaning board.name.clock.value).window)
        (L.meaning result.listener).given result.history.events k }
    ensures moments { AllByRecursion (TimedIn (C.meaning board.name.clock.value).window) result.history.events }
    ensures clock { TellsOn (C.meaning board.name.clock.value) (C.meaning result.clock) }
    // The wire was looked at once for each link at least.
    ensures looked { board.name.handle.value.looked + admitted result.history.events ≤ result.handle.looked }
    // The handle has seen the word of the Trip, and one that had seen a word admits nothing.
    ensures word { ForSome (trip_of result.history.events) (λ trip. result.handle.seen ≡ trip.0) }
    ensures still { 0 < board.name.handle.value.seen → admitted result.history.events ≡ 0 }
    ensures handle { HandsBack board.name.handle.value result.handle }
    ensures settled { Settled (L.meaning board.name.listener.value) (L.meaning result.listener) }
    ensures sound { SoundAs result.faulted (L.meaning board.name.listener.value) (L.meaning result.listener) }
    ensures ended { result.over ≡ true → (L.meaning result.listener).ended ≡ true }
    ensures goes_on { result.over ≡ false → (L.meaning result.listener).ended ≡ (L.meaning board.name.listener.value).ended }
    ensures offers { result.over ≡ true
        → ForSome (L.meaning board.name.listener.value).offers (λ all. (L.meaning result.listener).given ≡ Some all) }
{
    let Board {
        name: _,
        log,
        outside,
    } = board;
    let Log {
        records,
        history,
        ..
    } = log;
    let Outside {
        listener,
        clock,
        handle,
        over,
        faulted,
    } = outside;
    ClosedOf {
        listener: listener.into_inner(),
        clock,
        handle,
        over,
        faulted,
        history: HistoryOf {
            events: Seq::from_vec(moved::<A, L::Link>(records, history)),
        },
    }
}

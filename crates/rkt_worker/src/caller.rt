//! The work of the caller over a board: each link that the listener gives is served, until it ends or the wire is tripped.
ghost use Rattle.std.specs.Prelude.{◌≡◌, ◌<◌, ◌≤◌, ◌+◌, ◌++◌, ℕ, [], List, Some, true, false, IfNone, IfSome, IsNone, length, vec_capacity};
ghost use Rattle.std.specs.List.{AllByRecursion, list_any};
ghost use Rattle.std.specs.Option.{ForSome};
ghost use Rattle.rkt_turn.specs.HandsBack.{HandsBack};
ghost use Rattle.rkt_link.specs.Clock.{TellsOn};
ghost use Rattle.rkt_link.specs.Listener.{IsFresh, Settled};
ghost use Rattle.rkt_board.specs.Board.{IsBlank, Keeps, SoundAs};
ghost use Rattle.rkt_board.specs.Events.{is_close, is_trip, admitted, lift_calls, trip_of};
ghost use Rattle.rkt_board.specs.Records.{events};
ghost use Rattle.rkt_board.specs.Turns.{logged, AddsOne, IsGiven, MayClose, ShowsTrip, StaysOpen, TripsAs};
ghost use Rattle.rkt_board.specs.declared.history.EntryOf.{EntryOf};
ghost use Rattle.rkt_board.specs.declared.history.EventOf.TheVariants.{End};
ghost use Rattle.rkt_board.specs.declared.log_record.RecordOf.{RecordOf};
ghost use Rattle.rkt_worker.specs.Headline.{IsCallers, IsLegal};
ghost use Rattle.rkt_worker.specs.Lent.{IsLent, cause_of};
ghost use Rattle.rkt_worker.specs.Rest.{IsAtRest};

use crate::causes::{LentBy, lend};
use crate::serves::Serves;
use crate::working::{CALLER, Worker, serve_lent};
use rkt_base::Seq;
use rkt_board::{
    BoardOf, Closed, Event, Log, Record, Stepped, close, down, end, finish, lift, return_handle,
    turn,
};
use rkt_data::CancellableIo;
use rkt_exchange::Tables;
use rkt_fairing::{App, Called};
use rkt_link::{Clock, Link, Listener};
use rkt_turn::Shutdown;
use std::alloc::Global;
use std::sync::Wait;

// Gives a handle that has seen a word to the board, which then has its Trip, or hands it back. An exchange that was left alone
// keeps its own.
fn return_tripped<A: App, L: Listener, C: Clock>(
    board: &mut BoardOf<A, LentBy<A>, L, C>,
    handle: Option<Shutdown<A::Reason>>,
) -> Option<Shutdown<A::Reason>>
where
    L::Link: Link<Source = A::Source>,
    requires keeps { Keeps L.Link.meaning L.meaning C.meaning (cause_of ⟦<A as Serves<L::Link>>⟧.launching) board.old }
    requires wire { IfSome handle (λ h. h.wire ≡ board.old.name.handle.value.wire) }
    requires unclosed { list_any is_close (events board.old.log.records.items) ≡ false }
    ensures name { board.new.name ≡ board.old.name }
    ensures unseen { IfSome result (λ back. (handle ≡ Some back) × (back.seen ≡ 0)) }
    ensures trip { IfNone result (IfSome handle (λ h. ShowsTrip (Some h.seen) (events board.new.log.records.items))) }
    ensures adds { TripsAs 0 board.old.log.records.items board.new.log.records.items }
    ensures stays { StaysOpen L.Link.meaning board.old.log.records.items board.new.log.records.items }
    ensures clock { TellsOn (C.meaning board.old.outside.clock) (C.meaning board.new.outside.clock) }
    ensures keeps { Keeps L.Link.meaning L.meaning C.meaning (cause_of ⟦<A as Serves<L::Link>>⟧.launching) board.new }
{
    let handle = handle?;
    if handle.seen() == 0 {
        return Some(handle);
    }
    return_handle::<A, LentBy<A>, L, C>(board, CALLER, handle);
    None
}

impl<'a, A: App, R: Wait> Worker<'a, A, R> {
    // Serves a link that was admitted, to its End, and hands the handle back. The Trip of a word that was seen meanwhile
    // stands before the End; where the handle has seen it, the board has that from then on.
    fn serve_given<L: Listener, C: Clock>(
        &self,
        board: &mut BoardOf<A, LentBy<A>, L, C>,
        number: u64,
        moment: u64,
        link: CancellableIo<L::Link>,
        shutdown: Shutdown<A::Reason>,
    ) -> Option<Shutdown<A::Reason>>
    where
        L::Link: Link<Source = A::Source>,
        requires keeps { Keeps L.Link.meaning L.meaning C.meaning (cause_of ⟦<A as Serves<L::Link>>⟧.launching) board.old }
        requires lent { IsLent board.old.name.served self.now.tables.now }
        requires wire { shutdown.wire ≡ board.old.name.handle.value.wire }
        requires unclosed { list_any is_close (events board.old.log.records.items) ≡ false }
        requires given { IsGiven L.Link.meaning board.old.log.records.items 0 number
            (C.meaning board.old.outside.clock).last link }
        ensures name { board.new.name ≡ board.old.name }
        ensures adds { (entry : EntryOf A.Cached A.Stream L.Link) × (ended : ℕ)
            × (between : List (RecordOf A.Cached A.Stream L.Link))
            × TripsAs 0 board.old.log.records.items between
            × AddsOne between board.new.log.records.items (logged 0 (End number entry ended 0)) }
        ensures handle { IfSome result (HandsBack shutdown) }
        // One that comes back has seen no word; where none does, there is a Trip.
        ensures unseen { IfSome result (λ back. back.seen ≡ 0) }
        ensures left { IsNone result → list_any is_trip (events board.new.log.records.items) ≡ true }
        ensures clock { TellsOn (C.meaning board.old.outside.clock) (C.meaning board.new.outside.clock) }
        ensures keeps { Keeps L.Link.meaning L.meaning C.meaning (cause_of ⟦<A as Serves<L::Link>>⟧.launching) board.new }
    {
        let (entry, back) = serve_lent::<A, R, Tables<A>, L::Link, BoardOf<A, LentBy<A>, L, C>>(
            self.rt,
            self.alloc,
            self.tables,
            link,
            shutdown,
            moment,
            board,
        );
        let back = return_tripped::<A, L, C>(board, back);
        end::<A, LentBy<A>, L, C>(board, CALLER, number, entry);
        back
    }

    // Takes turns of the caller, until nothing more is admitted, and hands the handle back that the board has not.
    pub(crate) fn work<L: Listener, C: Clock>(
        &self,
        board: &mut BoardOf<A, LentBy<A>, L, C>,
        mut shutdown: Shutdown<A::Reason>,
    ) -> Option<Shutdown<A::Reason>>
    where
        L::Link: Link<Source = A::Source>,
        requires keeps { Keeps L.Link.meaning L.meaning C.meaning (cause_of ⟦<A as Serves<L::Link>>⟧.launching) board.old }
        requires lent { IsLent board.old.name.served self.now.tables.now }
        requires wire { shutdown.wire ≡ board.old.name.handle.value.wire }
        requires rest { IsAtRest board.old.log.records.items }
        ensures name { board.new.name ≡ board.old.name }
        ensures rest { IsAtRest board.new.log.records.items }
        ensures handle { IfSome result (HandsBack shutdown) }
        // A handle has seen a word only where there is a Trip, the board's and that which comes back.
        ensures tripped { 0 < board.new.outside.handle.seen → list_any is_trip (events board.new.log.records.items) ≡ true }
        ensures lent { (0 < shutdown.seen → 0 < board.old.outside.handle.seen)
            → IfSome result (λ back. 0 < back.seen → list_any is_trip (events board.new.log.records.items) ≡ true) }
        ensures clock { TellsOn (C.meaning board.old.outside.clock) (C.meaning board.new.outside.clock) }
        ensures keeps { Keeps L.Link.meaning L.meaning C.meaning (cause_of ⟦<A as Serves<L::Link>>⟧.launching) board.new }
    {
        for _ in self.rt.forever() {
            match turn::<A, LentBy<A>, L, C>(board, CALLER) {
                Stepped::Again => {}
                Stepped::Given {
                    number,
                    moment,
                    link,
                } => match self.serve_given(board, number, moment, link, shutdown) {
                    Some(back) => shutdown = back,
                    None => return None,
                },
                Stepped::Tripped => return Some(shutdown),
                Stepped::Stop => return Some(shutdown),
            }
        }
        unreachable!()
    }
}

// Calls the fairings of a shutdown and enters the Down, where there is a Trip.
fn bring_down<A: App, L: Listener, C: Clock>(
    alloc: Global,
    tables: &Tables<A>,
    board: &mut BoardOf<A, LentBy<A>, L, C>,
    room: Vec<Called>,
)
where
    L::Link: Link<Source = A::Source>,
    requires keeps { Keeps L.Link.meaning L.meaning C.meaning (cause_of ⟦<A as Serves<L::Link>>⟧.launching) board.old }
    requires rest { IsAtRest board.old.log.records.items }
    requires lent { IsLent board.old.name.served tables.now }
    requires empty { room.items ≡ [] }
    requires room { length tables.now.fairings.places.shutdown ≤ vec_capacity room }
    ensures name { board.new.name ≡ board.old.name }
    ensures handle { board.new.outside.handle ≡ board.old.outside.handle }
    ensures trips { list_any is_trip (events board.new.log.records.items)
        ≡ list_any is_trip (events board.old.log.records.items) }
    ensures closes { MayClose board.new.log.records.items }
    ensures callers { AllByRecursion IsCallers (events board.new.log.records.items) }
    ensures keeps { Keeps L.Link.meaning L.meaning C.meaning (cause_of ⟦<A as Serves<L::Link>>⟧.launching) board.new }
{
    if board.log.tripped {
        let calls = tables.shut_down::<A>(alloc, room);
        down::<A, LentBy<A>, L, C>(board, CALLER, calls);
    }
}

// Enters the Close.
fn bring_to_close<A: App, L: Listener, C: Clock>(board: &mut BoardOf<A, LentBy<A>, L, C>)
where
    L::Link: Link<Source = A::Source>,
    requires keeps { Keeps L.Link.meaning L.meaning C.meaning (cause_of ⟦<A as Serves<L::Link>>⟧.launching) board.old }
    requires closes { MayClose board.old.log.records.items }
    requires callers { AllByRecursion IsCallers (events board.old.log.records.items) }
    ensures name { board.new.name ≡ board.old.name }
    ensures handle { board.new.outside.handle ≡ board.old.outside.handle }
    ensures trips { list_any is_trip (events board.new.log.records.items)
        ≡ list_any is_trip (events board.old.log.records.items) }
    ensures closed { list_any is_close (events board.new.log.records.items) ≡ true }
    ensures callers { AllByRecursion IsCallers (events board.new.log.records.items) }
    ensures keeps { Keeps L.Link.meaning L.meaning C.meaning (cause_of ⟦<A as Serves<L::Link>>⟧.launching) board.new }
{
    close::<A, LentBy<A>, L, C>(board, CALLER);
}

/// Serves on the caller alone, from the Lift of a board with these calls to its Close, and hands out what is left, and
/// the handle that was lent to the exchanges where the board has not taken that. The calls at a shutdown stand in the
/// room.
pub fn serve_to_close<'a, A: App, R: Wait, L: Listener, C: Clock>(
    rt: &'a R,
    alloc: Global,
    tables: &'a Tables<A>,
    log: Log<Record<A, L::Link>, Event<A, L::Link>>,
    listener: L,
    clock: C,
    handle: Shutdown<A::Reason>,
    shutdown: Shutdown<A::Reason>,
    calls: Seq<Called>,
    room: Vec<Called>,
) -> (Closed<A, L, C>, Option<Shutdown<A::Reason>>)
where
    L::Link: Link<Source = A::Source>,
    requires blank { IsBlank log }
    requires fresh { IsFresh (L.meaning listener) }
    requires wire { shutdown.wire ≡ handle.wire }
    requires empty { room.items ≡ [] }
    requires room { length tables.now.fairings.places.shutdown ≤ vec_capacity room }
    ensures lifted { lift_calls result.0.history.events ≡ calls }
    ensures looked { handle.looked + admitted result.0.history.events ≤ result.0.handle.looked }
    ensures legal { IsLegal (⟦<A as Serves<L::Link>>⟧.launching (C.meaning clock).window) tables.now
        (L.meaning result.0.listener).given result.0.history.events }
    ensures clock { TellsOn (C.meaning clock) (C.meaning result.0.clock) }
    // Its handle has seen the word of the Trip, and one that had seen a word admits nothing.
    ensures word { ForSome (trip_of result.0.history.events) (λ trip. result.0.handle.seen ≡ trip.0) }
    ensures still { 0 < handle.seen → admitted result.0.history.events ≡ 0 }
    ensures handle { HandsBack handle result.0.handle }
    ensures lent { IfSome result.1 (HandsBack shutdown) }
    // A handle has seen a word only where there is a Trip, and so has the one that was lent where it begins like that.
    ensures tripped { 0 < result.0.handle.seen → list_any is_trip result.0.history.events ≡ true }
    ensures lent_tripped { (0 < shutdown.seen → 0 < handle.seen)
        → IfSome result.1 (λ back. 0 < back.seen → list_any is_trip result.0.history.events ≡ true) }
    ensures settled { Settled (L.meaning listener) (L.meaning result.0.listener) }
    ensures sound { SoundAs result.0.faulted (L.meaning listener) (L.meaning result.0.listener) }
    ensures ended { result.0.over ≡ true → (L.meaning result.0.listener).ended ≡ true }
    ensures goes_on { result.0.over ≡ false → (L.meaning result.0.listener).ended ≡ false }
    ensures offers { result.0.over ≡ true
        → ForSome (L.meaning listener).offers (λ all. (L.meaning result.0.listener).given ≡ Some all) }
{
    let mut board = lift::<A, LentBy<A>, L, C>(
        log,
        lend(tables),
        listener,
        clock,
        handle,
        CALLER,
        calls,
    );
    let worker: Worker<'a, A, R> = Worker { rt, alloc, tables };
    let back = worker.work(&mut board, shutdown);
    bring_down::<A, L, C>(alloc, tables, &mut board, room);
    bring_to_close::<A, L, C>(&mut board);
    let closed = finish::<A, LentBy<A>, L, C>(board);
    (closed, back)
}

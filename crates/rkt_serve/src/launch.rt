//! The launch of a rocket.
ghost use Rattle.std.specs.Prelude.{◌≡◌, ◌<◌, ◌≤◌, ◌⊎◌, [], ℕ, List, Some, true, false, IfOk, IfErr, IfSome, ⊤, length, vec_capacity};
ghost use Rattle.std.specs.List.{AllByRecursion, list_any};
ghost use Rattle.std.specs.Option.{ForSome};
ghost use Rattle.rkt_turn.specs.HandsBack.{HandsBack};
ghost use Rattle.rkt_ignition.specs.Ignited.{IsIgnited, IsRefused};
ghost use Rattle.rkt_ignition.specs.Valid.{IsValid};
ghost use Rattle.rkt_ignition.specs.declared.error.IgniteError.{IgniteError};
ghost use Rattle.rkt_life.specs.Ignition.{IgnitesTo};
ghost use Rattle.rkt_life.specs.Rocket.{SeenRocket};
ghost use Rattle.rkt_turn.specs.Shutdown.{Handle, fresh};
ghost use Rattle.rkt_worker.specs.Causes.{AllCaused};
ghost use Rattle.rkt_board.specs.Board.{IsBlank};
ghost use Rattle.rkt_board.specs.Closed.{AllAdmitted};
ghost use Rattle.rkt_board.specs.Events.{is_abandoned, is_trip, admitted, trip_of, Ordered, IsClosed, EachEndsOnce};
ghost use Rattle.rkt_worker.specs.Headline.{GoesOn, HasEntries, AllTimed, IsCallers, IsLegal, IsOver};
ghost use Rattle.rkt_serve.specs.Kept.{GivesBack, IfKept, IfShutdown, IfUnlit, IfWanting, IsLit};
ghost use Rattle.rkt_serve.specs.Left.{IsLeft};
ghost use Rattle.rkt_serve.specs.Lifted.{IsLifted, LiftsOff};
ghost use Rattle.rkt_fairing.specs.Lifts.{Lifts};
ghost use Rattle.rkt_fairing.specs.declared.called.Called.{Called};
ghost use Rattle.rkt_link.specs.Listener.{IsFresh, Settled};
ghost use Rattle.rkt_exchange.specs.View.{view_of};
ghost use Rattle.rkt_worker.specs.Waiting.{MayAbandon};

use crate::{Clock, Error, ErrorKindOf, Launched, LaunchedOf, Link, Listener};
use rkt_base::{NoMemory, Seq, Want};
use rkt_board::{Closed, ClosedOf, Event, Log, Record};
use rkt_fairing::Called;
use rkt_ignition::Aborts;
use rkt_life::{App, Build, Fairing, Ignite, Orbit, Rocket, Tables};
use rkt_request::{ConfigTable, Types};
use rkt_turn::{Reason, Shutdown};
use rkt_worker::{Serves, serve_to_close};
use std::alloc::Global;
use std::sync::Wait;
use std::thread::Threads;

/// What can be launched.
pub trait Launch<A: App>: Sized {
    /// With these calls at liftoff it becomes this rocket, whatever its handle, and the handle of its wire is left as this one.
    ghost lifts: { Self → List Called → Handle → SeenRocket A.Fairing A.Handler A.Catch A.Sentinel A.Value → Type 0 };

    /// The handle of its wire may come back as this one.
    ghost hands_back: { Self → Handle → Type 0 };

    /// It may be refused for this.
    ghost refuses: { Self → IgniteError → Type 0 };

    /// It cannot be refused.
    ghost valid: { Self → Type 0 };

    /// The word that its handle has seen, or 0.
    ghost seen: { Self → ℕ };

    /// Serves what the listener gives, until that ends or the wire has a word, which is looked for before each link. The
    /// caller alone serves, whatever the number of workers.
    fn launch<R: Wait + Threads, L: Listener, C: Clock>(
        self,
        rt: &R,
        alloc: Global,
        listener: L,
        clock: C,
        workers: usize,
    ) -> Result<Launched<A, L, C>, Error<A, L, C>>
    where
        L::Link: Link<Source = A::Source>,
        requires fresh { IsFresh (L.meaning listener) }
        // The rocket is the one that the callbacks of liftoff left.
        ensures tables { IfOk result (λ l. IsLifted (lifts self) l.history.events l.rocket) }
        ensures handle { IfOk result (λ l. hands_back self l.rocket.handle) }
        // Legal: the events are in order, and each has its cause.
        ensures ordered { IfOk result (λ l. Ordered l.history.events) }
        ensures caused { IfOk result (λ l.
            AllCaused (⟦<A as Serves<L::Link>>⟧.launching (C.meaning clock).window) l.rocket.tables l.history.events) }
        ensures closed { IfOk result (λ l. IsClosed l.history.events) }
        ensures ended { IfOk result (λ l. IsOver (L.meaning l.listener) l.history.events) }
        ensures sound { IfOk result (λ l. (L.meaning l.listener).faults ≡ 0) }
        ensures none_abandoned { IfOk result (λ l. list_any is_abandoned l.history.events ≡ false) }
        ensures requests { IfOk result (λ l. AllAdmitted (L.meaning l.listener).given l.history.events) }
        // What the listener says of itself is as it was.
        ensures settled { IfOk result (λ l. Settled (L.meaning listener) (L.meaning l.listener)) }
        ensures offers { IfOk result (λ l. list_any is_trip l.history.events ≡ false
            → ForSome (L.meaning listener).offers (λ all. (L.meaning l.listener).given ≡ Some all)) }
        // The rocket's handle has seen the word of the Trip, and one that had seen a word before admits nothing.
        ensures word { IfOk result (λ l. ForSome (trip_of l.history.events) (λ trip. l.rocket.handle.seen ≡ trip.0)) }
        ensures still { IfOk result (λ l. 0 < seen self → admitted l.history.events ≡ 0) }
        // The handle comes back with a word only where there is a Trip; so there is one where it had seen a word before.
        ensures tripped { IfOk result (λ l. 0 < l.rocket.handle.seen → list_any is_trip l.history.events ≡ true) }
        ensures trips { IfOk result (λ l. 0 < seen self → list_any is_trip l.history.events ≡ true) }
        ensures ends { IfOk result (λ l. EachEndsOnce l.history.events) }
        ensures entries { IfOk result (λ l. HasEntries (⟦<A as Serves<L::Link>>⟧.serving (C.meaning clock).window)
            l.rocket.tables (L.meaning l.listener).given l.history.events) }
        ensures moments { IfOk result (λ l. AllTimed (C.meaning clock).window l.history.events) }
        ensures callers { IfOk result (λ l. AllByRecursion IsCallers l.history.events) }
        ensures window { IfOk result (λ l. (C.meaning l.clock).window ≡ (C.meaning clock).window) }
        // What an error keeps is legal and closed too, and only need not have come to the listener's end or a Trip.
        ensures kept_tables { IfErr result (λ e. IfKept e (λ l. IsLifted (lifts self) l.history.events l.rocket)) }
        ensures kept_handle { IfErr result (λ e. IfKept e (λ l. hands_back self l.rocket.handle)) }
        ensures kept_legal { IfErr result (λ e.
            IfKept e (λ l. IsLegal (⟦<A as Serves<L::Link>>⟧.launching (C.meaning clock).window)
            l.rocket.tables (L.meaning l.listener).given l.history.events)) }
        ensures kept_sound { IfErr result (λ e. IfWanting e (λ l. (L.meaning l.listener).faults ≡ 0)) }
        ensures kept_none_abandoned { IfErr result (λ e. IfWanting e (λ l. list_any is_abandoned l.history.events ≡ false)) }
        ensures kept_settled { IfErr result (λ e. IfKept e (λ l. Settled (L.meaning listener) (L.meaning l.listener))) }
        // What is kept for want of memory has come neither to the listener's end nor to a Trip.
        ensures kept_goes_on { IfErr result (λ e. IfWanting e (λ l. GoesOn (L.meaning l.listener) l.history.events)) }
        ensures kept_word { IfErr result (λ e. IfKept e (λ l.
            ForSome (trip_of l.history.events) (λ trip. l.rocket.handle.seen ≡ trip.0))) }
        ensures kept_still { IfErr result (λ e. IfKept e (λ l. 0 < seen self → admitted l.history.events ≡ 0)) }
        ensures kept_tripped { IfErr result (λ e. IfKept e (λ l.
            0 < l.rocket.handle.seen → list_any is_trip l.history.events ≡ true)) }
        ensures kept_trips { IfErr result (λ e. IfKept e (λ l. 0 < seen self → list_any is_trip l.history.events ≡ true)) }
        ensures kept_window { IfErr result (λ e. IfKept e (λ l. (C.meaning l.clock).window ≡ (C.meaning clock).window)) }
        // It fails only where it does not ignite, where its listener has failed or an exchange was abandoned, or for want of
        // memory.
        ensures refused { IfErr result (λ e. IfUnlit e (λ fault. refuses self fault)) }
        ensures shutdown { IfErr result (λ e. IfShutdown e (λ l.
            (0 < (L.meaning l.listener).faults) ⊎ (list_any is_abandoned l.history.events ≡ true))) }
        ensures outside { IfErr result (λ e. GivesBack listener clock e) }
        // Where no exchange can be abandoned, that leaves want of memory alone.
        ensures complete { valid self → (L.meaning listener).never_faults ≡ true → IfErr result (λ e. IsLit e
            × IfShutdown e (λ l. MayAbandon (⟦<A as Serves<L::Link>>⟧.launching (C.meaning clock).window) l.rocket.tables)) };
}

// What a launch has before its Lift: room for what happens, the handle of the exchanges, and how the calls at liftoff ended.
#[derive(Drop)]
struct Begun<B, W> {
    log: B,
    room: Vec<Called>,
    shutdown: W,
    calls: Seq<Called>,
}

type BegunOf<A, K> = Begun<Log<Record<A, K>, Event<A, K>>, Shutdown<<A as Types>::Reason>>;

// Makes room, splits a handle off, and calls the fairings of liftoff.
fn begin<A: App, K: Link>(
    alloc: Global,
    tables: &mut Tables<A>,
    handle: &mut Shutdown<A::Reason>,
) -> Result<BegunOf<A, K>, NoMemory>
    ensures blank { IfOk result (λ begun. IsBlank begun.log) }
    ensures empty { IfOk result (λ begun. begun.room.items ≡ []) }
    ensures room { IfOk result (λ begun. length tables.new.fairings.places.shutdown ≤ vec_capacity begun.room) }
    ensures lends { IfOk result (λ begun. begun.shutdown ≡ handle.old) }
    ensures lifts { IfOk result (λ begun.
        Lifts A.Fairing.Lifts.calling (view_of tables.old) (record { fairings = tables.old.fairings; shutdown = handle.old })
        begun.calls (record { fairings = tables.new.fairings; shutdown = handle.new })) }
    ensures tables { IfOk result (λ begun. tables.new ≡ record tables.old { fairings = tables.new.fairings }) }
    ensures handle { IfOk result (λ begun. HandsBack handle.old handle.new) }
{
    let log = Log::new(alloc)?;
    let room = tables.down_room(alloc)?;
    let shutdown = handle.split()?;
    let calls = tables.liftoff::<A>(alloc, handle)?;
    Ok(Begun {
        log,
        room,
        shutdown,
        calls,
    })
}

// A handle that takes another one of its wire back.
#[tactic(auto, using(crate::proofs::Handles::rejoined, rkt_turn::specs::HandsBackLaws::hands_back_same))]
fn with_back<W: Reason>(mut handle: Shutdown<W>, back: Option<Shutdown<W>>) -> Shutdown<W>
    requires wire { IfSome back (λ other. other.wire ≡ handle.wire) }
    ensures back { HandsBack handle result }
    ensures unseen { handle.seen ≡ 0 → IfSome back (λ other. other.seen ≡ 0) → result.seen ≡ 0 }
{
    if let Some(other) = back {
        handle.rejoin(other);
    }
    handle
}

// What is left, with a handle that takes another one of its wire back.
fn rejoined<L, C, W: Reason, R>(
    closed: ClosedOf<L, C, Shutdown<W>, R>,
    back: Option<Shutdown<W>>,
) -> ClosedOf<L, C, Shutdown<W>, R>
    requires wire { IfSome back (λ other. other.wire ≡ closed.handle.wire) }
    ensures { (handle : Handle) × HandsBack closed.handle handle × (result ≡ record closed { handle = handle })
        × (closed.handle.seen ≡ 0 → IfSome back (λ other. other.seen ≡ 0) → handle.seen ≡ 0) }
{
    let ClosedOf {
        listener,
        clock,
        handle,
        over,
        faulted,
        history,
    } = closed;
    let handle = with_back(handle, back);
    ClosedOf {
        listener,
        clock,
        handle,
        over,
        faulted,
        history,
    }
}

// What a launch answers that is closed.
fn answered<A: App, L: Listener, C: Clock>(
    tables: Tables<A>,
    table: ConfigTable,
    closed: Closed<A, L, C>,
) -> Result<Launched<A, L, C>, Error<A, L, C>>
    ensures ok { IfOk result (IsLeft tables table closed) }
    ensures over { IfOk result (λ l. (closed.over ≡ true) ⊎ (list_any is_trip closed.history.events ≡ true)) }
    ensures sound { IfOk result (λ l. closed.faulted ≡ false) }
    ensures none_abandoned { IfOk result (λ l. list_any is_abandoned closed.history.events ≡ false) }
    ensures kept { IfErr result (λ e. IfKept e (IsLeft tables table closed)) }
    ensures kept_sound { IfErr result (λ e. IfWanting e (λ l. closed.faulted ≡ false)) }
    ensures kept_none_abandoned { IfErr result (λ e. IfWanting e (λ l. list_any is_abandoned closed.history.events ≡ false)) }
    ensures kept_goes_on { IfErr result (λ e.
        IfWanting e (λ l. (closed.over ≡ false) × (list_any is_trip closed.history.events ≡ false))) }
    ensures shutdown { IfErr result (λ e.
        IfShutdown e (λ l. (closed.faulted ≡ true) ⊎ (list_any is_abandoned closed.history.events ≡ true))) }
    // Where the handle has seen a word only with a Trip, so has that which comes back.
    ensures tripped { (0 < closed.handle.seen → list_any is_trip closed.history.events ≡ true)
        → IfOk result (λ l. 0 < l.rocket.handle.seen → list_any is_trip l.history.events ≡ true) }
    ensures kept_tripped { (0 < closed.handle.seen → list_any is_trip closed.history.events ≡ true)
        → IfErr result (λ e. IfKept e (λ l. 0 < l.rocket.handle.seen → list_any is_trip l.history.events ≡ true)) }
    ensures lit { IfErr result (λ e. IsLit e) }
{
    let over = closed.is_over();
    let failed = closed.has_failed();
    let ClosedOf {
        listener,
        clock,
        handle,
        over: _,
        faulted: _,
        history,
    } = closed;
    let launched = LaunchedOf {
        rocket: Rocket::<Orbit, A>::from_parts(tables, table, handle).into_ignite(),
        listener,
        clock,
        history,
    };
    if failed {
        return Err(Error::new(ErrorKindOf::Shutdown(launched)));
    }
    if over {
        return Ok(launched);
    }
    Err(Error::new(ErrorKindOf::NoMemory {
        kept: Some(launched),
    }))
}

impl<A: App> Launch<A> for Rocket<Ignite, A> {
    ghost lifts = { λ rocket. LiftsOff A.Fairing.Lifts.calling rocket };

    ghost hands_back = { λ rocket handle. HandsBack rocket.handle handle };

    ghost refuses = { λ rocket fault. ⊥ };

    ghost valid = { λ rocket. ⊤ };

    ghost seen = { λ rocket. rocket.handle.seen };

    fn launch<R: Wait + Threads, L: Listener, C: Clock>(
        self,
        rt: &R,
        alloc: Global,
        listener: L,
        clock: C,
        _workers: usize,
    ) -> Result<Launched<A, L, C>, Error<A, L, C>>
    where
        L::Link: Link<Source = A::Source>,
    {
        let (mut tables, table, mut handle) = self.into_orbit().into_parts();
        let Ok(begun) = begin::<A, L::Link>(alloc, &mut tables, &mut handle) else {
            // By calls, in which that is proved once for each type.
            drop(tables);
            drop(table);
            drop(handle);
            return Err(Error::new(ErrorKindOf::NoMemory { kept: None }));
        };
        let Begun {
            log,
            room,
            shutdown,
            calls,
        } = begun;
        let (closed, back) = serve_to_close::<A, R, L, C>(
            rt, alloc, &tables, log, listener, clock, handle, shutdown, calls, room,
        );
        let closed = rejoined(closed, back);
        answered::<A, L, C>(tables, table, closed)
    }
}

impl<A: App<Sentinel: Aborts<A>>> Launch<A> for Rocket<Build, A> {
    // As a rocket that has ignited of it.
    ghost lifts = { λ building calls left after. (rocket : SeenRocket A.Fairing A.Handler A.Catch A.Sentinel A.Value)
        × IgnitesTo (IsIgnited A.Fairing.Ignites.calling A.Fairing.key A.Fairing.info A.Sentinel.may building) rocket
        × LiftsOff A.Fairing.Lifts.calling rocket calls left after };

    // Its wire is made when it ignites.
    ghost hands_back = { λ building handle. (first : Handle) × (first ≡ fresh first.wire) × HandsBack first handle };

    ghost refuses = { λ building fault.
        IsRefused A.Fairing.Ignites.calling A.Fairing.key A.Fairing.info A.Sentinel.may building fault };

    ghost valid = { λ building. IsValid A.Fairing.Ignites.calling A.Fairing.key A.Fairing.info A.Sentinel.may building };

    ghost seen = { λ building. 0 };

    fn launch<R: Wait + Threads, L: Listener, C: Clock>(
        self,
        rt: &R,
        alloc: Global,
        listener: L,
        clock: C,
        workers: usize,
    ) -> Result<Launched<A, L, C>, Error<A, L, C>>
    where
        L::Link: Link<Source = A::Source>,
    {
        match self.ignite(alloc) {
            Ok(rocket) => rocket.launch(rt, alloc, listener, clock, workers),
            Err(Want::Refused(fault)) => Err(Error::new(ErrorKindOf::Ignition {
                fault,
                listener,
                clock,
            })),
            Err(Want::NoMemory) => Err(Error::new(ErrorKindOf::NoMemory { kept: None })),
        }
    }
}

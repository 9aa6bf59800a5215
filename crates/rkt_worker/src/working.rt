//! What serves a link: one exchange with it, and the sending of its response.
ghost use Rattle.std.specs.Prelude.{◌≡◌, ◌≢◌, ℕ, [], Bool, Option, IfSome, IsNone, IsSome, IsSomeAnd, IsTrue};
ghost use Rattle.std.specs.List.{All};
ghost use Rattle.std.specs.Option.{ForSome};
ghost use Rattle.rkt_routing.specs.Backs.{Sees};
ghost use Rattle.rkt_turn.specs.HandsBack.{HandsBack};
ghost use Rattle.rkt_board.specs.declared.history.End.TheVariants.{Abandoned};
ghost use Rattle.rkt_source.specs.declared.stage.Stage.{Stage};
ghost use Rattle.rkt_worker.specs.Causes.{Caused};
ghost use Rattle.rkt_link.specs.Clock.{IsAmid};
ghost use Rattle.rkt_worker.specs.Gates.{IsCutBy, IsDelayedBy, told, word_in};
ghost use Rattle.rkt_exchange.specs.Tables.{SeenTables};
ghost use Rattle.rkt_worker.specs.Lifecycle.{Lifecycle};
ghost use Rattle.rkt_link.specs.Link.{IsFreshLink};
ghost use Rattle.rkt_worker.specs.Serving.{callbacks_of};
ghost use Rattle.rkt_worker.specs.Waiting.{IsLate};

use crate::Gates;
use crate::exchanging::{gate_of, run_exchange};
use crate::lending::Lends;
use crate::sending::send;
use crate::serves::Serves;
use crate::taking::take_source;
use rkt_board::{End, Entry, EntryOf, kept};
use rkt_data::CancellableIo;
use rkt_exchange::{EndedOf, Run, Tables};
use rkt_fairing::App;
use rkt_link::Link;
use rkt_message::Response;
use rkt_turn::Shutdown;
use std::alloc::Global;
use std::sync::Wait;

// The number of the caller among the workers.
pub(crate) const CALLER: u64 = 0;

// What the links are served with. What is known of the tables in a call stands behind an arrow in its promises.
#[derive(Drop)]
pub(crate) struct Worker<'a, A: App, R> {
    pub(crate) rt: &'a R,
    pub(crate) alloc: Global,
    pub(crate) tables: &'a Tables<A>,
}

// How often in a row the source of a body may be Pending.
fn turns_of<A: App>(tables: &Tables<A>) -> u32
    ensures { result ≡ tables.now.config.turns }
{
    tables.config.turns
}

// Sends the response of a run, and keeps both with how that ended. Where there is no memory to keep them, nothing is sent. Each poll
// has a Gate of its own; the source of the body may be Pending so often in a row.
fn answer<A: App, R: Wait, K: Link, G: Gates>(
    rt: &R,
    alloc: Global,
    gates: &mut G,
    mut io: CancellableIo<K>,
    run: Run<A>,
    response: Response<A::Stream>,
    turns: u32,
) -> Entry<A, K>
    requires keeps { G.keeps gates.old }
    requires active { io.stage ≡ Stage.Active }
    ensures keeps { G.keeps gates.new }
    ensures leads { G.leads gates.old gates.new }
    ensures asked { (K.meaning result.link.io).asked ≡ (K.meaning io.io).asked }
    ensures caused { (window : Option (ℕ × ℕ)) (tables : SeenTables A.Fairing A.Handler A.Catch A.Sentinel A.Value)
        → tables.config.turns ≡ turns → (G.watched gates.old).grace ≡ tables.config.grace
        → ForSome (K.meaning io.io).held (λ held. held ≡ []) → (K.meaning io.io).faults ≡ 0
        → (shown : Bool) → (IsTrue shown → IsSome (word_in (G.watched gates.old).trip))
        → ForSome (K.meaning io.io).asked (λ asked.
        Lifecycle (callbacks_of (⟦<A as Serves<K>>⟧.serving window) tables shown) tables A.Source.meaning asked run response)
        → Caused (⟦<A as Serves<K>>⟧.serving window) tables (word_in (G.watched gates.new).trip) result }
    ensures cut { IsCutBy (G.watched gates.new) result.end }
    ensures ended { result.end ≢ Abandoned }
    ensures moment { ForSome result.run (λ kept. kept.moment ≡ run.moment) }
    ensures calls { ForSome result.run (λ kept. kept.calls ≡ run.calls) }
{
    // Both have their place before anything is sent.
    let Ok((run, mut kept)) = kept::<A>(alloc, run, response) else {
        return EntryOf::unanswered(io, End::Starved);
    };
    let response = kept.replace(Response::new(alloc));
    let (response, ended) = send::<R, G, K, A::Stream>(rt, alloc, gates, &mut io, response, turns);
    // What is let go is by a call, in which that is proved once for its type.
    drop(kept.replace(response));
    EntryOf {
        link: io,
        run: Some(run),
        response: Some(kept),
        end: ended,
    }
}

// One exchange from a moment on, kept with its end, and the handle that it was given, which one that is abandoned keeps.
// A link that is fresh has its source.
fn serve<A: App, R: Wait, K: Link<Source = A::Source>, G: Gates>(
    rt: &R,
    alloc: Global,
    tables: &Tables<A>,
    mut link: CancellableIo<K>,
    shutdown: Shutdown<A::Reason>,
    moment: u64,
    gates: &mut G,
) -> (Entry<A, K>, Option<Shutdown<A::Reason>>)
    requires keeps { G.keeps gates.old }
    requires delays { IsDelayedBy tables.now.config.grace tables.now.config.mercy (G.watched gates.old) }
    requires active { link.stage ≡ Stage.Active }
    ensures keeps { G.keeps gates.new }
    ensures leads { G.leads gates.old gates.new }
    ensures asked { (K.meaning result.0.link.io).asked ≡ (K.meaning link.io).asked }
    ensures caused { IsFreshLink (K.meaning link.io)
        → Caused (⟦<A as Serves<K>>⟧.serving (G.watched gates.old).window) tables.now
        (word_in (G.watched gates.new).trip) result.0 }
    ensures cut { IsCutBy (G.watched gates.new) result.0.end }
    ensures moment { ForSome result.0.run (λ run.
        IsAmid (told (G.watched gates.old)) (told (G.watched gates.new)) run.moment) }
    ensures late { result.0.end ≡ Abandoned → IsLate tables.now.config.grace tables.now.config.mercy
        (G.watched gates.new).trip (G.watched gates.new).last }
    ensures words { ForSome result.0.run (λ run. IsSomeAnd result.1 (λ handle. All (Sees handle) run.calls)) }
    ensures handle { IfSome result.1 (HandsBack shutdown) }
    // One that keeps its handle was left alone behind a Trip.
    ensures left { IsNone result.1 → IsSome (G.watched gates.new).trip }
{
    let gate = gate_of::<A>(tables, moment);
    let Some(source) = take_source(&mut link, gate) else {
        return (EntryOf::unanswered(link, End::Starved), Some(shutdown));
    };
    let ended = run_exchange::<A, R, G>(
        rt,
        alloc,
        tables,
        link.kept().head(),
        source,
        shutdown,
        moment,
        gates,
    );
    let Some(ended) = ended else {
        return (EntryOf::unanswered(link, End::Abandoned), None);
    };
    match ended {
        EndedOf::Finished {
            run,
            response,
            shutdown,
        } => {
            let turns = turns_of::<A>(tables);
            let entry = answer::<A, R, K, G>(rt, alloc, gates, link, run, response, turns);
            (entry, Some(shutdown))
        }
        EndedOf::Starved { shutdown } => {
            (EntryOf::unanswered(link, End::Starved), Some(shutdown))
        }
    }
}

// The same, with tables that are lent.
pub(crate) fn serve_lent<A: App, R: Wait, T: Lends<A>, K: Link<Source = A::Source>, G: Gates>(
    rt: &R,
    alloc: Global,
    tables: &T,
    link: CancellableIo<K>,
    shutdown: Shutdown<A::Reason>,
    moment: u64,
    gates: &mut G,
) -> (Entry<A, K>, Option<Shutdown<A::Reason>>)
    requires keeps { G.keeps gates.old }
    requires delays { IsDelayedBy (T.lent tables.now).config.grace (T.lent tables.now).config.mercy (G.watched gates.old) }
    requires active { link.stage ≡ Stage.Active }
    ensures keeps { G.keeps gates.new }
    ensures leads { G.leads gates.old gates.new }
    ensures asked { (K.meaning result.0.link.io).asked ≡ (K.meaning link.io).asked }
    ensures caused { IsFreshLink (K.meaning link.io)
        → Caused (⟦<A as Serves<K>>⟧.serving (G.watched gates.old).window) (T.lent tables.now)
        (word_in (G.watched gates.new).trip) result.0 }
    ensures cut { IsCutBy (G.watched gates.new) result.0.end }
    ensures moment { ForSome result.0.run (λ run.
        IsAmid (told (G.watched gates.old)) (told (G.watched gates.new)) run.moment) }
    ensures late { result.0.end ≡ Abandoned → IsLate (T.lent tables.now).config.grace (T.lent tables.now).config.mercy
        (G.watched gates.new).trip (G.watched gates.new).last }
    ensures words { ForSome result.0.run (λ run. IsSomeAnd result.1 (λ handle. All (Sees handle) run.calls)) }
    ensures handle { IfSome result.1 (HandsBack shutdown) }
    // One that keeps its handle was left alone behind a Trip.
    ensures left { IsNone result.1 → IsSome (G.watched gates.new).trip }
{
    let tables = tables.tables();
    serve::<A, R, K, G>(rt, alloc, tables, link, shutdown, moment, gates)
}

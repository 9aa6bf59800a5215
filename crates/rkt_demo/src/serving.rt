//! Serves requests by the sample, in one launch or in two.
ghost use Rattle.std.specs.Prelude.{◌≡◌, ◌++◌, ℕ, List, IfOk, OnOk, length, map, true};
ghost use Rattle.std.specs.List.{AllByRecursion};
ghost use Rattle.rkt_base.specs.Want.{IfRefused};
ghost use Rattle.rkt_board.specs.Events.{admitted};
ghost use Rattle.rkt_link.specs.Listener.{IsFresh};
ghost use Rattle.rkt_link.specs.Memory.{IsUnused, asked_of, listener_meaning};
ghost use Rattle.rkt_demo.specs.Launched.{ServesFront};
ghost use Rattle.rkt_demo.specs.Program.{IsAccepted};
ghost use Rattle.rkt_demo.specs.Sample.{IsSample};
ghost use Rattle.rkt_demo.specs.Shown.{ShowsRequests, asked_for};
ghost use Rattle.rkt_script.specs.Stopping.{StandBefore};
ghost use Rattle.rkt_serve.specs.Kept.{IsWant};
ghost use Rattle.rkt_script.specs.Words.{Table};

use crate::output::{print_histories, print_history};
use crate::sample::{ByHandler, NeverStops, Sample, SampleHistory};
use rkt_base::{NoMemory, Want};
use rkt_life::{Ignite, IgniteError, Rocket};
use rkt_request::ConfigTable;
use rkt_sample::StopReason;
use rkt_script::{ScriptRequest, before_stop};
use rkt_serve::{
    Clock, Error, ErrorKindOf, Launch, Launched, LaunchedOf, ListListener, MemoryLink,
};
use std::alloc::{AllocError, Global};
use std::sync::Wait;
use std::thread::Threads;

// A link for each request.
fn links_for(alloc: Global, requests: Vec<ScriptRequest>) -> Result<Vec<MemoryLink>, NoMemory>
    ensures asked { IfOk result (λ links. map asked_of links.items ≡ map asked_for requests.items) }
    ensures unused { IfOk result (λ links. AllByRecursion IsUnused links.items) }
{
    let mut links = Vec::with_capacity(alloc, requests.len())?;
    for request in requests {
        let ScriptRequest { head, body } = request;
        links.push(MemoryLink::new(alloc, head, body.into_vec(), Vec::new(alloc))?)?;
    }
    Ok(links)
}

// A listener that gives a link for each request.
fn listener_for(alloc: Global, requests: Vec<ScriptRequest>) -> Result<ListListener, NoMemory>
    ensures offers { IfOk result (λ listener. map asked_of listener.offered ≡ map asked_for requests.items) }
    ensures fresh { IfOk result (λ listener. IsFresh (listener_meaning listener)) }
    ensures sound { IfOk result (λ listener. (listener_meaning listener).never_faults ≡ true) }
{
    let links = links_for(alloc, requests)?;
    ListListener::new(alloc, links, Vec::new(alloc), Vec::new(alloc))
}

// What a launch leaves: its history, and what another one is made of.
#[derive(Drop)]
struct Served<H, C> {
    history: H,
    clock: C,
    table: ConfigTable,
}

// Lets go of all else.
fn into_served<Q: StopReason, C: Clock>(
    launched: Launched<Sample<Q>, ListListener, C>,
) -> Served<SampleHistory, C>
    ensures history { result.history ≡ launched.history }
    ensures clock { result.clock ≡ launched.clock }
    ensures table { result.table ≡ launched.rocket.table }
{
    let LaunchedOf {
        rocket,
        listener,
        clock,
        history,
    } = launched;
    drop(listener);
    let (tables, table, handle) = rocket.into_orbit().into_parts();
    drop(tables);
    drop(handle);
    Served {
        history,
        clock,
        table,
    }
}

// Lets go of what a launch without memory has kept. The sample fails for nothing else: it has ignited, its listener never
// fails, and no exchange of it is abandoned.
fn want_of<Q: StopReason, C: Clock>(error: Error<Sample<Q>, ListListener, C>) -> NoMemory
    requires { IsWant error }
{
    match error.kind() {
        ErrorKindOf::NoMemory { kept } => drop(kept),
        ErrorKindOf::Ignition { .. } | ErrorKindOf::Shutdown(_) => unreachable!(),
    }
    AllocError
}

// Offers requests to a launch of a rocket.
fn serve_launch<Q: StopReason, R: Wait + Threads, C: Clock>(
    rt: &R,
    alloc: Global,
    rocket: Rocket<Ignite, Sample<Q>>,
    requests: Vec<ScriptRequest>,
    clock: C,
) -> Result<Served<SampleHistory, C>, NoMemory>
    ensures serves { (table : Table)
        → IsSample table rocket.tables
        → IfOk result (λ served. ServesFront table Q.stop_word (C.meaning clock).window requests.items served.history.events) }
    ensures all { ((word : ℕ) → ¬ Q.allowed word)
        → IfOk result (λ served. admitted served.history.events ≡ length requests.items) }
    ensures table { IfOk result (λ served. served.table ≡ rocket.table) }
    ensures window { IfOk result (λ served. (C.meaning served.clock).window ≡ (C.meaning clock).window) }
{
    let Ok(listener) = listener_for(alloc, requests) else {
        // By a call, in which that is proved once for its type.
        drop(rocket);
        return Err(AllocError);
    };
    match rocket.launch(rt, alloc, listener, clock, 0) {
        Ok(launched) => Ok(into_served(launched)),
        Err(error) => Err(want_of(error)),
    }
}

// Offers requests to a launch of the sample over this reason, with what a table sets.
fn serve_over<Q: StopReason, R: Wait + Threads, C: Clock>(
    rt: &R,
    alloc: Global,
    table: ConfigTable,
    requests: Vec<ScriptRequest>,
    clock: C,
) -> Result<Served<SampleHistory, C>, Want<IgniteError>>
    ensures serves { IfOk result (λ served.
        ServesFront table Q.stop_word (C.meaning clock).window requests.items served.history.events) }
    ensures all { ((word : ℕ) → ¬ Q.allowed word)
        → IfOk result (λ served. admitted served.history.events ≡ length requests.items) }
    ensures table { IfOk result (λ served. served.table ≡ table) }
    ensures window { IfOk result (λ served. (C.meaning served.clock).window ≡ (C.meaning clock).window) }
    ensures accepted { OnOk result (IsAccepted table) }
    ensures refused { IfRefused result (λ _. ¬ IsAccepted table) }
{
    let rocket = Sample::<Q>::rocket(alloc, table)?;
    Ok(serve_launch(rt, alloc, rocket, requests, clock)?)
}

/// Launches the sample over this reason, with what a table sets, offers it requests, and gives the history of that.
pub fn launch_sample<Q: StopReason, R: Wait + Threads, C: Clock>(
    rt: &R,
    alloc: Global,
    table: ConfigTable,
    requests: Vec<ScriptRequest>,
    clock: C,
) -> Result<SampleHistory, Want<IgniteError>>
    ensures serves { IfOk result (λ history.
        ServesFront table Q.stop_word (C.meaning clock).window requests.items history.events) }
    ensures all { ((word : ℕ) → ¬ Q.allowed word) → IfOk result (λ history. admitted history.events ≡ length requests.items) }
    ensures accepted { OnOk result (IsAccepted table) }
    ensures refused { IfRefused result (λ _. ¬ IsAccepted table) }
{
    let served = serve_over::<Q, R, C>(rt, alloc, table, requests, clock)?;
    let Served {
        history,
        clock,
        table,
    } = served;
    drop(clock);
    drop(table);
    Ok(history)
}

// Serves requests of which none is for `/stop`, in one launch, and tells how they ended.
fn serve_alone<R: Wait + Threads, C: Clock>(
    rt: &R,
    alloc: Global,
    table: ConfigTable,
    requests: Vec<ScriptRequest>,
    clock: C,
) -> Result<Vec<u8>, Want<IgniteError>>
    ensures shown { StandBefore requests.items (length requests.items)
        → IfOk result (λ text. ShowsRequests table (C.meaning clock).window requests.items text.items) }
    ensures accepted { OnOk result (IsAccepted table) }
    ensures refused { IfRefused result (λ _. ¬ IsAccepted table) }
{
    let served = serve_over::<NeverStops, R, C>(rt, alloc, table, requests, clock)?;
    let text = print_history(alloc, &served.history);
    drop(served);
    Ok(text?)
}

// Serves the requests before the first one for `/stop` in one launch, and that one with the others in a second launch, of
// a rocket with the same table and with the clock that the first gave back. Tells how they ended.
fn serve_stopping<R: Wait + Threads, C: Clock>(
    rt: &R,
    alloc: Global,
    table: ConfigTable,
    requests: Vec<ScriptRequest>,
    others: Vec<ScriptRequest>,
    clock: C,
) -> Result<Vec<u8>, Want<IgniteError>>
    ensures shown { StandBefore (requests.items ++ others.items) (length requests.items)
        → IfOk result (λ text. ShowsRequests table (C.meaning clock).window (requests.items ++ others.items) text.items) }
    ensures accepted { OnOk result (IsAccepted table) }
    ensures refused { IfRefused result (λ _. ¬ IsAccepted table) }
{
    let first = serve_over::<NeverStops, R, C>(rt, alloc, table, requests, clock)?;
    let Served {
        history,
        clock,
        table,
    } = first;
    let second = serve_over::<ByHandler, R, C>(rt, alloc, table, others, clock)?;
    let text = print_histories(alloc, &history, &second.history);
    drop(history);
    drop(second);
    Ok(text?)
}

/// Serves requests with what a table sets, and tells how they ended.
pub fn serve_with<R: Wait + Threads, C: Clock>(
    rt: &R,
    alloc: Global,
    table: ConfigTable,
    mut requests: Vec<ScriptRequest>,
    clock: C,
) -> Result<Vec<u8>, Want<IgniteError>>
    ensures served { IfOk result (λ text. ShowsRequests table (C.meaning clock).window requests.items text.items) }
    ensures accepted { OnOk result (IsAccepted table) }
    ensures refused { IfRefused result (λ _. ¬ IsAccepted table) }
{
    let before = before_stop(alloc, requests.as_slice())?;
    if before == requests.len() {
        return serve_alone(rt, alloc, table, requests, clock);
    }
    let others = requests.split_off(before)?;
    serve_stopping(rt, alloc, table, requests, others, clock)
}

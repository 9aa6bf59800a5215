//! Launches of the sample in which calls fail.
ghost use Rattle.std.specs.Prelude.{IfOk};
ghost use Rattle.std.specs.List.{AllByRecursion};
ghost use Rattle.rkt_link.specs.Listener.{IsFresh};
ghost use Rattle.cases_demo.specs.Sourced.{IsUnused, listening_meaning};

use crate::events::requests;
use crate::pieces::pieces_text;
use crate::sourced_link::SourcedLink;
use crate::sourced_listener::SourcedListener;
use cases::{CaseError, first_word, numbers, parsed};
use rkt_base::NoMemory;
use rkt_data::MemorySource;
use rkt_demo::{ByHandler, Sample, ScriptRequest};
use rkt_request::ConfigTable;
use rkt_sample::StopReason;
use rkt_serve::{EntryOf, Error, ErrorKindOf, HistoryOf, Launch, Launched, ListClock};
use std::alloc::{AllocError, Global};
use std::sync::Wait;
use std::thread::Threads;

type Entry = EntryOf<u64, MemorySource, SourcedLink>;

type History = HistoryOf<u64, MemorySource, SourcedLink>;

type Over<Q> = Launched<Sample<Q>, SourcedListener, ListClock>;

type Refusal<Q> = Error<Sample<Q>, SourcedListener, ListClock>;

/// Which sends and reads of one link fail, and which polls of the listener.
#[derive(Drop)]
struct Faults {
    link: u64,
    sends: Vec<u64>,
    reads: Vec<u64>,
    polls: Vec<u64>,
}

fn link_for(
    alloc: Global,
    faults: &Faults,
    number: u64,
    request: ScriptRequest,
) -> Result<SourcedLink, NoMemory>
    ensures { IfOk result IsUnused }
{
    let ScriptRequest { head, body } = request;
    if number == faults.link {
        let (sends, reads) = (faults.sends.clone()?, faults.reads.clone()?);
        return SourcedLink::new(alloc, head, body.into_vec(), sends, reads);
    }
    let (sends, reads) = (Vec::new(alloc), Vec::new(alloc));
    SourcedLink::new(alloc, head, body.into_vec(), sends, reads)
}

fn links_for(
    alloc: Global,
    faults: &Faults,
    requests: Vec<ScriptRequest>,
) -> Result<Vec<SourcedLink>, NoMemory>
    ensures { IfOk result (λ links. AllByRecursion IsUnused links.items) }
{
    let mut links = Vec::new(alloc);
    for request in requests {
        let number = links.len() as u64;
        links.push(link_for(alloc, faults, number, request)?)?;
    }
    Ok(links)
}

fn listener_for(
    alloc: Global,
    faults: Faults,
    requests: Vec<ScriptRequest>,
) -> Result<SourcedListener, NoMemory>
    ensures { IfOk result (λ listener. IsFresh (listening_meaning listener)) }
{
    let links = links_for(alloc, &faults, requests)?;
    Ok(SourcedListener::new(links, faults.polls))
}

fn push_entry(alloc: Global, out: &mut String, entry: Option<&Entry>) -> Result<(), AllocError> {
    let Some(entry) = entry else {
        return out.push_str("; none");
    };
    let held = entry.link.kept().held();
    let pieces = pieces_text(alloc, held)?;
    write!(out, "; {:?} {} [{pieces}]", entry.end, held.len())
}

fn history_text(alloc: Global, answer: &str, history: &History) -> Result<String, AllocError> {
    let mut out = String::from_str(alloc, answer)?;
    for entry in history.entries(alloc)? {
        push_entry(alloc, &mut out, entry)?;
    }
    Ok(out)
}

/// What a launch has answered, and for each entry its end and the pieces that its link holds.
fn over_text<Q: StopReason>(
    alloc: Global,
    answer: &str,
    over: Over<Q>,
) -> Result<String, CaseError> {
    let text = history_text(alloc, answer, &over.history);
    drop(over);
    Ok(text?)
}

/// The same of a launch that has failed.
fn failed_text<Q: StopReason>(alloc: Global, error: Refusal<Q>) -> Result<String, CaseError> {
    match error.kind() {
        ErrorKindOf::Shutdown(over) => over_text(alloc, "Shutdown", over),
        kind => {
            drop(kind);
            Err(CaseError::NoMemory)
        }
    }
}

/// Launches the sample over a reason.
fn launched<Q: StopReason, R: Wait + Threads>(
    rt: &R,
    alloc: Global,
    listener: SourcedListener,
) -> Result<String, CaseError>
    requires fresh { IsFresh (listening_meaning listener) }
{
    let table = ConfigTable::new(alloc);
    let Ok(rocket) = Sample::<Q>::rocket(alloc, table) else {
        return Err(CaseError::NoMemory);
    };
    let clock = ListClock::new(Vec::new(alloc));
    match rocket.launch(rt, alloc, listener, clock, 0) {
        Ok(over) => over_text(alloc, "Ok", over),
        Err(error) => failed_text(alloc, error),
    }
}

fn faults_of(
    alloc: Global,
    link: &str,
    sends: &str,
    reads: &str,
    polls: &str,
) -> Result<Faults, CaseError> {
    Ok(Faults {
        link: parsed::<u64>(link)?,
        sends: numbers(alloc, sends)?,
        reads: numbers(alloc, reads)?,
        polls: numbers(alloc, polls)?,
    })
}

/// What a launch of the sample answers, and its entries, where calls fail as `LINK SENDS READS POLLS SCRIPT` says.
pub fn fails<R: Wait + Threads>(rt: &R, alloc: Global, text: &str) -> Result<String, CaseError> {
    let (link, rest) = first_word(text);
    let (sends, rest) = first_word(rest);
    let (reads, rest) = first_word(rest);
    let (polls, script) = first_word(rest);
    let faults = faults_of(alloc, link, sends, reads, polls)?;
    let requests = requests(alloc, script)?;
    let listener = listener_for(alloc, faults, requests)?;
    launched::<ByHandler, R>(rt, alloc, listener)
}

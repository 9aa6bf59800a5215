//! Launches of a rocket that is still built.
ghost use Rattle.std.specs.Prelude.{IfOk};
ghost use Rattle.rkt_link.specs.Listener.{IsFresh};
ghost use Rattle.rkt_link.specs.Memory.{listener_meaning};

use crate::app::{Site, SiteRoute, routes_of};
use crate::heads::listener_of;
use crate::launch::history_text;
use crate::setting::Setting;
use cases::{CaseError, first_word};
use rkt_base::Poll;
use rkt_life::{Build, Rocket};
use rkt_request::ConfigTable;
use rkt_serve::{
    Accepted, Error, ErrorKind, ErrorKindOf, Launch, Launched, ListClock, ListListener, Listener,
};
use std::alloc::{AllocError, Global};
use std::sync::Wait;
use std::thread::Threads;

type Over = Launched<Site, ListListener, ListClock>;

type Refused = Error<Site, ListListener, ListClock>;

fn set(table: &mut ConfigTable, pair: &str) -> Result<(), CaseError> {
    match pair.split_once('=') {
        Some((name, text)) => Ok(table.set(name, text)?),
        None => Err(CaseError::Line),
    }
}

/// The table of `NAME=TEXT,NAME=TEXT`, or an empty one of `-`.
fn table_of(alloc: Global, text: &str) -> Result<ConfigTable, CaseError> {
    let mut table = ConfigTable::new(alloc);
    if text == "-" {
        return Ok(table);
    }
    for pair in text.split(',') {
        set(&mut table, pair)?;
    }
    Ok(table)
}

fn mounted(
    alloc: Global,
    table: ConfigTable,
    routes: Vec<SiteRoute>,
) -> Result<Rocket<Build, Site>, CaseError> {
    let rocket = Rocket::<Build, Site>::custom(alloc, table)?;
    match rocket.mount(alloc, "/", routes) {
        Ok(rocket) => Ok(rocket),
        Err(_) => Err(CaseError::NoMemory),
    }
}

fn built(alloc: Global, setting: &Setting, table: &str) -> Result<Rocket<Build, Site>, CaseError> {
    let routes = routes_of(alloc, setting.routes.as_slice())?;
    let table = table_of(alloc, table)?;
    mounted(alloc, table, routes)
}

fn launched<R: Wait + Threads>(
    rt: &R,
    alloc: Global,
    rocket: Rocket<Build, Site>,
    listener: ListListener,
) -> Result<Over, Refused>
    requires fresh { IsFresh (listener_meaning listener) }
{
    rocket.launch(rt, alloc, listener, ListClock::new(Vec::new(alloc)), 0)
}

/// A launch of `NAME=TEXT,.. LINK | LINK ..`.
fn launched_by<R: Wait + Threads>(
    rt: &R,
    alloc: Global,
    setting: &Setting,
    text: &str,
) -> Result<Result<Over, Refused>, CaseError> {
    let (table, links) = first_word(text);
    let rocket = built(alloc, setting, table)?;
    let listener = listener_of(alloc, setting, Vec::new(alloc), links)?;
    Ok(launched(rt, alloc, rocket, listener))
}

fn gives(listener: &mut ListListener) -> bool {
    matches!(listener.poll_accept(), Poll::Ready(Accepted::Given(_)))
}

/// How many links a listener still gives, of nine at most.
pub fn count_links(mut listener: ListListener) -> usize {
    (0..9).filter(|_| gives(&mut listener)).count()
}

fn kind_text(
    alloc: Global,
    kind: &ErrorKind<Site, ListListener, ListClock>,
) -> Result<String, AllocError> {
    kind.to_string(alloc)
}

/// The listener that comes back where it does not ignite.
fn listener_back(kind: ErrorKind<Site, ListListener, ListClock>) -> Option<ListListener> {
    match kind {
        ErrorKindOf::Ignition {
            fault,
            listener,
            clock,
        } => {
            drop(fault);
            drop(clock);
            Some(listener)
        }
        ErrorKindOf::Shutdown(launched) => {
            drop(launched);
            None
        }
        ErrorKindOf::NoMemory { kept } => {
            drop(kept);
            None
        }
    }
}

fn left_text(
    alloc: Global,
    text: &str,
    listener: Option<ListListener>,
) -> Result<String, CaseError> {
    match listener {
        Some(listener) => Ok(format!(in alloc; "{text}; {} links left", count_links(listener))?),
        None => Err(CaseError::NoMemory),
    }
}

fn unlit(
    alloc: Global,
    kind: ErrorKind<Site, ListListener, ListClock>,
) -> Result<String, CaseError> {
    let text = kind_text(alloc, &kind);
    let listener = listener_back(kind);
    left_text(alloc, text?.as_str(), listener)
}

fn over_text(alloc: Global, over: &Over) -> Result<String, AllocError> {
    history_text(alloc, &over.history)
}

/// What comes of such a launch: its history, or why it does not ignite.
pub fn ignite<R: Wait + Threads>(
    rt: &R,
    alloc: Global,
    setting: &Setting,
    text: &str,
) -> Result<String, CaseError> {
    match launched_by(rt, alloc, setting, text)? {
        Ok(over) => {
            let text = over_text(alloc, &over);
            drop(over);
            Ok(text?)
        }
        Err(error) => unlit(alloc, error.kind()),
    }
}

/// What is told of such a launch.
pub fn told<R: Wait + Threads>(
    rt: &R,
    alloc: Global,
    setting: &Setting,
    text: &str,
) -> Result<String, CaseError> {
    match launched_by(rt, alloc, setting, text)? {
        Ok(over) => {
            drop(over);
            Ok(String::from_str(alloc, "launched")?)
        }
        Err(error) => Ok(String::from_str(alloc, error.pretty_print())?),
    }
}

//! Sentries, and what they answer.
use crate::site::Site;
use cases::{CaseError, pair, parsed};
use rkt_base::{NoMemory, Seq, Want};
use rkt_http::Key;
use rkt_ignition::{Aborts, Ignited, query};
use rkt_request::{Config, Managed};
use rkt_router::Sentry;
use std::alloc::Global;

/// What a sentry asks: it has been told what to answer.
#[derive(Clone, Copy, Drop)]
pub struct Tells(bool);

impl Aborts<Site> for Tells {
    fn abort(&self, _rocket: &Ignited<'_, Site>) -> bool {
        self.0
    }
}

fn read_parent(text: &str) -> Result<Option<Key>, CaseError> {
    if text == "-" {
        return Ok(None);
    }
    Ok(Some(Key(parsed::<u32>(text)?)))
}

// Whether it is specialised, and whether it aborts.
fn read_how(text: &str) -> Result<(bool, bool), CaseError> {
    match text {
        "open" => Ok((false, false)),
        "no" => Ok((true, false)),
        "yes" => Ok((true, true)),
        _ => Err(CaseError::Line),
    }
}

fn read_sentry(text: &str, column: u32) -> Result<Sentry<Tells>, CaseError> {
    let (key, rest) = pair(text, ":")?;
    let (parent, how) = pair(rest, ":")?;
    let (specialized, aborts) = read_how(how)?;
    Ok(Sentry {
        key: Key(parsed::<u32>(key)?),
        type_name: "Tells",
        parent: read_parent(parent)?,
        location: ("line", 1, column),
        specialized,
        abort: Tells(aborts),
    })
}

/// The sentries that a line says.
pub fn read_sentries(alloc: Global, text: &str) -> Result<Seq<Sentry<Tells>>, CaseError> {
    let mut sentries = Seq::new(alloc);
    let mut column: u32 = 0;
    for word in text.split(' ') {
        sentries.push(read_sentry(word, column)?)?;
        column = column.saturating_add(1);
    }
    Ok(sentries)
}

fn queried(alloc: Global, sentries: &[Sentry<Tells>]) -> Result<(), Want<Seq<usize>>> {
    let config = Config::default(alloc)?;
    let managed = Managed::new(alloc);
    let rocket = Ignited {
        config: &config,
        managed: &managed,
    };
    query::<Site, Tells>(alloc, sentries, &rocket)
}

fn push_places(out: &mut String, places: &[usize]) -> Result<(), NoMemory> {
    for place in places {
        write!(out, " {place}")?;
    }
    Ok(())
}

/// Adds what a query of the sentries of a line answers.
pub fn query_answer(alloc: Global, text: &str, out: &mut String) -> Result<(), CaseError> {
    let sentries = read_sentries(alloc, text)?;
    match queried(alloc, sentries.as_slice()) {
        Ok(()) => Ok(out.push_str("ok")?),
        Err(Want::Refused(places)) => {
            out.push_str("aborts")?;
            Ok(push_places(out, places.as_slice())?)
        }
        Err(Want::NoMemory) => Err(CaseError::NoMemory),
    }
}

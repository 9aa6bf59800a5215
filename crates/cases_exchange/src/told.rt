//! What the application has, and how it is set.
use crate::app::Site;
use crate::changer::{Changer, read_fairings};
use crate::page::Page;
use cases::{CaseError, pair, parsed, written};
use rkt_base::{NoMemory, Want};
use rkt_exchange::Tables;
use rkt_fairing::{Callback, Fairings};
use rkt_request::{Config, ConfigTable};
use rkt_router::{Catcher, Route};
use std::alloc::Global;

/// Sets an entry. The empty text, which stands for no entry at all, sets none.
fn set_entry(table: &mut ConfigTable, entry: &str) -> Result<(), CaseError> {
    if entry.is_empty() {
        return Ok(());
    }
    let (name, text) = pair(entry, "=")?;
    Ok(table.set(name, text)?)
}

fn set_entries(table: &mut ConfigTable, text: &str) -> Result<(), CaseError> {
    for entry in text.split("; ") {
        set_entry(table, entry)?;
    }
    Ok(())
}

fn config_of(alloc: Global, table: &ConfigTable) -> Result<Config, CaseError> {
    Ok(Config::from_table(alloc, table)?)
}

/// The configuration of an empty table with the entries of `NAME=TEXT; ..`.
fn config_from(alloc: Global, table: &mut ConfigTable, text: &str) -> Result<Config, CaseError> {
    set_entries(table, text)?;
    config_of(alloc, table)
}

/// The configuration of `NAME=TEXT; ..`.
fn read_config(alloc: Global, text: &str) -> Result<Config, CaseError> {
    let mut table = ConfigTable::new(alloc);
    let config = config_from(alloc, &mut table, text);
    drop(table);
    config
}

/// Sets the configuration of `NAME=TEXT; ..`.
pub fn set_config(
    alloc: Global,
    tables: &mut Tables<Site>,
    text: &str,
    out: &mut String,
) -> Result<(), CaseError> {
    tables.config = read_config(alloc, text)?;
    written(out.push_str("done"))
}

/// Adds how many fairings are called for requests, and how many for responses.
fn push_counts(fairings: &Fairings<Changer>, out: &mut String) -> Result<(), NoMemory> {
    let requests = fairings.count(Callback::Request);
    let responses = fairings.count(Callback::Response);
    write!(out, "{requests} for requests, {responses} for responses")
}

/// Attaches the fairings of `FAIRING; ..`, and no others.
pub fn set_fairings(
    alloc: Global,
    tables: &mut Tables<Site>,
    text: &str,
    out: &mut String,
) -> Result<(), CaseError> {
    tables.fairings = read_fairings(alloc, text)?;
    written(push_counts(&tables.fairings, out))
}

fn push_route_of(route: &Route<Page, u8>, out: &mut String) -> Result<(), NoMemory> {
    write!(out, "{} {}", route.method.as_str(), route.uri)?;
    write!(out, " rank={} {:?}", route.rank, route.handler)
}

/// Adds the route at a position.
pub fn push_route(tables: &Tables<Site>, text: &str, out: &mut String) -> Result<(), CaseError> {
    let position = parsed::<usize>(text)?;
    match tables.router.routes().get(position) {
        Some(route) => written(push_route_of(route, out)),
        None => Err(CaseError::Line),
    }
}

fn push_catcher_of(catcher: &Catcher<Page>, out: &mut String) -> Result<(), NoMemory> {
    write!(
        out,
        "{} code={:?}",
        catcher.base.origin().as_str(),
        catcher.code
    )?;
    write!(out, " {:?}", catcher.handler)
}

/// Adds the catcher at a position.
pub fn push_catcher(tables: &Tables<Site>, text: &str, out: &mut String) -> Result<(), CaseError> {
    let position = parsed::<usize>(text)?;
    match tables.router.catchers().get(position) {
        Some(catcher) => written(push_catcher_of(catcher, out)),
        None => Err(CaseError::Line),
    }
}

/// Adds whether the tables are taken.
pub fn finalize(alloc: Global, tables: &Tables<Site>, out: &mut String) -> Result<(), CaseError> {
    match tables.router.finalize(alloc) {
        Ok(()) => written(out.push_str("ok")),
        Err(Want::Refused(_)) => Err(CaseError::Refused),
        Err(Want::NoMemory) => Err(CaseError::NoMemory),
    }
}

//! What is built of a rocket before it ignites.
use crate::actor::{Actor, read_actor};
use crate::sentries::{Tells, read_sentries};
use crate::site::Site;
use cases::{CaseError, first_word, parsed};
use rkt_base::Want;
use rkt_fairing::{Building, Callback, InvalidBase, Slot};
use rkt_http::Method;
use rkt_request::ConfigTable;
use rkt_router::{Catcher, Dummy, Route};
use std::alloc::Global;

/// The builder of the application's rocket.
pub type Built = Building<Site, Actor>;

/// Attaches a fairing, and adds how many are called at ignition.
pub fn attach_answer(
    built: &mut Built,
    text: &str,
    singleton: bool,
    out: &mut String,
) -> Result<(), CaseError> {
    let actor = read_actor(text, singleton)?;
    built.attach(Slot::App(actor))?;
    Ok(write!(out, "{}", built.fairings.count(Callback::Ignite))?)
}

/// Takes a table with one entry.
pub fn configure_answer(
    alloc: Global,
    built: &mut Built,
    text: &str,
    out: &mut String,
) -> Result<(), CaseError> {
    let (name, text) = first_word(text);
    let mut table = ConfigTable::new(alloc);
    table.set(name, text)?;
    built.configure(table);
    Ok(out.push_str("done")?)
}

fn of_base(built: Result<(), Want<InvalidBase>>) -> Result<(), CaseError> {
    match built {
        Ok(()) => Ok(()),
        Err(Want::Refused(_)) => Err(CaseError::Refused),
        Err(Want::NoMemory) => Err(CaseError::NoMemory),
    }
}

fn read_route(alloc: Global, text: &str) -> Result<Route<Dummy, Tells>, CaseError> {
    let (uri, sentries) = first_word(text);
    let mut route = Route::new(alloc, Method::Get, uri, Dummy)?;
    if !sentries.is_empty() {
        route.sentinels = read_sentries(alloc, sentries)?;
    }
    Ok(route)
}

/// Mounts a route.
pub fn route_answer(
    alloc: Global,
    built: &mut Built,
    text: &str,
    out: &mut String,
) -> Result<(), CaseError> {
    let mut routes = Vec::new(alloc);
    routes.push(read_route(alloc, text)?)?;
    of_base(built.mount(alloc, "/", routes))?;
    Ok(out.push_str("done")?)
}

/// Registers a catcher.
pub fn catch_answer(
    alloc: Global,
    built: &mut Built,
    text: &str,
    out: &mut String,
) -> Result<(), CaseError> {
    let code = parsed::<u16>(text)?;
    let mut catchers = Vec::new(alloc);
    catchers.push(Catcher::new(alloc, Some(code), 0)?)?;
    of_base(built.register(alloc, "/", catchers))?;
    Ok(out.push_str("done")?)
}

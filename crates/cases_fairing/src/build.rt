//! What is built, which is kept from line to line.
use crate::named::Named;
use cases::{CaseError, first_word, parsed, written};
use rkt_base::{NoMemory, Want};
use rkt_fairing::{BuildingOf, InvalidBase};
use rkt_http::{Key, Method};
use rkt_request::{ConfigTable, DuplicateState};
use rkt_router::{Catcher, Route};
use std::alloc::Global;

/// A builder whose handlers are numbers.
pub type Built = BuildingOf<u32, u32, (), u32, Named>;

fn add_route(alloc: Global, routes: &mut Vec<Route<u32, ()>>, uri: &str) -> Result<(), CaseError> {
    let route = Route::new(alloc, Method::Get, uri, 0)?;
    Ok(routes.push(route)?)
}

/// The routes at these URIs.
fn read_routes(alloc: Global, text: &str) -> Result<Vec<Route<u32, ()>>, CaseError> {
    let mut routes = Vec::new(alloc);
    for uri in text.split(' ') {
        add_route(alloc, &mut routes, uri)?;
    }
    Ok(routes)
}

fn add_catcher(
    alloc: Global,
    catchers: &mut Vec<Catcher<u32>>,
    code: &str,
) -> Result<(), CaseError> {
    let code = parsed::<u16>(code)?;
    let catcher = Catcher::new(alloc, Some(code), 0)?;
    Ok(catchers.push(catcher)?)
}

/// The catchers of these codes.
fn read_catchers(alloc: Global, text: &str) -> Result<Vec<Catcher<u32>>, CaseError> {
    let mut catchers = Vec::new(alloc);
    for code in text.split(' ') {
        add_catcher(alloc, &mut catchers, code)?;
    }
    Ok(catchers)
}

fn of_base(built: Result<(), Want<InvalidBase>>) -> Result<(), CaseError> {
    match built {
        Ok(()) => Ok(()),
        Err(Want::Refused(_)) => Err(CaseError::Refused),
        Err(Want::NoMemory) => Err(CaseError::NoMemory),
    }
}

fn push_uri(uri: &str, out: &mut String) -> Result<(), NoMemory> {
    out.push_str(" ")?;
    out.push_str(uri)
}

fn push_uris(built: &Built, out: &mut String) -> Result<(), NoMemory> {
    for route in built.routes() {
        push_uri(route.uri.as_str(), out)?;
    }
    Ok(())
}

/// Mounts routes, and adds the URIs of all.
pub fn mount_answer(
    alloc: Global,
    built: &mut Built,
    text: &str,
    out: &mut String,
) -> Result<(), CaseError> {
    let (base, uris) = first_word(text);
    let routes = read_routes(alloc, uris)?;
    of_base(built.mount(alloc, base, routes))?;
    written(push_uris(built, out))
}

fn push_catcher(catcher: &Catcher<u32>, out: &mut String) -> Result<(), NoMemory> {
    let (base, code) = (catcher.base.origin().as_str(), catcher.code.unwrap_or(0));
    write!(out, " {base}:{code}")
}

fn push_catchers(built: &Built, out: &mut String) -> Result<(), NoMemory> {
    for catcher in built.catchers() {
        push_catcher(catcher, out)?;
    }
    Ok(())
}

/// Registers catchers, and adds the bases and codes of all.
pub fn register_answer(
    alloc: Global,
    built: &mut Built,
    text: &str,
    out: &mut String,
) -> Result<(), CaseError> {
    let (base, codes) = first_word(text);
    let catchers = read_catchers(alloc, codes)?;
    of_base(built.register(alloc, base, catchers))?;
    written(push_catchers(built, out))
}

fn of_state(managed: Result<(), Want<DuplicateState<u32>>>) -> Result<(), CaseError> {
    match managed {
        Ok(()) => Ok(()),
        Err(Want::Refused(_)) => Err(CaseError::Refused),
        Err(Want::NoMemory) => Err(CaseError::NoMemory),
    }
}

/// Manages a value, and adds the value that the key has then.
pub fn manage_answer(built: &mut Built, text: &str, out: &mut String) -> Result<(), CaseError> {
    let (key, value) = first_word(text);
    let (key, value) = (Key(parsed::<u32>(key)?), parsed::<u32>(value)?);
    of_state(built.manage(key, value))?;
    match built.managed.get(key) {
        Some(value) => Ok(write!(out, "{value}")?),
        None => Ok(out.push_str("none")?),
    }
}

/// Adds the text of a name in the builder's table.
pub fn text_answer(built: &Built, name: &str, out: &mut String) -> Result<(), CaseError> {
    match built.table.get(name) {
        Some(text) => Ok(out.push_str(text)?),
        None => Ok(out.push_str("none")?),
    }
}

/// Configures by one entry, and adds its text.
pub fn configure_answer(
    alloc: Global,
    built: &mut Built,
    text: &str,
    out: &mut String,
) -> Result<(), CaseError> {
    let (name, text) = first_word(text);
    let mut table = ConfigTable::new(alloc);
    table.set(name, text)?;
    built.configure(table);
    text_answer(built, name, out)
}

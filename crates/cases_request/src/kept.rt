//! What is kept from line to line.
use cases::{CaseError, pair, parsed};
use rkt_base::NoMemory;
use rkt_cookie::CookieJar;
use rkt_http::Key;
use rkt_request::{Config, ConfigTable, Ctx, Managed};
use sample_app::{Sample, Server, context};
use std::alloc::Global;

#[derive(Drop)]
pub struct Kept {
    pub server: Server,
    pub ctx: Ctx<Sample>,
}

/// A context with nothing in it.
pub fn new_context(alloc: Global) -> Result<Ctx<Sample>, NoMemory> {
    context(alloc, CookieJar::new(alloc))
}

impl Kept {
    /// The default configuration, nothing managed, and a context with nothing in it.
    pub fn new(alloc: Global) -> Result<Kept, NoMemory> {
        let server = Server::new(alloc)?;
        Ok(Kept {
            server,
            ctx: new_context(alloc)?,
        })
    }
}

/// Sets an entry. The empty text, which stands for no entry at all, sets none.
fn set_entry(table: &mut ConfigTable, entry: &str) -> Result<(), CaseError> {
    if entry.is_empty() {
        return Ok(());
    }
    let (name, text) = pair(entry, "=")?;
    table.set(name, text).map_err(CaseError::from)
}

fn set_entries(table: &mut ConfigTable, text: &str) -> Result<(), CaseError> {
    for entry in text.split("; ") {
        set_entry(table, entry)?;
    }
    Ok(())
}

fn config_of(
    alloc: Global,
    table: &ConfigTable,
    set: Result<(), CaseError>,
) -> Result<Config, CaseError> {
    set?;
    Config::from_table(alloc, table).map_err(CaseError::from)
}

/// The configuration of `NAME=TEXT; ..`.
pub fn config(alloc: Global, text: &str) -> Result<Config, CaseError> {
    let mut table = ConfigTable::new(alloc);
    let set = set_entries(&mut table, text);
    config_of(alloc, &table, set)
}

/// Manages a number. The empty text, which stands for no entry at all, has none.
fn manage(managed: &mut Managed<u8>, entry: &str) -> Result<(), CaseError> {
    if entry.is_empty() {
        return Ok(());
    }
    let (key, value) = pair(entry, "=")?;
    let key = Key(u32::from(parsed::<u8>(key)?));
    let number = parsed::<u8>(value)?;
    managed.set(key, number).map_err(CaseError::from)
}

fn manage_each(managed: &mut Managed<u8>, text: &str) -> Result<(), CaseError> {
    for entry in text.split("; ") {
        manage(managed, entry)?;
    }
    Ok(())
}

/// The managed values of `KEY=NUMBER; ..`.
pub fn managed(alloc: Global, text: &str) -> Result<Managed<u8>, CaseError> {
    let mut managed = Managed::new(alloc);
    manage_each(&mut managed, text)?;
    Ok(managed)
}

//! Cases of configurations, and of the table of texts that is kept from line to line.
use crate::words::unescaped;
use cases::{CaseError, first_word, pair};
use rkt_base::{NoMemory, Want};
use rkt_config::{Config, ConfigTable};
use std::alloc::Global;

/// Gives the name of `NAME=TEXT` the text.
fn set(alloc: Global, table: &mut ConfigTable, entry: &str) -> Result<(), CaseError> {
    let (name, text) = pair(entry, "=")?;
    let text = unescaped(alloc, text)?;
    Ok(table.set(name, text.as_str())?)
}

/// Adds the text of a name, in quotes.
fn push_text(table: &ConfigTable, name: &str, out: &mut String) -> Result<(), NoMemory> {
    match table.get(name) {
        Some(text) => write!(out, "{text:?}"),
        None => out.push_str("none"),
    }
}

/// Adds what a table answers to a command.
pub fn push_table(
    alloc: Global,
    table: &mut ConfigTable,
    line: &str,
    out: &mut String,
) -> Result<(), CaseError> {
    let (command, rest) = first_word(line);
    match command {
        "new" => *table = ConfigTable::new(alloc),
        "set" => set(alloc, table, rest)?,
        "get" => return Ok(push_text(table, rest, out)?),
        _ => return Err(CaseError::Line),
    }
    Ok(out.push_str("done")?)
}

fn ip_header(config: &Config) -> Option<&str> {
    match &config.ip_header {
        Some(name) => Some(name.as_str()),
        None => None,
    }
}

/// Adds what names a configuration has.
fn push_names(config: &Config, out: &mut String) -> Result<(), NoMemory> {
    let (ident, header) = (config.ident.as_str(), ip_header(config));
    write!(out, "ident={ident:?} ip_header={header:?}")
}

/// Adds what numbers it has.
fn push_numbers(config: &Config, out: &mut String) -> Result<(), NoMemory> {
    let (grace, mercy, turns) = (config.grace, config.mercy, config.turns);
    write!(out, " grace={grace} mercy={mercy} turns={turns}")
}

/// Adds a configuration, field by field.
fn push_fields(config: &Config, out: &mut String) -> Result<(), NoMemory> {
    push_names(config, out)?;
    push_numbers(config, out)?;
    write!(out, " limits=\"{}\"", config.limits)
}

/// Adds the configuration that a table says, or what refuses it.
fn push_of_table(alloc: Global, table: &ConfigTable, out: &mut String) -> Result<(), CaseError> {
    match Config::from_table(alloc, table) {
        Ok(config) => Ok(push_fields(&config, out)?),
        Err(Want::Refused(bad)) => Ok(write!(out, "refused: {bad}")?),
        Err(Want::NoMemory) => Err(CaseError::NoMemory),
    }
}

fn push_default(alloc: Global, out: &mut String) -> Result<(), NoMemory> {
    let config = Config::default(alloc)?;
    push_fields(&config, out)
}

/// Adds what a configuration is.
pub fn push_config(
    alloc: Global,
    table: &ConfigTable,
    line: &str,
    out: &mut String,
) -> Result<(), CaseError> {
    match line {
        "default" => Ok(push_default(alloc, out)?),
        "table" => push_of_table(alloc, table, out),
        _ => Err(CaseError::Line),
    }
}

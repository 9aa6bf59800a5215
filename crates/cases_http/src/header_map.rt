//! Cases of a header map, which is kept from line to line.
use crate::headers::made_header;
use crate::words::named;
use cases::{CaseError, done, first_word, written};
use rkt_base::NoMemory;
use rkt_http::{HeaderIter, HeaderMap, HeaderValues};
use std::alloc::Global;

/// The map, and the copy that was taken last.
#[derive(Drop)]
pub struct Maps {
    map: HeaderMap,
    copy: HeaderMap,
}

impl Maps {
    pub fn new(alloc: Global) -> Maps {
        Maps {
            map: HeaderMap::new(alloc),
            copy: HeaderMap::new(alloc),
        }
    }
}

fn push_headers(headers: HeaderIter<'_>, out: &mut String) -> Result<(), NoMemory> {
    for (name, value) in headers {
        write!(out, "|{name}: {value}")?;
    }
    Ok(())
}

/// Adds how many values there are, and each header behind a bar.
fn push_map(map: &HeaderMap, out: &mut String) -> Result<(), NoMemory> {
    write!(out, "{}", map.len())?;
    push_headers(map.iter(), out)
}

fn push_each_value(values: HeaderValues<'_>, out: &mut String) -> Result<(), NoMemory> {
    for value in values {
        write!(out, "|{value}")?;
    }
    Ok(())
}

/// Adds how many values there are under a name, and each behind a bar.
fn push_values(map: &HeaderMap, name: &str, out: &mut String) -> Result<(), NoMemory> {
    write!(out, "{}", map.get(name).count())?;
    push_each_value(map.get(name), out)
}

fn push_owned(alloc: Global, values: &mut Vec<String>, value: &str) -> Result<(), NoMemory> {
    Ok(values.push(String::from_str(alloc, value)?)?)
}

fn push_all(alloc: Global, values: &mut Vec<String>, text: &str) -> Result<(), NoMemory> {
    for value in text.split(", ") {
        push_owned(alloc, values, value)?;
    }
    Ok(())
}

/// The values of `VALUE, ..`, of which an empty text has none.
fn owned_values(alloc: Global, text: &str) -> Result<Vec<String>, NoMemory> {
    let mut values = Vec::new(alloc);
    if !text.is_empty() {
        push_all(alloc, &mut values, text)?;
    }
    Ok(values)
}

fn add(alloc: Global, map: &mut HeaderMap, rest: &str) -> Result<(), CaseError> {
    let header = made_header(alloc, rest)?;
    written(map.add(header))
}

fn add_all(alloc: Global, map: &mut HeaderMap, rest: &str) -> Result<(), CaseError> {
    let (name, values) = named(rest)?;
    let values = owned_values(alloc, values)?;
    written(map.add_all(name, values))
}

fn replace_all(alloc: Global, map: &mut HeaderMap, rest: &str) -> Result<(), CaseError> {
    let (name, values) = named(rest)?;
    let values = owned_values(alloc, values)?;
    written(map.replace_all(name, values))
}

/// Adds whether the group was there that a header takes the place of.
fn push_replaced(
    alloc: Global,
    map: &mut HeaderMap,
    rest: &str,
    out: &mut String,
) -> Result<(), CaseError> {
    let header = made_header(alloc, rest)?;
    let replaced = map.replace(header)?;
    written(write!(out, "{replaced}"))
}

/// Adds what a map tells that is only asked.
fn push_told(
    map: &HeaderMap,
    command: &str,
    rest: &str,
    out: &mut String,
) -> Result<(), CaseError> {
    match command {
        "get" => written(push_values(map, rest, out)),
        "one" => written(write!(out, "{:?}", map.get_one(rest))),
        "has" => written(write!(out, "{}", map.contains(rest))),
        "empty" => written(write!(out, "{}", map.is_empty())),
        "shown" => written(push_map(map, out)),
        _ => Err(CaseError::Line),
    }
}

/// Changes the map, or tells what it has.
fn change(
    alloc: Global,
    map: &mut HeaderMap,
    command: &str,
    rest: &str,
    out: &mut String,
) -> Result<(), CaseError> {
    match command {
        "add" => done(add(alloc, map, rest), out),
        "add_all" => done(add_all(alloc, map, rest), out),
        "replace_all" => done(replace_all(alloc, map, rest), out),
        "replace" => push_replaced(alloc, map, rest, out),
        _ => push_told(map, command, rest, out),
    }
}

/// Makes the map empty.
fn renew(alloc: Global, maps: &mut Maps) -> Result<(), CaseError> {
    maps.map = HeaderMap::new(alloc);
    Ok(())
}

fn remove(maps: &mut Maps, name: &str) -> Result<(), CaseError> {
    maps.map.remove(name);
    Ok(())
}

/// Keeps a copy of the map.
fn keep(alloc: Global, maps: &mut Maps) -> Result<(), CaseError> {
    maps.copy = maps.map.try_clone(alloc)?;
    Ok(())
}

/// Puts the headers of the copy behind those of the map.
fn append(alloc: Global, maps: &mut Maps) -> Result<(), CaseError> {
    let other = maps.copy.try_clone(alloc)?;
    written(maps.map.append(other))
}

/// Puts the headers of the copy in place of those of the map.
fn overwrite(alloc: Global, maps: &mut Maps) -> Result<(), CaseError> {
    let other = maps.copy.try_clone(alloc)?;
    written(maps.map.overwrite(other))
}

/// Changes the map by its copy, or alone.
fn grow(
    alloc: Global,
    maps: &mut Maps,
    command: &str,
    rest: &str,
    out: &mut String,
) -> Result<(), CaseError> {
    match command {
        "append" => done(append(alloc, maps), out),
        "overwrite" => done(overwrite(alloc, maps), out),
        "copied" => written(push_map(&maps.copy, out)),
        _ => change(alloc, &mut maps.map, command, rest, out),
    }
}

/// Adds what the maps answer to a command.
pub fn push_maps(
    alloc: Global,
    maps: &mut Maps,
    line: &str,
    out: &mut String,
) -> Result<(), CaseError> {
    let (command, rest) = first_word(line);
    match command {
        "new" => done(renew(alloc, maps), out),
        "remove" => done(remove(maps, rest), out),
        "copy" => done(keep(alloc, maps), out),
        _ => grow(alloc, maps, command, rest, out),
    }
}

//! A header map, which is kept from line to line.
use crate::policy::push_header;
use cases::{CaseError, first_word, pair};
use rkt_base::NoMemory;
use rkt_http::{Header, HeaderMap};
use rkt_shield::Shield;
use std::alloc::Global;

fn add(alloc: Global, map: &mut HeaderMap, text: &str) -> Result<(), CaseError> {
    let (name, value) = pair(text, ": ")?;
    let header = Header::new(alloc, name, value)?;
    Ok(map.add(header)?)
}

/// Changes the map as a line says.
fn change(
    alloc: Global,
    map: &mut HeaderMap,
    shield: &Shield,
    text: &str,
) -> Result<(), CaseError> {
    let (command, rest) = first_word(text);
    match command {
        "new" => *map = HeaderMap::new(alloc),
        "add" => add(alloc, map, rest)?,
        "apply" => shield.apply(map)?,
        _ => return Err(CaseError::Line),
    }
    Ok(())
}

fn show(out: &mut String, map: &HeaderMap) -> Result<(), NoMemory> {
    for (name, value) in map.iter() {
        push_header(out, name, value)?;
    }
    Ok(())
}

/// Adds the headers of the map, after it was changed as a line says.
pub fn map_answer(
    alloc: Global,
    map: &mut HeaderMap,
    shield: &Shield,
    text: &str,
    out: &mut String,
) -> Result<(), CaseError> {
    change(alloc, map, shield, text)?;
    Ok(show(out, map)?)
}

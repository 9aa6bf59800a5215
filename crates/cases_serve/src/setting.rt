//! What earlier lines have said.
use crate::act::{Attached, read_attached};
use crate::words::unescaped;
use cases::{CaseError, first_word, numbers, parsed};
use std::alloc::{AllocError, Global};

/// Two texts, such as a header's name and value.
#[derive(Drop)]
pub struct Pair {
    pub left: String,
    pub right: String,
}

/// A route's path, what it says, and how often it is Pending before.
#[derive(Drop)]
pub struct Place {
    pub path: String,
    pub text: String,
    pub waits: u32,
}

/// The routes of the application and what is attached to it, the header of every request, and which sends of a link and
/// which polls of a listener fail.
#[derive(Drop)]
pub struct Setting {
    pub routes: Vec<Place>,
    pub fairings: Vec<Attached>,
    pub header: Option<Pair>,
    pub sends: Vec<u64>,
    pub polls: Vec<u64>,
}

impl Setting {
    pub fn new(alloc: Global) -> Setting {
        Setting {
            routes: Vec::new(alloc),
            fairings: Vec::new(alloc),
            header: None,
            sends: Vec::new(alloc),
            polls: Vec::new(alloc),
        }
    }
}

fn pair_of(alloc: Global, left: &str, right: &str) -> Result<Pair, AllocError> {
    let left = String::from_str(alloc, left)?;
    let right = unescaped(alloc, right)?;
    Ok(Pair { left, right })
}

/// The two texts round the first such separator.
fn split_pair(alloc: Global, text: &str, separator: &str) -> Result<Pair, CaseError> {
    match text.split_once(separator) {
        Some((left, right)) => Ok(pair_of(alloc, left, right)?),
        None => Err(CaseError::Line),
    }
}

/// What stands before the first `*` of a word, and the number behind it, or 0 where there is none.
fn split_waits(word: &str) -> Result<(&str, u32), CaseError> {
    match word.split_once('*') {
        Some((word, waits)) => Ok((word, parsed::<u32>(waits)?)),
        None => Ok((word, 0)),
    }
}

/// The place of `PATH=TEXT` or `PATH=TEXT*WAITS`.
fn place_of(alloc: Global, word: &str) -> Result<Place, CaseError> {
    let (word, waits) = split_waits(word)?;
    let Pair {
        left: path,
        right: text,
    } = split_pair(alloc, word, "=")?;
    Ok(Place { path, text, waits })
}

fn push_route(alloc: Global, routes: &mut Vec<Place>, word: &str) -> Result<(), CaseError> {
    let place = place_of(alloc, word)?;
    Ok(routes.push(place)?)
}

fn routes_of(alloc: Global, text: &str) -> Result<Vec<Place>, CaseError> {
    let mut routes = Vec::new(alloc);
    for word in text.split_ascii_whitespace() {
        push_route(alloc, &mut routes, word)?;
    }
    Ok(routes)
}

/// Sets the routes of `PATH=TEXT PATH=TEXT*WAITS ..`.
pub fn set_routes(alloc: Global, setting: &mut Setting, text: &str) -> Result<(), CaseError> {
    setting.routes = routes_of(alloc, text)?;
    Ok(())
}

fn push_fairing(fairings: &mut Vec<Attached>, text: &str) -> Result<(), CaseError> {
    let attached = read_attached(text)?;
    Ok(fairings.push(attached)?)
}

fn fairings_of(alloc: Global, text: &str) -> Result<Vec<Attached>, CaseError> {
    let mut fairings = Vec::new(alloc);
    if text.is_empty() {
        return Ok(fairings);
    }
    for piece in text.split("; ") {
        push_fairing(&mut fairings, piece)?;
    }
    Ok(fairings)
}

/// Sets the fairings of `FAIRING; FAIRING; ..`, or none.
pub fn set_fairings(alloc: Global, setting: &mut Setting, text: &str) -> Result<(), CaseError> {
    setting.fairings = fairings_of(alloc, text)?;
    Ok(())
}

/// Sets the header of `NAME: VALUE`, or none.
pub fn set_header(alloc: Global, setting: &mut Setting, text: &str) -> Result<(), CaseError> {
    setting.header = None;
    if !text.is_empty() {
        setting.header = Some(split_pair(alloc, text, ": ")?);
    }
    Ok(())
}

/// Sets the faults of `SENDS POLLS`.
pub fn set_faults(alloc: Global, setting: &mut Setting, text: &str) -> Result<(), CaseError> {
    let (sends, polls) = first_word(text);
    setting.sends = numbers(alloc, sends)?;
    setting.polls = numbers(alloc, polls)?;
    Ok(())
}

//! Kinds and events as lines say them.
use cases::{CaseError, cut};
use rkt_fairing::{Callback, Kind};

/// The kind of a name.
fn kind_of(name: &str) -> Result<Kind, CaseError> {
    match name {
        "ignite" => Ok(Kind::Ignite),
        "liftoff" => Ok(Kind::Liftoff),
        "request" => Ok(Kind::Request),
        "response" => Ok(Kind::Response),
        "shutdown" => Ok(Kind::Shutdown),
        "singleton" => Ok(Kind::Singleton),
        _ => Err(CaseError::Line),
    }
}

/// No kind at all.
fn no_kind() -> Kind {
    Kind {
        ignite: false,
        liftoff: false,
        request: false,
        response: false,
        shutdown: false,
        singleton: false,
    }
}

/// The kinds of these names.
pub fn read_kind(text: &str) -> Result<Kind, CaseError> {
    if text == "-" {
        return Ok(no_kind());
    }
    let mut kind = no_kind();
    for name in text.split(' ') {
        kind = kind | kind_of(name)?;
    }
    Ok(kind)
}

/// The event of a name.
pub fn read_event(name: &str) -> Result<Callback, CaseError> {
    match name {
        "ignite" => Ok(Callback::Ignite),
        "liftoff" => Ok(Callback::Liftoff),
        "request" => Ok(Callback::Request),
        "response" => Ok(Callback::Response),
        "shutdown" => Ok(Callback::Shutdown),
        _ => Err(CaseError::Line),
    }
}

/// Adds the answer to a line on kinds.
pub fn kinds_answer(command: &str, text: &str, out: &mut String) -> Result<(), CaseError> {
    if command == "kind" {
        let kind = read_kind(text)?;
        return Ok(write!(out, "{kind}")?);
    }
    let (first, second) = cut(text, " / ");
    let (first, second) = (read_kind(first)?, read_kind(second)?);
    let answer = if command == "is" {
        first.is(second)
    } else {
        first.is_exactly(second)
    };
    Ok(write!(out, "{answer}")?)
}

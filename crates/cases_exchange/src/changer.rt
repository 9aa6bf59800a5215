//! Fairings, as lines say them.
use crate::owned::kept;
use cases::{CaseError, first_word, pair, parsed};
use rkt_base::NoMemory;
use rkt_fairing::{Attach, Fairings, Info, Kind, Slot};
use rkt_http::{Key, Method, Origin};
use rkt_shield::Shield;
use std::alloc::Global;

/// What a fairing does. What does not fit what it is lent changes nothing.
#[derive(Clone, Copy, Drop)]
pub enum Does {
    /// Gives the request another method.
    Method(Method),
    /// Gives the request another URI, of its text.
    Uri,
    /// Adds the header of its text.
    Header,
    /// Adds a cookie with the name of its text.
    Cookie,
    /// Gives the response another status.
    Status(u16),
    /// Gives the request, or the response, its text as the body.
    Body,
    /// Adds a header that tells the request's method, the moment, and the names of the response's headers.
    Sees,
    /// Caches a value.
    Caches,
    /// Notifies the wire, of the one reason.
    Notifies,
    /// Fails its turn.
    Faults,
}

/// A fairing.
#[derive(Drop)]
pub struct Changer {
    kind: Kind,
    /// How often it is Pending first.
    pub waits: u32,
    pub does: Does,
    pub text: String,
}

impl Attach for Changer {
    ghost use Rattle.std.specs.Prelude.{codes};

    ghost key = { λ f. record { 0 = 1 } };

    ghost info = { λ f. record { name = codes "changer"; kind = f.kind } };

    fn key(&self) -> Key {
        Key(1)
    }

    fn info(&self) -> Info {
        Info {
            name: "changer",
            kind: self.kind,
        }
    }
}

fn read_kind(text: &str) -> Result<Kind, CaseError> {
    match text {
        "request" => Ok(Kind::Request),
        "response" => Ok(Kind::Response),
        "both" => Ok(Kind::Request | Kind::Response),
        _ => Err(CaseError::Line),
    }
}

/// Reads `wait N ..`, or takes nothing of the text.
fn read_waits(text: &str) -> Result<(u32, &str), CaseError> {
    match first_word(text) {
        ("wait", rest) => {
            let (waits, rest) = first_word(rest);
            Ok((parsed::<u32>(waits)?, rest))
        }
        _ => Ok((0, text)),
    }
}

fn read_method(text: &str) -> Result<Does, CaseError> {
    match Method::from_wire(text) {
        Some(method) => Ok(Does::Method(method)),
        None => Err(CaseError::Line),
    }
}

fn read_uri(alloc: Global, text: &str) -> Result<Does, CaseError> {
    let _uri = Origin::parse(alloc, text)?;
    Ok(Does::Uri)
}

fn read_header(text: &str) -> Result<Does, CaseError> {
    let _header = pair(text, ": ")?;
    Ok(Does::Header)
}

fn read_status(text: &str) -> Result<Does, CaseError> {
    Ok(Does::Status(parsed::<u16>(text)?))
}

/// What does something else than to change the head of a message.
fn read_act(word: &str) -> Result<Does, CaseError> {
    match word {
        "see" => Ok(Does::Sees),
        "cache" => Ok(Does::Caches),
        "notify" => Ok(Does::Notifies),
        "fault" => Ok(Does::Faults),
        _ => Err(CaseError::Line),
    }
}

fn read_content(word: &str, text: &str) -> Result<Does, CaseError> {
    match word {
        "header" => read_header(text),
        "cookie" => Ok(Does::Cookie),
        "body" => Ok(Does::Body),
        _ => read_act(word),
    }
}

fn read_does(alloc: Global, word: &str, text: &str) -> Result<Does, CaseError> {
    match word {
        "method" => read_method(text),
        "uri" => read_uri(alloc, text),
        "status" => read_status(text),
        _ => read_content(word, text),
    }
}

/// Reads `KINDS CHANGE`, or `KINDS wait N CHANGE`.
fn read_changer(alloc: Global, text: &str) -> Result<Changer, CaseError> {
    let (kinds, rest) = first_word(text);
    let kind = read_kind(kinds)?;
    let (waits, rest) = read_waits(rest)?;
    let (word, rest) = first_word(rest);
    let does = read_does(alloc, word, rest)?;
    let text = String::from_str(alloc, rest)?;
    Ok(Changer {
        kind,
        waits,
        does,
        text,
    })
}

fn default_shield(alloc: Global) -> Result<Slot<Changer>, NoMemory> {
    Ok(Slot::Shield(Shield::default(alloc)?))
}

fn read_slot(alloc: Global, text: &str) -> Result<Slot<Changer>, CaseError> {
    if text == "shield" {
        return Ok(default_shield(alloc)?);
    }
    Ok(Slot::App(read_changer(alloc, text)?))
}

fn attach(alloc: Global, fairings: &mut Fairings<Changer>, text: &str) -> Result<(), CaseError> {
    let slot = read_slot(alloc, text)?;
    Ok(fairings.add(slot)?)
}

fn attach_all(
    alloc: Global,
    fairings: &mut Fairings<Changer>,
    text: &str,
) -> Result<(), CaseError> {
    for item in text.split("; ") {
        if !item.is_empty() {
            attach(alloc, fairings, item)?;
        }
    }
    Ok(())
}

/// The fairings of `FAIRING; ..`, attached in this order.
pub fn read_fairings(alloc: Global, text: &str) -> Result<Fairings<Changer>, CaseError> {
    let mut fairings = Fairings::new(alloc);
    let attached = attach_all(alloc, &mut fairings, text);
    kept(fairings, attached)
}

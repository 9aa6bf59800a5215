//! Requests, as lines say them.
use crate::app::Site;
use crate::owned::kept;
use crate::source::Paused;
use cases::{CaseError, cut, first_word, numbers, pair, parsed, written};
use rkt_base::{NoMemory, Seq, Text};
use rkt_data::{CancellableIo, Data, MemorySource};
use rkt_request::{Body0, Head};
use std::alloc::Global;

/// What is asked, and when.
#[derive(Drop)]
pub struct Asked {
    head: Head,
    bytes: Vec<u8>,
    /// The reads of the body that are refused.
    fails: Vec<u64>,
    /// How many of its reads wait.
    waits: u64,
    pub when: When,
}

/// When an exchange begins, and whether the jar is shown behind it.
#[derive(Clone, Copy, Drop)]
pub struct When {
    pub moment: u64,
    pub shows_jar: bool,
}

/// The head of `METHOD TARGET`, without headers.
fn first(alloc: Global, text: &str) -> Result<Head, NoMemory> {
    let (method, target) = first_word(text);
    let method = Text::new(alloc, method)?;
    let target = Text::new(alloc, target)?;
    Ok(Head {
        method,
        target,
        headers: Seq::new(alloc),
        remote: None,
    })
}

fn push_field(alloc: Global, head: &mut Head, name: Text, value: &str) -> Result<(), NoMemory> {
    let value = value.as_bytes().to_vec(alloc)?;
    head.headers.push((name, Seq::from_vec(value)))
}

fn push_header(alloc: Global, head: &mut Head, text: &str) -> Result<(), CaseError> {
    let (name, value) = pair(text, ": ")?;
    let name = Text::new(alloc, name)?;
    written(push_field(alloc, head, name, value))
}

fn set_fails(alloc: Global, asked: &mut Asked, text: &str) -> Result<(), CaseError> {
    asked.fails = numbers(alloc, text)?;
    Ok(())
}

fn set_waits(asked: &mut Asked, text: &str) -> Result<(), CaseError> {
    asked.waits = parsed::<u64>(text)?;
    Ok(())
}

fn set_moment(when: &mut When, text: &str) -> Result<(), CaseError> {
    when.moment = parsed::<u64>(text)?;
    Ok(())
}

fn show_jar(when: &mut When) -> Result<(), CaseError> {
    when.shows_jar = true;
    Ok(())
}

/// Takes `at MOMENT`, `jar`, or a header.
fn take_other(alloc: Global, asked: &mut Asked, piece: &str) -> Result<(), CaseError> {
    match first_word(piece) {
        ("at", text) => set_moment(&mut asked.when, text),
        ("jar", "") => show_jar(&mut asked.when),
        _ => push_header(alloc, &mut asked.head, piece),
    }
}

/// Takes `body TEXT`, `fails N,..`, `waits N`, or one of the others.
fn take(alloc: Global, asked: &mut Asked, piece: &str) -> Result<(), CaseError> {
    match first_word(piece) {
        ("body", text) => written(asked.bytes.extend_from_slice(text.as_bytes())),
        ("fails", text) => set_fails(alloc, asked, text),
        ("waits", text) => set_waits(asked, text),
        _ => take_other(alloc, asked, piece),
    }
}

fn take_all(alloc: Global, asked: &mut Asked, text: &str) -> Result<(), CaseError> {
    let mut pieces = text.split(" | ");
    let _first = pieces.next();
    for piece in pieces {
        take(alloc, asked, piece)?;
    }
    Ok(())
}

/// What is asked without a body, at the moment 1000.
fn plain(alloc: Global, text: &str) -> Result<Asked, NoMemory> {
    let head = first(alloc, cut(text, " | ").0)?;
    Ok(Asked {
        head,
        bytes: Vec::new(alloc),
        fails: Vec::new(alloc),
        waits: 0,
        when: When {
            moment: 1000,
            shows_jar: false,
        },
    })
}

/// Reads `METHOD TARGET | PIECE | ..`. The moment is 1000 where none is said.
pub fn read_asked(alloc: Global, text: &str) -> Result<Asked, CaseError> {
    let mut asked = plain(alloc, text)?;
    let taken = take_all(alloc, &mut asked, text);
    kept(asked, taken)
}

impl Asked {
    /// What is asked beside the body, and the source of this, which gives four bytes at a time.
    pub fn parts(self) -> (Head, Paused) {
        let inner = MemorySource::new(self.bytes, 4, self.fails);
        (self.head, Paused::new(inner, self.waits))
    }
}

/// The body that a source gives.
pub fn body_of(alloc: Global, source: Paused) -> Result<Body0<Site>, NoMemory> {
    Data::from_source(alloc, CancellableIo::new(source))
}

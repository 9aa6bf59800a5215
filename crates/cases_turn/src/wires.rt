//! Handles of a wire, in one thread and in two.
ghost use Rattle.std.specs.Prelude.{◌≡◌};

use crate::crossing::wire_crosses;
use cases::{CaseError, first_word, parsed, push_item};
use rkt_base::{NoMemory, Poll};
use rkt_turn::{Reason, Shutdown, TripWire};
use std::alloc::Global;
use std::sync::Wait;
use std::thread::{Threads, join, yield_now};

/// A reason whose word a line says. With 0 it has none.
#[derive(Clone, Copy)]
struct Why {
    word: u64,
}

impl Reason for Why {
    ghost use Rattle.std.specs.Prelude.{◌≡◌, ◌<◌};

    ghost allowed = { λ word. 0 < word };

    ghost says = { λ why word. word ≡ why.word };

    ghost stops = { λ why. 0 < why.word };

    fn word(self) -> u64 {
        self.word
    }
}

/// The reason of a word, or that without one.
fn parse_why(text: &str) -> Result<Why, CaseError> {
    let word = parsed::<u64>(text)?;
    Ok(Why { word })
}

/// The reason of a word, which is not 0.
fn parse_told(text: &str) -> Result<Why, CaseError> {
    let why = parse_why(text)?;
    if why.word == 0 {
        return Err(CaseError::Line);
    }
    Ok(why)
}

/// Two handles of one wire.
#[derive(Drop)]
struct Handles {
    first: Shutdown<Why>,
    other: Shutdown<Why>,
    ghost same: { other.wire ≡ first.wire },
}

fn push_word(alloc: Global, word: u64, out: &mut String) -> Result<(), NoMemory> {
    let text = word.to_string(alloc)?;
    push_item(out, text.as_str())
}

fn push_tripped(alloc: Global, word: Option<u64>, out: &mut String) -> Result<(), NoMemory> {
    match word {
        Some(word) => push_word(alloc, word, out),
        None => push_item(out, "none"),
    }
}

fn push_polled(answer: Poll<()>, out: &mut String) -> Result<(), NoMemory> {
    match answer {
        Poll::Ready(()) => push_item(out, "ready"),
        Poll::Pending => push_item(out, "pending"),
    }
}

fn notify(handle: &mut Shutdown<Why>, word: &str) -> Result<(), CaseError>
    ensures { handle.new.wire ≡ handle.old.wire }
{
    handle.notify(parse_why(word)?);
    Ok(())
}

/// Asks a handle, and adds what it answers.
fn ask(
    alloc: Global,
    handle: &mut Shutdown<Why>,
    step: &str,
    out: &mut String,
) -> Result<(), CaseError>
    ensures { handle.new.wire ≡ handle.old.wire }
{
    let (word, rest) = first_word(step);
    match word {
        "seen" => Ok(push_word(alloc, handle.seen(), out)?),
        "tripped" => Ok(push_tripped(alloc, handle.tripped(), out)?),
        "poll" => Ok(push_polled(handle.poll(), out)?),
        "notify" => notify(handle, rest),
        _ => Err(CaseError::Line),
    }
}

/// The first handle takes the other in, and another is split off.
fn swap(handles: Handles) -> Result<Handles, CaseError> {
    let Handles { mut first, other } = handles;
    first.rejoin(other);
    let other = first.split()?;
    Ok(Handles { first, other })
}

fn take_step(
    alloc: Global,
    handles: &mut Handles,
    step: &str,
    out: &mut String,
) -> Result<(), CaseError> {
    let (who, rest) = first_word(step);
    match who {
        "first" => ask(alloc, &mut handles.first, rest, out),
        "other" => ask(alloc, &mut handles.other, rest, out),
        _ => Err(CaseError::Line),
    }
}

fn after_step(
    alloc: Global,
    mut handles: Handles,
    step: &str,
    out: &mut String,
) -> Result<Handles, CaseError> {
    if step == "rejoin" {
        return swap(handles);
    }
    take_step(alloc, &mut handles, step, out)?;
    Ok(handles)
}

fn take_steps(
    alloc: Global,
    mut handles: Handles,
    steps: &str,
    out: &mut String,
) -> Result<(), CaseError> {
    for step in steps.split(" | ") {
        handles = after_step(alloc, handles, step, out)?;
    }
    Ok(())
}

/// Adds the answers of two handles of a new wire, one step after another.
pub fn push_wire(alloc: Global, steps: &str, out: &mut String) -> Result<(), CaseError> {
    let (wire, mut first) = TripWire::<Why>::new(alloc)?;
    let other = first.split()?;
    wire_crosses(&wire, &other);
    take_steps(alloc, Handles { first, other }, steps, out)
}

// Looks at the wire until it is tripped.
fn wait_for<R: Wait>(rt: &R, handle: &mut Shutdown<Why>) -> u64 {
    for _ in rt.forever() {
        if let Some(word) = handle.tripped() {
            return word;
        }
        yield_now();
    }
    unreachable!()
}

// One thread notifies twice, and another waits. Answers what each has seen.
fn between<R: Threads + Wait + Sync>(
    rt: &R,
    mut mine: Shutdown<Why>,
    mut theirs: Shutdown<Why>,
    one: Why,
    two: Why,
) -> (u64, Shutdown<Why>) {
    join(
        rt,
        move || wait_for(rt, &mut mine),
        move || {
            theirs.notify(one);
            theirs.notify(two);
            theirs
        },
    )
}

// What the waiting thread saw, what the notifying one saw, and what a handle saw before it notified and then.
fn seen_words<R: Threads + Wait + Sync>(
    rt: &R,
    alloc: Global,
    one: Why,
    two: Why,
) -> Result<[u64; 4], CaseError> {
    let (_wire, mut first) = TripWire::<Why>::new(alloc)?;
    let mut late = first.split()?;
    let theirs = first.split()?;
    let (word, theirs) = between(rt, first, theirs, one, two);
    let before = late.seen();
    late.notify(two);
    Ok([word, theirs.seen(), before, late.seen()])
}

/// Adds what two threads see at one wire: one waits, and the other notifies with one word and then with another.
pub fn push_threads<R: Threads + Wait + Sync>(
    rt: &R,
    alloc: Global,
    words: &str,
    out: &mut String,
) -> Result<(), CaseError> {
    let (one, two) = first_word(words);
    let [waited, notified, before, late] = seen_words(
        rt,
        alloc,
        parse_told(one)?,
        parse_told(two)?,
    )?;
    write!(out, "waited={waited} notified={notified}")?;
    Ok(write!(out, " before={before} late={late}")?)
}

//! What is asked of a source, step by step.
use crate::objects::Peer;
use crate::shown::push_read;
use crate::words::parse_gate;
use cases::{CaseError, first_word, parsed, push_item, written};
use rkt_base::{NoMemory, Poll};
use rkt_data::{CancellableIo, Chain, Shut, Source};
use std::alloc::Global;

/// Adds what is known of an object that a trip cuts off: when it saw the trip, when its grace was over, whether it is
/// there, and how many polls are still to be Pending.
fn push_stage(
    alloc: Global,
    object: &CancellableIo<Peer<'_>>,
    out: &mut String,
) -> Result<(), NoMemory> {
    let there = object.io().is_some();
    let text = format!(in alloc; "saw={:?} cut={:?}", object.saw(), object.cut_at())?;
    push_item(out, text.as_str())?;
    push_left(there, object.kept().waits(), out)
}

fn push_left(there: bool, waits: u64, out: &mut String) -> Result<(), NoMemory> {
    write!(out, " there={there} waits={waits}")
}

/// Calls a closure on the object, which answers 7.
fn push_call(
    alloc: Global,
    object: &mut CancellableIo<Peer<'_>>,
    rest: &str,
    out: &mut String,
) -> Result<(), CaseError> {
    let gate = parse_gate(rest)?;
    let answer = object.poll_with(gate, |_| Poll::Ready(7u8));
    let text = format!(in alloc; "{answer:?}")?;
    written(push_item(out, text.as_str()))
}

/// `read SIZE GATE`
fn read_step<S: Source>(
    alloc: Global,
    source: &mut S,
    rest: &str,
    out: &mut String,
) -> Result<(), CaseError> {
    let (count, gate) = first_word(rest);
    let gate = parse_gate(gate)?;
    let mut buf = vec![in alloc; 0; parsed::<usize>(count)?]?;
    let answer = source.poll_read(gate, buf.as_mut_slice());
    written(push_read(alloc, buf.as_slice(), answer, out))
}

fn shut_step<S: Shut>(source: &mut S, out: &mut String) -> Result<(), NoMemory> {
    match source.poll_shutdown() {
        Poll::Ready(()) => push_item(out, "shut"),
        Poll::Pending => push_item(out, "pending"),
    }
}

fn step<S: Source>(
    alloc: Global,
    source: &mut S,
    step: &str,
    out: &mut String,
) -> Result<(), CaseError> {
    let (word, rest) = first_word(step);
    match word {
        "read" => read_step(alloc, source, rest, out),
        "shut" => written(shut_step(source, out)),
        _ => Err(CaseError::Line),
    }
}

/// Takes each step of a list.
pub fn take_steps<S: Source>(
    alloc: Global,
    mut source: S,
    steps: &str,
    out: &mut String,
) -> Result<(), CaseError> {
    for text in steps.split(" | ") {
        step(alloc, &mut source, text, out)?;
    }
    Ok(())
}

fn cut_step(
    alloc: Global,
    object: &mut CancellableIo<Peer<'_>>,
    text: &str,
    out: &mut String,
) -> Result<(), CaseError> {
    let (word, rest) = first_word(text);
    match word {
        "stage" => written(push_stage(alloc, object, out)),
        "call" => push_call(alloc, object, rest, out),
        _ => step(alloc, object, text, out),
    }
}

/// The same, of an object that a trip cuts off.
pub fn take_cut_steps(
    alloc: Global,
    mut object: CancellableIo<Peer<'_>>,
    steps: &str,
    out: &mut String,
) -> Result<(), CaseError> {
    for text in steps.split(" | ") {
        cut_step(alloc, &mut object, text, out)?;
    }
    Ok(())
}

fn chain_step<'a>(
    alloc: Global,
    chain: &mut Chain<CancellableIo<Peer<'a>>, Peer<'a>>,
    text: &str,
    out: &mut String,
) -> Result<(), CaseError> {
    match text {
        "stage" => written(push_stage(alloc, chain.get_ref().0, out)),
        _ => step(alloc, chain, text, out),
    }
}

/// The same, of a chain.
pub fn take_chain_steps<'a>(
    alloc: Global,
    mut chain: Chain<CancellableIo<Peer<'a>>, Peer<'a>>,
    steps: &str,
    out: &mut String,
) -> Result<(), CaseError> {
    for text in steps.split(" | ") {
        chain_step(alloc, &mut chain, text, out)?;
    }
    Ok(())
}

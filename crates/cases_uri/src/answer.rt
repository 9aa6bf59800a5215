use crate::origin::push_origin;
use crate::other::{push_absolute, push_host, push_reference, push_whole};
use crate::path::{push_compared, push_named, push_numbered};
use crate::refusal::Refusal;
use cases::{Answers, CaseError, first_word, plain};
use std::alloc::Global;

/// The program, which keeps nothing from line to line.
#[derive(Drop)]
pub struct Program;

/// Adds what a command answers that is about no origin.
fn push_other(alloc: Global, command: &str, text: &str, out: &mut String) -> Result<(), Refusal> {
    match command {
        "host" => push_host(alloc, text, out),
        "absolute" => push_absolute(alloc, text, out),
        "whole" => push_whole(alloc, text, out),
        "reference" => push_reference(alloc, text, out),
        "names" => push_named(alloc, text, out),
        _ => Err(Refusal::Case(CaseError::Line)),
    }
}

fn is_of_pieces(command: &str) -> bool {
    matches!(command, "segments" | "raw" | "fields")
}

fn is_of_one_origin(command: &str) -> bool {
    is_of_pieces(command) || matches!(command, "origin" | "route" | "text" | "normal" | "cleared")
}

fn answer_line(alloc: Global, line: &str, out: &mut String) -> Result<(), Refusal> {
    let (command, rest) = first_word(line);
    if is_of_one_origin(command) {
        return push_origin(alloc, command, plain(rest), out);
    }
    match command {
        "segment" | "behind" | "path" | "dotted" => push_numbered(alloc, command, rest, out),
        "front" | "same" => push_compared(alloc, command, rest, out),
        _ => push_other(alloc, command, plain(rest), out),
    }
}

/// Adds the fault of what is refused, in place of what was added before.
fn push_refusal(refusal: Refusal, out: &mut String) -> Result<(), CaseError> {
    out.clear();
    match refusal {
        Refusal::Uri(fault) => Ok(write!(out, "{fault}")?),
        Refusal::Path(fault) => Ok(write!(out, "{fault}")?),
        Refusal::Case(error) => Err(error),
    }
}

impl Answers for Program {
    fn answer(&mut self, alloc: Global, line: &str, out: &mut String) -> Result<(), CaseError> {
        match answer_line(alloc, line, out) {
            Ok(()) => Ok(()),
            Err(refusal) => push_refusal(refusal, out),
        }
    }
}

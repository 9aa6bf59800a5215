//! What a line asks for.
use crate::memory::{push_clock, push_cuttables, push_polls, push_source};
use crate::reads::{push_again, push_body, push_head, push_shut};
use crate::sends::{Way, push_sent};
use cases::{Answers, CaseError, first_word, numbers, written};
use std::alloc::Global;

/// The program, which keeps from line to line which polls of a listener fail.
#[derive(Drop)]
pub struct Program {
    fails: Vec<u64>,
}

impl Program {
    pub fn new(alloc: Global) -> Program {
        Program {
            fails: Vec::new(alloc),
        }
    }

    fn set_fails(&mut self, alloc: Global, text: &str, out: &mut String) -> Result<(), CaseError> {
        self.fails = numbers(alloc, text)?;
        written(out.push_str("set"))
    }
}

/// A line of one word.
fn answer_word(alloc: Global, word: &str, out: &mut String) -> Result<(), CaseError> {
    match word {
        "again" => written(push_again(alloc, out)),
        "shut" => written(push_shut(alloc, out)),
        _ => Err(CaseError::Line),
    }
}

/// A line about a link over pipes.
fn answer_pipe(alloc: Global, line: &str, out: &mut String) -> Result<(), CaseError> {
    let (kind, words) = first_word(line);
    match kind {
        "link" => push_sent(alloc, Way::Sent, words, out),
        "hand" => push_sent(alloc, Way::Handed, words, out),
        "body" => push_body(alloc, words, out),
        "head" => written(push_head(alloc, words, out)),
        _ => answer_word(alloc, line, out),
    }
}

impl Answers for Program {
    fn answer(&mut self, alloc: Global, line: &str, out: &mut String) -> Result<(), CaseError> {
        let (kind, words) = first_word(line);
        match kind {
            "faults" => self.set_fails(alloc, words, out),
            "polls" => push_polls(alloc, self.fails.as_slice(), words, out),
            "cuttable" => push_cuttables(alloc, self.fails.as_slice(), words, out),
            "source" => written(push_source(alloc, words, out)),
            "clock" => push_clock(alloc, words, out),
            _ => answer_pipe(alloc, line, out),
        }
    }
}

use crate::kept::param_answer;
use crate::segments::segments_answer;
use cases::{Answers, CaseError, first_word};
use std::alloc::Global;

/// The program, which keeps nothing from line to line.
#[derive(Drop)]
pub struct Program;

impl Answers for Program {
    fn answer(&mut self, alloc: Global, line: &str, out: &mut String) -> Result<(), CaseError> {
        let (command, rest) = first_word(line);
        match command {
            "segments" => segments_answer(alloc, rest, out),
            _ => param_answer(alloc, command, rest, out),
        }
    }
}

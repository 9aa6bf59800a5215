//! The loop over the lines.
use crate::error::CaseError;
use rkt_base::NoMemory;
use std::alloc::Global;
use std::io;

/// What a program keeps from line to line, and what it answers.
pub trait Answers: Drop {
    /// Adds the answer to `out`, which is empty. Where it errs, what it has added is not shown.
    fn answer(&mut self, alloc: Global, line: &str, out: &mut String) -> Result<(), CaseError>;
}

/// Whether a line is written as it is.
pub fn is_heading(line: &str) -> bool {
    line.is_empty() || line.starts_with('#')
}

/// Writes a case again, and its answer behind an arrow.
pub fn print_answer(rt: &impl Print, line: &str, text: &str) -> io::Result<()> {
    println!(rt; "{line} -> {text}")
}

/// Writes a case again, and behind an arrow its answer, or what stands in its place.
fn print_answered(
    rt: &impl Print,
    line: &str,
    text: &str,
    answered: Result<(), CaseError>,
) -> io::Result<()> {
    match answered {
        Ok(()) => print_answer(rt, line, text),
        Err(error) => print_answer(rt, line, error.text()),
    }
}

/// Answers a line.
fn answer_line<A: Answers>(
    rt: &impl Print,
    alloc: Global,
    program: &mut A,
    line: &str,
    out: &mut String,
) -> io::Result<()> {
    if is_heading(line) {
        return rt.println(line);
    }
    out.clear();
    let answered = program.answer(alloc, line, out);
    print_answered(rt, line, out.as_str(), answered)
}

fn answer_each<R: Print + Input, A: Answers>(
    rt: &R,
    alloc: Global,
    program: &mut A,
    out: &mut String,
) -> io::Result<()> {
    for line in rt.lines(alloc) {
        let line = line?;
        answer_line(rt, alloc, program, line.as_str(), out)?;
    }
    Ok(())
}

/// Answers each line of standard input.
pub fn answer_lines<R: Print + Input, A: Answers>(
    rt: &R,
    alloc: Global,
    mut program: A,
) -> io::Result<()> {
    let mut out = String::new(alloc);
    answer_each(rt, alloc, &mut program, &mut out)
}

/// The same by a program for which there may have been no memory.
pub fn answer_lines_if_made<R: Print + Input, A: Answers>(
    rt: &R,
    alloc: Global,
    made: Result<A, NoMemory>,
) -> io::Result<()> {
    match made {
        Ok(program) => answer_lines(rt, alloc, program),
        Err(_) => rt.println("out of memory"),
    }
}

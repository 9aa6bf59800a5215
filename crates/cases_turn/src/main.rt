//! The cases of the turn lock and the wire. Each line of standard input says one, and is written again with ` -> ` and its
//! answer; beside this folder, `stdout` is the table of cases with the answers that are wanted, and `stdin` has its lines up
//! to the arrow. Empty lines and those that begin with `#` are headings, and are written as they are. An answer is the same
//! under every schedule of the threads.
//!
//! - `turns OTHERS TURNS`: a first pass and so many others each write in so many turns that they begin something, and
//!   then that they have ended it, the others in threads of their own: how many entries there are, how many of each
//!   pass, and whether the first pass has seen a front of them that has all of its own
//! - `desk LOOKS`: a struct of generic code owns an empty diary's lock and its first pass, which takes the turn and
//!   gives it so many times: how many entries there are when it is closed
//! - `threads WORD WORD`: one thread waits at a wire, which another trips with the first word and then with the second:
//!   what each saw, and what a third handle has seen before and after it notifies with the second
//! - `wire STEP | STEP ..`: the answers of two handles of one wire
//!
//! A step at a wire is `first` or `other` with `seen`, `tripped`, `poll`, or `notify WORD`, which answers nothing; or
//! `rejoin`: the first takes the other in, and another is split off. A word is a number above 0. Any other line answers
//! `? line`.
#![tactic(auto)]

mod crossing;
mod desk;
mod diary;
mod turns;
mod wires;

use crate::desk::push_desk;
use crate::turns::push_turns;
use crate::wires::{push_threads, push_wire};
use cases::{CaseError, first_word, is_heading, print_answer};
use std::alloc::Global;
use std::io;
use std::sync::Wait;
use std::thread::Threads;

/// Adds what a line answers.
fn push_answer<R: Threads + Wait + Sync>(
    rt: &R,
    alloc: Global,
    line: &str,
    out: &mut String,
) -> Result<(), CaseError> {
    let (command, rest) = first_word(line);
    match command {
        "turns" => push_turns(rt, alloc, rest, out),
        "desk" => push_desk(rt, alloc, rest, out),
        "threads" => push_threads(rt, alloc, rest, out),
        "wire" => push_wire(alloc, rest, out),
        _ => Err(CaseError::Line),
    }
}

/// Writes the line, and behind an arrow the answer where it is a case.
fn print_line<R: Print + Threads + Wait + Sync>(
    rt: &R,
    alloc: Global,
    line: &str,
) -> io::Result<()> {
    if is_heading(line) {
        return rt.println(line);
    }
    let mut out = String::new(alloc);
    match push_answer(rt, alloc, line, &mut out) {
        Ok(()) => print_answer(rt, line, out.as_str()),
        Err(error) => print_answer(rt, line, error.text()),
    }
}

// A bound that threads share a runtime cannot stand in the trait of programs, so the lines are gone through here.
fn main(rt: HostRuntime) -> io::Result<()> {
    let alloc = rt.alloc();
    for line in rt.lines(alloc) {
        let line = line?;
        print_line(&rt, alloc, line.as_str())?;
    }
    Ok(())
}

//! The cases of the program's work: each line of standard input says one, and standard output has it again with its
//! answer. `stdout` is the table of cases with the answers that are wanted; `stdin` has its lines up to the arrow.
//! An empty line and one that begins with `#` are headings. What is no line of these is answered with `? line`.
//!
//!     run WORDS READS WRITES SCRIPT   the script is served under these words; these reads of it and these writes of
//!                                     the text (from 0) fail: the status, how many bytes were written, and the bytes
//!     long COUNT                      the script is one request line of so many bytes, with no line feed: the status,
//!                                     and how many bytes were written
//!     events SCRIPT                   the sample is launched once, over the reason of a handler, with the requests of
//!                                     the script: the events, with how the callbacks of liftoff and shutdown ended
//!     fails LINK SENDS READS POLLS SCRIPT
//!                                     the same launch, in which these sends to the link of this number and these reads of
//!                                     its body fail, and these polls of the listener (all from 0): what the launch
//!                                     answers, and for each entry its end, and how many pieces its link holds and which
//!
//! WORDS are parted by commas; READS, WRITES, SENDS and POLLS are numbers parted by commas; each or `-` for none. In a
//! script, `\n` is a line feed and `\r` a carriage return. A read gives four bytes at most, and a write takes seven at most.
#![tactic(auto)]

mod answer;
mod events;
mod fails;
mod pieces;
mod running;
mod sourced_link;
mod sourced_listener;
mod trickle;
mod words;

use crate::answer::answer;
use cases::{is_heading, print_answer};
use std::alloc::Global;
use std::io;
use std::sync::Wait;
use std::thread::Threads;

/// Writes the line, and behind an arrow the answer where it is a case.
fn print_line<R: Print + Wait + Threads>(rt: &R, alloc: Global, line: &str) -> io::Result<()> {
    if is_heading(line) {
        return rt.println(line);
    }
    match answer(rt, alloc, line) {
        Ok(text) => print_answer(rt, line, text.as_str()),
        Err(error) => print_answer(rt, line, error.text()),
    }
}

fn main(rt: HostRuntime) -> io::Result<()> {
    let alloc = rt.alloc();
    for line in rt.lines(alloc) {
        let line = line?;
        print_line(&rt, alloc, line.as_str())?;
    }
    Ok(())
}

//! The cases of a link over the ends of pipes, and of the link, the listener and the clock in memory. Each line of
//! standard input says one, and is written again with ` -> ` and its answer; beside this folder, `stdout` is the table
//! of cases with the answers that are wanted, and `stdin` has its lines up to the arrow. Empty lines and those that
//! begin with `#` are headings, and are written as they are.
//!
//! - `link HEADERS ROOM PENDS FAILS CLOSED CHUNKS`: what each poll of each piece answers, the bytes that the sink has,
//!   and how often the link has failed
//! - `hand HEADERS ROOM PENDS FAILS CLOSED CHUNKS`: the same where the pieces are handed over
//! - `body CHUNK PENDS FAILS TEXT`: what the reads of the source answer that the link gives, into room for eight bytes
//! - `again`: whether the source is given, and given again
//! - `head METHOD TARGET`: the method and the target of the head that the link lends
//! - `shut`: what a shutdown answers
//! - `faults POLLS`: `set`: from here on these polls of a listener fail
//! - `polls POLLS COUNT LINK | LINK ..`: what so many polls of a listener over these links answer, of which these are
//!   Pending
//! - `cuttable POLLS COUNT LINK | LINK ..`: the same where its links can be cut off, and then of the one handed out
//! - `source TEXT`: what the source of a link in memory with this body gives at the first read, whether it can be taken
//!   again, and how many bytes the link keeps
//! - `clock MOMENTS COUNT`: what a listed clock tells at so many calls
//!
//! HEADERS are `NAME=VALUE`, and CHUNKS are texts; PENDS, FAILS and POLLS are numbers of calls, from 0, and MOMENTS are
//! numbers. All are parted by commas, and `-` is an empty list. A LINK is `METHOD TARGET`, which it asks. ROOM is the
//! most that a write takes, and CHUNK the most that a read gives. CLOSED is the number of bytes after which the other
//! side has closed, or `-`. A piece or a source is polled 20 times at most. Any other line answers `? line`.
#![tactic(auto)]

mod answer;
mod made;
mod memory;
mod pieces;
mod reads;
mod sends;

use crate::answer::Program;
use cases::answer_lines;
use std::io;

fn main(rt: HostRuntime) -> io::Result<()> {
    let alloc = rt.alloc();
    answer_lines(&rt, alloc, Program::new(alloc))
}

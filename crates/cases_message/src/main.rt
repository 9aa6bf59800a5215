//! The cases of responses, their bodies and their pieces: each line of standard input says one, and standard output has it
//! again behind an arrow, with its answer. `stdout` is the table of cases with the answers that are wanted; `stdin` has its
//! lines up to the arrow. Empty lines and those that begin with `#` are headings. A line that is none of the language
//! answers `? line`.
//!
//! Two responses are kept from line to line: the one at hand, and one that was put aside. A change answers with the
//! response at hand: its status, its headers in brackets, whether there is a body, its preset size and the size of chunks.
//! In a text and in a header's name and value `%XX` stands for a byte.
//!
//! - `new`, `aside`: begins with nothing set; puts the response aside first
//! - `status CODE`, `chunk SIZE`, `strip`: sets status or size of chunks; strips the body
//! - `header NAME=VALUE`, `raw_header NAME=VALUE`: sets a header, and answers first whether there was one
//! - `adjoin NAME=VALUE`, `adjoin_raw NAME=VALUE`, `remove NAME`: adds a header, takes all of a name away
//! - `sized TEXT; size=N`, `streamed TEXT; ..`: sets a body of bytes, or of a source
//! - `body none`, `body default`, `body unsized`: writes through the lent body: no body, of size 0 or of none
//! - `body sized TEXT; position=N; size=N`, `body streamed TEXT; ..`: the same of bytes from a position on, of a source
//! - `merge`, `join`: takes over what was put aside
//! - `build ..`: does one of these by a builder over the response at hand: `status CODE`, `chunk SIZE`, `header`,
//!   `raw_header`, `adjoin`, `adjoin_raw` each with `NAME=VALUE`, `sized TEXT; size=N`, `streamed TEXT; ..`, `merge`,
//!   `join`; `row TEXT; size=N; chunk=N` sets status 201, body and size of chunks in one row of calls; `new` builds on
//!   nothing; `ok` ends by `ok`; `twice` ends it twice, and keeps what the second end gives
//! - `size`, `kind`, `cookies`: the size of the body; the content type; the cookies that it sets
//! - `take`: moves the body out, and answers whether there was one and whether there is one
//! - `read COUNT`: reads once into a buffer of so many bytes
//! - `bytes`, `text`: gathers what is left; an answer other than Ok is asked for once more
//! - `send TURNS COUNT`: the answers to so many polls of its pieces, but none behind the last, and each piece by its
//!   copy
//!
//! A source is told by its attributes, each of which may be left out: `step=N`, the most bytes a read gives (2); `fails=N`,
//! a read that fails, counted from 0, and there may be several; `row=N` and `waits=N`: it is Pending so often before each
//! read, and so often in all (0).
#![tactic(auto)]

mod answer;
mod built;
mod change;
mod header;
mod look;
mod sending;
mod shape;
mod shown;
mod stalling;
mod words;

use crate::answer::Kept;
use cases::answer_lines;
use std::io;

fn main(rt: HostRuntime) -> io::Result<()> {
    let alloc = rt.alloc();
    answer_lines(&rt, alloc, Kept::new(alloc))
}

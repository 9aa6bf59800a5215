//! The cases of exchanges: each line of standard input says one, and standard output has it again behind an arrow, with its
//! answer. `stdout` is the table of cases with the answers that are wanted; `stdin` has its lines up to the arrow. Empty
//! lines and those that begin with `#` are headings. A line that is none of the language answers `? line`.
//!
//! One application is asked, whose routes and catchers stand in `routes.rt`. Its fairings and its configuration are kept from
//! line to line.
//!
//! | Line | What it answers |
//! |---|---|
//! | `METHOD TARGET \| PIECE \| ..` | one exchange, below |
//! | `config NAME=TEXT; ..` | `done`: from here on the configuration is what this table says |
//! | `fairings FAIRING; ..` | how many are called for requests, and how many for responses: from here on these are attached |
//! | `route N`, `catcher N` | the route, or the catcher, at a position |
//! | `finalize` | whether the routes and catchers are taken |
//!
//! A PIECE is a header `NAME: VALUE`, `body TEXT`, which is added to the body, `fails N,..`, the reads of the body that
//! are refused, from 0, `waits N`, how many of its first reads are Pending once before they are made, `at MOMENT`, the
//! moment of the first poll (else 1000), or `jar`, which shows the jar behind the response; each further poll is a
//! second later. A body gives four bytes a read.
//!
//! A FAIRING is `shield`, which has its policies by default, or `KINDS CHANGE`, where KINDS is `request`, `response` or `both`.
//! The changes are `method NAME` and `uri TEXT` of a request, `status CODE` of a response, `header NAME: VALUE` and `body TEXT`
//! of either, `cookie NAME`, `cache`, `notify`, `fault`, by which it fails its turn, and `see`, which adds to a response the
//! method of its request, the moment, and the names of its headers. `wait N CHANGE` is Pending N times first. What does not
//! fit changes nothing.
//!
//! An exchange answers, between semicolons, each call with its answer and, where they are not 0, how many changes the jar's
//! log and how many values the cache has then and which word the wire's handle has seen; how many polls there were and the
//! moment of the run, where they were several; the response: its status, the size of its body, its headers in brackets and
//! the bytes of its body, of which only their number is told where they are more than one line; and the log of the jar, if it
//! is asked for, where `+` stands before a cookie that was added and `-` before one that was removed. One that is not done at
//! its ninth poll answers `? line`.
#![tactic(auto)]

mod acts;
mod answer;
mod app;
mod asked;
mod changer;
mod exchanged;
mod fairing;
mod owned;
mod page;
mod routes;
mod shown;
mod source;
mod told;

use crate::answer::Program;
use cases::{CaseError, answer_lines};
use std::io;

fn main(rt: HostRuntime) -> io::Result<()> {
    let alloc = rt.alloc();
    match Program::new(alloc) {
        Ok(program) => answer_lines(&rt, alloc, program),
        Err(error) => rt.println(error.text()),
    }
}

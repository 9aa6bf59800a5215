//! The cases of fairings and of the builder: each line of standard input says one, and standard output has it again with its
//! answer. `stdout` is the table of cases with the answers that are wanted; `stdin` has its lines up to the arrow.
//! An empty line and one that begins with `#` are headings. What is no line of these is answered with `? line`.
//!
//! - `kind KINDS`: the kinds as they are shown
//! - `is KINDS / KINDS`, `is_exactly KINDS / KINDS`: whether the first have those of the second, or are these
//! - `build new`: nothing is built any more
//! - `mount BASE URI..`, `register BASE NUMBER..`: the URIs of all routes, or the bases of all catchers with their
//!   codes; or `refused`
//! - `manage KEY VALUE`: the value that the key has then, or `refused`
//! - `configure NAME TEXT`, `text NAME`: the text of the name in a table with this entry alone, or in that of the
//!   builder
//! - `attach NAME KEY KINDS`, `attach shield`: the names by event: ignition, liftoff, request, response, shutdown
//! - `other NAME KEY KINDS`, `append`: the same of another list, which is then added to the builder's
//! - `audit`: `ok`, or the names of those that were refused
//! - `active`: the places of those that are called among all that were attached, event by event
//! - `at EVENT NUMBER`: the name at a place of an event's list, and its length
//! - `change EVENT NUMBER NAME KEY KINDS`: another fairing is put in that place: the names by event, or `none`
//! - `ignite next`: the name of the first of ignition that still waits, which counts as ignited then, or `none`
//! - `adhoc KIND COMES NUMBER`: what an ad hoc fairing tells, what each of so many calls of it answers, and what they
//!   leave: at `ignite` and `try` how many fairings they attached, at `liftoff` the word of the shutdown that they
//!   notified; `shutdown` changes nothing
//! - `ask NAME`, `ask shield`: the end of the one turn of a call for a GET, and the method then: a fairing of a NAME
//!   makes a PUT of each request
//! - `respond NAME HEADER VALUE`, `respond shield HEADER VALUE`: the same for a response with this header, or without
//!   any, and its headers then: a fairing of a NAME adds its name, and the shield has its policies by default
//!
//! COMES is what comes of the change behind it: `done`, `refused` or `starved`.
//! The builder and the other list are kept from line to line. KINDS and EVENTs are the names of kinds, parted by blanks, and
//! `-` for no kind; a NAME is `ada`, `bob` or `cy`.
#![tactic(auto)]

mod ad_hoc;
mod answer;
mod build;
mod kinds;
mod named;
mod shown;
mod site;
mod turns;

use crate::answer::Kept;
use cases::answer_lines;
use std::io;

fn main(rt: HostRuntime) -> io::Result<()> {
    let alloc = rt.alloc();
    answer_lines(&rt, alloc, Kept::new(alloc))
}

//! The cases of ignition, and of what is called in orbit: each line of standard input says one, and standard output has it
//! again with its answer. `stdout` is
//! the table of cases with the answers that are wanted; `stdin` has its lines up to the arrow. An empty line and one that
//! begins with `#` are headings. What is no line of these is answered with `? line`.
//!
//! - `attach NAME KEY ACT`: how many fairings of the builder are called at ignition
//! - `single NAME KEY ACT`: the same of a singleton
//! - `configure NAME TEXT`: `done`: the table has this entry alone
//! - `route URI SENTRY..`: `done`: a route for GET is mounted, with these sentries
//! - `catch NUMBER`: `done`: a catcher of this code is registered
//! - `ignite`: what ignition makes of the builder, which is empty then: `ok` with the number of routes, of catchers and
//!   of fairings that are called at ignition, and the name of the server; or the refusal with its text
//! - `query SENTRY..`: `ok`, or the places of the sentries that abort
//! - `orbit new NUMBER`: `done`: a rocket in orbit has nothing attached from here on, and so many turns, where none
//!   count as one
//! - `orbit attach KIND CALL`: how many of its fairings are called at liftoff, and how many at a shutdown
//! - `orbit shield`: the same, once the shield is attached
//! - `orbit liftoff`: how each call ended, how often each fairing was polled so far, and the word that the handle has
//!   seen
//! - `orbit down`: how each call at a shutdown ended
//!
//! An ACT is what a fairing does at ignition: `done`, `refuse`, `fault`, `starve`, `pend NUMBER` (it is Pending so
//! often), `again` (it attaches one like itself), `attach NAME KEY` (it attaches one that is done), `single NAME KEY`
//! (the same, a singleton), `name TEXT` and `turns TEXT` (it sets a table with the name of the server, or with the
//! number of turns). A NAME is `ada`, `bob` or `cy`. A SENTRY is `KEY:PARENT:HOW`, with `-` for no parent, and HOW is
//! `open` (it is not specialised), `no` or `yes` (it is, and aborts in the second case). A KIND is `liftoff`,
//! `shutdown` or `both`. A CALL is what a fairing does where it is called in orbit: `done`, `fault`, `starve`,
//! `pend NUMBER` (it is Pending so often), `notify` (at liftoff it notifies the shutdown) and `seen` (at liftoff it
//! faults, unless the handle has seen a word).
#![tactic(auto)]

mod act;
mod actor;
mod answer;
mod build;
mod orbit;
mod sentries;
mod shown;
mod site;

use crate::answer::Kept;
use cases::answer_lines_if_made;
use std::io;

fn main(rt: HostRuntime) -> io::Result<()> {
    let alloc = rt.alloc();
    answer_lines_if_made(&rt, alloc, Kept::new(alloc))
}

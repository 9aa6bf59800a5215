//! The cases of routes, catchers and routers: each line of standard input says one, and standard output has it again behind
//! an arrow, with its answer. `stdout` is the table of cases with the answers that are wanted; `stdin` has its lines up to
//! the arrow. Empty lines and those that begin with `#` are headings. A line that is none of the language answers `? line`.
//!
//! One router is kept from line to line. A URI or a base that is refused answers `refused at` and the place, a code
//! `bad code` and the code. A METHOD is a word as `GET`, and a CODE a number or `any`.
//!
//! - `segment TEXT`: the value of a segment, whether it is dynamic, and whether it is trailing
//! - `uri BASE PATH`: the whole URI of a route, its base, its path as it was written, and then path, query and default
//!   rank
//! - `new`: begins with an empty router
//! - `route METHOD PATH`, `ranked RANK METHOD PATH`: makes a route with a handler 7, shows it, and mounts it
//! - `static RANK METHOD`: the same of static information: named `static`, at `/hello/<name>`, with a handler 9; RANK
//!   may be `any`
//! - `below FRONT METHOD PATH`: the same of a route of rank 3 that is moved to the base with FRONT before its own
//! - `format TYPE METHOD PATH`: the same of a route that asks for a format
//! - `numbered COUNT`: mounts `GET /r0`, `GET /r1` and so on, so many
//! - `catcher CODE`, `static_catcher CODE`, `default_catcher`: makes a catcher, shows it, and registers it
//! - `default_below FRONT`: the same of the default catcher, moved as above
//! - `catcher_at BASE CODE`: the same of a catcher of this base
//! - `tries METHOD URI`: the positions of the routes that a request is tried on, by the walk, and one after another
//! - `catch STATUS URI`: the position of the catcher that is chosen
//! - `finalize`: whether the router is taken, or all that collides
//! - `media TYPE TYPE`: whether two media types collide
//! - `dummy BODY`, `passes BODY`: what a handler answers: `Dummy`, and one that leaves each request to another route
//! - `bare STATUS`: what a catcher answers that answers each status with itself
//! - `turns HANDLER TURNS BODY`: what a whole call gives that has so many turns, and how many changes of cookies it
//!   leaves: `waits` is Pending once, `marks` adds a cookie and leaves the request to another route, `faults` fails its
//!   turn
//! - `catch_turns TURNS STATUS`: what a whole call of that catcher gives
//! - `page STATUS`: what the default page of a status answers
//! - `sentinel NAME`: whether a sentinel has to abort the launch of a rocket that manages a value under the key 1:
//!   `kept` of that key, `missing` of another, `debug`; `option` of the second, `result` of the third and the second,
//!   `either` of the first and the third
//! - `from INNER`, `try_from INNER`, `try_from`: an answer made of a responder: a number is that status, else a text;
//!   no responder
//! - `error STATUS`, `forward STATUS BODY`: an answer that is made so
#![tactic(auto)]

mod answer;
mod asked;
mod callbacks;
mod catchers;
mod handlers;
mod question;
mod refusal;
mod replies;
mod routes;
mod sentinels;
mod turns;
mod uris;
mod words;

use crate::answer::Program;
use cases::answer_lines_if_made;
use std::io;

fn main(rt: HostRuntime) -> io::Result<()> {
    let alloc = rt.alloc();
    answer_lines_if_made(&rt, alloc, Program::new(alloc))
}

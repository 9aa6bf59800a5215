//! The cases of cookies. Each line of standard input says one, and is written again with ` -> ` and its answer; beside this
//! folder, `stdout` is the table of cases with the answers that are wanted, and `stdin` has its lines up to the arrow.
//! Empty lines and those that begin with `#` are headings, and are written as they are.
//!
//! A cookie is one of these:
//!
//! - `read TEXT`: what the text is read as. The text may stand between quotes, which keep blanks at its ends in sight.
//! - `set NAME=VALUE; ATTRIBUTE=VALUE; ..`: the pair, and then one setter after another.
//! - `build NAME=VALUE; ATTRIBUTE=VALUE; ..`: the same by the builder.
//!
//! The attributes are `path` and `domain` with a text, `same_site` with `Strict`, `Lax` or `None`, `secure` and
//! `http_only` with `true` or `false`, `max_age` and `expires` with a number of seconds, and `removal` with the moment at
//! which the cookie becomes a removal, to which the builder pays no heed.
//!
//! - a cookie: the text that it is sent as
//! - `copy` and a cookie: the text of its copy
//! - `fields` and a cookie: what it tells of itself
//! - `jar new`: `done`; from then on the jar is an empty one
//! - `jar original`, `jar add` or `jar remove`, and a cookie: `done`
//! - `jar copy`: `done`; from then on the jar is its copy
//! - `jar share STEP | STEP ..`: `done`: each step is `add` or `remove` and a cookie, by a jar that threads may share,
//!   which is closed then
//! - `jar reset`: `done`: what was pending is forgotten
//! - `jar get NAME`, `jar pending NAME`: the original's text, what is pending, or `none`
//! - `jar originals`: how many there are, and each behind a bar
//! - `jar changes`: how many were made, and each behind a bar and its sign
//! - `jar delta MOMENT`: how many cookies are sent at this moment, and each behind a bar
//!
//! The jar is kept from line to line. A text that is no cookie's answers `refused`, and any other line `? line`.
#![tactic(auto)]

mod answer;
mod attribute;
mod jar;
mod made;
mod shown;
mod words;

use crate::answer::Kept;
use cases::answer_lines;
use std::io;

fn main(rt: HostRuntime) -> io::Result<()> {
    let alloc = rt.alloc();
    answer_lines(&rt, alloc, Kept::new(&rt, alloc))
}

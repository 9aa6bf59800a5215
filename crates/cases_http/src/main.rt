//! The cases of HTTP's texts: each line of standard input says one, and standard output has it again with its answer.
//! `stdout` is the table of cases with the answers that are wanted; `stdin` has its lines up to the arrow.
//!
//! TEXT is the rest of the line. Between double quotes it is what stands between them, so that it may be empty or end
//! in a blank. A header map and a copy of one are kept from line to line; both are empty at first.
//!
//! - `method TEXT`: the method of this name in any case, and whether its requests carry a payload
//! - `wire TEXT`: the same of the method of exactly this name
//! - `status CODE`: its class and its reason
//! - `html CODE`, `json CODE`: the size of the default page in bytes, and the page
//! - `media TEXT`: the media type as it is printed
//! - `parts TEXT`: its type, its subtype and its specificity
//! - `kind TEXT`: whether it is JSON, and whether it is a form
//! - `again TEXT`: whether what is printed is read as the same media type
//! - `content TEXT`: the header of the content type
//! - `equal TEXT <=> OTHER`: whether the two content types are the same
//! - `known NAME`: the header of the content type with this name of its own
//! - `is NAME TEXT`: whether the content type is that one
//! - `accept TEXT`: the media type that the list prefers
//! - `header NAME: VALUE`: the header
//! - `uncased ONE OTHER`: the first word, and whether the two are the same in any case
//! - `map ..`: what the header map answers, below
//! - `outcome ..`: what an outcome answers, below
//! - `option CALL RESULT NUMBER`, `guard ..`, `data ..`, `route ..`: the outcome that an option or a result is read as,
//!   below
//!
//! Of the map: `new` makes it empty; `add NAME: VALUE` and `replace NAME: VALUE` take a header, and the second answers
//! whether the group was there; `add_all NAME: VALUE, ..` and `replace_all NAME: VALUE, ..` take several values, or none;
//! `remove NAME`, `get NAME`, `one NAME` and `has NAME` take a name; `shown` has the number of groups and each header
//! behind a bar; `empty` tells whether there is none; `copy` keeps a copy, and `copied` shows it as `shown` does the map.
//!
//! An OUTCOME is `success NUMBER`, `error NUMBER` or `forward NUMBER`. Sums begin at 0 again past the last number.
//!
//! - `outcome CALL OUTCOME`: `is` (the three predicates), `succeeded`, `failed`, `forwarded`, `as_ref` (its Success),
//!   `unwrap` and `expect` (of a Success), `display`, `debug`, and `try` (the macro, which goes on with half of the
//!   number)
//! - `outcome CALL NUMBER OUTCOME`: `map`, `map_error`, `map_forward` and `as_mut` (of a Success), which add the
//!   number, and `success_or` and `success_or_else`, which err with it
//! - `outcome CALL OUTCOME OTHER`: `and_then`, `error_then` and `forward_then`, which go on with the other outcome, the
//!   number of the first one added to its own; `ok_map_forward` and `ok_map_error`, which go on with that as a result,
//!   of which a Success is Ok; and `same`, which compares the two
//!
//! A RESULT is `ok NUMBER` or `err NUMBER`. It is read by the CALL `or_error` or `or_forward`, with the number as what
//! stands where there is no value: `option` reads its value, if it has one; `guard` and `data` read it as guards do, and
//! `route` as a route does, with the number as a status. `data` and `route` hand on a body, which is the number 1.
//!
//! A refused text answers its fault, with the place where it leaves the grammar; any other line answers `? line`. Each
//! answer of a text that can be copied is told by a copy. Empty lines and those that begin with `#` are headings, and are
//! written as they are.
#![tactic(auto)]

mod answer;
mod header_map;
mod headers;
mod media;
mod outcome;
mod reading;
mod statuses;
mod words;

use crate::header_map::Maps;
use cases::answer_lines;
use std::io;

fn main(rt: HostRuntime) -> io::Result<()> {
    let alloc = rt.alloc();
    answer_lines(&rt, alloc, Maps::new(alloc))
}

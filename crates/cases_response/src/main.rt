//! The cases of responders and of flash messages: each line of standard input says one, and standard output has it again
//! behind an arrow, with its answer. `stdout` is the table of cases with the answers that are wanted; `stdin` has its lines
//! up to the arrow. Empty lines and those that begin with `#` are headings. A line that is none of the language answers
//! `? line`.
//!
//! A responder answers to `GET /` with its status, the size of its body, its headers in brackets and the body's text, or
//! with `err` and the status that it errs with. INNER is a responder in another: a number is that status, `-` the empty
//! response, and any other text is a text.
//!
//! - `INNER` behind `plain`: that one alone
//! - `text KIND TEXT`: a text that is lent (`str`), a `string`, `boxed`, shared (`arc`), or `cow`, which is lent, and
//!   `owned_cow`
//! - `bytes KIND TEXT`: the same of bytes: `slice`, `vec`, `boxed`, `arc`, `cow`, `owned_cow`
//! - `some INNER`, `none`, `ok INNER`, `error INNER`, `left INNER`, `right INNER`, `box INNER`, `capped INNER`: std's
//!   types, and a body that was cut
//! - `debug NUMBER`, `fault`, `gone`, `timed_out`: what only tells of an error
//! - `custom CODE INNER`, `pair CODE INNER`: with a status
//! - `accepted INNER`, `bad_request`, `unauthorized`, `forbidden`, `not_found`, `conflict`, and `no_content` alone:
//!   with its status
//! - `json INNER`, `xml`, `msgpack`, `html`, `plain_text`, `css`, `javascript`, `typed TYPE INNER`: with a content type
//! - `html_accepted INNER`: both
//! - `created PLACE`, `created_with PLACE INNER`: at a place
//! - `to URI`, `temporary`, `permanent`, `found`, `moved`: redirects
//! - `byte_stream TEXT`, `text_stream TEXT`: a source that gives two bytes at a time
//! - `reader_stream TEXT`: a stream of one such source
//! - `same NUMBER NUMBER`: whether two `Accepted` of these are equal
//! - `flash KIND MESSAGE`: what the cookie says, and what a jar sends of it; KIND `success`, `warning` and `error` are
//!   made by their own calls
//! - `flashing KIND MESSAGE`: the response of `-` with it, and what the jar of the request sends
//! - `guard VALUE`, `no_cookie`: what the guard of messages gives where the cookie says this: kind, message and how
//!   many changes the jar has then, or the status with which it errs
//! - `message VALUE`: kind and message one after another, how many changes, and what the jar sends at the moment
//!   31536001
#![tactic(auto)]

mod answer;
mod around;
mod content;
mod flash;
mod inner;
mod made;
mod message;
mod redirect;
mod shown;
mod streaming;
mod texts;

use crate::answer::Program;
use cases::answer_lines_if_made;
use std::io;

fn main(rt: HostRuntime) -> io::Result<()> {
    let alloc = rt.alloc();
    answer_lines_if_made(&rt, alloc, Program::new(alloc))
}

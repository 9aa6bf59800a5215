use crate::header_map::{Maps, push_maps};
use crate::headers::{push_header, push_uncased};
use crate::media::{push_accept, push_content, push_equal, push_is_known, push_known, push_media};
use crate::outcome::push_outcome_case;
use crate::reading::push_reading;
use crate::statuses::{push_method, push_status};
use cases::{Answers, CaseError, first_word, plain, written};
use std::alloc::Global;

/// Adds what a case answers that has no text of a grammar.
fn push_plain_case(
    alloc: Global,
    command: &str,
    rest: &str,
    out: &mut String,
) -> Result<(), CaseError> {
    match command {
        "method" | "wire" => written(push_method(command, rest, out)),
        "status" | "html" | "json" => push_status(alloc, command, rest, out),
        "known" => push_known(alloc, rest, out),
        "header" => push_header(alloc, rest, out),
        "uncased" => written(push_uncased(alloc, rest, out)),
        "outcome" => push_outcome_case(rest, out),
        "option" | "guard" | "data" | "route" => push_reading(command, rest, out),
        _ => Err(CaseError::Line),
    }
}

/// Adds what a case answers that is not about the map.
fn push_case(alloc: Global, command: &str, rest: &str, out: &mut String) -> Result<(), CaseError> {
    match command {
        "media" | "parts" | "again" => push_media(alloc, command, plain(rest), out),
        "content" | "kind" => push_content(alloc, command, plain(rest), out),
        "accept" => push_accept(alloc, plain(rest), out),
        "equal" => push_equal(alloc, rest, out),
        "is" => push_is_known(alloc, rest, out),
        _ => push_plain_case(alloc, command, rest, out),
    }
}

impl Answers for Maps {
    fn answer(&mut self, alloc: Global, line: &str, out: &mut String) -> Result<(), CaseError> {
        let (command, rest) = first_word(line);
        match command {
            "map" => push_maps(alloc, self, rest, out),
            _ => push_case(alloc, command, rest, out),
        }
    }
}

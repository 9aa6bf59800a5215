//! Cases of options and results that are read as outcomes.
use crate::words::number_cut;
use cases::{CaseError, first_word, written};
use rkt_base::NoMemory;
use rkt_http::Status;
use rkt_http::outcome::{IntoOutcome, Outcome};

/// What stands where there is no value.
#[derive(Clone, Copy)]
enum Missing {
    Error(u32),
    Forward(u32),
}

impl Missing {
    fn named(call: &str, number: u32) -> Result<Missing, CaseError> {
        match call {
            "or_error" => Ok(Missing::Error(number)),
            "or_forward" => Ok(Missing::Forward(number)),
            _ => Err(CaseError::Line),
        }
    }
}

fn status(number: u32) -> Status {
    Status::new((number % 65536) as u16)
}

fn result_named(word: &str, number: u32) -> Result<Result<u32, u32>, CaseError> {
    match word {
        "ok" => Ok(Ok(number)),
        "err" => Ok(Err(number)),
        _ => Err(CaseError::Line),
    }
}

/// The result at the front of a text, and the rest.
fn result_cut(text: &str) -> Result<(Result<u32, u32>, &str), CaseError> {
    let (word, rest) = first_word(text);
    let (number, rest) = number_cut(rest)?;
    Ok((result_named(word, number)?, rest))
}

fn push_one(word: &str, number: u32, out: &mut String) -> Result<(), NoMemory> {
    write!(out, "{word} {number}")
}

fn push_two(word: &str, number: u32, other: u32, out: &mut String) -> Result<(), NoMemory> {
    write!(out, "{word} {number} {other}")
}

fn push_option(value: Option<u32>, missing: Missing, out: &mut String) -> Result<(), NoMemory> {
    let outcome: Outcome<u32, u32, u32> = match missing {
        Missing::Error(number) => value.or_error(number),
        Missing::Forward(number) => value.or_forward(number),
    };
    match outcome {
        Outcome::Success(number) => push_one("success", number, out),
        Outcome::Error(number) => push_one("error", number, out),
        Outcome::Forward(number) => push_one("forward", number, out),
    }
}

fn push_guard(
    answer: Result<u32, u32>,
    missing: Missing,
    out: &mut String,
) -> Result<(), NoMemory> {
    let outcome: Outcome<u32, (Status, u32), Status> = match missing {
        Missing::Error(number) => answer.or_error(status(number)),
        Missing::Forward(number) => answer.or_forward(status(number)),
    };
    match outcome {
        Outcome::Success(number) => push_one("success", number, out),
        Outcome::Error((status, cause)) => push_two("error", status.code as u32, cause, out),
        Outcome::Forward(status) => push_one("forward", status.code as u32, out),
    }
}

fn push_data(answer: Result<u32, u32>, missing: Missing, out: &mut String) -> Result<(), NoMemory> {
    let outcome: Outcome<u32, (Status, u32), (u32, Status)> = match missing {
        Missing::Error(number) => answer.or_error(status(number)),
        Missing::Forward(number) => answer.or_forward((1, status(number))),
    };
    match outcome {
        Outcome::Success(number) => push_one("success", number, out),
        Outcome::Error((status, cause)) => push_two("error", status.code as u32, cause, out),
        Outcome::Forward((body, status)) => push_two("forward", body, status.code as u32, out),
    }
}

fn push_route(
    answer: Result<u32, Status>,
    missing: Missing,
    out: &mut String,
) -> Result<(), NoMemory> {
    let outcome: Outcome<u32, Status, (u32, Status)> = match missing {
        Missing::Error(_) => answer.or_error(()),
        Missing::Forward(number) => answer.or_forward((1, status(number))),
    };
    match outcome {
        Outcome::Success(number) => push_one("success", number, out),
        Outcome::Error(status) => push_one("error", status.code as u32, out),
        Outcome::Forward((body, status)) => push_two("forward", body, status.code as u32, out),
    }
}

fn push_read(
    command: &str,
    answer: Result<u32, u32>,
    missing: Missing,
    out: &mut String,
) -> Result<(), NoMemory> {
    match command {
        "option" => push_option(answer.ok(), missing, out),
        "guard" => push_guard(answer, missing, out),
        "data" => push_data(answer, missing, out),
        _ => push_route(answer.map_err(status), missing, out),
    }
}

/// Adds what an option or a result is read as.
pub fn push_reading(command: &str, rest: &str, out: &mut String) -> Result<(), CaseError> {
    let (call, text) = first_word(rest);
    let (answer, rest) = result_cut(text)?;
    let (number, _) = number_cut(rest)?;
    written(push_read(command, answer, Missing::named(call, number)?, out))
}

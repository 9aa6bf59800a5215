//! Cases of outcomes.
use crate::words::number_cut;
use cases::{CaseError, first_word, written};
use rkt_base::NoMemory;
use rkt_http::outcome::Outcome;
use rkt_http::try_outcome;

type Small = Outcome<u32, u32, u32>;

fn variant(word: &str, number: u32) -> Result<Small, CaseError> {
    match word {
        "success" => Ok(Outcome::Success(number)),
        "error" => Ok(Outcome::Error(number)),
        "forward" => Ok(Outcome::Forward(number)),
        _ => Err(CaseError::Line),
    }
}

/// The outcome at the front of a text, and the rest.
fn outcome_cut(text: &str) -> Result<(Small, &str), CaseError> {
    let (word, rest) = first_word(text);
    let (number, rest) = number_cut(rest)?;
    Ok((variant(word, number)?, rest))
}

/// The name of the variant, and the number.
fn named(outcome: Small) -> (&'static str, u32) {
    match outcome {
        Outcome::Success(number) => ("success", number),
        Outcome::Error(number) => ("error", number),
        Outcome::Forward(number) => ("forward", number),
    }
}

fn push_outcome(outcome: Small, out: &mut String) -> Result<(), NoMemory> {
    let (name, number) = named(outcome);
    write!(out, "{name} {number}")
}

fn push_option(number: Option<u32>, out: &mut String) -> Result<(), NoMemory> {
    write!(out, "{number:?}")
}

fn push_result(answer: Result<u32, u32>, out: &mut String) -> Result<(), NoMemory> {
    write!(out, "{answer:?}")
}

fn push_predicates(outcome: Small, out: &mut String) -> Result<(), NoMemory> {
    let (success, error) = (outcome.is_success(), outcome.is_error());
    write!(out, "{success} {error} {}", outcome.is_forward())
}

/// The value of a Success by a call that only a Success may have.
fn unwrapped(outcome: Small) -> Option<u32> {
    if outcome.is_success() {
        Some(outcome.unwrap())
    } else {
        None
    }
}

fn expected(outcome: Small) -> Option<u32> {
    if outcome.is_success() {
        Some(outcome.expect("it is a Success"))
    } else {
        None
    }
}

/// Half of a Success. What else it is goes through `From`.
fn halved(outcome: Outcome<u32, u16, u16>) -> Small {
    let value = try_outcome!(outcome);
    Outcome::Success(value / 2)
}

/// The outcome with what is no value in a smaller type.
fn narrowed(outcome: Small) -> Outcome<u32, u16, u16> {
    outcome
        .map_error(|number| (number % 65536) as u16)
        .map_forward(|number| (number % 65536) as u16)
}

/// Adds what a call tells of an outcome's numbers.
fn push_viewed(call: &str, outcome: Small, out: &mut String) -> Result<(), CaseError> {
    match call {
        "succeeded" => written(push_option(outcome.succeeded(), out)),
        "failed" => written(push_option(outcome.failed(), out)),
        "forwarded" => written(push_option(outcome.forwarded(), out)),
        "as_ref" => written(push_option(outcome.as_ref().map(|value| *value).succeeded(), out)),
        "unwrap" => written(push_option(unwrapped(outcome), out)),
        "expect" => written(push_option(expected(outcome), out)),
        _ => Err(CaseError::Line),
    }
}

/// Adds what a call of one outcome answers.
fn push_alone(call: &str, outcome: Small, out: &mut String) -> Result<(), CaseError> {
    match call {
        "is" => written(push_predicates(outcome, out)),
        "display" => written(write!(out, "{outcome}")),
        "debug" => written(write!(out, "{outcome:?}")),
        "try" => written(push_outcome(halved(narrowed(outcome)), out)),
        _ => push_viewed(call, outcome, out),
    }
}

/// The outcome whose Success was changed where it stands.
fn raised(mut outcome: Small, number: u32) -> Small {
    if let Outcome::Success(value) = outcome.as_mut() {
        *value = value.wrapping_add(number);
    }
    outcome
}

/// The other outcome, with the number added to its own.
fn joined(number: u32, other: Small) -> Small {
    match other {
        Outcome::Success(value) => Outcome::Success(value.wrapping_add(number)),
        Outcome::Error(error) => Outcome::Error(error.wrapping_add(number)),
        Outcome::Forward(forward) => Outcome::Forward(forward.wrapping_add(number)),
    }
}

/// What a call of a number and an outcome makes of it.
fn mapped(call: &str, number: u32, outcome: Small) -> Result<Small, CaseError> {
    match call {
        "map" => Ok(outcome.map(|value| value.wrapping_add(number))),
        "map_error" => Ok(outcome.map_error(|error| error.wrapping_add(number))),
        "map_forward" => Ok(outcome.map_forward(|forward| forward.wrapping_add(number))),
        "as_mut" => Ok(raised(outcome, number)),
        _ => Err(CaseError::Line),
    }
}

/// Adds what a call of a number and an outcome answers.
fn push_numbered(
    call: &str,
    number: u32,
    outcome: Small,
    out: &mut String,
) -> Result<(), CaseError> {
    match call {
        "success_or" => written(push_result(outcome.success_or(number), out)),
        "success_or_else" => written(push_result(outcome.success_or_else(|| number), out)),
        _ => written(push_outcome(mapped(call, number, outcome)?, out)),
    }
}

fn result_of(outcome: Small) -> Result<u32, u32> {
    match outcome {
        Outcome::Success(value) => Ok(value),
        Outcome::Error(number) | Outcome::Forward(number) => Err(number),
    }
}

/// What an outcome goes on to.
fn gone_on(call: &str, outcome: Small, other: Small) -> Result<Small, CaseError> {
    match call {
        "and_then" => Ok(outcome.and_then(|value| joined(value, other))),
        "error_then" => Ok(outcome.error_then(|error| joined(error, other))),
        "forward_then" => Ok(outcome.forward_then(|forward| joined(forward, other))),
        _ => Err(CaseError::Line),
    }
}

/// Adds what a call of two outcomes answers.
fn push_paired(
    call: &str,
    outcome: Small,
    other: Small,
    out: &mut String,
) -> Result<(), CaseError> {
    match call {
        "ok_map_forward" => written(push_result(
            outcome.ok_map_forward(|number| result_of(joined(number, other))),
            out,
        )),
        "ok_map_error" => written(push_result(
            outcome.ok_map_error(|number| result_of(joined(number, other))),
            out,
        )),
        "same" => written(write!(out, "{}", outcome == other)),
        _ => written(push_outcome(gone_on(call, outcome, other)?, out)),
    }
}

/// Adds what a call answers whose first word is an outcome's.
fn push_of_outcome(call: &str, text: &str, out: &mut String) -> Result<(), CaseError> {
    let (outcome, rest) = outcome_cut(text)?;
    if rest.is_empty() {
        return push_alone(call, outcome, out);
    }
    let (other, _) = outcome_cut(rest)?;
    push_paired(call, outcome, other, out)
}

fn push_of_number(call: &str, number: u32, text: &str, out: &mut String) -> Result<(), CaseError> {
    let (outcome, _) = outcome_cut(text)?;
    push_numbered(call, number, outcome, out)
}

/// Adds what a call answers.
pub fn push_outcome_case(line: &str, out: &mut String) -> Result<(), CaseError> {
    let (call, text) = first_word(line);
    match number_cut(text) {
        Ok((number, rest)) => push_of_number(call, number, rest, out),
        Err(_) => push_of_outcome(call, text, out),
    }
}

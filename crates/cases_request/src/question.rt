//! What a line asks of a request.
use cases::{CaseError, first_word, parsed};

#[derive(Clone, Copy)]
pub enum Question<'a> {
    Tell,
    Segment(usize),
    Segments(usize),
    /// A segment, or those from one on, as a value of the type of this name.
    Param(usize, &'a str),
    Params(usize, &'a str),
    /// The guard of the type of this name.
    Guard(&'a str),
    /// The guard of a body, `TYPE CHUNK FAILS BYTES`.
    Body(&'a str),
}

fn guard(text: &str) -> (Question<'_>, &str) {
    let (name, request) = first_word(text);
    (Question::Guard(name), request)
}

fn typed<'a>(command: &str, n: usize, text: &'a str) -> Result<(Question<'a>, &'a str), CaseError> {
    let (name, request) = first_word(text);
    match command {
        "param" => Ok((Question::Param(n, name), request)),
        "params" => Ok((Question::Params(n, name), request)),
        _ => Err(CaseError::Line),
    }
}

fn numbered<'a>(command: &str, text: &'a str) -> Result<(Question<'a>, &'a str), CaseError> {
    let (word, rest) = first_word(text);
    let n = parsed::<usize>(word)?;
    match command {
        "segment" => Ok((Question::Segment(n), rest)),
        "segments" => Ok((Question::Segments(n), rest)),
        _ => typed(command, n, rest),
    }
}

/// The question of a line, and the request that it is asked of.
pub fn parse_question<'a>(
    command: &str,
    text: &'a str,
) -> Result<(Question<'a>, &'a str), CaseError> {
    match command {
        "tell" => Ok((Question::Tell, text)),
        "guard" => Ok(guard(text)),
        "body" => Ok((Question::Body(text), "POST /echo")),
        _ => numbered(command, text),
    }
}

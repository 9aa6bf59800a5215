//! What a line asks of the application, and the path of the request that it is asked for.
use cases::{CaseError, first_word, parsed};
use rkt_http::Status;

/// What a line asks.
#[derive(Clone, Copy)]
pub enum Question<'a> {
    /// The guard, of a request that shows this token.
    Token(&'a str),
    /// The first segment, and how many there are.
    Hex,
    Depth,
    /// The guard of a body of this text.
    Point(&'a str),
    /// The responder of this text.
    Loud(&'a str),
    Call(Callback<'a>),
}

/// A handler, or a catcher with its status.
#[derive(Clone, Copy)]
pub enum Callback<'a> {
    Greets,
    Motto,
    /// With a body of this text.
    Places(&'a str),
    /// For a request that shows this token.
    Shows(&'a str),
    Visits,
    Says(Status),
    Notes(Status),
}

fn catcher(command: &str, status: Status) -> Result<Callback<'_>, CaseError> {
    match command {
        "says" => Ok(Callback::Says(status)),
        "notes" => Ok(Callback::Notes(status)),
        _ => Err(CaseError::Line),
    }
}

fn parse_catcher<'a>(
    command: &'a str,
    rest: &'a str,
) -> Result<(Question<'a>, &'a str), CaseError> {
    let (code, path) = first_word(rest);
    let catcher = catcher(command, Status::new(parsed::<u16>(code)?))?;
    Ok((Question::Call(catcher), path))
}

fn parse_callback<'a>(
    command: &'a str,
    rest: &'a str,
) -> Result<(Question<'a>, &'a str), CaseError> {
    match command {
        "greets" => Ok((Question::Call(Callback::Greets), rest)),
        "motto" => Ok((Question::Call(Callback::Motto), "/")),
        "shows" => Ok((Question::Call(Callback::Shows(rest)), "/")),
        "visits" => Ok((Question::Call(Callback::Visits), "/")),
        "places" => Ok((Question::Call(Callback::Places(rest)), "/")),
        _ => parse_catcher(command, rest),
    }
}

/// The question of a line, and the path.
pub fn parse_line(line: &str) -> Result<(Question<'_>, &str), CaseError> {
    let (command, rest) = first_word(line);
    match command {
        "token" => Ok((Question::Token(rest), "/")),
        "hex" => Ok((Question::Hex, rest)),
        "depth" => Ok((Question::Depth, rest)),
        "point" => Ok((Question::Point(rest), "/")),
        "loud" => Ok((Question::Loud(rest), "/")),
        _ => parse_callback(command, rest),
    }
}

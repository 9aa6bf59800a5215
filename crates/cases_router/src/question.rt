//! What a line asks for a request.
use crate::words::{method, status};
use cases::{CaseError, first_word};
use rkt_http::{Method, Status};

#[derive(Clone, Copy)]
pub enum Question<'a> {
    /// On which routes it is tried.
    Tries,
    /// Which catcher is chosen for this status.
    Catch(Status),
    /// What a callback answers, by its command and what stands behind it.
    Call(&'a str, &'a str),
}

/// A question, and the method and the URI of the request.
#[derive(Clone, Copy)]
pub struct Asked<'a> {
    pub question: Question<'a>,
    pub method: Method,
    pub uri: &'a str,
}

fn tries(rest: &str) -> Result<Asked<'_>, CaseError> {
    let (name, uri) = first_word(rest);
    Ok(Asked {
        question: Question::Tries,
        method: method(name)?,
        uri,
    })
}

fn catch(rest: &str) -> Result<Asked<'_>, CaseError> {
    let (code, uri) = first_word(rest);
    Ok(Asked {
        question: Question::Catch(status(code)?),
        method: Method::Get,
        uri,
    })
}

/// The question of a line. A callback is called for `GET /`.
pub fn parse_asked<'a>(command: &'a str, rest: &'a str) -> Result<Asked<'a>, CaseError> {
    match command {
        "tries" => tries(rest),
        "catch" => catch(rest),
        _ => Ok(Asked {
            question: Question::Call(command, rest),
            method: Method::Get,
            uri: "/",
        }),
    }
}

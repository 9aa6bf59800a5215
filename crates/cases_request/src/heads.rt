//! Heads, as lines say them.
use crate::told::{push_field, push_request};
use crate::words::{field, first_piece, unescaped};
use cases::{CaseError, first_word, parsed, written};
use rkt_base::{NoMemory, Seq, Text};
use rkt_cookie::CookieJar;
use rkt_request::{Head, Incoming, Request};
use sample_app::{Sample, Server};
use std::alloc::Global;
use std::net::SocketAddr;

/// The head of `METHOD TARGET`.
fn first(alloc: Global, text: &str) -> Result<Head, NoMemory> {
    let (method, target) = first_word(text);
    Ok(Head {
        method: Text::new(alloc, method)?,
        target: Text::new(alloc, target)?,
        headers: Seq::new(alloc),
        remote: None,
    })
}

fn push_header(alloc: Global, head: &mut Head, name: &str, value: Vec<u8>) -> Result<(), NoMemory> {
    let name = Text::new(alloc, name)?;
    head.headers.push((name, Seq::from_vec(value)))
}

fn take_header(alloc: Global, head: &mut Head, text: &str) -> Result<(), CaseError> {
    let (name, value) = field(text)?;
    let value = unescaped(alloc, value)?;
    written(push_header(alloc, head, name, value))
}

fn take_field(alloc: Global, head: &mut Head, text: &str) -> Result<(), CaseError> {
    match text.strip_prefix("from ") {
        Some(word) => {
            head.remote = Some(parsed::<SocketAddr>(word)?);
            Ok(())
        }
        None => take_header(alloc, head, text),
    }
}

fn take_fields(alloc: Global, head: &mut Head, text: &str) -> Result<(), CaseError> {
    for field in text.split(" | ").skip(1) {
        take_field(alloc, head, field)?;
    }
    Ok(())
}

/// Adds the cookies that came.
fn push_cookies(jar: &CookieJar, out: &mut String) -> Result<(), NoMemory> {
    out.push_str(" cookies")?;
    for cookie in jar.iter() {
        push_field(cookie.name(), &cookie.value(), out)?;
    }
    Ok(())
}

/// Adds what a head has made.
fn push_incoming(
    alloc: Global,
    asked: &Incoming<'_, Sample>,
    out: &mut String,
) -> Result<(), CaseError> {
    write!(out, "faults={:?} ", asked.faults.as_slice())?;
    push_request(alloc, &asked.request, out)?;
    written(push_cookies(&asked.jar, out))
}

fn push_read(
    alloc: Global,
    server: &Server,
    head: &Head,
    out: &mut String,
) -> Result<(), CaseError> {
    match Request::from_incoming(alloc, head, &server.config, &server.managed) {
        Ok(asked) => {
            let pushed = push_incoming(alloc, &asked, out);
            drop(asked);
            pushed
        }
        Err(_) => Err(CaseError::NoMemory),
    }
}

/// Adds a head, part by part.
fn push_parts(head: &Head, out: &mut String) -> Result<(), CaseError> {
    let (method, target) = (head.method.as_str(), head.target.as_str());
    write!(out, "{method} {target} from {:?}", head.remote)?;
    for (name, value) in head.headers.as_slice() {
        push_field(name.as_str(), &value.as_slice(), out)?;
    }
    Ok(())
}

fn push_copied(alloc: Global, head: &Head, out: &mut String) -> Result<(), CaseError> {
    let copy = head.try_clone(alloc)?;
    push_parts(&copy, out)
}

/// Takes the fields of a head, and adds a copy of it, or what its request tells, its faults, and the cookies that came.
fn push_filled(
    alloc: Global,
    server: &Server,
    head: &mut Head,
    asked: (&str, &str),
    out: &mut String,
) -> Result<(), CaseError> {
    take_fields(alloc, head, asked.1)?;
    match asked.0 {
        "copy" => push_copied(alloc, head, out),
        _ => push_read(alloc, server, head, out),
    }
}

/// Answers `copy` or `head`, with the head of `METHOD TARGET | FIELD | ..`.
pub fn answer_head(
    alloc: Global,
    server: &Server,
    command: &str,
    text: &str,
    out: &mut String,
) -> Result<(), CaseError> {
    let mut head = first(alloc, first_piece(text))?;
    push_filled(alloc, server, &mut head, (command, text), out)
}

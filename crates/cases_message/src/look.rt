//! Lines that look at the response at hand, or read its body.
use crate::shown::{Answer, push_bytes, push_text};
use crate::stalling::Stalling;
use cases::{CaseError, parsed, written};
use rkt_base::{NoMemory, Poll};
use rkt_cookie::Cookie;
use rkt_data::{DataError, Gate, SourceError};
use rkt_http::ContentType;
use rkt_message::Body;
use std::alloc::{AllocError, Global};

pub const GATE: Gate = Gate {
    moment: 0,
    tripped: None,
    grace: 2,
    mercy: 3,
};

/// The name of an error of a source.
fn source_error(error: SourceError) -> &'static str {
    match error {
        SourceError::SourceFault => "fault",
        SourceError::Gone => "gone",
        SourceError::TimedOut => "timed out",
    }
}

/// Adds the front of a buffer that a read has filled.
fn push_front(buf: &[u8], count: usize, out: &mut String) -> Result<(), NoMemory> {
    write!(out, "{count}: ")?;
    push_bytes(buf.get(..count).unwrap_or(&[]), out)
}

/// Adds what one read into a buffer answers.
fn push_read(body: &mut Body<Stalling>, buf: &mut [u8], out: &mut String) -> Result<(), NoMemory> {
    match body.poll_read(GATE, buf) {
        Poll::Ready(Ok(count)) => push_front(buf, count, out),
        Poll::Ready(Err(error)) => out.push_str(source_error(error)),
        Poll::Pending => out.push_str("pending"),
    }
}

/// Reads once into a buffer of so many bytes.
fn read(
    alloc: Global,
    response: &mut Answer,
    text: &str,
    out: &mut String,
) -> Result<(), CaseError> {
    let size = parsed::<usize>(text)?;
    let mut buf = vec![in alloc; 0u8; size]?;
    written(push_read(response.body_mut(), buf.as_mut_slice(), out))
}

/// Adds why nothing was gathered.
fn push_error(error: DataError, out: &mut String) -> Result<(), NoMemory> {
    match error {
        DataError::NotUtf8 { valid_up_to } => write!(out, "no text from {valid_up_to}"),
        DataError::SourceFault => out.push_str("fault"),
        DataError::NoMemory => Err(AllocError),
        _ => out.push_str("other fault"),
    }
}

fn push_all_bytes(
    answer: Poll<Result<Vec<u8>, DataError>>,
    out: &mut String,
) -> Result<(), NoMemory> {
    match answer {
        Poll::Ready(Ok(bytes)) => push_bytes(bytes.as_slice(), out),
        Poll::Ready(Err(error)) => push_error(error, out),
        Poll::Pending => out.push_str("pending"),
    }
}

fn push_all_text(
    answer: Poll<Result<String, DataError>>,
    out: &mut String,
) -> Result<(), NoMemory> {
    match answer {
        Poll::Ready(Ok(text)) => push_text(text.as_str(), out),
        Poll::Ready(Err(error)) => push_error(error, out),
        Poll::Pending => out.push_str("pending"),
    }
}

/// Adds the answers to two polls.
fn push_bytes_twice(
    first: Poll<Result<Vec<u8>, DataError>>,
    again: Poll<Result<Vec<u8>, DataError>>,
    out: &mut String,
) -> Result<(), NoMemory> {
    push_all_bytes(first, out)?;
    out.push_str(", ")?;
    push_all_bytes(again, out)
}

/// The same of text.
fn push_text_twice(
    first: Poll<Result<String, DataError>>,
    again: Poll<Result<String, DataError>>,
    out: &mut String,
) -> Result<(), NoMemory> {
    push_all_text(first, out)?;
    out.push_str(", ")?;
    push_all_text(again, out)
}

/// Adds the bytes that are gathered, or what two polls answer. Hands the body back.
fn gather_bytes(
    alloc: Global,
    body: Body<Stalling>,
    out: &mut String,
) -> (Result<(), NoMemory>, Body<Stalling>) {
    let mut all = body.to_bytes();
    let first = all.poll(alloc, GATE);
    if let Poll::Ready(Ok(_)) = first {
        return (push_all_bytes(first, out), all.into_body());
    }
    let again = all.poll(alloc, GATE);
    (push_bytes_twice(first, again, out), all.into_body())
}

/// The same of text.
fn gather_text(
    alloc: Global,
    body: Body<Stalling>,
    out: &mut String,
) -> (Result<(), NoMemory>, Body<Stalling>) {
    let mut all = body.to_string();
    let first = all.poll(alloc, GATE);
    if let Poll::Ready(Ok(_)) = first {
        return (push_all_text(first, out), all.into_body());
    }
    let again = all.poll(alloc, GATE);
    (push_text_twice(first, again, out), all.into_body())
}

/// Gathers the bytes of the body.
fn bytes(alloc: Global, response: &mut Answer, out: &mut String) -> Result<(), NoMemory> {
    let body = response.body_mut().take();
    let (pushed, left) = gather_bytes(alloc, body, out);
    *response.body_mut() = left;
    pushed
}

/// The same of text.
fn text(alloc: Global, response: &mut Answer, out: &mut String) -> Result<(), NoMemory> {
    let body = response.body_mut().take();
    let (pushed, left) = gather_text(alloc, body, out);
    *response.body_mut() = left;
    pushed
}

/// Moves the body out.
fn take(response: &mut Answer, out: &mut String) -> Result<(), NoMemory> {
    let taken = response.body_mut().take().is_some();
    let left = response.body().is_some();
    write!(out, "taken {taken:?}, left {left:?}")
}

fn push_media(alloc: Global, kind: &ContentType, out: &mut String) -> Result<(), NoMemory> {
    let text = kind.media_type().to_text(alloc)?;
    out.push_str(text.as_str())
}

fn push_kind(alloc: Global, response: &Answer, out: &mut String) -> Result<(), NoMemory> {
    match response.content_type()? {
        Some(kind) => push_media(alloc, &kind, out),
        None => out.push_str("none"),
    }
}

fn push_cookie(alloc: Global, cookie: &Cookie, out: &mut String) -> Result<(), NoMemory> {
    let text = cookie.encoded(alloc)?;
    write!(out, "|{}", text.as_str())
}

fn push_list(alloc: Global, cookies: &[Cookie], out: &mut String) -> Result<(), NoMemory> {
    write!(out, "{}", cookies.len())?;
    for cookie in cookies {
        push_cookie(alloc, cookie, out)?;
    }
    Ok(())
}

fn push_cookies(alloc: Global, response: &Answer, out: &mut String) -> Result<(), NoMemory> {
    let cookies = response.cookies()?;
    push_list(alloc, cookies.as_slice(), out)
}

fn push_size(response: &mut Answer, out: &mut String) -> Result<(), NoMemory> {
    let size = response.body_mut().size();
    write!(out, "{size:?}")
}

/// Reads the body in some way.
fn read_in_way(
    alloc: Global,
    response: &mut Answer,
    command: &str,
    rest: &str,
    out: &mut String,
) -> Result<(), CaseError> {
    match command {
        "read" => read(alloc, response, rest, out),
        "bytes" => written(bytes(alloc, response, out)),
        "text" => written(text(alloc, response, out)),
        _ => Err(CaseError::Line),
    }
}

/// Looks at the response.
pub fn look(
    alloc: Global,
    response: &mut Answer,
    command: &str,
    rest: &str,
    out: &mut String,
) -> Result<(), CaseError> {
    match command {
        "size" => written(push_size(response, out)),
        "kind" => written(push_kind(alloc, response, out)),
        "cookies" => written(push_cookies(alloc, response, out)),
        "take" => written(take(response, out)),
        _ => read_in_way(alloc, response, command, rest, out),
    }
}

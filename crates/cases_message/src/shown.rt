//! What answers show.
use crate::stalling::Stalling;
use percent_encoding::{CONTROLS, percent_encode};
use rkt_base::NoMemory;
use rkt_message::{Body, Response};

/// The responses of the cases.
pub type Answer = Response<Stalling>;

/// Adds `NAME: VALUE`, in which `%XX` stands for a byte that cannot be printed.
pub fn push_field(name: &str, value: &str, out: &mut String) -> Result<(), NoMemory> {
    percent_encode(name.as_bytes(), CONTROLS).append_to(out)?;
    out.push_str(": ")?;
    percent_encode(value.as_bytes(), CONTROLS).append_to(out)
}

/// Adds `[NAME: VALUE]`.
fn push_header(name: &str, value: &str, out: &mut String) -> Result<(), NoMemory> {
    out.push_str(" [")?;
    push_field(name, value, out)?;
    out.push_str("]")
}

/// Adds what a body tells of itself.
fn push_body(body: &Body<Stalling>, out: &mut String) -> Result<(), NoMemory> {
    let word = if body.is_some() { "some" } else { "none" };
    let (preset, chunk) = (body.preset_size(), body.max_chunk_size());
    write!(out, " {word} preset={preset:?} chunk={chunk}")
}

/// Adds what a response tells of itself.
pub fn push_response(response: &Answer, out: &mut String) -> Result<(), NoMemory> {
    write!(out, "{}", response.status().code)?;
    for (name, value) in response.headers().iter() {
        push_header(name, value, out)?;
    }
    push_body(response.body(), out)
}

/// Adds a text, which an answer shows where it is empty too.
pub fn push_text(text: &str, out: &mut String) -> Result<(), NoMemory> {
    out.push_str(if text.is_empty() { "(empty)" } else { text })
}

/// Adds bytes as their text, or else as numbers.
pub fn push_bytes(bytes: &[u8], out: &mut String) -> Result<(), NoMemory> {
    match std::str::from_utf8(bytes) {
        Ok(text) => push_text(text, out),
        Err(_) => write!(out, "{bytes:?}"),
    }
}

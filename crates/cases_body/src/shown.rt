//! Answers, as lines show them.
use cases::push_item;
use rkt_base::{NoMemory, Poll};
use rkt_data::{DataError, SourceError};
use std::alloc::Global;
use std::str;

/// Adds a number behind its name.
pub fn push_count(alloc: Global, name: &str, count: u64, out: &mut String) -> Result<(), NoMemory> {
    let text = format!(in alloc; "{name}={count}")?;
    push_item(out, text.as_str())
}

/// Adds whether that is so.
pub fn push_flag(alloc: Global, name: &str, flag: bool, out: &mut String) -> Result<(), NoMemory> {
    let text = format!(in alloc; "{name}={flag}")?;
    push_item(out, text.as_str())
}

/// Bytes: as a text between quotes, and as a list of numbers where they are none.
fn shown_bytes(alloc: Global, bytes: &[u8]) -> Result<String, NoMemory> {
    match str::from_utf8(bytes) {
        Ok(text) => format!(in alloc; "\"{text}\""),
        Err(_) => format!(in alloc; "{bytes:?}"),
    }
}

/// Adds bytes.
pub fn push_bytes(alloc: Global, bytes: &[u8], out: &mut String) -> Result<(), NoMemory> {
    let text = shown_bytes(alloc, bytes)?;
    push_item(out, text.as_str())
}

/// The name of an error.
fn source_error(error: SourceError) -> &'static str {
    match error {
        SourceError::SourceFault => "SourceFault",
        SourceError::Gone => "Gone",
        SourceError::TimedOut => "TimedOut",
    }
}

/// Adds an error.
pub fn push_error(alloc: Global, error: DataError, out: &mut String) -> Result<(), NoMemory> {
    let text = format!(in alloc; "{error:?}")?;
    push_item(out, text.as_str())
}

/// Adds what a read into a buffer answers.
pub fn push_read(
    alloc: Global,
    buf: &[u8],
    answer: Poll<Result<usize, SourceError>>,
    out: &mut String,
) -> Result<(), NoMemory> {
    match answer {
        Poll::Ready(Ok(count)) => push_bytes(alloc, &buf[..count.min(buf.len())], out),
        Poll::Ready(Err(error)) => push_item(out, source_error(error)),
        Poll::Pending => push_item(out, "pending"),
    }
}

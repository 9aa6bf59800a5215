//! The head that a response is sent with.
ghost use Rattle.std.specs.Fmt.{decimal};
ghost use Rattle.std.specs.List.{list_all};
ghost use Rattle.std.specs.Prelude.{◌≡◌, ◌++◌, [], IfOk};
ghost use Rattle.rkt_http.specs.Headers.{fields_of};
ghost use Rattle.rkt_message.specs.Lines.{lines_of, only_length};
ghost use Rattle.rkt_message.specs.Sent.{has_head, head_of, is_sendable, is_token, sent_headers};

use crate::piece::Piece;
use crate::response::Response;
use rkt_base::{NoMemory, Seq, Text};
use rkt_data::Source;
use rkt_grammar::{has_field_value_bytes, has_token_bytes};
use rkt_http::HeaderMap;
use std::alloc::Global;

const CONTENT_LENGTH: &str = "Content-Length";

fn is_token(text: &str) -> bool
    ensures { result ≡ is_token text.now }
{
    !text.is_empty() && has_token_bytes(text)
}

fn are_sendable(headers: &HeaderMap) -> bool
    ensures { result ≡ list_all is_sendable (fields_of headers.now) }
{
    for (name, value) in headers.iter() {
        if !is_token(name) || !has_field_value_bytes(value) {
            return false;
        }
    }
    true
}

/// Whether a response can be sent.
pub(crate) fn has_head<S: Source>(response: &Response<S>) -> bool
    ensures { result ≡ has_head response.now }
{
    let code = response.status().code;
    code >= 100 && code <= 999 && are_sendable(response.headers())
}

fn line(alloc: Global, name: &str, value: &str) -> Result<(Text, Text), NoMemory>
    ensures { IfOk result (λ line. line ≡ (name.now, value.now)) }
{
    Ok((Text::new(alloc, name)?, Text::new(alloc, value)?))
}

fn length_line(alloc: Global, name: &str, size: usize) -> Result<(Text, Text), NoMemory>
    ensures { IfOk result (λ line. line ≡ (name.now, decimal size)) }
{
    let size = size.to_string(alloc)?;
    Ok((Text::new(alloc, name)?, Text::from_string(size)))
}

// Room for a line of each value, and one more.
fn room_for_lines(alloc: Global, headers: &HeaderMap) -> Result<Seq<(Text, Text)>, NoMemory>
    ensures { IfOk result (λ lines. lines ≡ []) }
{
    let room = Vec::with_capacity(alloc, headers.len().saturating_add(1))?;
    Ok(Seq::from_vec(room))
}

// The lines as they stand.
fn all_lines(alloc: Global, headers: &HeaderMap) -> Result<Seq<(Text, Text)>, NoMemory>
    ensures { IfOk result (λ lines. lines ≡ lines_of headers.now) }
{
    let mut lines = room_for_lines(alloc, headers)?;
    for (name, value) in headers.iter() {
        lines.push(line(alloc, name, value)?)?;
    }
    Ok(lines)
}

// Lines, and behind them a size that was not told yet.
fn with_last(
    alloc: Global,
    mut lines: Seq<(Text, Text)>,
    size: Option<usize>,
) -> Result<Seq<(Text, Text)>, NoMemory>
    ensures { IfOk result (λ all. all ≡ lines ++ only_length size []) }
{
    match size {
        Some(size) => {
            lines.push(length_line(alloc, CONTENT_LENGTH, size)?)?;
            Ok(lines)
        }
        None => Ok(lines),
    }
}

// The lines, with this size as the only Content-Length, or with none.
fn lines_with_length(
    alloc: Global,
    headers: &HeaderMap,
    size: Option<usize>,
) -> Result<Seq<(Text, Text)>, NoMemory>
    ensures { IfOk result (λ lines. lines ≡ only_length size (lines_of headers.now)) }
{
    let mut size = size;
    let mut lines = room_for_lines(alloc, headers)?;
    for (name, value) in headers.iter() {
        if !name.eq_ignore_ascii_case(CONTENT_LENGTH) {
            lines.push(line(alloc, name, value)?)?;
        } else if let Some(size) = size.take() {
            lines.push(length_line(alloc, name, size)?)?;
        }
    }
    with_last(alloc, lines, size)
}

// The lines of the headers, with the size of the body where it is known.
fn sent_headers(
    alloc: Global,
    headers: &HeaderMap,
    size: Option<usize>,
) -> Result<Seq<(Text, Text)>, NoMemory>
    ensures { IfOk result (λ lines. lines ≡ sent_headers headers.now size) }
{
    if headers.contains("Transfer-Encoding") {
        return lines_with_length(alloc, headers, None);
    }
    match size {
        Some(_) => lines_with_length(alloc, headers, size),
        None => all_lines(alloc, headers),
    }
}

/// The head of a response that can be sent.
pub(crate) fn head_of<S: Source>(alloc: Global, response: &Response<S>) -> Result<Piece, NoMemory>
    ensures { IfOk result (λ piece. piece ≡ head_of response.now) }
{
    // The size is not kept: a head that finds no memory leaves the response as it was.
    let size = response.body().content().known_size();
    Ok(Piece::Head {
        status: response.status().code,
        headers: sent_headers(alloc, response.headers(), size)?,
    })
}

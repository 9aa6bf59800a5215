//! Lines that send the response at hand.
ghost use Rattle.std.specs.Bool.{OnFalse};
ghost use Rattle.std.specs.Prelude.{◌≡◌, IfOk, false};
ghost use Rattle.rkt_message.specs.Sending.{is_end};

use crate::look::GATE;
use crate::shown::{Answer, push_bytes, push_field};
use crate::stalling::Stalling;
use cases::{CaseError, first_word, parsed, written};
use rkt_base::{NoMemory, Poll, Text};
use rkt_message::{Piece, PieceError, Pieces};
use std::alloc::Global;

fn push_line(name: &str, value: &str, out: &mut String) -> Result<(), NoMemory> {
    out.push_str(" ")?;
    push_field(name, value, out)
}

fn push_head(status: u16, headers: &[(Text, Text)], out: &mut String) -> Result<(), NoMemory> {
    write!(out, "{status}")?;
    for (name, value) in headers {
        push_line(name.as_str(), value.as_str(), out)?;
    }
    Ok(())
}

fn push_content(piece: &Piece, out: &mut String) -> Result<(), NoMemory> {
    match piece {
        Piece::Head { status, headers } => push_head(*status, headers.as_slice(), out),
        Piece::Chunk(bytes) => push_bytes(bytes.as_slice(), out),
        Piece::End => out.push_str("end"),
    }
}

/// Adds a piece in brackets.
fn push_in_brackets(piece: &Piece, out: &mut String) -> Result<(), NoMemory> {
    out.push_str("[")?;
    push_content(piece, out)?;
    out.push_str("]")
}

/// Adds a copy of a piece.
fn push_piece(alloc: Global, piece: &Piece, out: &mut String) -> Result<(), NoMemory> {
    let copy = piece.try_clone(alloc)?;
    push_in_brackets(&copy, out)
}

fn is_last(piece: &Piece) -> bool
    ensures { result ≡ is_end piece.now }
{
    match piece {
        Piece::Head { .. } | Piece::Chunk(_) => false,
        Piece::End => true,
    }
}

fn error_text(error: PieceError) -> &'static str {
    match error {
        PieceError::BadHead => "[bad head]",
        PieceError::BodyFault => "[body fault]",
        PieceError::NoMemory => "[no memory]",
    }
}

/// Adds the next answer, and answers whether it was the last.
fn push_next(
    alloc: Global,
    pieces: &mut Pieces<Stalling>,
    out: &mut String,
) -> Result<bool, NoMemory>
    requires { pieces.old.is_over ≡ false }
    ensures { IfOk result (λ last. OnFalse last (pieces.new.is_over ≡ false)) }
{
    match pieces.poll_next(alloc, GATE) {
        Poll::Ready(Ok(piece)) => {
            push_piece(alloc, &piece, out)?;
            Ok(is_last(&piece))
        }
        Poll::Ready(Err(error)) => {
            out.push_str(error_text(error))?;
            Ok(true)
        }
        Poll::Pending => {
            out.push_str("[pending]")?;
            Ok(false)
        }
    }
}

/// Adds the answers to so many polls, but none behind the last.
fn push_answers(
    alloc: Global,
    pieces: &mut Pieces<Stalling>,
    most: u32,
    out: &mut String,
) -> Result<(), NoMemory>
    requires { pieces.old.is_over ≡ false }
{
    for _ in 0..most {
        if push_next(alloc, pieces, out)? {
            return Ok(());
        }
    }
    Ok(())
}

/// Sends the response, and adds the answers to so many polls.
fn send_so(
    alloc: Global,
    response: &mut Answer,
    turns: u32,
    most: u32,
    out: &mut String,
) -> Result<(), NoMemory> {
    let base = std::mem::replace(response, Answer::new(alloc));
    let mut pieces = Pieces::new(base, turns);
    let pushed = push_answers(alloc, &mut pieces, most, out);
    *response = pieces.into_response();
    pushed
}

/// Sends the response at hand.
pub fn send(
    alloc: Global,
    response: &mut Answer,
    line: &str,
    out: &mut String,
) -> Result<(), CaseError> {
    let (turns, most) = first_word(line);
    let (turns, most) = (parsed::<u32>(turns)?, parsed::<u32>(most)?);
    written(send_so(alloc, response, turns, most, out))
}

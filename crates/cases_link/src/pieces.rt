//! Pieces, as lines say them.
use cases::{CaseError, pair};
use rkt_base::{NoMemory, Seq, Text};
use rkt_message::Piece;
use std::alloc::Global;

type Headers = Seq<(Text, Text)>;

fn push_header(alloc: Global, headers: &mut Headers, field: &str) -> Result<(), CaseError> {
    let (name, value) = pair(field, "=")?;
    let name = Text::new(alloc, name)?;
    let value = Text::new(alloc, value)?;
    Ok(headers.push((name, value))?)
}

fn push_headers(alloc: Global, headers: &mut Headers, text: &str) -> Result<(), CaseError> {
    if text == "-" {
        return Ok(());
    }
    for field in text.split(',') {
        push_header(alloc, headers, field)?;
    }
    Ok(())
}

/// The head of a response with these headers.
pub fn head_piece(alloc: Global, text: &str) -> Result<Piece, CaseError> {
    let mut headers = Seq::new(alloc);
    push_headers(alloc, &mut headers, text)?;
    Ok(Piece::Head {
        status: 200,
        headers,
    })
}

/// A chunk with this text.
pub fn chunk_piece(alloc: Global, text: &str) -> Result<Piece, NoMemory> {
    let bytes = text.as_bytes().to_vec(alloc)?;
    Ok(Piece::Chunk(Seq::from_vec(bytes)))
}

//! The pieces that a link holds.
use rkt_message::Piece;
use std::alloc::{AllocError, Global};

fn push_piece(out: &mut String, piece: &Piece) -> Result<(), AllocError> {
    match piece {
        Piece::Head { status, .. } => write!(out, "head {}", *status),
        Piece::Chunk(bytes) => write!(out, "chunk {}", bytes.len()),
        Piece::End => out.push_str("end"),
    }
}

/// What each piece is, with the status of a head and the size of a chunk.
pub fn pieces_text(alloc: Global, pieces: &[Piece]) -> Result<String, AllocError> {
    let mut out = String::new(alloc);
    for piece in pieces {
        if !out.is_empty() {
            out.push_str(", ")?;
        }
        push_piece(&mut out, piece)?;
    }
    Ok(out)
}

//! What came of a launch, on standard output: of each request the status, the headers, and the body.
use rkt_base::Text;
use rkt_life::Types;
use rkt_message::Piece;
use rkt_serve::{Entry, History, MemoryLink};
use std::alloc::Global;
use std::io;

fn print_headers(rt: &impl Print, headers: &[(Text, Text)]) -> io::Result<()> {
    for (name, value) in headers {
        println!(rt; "{}: {}", name.as_str(), value.as_str())?;
    }
    Ok(())
}

fn print_body(rt: &impl Print, bytes: &[u8]) -> io::Result<()> {
    match std::str::from_utf8(bytes) {
        Ok(text) => rt.println(text),
        Err(_) => println!(rt; "{} bytes", bytes.len()),
    }
}

fn print_piece(rt: &impl Print, piece: &Piece) -> io::Result<()> {
    match piece {
        Piece::Head { status, headers } => {
            println!(rt; "{status}")?;
            print_headers(rt, headers.as_slice())
        }
        Piece::Chunk(bytes) => print_body(rt, bytes.as_slice()),
        Piece::End => rt.println(""),
    }
}

fn print_entry<A: Types>(rt: &impl Print, entry: &Entry<A, MemoryLink>) -> io::Result<()> {
    for piece in entry.link.kept().held() {
        print_piece(rt, piece)?;
    }
    Ok(())
}

/// Prints each entry.
pub fn print_history<A: Types>(
    rt: &impl Print,
    alloc: Global,
    history: &History<A, MemoryLink>,
) -> io::Result<()> {
    for entry in history.entries(alloc)? {
        if let Some(entry) = entry {
            print_entry::<A>(rt, entry)?;
        }
    }
    Ok(())
}

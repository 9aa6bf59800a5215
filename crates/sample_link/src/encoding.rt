//! The bytes that a piece is written as.
ghost use Rattle.std.specs.Prelude.{◌≡◌, ◌++◌, OnOk, codes, flat_map};
ghost use Rattle.std.specs.Fmt.{decimal};
ghost use Rattle.sample_link.specs.Encoding.{encoding, field_line, status_line};

use rkt_base::{NoMemory, Text};
use rkt_message::Piece;
use std::alloc::Global;

fn push_text(out: &mut Vec<u8>, text: &str) -> Result<(), NoMemory>
    ensures { OnOk result (out.new.items ≡ out.old.items ++ text.now) }
{
    out.extend_from_slice(text.as_bytes())
}

fn push_status(alloc: Global, out: &mut Vec<u8>, status: u16) -> Result<(), NoMemory>
    ensures { OnOk result (out.new.items ≡ out.old.items ++ status_line status) }
{
    let number = usize::from(status).to_string(alloc)?;
    push_text(out, "HTTP/1.1 ")?;
    push_text(out, number.as_str())?;
    push_text(out, "\r\n")
}

fn push_field(out: &mut Vec<u8>, name: &Text, value: &Text) -> Result<(), NoMemory>
    ensures { OnOk result (out.new.items ≡ out.old.items ++ field_line (name.now, value.now)) }
{
    push_text(out, name.as_str())?;
    push_text(out, ": ")?;
    push_text(out, value.as_str())?;
    push_text(out, "\r\n")
}

fn push_fields(out: &mut Vec<u8>, headers: &[(Text, Text)]) -> Result<(), NoMemory>
    ensures { OnOk result (out.new.items ≡ out.old.items ++ flat_map field_line headers.now) }
{
    for (name, value) in headers {
        push_field(out, name, value)?;
    }
    Ok(())
}

/// Adds the bytes that a piece is written as. Nothing tells where a chunk ends.
pub fn encode(alloc: Global, out: &mut Vec<u8>, piece: &Piece) -> Result<(), NoMemory>
    ensures { OnOk result (out.new.items ≡ out.old.items ++ encoding piece.now) }
{
    match piece {
        Piece::Head { status, headers } => {
            push_status(alloc, out, *status)?;
            push_fields(out, headers.as_slice())?;
            push_text(out, "\r\n")
        }
        Piece::Chunk(bytes) => out.extend_from_slice(bytes.as_slice()),
        Piece::End => Ok(()),
    }
}

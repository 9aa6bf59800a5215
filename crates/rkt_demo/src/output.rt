//! Prints how requests ended.
ghost use Rattle.std.specs.Prelude.{◌≡◌, ◌++◌, ◌∷◌, [], IfOk, OnOk, codes, flat_map, length, map};
ghost use Rattle.std.specs.Fmt.{decimal};
ghost use Rattle.std.specs.Option.{option_copied};
ghost use Rattle.rkt_demo.specs.Entries.{ended_section, entries_text, AreEntries};
ghost use Rattle.rkt_demo.specs.Output.{header_line, head_text, body_bytes, label, sent_section, lost_section, cut_section, failed_section, abandoned_section, starved_section, last_line};

use crate::sample::{SampleEntry, SampleHistory};
use rkt_base::{NoMemory, Text};
use rkt_message::Piece;
use rkt_serve::End;
use std::alloc::Global;

fn push_text(out: &mut Vec<u8>, text: &str) -> Result<(), NoMemory>
    ensures { OnOk result (out.new.items ≡ out.old.items ++ text.now) }
{
    out.extend_from_slice(text.as_bytes())
}

fn push_number(alloc: Global, out: &mut Vec<u8>, number: usize) -> Result<(), NoMemory>
    ensures { OnOk result (out.new.items ≡ out.old.items ++ decimal number) }
{
    let text = number.to_string(alloc)?;
    push_text(out, text.as_str())
}

fn push_header(out: &mut Vec<u8>, name: &Text, value: &Text) -> Result<(), NoMemory>
    ensures { OnOk result (out.new.items ≡ out.old.items ++ header_line (name.now, value.now)) }
{
    push_text(out, name.as_str())?;
    push_text(out, ": ")?;
    push_text(out, value.as_str())?;
    push_text(out, "\n")
}

fn push_headers(out: &mut Vec<u8>, headers: &[(Text, Text)]) -> Result<(), NoMemory>
    ensures { OnOk result (out.new.items ≡ out.old.items ++ flat_map header_line headers.now) }
{
    for (name, value) in headers {
        push_header(out, name, value)?;
    }
    Ok(())
}

// The status and the headers, where the piece is the head.
fn push_head(alloc: Global, out: &mut Vec<u8>, piece: &Piece) -> Result<(), NoMemory>
    ensures { OnOk result (out.new.items ≡ out.old.items ++ head_text piece.now) }
{
    match piece {
        Piece::Head { status, headers } => {
            push_number(alloc, out, usize::from(*status))?;
            push_text(out, "\n")?;
            push_headers(out, headers.as_slice())
        }
        Piece::Chunk(_) | Piece::End => Ok(()),
    }
}

fn push_heads(alloc: Global, out: &mut Vec<u8>, pieces: &[Piece]) -> Result<(), NoMemory>
    ensures { OnOk result (out.new.items ≡ out.old.items ++ flat_map head_text pieces.now) }
{
    for piece in pieces {
        push_head(alloc, out, piece)?;
    }
    Ok(())
}

fn push_body(body: &mut Vec<u8>, piece: &Piece) -> Result<(), NoMemory>
    ensures { OnOk result (body.new.items ≡ body.old.items ++ body_bytes piece.now) }
{
    match piece {
        Piece::Chunk(bytes) => body.extend_from_slice(bytes.as_slice()),
        Piece::Head { .. } | Piece::End => Ok(()),
    }
}

fn body_of(alloc: Global, pieces: &[Piece]) -> Result<Vec<u8>, NoMemory>
    ensures { IfOk result (λ body. body.items ≡ flat_map body_bytes pieces.now) }
{
    let mut body = Vec::new(alloc);
    for piece in pieces {
        push_body(&mut body, piece)?;
    }
    Ok(body)
}

fn push_label(alloc: Global, out: &mut Vec<u8>, number: usize) -> Result<(), NoMemory>
    ensures { OnOk result (out.new.items ≡ out.old.items ++ label number) }
{
    push_text(out, "#")?;
    push_number(alloc, out, number)?;
    push_text(out, " ")
}

fn push_answered(
    alloc: Global,
    out: &mut Vec<u8>,
    number: usize,
    pieces: &[Piece],
) -> Result<(), NoMemory>
    ensures { OnOk result (out.new.items ≡ out.old.items ++ sent_section number pieces.now) }
{
    push_label(alloc, out, number)?;
    push_text(out, "Answered ")?;
    push_heads(alloc, out, pieces)?;
    let body = body_of(alloc, pieces)?;
    push_number(alloc, out, body.len())?;
    push_text(out, " bytes\n")?;
    out.extend_from_slice(body.as_slice())?;
    push_text(out, "\n")
}

fn push_lost(alloc: Global, out: &mut Vec<u8>, number: usize) -> Result<(), NoMemory>
    ensures { OnOk result (out.new.items ≡ out.old.items ++ lost_section number) }
{
    push_label(alloc, out, number)?;
    push_text(out, "Lost\n")
}

fn push_cut(alloc: Global, out: &mut Vec<u8>, number: usize) -> Result<(), NoMemory>
    ensures { OnOk result (out.new.items ≡ out.old.items ++ cut_section number) }
{
    push_label(alloc, out, number)?;
    push_text(out, "Cut\n")
}

fn push_failed(alloc: Global, out: &mut Vec<u8>, number: usize) -> Result<(), NoMemory>
    ensures { OnOk result (out.new.items ≡ out.old.items ++ failed_section number) }
{
    push_label(alloc, out, number)?;
    push_text(out, "Failed\n")
}

fn push_abandoned(alloc: Global, out: &mut Vec<u8>, number: usize) -> Result<(), NoMemory>
    ensures { OnOk result (out.new.items ≡ out.old.items ++ abandoned_section number) }
{
    push_label(alloc, out, number)?;
    push_text(out, "Abandoned\n")
}

fn push_starved(alloc: Global, out: &mut Vec<u8>, number: usize) -> Result<(), NoMemory>
    ensures { OnOk result (out.new.items ≡ out.old.items ++ starved_section number) }
{
    push_label(alloc, out, number)?;
    push_text(out, "Starved\n")
}

fn push_last(alloc: Global, out: &mut Vec<u8>, count: usize) -> Result<(), NoMemory>
    ensures { OnOk result (out.new.items ≡ out.old.items ++ last_line count) }
{
    push_text(out, "served ")?;
    push_number(alloc, out, count)?;
    push_text(out, "\n")
}

fn push_section(
    alloc: Global,
    out: &mut Vec<u8>,
    number: usize,
    entry: &SampleEntry,
) -> Result<(), NoMemory>
    ensures { OnOk result (out.new.items ≡ out.old.items ++ ended_section number entry.now.end entry.now.link.io.held) }
{
    match entry.end {
        End::Answered => push_answered(alloc, out, number, entry.link.kept().held()),
        End::Lost => push_lost(alloc, out, number),
        End::Cut { .. } => push_cut(alloc, out, number),
        End::Failed(_) => push_failed(alloc, out, number),
        End::Abandoned => push_abandoned(alloc, out, number),
        End::Starved => push_starved(alloc, out, number),
    }
}

fn print_entries(alloc: Global, entries: &[Option<&SampleEntry>]) -> Result<Vec<u8>, NoMemory>
    ensures { IfOk result (λ text. text.items ≡ entries_text 0 (map (λ entry. option_copied entry) entries.now)) }
{
    let mut out = Vec::new(alloc);
    for (number, entry) in entries.iter().enumerate() {
        if let Some(entry) = entry {
            push_section(alloc, &mut out, number, entry)?;
        }
    }
    push_last(alloc, &mut out, entries.len())?;
    Ok(out)
}

/// The text of a history, by the numbers of its entries.
pub fn print_history(alloc: Global, history: &SampleHistory) -> Result<Vec<u8>, NoMemory>
    ensures { IfOk result (λ text.
        (entries : _) × AreEntries history.now.events entries × (text.items ≡ entries_text 0 entries)) }
{
    let entries = history.entries(alloc)?;
    let text = print_entries(alloc, entries.as_slice())?;
    Ok(text)
}

/// The text of two histories, of which the second is numbered on from the first.
pub fn print_histories(
    alloc: Global,
    first: &SampleHistory,
    second: &SampleHistory,
) -> Result<Vec<u8>, NoMemory>
    ensures { IfOk result (λ text. (entries : _) × (others : _)
        × AreEntries first.now.events entries
        × AreEntries second.now.events others
        × (text.items ≡ entries_text 0 (entries ++ others))) }
{
    let mut entries = first.entries(alloc)?;
    let mut others = second.entries(alloc)?;
    entries.append(&mut others)?;
    let text = print_entries(alloc, entries.as_slice())?;
    Ok(text)
}

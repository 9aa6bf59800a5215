//! Pieces, and how a response is sent.
ghost use Rattle.std.specs.Prelude.{◌≡◌};
ghost use Rattle.rkt_source.specs.declared.stage.Stage.{Stage};

use crate::heads::link_of;
use crate::setting::Setting;
use crate::ticks::Ticks;
use cases::{CaseError, first_word, numbers, parsed, push_item};
use rkt_base::NoMemory;
use rkt_data::{CancellableIo, MemorySource};
use rkt_message::{Piece, Response};
use rkt_serve::{End, MemoryLink, send};
use std::alloc::{AllocError, Global};
use std::sync::Wait;

fn piece_text(alloc: Global, piece: &Piece) -> Result<String, AllocError> {
    match piece {
        Piece::Head { status, .. } => format!(in alloc; "head {status}"),
        Piece::Chunk(bytes) => format!(in alloc; "chunk {}", bytes.len()),
        Piece::End => String::from_str(alloc, "end"),
    }
}

fn push_piece(alloc: Global, list: &mut String, piece: &Piece) -> Result<(), AllocError> {
    let text = piece_text(alloc, piece)?;
    push_item(list, text.as_str())
}

/// The pieces that a link holds.
pub fn held(alloc: Global, pieces: &[Piece]) -> Result<String, AllocError> {
    let mut list = String::new(alloc);
    for piece in pieces {
        push_piece(alloc, &mut list, piece)?;
    }
    Ok(list)
}

/// How an exchange ended, and the pieces that its link holds.
pub fn ended(alloc: Global, end: End, link: &MemoryLink) -> Result<String, AllocError> {
    let held = held(alloc, link.held())?;
    format!(in alloc; "{end:?} [{held}]")
}

fn source(
    alloc: Global,
    chunk: u64,
    reads: Vec<u64>,
    text: &str,
) -> Result<MemorySource, NoMemory> {
    let bytes = text.as_bytes().to_vec(alloc)?;
    Ok(MemorySource::new(bytes, chunk as usize, reads))
}

fn response(
    alloc: Global,
    setting: &Setting,
    source: MemorySource,
) -> Result<Response<MemorySource>, NoMemory> {
    let mut response = Response::new(alloc);
    if let Some(header) = &setting.header {
        response.set_raw_header(header.left.as_str(), header.right.as_str())?;
    }
    response.set_streamed_body(source);
    Ok(response)
}

fn sent<R: Wait>(
    rt: &R,
    alloc: Global,
    ticks: &mut Ticks,
    link: &mut CancellableIo<MemoryLink>,
    response: Response<MemorySource>,
    turns: u32,
) -> End
    requires active { link.old.stage ≡ Stage.Active }
{
    let (response, ended) = send(rt, alloc, ticks, link, response, turns);
    drop(response);
    ended
}

fn send_over<R: Wait>(
    rt: &R,
    alloc: Global,
    ticks: &mut Ticks,
    link: &mut CancellableIo<MemoryLink>,
    response: Response<MemorySource>,
    turns: u32,
) -> Result<String, CaseError>
    requires active { link.old.stage ≡ Stage.Active }
{
    match sent(rt, alloc, ticks, link, response, turns) {
        End::Starved => Err(CaseError::NoMemory),
        end => Ok(ended(alloc, end, link.kept())?),
    }
}

fn send_body<R: Wait>(
    rt: &R,
    alloc: Global,
    setting: &Setting,
    mut ticks: Ticks,
    turns: u32,
    source: MemorySource,
) -> Result<String, CaseError> {
    let response = response(alloc, setting, source)?;
    let link = link_of(alloc, setting, "GET /")?;
    let mut link = CancellableIo::new(link);
    let text = send_over(rt, alloc, &mut ticks, &mut link, response, turns);
    drop(link);
    text
}

/// The body of `CHUNK READS TEXT`.
fn source_of(alloc: Global, text: &str) -> Result<MemorySource, CaseError> {
    let (chunk, rest) = first_word(text);
    let (reads, text) = first_word(rest);
    let chunk = parsed::<u64>(chunk)?;
    let reads = numbers(alloc, reads)?;
    Ok(source(alloc, chunk, reads, text)?)
}

/// The response of `TURNS CHUNK READS TEXT`, sent.
pub fn send_case<R: Wait>(
    rt: &R,
    alloc: Global,
    setting: &Setting,
    text: &str,
) -> Result<String, CaseError> {
    let (turns, rest) = first_word(text);
    let turns = parsed::<u32>(turns)?;
    let source = source_of(alloc, rest)?;
    let ticks = Ticks { now: 7, trip: None };
    send_body(rt, alloc, setting, ticks, turns, source)
}

/// The response of `NOW TRIP CHUNK READS TEXT`, sent from the second behind this moment on, with a trip at that one.
pub fn cut_case<R: Wait>(
    rt: &R,
    alloc: Global,
    setting: &Setting,
    text: &str,
) -> Result<String, CaseError> {
    let (now, rest) = first_word(text);
    let (trip, rest) = first_word(rest);
    let ticks = Ticks {
        now: parsed::<u64>(now)?,
        trip: Some(parsed::<u64>(trip)?),
    };
    let source = source_of(alloc, rest)?;
    send_body(rt, alloc, setting, ticks, 1, source)
}

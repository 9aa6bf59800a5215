//! The chunks that a body is sent in.
ghost use Rattle.std.specs.Prelude.{◌≡◌, ◌≤◌, [], IfOk, OnOk, OnErr, length, vec_len, vec_capacity};
ghost use Rattle.rkt_message.specs.Body.{preset_of};
ghost use Rattle.rkt_message.specs.Chunks.{IsRoom, ReadsChunk, chunk_answer};
ghost use Rattle.rkt_message.specs.Reading.{Asked, Follows};

use crate::body::Body;
use crate::content::Content;
use crate::response::Response;
use rkt_base::{Bytes, NoMemory, Poll};
use rkt_data::{Gate, Source, SourceError};
use std::alloc::Global;

/// What reading a chunk came to.
#[derive(Debug, Drop)]
pub(crate) enum ChunkRead {
    Bytes(Bytes),
    End,
    Waiting,
    Refused(SourceError),
}

// How many bytes the next chunk has at most. A short body needs no room for a whole chunk.
fn room_of<S: Source>(body: &Body<S>) -> usize
    ensures { IsRoom S.meaning body.now result }
{
    match body.content() {
        Content::Sized { rest, .. } => rest.len().min(body.max_chunk_size()),
        Content::Streamed(_) => body.max_chunk_size(),
        Content::None | Content::UnsizedNone | Content::Phantom { .. } => 0,
    }
}

// Room for the next chunk.
fn room_for<S: Source>(alloc: Global, body: &Body<S>) -> Result<Vec<u8>, NoMemory>
    ensures { IfOk result (λ room. IsRoom S.meaning body.now (vec_len room)) }
{
    let count = room_of(body);
    let room = vec![in alloc; 0; count]?;
    Ok(room)
}

// Room for the next chunk in a buffer, and for a copy of it.
fn room_beside<S: Source>(
    alloc: Global,
    body: &Body<S>,
    buffer: &mut Vec<u8>,
) -> Result<Vec<u8>, NoMemory>
    ensures room { OnOk result (IsRoom S.meaning body.now (vec_len buffer.new)) }
    ensures copy { IfOk result (λ copy. vec_len buffer.new ≤ vec_capacity copy) }
    ensures empty { IfOk result (λ copy. copy.items ≡ []) }
{
    let count = room_of(body);
    if buffer.len() != count {
        buffer.resize(count, 0)?;
    }
    Vec::with_capacity(alloc, count)
}

// Reads the next chunk into its room.
fn read_chunk<S: Source>(response: &mut Response<S>, gate: Gate, room: Vec<u8>) -> ChunkRead
    requires { IsRoom S.meaning response.old.body (vec_len room) }
    ensures status { response.new.status ≡ response.old.status }
    ensures headers { response.new.headers ≡ response.old.headers }
    ensures follows { Follows S.meaning gate.tripped response.old.body response.new.body }
    ensures preset { preset_of response.new.body.content ≡ preset_of response.old.body.content }
    ensures by_gate { Asked S.polled gate response.old.body.chunk
        (chunk_answer result) response.old.body.content response.new.body.content }
    ensures reads { ReadsChunk S.meaning response.old.body response.new.body result }
{
    let mut room = room;
    match response.body.poll_read(gate, room.as_mut_slice()) {
        Poll::Ready(Ok(0)) => ChunkRead::End,
        Poll::Ready(Ok(count)) => {
            room.truncate(count);
            ChunkRead::Bytes(Bytes::from_vec(room))
        }
        Poll::Ready(Err(e)) => ChunkRead::Refused(e),
        Poll::Pending => ChunkRead::Waiting,
    }
}

// The bytes, in a vector of their own length that has room for them.
fn copied(mut copy: Vec<u8>, bytes: &[u8]) -> Bytes
    requires room { length bytes.now ≤ vec_capacity copy }
    requires empty { copy.items ≡ [] }
    ensures { result ≡ bytes.now }
{
    copy.extend_from_slice(bytes).unwrap();
    copy.shrink_to_fit();
    Bytes::from_vec(copy)
}

// Reads the next chunk into a buffer, and copies it out.
fn read_copied<S: Source>(
    response: &mut Response<S>,
    gate: Gate,
    buffer: &mut Vec<u8>,
    copy: Vec<u8>,
) -> ChunkRead
    requires room { IsRoom S.meaning response.old.body (vec_len buffer.old) }
    requires copy { vec_len buffer.old ≤ vec_capacity copy }
    requires empty { copy.items ≡ [] }
    ensures status { response.new.status ≡ response.old.status }
    ensures headers { response.new.headers ≡ response.old.headers }
    ensures follows { Follows S.meaning gate.tripped response.old.body response.new.body }
    ensures preset { preset_of response.new.body.content ≡ preset_of response.old.body.content }
    ensures by_gate { Asked S.polled gate response.old.body.chunk
        (chunk_answer result) response.old.body.content response.new.body.content }
    ensures reads { ReadsChunk S.meaning response.old.body response.new.body result }
{
    match response.body.poll_read(gate, buffer.as_mut_slice()) {
        Poll::Ready(Ok(0)) => ChunkRead::End,
        Poll::Ready(Ok(count)) => ChunkRead::Bytes(copied(copy, &buffer[..count])),
        Poll::Ready(Err(e)) => ChunkRead::Refused(e),
        Poll::Pending => ChunkRead::Waiting,
    }
}

/// Reads the next chunk. What a source gives comes into the buffer first, and is copied out.
pub(crate) fn next_chunk<S: Source>(
    response: &mut Response<S>,
    alloc: Global,
    gate: Gate,
    buffer: &mut Vec<u8>,
) -> Result<ChunkRead, NoMemory>
    ensures status { response.new.status ≡ response.old.status }
    ensures headers { response.new.headers ≡ response.old.headers }
    ensures follows { Follows S.meaning gate.tripped response.old.body response.new.body }
    ensures preset { preset_of response.new.body.content ≡ preset_of response.old.body.content }
    ensures by_gate { IfOk result (λ read. Asked S.polled gate response.old.body.chunk (chunk_answer read)
        response.old.body.content
        response.new.body.content) }
    ensures reads { IfOk result (λ read. ReadsChunk S.meaning response.old.body response.new.body read) }
    ensures err { OnErr result (response.new ≡ response.old) }
{
    if response.body().is_streamed() {
        let copy = room_beside(alloc, response.body(), buffer)?;
        return Ok(read_copied(response, gate, buffer, copy));
    }
    let room = room_for(alloc, response.body())?;
    Ok(read_chunk(response, gate, room))
}

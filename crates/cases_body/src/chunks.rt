//! Streams: the chunks of a source, and two streams that are joined.
use crate::made::made_pieces;
use crate::objects::Listed;
use crate::polled::POLLS;
use crate::shown::{push_bytes, push_error};
use crate::words::{both_sides, open_gate, quoted};
use cases::{CaseError, push_item, written};
use rkt_base::{NoMemory, Poll};
use rkt_data::{AsyncReadExt, DataError, Join, One, PollExt, Source, Stream, StreamExt, ext};
use std::alloc::Global;

fn chunked<R: AsyncReadExt>(source: R, cap: usize) -> ext::ReaderStream<R> {
    source.into_bytes_stream(cap)
}

/// Why a chunk was not read.
#[derive(Clone, Copy, Drop)]
struct Unread(DataError);

fn with_unread<T: Drop, P: PollExt<T, DataError>>(answer: P) -> Poll<Option<Result<T, Unread>>> {
    answer.map_err_ext(|error| Unread(error))
}

fn push_chunk(
    alloc: Global,
    answer: &Poll<Option<Result<Vec<u8>, Unread>>>,
    out: &mut String,
) -> Result<(), NoMemory> {
    match answer {
        Poll::Ready(Some(Ok(bytes))) => push_bytes(alloc, bytes.as_slice(), out),
        Poll::Ready(Some(Err(unread))) => push_error(alloc, unread.0, out),
        Poll::Ready(None) => push_item(out, "end"),
        Poll::Pending => push_item(out, "pending"),
    }
}

/// Polls for chunks until there are none.
pub fn push_chunks<R: Source>(
    alloc: Global,
    source: R,
    cap: usize,
    out: &mut String,
) -> Result<(), NoMemory> {
    let mut chunks = chunked(source, cap);
    for _ in 0..POLLS {
        let answer = with_unread(chunks.poll_next(alloc, open_gate(0)));
        push_chunk(alloc, &answer, out)?;
        if matches!(answer, Poll::Ready(None)) {
            return Ok(());
        }
    }
    Ok(())
}

fn in_turn<A: StreamExt, B: Stream<Item = A::Item>>(first: A, second: B) -> Join<A, B> {
    first.join(second)
}

fn push_polled(
    alloc: Global,
    answer: &Poll<Option<Vec<u8>>>,
    out: &mut String,
) -> Result<(), NoMemory> {
    match answer {
        Poll::Ready(Some(bytes)) => push_bytes(alloc, bytes.as_slice(), out),
        Poll::Ready(None) => push_item(out, "end"),
        Poll::Pending => push_item(out, "pending"),
    }
}

/// Polls for so many items.
fn push_items<T: Stream<Item = Vec<u8>>>(
    alloc: Global,
    mut stream: T,
    count: usize,
    out: &mut String,
) -> Result<(), NoMemory> {
    for _ in 0..count {
        push_polled(alloc, &stream.poll_next(open_gate(0)), out)?;
    }
    Ok(())
}

/// The stream of `"TEXT"`.
fn made_one(alloc: Global, words: &str) -> Result<One<Vec<u8>>, CaseError> {
    let (text, _) = quoted(words)?;
    Ok(One::from(text.as_bytes().to_vec(alloc)?))
}

fn made_join(alloc: Global, words: &str) -> Result<Join<Listed<Vec<u8>>, One<Vec<u8>>>, CaseError> {
    let (first, second) = both_sides(words)?;
    let second = made_one(alloc, second)?;
    let first = made_pieces(alloc, first)?;
    Ok(in_turn(first, second))
}

/// Polls the stream of `PIECES + "TEXT"` so often.
pub fn push_join(
    alloc: Global,
    words: &str,
    count: usize,
    out: &mut String,
) -> Result<(), CaseError> {
    let stream = made_join(alloc, words)?;
    written(push_items(alloc, stream, count, out))
}

//! Reads all that is left of a body.
ghost use Rattle.std.specs.Prelude.{◌≡◌, ◌≤◌, ◌<◌, MatchOption, OnOk, length, take, vec_len};
ghost use Rattle.rkt_message.specs.Whole.{Draws, Stops, end_if_stopped, stop_end};

use crate::body::Body;
use rkt_base::{NoMemory, Poll};
use rkt_data::{DataError, Gate, Source};
use std::alloc::Global;

/// Why reading stopped.
#[derive(Clone, Copy, Debug, Drop, PartialEq, Eq)]
pub enum Stop {
    End,
    Failed(DataError),
    Waiting,
}

/// Reads behind the first `count` bytes of a buffer that grows, and answers how many bytes it has then.
pub fn drain<S: Source>(
    body: &mut Body<S>,
    alloc: Global,
    gate: Gate,
    room: &mut Vec<u8>,
    count: usize,
) -> (usize, Stop)
    requires within { count ≤ vec_len room.old }
    ensures within { result.0 ≤ vec_len room.new }
    ensures draws { Draws S.meaning S.polled gate (stop_end result.1) body.old body.new (take count room.old.items)
        (take result.0 room.new.items) }
    ensures stops { Stops S.meaning body.old.content body.new.content result.1 }
{
    if count == 0 {
        if let Some(bytes) = body.take_bytes(alloc) {
            *room = bytes;
            return (room.len(), Stop::End);
        }
    }
    grow(body, gate, room, count)
}

fn grow<S: Source>(
    body: &mut Body<S>,
    gate: Gate,
    room: &mut Vec<u8>,
    count: usize,
) -> (usize, Stop)
    requires within { count ≤ vec_len room.old }
    ensures within { result.0 ≤ vec_len room.new }
    ensures draws { Draws S.meaning S.polled gate (stop_end result.1) body.old body.new (take count room.old.items)
        (take result.0 room.new.items) }
    ensures stops { Stops S.meaning body.old.content body.new.content result.1 }
{
    let mut n = count;
    loop {
        if make_room(room, n).is_err() {
            return (n, Stop::Failed(DataError::NoMemory));
        }
        let (now, stop) = pour(body, gate, room.as_mut_slice(), n);
        n = now;
        if let Some(stop) = stop {
            return (n, stop);
        }
    }
}

// Reads behind the first `count` bytes of a buffer until it is full, and answers how many bytes it has then.
fn pour<S: Source>(
    body: &mut Body<S>,
    gate: Gate,
    room: &mut [u8],
    count: usize,
) -> (usize, Option<Stop>)
    requires within { count ≤ length room.old }
    ensures within { result.0 ≤ length room.new }
    ensures draws { Draws S.meaning S.polled gate (end_if_stopped result.1) body.old body.new (take count room.old)
        (take result.0 room.new) }
    ensures stops { MatchOption result.1 (result.0 ≡ length room.new) (λ stop.
        Stops S.meaning body.old.content body.new.content stop) }
{
    let mut n = count;
    while n < room.len() {
        match body.poll_read(gate, &mut room[n..]) {
            Poll::Ready(Ok(0)) => return (n, Some(Stop::End)),
            Poll::Ready(Ok(k)) => n += k,
            Poll::Ready(Err(e)) => return (n, Some(Stop::Failed(DataError::from(e)))),
            Poll::Pending => return (n, Some(Stop::Waiting)),
        }
    }
    (n, None)
}

// Makes room for at least one byte more, by doubling the buffer.
fn make_room(room: &mut Vec<u8>, count: usize) -> Result<(), NoMemory>
    requires within { count ≤ vec_len room.old }
    ensures front { take count room.new.items ≡ take count room.old.items }
    ensures within { count ≤ vec_len room.new }
    ensures ok { OnOk result (count < vec_len room.new) }
{
    if count < room.len() {
        return Ok(());
    }
    room.resize(count.saturating_add(count.max(ROOM_BYTES)), 0)
}

/// How many bytes a buffer has at first.
const ROOM_BYTES: usize = 512;

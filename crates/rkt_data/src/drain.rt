//! Reads all of an opened body, up to its limit.
ghost use Rattle.std.specs.Prelude.{◌≡◌, ◌≤◌, ◌<◌, OnOk, false, length, take, vec_len};
ghost use Rattle.rkt_data.specs.Gathering.{Draws, Drains, Pours, drained_end};
ghost use Rattle.rkt_data.specs.Stream.{TakesAtMost};
ghost use Rattle.rkt_data.specs.CountedSource.{ending_at};

use crate::counted_source::Stop;
use crate::limited_reader::LimitedReader;
use rkt_base::{NoMemory, Poll};
use rkt_source::{Gate, Source, SourceError};

/// Why reading stopped.
#[derive(Clone, Copy, Debug, Drop, PartialEq, Eq)]
pub(crate) enum Drained {
    End,
    Failed(SourceError),
    Waiting,
    NoMemory,
}

// Reads behind the first `count` bytes of a buffer that grows, and answers how many bytes it has then.
pub(crate) fn drain<S: Source>(
    pipe: &mut LimitedReader<S>,
    gate: Gate,
    room: &mut Vec<u8>,
    count: usize,
) -> (usize, Drained)
    requires not_probed { pipe.old.probed ≡ false }
    requires within { count ≤ vec_len room.old }
    ensures within { result.0 ≤ vec_len room.new }
    ensures draws { Draws S.meaning S.polled gate (drained_end result.1) pipe.old pipe.new (take count room.old.items)
        (take result.0 room.new.items) }
    ensures drains { Drains S.meaning pipe.old.opened pipe.new.opened result.1 }
{
    let mut n = count;
    let mut left = pipe.left();
    while left > 0 {
        if make_room(room, n, left).is_err() {
            return (n, Drained::NoMemory);
        }
        let (now, stop) = pour(pipe, gate, room.as_mut_slice(), n);
        n = now;
        match stop {
            Stop::Full => {}
            Stop::End => return (n, Drained::End),
            Stop::Failed(e) => return (n, Drained::Failed(e)),
            Stop::Waiting => return (n, Drained::Waiting),
        }
        left = pipe.left();
    }
    (n, Drained::End)
}

// Reads behind the first `count` bytes of a buffer until it is full, and answers how many bytes it has then.
fn pour<S: Source>(
    pipe: &mut LimitedReader<S>,
    gate: Gate,
    room: &mut [u8],
    count: usize,
) -> (usize, Stop)
    requires not_probed { pipe.old.probed ≡ false }
    requires within { count ≤ length room.old }
    requires bound { TakesAtMost S.meaning pipe.old.opened pipe.old.opened.limit }
    ensures within { result.0 ≤ length room.new }
    ensures draws { Draws S.meaning S.polled gate (ending_at result.1) pipe.old pipe.new (take count room.old)
        (take result.0 room.new) }
    ensures pours { Pours S.meaning pipe.old.opened pipe.new.opened (length room.new) result.0 result.1 }
{
    let mut n = count;
    while n < room.len() {
        match pipe.read(gate, &mut room[n..]) {
            Poll::Ready(Ok(0)) => return (n, Stop::End),
            Poll::Ready(Ok(k)) => n += k,
            Poll::Ready(Err(e)) => return (n, Stop::Failed(e)),
            Poll::Pending => return (n, Stop::Waiting),
        }
    }
    (n, Stop::Full)
}

// Makes room for at least one byte more, but for no more than are left: as many as there are at first, then a block. So
// no room is written to that the body does not need; the capacity behind it doubles by itself.
fn make_room(room: &mut Vec<u8>, count: usize, left: u64) -> Result<(), NoMemory>
    requires within { count ≤ vec_len room.old }
    requires some { 0 < left }
    ensures front { take count room.new.items ≡ take count room.old.items }
    ensures within { count ≤ vec_len room.new }
    ensures ok { OnOk result (count < vec_len room.new) }
{
    if count < room.len() {
        return Ok(());
    }
    let more = count.max(LEAST_ROOM).min(MOST_ROOM).min(left as usize);
    room.resize(count.saturating_add(more), 0)
}

/// The least and the most bytes by which a buffer grows.
const LEAST_ROOM: usize = 512;

const MOST_ROOM: usize = 64 * 1024;

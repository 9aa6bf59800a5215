//! The cases of bodies and of what they are made of. Each line of standard input says one, and is written again with ` -> `
//! and its answer; beside this folder, `stdout` is the table of cases with the answers that are wanted, and `stdin` has its
//! lines up to the arrow. Empty lines and those that begin with `#` are headings, and are written as they are.
//!
//! A line has an object and then steps, each behind ` | `; the answers of the steps stand behind one another. A source is
//! one of these:
//!
//! - `"TEXT"`: in memory. `chunk=N`: at most so many bytes a read; `fails=N,N`: these of its reads fail, counted from 0;
//!   `pends=N`: so many polls are Pending at first, a shutdown's too.
//! - `cut SOURCE`, over one in memory: it is cut off by a trip.
//! - `chain SOURCE + SOURCE`, over two in memory, the first of which a trip cuts off.
//! - `pieces "TEXT" "TEXT" ..`: the items of a stream, joined; so many polls of it are Pending at first as `pends=N` says.
//! - `sources "TEXT" "TEXT" ..`: the sources that a stream gives, joined; `chunk` and `fails` are each source's.
//! - `one SOURCE`: a stream of one source in memory.
//! - `nothing`: no stream.
//!
//! - a source: of `read SIZE` into a buffer of that size: the bytes, or the error; of `shut`: `shut`; of each also
//!   `pending`
//! - `cut` and `chain`: besides, of `stage`: when the first saw the trip, when its grace was over, whether it is there,
//!   and how many of its polls are still to be Pending
//! - `cut`: besides, of `call`: what a closure answers that gives 7
//! - `body SOURCE`, `local "TEXT"`: of `peek COUNT` the bytes shown, of `complete` whether these are all; of
//!   `open LIMIT` nothing; then of `read SIZE` the bytes, of `hint` how many are held; and at last of `bytes`, `text`,
//!   `send` or `send_precise` what each poll answers, and an error twice
//! - `chunks SIZE SOURCE`: the chunks of the source, until their end
//! - `join "TEXT" "TEXT" .. + "TEXT" | COUNT`: so many items of the two streams, joined
//! - `capped WRITTEN COMPLETE | VALUE NEW`: a copy of the value, and the value when the new one was written
//! - `mapped WRITTEN COMPLETE | VALUE`: the value plus one, how many bytes were read, and the value alone
//! - `whole "TEXT"`: the length of a text that was read whole
//!
//! `send` and `send_precise` take `chunk`, `fails` and `pends` for the sink, and show the bytes that it has at last. Bytes
//! stand between quotes, and as numbers where they are no UTF-8. Behind `read SIZE` and `call` may stand a Gate, `@MOMENT`
//! or `@MOMENT!WORD+GRACE+MERCY`. A last step `counts` adds how many reads the sources in memory had past their Pending
//! ones, and how many bytes these gave. A state is polled 20 times at most. Any other line answers `? line`.
#![tactic(auto)]

mod answer;
mod body;
mod capped;
mod chunks;
mod gathered;
mod made;
mod objects;
mod polled;
mod sent;
mod setting;
mod shown;
mod steps;
mod words;

use crate::answer::Program;
use cases::answer_lines;
use std::io;

fn main(rt: HostRuntime) -> io::Result<()> {
    let alloc = rt.alloc();
    answer_lines(&rt, alloc, Program)
}

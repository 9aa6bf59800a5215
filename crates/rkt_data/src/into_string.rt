//! The text of an opened body, as a polled state.
ghost use Rattle.std.specs.Option.{ForSome};
ghost use Rattle.std.specs.Prelude.{◌≡◌, ◌≤◌, [], Err, None, false, vec_len};
ghost use Rattle.rkt_base.specs.declared.poll.Poll.TheVariants.{Ready};
ghost use Rattle.rkt_data.specs.Gathering.{reads_end};
ghost use Rattle.rkt_data.specs.Text.{Texts, IsRead};
ghost use Rattle.rkt_data.specs.Stream.{Follows, PullsAtMost};
ghost use Rattle.rkt_data.specs.CountedSource.{ByGate};

use crate::capped::{Capped, N};
use crate::data_stream::DataStream;
use crate::drain::{Drained, drain};
use crate::error::DataError;
use crate::limited_reader::LimitedReader;
use rkt_base::Poll;
use rkt_source::{Gate, Source};
use std::alloc::Global;
use std::marker::Model;

/// What was found so far: the first bytes of a buffer, or the text of all that is read.
#[derive(Drop)]
pub(crate) enum Found {
    Bytes(Vec<u8>, usize),
    Text(String),
}

/// Gathers the text of an opened body, up to its limit.
#[derive(Drop)]
pub struct IntoString<S: Source> {
    pipe: LimitedReader<S>,
    from: u64,
    found: Option<Found>,
    failed: Option<DataError>,
    done: bool,
}

impl<S: Source> Model for IntoString<S> {
    ghost use Rattle.rkt_data.specs.Gathering.{Gathering};
    ghost use Rattle.rkt_data.specs.Text.{GathersText, found_so_far};

    ghost Value = { Gathering S };

    ghost view = { λ d.
        record { stream = d.pipe.opened; from = d.from; got = found_so_far d.found; failed = d.failed; done = d.done } };

    ghost invariant = { λ d. GathersText S.meaning d.pipe d.from d.found d.failed d.done };
}

impl<S: Source> DataStream<S> {
    /// A state that gathers the text that is left.
    pub fn into_string(self) -> IntoString<S>
        ensures { result ≡ record { stream = self; from = self.given; got = []; failed = None; done = false } }
    {
        let pipe = self.into_pipe();
        IntoString {
            from: pipe.given(),
            pipe,
            found: None,
            failed: None,
            done: false,
        }
    }
}

impl<S: Source> IntoString<S> {
    ghost use Rattle.rkt_data.specs.Text.{AnswersText};

    /// Reads on. Once it has answered an error it answers the same one.
    pub fn poll(&mut self, alloc: Global, gate: Gate) -> Poll<Result<Capped<String>, DataError>>
        requires { self.old.done ≡ false }
        ensures from { self.new.from ≡ self.old.from }
        ensures follows { Follows S.meaning gate.tripped self.old.stream self.new.stream }
        ensures by_gate { self.old.failed ≡ None
            → ByGate S.polled gate (reads_end result) self.old.stream.tap self.new.stream.tap }
        ensures bound { PullsAtMost S.meaning self.new.stream }
        ensures repeats { ForSome self.old.failed (λ e. (result ≡ Ready (Err e)) × (self.new ≡ self.old)) }
        ensures answer { self.old.failed ≡ None → AnswersText S.meaning self.old self.new result }
    {
        if let Some(e) = self.failed {
            // For contracts alone: how much was taken from the source so far.
            let _ = self.pipe.left();
            return Poll::Ready(Err(e));
        }
        let found = resume(&mut self.found, alloc);
        match read_text(&mut self.pipe, gate, found) {
            Texted::Waiting(room, count) => {
                // For contracts alone: how much was taken from the source so far.
                let _ = self.pipe.left();
                self.found = Some(Found::Bytes(room, count));
                Poll::Pending
            }
            Texted::Failed(e) => {
                // For contracts alone: how much was taken from the source so far.
                let _ = self.pipe.left();
                self.failed = Some(e);
                Poll::Ready(Err(e))
            }
            Texted::Text(text) => {
                let written = text.as_str().len() as u64;
                match self.pipe.close(gate) {
                    Poll::Pending => {
                        self.found = Some(Found::Text(text));
                        Poll::Pending
                    }
                    Poll::Ready(Err(e)) => {
                        let e = DataError::from(e);
                        self.failed = Some(e);
                        Poll::Ready(Err(e))
                    }
                    Poll::Ready(Ok(complete)) => {
                        self.done = true;
                        Poll::Ready(Ok(Capped::new(text, N { written, complete })))
                    }
                }
            }
        }
    }
}

/// How far the reading of a text has come.
pub(crate) enum Texted {
    Text(String),
    Waiting(Vec<u8>, usize),
    Failed(DataError),
}

// What an earlier poll has found, or nothing yet.
fn resume(found: &mut Option<Found>, alloc: Global) -> Found
    ensures found { ForSome found.old (λ f. result ≡ f) }
    ensures none { found.old ≡ None → (room : _) × (result ≡ Found.Bytes room 0) }
    ensures taken { found.new ≡ None }
{
    match found.take() {
        Some(found) => found,
        None => Found::Bytes(Vec::new(alloc), 0),
    }
}

// Reads to the limit, unless that was done, and takes the bytes for a text.
fn read_text<S: Source>(pipe: &mut LimitedReader<S>, gate: Gate, found: Found) -> Texted
    requires not_probed { pipe.old.probed ≡ false }
    requires found { IsRead S.meaning pipe.old.opened (Some found) }
    ensures texts { Texts S.meaning S.polled gate found pipe.old pipe.new result }
{
    match found {
        Found::Text(text) => {
            // For contracts alone: how much was taken from the source so far.
            let _ = pipe.left();
            Texted::Text(text)
        }
        Found::Bytes(room, count) => read_bytes(pipe, gate, room, count),
    }
}

fn read_bytes<S: Source>(
    pipe: &mut LimitedReader<S>,
    gate: Gate,
    mut room: Vec<u8>,
    count: usize,
) -> Texted
    requires not_probed { pipe.old.probed ≡ false }
    requires within { count ≤ vec_len room }
    ensures texts { Texts S.meaning S.polled gate (Found.Bytes room count) pipe.old pipe.new result }
{
    let (count, drained) = drain(pipe, gate, &mut room, count);
    match drained {
        Drained::Failed(e) => Texted::Failed(DataError::from(e)),
        Drained::Waiting => Texted::Waiting(room, count),
        Drained::NoMemory => Texted::Failed(DataError::NoMemory),
        Drained::End => {
            room.truncate(count);
            match String::from_utf8(room) {
                Ok(text) => Texted::Text(text),
                Err(e) => Texted::Failed(DataError::NotUtf8 {
                    valid_up_to: e.utf8_error().valid_up_to(),
                }),
            }
        }
    }
}

//! Bodies that are gathered.
ghost use Rattle.std.specs.Prelude.{◌≡◌, None, false};

use crate::polled::{Polled, Shown, over, poll_on, push_failed, waits};
use crate::shown::{push_bytes, push_flag};
use crate::words::open_gate;
use cases::push_item;
use rkt_base::{NoMemory, Poll};
use rkt_data::{Capped, DataStream, IntoBytes, IntoString, N, Source};
use std::alloc::Global;

/// Bytes that are not gathered yet.
#[derive(Drop)]
struct Bytes<S: Source> {
    state: IntoBytes<S>,
    ghost goes_on: { (state.done ≡ false) × (state.failed ≡ None) },
}

/// A text that is not gathered yet.
#[derive(Drop)]
struct Text<S: Source> {
    state: IntoString<S>,
    ghost goes_on: { (state.done ≡ false) × (state.failed ≡ None) },
}

/// Adds how many bytes were read, and whether these are all.
pub fn push_n(alloc: Global, n: N, out: &mut String) -> Result<(), NoMemory> {
    let text = format!(in alloc; "n={n}")?;
    push_item(out, text.as_str())?;
    push_flag(alloc, "complete", n.complete, out)
}

fn push_capped(alloc: Global, bytes: &[u8], n: N, out: &mut String) -> Result<(), NoMemory> {
    push_bytes(alloc, bytes, out)?;
    push_n(alloc, n, out)
}

impl Shown for Capped<Vec<u8>> {
    fn push_to(self, alloc: Global, out: &mut String) -> Result<(), NoMemory> {
        push_capped(alloc, self.value.as_slice(), self.n, out)
    }
}

impl Shown for Capped<String> {
    fn push_to(self, alloc: Global, out: &mut String) -> Result<(), NoMemory> {
        push_capped(alloc, self.value.as_bytes(), self.n, out)
    }
}

impl<S: Source> Polled for Bytes<S> {
    fn poll_once(self, alloc: Global, out: &mut String) -> Result<Option<Bytes<S>>, NoMemory> {
        let Bytes { mut state } = self;
        match state.poll(alloc, open_gate(0)) {
            Poll::Pending => waits(Bytes { state }, out),
            Poll::Ready(Ok(capped)) => over(capped.push_to(alloc, out)),
            Poll::Ready(Err(error)) => {
                let again = state.poll(alloc, open_gate(0));
                over(push_failed(alloc, error, again, out))
            }
        }
    }
}

impl<S: Source> Polled for Text<S> {
    fn poll_once(self, alloc: Global, out: &mut String) -> Result<Option<Text<S>>, NoMemory> {
        let Text { mut state } = self;
        match state.poll(alloc, open_gate(0)) {
            Poll::Pending => waits(Text { state }, out),
            Poll::Ready(Ok(capped)) => over(capped.push_to(alloc, out)),
            Poll::Ready(Err(error)) => {
                let again = state.poll(alloc, open_gate(0));
                over(push_failed(alloc, error, again, out))
            }
        }
    }
}

/// Gathers the bytes that are left.
pub fn gather_bytes<S: Source>(
    alloc: Global,
    stream: DataStream<S>,
    out: &mut String,
) -> Result<(), NoMemory> {
    let state = stream.into_bytes();
    poll_on(alloc, Bytes { state }, out)
}

/// Gathers the text that is left.
pub fn gather_text<S: Source>(
    alloc: Global,
    stream: DataStream<S>,
    out: &mut String,
) -> Result<(), NoMemory> {
    let state = stream.into_string();
    poll_on(alloc, Text { state }, out)
}

//! Bodies that are sent to a sink.
ghost use Rattle.std.specs.Prelude.{◌≡◌, None, false};

use crate::gathered::push_n;
use crate::made::made_sink;
use crate::objects::Slow;
use crate::polled::{Polled, Shown, over, poll_on, push_failed, waits};
use crate::setting::Setting;
use crate::shown::{push_bytes, push_count};
use crate::words::open_gate;
use cases::{CaseError, written};
use rkt_base::{NoMemory, Poll};
use rkt_data::{DataStream, MemorySink, N, Sink, Source, StreamPrecise, StreamTo};
use std::alloc::Global;

/// A body that is not sent yet.
#[derive(Drop)]
struct Sending<S: Source, K: Sink> {
    state: StreamTo<S, K>,
    ghost goes_on: { (state.done ≡ false) × (state.failed ≡ None) },
}

/// A body that is not sent yet, and will not be read past its limit.
#[derive(Drop)]
struct Precise<S: Source, K: Sink> {
    state: StreamPrecise<S, K>,
    ghost goes_on: { (state.done ≡ false) × (state.failed ≡ None) },
}

impl Shown for N {
    fn push_to(self, alloc: Global, out: &mut String) -> Result<(), NoMemory> {
        push_n(alloc, self, out)
    }
}

/// How many bytes were sent, where no end is told.
impl Shown for u64 {
    fn push_to(self, alloc: Global, out: &mut String) -> Result<(), NoMemory> {
        push_count(alloc, "n", self, out)
    }
}

impl<S: Source, K: Sink> Polled for Sending<S, K> {
    fn poll_once(self, alloc: Global, out: &mut String) -> Result<Option<Sending<S, K>>, NoMemory> {
        let Sending { mut state } = self;
        match state.poll(alloc, open_gate(0)) {
            Poll::Pending => waits(Sending { state }, out),
            Poll::Ready(Ok(n)) => {
                let _ = state.into_sink();
                over(n.push_to(alloc, out))
            }
            Poll::Ready(Err(error)) => {
                let again = state.poll(alloc, open_gate(0));
                over(push_failed(alloc, error, again, out))
            }
        }
    }
}

impl<S: Source, K: Sink> Polled for Precise<S, K> {
    fn poll_once(self, alloc: Global, out: &mut String) -> Result<Option<Precise<S, K>>, NoMemory> {
        let Precise { mut state } = self;
        match state.poll(alloc, open_gate(0)) {
            Poll::Pending => waits(Precise { state }, out),
            Poll::Ready(Ok(written)) => {
                let _ = state.into_sink();
                over(written.push_to(alloc, out))
            }
            Poll::Ready(Err(error)) => {
                let again = state.poll(alloc, open_gate(0));
                over(push_failed(alloc, error, again, out))
            }
        }
    }
}

/// Sends to a sink that is lent.
fn send_to<S: Source>(
    alloc: Global,
    stream: DataStream<S>,
    kept: &mut MemorySink,
    setting: Setting<'_>,
    out: &mut String,
) -> Result<(), NoMemory> {
    let sink = Slow::new(kept, setting.chunk, setting.pends);
    let state = stream.stream_to(sink);
    poll_on(alloc, Sending { state }, out)
}

fn send_precise_to<S: Source>(
    alloc: Global,
    stream: DataStream<S>,
    kept: &mut MemorySink,
    setting: Setting<'_>,
    out: &mut String,
) -> Result<(), NoMemory> {
    let sink = Slow::new(kept, setting.chunk, setting.pends);
    let state = stream.stream_precise_to(sink);
    poll_on(alloc, Precise { state }, out)
}

/// Sends the bytes that are left to a sink of this setting, and adds what it has then.
pub fn send<S: Source>(
    alloc: Global,
    stream: DataStream<S>,
    setting: Setting<'_>,
    out: &mut String,
) -> Result<(), CaseError> {
    let mut kept = made_sink(alloc, setting)?;
    send_to(alloc, stream, &mut kept, setting, out)?;
    written(push_bytes(alloc, kept.bytes(), out))
}

/// The same, with no look past the limit.
pub fn send_precise<S: Source>(
    alloc: Global,
    stream: DataStream<S>,
    setting: Setting<'_>,
    out: &mut String,
) -> Result<(), CaseError> {
    let mut kept = made_sink(alloc, setting)?;
    send_precise_to(alloc, stream, &mut kept, setting, out)?;
    written(push_bytes(alloc, kept.bytes(), out))
}

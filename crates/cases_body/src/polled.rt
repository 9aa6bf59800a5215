//! States that are polled until they answer a value or an error.
use crate::shown::push_error;
use cases::push_item;
use rkt_base::{NoMemory, Poll};
use rkt_data::DataError;
use std::alloc::Global;

/// How often a state is polled at most.
pub const POLLS: usize = 20;

pub trait Polled: Drop + Sized {
    /// Polls once, and a second time where the answer is an error. Answers the state where it is Pending.
    fn poll_once(self, alloc: Global, out: &mut String) -> Result<Option<Self>, NoMemory>;
}

/// Polls until there is another answer than Pending.
pub fn poll_on<P: Polled>(alloc: Global, state: P, out: &mut String) -> Result<(), NoMemory> {
    let mut left = Some(state);
    for _ in 0..POLLS {
        let Some(state) = left else {
            return Ok(());
        };
        left = state.poll_once(alloc, out)?;
    }
    Ok(())
}

/// The state, which was Pending.
pub fn waits<P: Drop>(state: P, out: &mut String) -> Result<Option<P>, NoMemory> {
    push_item(out, "pending")?;
    Ok(Some(state))
}

/// No state, as there was another answer than Pending.
pub fn over<P: Drop>(shown: Result<(), NoMemory>) -> Result<Option<P>, NoMemory> {
    shown?;
    Ok(None)
}

/// What a state answers at last.
pub trait Shown: Drop {
    /// Adds it.
    fn push_to(self, alloc: Global, out: &mut String) -> Result<(), NoMemory>;
}

/// Adds an error, and what the next poll has answered.
pub fn push_failed<V: Shown>(
    alloc: Global,
    error: DataError,
    again: Poll<Result<V, DataError>>,
    out: &mut String,
) -> Result<(), NoMemory> {
    push_error(alloc, error, out)?;
    match again {
        Poll::Ready(Ok(value)) => value.push_to(alloc, out),
        Poll::Ready(Err(error)) => push_error(alloc, error, out),
        Poll::Pending => push_item(out, "pending"),
    }
}

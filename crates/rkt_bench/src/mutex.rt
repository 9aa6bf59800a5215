//! The tally behind a `Mutex`.
use crate::tally::Tally;
use std::alloc::{AllocError, Global};
use std::sync::{Mutex, Wait};
use std::thread;
use std::thread::Threads;

fn add_all<R: Wait>(rt: &R, mutex: &Mutex<Tally>, count: u32) {
    for _ in 0..count {
        mutex.lock(rt).add();
    }
}

/// As many threads, each of which adds so often. Answers the tally.
pub fn taken<R: Threads + Wait + Sync>(
    rt: &R,
    alloc: Global,
    threads: usize,
    count: u32,
) -> Result<u64, AllocError> {
    let mutex = Mutex::new(Tally { turns: 0 });
    let shared = &mutex;
    thread::map_indices(rt, alloc, threads, &|_| add_all(rt, shared, count))?;
    Ok(mutex.into_inner().turns)
}

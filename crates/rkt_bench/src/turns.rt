//! Turns of the turn lock over a tally, beside those of a `Mutex` over it.
ghost use Rattle.std.specs.Prelude.{◌≡◌, [], All, vec_len, length};
ghost use Rattle.rkt_turn.specs.Pass.{known, IsPassOf, IsIdle, IsFirst};

use crate::mutex;
use crate::tally::Tally;
use anyhow::{Error, bail};
use rkt_turn::{Pass, Turnstile};
use std::alloc::{AllocError, Global};
use std::sync::Wait;
use std::thread;
use std::thread::Threads;
use std::time::{Clock, Duration, Instant};

// Takes so many turns.
fn add_all<R: Wait>(rt: &R, lock: &Turnstile<Tally>, pass: &mut Pass<Tally>, count: u32)
    requires own { IsPassOf lock.now pass.old }
    requires idle { IsIdle pass.old }
    ensures own { IsPassOf lock.now pass.new }
    ensures idle { IsIdle pass.new }
{
    for _ in 0..count {
        let mut turn = lock.enter(rt, pass);
        turn.state().add();
        lock.leave(pass, turn);
    }
}

// As many threads, each of which takes so many turns. Answers the tally.
fn taken<R: Threads + Wait + Sync>(
    rt: &R,
    alloc: Global,
    threads: usize,
    count: u32,
) -> Result<u64, AllocError> {
    let Ok((lock, mut first)) = Turnstile::new(alloc, (), Tally { turns: 0 }) else {
        return Err(AllocError);
    };
    let mut passes = first.split_all(alloc, &lock, threads)?;
    let shared = &lock;
    thread::for_each_mut(
        rt,
        passes.as_mut_slice(),
        8,
        &|_, pass| { add_all(rt, shared, pass, count) },
    );
    first.join_all(&lock, passes);
    Ok(lock.close(first).turns)
}

// How many in a second.
fn rate(turns: u64, time: Duration) -> u128 {
    turns as u128 * 1_000_000 / time.as_micros().max(1)
}

// Takes so many turns by so many threads both ways, and prints how many a second where that is asked for.
fn measure<R: Print + Clock + Threads + Wait + Sync>(
    rt: &R,
    alloc: Global,
    threads: usize,
    count: u32,
    is_timed: bool,
) -> Result<(), Error> {
    let start = Instant::now(rt)?;
    let by_turns = taken(rt, alloc, threads, count)?;
    let turn_time = start.elapsed(rt)?;
    let start = Instant::now(rt)?;
    let by_mutex = mutex::taken(rt, alloc, threads, count)?;
    let mutex_time = start.elapsed(rt)?;
    if by_turns != by_mutex {
        bail!("turns were lost");
    }
    println!(rt; "turns: {by_turns} by {threads}, the same both ways")?;
    if is_timed {
        let lock = rate(by_turns, turn_time);
        let mutex = rate(by_mutex, mutex_time);
        println!(rt; "{lock} turns a second, {mutex} of a mutex")?;
    }
    Ok(())
}

/// Takes so many turns by each of 1, 2 and 4 threads both ways.
pub fn run<R: Print + Clock + Threads + Wait + Sync>(
    rt: &R,
    alloc: Global,
    count: u32,
    is_timed: bool,
) -> Result<(), Error> {
    for threads in [1, 2, 4] {
        measure(rt, alloc, threads, count, is_timed)?;
    }
    Ok(())
}

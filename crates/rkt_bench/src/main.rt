//! What a turn of the lock, the gathering of a body and the sending of one take, each beside a plain peer.
//!
//!     rkt_bench                    each of the three once, on little; no time is printed
//!     rkt_bench turns COUNT        turns of the lock beside those of a `Mutex`, by 1, 2 and 4 threads of COUNT turns each
//!     rkt_bench bodies MEBIBYTES   `into_bytes` beside a loop that appends the same chunks to a `Vec`
//!     rkt_bench pieces MEBIBYTES   the pieces of a response beside a loop that keeps copies of the same chunks
#![tactic(auto)]

mod body;
mod gathering;
mod mutex;
mod pieces;
mod tally;
mod turns;

use anyhow::{Error, bail};
use std::alloc::Global;
use std::env;
use std::sync::Wait;
use std::thread::Threads;
use std::time::Clock;

const FEW: u32 = 100;

const SHORT: usize = 100_000;

const MEBIBYTE: usize = 1024 * 1024;

/// What is measured, and how much of it.
enum Measure {
    Each,
    Turns(u32),
    Bodies(usize),
    Pieces(usize),
}

fn length(count: &str) -> Result<usize, Error> {
    Ok(count.parse::<u16>()? as usize * MEBIBYTE)
}

fn named(word: &str, count: &str) -> Result<Measure, Error> {
    match word {
        "turns" => Ok(Measure::Turns(count.parse()?)),
        "bodies" => Ok(Measure::Bodies(length(count)?)),
        "pieces" => Ok(Measure::Pieces(length(count)?)),
        _ => bail!("usage: rkt_bench [turns COUNT | bodies MEBIBYTES | pieces MEBIBYTES]"),
    }
}

fn asked(words: &[String]) -> Result<Measure, Error> {
    match words {
        [] => Ok(Measure::Each),
        [word, count] => named(word.as_str(), count.as_str()),
        _ => named("", ""),
    }
}

fn each<R: Print + Clock + Threads + Wait + Sync>(rt: &R, alloc: Global) -> Result<(), Error> {
    turns::run(rt, alloc, FEW, false)?;
    gathering::run(rt, alloc, SHORT, false)?;
    pieces::run(rt, alloc, SHORT, false)
}

fn main(rt: HostRuntime) -> Result<(), Error> {
    let alloc = rt.alloc();
    let mut words = Vec::new(alloc);
    for word in env::args(&rt)?.skip(1) {
        words.push(word)?;
    }
    match asked(words.as_slice())? {
        Measure::Each => each(&rt, alloc),
        Measure::Turns(count) => turns::run(&rt, alloc, count, true),
        Measure::Bodies(length) => gathering::run(&rt, alloc, length, true),
        Measure::Pieces(length) => pieces::run(&rt, alloc, length, true),
    }
}

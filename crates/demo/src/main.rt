//! `demo serve` serves a script of requests from standard input, and writes to standard output how they ended.
#![tactic(auto)]

mod adapters;

use crate::adapters::{ReaderSource, WriterSink};
use rkt_demo::run;
use rkt_serve::SystemClock;
use std::process::ExitCode;
use std::{env, io};

fn main(rt: HostRuntime) -> io::Result<ExitCode> {
    let alloc = rt.alloc();
    let mut words = Vec::new(alloc);
    for word in env::args(&rt)?.skip(1) {
        words.push(word)?;
    }
    let mut source = ReaderSource::new(rt.reader());
    let mut sink = WriterSink::new(io::writer(&rt));
    let clock = SystemClock::new(&rt);
    let status = run(&rt, alloc, words.as_slice(), &mut source, &mut sink, clock);
    Ok(ExitCode::from(status))
}

//! A launch over the lines of standard input.
use crate::printed::print_history;
use rkt_base::{NoMemory, Seq, Text};
use rkt_ignition::Aborts;
use rkt_life::{App, Build, BuildError, MemorySource, Rocket};
use rkt_request::Head;
use rkt_serve::{Error, Launch, Launched, Links, ListClock, ListListener};
use std::alloc::Global;
use std::io;
use std::sync::Wait;
use std::thread::Threads;

type Over<A> = Result<Launched<A, ListListener, ListClock>, Error<A, ListListener, ListClock>>;

/// The head of METHOD TARGET.
fn head_of(alloc: Global, line: &str) -> Result<Head, NoMemory> {
    let (method, target) = line.split_once(' ').unwrap_or((line, ""));
    Ok(Head {
        method: Text::new(alloc, method)?,
        target: Text::new(alloc, target)?,
        headers: Seq::new(alloc),
        remote: None,
    })
}

/// A link for each line of standard input.
fn read_links(rt: &impl Input, alloc: Global) -> io::Result<Links> {
    let mut links = Links::new(alloc);
    for line in rt.lines(alloc) {
        let line = line?;
        links.push(alloc, head_of(alloc, line.as_str())?, Vec::new(alloc))?;
    }
    Ok(links)
}

/// Prints what came of a launch, or why it failed.
fn print_over<A: App>(rt: &impl Print, alloc: Global, over: Over<A>) -> io::Result<()> {
    match over {
        Ok(launched) => print_history::<A>(rt, alloc, &launched.history),
        Err(error) => rt.println(error.pretty_print()),
    }
}

/// Launches a rocket over these links.
fn launch_links<A: App<Source = MemorySource, Sentinel: Aborts<A>>, R: Print + Wait + Threads>(
    rt: &R,
    alloc: Global,
    rocket: Rocket<Build, A>,
    links: Links,
) -> io::Result<()> {
    let links = links.into_vec();
    let listener = ListListener::new(alloc, links, Vec::new(alloc), Vec::new(alloc))?;
    let clock = ListClock::new(Vec::new(alloc));
    let over = rocket.launch(rt, alloc, listener, clock, 0);
    print_over::<A>(rt, alloc, over)
}

/// Launches a rocket over the lines.
fn launch_lines<
    A: App<Source = MemorySource, Sentinel: Aborts<A>>,
    R: Print + Input + Wait + Threads,
>(rt: &R, alloc: Global, rocket: Rocket<Build, A>) -> io::Result<()> {
    let links = read_links(rt, alloc)?;
    launch_links::<A, R>(rt, alloc, rocket, links)
}

/// Serves each line of standard input, and prints what came of it, or why the rocket could not be built or launched.
pub fn serve_lines<
    A: App<Source = MemorySource, Sentinel: Aborts<A>>,
    R: Print + Input + Wait + Threads + AllocGlobal,
>(rt: &R, built: Result<Rocket<Build, A>, BuildError>) -> io::Result<()> {
    match built {
        Ok(rocket) => launch_lines::<A, R>(rt, rt.alloc(), rocket),
        Err(error) => println!(rt; "{error}"),
    }
}

//! The cases of exchanges and launches: each line of standard input says one, and standard output has it again with
//! its answer. `stdout` is the table of cases with the answers that are wanted; `stdin` has its lines up to the arrow.
//! An empty line and one that begins with `#` are headings. What is no line of these is answered with `? line`.
//!
//!     routes PATH=TEXT PATH=TEXT*WAITS ..  from here on the application has these routes of GET, each of which says its
//!                                          text, once it was Pending so often; one that says `stop` or `trip` notifies the
//!                                          wire in its first poll, and the latter answers with the word of the trip that
//!                                          its last Gate shows
//!     fairings FAIRING; FAIRING; ..        from here on the application has these fairings, in this order, but where it is
//!                                          still built; without one, it has none
//!     header NAME: VALUE                   from here on every request has this header; without one, it has none
//!     faults SENDS POLLS                   from here on these sends of each link fail, and these polls of a listener (from 0)
//!     exchange MOMENT METHOD TARGET        one exchange at this moment: the status, the content type, the size of the
//!                                          body, the calls, the cookies that came, the cached values and the moment
//!     parted                               how many routes a rocket has that was taken apart and put together, and
//!                                          whether it has a managed value
//!     launch WORKERS MOMENTS POLLS LINK | LINK ..
//!                                          a launch: the clock tells these moments, these polls of the listener (from
//!                                          0) are Pending, and each link asks METHOD TARGET. How many events there
//!                                          are, each entry, and the moment of the close; in front, what is said of
//!                                          it where the listener failed or an exchange was abandoned
//!     order POLLS LINK | LINK ..           the events of such a launch, in order, and those of a second launch of the
//!                                          rocket that comes back, over the same links. A Lift and a Down show how
//!                                          each of their calls ended
//!     alarm MOMENT MOMENTS POLLS LINK | LINK ..
//!                                          the events of a launch whose clock tells these moments, and how many links are
//!                                          left. The wire is notified by the clock where it tells this moment or a later
//!                                          one, and by the listener in each poll that is Pending
//!     ignite SETTINGS LINK | LINK ..       a launch of what is still built: the routes are mounted at `/`, and the table has
//!                                          these settings. Its history, or why it does not ignite and how many links are
//!                                          left
//!     told SETTINGS LINK | LINK ..         what is told of such a launch where it fails
//!     send TURNS CHUNK READS TEXT          a response with the header above and a streamed body, which gives chunks
//!                                          and fails at these reads (from 0), is sent: how that ends, and the pieces
//!     cut NOW TRIP CHUNK READS TEXT        the same, where each Gate is a second later than the one before, from NOW
//!                                          on, with a trip from that second on
//!
//! A FAIRING is `shield`, or `KIND ACT`: KIND is `liftoff`, `shutdown` or `both`, and ACT what it does where it is
//! called: `done`, `fault`, `starve`, `pend NUMBER` (it is Pending so often), `notify` (at liftoff it notifies the
//! wire), `seen` (at liftoff it faults, unless the handle has seen a word) and `once` (at liftoff it faults, unless it
//! was never polled before).
//!
//! MOMENTS, SENDS, POLLS and READS are numbers parted by commas, SETTINGS are NAME=TEXT parted by commas, or `-` for none. In a
//! value, `\n` is a line feed.
#![tactic(auto)]

mod act;
mod actor;
mod alarm;
mod answer;
mod app;
mod built;
mod exchange;
mod heads;
mod launch;
mod order;
mod pieces;
mod setting;
mod ticks;
mod words;

use crate::answer::answer;
use crate::setting::Setting;
use cases::{is_heading, print_answer};
use std::alloc::Global;
use std::io;
use std::sync::Wait;
use std::thread::Threads;

/// Writes the line, and behind an arrow the answer where it is a case.
fn print_line<R: Print + Wait + Threads>(
    rt: &R,
    alloc: Global,
    setting: &mut Setting,
    line: &str,
) -> io::Result<()> {
    if is_heading(line) {
        return rt.println(line);
    }
    match answer(rt, alloc, setting, line) {
        Ok(text) => print_answer(rt, line, text.as_str()),
        Err(error) => print_answer(rt, line, error.text()),
    }
}

fn main(rt: HostRuntime) -> io::Result<()> {
    let alloc = rt.alloc();
    let mut setting = Setting::new(alloc);
    for line in rt.lines(alloc) {
        let line = line?;
        print_line(&rt, alloc, &mut setting, line.as_str())?;
    }
    Ok(())
}

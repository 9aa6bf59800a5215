//! What is shown of an exchange that has ended.
use crate::app::Site;
use crate::asked::When;
use cases::{CaseError, written};
use rkt_base::{NoMemory, Poll};
use rkt_cookie::Change;
use rkt_data::{DataError, MemorySource};
use rkt_exchange::{Ended, EndedOf, Run};
use rkt_response::{Body, Response};
use rkt_routing::{Answer, Call, Which};
use sample_app::gate_at;
use std::alloc::Global;

fn push_which(which: Which, out: &mut String) -> Result<(), NoMemory> {
    match which {
        Which::Request(place) => write!(out, "request {place}"),
        Which::Route(position) => write!(out, "route {position}"),
        Which::Catcher(position) => write!(out, "catcher {position}"),
        Which::Response(place) => write!(out, "response {place}"),
    }
}

fn push_route_answer(answer: Answer, out: &mut String) -> Result<(), NoMemory> {
    match answer {
        Answer::Success => out.push_str(" success"),
        Answer::Error(status) => write!(out, " error {}", status.code),
        Answer::Forward(status) => write!(out, " forward {}", status.code),
        _ => out.push_str(" failed turn"),
    }
}

fn push_answer(answer: Answer, out: &mut String) -> Result<(), NoMemory> {
    match answer {
        Answer::Done => out.push_str(" done"),
        Answer::Caught => out.push_str(" caught"),
        Answer::Refused(status) => write!(out, " refused {}", status.code),
        _ => push_route_answer(answer, out),
    }
}

/// Adds a count that is not 0.
fn push_count(name: &str, count: u64, out: &mut String) -> Result<(), NoMemory> {
    if count == 0 {
        return Ok(());
    }
    write!(out, " ({name} {count})")
}

/// Adds how far log, cache and wire were behind a call.
fn push_counts(call: &Call, out: &mut String) -> Result<(), NoMemory> {
    push_count("changes", call.changes as u64, out)?;
    push_count("cached", call.cached as u64, out)?;
    push_count("word", call.word, out)
}

fn push_call(call: &Call, out: &mut String) -> Result<(), NoMemory> {
    if !out.is_empty() {
        out.push_str(", ")?;
    }
    push_which(call.which, out)?;
    push_answer(call.answer, out)?;
    push_counts(call, out)
}

fn push_calls(calls: &[Call], out: &mut String) -> Result<(), NoMemory> {
    if calls.is_empty() {
        return out.push_str("no calls");
    }
    for call in calls {
        push_call(call, out)?;
    }
    Ok(())
}

/// Adds how many polls there were, and the moment of the run, where they were several.
fn push_polls(polls: u64, moment: u64, out: &mut String) -> Result<(), NoMemory> {
    if polls == 1 {
        return Ok(());
    }
    write!(out, "; {polls} polls, at {moment}")
}

fn push_run(run: &Run<Site>, polls: u64, out: &mut String) -> Result<(), NoMemory> {
    push_calls(run.calls.as_slice(), out)?;
    push_polls(polls, run.moment, out)
}

fn push_size(size: Option<usize>, out: &mut String) -> Result<(), NoMemory> {
    match size {
        Some(size) => write!(out, " {size}"),
        None => out.push_str(" unsized"),
    }
}

/// Adds a header. A value with a line feed is written in quotes, with escapes.
fn push_header(name: &str, value: &str, out: &mut String) -> Result<(), NoMemory> {
    if value.contains('\n') {
        return write!(out, " [{name}: {value:?}]");
    }
    write!(out, " [{name}: {value}]")
}

fn push_head(response: &mut Response<MemorySource>, out: &mut String) -> Result<(), NoMemory> {
    write!(out, "; {}", response.status().code)?;
    push_size(response.body_mut().size(), out)?;
    for (name, value) in response.headers().iter() {
        push_header(name, value, out)?;
    }
    Ok(())
}

/// Adds a text of one line.
fn push_text(text: &str, count: usize, out: &mut String) -> Result<(), NoMemory> {
    if text.contains('\n') {
        return write!(out, " ({count} bytes)");
    }
    write!(out, " {text}")
}

/// Adds a text of one line as it is, and of anything else how many bytes it has.
fn push_bytes(bytes: &[u8], out: &mut String) -> Result<(), NoMemory> {
    if bytes.is_empty() {
        return Ok(());
    }
    match std::str::from_utf8(bytes) {
        Ok(text) => push_text(text, bytes.len(), out),
        Err(_) => write!(out, " ({} bytes)", bytes.len()),
    }
}

/// What gathering a body answers.
fn gathered(alloc: Global, body: Body<MemorySource>) -> Poll<Result<Vec<u8>, DataError>> {
    let mut all = body.to_bytes();
    all.poll(alloc, gate_at(0))
}

fn push_body(alloc: Global, body: Body<MemorySource>, out: &mut String) -> Result<(), NoMemory> {
    match gathered(alloc, body) {
        Poll::Ready(Ok(bytes)) => push_bytes(bytes.as_slice(), out),
        Poll::Ready(Err(_)) => out.push_str(" (fault)"),
        Poll::Pending => out.push_str(" (pending)"),
    }
}

fn push_response(
    alloc: Global,
    response: &mut Response<MemorySource>,
    out: &mut String,
) -> Result<(), NoMemory> {
    push_head(response, out)?;
    push_body(alloc, response.body_mut().take(), out)
}

/// Adds the name of a cookie that was added to the jar, or removed from it.
fn push_change(change: &Change, out: &mut String) -> Result<(), NoMemory> {
    out.push_str(if change.removal { " -" } else { " +" })?;
    out.push_str(change.cookie.name())
}

fn push_log(log: &[Change], out: &mut String) -> Result<(), NoMemory> {
    out.push_str("; jar")?;
    for change in log {
        push_change(change, out)?;
    }
    Ok(())
}

fn push_finished(
    alloc: Global,
    polls: u64,
    run: &Run<Site>,
    response: &mut Response<MemorySource>,
    when: When,
    out: &mut String,
) -> Result<(), NoMemory> {
    push_run(run, polls, out)?;
    push_response(alloc, response, out)?;
    if when.shows_jar {
        return push_log(run.jar.log(), out);
    }
    Ok(())
}

/// Adds the calls, how many polls there were where they were several, and the response.
pub fn push_ended(
    alloc: Global,
    polls: u64,
    ended: &mut Ended<Site>,
    when: When,
    out: &mut String,
) -> Result<(), CaseError> {
    match ended {
        EndedOf::Finished { run, response, .. } => {
            written(push_finished(alloc, polls, run, response, when, out))
        }
        EndedOf::Starved { .. } => Err(CaseError::NoMemory),
    }
}

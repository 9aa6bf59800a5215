//! The events of a launch of the sample.
use crate::words::script;
use cases::CaseError;
use rkt_base::Want;
use rkt_data::MemorySource;
use rkt_demo::{ByHandler, SampleHistory, ScriptRequest, launch_sample, parse_script};
use rkt_request::ConfigTable;
use rkt_serve::{Called, EventOf, ListClock, MemoryLink};
use std::alloc::{AllocError, Global};
use std::sync::Wait;
use std::thread::Threads;

fn called_text(called: Called) -> &'static str {
    match called {
        Called::Done => " done",
        Called::FailedTurn => " failed",
        Called::Starved => " starved",
    }
}

fn push_calls(out: &mut String, name: &str, calls: &[Called]) -> Result<(), AllocError> {
    out.push_str(name)?;
    for called in calls {
        out.push_str(called_text(*called))?;
    }
    Ok(())
}

fn push_event(
    out: &mut String,
    event: &EventOf<u64, MemorySource, MemoryLink>,
) -> Result<(), AllocError> {
    match event {
        EventOf::Lift { calls } => push_calls(out, "Lift", calls.as_slice()),
        EventOf::Trip { word, .. } => write!(out, "; Trip {}", *word),
        EventOf::Admit { number, .. } => write!(out, "; Admit {}", *number),
        EventOf::End { number, .. } => write!(out, "; End {}", *number),
        EventOf::Down { calls } => push_calls(out, "; Down", calls.as_slice()),
        EventOf::Close { .. } => out.push_str("; Close"),
    }
}

fn history_text(alloc: Global, history: &SampleHistory) -> Result<String, AllocError> {
    let mut out = String::new(alloc);
    for event in history.events.as_slice() {
        push_event(&mut out, event)?;
    }
    Ok(out)
}

/// The requests of a script.
pub fn requests(alloc: Global, text: &str) -> Result<Vec<ScriptRequest>, CaseError> {
    let script = script(alloc, text)?;
    match parse_script(alloc, script.as_bytes()) {
        Ok(requests) => Ok(requests),
        Err(Want::Refused(_)) => Err(CaseError::Line),
        Err(Want::NoMemory) => Err(CaseError::NoMemory),
    }
}

fn launched<R: Wait + Threads>(
    rt: &R,
    alloc: Global,
    requests: Vec<ScriptRequest>,
) -> Result<SampleHistory, CaseError> {
    let table = ConfigTable::new(alloc);
    let clock = ListClock::new(Vec::new(alloc));
    match launch_sample::<ByHandler, R, ListClock>(rt, alloc, table, requests, clock) {
        Ok(history) => Ok(history),
        Err(_) => Err(CaseError::NoMemory),
    }
}

/// The events of one launch, over the reason of a handler, which is offered the requests of a script.
pub fn events<R: Wait + Threads>(rt: &R, alloc: Global, text: &str) -> Result<String, CaseError> {
    let requests = requests(alloc, text)?;
    let history = launched(rt, alloc, requests)?;
    let text = history_text(alloc, &history);
    drop(history);
    Ok(text?)
}

use crate::alarm::alarm;
use crate::built::{ignite, told};
use crate::exchange::{exchange, parted};
use crate::launch::launch;
use crate::order::order;
use crate::pieces::{cut_case, send_case};
use crate::setting::{Setting, set_fairings, set_faults, set_header, set_routes};
use cases::{CaseError, first_word};
use std::alloc::Global;
use std::sync::Wait;
use std::thread::Threads;

fn set(
    alloc: Global,
    setting: &mut Setting,
    command: &str,
    rest: &str,
) -> Result<String, CaseError> {
    match command {
        "routes" => set_routes(alloc, setting, rest)?,
        "fairings" => set_fairings(alloc, setting, rest)?,
        "faults" => set_faults(alloc, setting, rest)?,
        _ => set_header(alloc, setting, rest)?,
    }
    Ok(String::from_str(alloc, "set")?)
}

/// What is asked of the objects that a launch is handed.
fn asked(alloc: Global, setting: &Setting, command: &str, rest: &str) -> Result<String, CaseError> {
    match command {
        "exchange" => exchange(alloc, setting, rest),
        "parted" => parted(alloc, setting),
        _ => Err(CaseError::Line),
    }
}

/// What comes of a launch.
fn launching<R: Wait + Threads>(
    rt: &R,
    alloc: Global,
    setting: &Setting,
    command: &str,
    rest: &str,
) -> Result<String, CaseError> {
    match command {
        "launch" => launch(rt, alloc, setting, rest),
        "ignite" => ignite(rt, alloc, setting, rest),
        "order" => order(rt, alloc, setting, rest),
        "alarm" => alarm(rt, alloc, setting, rest),
        _ => told(rt, alloc, setting, rest),
    }
}

/// What a case answers.
pub fn answer<R: Wait + Threads>(
    rt: &R,
    alloc: Global,
    setting: &mut Setting,
    line: &str,
) -> Result<String, CaseError> {
    let (command, rest) = first_word(line);
    match command {
        "routes" | "fairings" | "header" | "faults" => set(alloc, setting, command, rest),
        "launch" | "order" | "alarm" | "ignite" | "told" => launching(
            rt, alloc, setting, command, rest,
        ),
        "send" => send_case(rt, alloc, setting, rest),
        "cut" => cut_case(rt, alloc, setting, rest),
        _ => asked(alloc, setting, command, rest),
    }
}

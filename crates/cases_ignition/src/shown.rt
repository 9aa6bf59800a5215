//! What ignition answers, as text.
use crate::actor::Actor;
use crate::site::Site;
use rkt_base::NoMemory;
use rkt_fairing::{Callback, Info};
use rkt_ignition::{Aborted, IgniteAnswer, IgniteCall, IgniteError, IgnitedParts};
use rkt_router::Collisions;

/// Adds what has ignited.
pub fn push_ignited(out: &mut String, parts: &IgnitedParts<Site, Actor>) -> Result<(), NoMemory> {
    let routes = parts.router.routes().len();
    let catchers = parts.router.catchers().len();
    let fairings = parts.fairings.count(Callback::Ignite);
    write!(out, "ok routes {routes} catchers {catchers} ")?;
    write!(out, "fairings {fairings} {}", parts.config.ident.as_str())
}

fn answer_text(answer: IgniteAnswer) -> &'static str {
    match answer {
        IgniteAnswer::Done => "done",
        IgniteAnswer::Err => "err",
        IgniteAnswer::FailedTurn => "failed",
    }
}

fn push_calls(out: &mut String, calls: &[IgniteCall]) -> Result<(), NoMemory> {
    write!(out, "; {} calls", calls.len())?;
    for call in calls.iter().take(4) {
        write!(out, " {} {}", call.info.name, answer_text(call.answer))?;
    }
    Ok(())
}

fn push_infos(out: &mut String, infos: &[Info]) -> Result<(), NoMemory> {
    for info in infos {
        write!(out, " {}", info.name)?;
    }
    Ok(())
}

fn push_pairs(out: &mut String, pairs: &[(usize, usize)]) -> Result<(), NoMemory> {
    for (first, second) in pairs {
        write!(out, " ({first}, {second})")?;
    }
    Ok(())
}

fn push_collisions(out: &mut String, found: &Collisions) -> Result<(), NoMemory> {
    out.push_str(" routes")?;
    push_pairs(out, found.routes.as_slice())?;
    out.push_str(" catchers")?;
    push_pairs(out, found.catchers.as_slice())
}

fn push_aborted(out: &mut String, aborted: &[Aborted]) -> Result<(), NoMemory> {
    for one in aborted {
        write!(out, " {}@{}", one.type_name, one.location.2)?;
    }
    Ok(())
}

/// Adds why it has not.
pub fn push_error(out: &mut String, error: &IgniteError) -> Result<(), NoMemory> {
    write!(out, "{error}:")?;
    match error {
        IgniteError::IgniteLimit { calls } => push_calls(out, calls.as_slice()),
        IgniteError::FailedFairings { infos, calls } => {
            push_infos(out, infos.as_slice())?;
            push_calls(out, calls.as_slice())
        }
        IgniteError::Config(bad) => { write!(out, " {} {}", bad.name.as_str(), bad.text.as_str()) }
        IgniteError::Collisions(found) => push_collisions(out, found),
        IgniteError::SentinelAborts(aborted) => push_aborted(out, aborted.as_slice()),
    }
}

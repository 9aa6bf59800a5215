//! What is shown of fairings.
use crate::named::Named;
use rkt_base::NoMemory;
use rkt_fairing::{Attach, Callback, Fairings, Info};

fn push_names(
    out: &mut String,
    fairings: &Fairings<Named>,
    callback: Callback,
) -> Result<(), NoMemory> {
    for n in 0..fairings.count(callback) {
        if let Some(fairing) = fairings.get(callback, n) {
            push_name(out, fairing.info())?;
        }
    }
    Ok(())
}

fn push_name(out: &mut String, info: Info) -> Result<(), NoMemory> {
    out.push_str(" ")?;
    out.push_str(info.name)?;
    Ok(())
}

/// Adds the names by event.
pub fn push_fairings(out: &mut String, fairings: &Fairings<Named>) -> Result<(), NoMemory> {
    out.push_str("ignite:")?;
    push_names(out, fairings, Callback::Ignite)?;
    out.push_str(" liftoff:")?;
    push_names(out, fairings, Callback::Liftoff)?;
    out.push_str(" request:")?;
    push_names(out, fairings, Callback::Request)?;
    out.push_str(" response:")?;
    push_names(out, fairings, Callback::Response)?;
    out.push_str(" shutdown:")?;
    push_names(out, fairings, Callback::Shutdown)
}

/// Adds what an audit answers.
pub fn push_audit(out: &mut String, fairings: &Fairings<Named>) -> Result<(), NoMemory> {
    match fairings.audit() {
        Ok(()) => out.push_str("ok"),
        Err(infos) => {
            for info in infos {
                push_name(out, *info)?;
            }
            Ok(())
        }
    }
}

/// Adds the positions of those that are called, event by event.
pub fn push_active(out: &mut String, fairings: &Fairings<Named>) -> Result<(), NoMemory> {
    for place in fairings.active() {
        write!(out, " {place}")?;
    }
    Ok(())
}

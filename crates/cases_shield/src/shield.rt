//! The shield, which is kept from line to line.
use crate::policy::{push_header, read_policy};
use cases::{CaseError, first_word};
use rkt_base::NoMemory;
use rkt_shield::{
    ExpectCt, Frame, Hsts, NoSniff, Permission, Prefetch, Referrer, Shield, XssFilter,
};
use std::alloc::Global;
use std::mem;

fn take(alloc: Global, shield: &mut Shield) -> Shield {
    mem::replace(shield, Shield::new(alloc))
}

/// Enables the policy that a line says. A refused one leaves the shield as it is.
fn enable(alloc: Global, shield: &mut Shield, text: &str) -> Result<(), CaseError> {
    let policy = read_policy(alloc, text)?;
    *shield = policy.enable(take(alloc, shield))?;
    Ok(())
}

fn without_age(shield: Shield, name: &str) -> Result<Shield, CaseError> {
    match name {
        "referrer" => Ok(shield.disable::<Referrer>()),
        "no_sniff" => Ok(shield.disable::<NoSniff>()),
        "frame" => Ok(shield.disable::<Frame>()),
        "xss_filter" => Ok(shield.disable::<XssFilter>()),
        "prefetch" => Ok(shield.disable::<Prefetch>()),
        _ => Err(CaseError::Line),
    }
}

fn without(shield: Shield, name: &str) -> Result<Shield, CaseError> {
    match name {
        "expect_ct" => Ok(shield.disable::<ExpectCt>()),
        "hsts" => Ok(shield.disable::<Hsts>()),
        "permission" => Ok(shield.disable::<Permission>()),
        _ => without_age(shield, name),
    }
}

fn disable(alloc: Global, shield: &mut Shield, name: &str) -> Result<(), CaseError> {
    *shield = without(take(alloc, shield), name)?;
    Ok(())
}

/// Changes the shield as a line says.
fn change(alloc: Global, shield: &mut Shield, text: &str) -> Result<(), CaseError> {
    let (command, rest) = first_word(text);
    match command {
        "new" => *shield = Shield::new(alloc),
        "default" => *shield = Shield::default(alloc)?,
        "enable" => enable(alloc, shield, rest)?,
        "disable" => disable(alloc, shield, rest)?,
        _ => return Err(CaseError::Line),
    }
    Ok(())
}

fn has_plain(shield: &Shield, name: &str) -> Result<bool, CaseError> {
    match name {
        "referrer" => Ok(shield.is_enabled::<Referrer>()),
        "no_sniff" => Ok(shield.is_enabled::<NoSniff>()),
        "frame" => Ok(shield.is_enabled::<Frame>()),
        "xss_filter" => Ok(shield.is_enabled::<XssFilter>()),
        "prefetch" => Ok(shield.is_enabled::<Prefetch>()),
        _ => Err(CaseError::Line),
    }
}

fn has(shield: &Shield, name: &str) -> Result<bool, CaseError> {
    match name {
        "expect_ct" => Ok(shield.is_enabled::<ExpectCt>()),
        "hsts" => Ok(shield.is_enabled::<Hsts>()),
        "permission" => Ok(shield.is_enabled::<Permission>()),
        _ => has_plain(shield, name),
    }
}

fn show(out: &mut String, shield: &Shield) -> Result<(), NoMemory> {
    for header in shield.headers() {
        push_header(out, header.name().as_str(), header.value())?;
    }
    Ok(())
}

/// Adds what the shield answers to a line.
pub fn shield_answer(
    alloc: Global,
    shield: &mut Shield,
    text: &str,
    out: &mut String,
) -> Result<(), CaseError> {
    match text.strip_prefix("enabled ") {
        Some(name) => {
            let enabled = has(shield, name)?;
            Ok(write!(out, "{enabled}")?)
        }
        None => {
            change(alloc, shield, text)?;
            Ok(show(out, shield)?)
        }
    }
}

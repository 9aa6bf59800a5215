//! Policies, as lines say them.
use crate::permission::read_permission;
use crate::plain::read_plain;
use cases::{CaseError, first_word, pair, parsed, written};
use rkt_base::NoMemory;
use rkt_http::{Absolute, Header};
use rkt_shield::{
    ExpectCt, Frame, Hsts, NoSniff, Permission, Policy, Prefetch, Referrer, Shield, XssFilter,
};
use std::alloc::Global;

/// A policy of any type.
#[derive(Drop)]
pub enum AnyPolicy {
    Referrer(Referrer),
    ExpectCt(ExpectCt),
    NoSniff(NoSniff),
    Hsts(Hsts),
    Frame(Frame),
    XssFilter(XssFilter),
    Prefetch(Prefetch),
    Permission(Permission),
}

impl AnyPolicy {
    pub fn header(&self, alloc: Global) -> Result<Header, NoMemory> {
        match self {
            AnyPolicy::Referrer(policy) => policy.header(alloc),
            AnyPolicy::ExpectCt(policy) => policy.header(alloc),
            AnyPolicy::NoSniff(policy) => policy.header(alloc),
            AnyPolicy::Hsts(policy) => policy.header(alloc),
            AnyPolicy::Frame(policy) => policy.header(alloc),
            AnyPolicy::XssFilter(policy) => policy.header(alloc),
            AnyPolicy::Prefetch(policy) => policy.header(alloc),
            AnyPolicy::Permission(policy) => policy.header(alloc),
        }
    }

    /// The shield with this policy.
    pub fn enable(&self, shield: Shield) -> Result<Shield, NoMemory> {
        match self {
            AnyPolicy::Referrer(policy) => shield.enable(policy),
            AnyPolicy::ExpectCt(policy) => shield.enable(policy),
            AnyPolicy::NoSniff(policy) => shield.enable(policy),
            AnyPolicy::Hsts(policy) => shield.enable(policy),
            AnyPolicy::Frame(policy) => shield.enable(policy),
            AnyPolicy::XssFilter(policy) => shield.enable(policy),
            AnyPolicy::Prefetch(policy) => shield.enable(policy),
            AnyPolicy::Permission(policy) => shield.enable(policy),
        }
    }
}

fn read_hsts_age(text: &str) -> Result<Hsts, CaseError> {
    let (variant, age) = pair(text, " ")?;
    let age = parsed::<u64>(age)?;
    match variant {
        "Enable" => Ok(Hsts::Enable(age)),
        "IncludeSubDomains" => Ok(Hsts::IncludeSubDomains(age)),
        "Preload" => Ok(Hsts::Preload(age)),
        _ => Err(CaseError::Line),
    }
}

fn read_hsts(text: &str) -> Result<Hsts, CaseError> {
    match text {
        "default" => Ok(Hsts::default()),
        _ => read_hsts_age(text),
    }
}

fn read_report(alloc: Global, enforce: bool, text: &str) -> Result<ExpectCt, CaseError> {
    let (age, uri) = pair(text, " ")?;
    let age = parsed::<u64>(age)?;
    let uri = Absolute::parse(alloc, uri)?;
    if enforce {
        Ok(ExpectCt::ReportAndEnforce(age, uri))
    } else {
        Ok(ExpectCt::Report(age, uri))
    }
}

fn read_expect_ct(alloc: Global, text: &str) -> Result<ExpectCt, CaseError> {
    let (variant, rest) = first_word(text);
    match variant {
        "default" => Ok(ExpectCt::default()),
        "Enforce" => Ok(ExpectCt::Enforce(parsed::<u64>(rest)?)),
        "Report" => read_report(alloc, false, rest),
        "ReportAndEnforce" => read_report(alloc, true, rest),
        _ => Err(CaseError::Line),
    }
}

/// The policy that a line says.
pub fn read_policy(alloc: Global, text: &str) -> Result<AnyPolicy, CaseError> {
    let (name, rest) = first_word(text);
    match name {
        "hsts" => Ok(AnyPolicy::Hsts(read_hsts(rest)?)),
        "expect_ct" => Ok(AnyPolicy::ExpectCt(read_expect_ct(alloc, rest)?)),
        "permission" => Ok(AnyPolicy::Permission(read_permission(alloc, rest)?)),
        _ => read_plain(name, rest),
    }
}

/// Adds a header behind what stands there.
pub fn push_header(out: &mut String, name: &str, value: &str) -> Result<(), NoMemory> {
    if !out.is_empty() {
        out.push_str(" | ")?;
    }
    write!(out, "{name}: {value}")
}

fn push_header_of(alloc: Global, policy: &AnyPolicy, out: &mut String) -> Result<(), NoMemory> {
    let header = policy.header(alloc)?;
    push_header(out, header.name().as_str(), header.value())
}

/// Adds the header of the policy that a line says.
pub fn header_answer(alloc: Global, text: &str, out: &mut String) -> Result<(), CaseError> {
    let policy = read_policy(alloc, text)?;
    let pushed = push_header_of(alloc, &policy, out);
    drop(policy);
    written(pushed)
}

//! Cases of hosts, absolute URIs and references.
use crate::refusal::Refusal;
use rkt_base::NoMemory;
use rkt_uri::{Absolute, Host, Reference};
use std::alloc::Global;

/// Adds the domain and the port, as a copy has them.
fn push_host_parts(alloc: Global, host: &Host, out: &mut String) -> Result<(), NoMemory> {
    let copy = host.try_clone(alloc)?;
    let (domain, port) = (copy.domain(), copy.port());
    write!(out, "domain={domain:?} port={port:?}")
}

/// Adds the parts of a host.
pub fn push_host(alloc: Global, text: &str, out: &mut String) -> Result<(), Refusal> {
    let host = Host::parse(alloc, text)?;
    Ok(push_host_parts(alloc, &host, out)?)
}

/// Adds the scheme, the host and the port, as a copy has them.
fn push_absolute_parts(
    alloc: Global,
    absolute: &Absolute,
    out: &mut String,
) -> Result<(), NoMemory> {
    let copy = absolute.try_clone(alloc)?;
    let (scheme, host, port) = (copy.scheme(), copy.host(), copy.port());
    write!(out, "scheme={scheme:?} host={host:?} port={port:?}")
}

/// Adds the parts of an absolute URI.
pub fn push_absolute(alloc: Global, text: &str, out: &mut String) -> Result<(), Refusal> {
    let absolute = Absolute::parse(alloc, text)?;
    Ok(push_absolute_parts(alloc, &absolute, out)?)
}

/// Adds the text of an absolute URI.
pub fn push_whole(alloc: Global, text: &str, out: &mut String) -> Result<(), Refusal> {
    let absolute = Absolute::parse(alloc, text)?;
    Ok(out.push_str(absolute.as_str())?)
}

fn push_reference_text(
    alloc: Global,
    reference: &Reference,
    out: &mut String,
) -> Result<(), NoMemory> {
    let copy = reference.try_clone(alloc)?;
    write!(out, "{:?}", copy.as_str())
}

/// Adds the text of a reference, as a copy has it.
pub fn push_reference(alloc: Global, text: &str, out: &mut String) -> Result<(), Refusal> {
    let reference = Reference::parse(alloc, text)?;
    Ok(push_reference_text(alloc, &reference, out)?)
}

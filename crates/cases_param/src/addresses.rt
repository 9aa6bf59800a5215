//! Truth values and addresses, by the names of their types.
use crate::read::read;
use cases::CaseError;
use std::alloc::Global;
use std::net::{IpAddr, Ipv4Addr, Ipv6Addr, SocketAddr, SocketAddrV4, SocketAddrV6};

/// Adds what a text gives as a value of a type.
pub fn address_answer(
    alloc: Global,
    name: &str,
    text: &str,
    out: &mut String,
) -> Result<(), CaseError> {
    match name {
        "bool" => read::<bool>(alloc, text, out),
        "IpAddr" => read::<IpAddr>(alloc, text, out),
        "Ipv4Addr" => read::<Ipv4Addr>(alloc, text, out),
        "Ipv6Addr" => read::<Ipv6Addr>(alloc, text, out),
        _ => socket_answer(alloc, name, text, out),
    }
}

fn socket_answer(alloc: Global, name: &str, text: &str, out: &mut String) -> Result<(), CaseError> {
    match name {
        "SocketAddr" => read::<SocketAddr>(alloc, text, out),
        "SocketAddrV4" => read::<SocketAddrV4>(alloc, text, out),
        "SocketAddrV6" => read::<SocketAddrV6>(alloc, text, out),
        _ => Err(CaseError::Line),
    }
}

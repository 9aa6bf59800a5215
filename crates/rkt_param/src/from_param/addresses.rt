//! Truth values and addresses, as std reads them.
ghost use Rattle.rkt_param.specs.Reads.{StdReads};

use super::{FromParam, read};
use rkt_base::Want;
use std::alloc::Global;
use std::net::{IpAddr, Ipv4Addr, Ipv6Addr, SocketAddr, SocketAddrV4, SocketAddrV6};
use std::str::FromStr;

impl FromParam for bool {
    type Error = String;

    ghost reads = { StdReads ⟦<bool as FromStr>⟧.from_str_gives };

    fn from_param(alloc: Global, param: &str) -> Result<bool, Want<String>> {
        read(alloc, param)
    }
}

impl FromParam for IpAddr {
    type Error = String;

    ghost reads = { StdReads ⟦<IpAddr as FromStr>⟧.from_str_gives };

    fn from_param(alloc: Global, param: &str) -> Result<IpAddr, Want<String>> {
        read(alloc, param)
    }
}

impl FromParam for Ipv4Addr {
    type Error = String;

    ghost reads = { StdReads ⟦<Ipv4Addr as FromStr>⟧.from_str_gives };

    fn from_param(alloc: Global, param: &str) -> Result<Ipv4Addr, Want<String>> {
        read(alloc, param)
    }
}

impl FromParam for Ipv6Addr {
    type Error = String;

    ghost reads = { StdReads ⟦<Ipv6Addr as FromStr>⟧.from_str_gives };

    fn from_param(alloc: Global, param: &str) -> Result<Ipv6Addr, Want<String>> {
        read(alloc, param)
    }
}

impl FromParam for SocketAddr {
    type Error = String;

    ghost reads = { StdReads ⟦<SocketAddr as FromStr>⟧.from_str_gives };

    fn from_param(alloc: Global, param: &str) -> Result<SocketAddr, Want<String>> {
        read(alloc, param)
    }
}

impl FromParam for SocketAddrV4 {
    type Error = String;

    ghost reads = { StdReads ⟦<SocketAddrV4 as FromStr>⟧.from_str_gives };

    fn from_param(alloc: Global, param: &str) -> Result<SocketAddrV4, Want<String>> {
        read(alloc, param)
    }
}

impl FromParam for SocketAddrV6 {
    type Error = String;

    ghost reads = { StdReads ⟦<SocketAddrV6 as FromStr>⟧.from_str_gives };

    fn from_param(alloc: Global, param: &str) -> Result<SocketAddrV6, Want<String>> {
        read(alloc, param)
    }
}

ghost use Rattle.std.specs.Prelude.{◌≡◌, IfOk, IfNone, IfSome, option_copied};
ghost use Rattle.rkt_base.specs.Want.{IfRefused, GivesUnlessNoMemory};
ghost use Rattle.rkt_grammar.specs.Grammar.{LeavesAt};
ghost use Rattle.rkt_uri.specs.Host.{Authority, SpellsHost, IsHost, authority_of, domain_in, port_behind, port_on, port_in};

use crate::host_place::{HostPlace, more_port};
use crate::origin::InvalidUri;
use rkt_base::{NoMemory, Text, Want};
use rkt_grammar::{before_first, first_fault};
use std::alloc::Global;
use std::marker::Model;

/// A host, by name or by an address between brackets, and maybe a port.
#[derive(Debug, Drop)]
pub struct Host {
    domain: Text,
    port: Option<u16>,
}

impl Model for Host {
    ghost use Rattle.rkt_uri.specs.Host.{Authority};

    ghost Value = { Authority };

    ghost view = { λ h. record { domain = h.domain; port = h.port } };
}

/// The port that all digits give.
fn port_of_digits(digits: &[u8]) -> Option<u16>
    ensures { result ≡ port_on 0 digits.now }
{
    let mut port = 0;
    for byte in digits {
        match more_port(port, *byte) {
            Some(next) => port = next,
            None => return None,
        }
    }
    Some(port)
}

/// The port behind the first colon.
fn port_of_text(text: &str) -> Option<u16>
    ensures { result ≡ port_in text.now }
{
    match text.split_once(':') {
        Some((_, digits)) => port_of_digits(digits.as_bytes()),
        None => None,
    }
}

/// A name, or an address with its brackets.
pub(crate) fn domain_of_text(text: &str) -> &str
    ensures { result.now ≡ domain_in text.now }
{
    match text.find(']') {
        Some(at) => &text[..at + 1],
        None => before_first(text, ':'),
    }
}

/// The port behind it.
pub(crate) fn port_of_authority(text: &str) -> Option<u16>
    ensures { result ≡ port_behind text.now }
{
    match text.split_once(']') {
        Some((_, behind)) => port_of_text(behind),
        None => port_of_text(text),
    }
}

/// The place at which a text leaves the grammar of hosts.
fn fault(text: &str) -> Option<usize>
    ensures none { IfNone result (IsHost text.now) }
    ensures some { IfSome result (LeavesAt IsHost text.now) }
{
    first_fault(HostPlace::Start, text)
}

/// What a text says as a host.
fn read(alloc: Global, text: &str) -> Result<Host, NoMemory>
    ensures { IfOk result (λ h. h ≡ authority_of text.now) }
{
    Ok(Host {
        domain: Text::new(alloc, domain_of_text(text))?,
        port: port_of_authority(text),
    })
}

impl Host {
    pub fn parse(alloc: Global, text: &str) -> Result<Host, Want<InvalidUri>>
        // What is accepted is spelled so.
        ensures accepted { IfOk result (λ h. SpellsHost text.now h) }
        // What is spelled so is accepted, unless memory runs out.
        ensures complete { (h : Authority) → SpellsHost text.now h → GivesUnlessNoMemory result h }
        // A refusal names the place where the text leaves the grammar.
        ensures refused { IfRefused result (λ e. LeavesAt IsHost text.now e.at) }
    {
        match fault(text) {
            Some(at) => Err(Want::Refused(InvalidUri { at })),
            None => Ok(read(alloc, text)?),
        }
    }

    /// The name, or the address with its brackets.
    pub fn domain(&self) -> &str
        ensures { result.now ≡ self.now.domain }
    {
        self.domain.as_str()
    }

    pub fn port(&self) -> Option<u16>
        ensures { result ≡ self.now.port }
    {
        self.port
    }

    /// The same host, in a text of its own.
    pub fn try_clone(&self, alloc: Global) -> Result<Host, NoMemory>
        ensures { IfOk result (λ h. h ≡ self.now) }
    {
        Ok(Host {
            domain: self.domain.try_clone(alloc)?,
            port: self.port,
        })
    }
}

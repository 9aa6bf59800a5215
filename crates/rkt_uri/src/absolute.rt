ghost use Rattle.std.specs.Prelude.{◌≡◌, IfOk, IfNone, IfSome};
ghost use Rattle.std.specs.Option.{option_copied, option_map, option_and_then};
ghost use Rattle.rkt_base.specs.Want.{IfRefused, GivesUnlessNoMemory};
ghost use Rattle.rkt_grammar.specs.Grammar.{LeavesAt};
ghost use Rattle.rkt_uri.specs.Absolute.{Site, AbsoluteUri, SpellsAbsolute, IsAbsolute, host_of, port_of, host_and_port, authority_in, behind_slashes};

use crate::absolute_place::AbsolutePlace;
use crate::host::{domain_of_text, port_of_authority};
use crate::origin::InvalidUri;
use rkt_base::{NoMemory, Text, Want};
use rkt_grammar::{before_first, behind_first, first_fault};
use std::alloc::Global;
use std::marker::Model;

/// An absolute URI: a scheme, and then an authority with maybe an origin, or a path (RFC 3986, 4.3).
#[derive(Debug, Drop)]
pub struct Absolute {
    text: Text,
}

impl Model for Absolute {
    ghost use Rattle.std.specs.Prelude.{List, ℕ};
    ghost use Rattle.rkt_uri.specs.Absolute.{IsAbsolute};

    ghost Value = { List ℕ };

    ghost view = { λ a. a.text };

    ghost invariant = { λ a. IsAbsolute a.text };
}

/// What stands behind two slashes, if a text begins with them.
fn behind_slashes(text: &str) -> Option<&str>
    ensures { option_copied result ≡ behind_slashes text.now }
{
    text.strip_prefix("//")
}

/// The host and the port of what stands behind two slashes.
fn host_and_port_of(text: &str) -> &str
    ensures { result.now ≡ host_and_port text.now }
{
    let authority = before_first(before_first(text, '/'), '?');
    behind_first(authority, '@').unwrap_or(authority)
}

/// The host and the port of a text, if two slashes stand behind its scheme.
fn authority_of_text(text: &str) -> Option<&str>
    ensures { option_copied result ≡ authority_in text.now }
{
    let hierarchy = behind_first(text, ':')?;
    Some(host_and_port_of(behind_slashes(hierarchy)?))
}

/// The host that a text says, without its port.
fn host_of_text(text: &str) -> Option<&str>
    ensures { option_copied result ≡ host_of text.now }
{
    Some(domain_of_text(authority_of_text(text)?))
}

/// The port that a text says behind its host.
fn port_of_text(text: &str) -> Option<u16>
    ensures { result ≡ port_of text.now }
{
    port_of_authority(authority_of_text(text)?)
}

/// The place at which a text leaves the grammar of absolute URIs.
fn fault(text: &str) -> Option<usize>
    ensures none { IfNone result (IsAbsolute text.now) }
    ensures some { IfSome result (LeavesAt IsAbsolute text.now) }
{
    first_fault(AbsolutePlace::Start, text)
}

impl Absolute {
    pub fn parse(alloc: Global, text: &str) -> Result<Absolute, Want<InvalidUri>>
        // What is accepted spells an absolute URI, and is kept as it is.
        ensures accepted { IfOk result (λ a. IsAbsolute text.now × (a ≡ text.now)) }
        // What spells one is accepted, unless memory runs out.
        ensures complete { IsAbsolute text.now → GivesUnlessNoMemory result text.now }
        // A refusal names the place where the text leaves the grammar.
        ensures refused { IfRefused result (λ e. LeavesAt IsAbsolute text.now e.at) }
    {
        match fault(text) {
            Some(at) => Err(Want::Refused(InvalidUri { at })),
            None => Ok(Absolute {
                text: Text::new(alloc, text)?,
            }),
        }
    }

    pub fn as_str(&self) -> &str
        ensures text { result.now ≡ self.now }
        ensures absolute { IsAbsolute result.now }
    {
        self.text.as_str()
    }

    pub fn scheme(&self) -> &str
        ensures { (uri : AbsoluteUri) → SpellsAbsolute self.now uri → result.now ≡ uri.scheme }
    {
        before_first(self.text.as_str(), ':')
    }

    /// The name, or the address with its brackets, if there is an authority. It may be empty.
    pub fn host(&self) -> Option<&str>
        ensures { (uri : AbsoluteUri)
            → SpellsAbsolute self.now uri
            → option_copied result ≡ option_map (λ (site : Site). site.host.domain) uri.site }
    {
        host_of_text(self.text.as_str())
    }

    pub fn port(&self) -> Option<u16>
        ensures { (uri : AbsoluteUri)
            → SpellsAbsolute self.now uri
            → result ≡ option_and_then (λ (site : Site). site.host.port) uri.site }
    {
        port_of_text(self.text.as_str())
    }

    /// The same, in a text of its own.
    pub fn try_clone(&self, alloc: Global) -> Result<Absolute, NoMemory>
        ensures { IfOk result (λ a. a ≡ self.now) }
    {
        Ok(Absolute {
            text: self.text.try_clone(alloc)?,
        })
    }
}

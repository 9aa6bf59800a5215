ghost use Rattle.std.specs.Prelude.{◌≡◌, ◌↔◌, IsTrue};
ghost use Rattle.rkt_shield.specs.Allow.{HasHost, NamesHost, is_any};
ghost use Rattle.rkt_shield.specs.SameRules.{is_this, is_origin};

use rkt_base::{NoMemory, TryClone};
use rkt_http::Absolute;
use std::alloc::Global;
use thiserror::Error;

/// Who may use a feature: an entry of a list in a permission.
#[derive(Debug, Drop)]
pub enum Allow {
    /// All pages.
    Any,
    /// Pages of the site itself.
    This,
    /// Pages of the origin of this URI.
    Origin(Absolute),
}

/// An origin that a permission lists has no host.
#[derive(Clone, Copy, Debug, PartialEq, Eq, Drop, Error)]
#[error("an origin has no host")]
pub struct OriginWithoutHost;

fn has_host(uri: &Absolute) -> bool
    ensures { IsTrue result ↔ HasHost uri.now }
{
    // As a text it spells an absolute URI, whose host this is.
    let _text = uri.as_str();
    match uri.host() {
        Some(host) => !host.is_empty(),
        None => false,
    }
}

impl TryClone for Allow {
    fn try_clone(&self, alloc: Global) -> Result<Allow, NoMemory> {
        match self {
            Allow::Any => Ok(Allow::Any),
            Allow::This => Ok(Allow::This),
            Allow::Origin(uri) => Ok(Allow::Origin(uri.try_clone(alloc)?)),
        }
    }
}

impl Allow {
    pub(crate) fn is_any(&self) -> bool
        ensures { result ≡ is_any self.now }
    {
        match self {
            Allow::Any => true,
            Allow::This | Allow::Origin(_) => false,
        }
    }

    fn is_this(&self) -> bool
        ensures { result ≡ is_this self.now }
    {
        match self {
            Allow::This => true,
            Allow::Any | Allow::Origin(_) => false,
        }
    }

    fn is_origin(&self, uri: &str) -> bool
        ensures { result ≡ is_origin uri.now self.now }
    {
        match self {
            Allow::Any | Allow::This => false,
            Allow::Origin(own) => uri == own.as_str(),
        }
    }

    /// Whether an origin has a host, if it is one.
    pub(crate) fn names_host(&self) -> bool
        ensures { IsTrue result ↔ NamesHost self.now }
    {
        match self {
            Allow::Any | Allow::This => true,
            Allow::Origin(uri) => has_host(uri),
        }
    }
}

/// Origins are equal where the texts of their URIs are.
impl PartialEq for Allow {
    ghost use Rattle.std.specs.Cmp.{partial_equiv_from_equiv};
    ghost use Rattle.rkt_shield.specs.SameRules.{same_allow};
    ghost use Rattle.rkt_shield.specs.SameRulesLaws.{same_allow_equiv};

    ghost eq = { same_allow };

    ghost laws = { partial_equiv_from_equiv same_allow_equiv };

    fn eq(&self, other: &Allow) -> bool {
        match self {
            Allow::Any => other.is_any(),
            Allow::This => other.is_this(),
            Allow::Origin(uri) => other.is_origin(uri.as_str()),
        }
    }
}

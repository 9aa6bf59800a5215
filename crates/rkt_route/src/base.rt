//! What routes and catchers stand below.
ghost use Rattle.std.specs.Prelude.{◌≡◌, IfOk};
ghost use Rattle.rkt_base.specs.Want.{IfRefused, GivesUnlessNoMemory};
ghost use Rattle.rkt_grammar.specs.Grammar.{LeavesAt};
ghost use Rattle.rkt_route.specs.RouteUri.{path_alone};
ghost use Rattle.rkt_uri.specs.Origin.{IsOrigin, IsTarget, Spells, Target, normalized};

use rkt_base::Want;
use rkt_http::{InvalidUri, Origin, Profile};
use std::alloc::Global;
use std::marker::Model;

/// An origin that others stand below: no segment of it is dynamic, as one of a route may be.
#[derive(Drop)]
pub struct Base {
    origin: Origin,
}

impl Model for Base {
    ghost use Rattle.rkt_uri.specs.Origin.{IsTarget, Target};
    ghost use Rattle.rkt_uri.specs.declared.origin_place.Profile.TheVariants.{Request};

    ghost Value = { Target };

    ghost view = { λ b. b.origin };

    ghost invariant = { λ b. IsTarget Request b.origin };
}

impl Base {
    /// The base that a text spells.
    pub fn parse(alloc: Global, text: &str) -> Result<Base, Want<InvalidUri>>
        ensures accepted { IfOk result (λ b. Spells Profile.Request text.now b) }
        // What is spelled is accepted, unless memory runs out.
        ensures complete { (b : Target) → Spells Profile.Request text.now b → GivesUnlessNoMemory result b }
        // A refusal names the place where the text leaves the grammar.
        ensures refused { IfRefused result (λ e. LeavesAt (IsOrigin Profile.Request) text.now e.at) }
    {
        Ok(Base {
            origin: Origin::parse(alloc, text)?,
        })
    }

    /// The base that a text spells, in normal form and without its query.
    pub(crate) fn parse_normal(alloc: Global, text: &str) -> Result<Base, Want<InvalidUri>>
        ensures accepted { IfOk result (λ b.
            (t : Target) × Spells Profile.Request text.now t × (b ≡ normalized (path_alone t))) }
        ensures refused { IfRefused result (λ e. LeavesAt (IsOrigin Profile.Request) text.now e.at) }
    {
        let mut origin = Origin::parse(alloc, text)?;
        origin.clear_query();
        Ok(Base {
            origin: origin.into_normalized(alloc)?,
        })
    }

    /// It as an origin.
    pub fn origin(&self) -> &Origin
        ensures value { result.now ≡ self.now }
        ensures fits { IsTarget Profile.Request self.now }
    {
        &self.origin
    }
}

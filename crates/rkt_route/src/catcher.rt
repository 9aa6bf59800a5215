ghost use Rattle.std.specs.Prelude.{◌≡◌, Some, None, Ok, IfOk, IfSome, codes, string_bytes};
ghost use Rattle.std.specs.Fn.{FnOnceTakesAt, FnOnceReturnsAt};
ghost use Rattle.rkt_base.specs.Want.{IfRefused, GivesUnlessNoMemory};
ghost use Rattle.rkt_grammar.specs.Grammar.{LeavesAt};
ghost use Rattle.rkt_uri.specs.Origin.{IsOrigin};
ghost use Rattle.rkt_route.specs.Catcher.{IsErrorCode, catcher_at_root, catcher_of_info, IsMovedTo};
ghost use Rattle.rkt_route.specs.RouteUri.{root};

use crate::Base;
use rkt_base::{NoMemory, Text, Want};
use rkt_http::{InvalidUri, Origin, Profile};
use std::alloc::{AllocError, Global};
use std::mem::replace;
use thiserror::Error;

/// A code that no catcher may have: it is no error's.
#[derive(Clone, Copy, Debug, PartialEq, Eq, Drop, Error)]
#[error("code {code} is no error's")]
pub struct BadCode {
    pub code: u16,
}

/// What a catcher answers by.
#[derive(Clone, Copy, Debug, PartialEq, Eq, Drop)]
pub enum Catching<C> {
    /// The default page of the status.
    Rocket,
    /// A handler of the application.
    App(C),
}

/// What answers for a status, or for every status, below a base.
#[derive(Drop)]
pub struct Catcher<C> {
    pub name: Option<Text>,
    pub base: Base,
    pub code: Option<u16>,
    pub handler: Catching<C>,
}

/// What is known of a catcher before the program runs.
#[derive(Drop)]
pub struct StaticInfo<C> {
    pub name: &'static str,
    pub code: Option<u16>,
    pub handler: C,
}

/// The refusal of a code that no catcher may have.
fn bad_code(code: Option<u16>) -> Option<BadCode>
    ensures good { result ≡ None → IfSome code IsErrorCode }
    ensures bad { IfSome result (λ e. (code ≡ Some e.code) × ¬ IsErrorCode e.code) }
{
    match code {
        Some(code) if code < 400 || code > 599 => Some(BadCode { code }),
        _ => None,
    }
}

/// The base `/`, which is read unless memory runs out.
fn root(alloc: Global) -> Result<Base, NoMemory>
    ensures { IfOk result (λ b. b ≡ root) }
{
    match Base::parse(alloc, "/") {
        Ok(root) => Ok(root),
        Err(_) => Err(AllocError),
    }
}

impl<C: Drop> Catcher<C> {
    /// A catcher at the base `/`, for a code or for every one.
    pub fn new(alloc: Global, code: Option<u16>, handler: C) -> Result<Catcher<C>, Want<BadCode>>
        ensures accepted { IfOk result (λ c. IfSome code IsErrorCode × (c ≡ catcher_at_root None code (Catching.App handler))) }
        ensures complete { IfSome code IsErrorCode
            → GivesUnlessNoMemory result (catcher_at_root None code (Catching.App handler)) }
        ensures refused { IfRefused result (λ e. (code ≡ Some e.code) × ¬ IsErrorCode e.code) }
    {
        if let Some(bad) = bad_code(code) {
            return Err(Want::Refused(bad));
        }
        Ok(Catcher {
            name: None,
            base: root(alloc)?,
            code,
            handler: Catching::App(handler),
        })
    }

    /// The catcher that static information describes, at the base `/`.
    pub fn from_info(alloc: Global, info: StaticInfo<C>) -> Result<Catcher<C>, Want<BadCode>>
        ensures accepted { IfOk result (λ c. IfSome info.code IsErrorCode × (c ≡ catcher_of_info info)) }
        ensures complete { IfSome info.code IsErrorCode → GivesUnlessNoMemory result (catcher_of_info info) }
        ensures refused { IfRefused result (λ e. (info.code ≡ Some e.code) × ¬ IsErrorCode e.code) }
    {
        let name = Text::new(alloc, info.name)?;
        let mut catcher = Catcher::new(alloc, info.code, info.handler)?;
        catcher.name = Some(name);
        Ok(catcher)
    }

    /// The catcher of a rocket where the application has none: it answers default pages, for every status.
    pub fn default(alloc: Global) -> Result<Catcher<C>, NoMemory>
        ensures { IfOk result (λ c. c ≡ catcher_at_root (Some (codes "<Rocket Catcher>")) None Catching.Rocket) }
    {
        Ok(Catcher {
            name: Some(Text::new(alloc, "<Rocket Catcher>")?),
            base: root(alloc)?,
            code: None,
            handler: Catching::Rocket,
        })
    }

    /// The same catcher below another base, whose text is made from that of its own and may have a query, which is
    /// dropped.
    pub fn map_base<F: FnOnce(&Origin) -> Result<String, NoMemory>>(
        mut self,
        alloc: Global,
        mapper: F,
    ) -> Result<Catcher<C>, Want<InvalidUri>>
        requires { FnOnceTakesAt F.FnOnce mapper self.base }
        // The base is the one that the mapper's text spells.
        ensures accepted { IfOk result (λ c.
            (text : _) × FnOnceReturnsAt F.FnOnce mapper self.base (Ok text) × IsMovedTo self (string_bytes text) c) }
        // A refusal names the place where the mapper's text leaves the grammar, so that a base is never refused.
        ensures refused { IfRefused result (λ e. (text : _)
            × FnOnceReturnsAt F.FnOnce mapper self.base (Ok text)
            × LeavesAt (IsOrigin Profile.Request) (string_bytes text) e.at) }
    {
        let Ok(text) = mapper(self.base.origin()) else {
            // By calls, in which that is proved once for its type.
            drop(self);
            return Err(Want::NoMemory);
        };
        match Base::parse_normal(alloc, text.as_str()) {
            Ok(base) => {
                drop(replace(&mut self.base, base));
                Ok(self)
            }
            Err(error) => {
                drop(self);
                Err(error)
            }
        }
    }
}

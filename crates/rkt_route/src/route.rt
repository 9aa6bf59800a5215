ghost use Rattle.std.specs.Prelude.{◌≡◌, Some, None, Ok, IfOk, codes, string_bytes};
ghost use Rattle.std.specs.Fn.{FnOnceTakesAt, FnOnceReturnsAt};
ghost use Rattle.rkt_base.specs.Want.{IfRefused, GivesUnlessNoMemory};
ghost use Rattle.rkt_grammar.specs.Grammar.{LeavesAt};
ghost use Rattle.rkt_uri.specs.Origin.{IsOrigin};
ghost use Rattle.rkt_route.specs.RouteUri.{MountedUri, SpellsMounted};
ghost use Rattle.rkt_route.specs.Route.{route_at, route_of_info, IsMovedTo};

use crate::RouteUri;
use rkt_base::{NoMemory, Seq, Text, Want};
use rkt_http::{InvalidUri, Key, MediaType, Method, Origin, Profile};
use std::alloc::Global;
use std::mem::replace;

/// What has to be asked before a rocket may be launched with a route.
#[derive(Drop)]
pub struct Sentry<S> {
    pub key: Key,
    pub type_name: &'static str,
    pub parent: Option<Key>,
    /// File, line and column of where it stands.
    pub location: (&'static str, u32, u32),
    pub specialized: bool,
    /// What tells whether the launch has to be aborted.
    pub abort: S,
}

/// What answers requests of a method below a path.
#[derive(Drop)]
pub struct Route<H, S> {
    pub name: Option<Text>,
    pub method: Method,
    pub handler: H,
    pub uri: RouteUri,
    /// Lower ranks are tried first.
    pub rank: i64,
    pub format: Option<MediaType>,
    pub sentinels: Seq<Sentry<S>>,
}

/// What is known of a route before the program runs.
#[derive(Drop)]
pub struct StaticInfo<H, S> {
    pub name: &'static str,
    pub method: Method,
    pub uri: &'static str,
    pub format: Option<MediaType>,
    pub handler: H,
    /// The default rank where there is none.
    pub rank: Option<i64>,
    pub sentinels: Seq<Sentry<S>>,
}

impl<H: Drop, S: Drop> Route<H, S> {
    /// A route at the base `/`, of the default rank.
    pub fn new(
        alloc: Global,
        method: Method,
        uri: &str,
        handler: H,
    ) -> Result<Route<H, S>, Want<InvalidUri>>
        ensures mounted { IfOk result (λ r. SpellsMounted (codes "/") uri.now r.uri) }
        ensures made { IfOk result (λ r. r ≡ route_at None method handler r.uri) }
        // What the text spells is accepted, unless memory runs out.
        ensures complete { (m : MountedUri)
            → SpellsMounted (codes "/") uri.now m
            → GivesUnlessNoMemory result (route_at None method handler m) }
        // A refusal names the place where the text leaves the grammar.
        ensures refused { IfRefused result (λ e. LeavesAt (IsOrigin Profile.Route) uri.now e.at) }
    {
        Route::ranked(alloc, None, method, uri, handler)
    }

    /// A route at the base `/`, of the default rank where none is given.
    pub fn ranked(
        alloc: Global,
        rank: Option<i64>,
        method: Method,
        uri: &str,
        handler: H,
    ) -> Result<Route<H, S>, Want<InvalidUri>>
        ensures mounted { IfOk result (λ r. SpellsMounted (codes "/") uri.now r.uri) }
        ensures made { IfOk result (λ r. r ≡ route_at rank method handler r.uri) }
        ensures complete { (m : MountedUri)
            → SpellsMounted (codes "/") uri.now m
            → GivesUnlessNoMemory result (route_at rank method handler m) }
        ensures refused { IfRefused result (λ e. LeavesAt (IsOrigin Profile.Route) uri.now e.at) }
    {
        let uri = RouteUri::at_root(alloc, uri)?;
        let rank = rank.unwrap_or(uri.default_rank());
        Ok(Route {
            name: None,
            method,
            handler,
            uri,
            rank,
            format: None,
            sentinels: Seq::new(alloc),
        })
    }

    /// The route that static information describes, at the base `/`.
    pub fn from_info(alloc: Global, info: StaticInfo<H, S>) -> Result<Route<H, S>, Want<InvalidUri>>
        ensures mounted { IfOk result (λ r. SpellsMounted (codes "/") info.uri.now r.uri) }
        ensures made { IfOk result (λ r. r ≡ route_of_info info r.uri) }
        ensures complete { (m : MountedUri)
            → SpellsMounted (codes "/") info.uri.now m
            → GivesUnlessNoMemory result (route_of_info info m) }
        ensures refused { IfRefused result (λ e. LeavesAt (IsOrigin Profile.Route) info.uri.now e.at) }
    {
        let Ok(name) = Text::new(alloc, info.name) else {
            // By a call, in which that is proved once for its type.
            drop(info);
            return Err(Want::NoMemory);
        };
        match RouteUri::at_root(alloc, info.uri) {
            Ok(uri) => Ok(Route {
                name: Some(name),
                method: info.method,
                handler: info.handler,
                rank: info.rank.unwrap_or(uri.default_rank()),
                uri,
                format: info.format,
                sentinels: info.sentinels,
            }),
            Err(error) => {
                drop(name);
                drop(info);
                Err(error)
            }
        }
    }

    /// The same route below another base, whose text is made from that of its own and may have a query, which is dropped.
    /// The rank stays, a default one too.
    pub fn map_base<F: FnOnce(&Origin) -> Result<String, NoMemory>>(
        mut self,
        alloc: Global,
        mapper: F,
    ) -> Result<Route<H, S>, Want<InvalidUri>>
        requires { FnOnceTakesAt F.FnOnce mapper self.uri.base }
        // The base is the one that the mapper's text spells.
        ensures accepted { IfOk result (λ r.
            (text : _) × FnOnceReturnsAt F.FnOnce mapper self.uri.base (Ok text) × IsMovedTo self (string_bytes text) r) }
        // A refusal names the place where the mapper's text leaves the grammar, so that a base is never refused.
        ensures refused { IfRefused result (λ e. (text : _)
            × FnOnceReturnsAt F.FnOnce mapper self.uri.base (Ok text)
            × LeavesAt (IsOrigin Profile.Request) (string_bytes text) e.at) }
    {
        match self.uri.at_mapped(alloc, mapper) {
            Ok(uri) => {
                // By calls, in which that is proved once for its type.
                drop(replace(&mut self.uri, uri));
                Ok(self)
            }
            Err(error) => {
                drop(self);
                Err(error)
            }
        }
    }
}

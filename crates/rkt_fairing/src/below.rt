//! Routes and catchers below a base.
ghost use Rattle.std.specs.Prelude.{◌≡◌, ◌++◌, IfOk, OnOk, map, string_bytes};
ghost use Rattle.rkt_base.specs.Want.{IfRefused};
ghost use Rattle.rkt_uri.specs.Origin.{IsOrigin, target_of};
ghost use Rattle.rkt_fairing.specs.Below.{catcher_below, route_below};

use crate::InvalidBase;
use rkt_base::{NoMemory, Want};
use rkt_http::{Origin, Profile, says_what_it_spells};
use rkt_route::{Base, Catcher, Route};
use std::alloc::{AllocError, Global};

/// The base that a text spells.
fn read_base(alloc: Global, text: &str) -> Result<Base, Want<InvalidBase>>
    ensures spelled { IfOk result (λ base. base ≡ target_of text.now) }
    ensures origin { OnOk result (IsOrigin Profile.Request text.now) }
    ensures refused { IfRefused result (λ _. ¬ IsOrigin Profile.Request text.now) }
{
    // So it spells one base at most.
    says_what_it_spells();
    match Base::parse(alloc, text) {
        Ok(base) => Ok(base),
        Err(Want::Refused(_)) => Err(Want::Refused(InvalidBase)),
        Err(Want::NoMemory) => Err(Want::NoMemory),
    }
}

/// A base's path, and an origin's path behind it.
fn in_front(alloc: Global, base: &Origin, own: &Origin) -> Result<String, NoMemory>
    ensures { IfOk result (λ text. string_bytes text ≡ base.now.path ++ own.now.path) }
{
    let mut text = String::from_str(alloc, base.path())?;
    text.push_str(own.path())?;
    Ok(text)
}

/// A route below a base.
fn route_below<H: Drop, S: Drop>(
    alloc: Global,
    base: &Base,
    route: Route<H, S>,
) -> Result<Route<H, S>, NoMemory>
    ensures { IfOk result (λ moved. moved ≡ route_below base.now.path route) }
{
    // So the new base is what both paths spell.
    says_what_it_spells();
    let text = in_front(alloc, base.origin(), route.uri.base_origin())?;
    match route.map_base(alloc, move |_own| Ok(text)) {
        Ok(moved) => Ok(moved),
        // One base behind another is a base.
        Err(Want::Refused(_)) => unreachable!(),
        Err(Want::NoMemory) => Err(AllocError),
    }
}

/// A catcher below a base.
fn catcher_below<C: Drop>(
    alloc: Global,
    base: &Base,
    catcher: Catcher<C>,
) -> Result<Catcher<C>, NoMemory>
    ensures { IfOk result (λ moved. moved ≡ catcher_below base.now.path catcher) }
{
    // So the new base is what both paths spell.
    says_what_it_spells();
    let text = in_front(alloc, base.origin(), catcher.base.origin())?;
    match catcher.map_base(alloc, move |_own| Ok(text)) {
        Ok(moved) => Ok(moved),
        // One base behind another is a base.
        Err(Want::Refused(_)) => unreachable!(),
        Err(Want::NoMemory) => Err(AllocError),
    }
}

/// Routes below a base, in order.
fn routes_below<H: Drop, S: Drop>(
    alloc: Global,
    base: &Base,
    routes: Vec<Route<H, S>>,
) -> Result<Vec<Route<H, S>>, NoMemory>
    ensures { IfOk result (λ moved. moved.items ≡ map (route_below base.now.path) routes.items) }
{
    let mut moved = Vec::new(alloc);
    for route in routes {
        moved.push(route_below(alloc, base, route)?)?;
    }
    Ok(moved)
}

/// Routes below the base that a text spells, in order.
pub(crate) fn routes_at<H: Drop, S: Drop>(
    alloc: Global,
    base: &str,
    routes: Vec<Route<H, S>>,
) -> Result<Vec<Route<H, S>>, Want<InvalidBase>>
    ensures ok { IfOk result (λ moved. moved.items ≡ map (route_below (target_of base.now).path) routes.items) }
    ensures origin { OnOk result (IsOrigin Profile.Request base.now) }
    ensures refused { IfRefused result (λ _. ¬ IsOrigin Profile.Request base.now) }
{
    let base = read_base(alloc, base)?;
    Ok(routes_below(alloc, &base, routes)?)
}

/// Catchers below a base, in order.
fn catchers_below<C: Drop>(
    alloc: Global,
    base: &Base,
    catchers: Vec<Catcher<C>>,
) -> Result<Vec<Catcher<C>>, NoMemory>
    ensures { IfOk result (λ moved. moved.items ≡ map (catcher_below base.now.path) catchers.items) }
{
    let mut moved = Vec::new(alloc);
    for catcher in catchers {
        moved.push(catcher_below(alloc, base, catcher)?)?;
    }
    Ok(moved)
}

/// Catchers below the base that a text spells, in order.
pub(crate) fn catchers_at<C: Drop>(
    alloc: Global,
    base: &str,
    catchers: Vec<Catcher<C>>,
) -> Result<Vec<Catcher<C>>, Want<InvalidBase>>
    ensures ok { IfOk result (λ moved. moved.items ≡ map (catcher_below (target_of base.now).path) catchers.items) }
    ensures origin { OnOk result (IsOrigin Profile.Request base.now) }
    ensures refused { IfRefused result (λ _. ¬ IsOrigin Profile.Request base.now) }
{
    let base = read_base(alloc, base)?;
    Ok(catchers_below(alloc, &base, catchers)?)
}

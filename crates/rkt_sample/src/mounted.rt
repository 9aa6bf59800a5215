//! Where the routes and the catchers stand.
ghost use Rattle.std.specs.Prelude.{◌≡◌, None, IfOk};
ghost use Rattle.rkt_route.specs.Catcher.{catcher_at_root};
ghost use Rattle.rkt_route.specs.declared.catcher.Catching.TheVariants.{App};
ghost use Rattle.rkt_uri.specs.Origin.{IsOrigin};
ghost use Rattle.rkt_sample.specs.Mounted.{base_of, catch_base_of, catcher_below, code_of, method_of, mounted_catcher, mounted_route, path_of, rank_of, route_at_root, route_below, sample_catchers, sample_routes};

use crate::catcher::SampleCatcher;
use crate::route::SampleRoute;
use rkt_base::{NoMemory, Want};
use rkt_http::{Method, Profile, says_what_it_spells};
use rkt_router::{Catcher, Route};
use std::alloc::{AllocError, Global};

/// The routes, in mounting order.
const ROUTES: [SampleRoute; 13] = [
    SampleRoute::Hello,
    SampleRoute::Page,
    SampleRoute::HeadPage,
    SampleRoute::HeadGone,
    SampleRoute::PostForm,
    SampleRoute::DeleteForm,
    SampleRoute::Trial,
    SampleRoute::Tried,
    SampleRoute::Spoiled,
    SampleRoute::Flash,
    SampleRoute::Echo,
    SampleRoute::Stop,
    SampleRoute::Broken,
];

/// The catchers, in the order in which they are registered.
const CATCHERS: [SampleCatcher; 4] = [
    SampleCatcher::NotFound,
    SampleCatcher::Default,
    SampleCatcher::BadNotFound,
    SampleCatcher::BadFailed,
];

impl SampleRoute {
    fn method(self) -> Method
        ensures { result ≡ method_of self }
    {
        match self {
            SampleRoute::HeadPage | SampleRoute::HeadGone => Method::Head,
            SampleRoute::PostForm | SampleRoute::Echo => Method::Post,
            SampleRoute::DeleteForm => Method::Delete,
            _ => Method::Get,
        }
    }

    /// The base below which it is mounted.
    fn base(self) -> &'static str
        ensures { result.now ≡ base_of self }
    {
        match self {
            SampleRoute::Hello => "/hello",
            _ => "/",
        }
    }

    /// Its path there.
    fn path(self) -> &'static str
        ensures { result.now ≡ path_of self }
    {
        match self {
            SampleRoute::Hello => "/<name>/<age>",
            SampleRoute::Page | SampleRoute::HeadPage => "/page",
            SampleRoute::HeadGone => "/gone",
            SampleRoute::PostForm | SampleRoute::DeleteForm => "/form",
            SampleRoute::Trial | SampleRoute::Tried => "/trial",
            SampleRoute::Spoiled => "/spoiled",
            SampleRoute::Flash => "/flash",
            SampleRoute::Echo => "/echo",
            SampleRoute::Stop => "/stop",
            SampleRoute::Broken => "/broken",
        }
    }

    /// Its rank, where that is not the default one.
    fn rank(self) -> Option<i64>
        ensures { result ≡ rank_of self }
    {
        match self {
            SampleRoute::Trial => Some(1),
            SampleRoute::Tried => Some(2),
            _ => None,
        }
    }

    fn at_root(self, alloc: Global) -> Result<Route<SampleRoute, ()>, NoMemory>
        ensures { IfOk result (λ route. route ≡ route_at_root self) }
    {
        match Route::ranked(alloc, self.rank(), self.method(), self.path(), self) {
            Ok(route) => Ok(route),
            Err(Want::Refused(_)) => unreachable!(),
            Err(Want::NoMemory) => Err(AllocError),
        }
    }

    fn mounted(self, alloc: Global) -> Result<Route<SampleRoute, ()>, NoMemory>
        ensures { IfOk result (λ route. route ≡ mounted_route self) }
    {
        let route = self.at_root(alloc)?;
        route_below(alloc, self.base(), route)
    }
}

/// A route below the base that a text spells.
fn route_below(
    alloc: Global,
    base: &str,
    route: Route<SampleRoute, ()>,
) -> Result<Route<SampleRoute, ()>, NoMemory>
    requires { IsOrigin Profile.Request base.now }
    ensures { IfOk result (λ moved. moved ≡ route_below base.now route) }
{
    // So the base is what the text spells.
    says_what_it_spells();
    let Ok(text) = String::from_str(alloc, base) else {
        // By a call, in which that is proved once for its type.
        drop(route);
        return Err(AllocError);
    };
    match route.map_base(alloc, move |_own| Ok(text)) {
        Ok(moved) => Ok(moved),
        Err(Want::Refused(_)) => unreachable!(),
        Err(Want::NoMemory) => Err(AllocError),
    }
}

/// The routes, in mounting order.
pub fn routes(alloc: Global) -> Result<Vec<Route<SampleRoute, ()>>, NoMemory>
    ensures { IfOk result (λ routes. routes.items ≡ sample_routes) }
{
    let mut routes = Vec::new(alloc);
    for route in &ROUTES {
        routes.push(route.mounted(alloc)?)?;
    }
    Ok(routes)
}

impl SampleCatcher {
    /// The base below which it catches.
    fn base(self) -> &'static str
        ensures { result.now ≡ catch_base_of self }
    {
        match self {
            SampleCatcher::NotFound => "/a",
            SampleCatcher::Default => "/a/b",
            SampleCatcher::BadNotFound | SampleCatcher::BadFailed => "/bad",
        }
    }

    /// The code that it is for, where that is not each one.
    fn code(self) -> Option<u16>
        ensures { result ≡ code_of self }
    {
        match self {
            SampleCatcher::NotFound | SampleCatcher::BadNotFound => Some(404),
            SampleCatcher::BadFailed => Some(500),
            SampleCatcher::Default => None,
        }
    }

    fn at_root(self, alloc: Global) -> Result<Catcher<SampleCatcher>, NoMemory>
        ensures { IfOk result (λ catcher. catcher ≡ catcher_at_root None (code_of self) (App self)) }
    {
        match Catcher::new(alloc, self.code(), self) {
            Ok(catcher) => Ok(catcher),
            Err(Want::Refused(_)) => unreachable!(),
            Err(Want::NoMemory) => Err(AllocError),
        }
    }

    fn mounted(self, alloc: Global) -> Result<Catcher<SampleCatcher>, NoMemory>
        ensures { IfOk result (λ catcher. catcher ≡ mounted_catcher self) }
    {
        let catcher = self.at_root(alloc)?;
        catcher_below(alloc, self.base(), catcher)
    }
}

/// A catcher below the base that a text spells.
fn catcher_below(
    alloc: Global,
    base: &str,
    catcher: Catcher<SampleCatcher>,
) -> Result<Catcher<SampleCatcher>, NoMemory>
    requires { IsOrigin Profile.Request base.now }
    ensures { IfOk result (λ moved. moved ≡ catcher_below base.now catcher) }
{
    // So the base is what the text spells.
    says_what_it_spells();
    let Ok(text) = String::from_str(alloc, base) else {
        // By a call, in which that is proved once for its type.
        drop(catcher);
        return Err(AllocError);
    };
    match catcher.map_base(alloc, move |_own| Ok(text)) {
        Ok(moved) => Ok(moved),
        Err(Want::Refused(_)) => unreachable!(),
        Err(Want::NoMemory) => Err(AllocError),
    }
}

/// The catchers, in the order in which they are registered.
pub fn catchers(alloc: Global) -> Result<Vec<Catcher<SampleCatcher>>, NoMemory>
    ensures { IfOk result (λ catchers. catchers.items ≡ sample_catchers) }
{
    let mut catchers = Vec::new(alloc);
    for catcher in &CATCHERS {
        catchers.push(catcher.mounted(alloc)?)?;
    }
    Ok(catchers)
}

//! Calls of a rocket's builder that take one route, one catcher or one fairing.
ghost use Rattle.std.specs.Prelude.{◌≡◌, ◌∷◌, ◌++◌, [], Some, None, IfOk, IfErr, IfSome, OnOk};
ghost use Rattle.rkt_base.specs.Want.{IfRefused};
ghost use Rattle.rkt_fairing.specs.Fairings.{added};
ghost use Rattle.rkt_grammar.specs.Grammar.{LeavesAt};
ghost use Rattle.rkt_lines.specs.Building.{IsCatcherFault, IsRead, IsRouted, IsRouteFault};
ghost use Rattle.rkt_route.specs.Catcher.{IsErrorCode, catcher_at_root};
ghost use Rattle.rkt_uri.specs.Origin.{IsOrigin};

use crate::IntoHandler;
use rkt_base::Want;
use rkt_fairing::AppBuilding;
use rkt_http::{InvalidUri, Profile};
use rkt_life::{App, Build, BuildError, Catcher, Method, NoMemory, Rocket, RocketOf, Route, Slot};
use rkt_route::{BadCode, Catching};
use std::alloc::Global;

/// What takes the parts of an application one by one. Where a call fails, what is built so far is dropped.
pub trait Builds<A: App>: Sized {
    /// Mounts a page at `/`, behind the others, with the default rank of its path.
    fn route<P: IntoHandler<A::Handler>>(
        self,
        alloc: Global,
        method: Method,
        uri: &str,
        page: P,
    ) -> Result<Rocket<Build, A>, BuildError>;

    /// Registers what answers for a code, or for every one, at `/`.
    fn catcher<P: IntoHandler<A::Catch>>(
        self,
        alloc: Global,
        code: Option<u16>,
        page: P,
    ) -> Result<Rocket<Build, A>, BuildError>;

    /// Attaches a fairing of the application.
    fn fairing(self, fairing: A::Fairing) -> Result<Rocket<Build, A>, BuildError>;
}

/// A list of this alone.
fn only<T: Drop>(alloc: Global, item: T) -> Result<Vec<T>, NoMemory>
    ensures { IfOk result (λ items. items.items ≡ item ∷ []) }
{
    let mut items = Vec::new(alloc);
    items.push(item)?;
    Ok(items)
}

/// The one route that is mounted.
fn routes<H: Drop, N: Drop>(
    alloc: Global,
    method: Method,
    uri: &str,
    handler: H,
) -> Result<Vec<Route<H, N>>, Want<InvalidUri>>
    ensures read { IfOk result (λ routes.
        (route : Route H N) × IsRead method uri.now handler route × (routes.items ≡ route ∷ [])) }
    ensures refused { IfRefused result (λ e. LeavesAt (IsOrigin Profile.Route) uri.now e.at) }
{
    let route = Route::new(alloc, method, uri, handler)?;
    Ok(only(alloc, route)?)
}

/// The one catcher that is registered.
fn catchers<K: Drop>(
    alloc: Global,
    code: Option<u16>,
    handler: K,
) -> Result<Vec<Catcher<K>>, Want<BadCode>>
    ensures made { IfOk result (λ catchers. catchers.items ≡ catcher_at_root None code (Catching.App handler) ∷ []) }
    ensures code { OnOk result (IfSome code IsErrorCode) }
    ensures refused { IfRefused result (λ e. (code ≡ Some e.code) × ¬ IsErrorCode e.code) }
{
    let catcher = Catcher::new(alloc, code, handler)?;
    Ok(only(alloc, catcher)?)
}

impl<A: App> Builds<A> for RocketOf<AppBuilding<A>, A> {
    fn route<P: IntoHandler<A::Handler>>(
        self,
        alloc: Global,
        method: Method,
        uri: &str,
        page: P,
    ) -> Result<Rocket<Build, A>, BuildError>
        ensures mounted { IfOk result (λ rocket. (route : Route A.Handler A.Sentinel)
            × IsRouted method uri.now (P.handler page) route
            × (rocket ≡ record self { routes = self.routes ++ route ∷ [] })) }
        ensures refused { IfErr result (IsRouteFault uri.now) }
    {
        let routes = routes(alloc, method, uri, page.into_handler())?;
        Ok(self.mount(alloc, "/", routes)?)
    }

    fn catcher<P: IntoHandler<A::Catch>>(
        self,
        alloc: Global,
        code: Option<u16>,
        page: P,
    ) -> Result<Rocket<Build, A>, BuildError>
        ensures registered { IfOk result (λ rocket. rocket
            ≡ record self { catchers = self.catchers ++ catcher_at_root None code (Catching.App (P.handler page)) ∷ [] }) }
        ensures code { OnOk result (IfSome code IsErrorCode) }
        ensures refused { IfErr result (IsCatcherFault code) }
    {
        let catchers = catchers(alloc, code, page.into_handler())?;
        Ok(self.register(alloc, "/", catchers)?)
    }

    fn fairing(self, fairing: A::Fairing) -> Result<Rocket<Build, A>, BuildError>
        ensures attached { IfOk result (λ rocket.
            rocket ≡ record self { fairings = added A.Fairing.key A.Fairing.info self.fairings (Slot.App fairing) }) }
        ensures refused { IfErr result (λ error. error ≡ BuildError.NoMemory) }
    {
        match self.attach(Slot::App(fairing)) {
            Ok(rocket) => Ok(rocket),
            // For want of memory, the only cause.
            Err(handed) => {
                drop(handed);
                Err(BuildError::NoMemory)
            }
        }
    }
}

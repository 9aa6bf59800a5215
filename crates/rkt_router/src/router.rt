ghost use Rattle.std.specs.Prelude.{◌≡◌, ◌<◌, ◌++◌, ◌∷◌, [], ℕ, List, Some, IfSome, OnOk, OnErr, length, option_map, slice_get};
ghost use Rattle.rkt_base.specs.Want.{IfRefused};
ghost use Rattle.rkt_router.specs.Catchers.{IsChosen};
ghost use Rattle.rkt_route.specs.Collisions.{AreCollisions, CatchersCollide, RoutesCollide};
ghost use Rattle.rkt_router.specs.Left.{left};
ghost use Rattle.rkt_router.specs.Tries.{IsNextTry, IsTries};
ghost use Rattle.rkt_router.specs.Walk.{GivesTries};

use crate::chosen::chosen;
use crate::order::{next_try, place_behind};
use crate::{Catcher, Collisions, Route, Tries};
use rkt_base::{NoMemory, Seq, Want};
use rkt_http::Status;
use rkt_request::{Request, Types};
use rkt_route::colliding_pairs;
use std::alloc::Global;
use std::marker::Model;

/// Routes in mounting order, and catchers in the order in which they were registered.
#[derive(Drop)]
pub struct Router<H, C, S> {
    routes: Seq<Route<H, S>>,
    // The positions of the routes, in the order in which they are tried.
    order: Vec<usize>,
    catchers: Seq<Catcher<C>>,
}

impl<H, C, S> Model for Router<H, C, S> {
    ghost use Rattle.rkt_router.specs.Router.{SeenRouter, IsOrder};

    ghost Value = { SeenRouter H C S };

    ghost view = { λ r. record { routes = r.routes; catchers = r.catchers } };

    ghost invariant = { λ r. IsOrder r.routes r.order.items };
}

impl<H, C, S> Router<H, C, S> {
    /// A router without routes and catchers, which takes no memory.
    pub fn new(alloc: Global) -> Router<H, C, S>
        ensures { result ≡ record { routes = []; catchers = [] } }
    {
        Router {
            routes: Seq::new(alloc),
            order: Vec::new(alloc),
            catchers: Seq::new(alloc),
        }
    }

    /// The routes in mounting order: a route's position is its place here.
    pub fn routes(&self) -> &[Route<H, S>]
        ensures { result.now ≡ self.now.routes }
    {
        self.routes.as_slice()
    }

    /// The catchers in the order in which they were registered.
    pub fn catchers(&self) -> &[Catcher<C>]
        ensures { result.now ≡ self.now.catchers }
    {
        self.catchers.as_slice()
    }

    /// The position of the route that is tried next behind a position, or first. Takes no memory.
    pub fn next_try<T: Types>(
        &self,
        request: &Request<'_, T>,
        after: Option<usize>,
    ) -> Option<usize>
        ensures next { IsNextTry self.now.routes request.now after result }
        ensures within { IfSome result (λ position. position < length self.now.routes) }
        // Fewer routes are left behind it, so that a walk comes to its end.
        ensures falls { IfSome result (λ position. left self.now.routes (Some position) < left self.now.routes after) }
    {
        next_try(
            self.routes.as_slice(),
            self.order.as_slice(),
            request,
            after,
        )
    }

    /// The routes that a request is tried on, in order, each with its position. Takes no memory.
    pub fn route<'a, T: Types>(&'a self, request: &'a Request<'a, T>) -> Tries<'a, H, S, T>
        ensures { GivesTries result self.entry.now.routes request.entry.now }
    {
        Tries::new(self.routes.as_slice(), self.order.as_slice(), request)
    }

    /// A law of tries: every request has them. It walks over them.
    pub fn has_tries<T: Types>(&self, request: &Request<'_, T>)
        ensures { (tries : List ℕ) × IsTries self.now.routes request.now tries }
    {
        for _ in self.route(request) {}
    }

    /// The catcher that is chosen for a status, with its position. Takes no memory.
    pub fn catch<T: Types>(
        &self,
        status: Status,
        request: &Request<'_, T>,
    ) -> Option<(usize, &Catcher<C>)>
        ensures position { IsChosen self.now.catchers status.code request.now (option_map (λ found. found.0) result) }
        ensures catcher { IfSome result (λ found. slice_get self.now.catchers found.0 ≡ Some found.1.now) }
    {
        let catchers = self.catchers.as_slice();
        let position = chosen(catchers, status, request)?;
        Some((position, &catchers[position]))
    }
}

impl<H, C, S> Router<H, C, S> {
    /// Refuses routes or catchers that collide, with all pairs of them.
    pub fn finalize(&self, alloc: Global) -> Result<(), Want<Collisions>>
        // It is refused exactly where some collide.
        ensures ok { OnOk result (AreCollisions RoutesCollide self.now.routes []
            × AreCollisions CatchersCollide self.now.catchers []) }
        ensures some { IfRefused result (λ found. ¬ ((found.routes ≡ []) × (found.catchers ≡ []))) }
        ensures routes { IfRefused result (λ found. AreCollisions RoutesCollide self.now.routes found.routes) }
        ensures catchers { IfRefused result (λ found. AreCollisions CatchersCollide self.now.catchers found.catchers) }
    {
        let routes = colliding_pairs(alloc, self.routes.as_slice())?;
        let catchers = colliding_pairs(alloc, self.catchers.as_slice())?;
        if routes.is_empty() && catchers.is_empty() {
            return Ok(());
        }
        Err(Want::Refused(Collisions { routes, catchers }))
    }
}

impl<H: Drop, C: Drop, S: Drop> Router<H, C, S> {
    /// Mounts a route behind the others.
    pub fn add_route(&mut self, route: Route<H, S>) -> Result<(), NoMemory>
        ensures ok { OnOk result (self.new ≡ record self.old { routes = self.old.routes ++ route ∷ [] }) }
        ensures err { OnErr result (self.new ≡ self.old) }
    {
        // With this room the insertion below cannot fail.
        if let Err(error) = self.order.reserve(1) {
            // By a call, in which that is proved once for its type.
            drop(route);
            return Err(error);
        }
        let position = self.routes.len();
        self.routes.push(route)?;
        let place = place_behind(
            self.routes.as_slice(),
            self.order.as_slice(),
            Some(position),
        );
        self.order.insert(place, position)?;
        Ok(())
    }

    /// Registers a catcher behind the others.
    pub fn add_catcher(&mut self, catcher: Catcher<C>) -> Result<(), NoMemory>
        ensures ok { OnOk result (self.new ≡ record self.old { catchers = self.old.catchers ++ catcher ∷ [] }) }
        ensures err { OnErr result (self.new ≡ self.old) }
    {
        self.catchers.push(catcher)
    }
}

ghost use Rattle.std.specs.Prelude.{◌≡◌, ◌<◌, ◌≤◌, Some, IfSome, IsSomeAnd, length, option_map, slice_get};
ghost use Rattle.rkt_route.specs.declared.catcher.Catching.TheVariants.{App};
ghost use Rattle.rkt_router.specs.Catchers.{IsChosen};
ghost use Rattle.rkt_router.specs.Left.{left};
ghost use Rattle.rkt_router.specs.Tries.{IsNextTry};
ghost use Rattle.rkt_routing.specs.Routed.{turns_of};

use rkt_http::Status;
use rkt_request::{Request, Types};
use rkt_router::{Catcher, Catching, Route, Router};
use std::marker::Model;

/// What a request is routed by: a router, and as often as a callback may be polled, where none counts as one.
#[derive(Drop)]
pub struct TableOf<'a, H, K, N> {
    pub router: &'a Router<H, K, N>,
    pub turns: u32,
}

impl<'a, H, K, N> Model for TableOf<'a, H, K, N> {
    ghost use Rattle.rkt_routing.specs.Table.{SeenTable};

    ghost Value = { SeenTable H K N };

    ghost view = { λ t. record { router = t.router.now; turns = t.turns } };
}

impl<'a, H, K, N> TableOf<'a, H, K, N> {
    // How often a callback may be polled.
    pub(crate) fn turns(&self) -> u32
        ensures turns { result ≡ turns_of self.now }
        ensures some { 1 ≤ result }
    {
        self.turns.max(1)
    }

    // The position of the route that is tried next behind another one, or first.
    pub(crate) fn next_try<T: Types>(
        &self,
        request: &Request<'_, T>,
        behind: Option<usize>,
    ) -> Option<usize>
        ensures next { IsNextTry self.now.router.routes request.now behind result }
        ensures within { IfSome result (λ position. position < length self.now.router.routes) }
        ensures falls { IfSome result (λ position.
            left self.now.router.routes (Some position) < left self.now.router.routes behind) }
    {
        self.router.next_try(request, behind)
    }

    // The catcher that is chosen for a status, with its position.
    pub(crate) fn catch<T: Types>(
        &self,
        status: Status,
        request: &Request<'_, T>,
    ) -> Option<(usize, &Catcher<K>)>
        ensures position { IsChosen self.now.router.catchers status.code request.now (option_map (λ found. found.0) result) }
        ensures catcher { IfSome result (λ found. slice_get self.now.router.catchers found.0 ≡ Some found.1.now) }
    {
        self.router.catch(status, request)
    }

    pub(crate) fn route(&self, position: usize) -> &Route<H, N>
        requires within { position < length self.now.router.routes }
        ensures { slice_get self.now.router.routes position ≡ Some result.now }
    {
        &self.router.routes()[position]
    }

    // The handler of a catcher that has one.
    pub(crate) fn handler(&self, position: usize) -> &K
        requires there { IsSomeAnd (slice_get self.now.router.catchers position) (λ catcher.
            (handler : K) × (catcher.handler ≡ App handler)) }
        ensures { IsSomeAnd (slice_get self.now.router.catchers position) (λ catcher. catcher.handler ≡ App result.now) }
    {
        match &self.router.catchers()[position].handler {
            Catching::App(handler) => handler,
            Catching::Rocket => unreachable!(),
        }
    }
}

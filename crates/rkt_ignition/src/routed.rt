//! A router of the routes and catchers that were built.
ghost use Rattle.std.specs.Prelude.{◌≡◌, ◌++◌, IfOk, OnOk};

use rkt_base::NoMemory;
use rkt_route::{Catcher, Route};
use rkt_router::Router;
use std::alloc::{AllocError, Global};

// All of these behind the others, in order.
fn add_routes<H: Drop, K: Drop, N: Drop>(
    router: &mut Router<H, K, N>,
    routes: Vec<Route<H, N>>,
) -> Result<(), NoMemory>
    ensures { OnOk result (router.new ≡ record router.old { routes = router.old.routes ++ routes.items }) }
{
    for route in routes {
        router.add_route(route)?;
    }
    Ok(())
}

// All of these behind the others, in order.
fn add_catchers<H: Drop, K: Drop, N: Drop>(
    router: &mut Router<H, K, N>,
    catchers: Vec<Catcher<K>>,
) -> Result<(), NoMemory>
    ensures { OnOk result (router.new ≡ record router.old { catchers = router.old.catchers ++ catchers.items }) }
{
    for catcher in catchers {
        router.add_catcher(catcher)?;
    }
    Ok(())
}

/// A router of these routes and catchers, in order. For want of memory they are dropped.
pub(crate) fn routed<H: Drop, K: Drop, N: Drop>(
    alloc: Global,
    routes: Vec<Route<H, N>>,
    catchers: Vec<Catcher<K>>,
) -> Result<Router<H, K, N>, NoMemory>
    ensures { IfOk result (λ router. router ≡ record { routes = routes.items; catchers = catchers.items }) }
{
    let mut router = Router::new(alloc);
    let Ok(()) = add_routes(&mut router, routes) else {
        // By calls, in which that is proved once for their types.
        drop(router);
        drop(catchers);
        return Err(AllocError);
    };
    match add_catchers(&mut router, catchers) {
        Ok(()) => Ok(router),
        Err(_) => {
            drop(router);
            Err(AllocError)
        }
    }
}

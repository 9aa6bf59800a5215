ghost use Rattle.std.specs.Prelude.{◌≡◌, ◌↔◌, ◌<◌, ◌<ℤ◌, ◌⊎◌, IsTrue, Some, length, slice_get};
ghost use Rattle.rkt_router.specs.Order.{IsFirstMatch, IsPlaceBehind, IsSorted};
ghost use Rattle.rkt_router.specs.Router.{IsOrder};
ghost use Rattle.rkt_router.specs.Tries.{Before, IsNextTry, MatchesAt};

use crate::Route;
use crate::matches::matches;
use rkt_request::{Request, Types};

/// Whether a route at a position goes before another.
fn goes_before<H, S>(a: &Route<H, S>, position: usize, b: &Route<H, S>, other: usize) -> bool
    ensures { IsTrue result ↔ ((a.now.rank <ℤ b.now.rank) ⊎ ((a.now.rank ≡ b.now.rank) × (position < other))) }
{
    a.rank < b.rank || (a.rank == b.rank && position < other)
}

/// Whether one position is tried before another.
fn is_before<H, S>(routes: &[Route<H, S>], one: usize, other: usize) -> bool
    ensures { IsTrue result ↔ Before routes.now one other }
{
    let Some(a) = routes.get(one) else {
        return false;
    };
    match routes.get(other) {
        Some(b) => goes_before(a, one, b, other),
        None => false,
    }
}

/// How many positions of an order are not behind this one.
pub(crate) fn place_behind<H, S>(
    routes: &[Route<H, S>],
    order: &[usize],
    after: Option<usize>,
) -> usize
    requires { IsSorted routes.now order.now }
    ensures { IsPlaceBehind routes.now order.now after result }
{
    let Some(position) = after else {
        return 0;
    };
    let mut low = 0;
    let mut high = order.len();
    while low < high {
        let middle = low + (high - low) / 2;
        if is_before(routes, position, order[middle]) {
            high = middle;
        } else {
            low = middle + 1;
        }
    }
    low
}

fn matches_at<H, S, T: Types>(
    routes: &[Route<H, S>],
    request: &Request<'_, T>,
    position: usize,
) -> bool
    ensures { IsTrue result ↔ MatchesAt routes.now request.now position }
{
    match routes.get(position) {
        Some(route) => matches(route, request),
        None => false,
    }
}

/// The place of the first position whose route matches, from a place on.
pub(crate) fn first_match<H, S, T: Types>(
    routes: &[Route<H, S>],
    order: &[usize],
    request: &Request<'_, T>,
    from: usize,
) -> Option<usize>
    ensures { IsFirstMatch routes.now order.now request.now from result }
{
    for place in from..order.len() {
        if matches_at(routes, request, order[place]) {
            return Some(place);
        }
    }
    None
}

/// The route at a position.
pub(crate) fn route_at<H, S>(routes: &[Route<H, S>], position: usize) -> &Route<H, S>
    requires { position < length routes.now }
    ensures { slice_get routes.now position ≡ Some result.now }
{
    &routes[position]
}

/// What is tried next behind a position, or first.
pub(crate) fn next_try<H, S, T: Types>(
    routes: &[Route<H, S>],
    order: &[usize],
    request: &Request<'_, T>,
    after: Option<usize>,
) -> Option<usize>
    requires { IsOrder routes.now order.now }
    ensures { IsNextTry routes.now request.now after result }
{
    let place = first_match(routes, order, request, place_behind(routes, order, after))?;
    Some(order[place])
}

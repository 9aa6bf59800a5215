//! Laws of routing.
ghost use Rattle.rkt_router.specs.Calls.{GateRule};
ghost use Rattle.rkt_routing.specs.Relations.{relations};
ghost use Rattle.rkt_routing.specs.WalkOrder.{AreWalksInOrder};

use crate::TableOf;
use rkt_request::Types;
use rkt_router::{CatchHandler, Handler};

/// A law of routing: the calls that a walk makes are of the first of the routes that its request is tried on, in order,
/// and of all of them where it forwards.
pub fn walks_are_in_order<T: Types, H: Handler<T>, K: CatchHandler<T>, N>(
    _table: &TableOf<'_, H, K, N>,
)
    ensures { (rule : GateRule) → AreWalksInOrder (relations H.calling K.calling rule) _table.now }
{}

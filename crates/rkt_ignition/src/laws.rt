//! Laws of ignition.
ghost use Rattle.std.specs.Prelude.{map};
ghost use Rattle.rkt_request.specs.Seen.{Seen};
ghost use Rattle.rkt_ignition.specs.Ignited.{NoneCollide};
ghost use Rattle.rkt_ignition.specs.Laws.{AtMostOneCatches, RanksDiffer};
ghost use Rattle.rkt_ignition.specs.Reached.{IsClosed, node_of, reached};

use rkt_http::spells_one_media_type;
use rkt_request::Types;
use rkt_router::{Router, Sentry};

/// A law of what has ignited: two different routes that match one request differ in rank.
pub fn ranks_differ<H, K, N, T: Types>(_router: &Router<H, K, N>)
    requires free { NoneCollide _router.now }
    ensures { (request : Seen T.Value) → RanksDiffer _router.now.routes request }
{
    // So each request has one format at most.
    spells_one_media_type();
}

/// A law of what has ignited: at most one catcher is for a code, or for every one, below a base.
pub fn at_most_one_catches<H, K, N>(_router: &Router<H, K, N>)
    requires free { NoneCollide _router.now }
    ensures { AtMostOneCatches _router.now.catchers }
{}

/// A law of sentries: where one that is reached is not specialised, those whose parent is its key are reached.
pub fn reached_is_closed<S>(_sentries: &[Sentry<S>])
    ensures { IsClosed (map node_of _sentries.now) (reached (map node_of _sentries.now)) }
{}

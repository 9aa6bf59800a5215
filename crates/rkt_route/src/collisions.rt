ghost use Rattle.std.specs.Prelude.{◌≡◌, ◌<◌, ◌≤◌, ◌+◌, IfOk, OnOk, length};
ghost use Rattle.rkt_route.specs.Collisions.{AreCollisions};
ghost use Rattle.rkt_route.specs.Pairs.{AreCollisionsBefore};

use crate::Collide;
use rkt_base::{NoMemory, Seq};
use std::alloc::Global;

/// The routes and the catchers that collide, as pairs of their positions in order.
#[derive(Debug, Drop)]
pub struct Collisions {
    pub routes: Seq<(usize, usize)>,
    pub catchers: Seq<(usize, usize)>,
}

/// Adds the pairs of which the first is at this position.
fn add_pairs<X: Collide>(
    items: &[X],
    first: usize,
    pairs: &mut Seq<(usize, usize)>,
) -> Result<(), NoMemory>
    requires first { first < length items.now }
    requires pairs { AreCollisionsBefore X.collides items.now (first, 0) pairs.old }
    ensures { OnOk result (AreCollisionsBefore X.collides items.now (first + 1, 0) pairs.new) }
{
    for second in first + 1..items.len() {
        if items[first].collides_with(&items[second]) {
            pairs.push((first, second))?;
        }
    }
    Ok(())
}

/// All pairs that collide.
pub fn colliding_pairs<X: Collide>(
    alloc: Global,
    items: &[X],
) -> Result<Seq<(usize, usize)>, NoMemory>
    ensures { IfOk result (λ pairs. AreCollisions X.collides items.now pairs) }
{
    let mut pairs = Seq::new(alloc);
    for first in 0..items.len() {
        add_pairs(items, first, &mut pairs)?;
    }
    Ok(pairs)
}

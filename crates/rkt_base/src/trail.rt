//! A list for contracts alone, which takes no room.
ghost use Rattle.std.specs.Prelude.{◌≡◌, ◌++◌, [], ◌∷◌};

use std::marker::Model;
use std::mem;
use std::snapshot::Snapshot;

#[cycle(trail)]
enum Made<T> {
    Nothing,
    More(Snapshot<Chain<T>>, Snapshot<T>),
}

#[cycle(trail)]
struct Chain<T> {
    made: Made<T>,
}

impl<T> Model for Chain<T> {
    ghost use Rattle.std.specs.Prelude.{List};

    ghost Value = { List T };

    ghost use Rattle.rkt_base.specs.Trail.{items_of};

    ghost view = { λ c. items_of c.made };

    ghost use Rattle.std.specs.Prelude.{length};

    ghost size = { λ v. length v };

    ghost use Rattle.std.proofs.Common.{arith, length-append};

    ghost size_decreases = { λ a h. Prim.grind (arith, length-append) };
}

/// A list of the values that were pushed, which contracts see. It takes no room.
#[derive(Drop)]
pub struct Trail<T> {
    chain: Snapshot<Chain<T>>,
}

impl<T> Model for Trail<T> {
    ghost use Rattle.std.specs.Prelude.{List};

    ghost Value = { List T };

    ghost view = { λ t. t.chain.value };
}

impl<T> Trail<T> {
    ghost use Rattle.rkt_base.specs.Trail.{items_of};

    pub fn new() -> Trail<T>
        ensures { result ≡ [] }
    {
        Trail::of(Made::Nothing)
    }

    /// Puts a value behind the others.
    pub fn push(&mut self, item: &T)
        ensures { self.new ≡ self.old ++ item.now ∷ [] }
    {
        let Trail { chain } = mem::replace(self, Trail::new());
        *self = Trail::of(Made::More(chain, Snapshot::of(item)));
    }

    fn of(made: Made<T>) -> Trail<T>
        ensures { result ≡ items_of made }
    {
        let chain = Chain { made };
        let trail = Trail {
            chain: Snapshot::of(&chain),
        };
        let Chain { made } = chain;
        match made {
            Made::Nothing => {}
            Made::More(_, _) => {}
        }
        trail
    }
}

//! What is built of a rocket, lent for changes. The clause names the rows of the rocket and of its builder, so it stands in a
//! file of its own.
ghost use Rattle.std.specs.Borrow.{Lends, sem};
ghost use Rattle.std.specs.Prelude.{◌≡◌};
ghost use Rattle.rkt_fairing.specs.contracts.building.BuildingOf.{the_row as building_row};
ghost use Rattle.rkt_life.specs.contracts.rocket.RocketOf.{the_row};

use crate::RocketOf;
use rkt_fairing::{App, AppBuilding};

impl<A: App> RocketOf<AppBuilding<A>, A> {
    /// The builder, for changes.
    pub fn building(&mut self) -> &mut AppBuilding<A>
        // The rocket ends as the builder that the caller leaves.
        ensures* writes_back { sem 𝓛 (Lends
            (the_row (building_row A.Handler.row A.Catch.row A.Sentinel.row A.Value.row A.Fairing.row) A.row)
            (building_row A.Handler.row A.Catch.row A.Sentinel.row A.Value.row A.Fairing.row)
            self.entry result (λ building. building)) }
        ensures value { result.now ≡ self.old }
    {
        &mut self.state
    }
}

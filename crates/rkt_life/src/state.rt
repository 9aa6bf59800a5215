//! What a rocket is made of, whatever its phase.
use crate::{Igniting, Orbiting};
use rkt_fairing::{App, AppBuilding};

/// One of these for each phase.
#[derive(Drop)]
pub enum StateOf<B, I, O> {
    Build(B),
    Ignite(I),
    Orbit(O),
}

/// What an application's rocket is made of, by its phase.
pub type State<A> = StateOf<AppBuilding<A>, Igniting<A>, Orbiting<A>>;

/// The same, lent.
pub type StateRef<'a, A> = StateOf<&'a AppBuilding<A>, &'a Igniting<A>, &'a Orbiting<A>>;

/// What a rocket of an application is made of in one of its phases.
pub trait Stateful<A: App>: Drop {
    ghost use Rattle.std.specs.Prelude.{◌≡◌};
    ghost use Rattle.rkt_fairing.specs.Building.{SeenBuilding};
    ghost use Rattle.rkt_life.specs.Rocket.{SeenRocket};
    ghost use Rattle.rkt_life.specs.State.{lent};
    ghost use Rattle.rkt_life.specs.declared.state.StateOf.{StateOf};

    /// Which phase's it is.
    ghost among: { Self
        → StateOf (SeenBuilding A.Handler A.Catch A.Sentinel A.Value A.Fairing)
        (SeenRocket A.Fairing A.Handler A.Catch A.Sentinel A.Value)
        (SeenRocket A.Fairing A.Handler A.Catch A.Sentinel A.Value) };

    /// It as that of its phase.
    fn into_state(self) -> State<A>
        ensures { result ≡ among self };

    /// The same, lent.
    fn as_state_ref(&self) -> StateRef<'_, A>
        ensures { lent result ≡ among self.now };
}

impl<A: App> Stateful<A> for AppBuilding<A> {
    ghost use Rattle.rkt_life.specs.declared.state.StateOf.TheVariants.{Build};

    ghost among = { λ building. Build building };

    fn into_state(self) -> State<A> {
        StateOf::Build(self)
    }

    fn as_state_ref(&self) -> StateRef<'_, A> {
        StateOf::Build(self)
    }
}

impl<A: App> Stateful<A> for Igniting<A> {
    ghost use Rattle.rkt_life.specs.declared.state.StateOf.TheVariants.{Ignite};

    ghost among = { λ rocket. Ignite rocket };

    fn into_state(self) -> State<A> {
        StateOf::Ignite(self)
    }

    fn as_state_ref(&self) -> StateRef<'_, A> {
        StateOf::Ignite(self)
    }
}

impl<A: App> Stateful<A> for Orbiting<A> {
    ghost use Rattle.rkt_life.specs.declared.state.StateOf.TheVariants.{Orbit};

    ghost among = { λ rocket. Orbit rocket };

    fn into_state(self) -> State<A> {
        StateOf::Orbit(self)
    }

    fn as_state_ref(&self) -> StateRef<'_, A> {
        StateOf::Orbit(self)
    }
}

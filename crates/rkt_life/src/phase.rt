//! The phases that a rocket goes through.
use crate::{Igniting, Orbiting, Stateful};
use rkt_fairing::{App, AppBuilding};

/// The phase of a rocket that is being built.
pub struct Build;

/// The phase of a rocket that may be launched.
pub struct Ignite;

/// The phase of a rocket that serves.
pub struct Orbit;

// Keeps other types from being phases.
mod sealed {
    pub trait Sealed {}
}

impl sealed::Sealed for Build {}

impl sealed::Sealed for Ignite {}

impl sealed::Sealed for Orbit {}

/// A phase of an application's rocket. There are no others.
pub trait Phase<A: App>: sealed::Sealed {
    /// What a rocket of this phase is made of.
    type State: Stateful<A>;
}

impl<A: App> Phase<A> for Build {
    type State = AppBuilding<A>;
}

impl<A: App> Phase<A> for Ignite {
    type State = Igniting<A>;
}

impl<A: App> Phase<A> for Orbit {
    type State = Orbiting<A>;
}

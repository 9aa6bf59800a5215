//! What is asked before a rocket may be launched.
ghost use Rattle.std.specs.Prelude.{◌≡◌, Bool, false, ⊤};
ghost use Rattle.std.specs.Option.{is_none};
ghost use Rattle.rkt_config.specs.Managed.{value_at};
ghost use Rattle.rkt_ignition.specs.Sentinels.{SeenIgnited, MayEither};

use either::Either;
use rkt_http::Key;
use rkt_request::{Config, Managed, State, Types};
use rkt_response::Debug;
use std::marker::{Model, PhantomData};

/// What a sentinel sees of a rocket that has been ignited.
#[derive(Drop)]
pub struct Ignited<'a, T: Types> {
    pub config: &'a Config,
    pub managed: &'a Managed<T::Value>,
}

impl<'a, T: Types> Model for Ignited<'a, T> {
    ghost use Rattle.rkt_ignition.specs.Sentinels.{SeenIgnited};

    ghost Value = { SeenIgnited T.Value };

    ghost view = { λ r. record { config = r.config.now; managed = r.managed.now } };
}

/// A type that may keep a rocket from being launched. One that says nothing of itself may answer anything.
pub trait Sentinel<T: Types> {
    /// What it may answer.
    ghost may: { SeenIgnited T.Value → Bool → Type 0 } = { λ _ _. ⊤ };

    /// Whether the launch has to be aborted.
    fn abort(rocket: &Ignited<'_, T>) -> bool
        ensures { may rocket.now result };
}

/// A value that may keep a rocket from being launched: what a sentry holds. One that says nothing of itself may answer
/// anything.
pub trait Aborts<T: Types> {
    /// What it may answer.
    ghost may: { Self → SeenIgnited T.Value → Bool → Type 0 } = { λ _ _ _. ⊤ };

    /// Whether the launch has to be aborted.
    fn abort(&self, rocket: &Ignited<'_, T>) -> bool
        ensures { may self.now rocket.now result };
}

/// What stands for sentinels where an application has none: it lets every rocket be launched.
impl<T: Types> Aborts<T> for () {
    ghost may = { λ _ _ abort. abort ≡ false };

    fn abort(&self, _rocket: &Ignited<'_, T>) -> bool {
        false
    }
}

/// A sentinel as a value.
#[derive(Clone, Copy, Debug, Drop)]
pub struct Asks<G> {
    sentinel: PhantomData<G>,
}

impl<G> Asks<G> {
    /// The value of this sentinel.
    pub const fn new() -> Asks<G> {
        Asks {
            sentinel: PhantomData,
        }
    }
}

impl<T: Types, G: Sentinel<T>> Aborts<T> for Asks<G> {
    ghost may = { λ _ rocket abort. G.may rocket abort };

    fn abort(&self, rocket: &Ignited<'_, T>) -> bool {
        G::abort(rocket)
    }
}

impl<T: Types, G: Sentinel<T>> Sentinel<T> for Option<G> {
    ghost may = { λ rocket abort. G.may rocket abort };

    fn abort(rocket: &Ignited<'_, T>) -> bool {
        G::abort(rocket)
    }
}

/// Whether one of two sentinels has to abort. Both are asked.
fn either_aborts<T: Types, L: Sentinel<T>, R: Sentinel<T>>(rocket: &Ignited<'_, T>) -> bool
    ensures { MayEither L.may R.may rocket.now result }
{
    let (left, right) = (L::abort(rocket), R::abort(rocket));
    left || right
}

impl<T: Types, G: Sentinel<T>, E: Sentinel<T>> Sentinel<T> for Result<G, E> {
    ghost may = { MayEither G.may E.may };

    fn abort(rocket: &Ignited<'_, T>) -> bool {
        either_aborts::<T, G, E>(rocket)
    }
}

impl<T: Types, L: Sentinel<T>, R: Sentinel<T>> Sentinel<T> for Either<L, R> {
    ghost may = { MayEither L.may R.may };

    fn abort(rocket: &Ignited<'_, T>) -> bool {
        either_aborts::<T, L, R>(rocket)
    }
}

impl<T: Types, E> Sentinel<T> for Debug<E> {
    ghost may = { λ _ abort. abort ≡ false };

    fn abort(_rocket: &Ignited<'_, T>) -> bool {
        false
    }
}

impl<'a, T: Types, const KEY: u32> Sentinel<T> for State<'a, T::Value, KEY> {
    ghost may = { λ rocket abort. abort ≡ is_none (value_at (record { 0 = KEY }) rocket.managed) };

    fn abort(rocket: &Ignited<'_, T>) -> bool {
        rocket.managed.get(Key(KEY)).is_none()
    }
}

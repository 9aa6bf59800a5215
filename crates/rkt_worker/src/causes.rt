//! What stands behind the events of a launch.
ghost use Rattle.rkt_worker.specs.Lent.{IsLent};

use crate::serves::Serves;
use rkt_board::Served;
use rkt_exchange::Tables;
use rkt_fairing::App;
use rkt_link::Link;
use std::marker::PhantomData;
use std::snapshot::Snapshot;

/// The tables of an application, which a launch lends to its exchanges, and the delays of their configuration.
#[derive(Drop)]
pub(crate) struct Lent<A, T> {
    pub(crate) tables: Snapshot<T>,
    pub(crate) grace: u32,
    pub(crate) mercy: u32,
    pub(crate) app: PhantomData<A>,
}

/// What a launch of an application lends.
pub(crate) type LentBy<A> = Lent<A, Tables<A>>;

/// What is known of these tables while they are lent.
pub(crate) fn lend<A: App>(tables: &Tables<A>) -> LentBy<A>
    ensures { IsLent result tables.now }
{
    Lent {
        tables: Snapshot::of(tables),
        grace: tables.config.grace,
        mercy: tables.config.mercy,
        app: PhantomData,
    }
}

impl<A: App, K: Link> Served<A, K> for Lent<A, Tables<A>> {
    ghost use Rattle.rkt_worker.specs.Lent.{cause_of, cause_free};

    ghost cause = { cause_of ⟦<A as Serves<K>>⟧.launching };

    ghost free = { cause_free A.Reason.allowed ⟦<A as Serves<K>>⟧.launching (λ window word says. says) };
}

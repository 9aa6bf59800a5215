//! Tables that are lent by a type parameter.
ghost use Rattle.std.specs.Prelude.{◌≡◌};

use rkt_exchange::Tables;
use rkt_fairing::App;

/// What lends the tables of an application. A function that is handed a board as a type parameter names the tables by one too.
pub(crate) trait Lends<A: App> {
    ghost use Rattle.rkt_exchange.specs.Tables.{SeenTables};

    /// The tables that it lends.
    ghost lent: { Self → SeenTables A.Fairing A.Handler A.Catch A.Sentinel A.Value };

    fn tables(&self) -> &Tables<A>
        ensures lends { result.now ≡ lent self.now };
}

impl<A: App> Lends<A> for Tables<A> {
    ghost lent = { λ tables. tables };

    fn tables(&self) -> &Tables<A> {
        self
    }
}

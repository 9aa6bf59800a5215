//! Parts of a `Ctx` that are lent for writing. The clauses name the row of `Ctx`, with all that its types are known by,
//! so they stand in a file of their own.
ghost use Rattle.std.specs.Prelude.{◌≡◌};
ghost use Rattle.std.specs.Borrow.{Lends, sem};
ghost use Rattle.rkt_request.specs.contracts.ctx.Ctx.{the_row};
ghost use Rattle.rkt_cookie.specs.contracts.jar.CookieJar.{the_row as jar_row};
ghost use Rattle.rkt_turn.specs.contracts.wire.Shutdown.{the_row as shutdown_row};
ghost use Rattle.rkt_request.specs.Lent.{with_jar, with_shutdown};

use crate::ctx::Ctx;
use crate::types::Types;
use rkt_cookie::CookieJar;
use rkt_turn::Shutdown;

impl<T: Types> Ctx<T> {
    /// The jar, for changes.
    pub fn cookies_mut(&mut self) -> &mut CookieJar
        // The context ends with the jar that the caller leaves.
        ensures* writes_back { sem 𝓛 (Lends
            (the_row T.row T.Source.row T.Stream.row T.Cached.row T.Value.row T.Reason.row
            (record { meaning = T.Source.meaning; polled = T.Source.polled })
            (record { shuts = T.Source.shuts })
            (record { meaning = T.Stream.meaning; polled = T.Stream.polled })
            (record { shuts = T.Stream.shuts })
            (record { allowed = T.Reason.allowed; says = T.Reason.says; stops = T.Reason.stops })
            (record { is_clone = T.Reason.is_clone; is_infallible = T.Reason.is_infallible }))
            jar_row self.entry result (with_jar self.old)) }
        ensures value { result.now ≡ self.old.kept.jar }
    {
        &mut self.jar
    }

    /// The handle of the server's wire.
    pub fn shutdown(&mut self) -> &mut Shutdown<T::Reason>
        // The context ends with the handle that the caller leaves.
        ensures* writes_back { sem 𝓛 (Lends
            (the_row T.row T.Source.row T.Stream.row T.Cached.row T.Value.row T.Reason.row
            (record { meaning = T.Source.meaning; polled = T.Source.polled })
            (record { shuts = T.Source.shuts })
            (record { meaning = T.Stream.meaning; polled = T.Stream.polled })
            (record { shuts = T.Stream.shuts })
            (record { allowed = T.Reason.allowed; says = T.Reason.says; stops = T.Reason.stops })
            (record { is_clone = T.Reason.is_clone; is_infallible = T.Reason.is_infallible }))
            (shutdown_row T.Reason.row
            (record { allowed = T.Reason.allowed; says = T.Reason.says; stops = T.Reason.stops })
            (record { is_clone = T.Reason.is_clone; is_infallible = T.Reason.is_infallible }))
            self.entry result (with_shutdown self.old)) }
        ensures value { result.now ≡ self.old.kept.shutdown }
    {
        &mut self.shutdown
    }
}

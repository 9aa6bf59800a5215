//! What stands behind the events of a launch.
ghost use Rattle.std.specs.Prelude.{ℕ, List, Option};
ghost use Rattle.rkt_board.specs.Causes.{IsFree};
ghost use Rattle.rkt_board.specs.declared.history.EventOf.{EventOf};

use rkt_request::Types;

/// What is served over links of one kind. It says what stands behind each event of a launch, under a clock with a window.
pub trait Served<A: Types, K>: Drop {
    /// What stands behind an event that follows these.
    ghost cause: { Self → Option (ℕ × ℕ) → List (EventOf A.Cached A.Stream K) → EventOf A.Cached A.Stream K → Type 0 };

    /// What a launch enters by itself has no other cause than the word of a Trip.
    ghost free: { IsFree A.Reason.allowed cause };
}

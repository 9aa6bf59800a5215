ghost use Rattle.std.specs.Prelude.{ℕ, ◌<◌};

/// Why a wire is tripped. Every handle of the wire is told the first reason's word.
pub trait Reason: Copy {
    // What the application says of each word that may stand on a wire.
    ghost allowed: { ℕ → Type 0 } = { λ _. Unit {0} };

    // What it says of the word of one reason.
    ghost says: { Self → ℕ → Type 0 } = { λ _ _. Unit {0} };

    // Whether a reason has a word. One that has none stops nothing.
    ghost stops: { Self → Type 0 } = { λ _. Unit {0} };

    /// The word of this reason, or 0 where it has none.
    fn word(self) -> u64
        ensures nonzero { stops self → 0 < result }
        ensures says { says self result }
        ensures allowed { 0 < result → allowed result };
}

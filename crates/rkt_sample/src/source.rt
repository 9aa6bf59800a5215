//! Sources that a body is read from at once.
ghost use Rattle.std.specs.Prelude.{◌≡◌, IsSome, false};

use rkt_data::{MemorySource, Source};

/// A source that tells its bytes, whose reads are never Pending, and which is not shut but from outside.
pub trait ToldSource: Source {
    /// It tells all its bytes.
    ghost tells: { (s : Self) → IsSome (Self.Source.meaning s).whole };

    /// None of its reads is Pending.
    ghost at_once: { (s : Self) → (Self.Source.meaning s).pendings ≡ 0 };

    /// It is never shut of its own accord.
    ghost stays_open: { (s : Self) → (Self.Source.meaning s).shut ≡ false };
}

impl ToldSource for MemorySource {
    ghost use Rattle.std.specs.Prelude.{refl};

    ghost tells = { λ s. refl };

    ghost at_once = { λ s. refl };

    ghost stays_open = { λ s. refl };
}

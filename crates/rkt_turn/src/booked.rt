ghost use Rattle.std.specs.Prelude.{ℕ, List};

/// A state that may stand behind a turn lock. It stands for a name, which never changes, and for a list of entries, to
/// which a turn adds one or none.
pub trait Booked {
    type Name: Drop;

    type Entry;

    ghost name: { Self → Self.Name };

    ghost entries: { Self → List Self.Entry };

    // The number of the pass that entered it.
    ghost number: { Self.Entry → ℕ };

    // Which lists a name allows.
    ghost legal: { Self.Name → List Self.Entry → Type 0 };

    // What holds of the state itself between any two turns.
    ghost keeps: { Self → Type 0 };
}

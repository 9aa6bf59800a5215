ghost use Rattle.rkt_uri.specs.Absolute.{SpellsOneAbsolute};

/// A law of absolute URIs: a text spells one at most.
pub fn spells_one_absolute()
    ensures { SpellsOneAbsolute }
{}

ghost use Rattle.rkt_uri.specs.Origin.{SaysWhatItSpells};

/// A law of origins: a text says what it spells, so it spells one origin at most.
pub fn says_what_it_spells()
    ensures { SaysWhatItSpells }
{}

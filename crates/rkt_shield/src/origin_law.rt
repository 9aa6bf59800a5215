ghost use Rattle.rkt_shield.specs.Allow.{PrintsWhatItSpells};

/// A law of origins in a permission: what is written for one are the parts of the absolute URI that it spells.
pub fn prints_what_it_spells()
    ensures { PrintsWhatItSpells }
{}

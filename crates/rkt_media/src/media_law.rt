ghost use Rattle.rkt_media.specs.Accept.{PrefersOne};
ghost use Rattle.rkt_media.specs.AcceptText.{SpellsOneAccept};
ghost use Rattle.rkt_media.specs.MediaText.{SpellsOneMedia};

/// A law of media types: a text spells one at most, and one list of accepted ones, of which one is preferred.
pub fn spells_one_media_type()
    ensures media { SpellsOneMedia }
    ensures accept { SpellsOneAccept }
    ensures preferred { PrefersOne }
{}

//! Laws of what the program reads. Their functions do nothing.
ghost use Rattle.rkt_script.specs.Script.{OffersOnce};
ghost use Rattle.rkt_script.specs.Words.{SetsOnce};

/// A law of commands: each sets one table.
pub fn sets_once()
    ensures { SetsOnce }
{}

/// A law of scripts: each offers one list of requests.
pub fn offers_once()
    ensures { OffersOnce }
{}

//! Laws of what the program writes. Their functions do nothing.
ghost use Rattle.rkt_demo.specs.Shown.{PrintedAlone, PrintedOnce, ShownOnce};

use rkt_http::{says_what_it_spells, spells_one_host, spells_one_media_type};

/// A law of texts: so many requests of a script are shown as one text, whatever the moments are, where the same is told
/// of each, and of none from the first one for `/stop` on that a read of its body may have been refused.
pub fn shown_once()
    ensures { ShownOnce }
{
    says_what_it_spells();
    spells_one_host();
    spells_one_media_type();
}

/// A law of texts: over moments that are all within the grace so many requests of a script are shown as one text, where
/// there was memory for each of them.
pub fn printed_once()
    ensures { PrintedOnce }
{
    says_what_it_spells();
    spells_one_host();
    spells_one_media_type();
}

/// A law of texts: whatever the moments are, so many requests of a script are shown as one text where none of them is for
/// `/stop`, and there was memory for each of them.
pub fn printed_alone()
    ensures { PrintedAlone }
{
    says_what_it_spells();
    spells_one_host();
    spells_one_media_type();
}

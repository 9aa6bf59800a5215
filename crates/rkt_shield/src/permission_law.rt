ghost use Rattle.rkt_shield.specs.Permission.{SaysWhatWasSaid};

use crate::feature::Feature;

/// A law of permissions: who may use a feature is what was said of it last, whatever is said of others.
pub fn says_what_was_said()
    ensures { SaysWhatWasSaid ⟦<Feature as PartialEq>⟧.eq }
{}

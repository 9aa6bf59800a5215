ghost use Rattle.std.specs.Prelude.{◌≡◌, IfOk};
ghost use Rattle.rkt_base.specs.Want.{IfRefused, GivesUnlessNoMemory};
ghost use Rattle.rkt_grammar.specs.Grammar.{LeavesAt};
ghost use Rattle.rkt_uri.specs.Reference.{is_reference_byte, IsReference};

use crate::origin::InvalidUri;
use rkt_base::{NoMemory, Text, Want};
use rkt_grammar::{Place, first_fault};
use std::alloc::Global;
use std::marker::Model;

/// Where a reader stands in a reference.
#[derive(Clone, Copy)]
enum ReferencePlace {
    Anywhere,
}

fn is_reference(byte: u8) -> bool
    ensures { result ≡ is_reference_byte byte }
{
    byte.is_ascii_graphic() && byte != b'"' && byte != b'<' && byte != b'>'
}

impl Place for ReferencePlace {
    ghost use Rattle.rkt_uri.specs.ReferencePlaces.{place_after, may_end, rest_of};
    ghost use Rattle.rkt_uri.specs.ReferencePlaceLaws.{ends, goes_on, leads_on};

    ghost place_after = { place_after };

    ghost may_end = { may_end };

    ghost rest_of = { rest_of };

    fn after(self, byte: u8) -> Option<ReferencePlace> {
        if is_reference(byte) { Some(self) } else { None }
    }

    fn can_end(self) -> bool {
        true
    }

    ghost ends = { ends };

    ghost goes_on = { goes_on };

    ghost leads_on = { leads_on };
}

/// A reference to a URI, kept as it is written.
#[derive(Debug, Drop)]
pub struct Reference {
    text: Text,
}

impl Model for Reference {
    ghost use Rattle.std.specs.Prelude.{List, ℕ};

    ghost Value = { List ℕ };

    ghost view = { λ r. r.text };
}

impl Reference {
    pub fn parse(alloc: Global, text: &str) -> Result<Reference, Want<InvalidUri>>
        // What is accepted is a reference, and is kept as it is.
        ensures accepted { IfOk result (λ r. IsReference text.now × (r ≡ text.now)) }
        // What is a reference is accepted, unless memory runs out.
        ensures complete { IsReference text.now → GivesUnlessNoMemory result text.now }
        // A refusal names the place where the text leaves the grammar.
        ensures refused { IfRefused result (λ e. LeavesAt IsReference text.now e.at) }
    {
        match first_fault(ReferencePlace::Anywhere, text) {
            Some(at) => Err(Want::Refused(InvalidUri { at })),
            None => Ok(Reference {
                text: Text::new(alloc, text)?,
            }),
        }
    }

    pub fn as_str(&self) -> &str
        ensures { result.now ≡ self.now }
    {
        self.text.as_str()
    }

    /// The same, in a text of its own.
    pub fn try_clone(&self, alloc: Global) -> Result<Reference, NoMemory>
        ensures { IfOk result (λ r. r ≡ self.now) }
    {
        Ok(Reference {
            text: self.text.try_clone(alloc)?,
        })
    }
}

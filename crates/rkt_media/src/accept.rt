ghost use Rattle.std.specs.Prelude.{◌≡◌, ◌<◌, List, [], IfOk, codes, length};
ghost use Rattle.rkt_base.specs.Want.{IfRefused, GivesUnlessNoMemory};
ghost use Rattle.rkt_grammar.specs.Grammar.{LeavesAt};
ghost use Rattle.rkt_media.specs.Media.{bare};
ghost use Rattle.rkt_media.specs.Accept.{Weighed, Prefers};
ghost use Rattle.rkt_media.specs.AcceptText.{SpellsAccept, IsAccept};

use crate::accept_entry::{Entry, preferred_place};
use crate::accept_place::AcceptPlace;
use crate::accept_read::read_entries;
use crate::media_type::{InvalidMedia, MediaType};
use rkt_base::{NoMemory, Want, copy_all};
use rkt_grammar::first_fault;
use std::alloc::Global;
use std::marker::Model;

/// What a list has. One without entries keeps the media type that it prefers, so that this can be lent.
#[derive(Debug, Drop)]
pub(crate) enum Ranges {
    Any(MediaType),
    Listed(Vec<Entry>),
}

/// The media types that are accepted, with their weights, in order.
#[derive(Debug, Drop)]
pub struct Accept {
    ranges: Ranges,
}

impl Model for Accept {
    ghost use Rattle.std.specs.Prelude.{List};
    ghost use Rattle.rkt_media.specs.Accept.{Weighed};
    ghost use Rattle.rkt_media.specs.Ranges.{entries_of, IsKept};

    ghost Value = { List Weighed };

    ghost view = { λ a. entries_of a.ranges };

    ghost invariant = { λ a. IsKept a.ranges };
}

/// The list that a text spells.
fn read(alloc: Global, text: &str) -> Result<Accept, NoMemory>
    requires { IsAccept text.now }
    ensures { (entries : List Weighed) → SpellsAccept text.now entries → IfOk result (λ a. a ≡ entries) }
{
    let entries = read_entries(alloc, text)?;
    if entries.is_empty() {
        return Ok(Accept {
            ranges: Ranges::Any(MediaType::any(alloc)),
        });
    }
    Ok(Accept {
        ranges: Ranges::Listed(entries),
    })
}

impl Accept {
    pub fn parse(alloc: Global, text: &str) -> Result<Accept, Want<InvalidMedia>>
        // What is accepted is spelled so.
        ensures accepted { IfOk result (λ a. SpellsAccept text.now a) }
        // What is spelled so is accepted, unless memory runs out.
        ensures complete { (entries : List Weighed) → SpellsAccept text.now entries → GivesUnlessNoMemory result entries }
        // A refusal names the place where the text leaves the grammar.
        ensures refused { IfRefused result (λ e. LeavesAt IsAccept text.now e.at) }
    {
        match first_fault(AcceptPlace::Between, text) {
            Some(at) => Err(Want::Refused(InvalidMedia { at })),
            None => Ok(read(alloc, text)?),
        }
    }

    /// A copy, by an allocator that is handed in.
    pub fn try_clone(&self, alloc: Global) -> Result<Accept, NoMemory>
        ensures { IfOk result (λ a. a ≡ self.now) }
    {
        let ranges = match &self.ranges {
            Ranges::Any(media_type) => Ranges::Any(media_type.try_clone(alloc)?),
            Ranges::Listed(entries) => Ranges::Listed(copy_all(alloc, entries)?),
        };
        Ok(Accept { ranges })
    }

    /// The media type of greatest weight, then of greatest specificity, then with most parameters, then the earliest.
    pub fn preferred(&self) -> &MediaType
        ensures listed { 0 < length self.now → Prefers self.now result.now }
        // An empty list prefers any media type.
        ensures empty { self.now ≡ [] → result.now ≡ bare (codes "*") (codes "*") }
    {
        match &self.ranges {
            Ranges::Any(media_type) => media_type,
            Ranges::Listed(entries) => &entries[preferred_place(entries)].media_type,
        }
    }
}

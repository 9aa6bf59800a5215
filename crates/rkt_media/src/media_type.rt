ghost use Rattle.std.specs.Prelude.{◌≡◌, ◌∷◌, ◌++◌, [], IfOk, codes, length, flat_map};
ghost use Rattle.std.specs.Cmp.Lexicographic.{pointwise};
ghost use Rattle.rkt_base.specs.Want.{IfRefused, GivesUnlessNoMemory};
ghost use Rattle.rkt_grammar.specs.Grammar.{LeavesAt};
ghost use Rattle.rkt_media.specs.MediaText.{SpellsMedia, IsMedia, IsSpelled};
ghost use Rattle.rkt_media.specs.Media.{Media, media_text, parameter_text, is_kind, bare, utf8_text, part_specificity, specificity_of, same_parameter, same_media};

use crate::media_place::MediaPlace;
use crate::media_read::{kind_cut, read_parameters};
use rkt_base::{NoMemory, Text, Want, copy_all};
use rkt_grammar::first_fault;
use std::alloc::Global;
use std::marker::Model;
use thiserror::Error;

/// A media type with its parameters. A parameter's value is kept as it is spelled.
#[derive(Debug, Drop)]
pub struct MediaType {
    /// Type and subtype. Those of `*/*`, which is made without memory, are none.
    names: Option<(Text, Text)>,
    parameters: Vec<(Text, Text)>,
}

impl Model for MediaType {
    ghost use Rattle.rkt_media.specs.Media.{Media, media_of};
    ghost use Rattle.rkt_media.specs.MediaText.{IsSpelled};

    ghost Value = { Media };

    ghost view = { λ m. media_of m.names m.parameters.items };

    // Known types too are what a text of the grammar spells.
    ghost invariant = { λ m. IsSpelled (media_of m.names m.parameters.items) };
}

/// Where a text leaves the grammar of media types: the place of the first such byte, or the text's length.
#[derive(Clone, Copy, Debug, PartialEq, Eq, Drop, Error)]
#[error("invalid media type at byte {at}")]
pub struct InvalidMedia {
    pub at: usize,
}

/// The media type that a text spells.
fn read(alloc: Global, text: &str) -> Result<MediaType, NoMemory>
    requires { IsMedia text.now }
    ensures { (m : Media) → SpellsMedia text.now m → IfOk result (λ r. r ≡ m) }
{
    let (top, sub, behind) = kind_cut(text);
    let parameters = read_parameters(alloc, behind)?;
    MediaType::from_parts(alloc, top, sub, parameters)
}

fn same_parameter(one: &(Text, Text), other: &(Text, Text)) -> bool
    ensures { result ≡ same_parameter one.now other.now }
{
    one.0.as_str().eq_ignore_ascii_case(other.0.as_str())
        && one.1.as_str().eq_ignore_ascii_case(other.1.as_str())
}

fn same_parameters(ones: &[(Text, Text)], others: &[(Text, Text)]) -> bool
    ensures { result ≡ pointwise same_parameter ones.now others.now }
{
    if ones.len() != others.len() {
        return false;
    }
    for (at, one) in ones.iter().enumerate() {
        if !same_parameter(one, &others[at]) {
            return false;
        }
    }
    true
}

fn specificity_of_part(part: &str) -> u8
    ensures { result ≡ part_specificity part.now }
{
    if part == "*" { 0 } else { 1 }
}

impl MediaType {
    pub fn parse(alloc: Global, text: &str) -> Result<MediaType, Want<InvalidMedia>>
        // What is accepted is spelled so.
        ensures accepted { IfOk result (λ m. SpellsMedia text.now m) }
        // What is spelled so is accepted, unless memory runs out.
        ensures complete { (m : Media) → SpellsMedia text.now m → GivesUnlessNoMemory result m }
        // A refusal names the place where the text leaves the grammar.
        ensures refused { IfRefused result (λ e. LeavesAt IsMedia text.now e.at) }
    {
        match first_fault(MediaPlace::TopStart, text) {
            Some(at) => Err(Want::Refused(InvalidMedia { at })),
            None => Ok(read(alloc, text)?),
        }
    }

    /// Any media type, `*/*`. It takes no memory.
    pub fn any(alloc: Global) -> MediaType
        ensures { result ≡ bare (codes "*") (codes "*") }
    {
        MediaType {
            names: None,
            parameters: Vec::new(alloc),
        }
    }

    /// A copy, by an allocator that is handed in.
    pub fn try_clone(&self, alloc: Global) -> Result<MediaType, NoMemory>
        ensures { IfOk result (λ m. m ≡ self.now) }
    {
        let parameters = copy_all(alloc, self.parameters.as_slice())?;
        MediaType::from_parts(alloc, self.top(), self.sub(), parameters)
    }

    /// The type.
    pub fn top(&self) -> &str
        ensures { result.now ≡ self.now.top }
    {
        match &self.names {
            Some((top, _)) => top.as_str(),
            None => "*",
        }
    }

    /// The subtype.
    pub fn sub(&self) -> &str
        ensures { result.now ≡ self.now.sub }
    {
        match &self.names {
            Some((_, sub)) => sub.as_str(),
            None => "*",
        }
    }

    /// How many of its type and subtype are no star.
    pub fn specificity(&self) -> u8
        ensures { result ≡ specificity_of self.now }
    {
        specificity_of_part(self.top()) + specificity_of_part(self.sub())
    }

    /// Whether it is JSON, whatever its parameters.
    pub fn is_json(&self) -> bool
        ensures { result ≡ is_kind (codes "application") (codes "json") self.now }
    {
        self.is_kind("application", "json")
    }

    /// Whether it has this type and subtype, in any case.
    pub fn is_kind(&self, top: &str, sub: &str) -> bool
        ensures { result ≡ is_kind top.now sub.now self.now }
    {
        self.top().eq_ignore_ascii_case(top) && self.sub().eq_ignore_ascii_case(sub)
    }

    /// How many parameters it has.
    pub(crate) fn parameter_count(&self) -> usize
        ensures { result ≡ length self.now.parameters }
    {
        self.parameters.len()
    }

    /// The text of the media type, with `; ` before each parameter.
    pub fn to_text(&self, alloc: Global) -> Result<Text, NoMemory>
        ensures text { IfOk result (λ text. text ≡ media_text self.now) }
        // What is printed is read again as the same media type.
        ensures read_again { IfOk result (λ text. SpellsMedia text self.now) }
    {
        let mut text = Text::new(alloc, self.top())?;
        text.push_str("/")?;
        text.push_str(self.sub())?;
        for (name, value) in &self.parameters {
            text.push_str("; ")?;
            text.push_str(name.as_str())?;
            text.push_str("=")?;
            text.push_str(value.as_str())?;
        }
        Ok(text)
    }

    pub(crate) fn from_parts(
        alloc: Global,
        top: &str,
        sub: &str,
        parameters: Vec<(Text, Text)>,
    ) -> Result<MediaType, NoMemory>
        requires { IsSpelled (record { top = top.now; sub = sub.now; parameters = parameters.items }) }
        ensures { IfOk result (λ m. m ≡ record { top = top.now; sub = sub.now; parameters = parameters.items }) }
    {
        Ok(MediaType {
            names: Some((Text::new(alloc, top)?, Text::new(alloc, sub)?)),
            parameters,
        })
    }

    pub(crate) fn bare(alloc: Global, top: &str, sub: &str) -> Result<MediaType, NoMemory>
        requires { IsSpelled (bare top.now sub.now) }
        ensures { IfOk result (λ media. media ≡ bare top.now sub.now) }
    {
        MediaType::from_parts(alloc, top, sub, Vec::new(alloc))
    }

    pub(crate) fn utf8_text(alloc: Global, sub: &str) -> Result<MediaType, NoMemory>
        requires { IsSpelled (utf8_text sub.now) }
        ensures { IfOk result (λ media. media ≡ utf8_text sub.now) }
    {
        let mut parameters = Vec::new(alloc);
        parameters.push((Text::new(alloc, "charset")?, Text::new(alloc, "utf-8")?))?;
        MediaType::from_parts(alloc, "text", sub, parameters)
    }
}

impl PartialEq for MediaType {
    ghost use Rattle.std.specs.Cmp.{partial_equiv_from_equiv};
    ghost use Rattle.rkt_media.specs.Media.{same_media};
    ghost use Rattle.rkt_media.specs.MediaEqualityLaws.{same_media_equiv};

    ghost eq = { same_media };

    ghost laws = { partial_equiv_from_equiv same_media_equiv };

    fn eq(&self, other: &MediaType) -> bool {
        self.is_kind(other.top(), other.sub())
            && same_parameters(self.parameters.as_slice(), other.parameters.as_slice())
    }
}

impl Eq for MediaType {
    ghost use Rattle.rkt_media.specs.MediaEqualityLaws.{same_media_equiv};

    ghost laws = { same_media_equiv };
}

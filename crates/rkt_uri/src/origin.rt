ghost use Rattle.std.specs.Prelude.{◌≡◌, ◌<◌, ◌∷◌, ◌++◌, [], IfOk, OnOk, map, None, option_copied, string_bytes};
ghost use Rattle.std.specs.List.{join_with_byte};
ghost use Rattle.rkt_base.specs.Want.{IfRefused, GivesUnlessNoMemory};
ghost use Rattle.rkt_grammar.specs.Grammar.{LeavesAt};
ghost use Rattle.rkt_grammar.specs.Bytes.{slash, ampersand};
ghost use Rattle.rkt_uri.specs.Origin.{Target, Spells, IsOrigin, IsTarget, spelling, decoded, decoded_field_part, field_of, pieces, raw_segments_of, segments_of, fields_of, target_of, query_text, led, normal_form, normalized};

use crate::origin_iter::{QueryFields, RawSegments};
use crate::origin_place::{OriginPlace, Profile};
use crate::segments::Segments;
use percent_encoding::percent_decode;
use rkt_base::{NoMemory, Seq, Text, Want, copy_all};
use rkt_grammar::{before_first, behind_first, cut, first_fault};
use std::alloc::Global;
use std::marker::Model;
use thiserror::Error;

/// Where a text leaves the grammar of its kind of URI: the place of the first such byte, or the text's length.
#[derive(Clone, Copy, Debug, PartialEq, Eq, Drop, Error)]
#[error("invalid URI at byte {at}")]
pub struct InvalidUri {
    pub at: usize,
}

/// A path, and maybe a query (RFC 9112, 3.2.1).
#[derive(Debug, Drop)]
pub struct Origin {
    text: Text,
    segments: Seq<Text>,
    fields: Vec<(Text, Text)>,
}

impl Model for Origin {
    ghost use Rattle.rkt_uri.specs.Origin.{Target, target_of, IsKept};

    ghost Value = { Target };

    ghost view = { λ o. target_of o.text };

    ghost invariant = { λ o. IsKept o.text o.segments o.fields.items };
}

/// A text, percent-decoded, with the replacement character where that is no text.
fn decode(alloc: Global, piece: &str) -> Result<Text, NoMemory>
    ensures { IfOk result (λ t. t ≡ decoded piece.now) }
{
    let text = percent_decode(piece.as_bytes()).decode_utf8_lossy(alloc)?;
    Ok(Text::from_string(text.into_owned(alloc)?))
}

/// A part of a query's field, with its spaces.
fn decode_field_part(alloc: Global, part: &str) -> Result<Text, NoMemory>
    ensures { IfOk result (λ t. t ≡ decoded_field_part part.now) }
{
    let text = form_urlencoded::decode(alloc, part.as_bytes())?;
    Ok(Text::from_string(text.into_owned(alloc)?))
}

fn read_field(alloc: Global, piece: &str) -> Result<(Text, Text), NoMemory>
    ensures { IfOk result (λ field. field ≡ field_of piece.now) }
{
    let (name, value) = cut(piece, '=');
    Ok((
        decode_field_part(alloc, name)?,
        decode_field_part(alloc, value)?,
    ))
}

/// Adds the segment that a piece of a path says.
fn push_segment(alloc: Global, segments: &mut Seq<Text>, piece: &str) -> Result<(), NoMemory>
    ensures { OnOk result (segments.new ≡ segments.old ++ decoded piece.now ∷ []) }
{
    segments.push(decode(alloc, piece)?)?;
    Ok(())
}

fn read_segments(alloc: Global, path: &str) -> Result<Seq<Text>, NoMemory>
    ensures { IfOk result (λ v. v ≡ map decoded (pieces slash path.now)) }
{
    let mut segments = Seq::new(alloc);
    push_segments(alloc, &mut segments, path)?;
    Ok(segments)
}

/// Adds the segments of a path where there is none yet.
fn push_segments(alloc: Global, segments: &mut Seq<Text>, path: &str) -> Result<(), NoMemory>
    requires { segments.old ≡ [] }
    ensures { OnOk result (segments.new ≡ map decoded (pieces slash path.now)) }
{
    for piece in path.split('/') {
        if !piece.is_empty() {
            push_segment(alloc, segments, piece)?;
        }
    }
    Ok(())
}

/// Adds the field that a piece of a query says.
fn push_field(alloc: Global, fields: &mut Vec<(Text, Text)>, piece: &str) -> Result<(), NoMemory>
    ensures { OnOk result (fields.new.items ≡ fields.old.items ++ field_of piece.now ∷ []) }
{
    fields.push(read_field(alloc, piece)?)?;
    Ok(())
}

fn read_fields(alloc: Global, query: &str) -> Result<Vec<(Text, Text)>, NoMemory>
    ensures { IfOk result (λ v. v.items ≡ map field_of (pieces ampersand query.now)) }
{
    let mut fields = Vec::new(alloc);
    push_fields(alloc, &mut fields, query)?;
    Ok(fields)
}

/// Adds the fields of a query where there is none yet.
fn push_fields(alloc: Global, fields: &mut Vec<(Text, Text)>, query: &str) -> Result<(), NoMemory>
    requires { fields.old.items ≡ [] }
    ensures { OnOk result (fields.new.items ≡ map field_of (pieces ampersand query.now)) }
{
    for piece in query.split('&') {
        if !piece.is_empty() {
            push_field(alloc, fields, piece)?;
        }
    }
    Ok(())
}

/// The origin that a text spells.
fn read(alloc: Global, text: &str) -> Result<Origin, NoMemory>
    ensures { IfOk result (λ o. o ≡ target_of text.now) }
{
    let segments = read_segments(alloc, before_first(text, '?'))?;
    let fields = read_fields(alloc, behind_first(text, '?').unwrap_or(""))?;
    Ok(Origin {
        text: Text::new(alloc, text)?,
        segments,
        fields,
    })
}

fn parse_as(profile: Profile, alloc: Global, text: &str) -> Result<Origin, Want<InvalidUri>>
    ensures accepted { IfOk result (λ o. Spells profile text.now o) }
    ensures complete { (o : Target) → Spells profile text.now o → GivesUnlessNoMemory result o }
    ensures refused { IfRefused result (λ e. LeavesAt (IsOrigin profile) text.now e.at) }
{
    match first_fault(OriginPlace::Start(profile), text) {
        Some(at) => Err(Want::Refused(InvalidUri { at })),
        None => Ok(read(alloc, text)?),
    }
}

/// The pieces that are not empty, each with the separator before it.
fn led_pieces(alloc: Global, text: &str, separator: char) -> Result<String, NoMemory>
    requires { separator < 128 }
    ensures { IfOk result (λ t. string_bytes t ≡ led separator (pieces separator text.now)) }
{
    let mut led = String::new(alloc);
    push_led(&mut led, text, separator)?;
    Ok(led)
}

/// Adds them to an empty text.
fn push_led(out: &mut String, text: &str, separator: char) -> Result<(), NoMemory>
    requires separator { separator < 128 }
    requires empty { string_bytes out.old ≡ [] }
    ensures { OnOk result (string_bytes out.new ≡ led separator (pieces separator text.now)) }
{
    for piece in text.split(separator) {
        if !piece.is_empty() {
            out.push(separator)?;
            out.push_str(piece)?;
        }
    }
    Ok(())
}

/// The path of the normal form.
fn normal_path(alloc: Global, path: &str) -> Result<String, NoMemory>
    ensures { IfOk result (λ t. string_bytes t ≡ slash ∷ join_with_byte slash (pieces slash path.now)) }
{
    let mut text = led_pieces(alloc, path, '/')?;
    if text.as_str().is_empty() {
        text.push_str("/")?;
    }
    Ok(text)
}

/// Adds a query behind its question mark, if there is one.
fn push_query(text: &mut String, query: Option<&str>) -> Result<(), NoMemory>
    ensures { OnOk result (string_bytes text.new ≡ string_bytes text.old ++ query_text (option_copied query.entry)) }
{
    if let Some(query) = query {
        text.push_str("?")?;
        text.push_str(query)?;
    }
    Ok(())
}

/// The text of an origin's normal form.
fn normal_text(alloc: Global, path: &str, query: &str) -> Result<Text, NoMemory>
    ensures { IfOk result (λ t. t ≡ spelling (normal_form path.now query.now)) }
{
    let fields = led_pieces(alloc, query, '&')?;
    let mut text = normal_path(alloc, path)?;
    push_query(&mut text, behind_first(fields.as_str(), '&'))?;
    Ok(Text::from_string(text))
}

impl Origin {
    /// The origin of a request.
    pub fn parse(alloc: Global, text: &str) -> Result<Origin, Want<InvalidUri>>
        // What is accepted is spelled so.
        ensures accepted { IfOk result (λ o. Spells Profile.Request text.now o) }
        // What is spelled so is accepted, unless memory runs out.
        ensures complete { (o : Target) → Spells Profile.Request text.now o → GivesUnlessNoMemory result o }
        // A refusal names the place where the text leaves the grammar.
        ensures refused { IfRefused result (λ e. LeavesAt (IsOrigin Profile.Request) text.now e.at) }
    {
        parse_as(Profile::Request, alloc, text)
    }

    /// The origin of a route, which may have angle brackets.
    pub fn parse_route(alloc: Global, text: &str) -> Result<Origin, Want<InvalidUri>>
        ensures accepted { IfOk result (λ o. Spells Profile.Route text.now o) }
        ensures complete { (o : Target) → Spells Profile.Route text.now o → GivesUnlessNoMemory result o }
        ensures refused { IfRefused result (λ e. LeavesAt (IsOrigin Profile.Route) text.now e.at) }
    {
        parse_as(Profile::Route, alloc, text)
    }

    /// The same origin, in texts of its own.
    pub fn try_clone(&self, alloc: Global) -> Result<Origin, NoMemory>
        ensures { IfOk result (λ o. o ≡ self.now) }
    {
        Ok(Origin {
            text: self.text.try_clone(alloc)?,
            segments: Seq::from_vec(copy_all(alloc, self.segments.as_slice())?),
            fields: copy_all(alloc, self.fields.as_slice())?,
        })
    }

    pub fn as_str(&self) -> &str
        ensures { result.now ≡ spelling self.now }
    {
        self.text.as_str()
    }

    pub fn path(&self) -> &str
        ensures { result.now ≡ self.now.path }
    {
        before_first(self.text.as_str(), '?')
    }

    pub fn query(&self) -> Option<&str>
        ensures { option_copied result ≡ self.now.query }
    {
        behind_first(self.text.as_str(), '?')
    }

    /// The normal form: no empty segment, and no empty piece in the query.
    pub fn into_normalized(self, alloc: Global) -> Result<Origin, NoMemory>
        ensures value { IfOk result (λ o. o ≡ normalized self) }
        // Normalizing twice is normalizing once.
        ensures settled { IfOk result (λ o. normalized o ≡ o) }
        ensures same_segments { IfOk result (λ o. segments_of o ≡ segments_of self) }
        ensures same_fields { IfOk result (λ o. fields_of o ≡ fields_of self) }
        // What has a spelling has one in its normal form.
        ensures spelled { IfOk result (λ o. (profile : Profile) → IsTarget profile self → IsTarget profile o) }
    {
        let text = normal_text(alloc, self.path(), self.query().unwrap_or(""))?;
        Ok(Origin {
            text,
            segments: self.segments,
            fields: self.fields,
        })
    }

    /// Takes the query away.
    pub fn clear_query(&mut self)
        ensures { self.new ≡ record { path = self.old.path; query = None } }
    {
        let end = before_first(self.text.as_str(), '?').len();
        self.text.truncate(end);
        self.fields.clear();
    }

    /// The decoded segments of the path.
    pub fn segments(&self) -> Segments<'_>
        ensures { result ≡ segments_of self.now }
    {
        Segments::new(self.segments.as_slice())
    }

    /// The pieces of the path as they stand.
    pub fn raw_segments(&self) -> RawSegments<'_>
        ensures { result ≡ raw_segments_of self.now }
    {
        RawSegments::new(self.path())
    }

    /// The decoded fields of the query.
    pub fn query_fields(&self) -> QueryFields<'_>
        ensures { result ≡ fields_of self.now }
    {
        QueryFields::new(self.fields.as_slice())
    }
}

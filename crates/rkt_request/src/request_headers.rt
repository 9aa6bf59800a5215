//! The headers of a request, with what is read of them whenever they change.
ghost use Rattle.std.specs.Prelude.{◌≡◌, [], Some, IfOk, OnOk, OnErr, IsTrue, MatchBool, codes};
ghost use Rattle.std.specs.Option.{option_copied};
ghost use Rattle.std.specs.Str.{str_eq_ignore_ascii_case};
ghost use Rattle.rkt_media.specs.AcceptText.{SpellsAccept};
ghost use Rattle.rkt_http.specs.Headers.{added, replaced};
ghost use Rattle.rkt_media.specs.Media.{known_media};
ghost use Rattle.rkt_media.specs.MediaText.{SpellsMedia};
ghost use Rattle.rkt_media.specs.declared.known.Known.TheVariants.{Any};
ghost use Rattle.rkt_request.specs.Seen.{IsAccept, IsContentType, ReadAs, first_value};

use rkt_base::{NoMemory, accepted};
use rkt_http::{Accept, ContentType, Header, HeaderMap, MediaType};
use std::alloc::Global;
use std::marker::Model;

/// A header map, of which the first Content-Type and the first Accept are each read once, when they change.
#[derive(Drop)]
pub(crate) struct RequestHeaders {
    alloc: Global,
    map: HeaderMap,
    content_type: Option<ContentType>,
    accept: Option<Accept>,
    any: MediaType,
}

impl Model for RequestHeaders {
    ghost use Rattle.std.specs.Prelude.{List};
    ghost use Rattle.rkt_http.specs.Headers.{Group};
    ghost use Rattle.rkt_request.specs.RequestHeaders.{IsRead};

    ghost Value = { List Group };

    ghost view = { λ h. h.map };

    ghost invariant = { λ h. IsRead h.map h.content_type h.accept h.any };
}

/// The content type that a text spells.
fn read_content_type(alloc: Global, text: &str) -> Result<Option<ContentType>, NoMemory>
    ensures { IfOk result (ReadAs SpellsMedia text.now) }
{
    accepted(ContentType::parse(alloc, text))
}

/// The media types that a text spells.
fn read_accept(alloc: Global, text: &str) -> Result<Option<Accept>, NoMemory>
    ensures { IfOk result (ReadAs SpellsAccept text.now) }
{
    accepted(Accept::parse(alloc, text))
}

fn first_content_type(alloc: Global, headers: &HeaderMap) -> Result<Option<ContentType>, NoMemory>
    ensures { IfOk result (IsContentType headers.now) }
{
    match headers.get_one("Content-Type") {
        Some(text) => read_content_type(alloc, text),
        None => Ok(None),
    }
}

fn first_accept(alloc: Global, headers: &HeaderMap) -> Result<Option<Accept>, NoMemory>
    ensures { IfOk result (IsAccept headers.now) }
{
    match headers.get_one("Accept") {
        Some(text) => read_accept(alloc, text),
        None => Ok(None),
    }
}

/// What the first Content-Type and the first Accept spell.
fn read_firsts(
    alloc: Global,
    headers: &HeaderMap,
) -> Result<(Option<ContentType>, Option<Accept>), NoMemory>
    ensures content_type { IfOk result (λ read. IsContentType headers.now read.0) }
    ensures accept { IfOk result (λ read. IsAccept headers.now read.1) }
{
    let content_type = first_content_type(alloc, headers)?;
    let accept = first_accept(alloc, headers)?;
    Ok((content_type, accept))
}

/// Adds a header, and keeps what it spells.
fn add_with<V: Drop>(
    map: &mut HeaderMap,
    header: Header,
    kept: &mut Option<V>,
    read: Option<V>,
) -> Result<(), NoMemory>
    ensures added { OnOk result (map.new ≡ added map.old header) }
    ensures read { OnOk result (kept.new ≡ read) }
    ensures stays { OnErr result (map.new ≡ map.old) }
    ensures kept { OnErr result (kept.new ≡ kept.old) }
{
    map.add(header)?;
    *kept = read;
    Ok(())
}

/// Puts a header in place of those of its name, and keeps what it spells.
fn replace_with<V: Drop>(
    map: &mut HeaderMap,
    header: Header,
    kept: &mut Option<V>,
    read: Option<V>,
) -> Result<(), NoMemory>
    ensures replaced { OnOk result (map.new ≡ replaced map.old header) }
    ensures read { OnOk result (kept.new ≡ read) }
    ensures stays { OnErr result (map.new ≡ map.old) }
    ensures kept { OnErr result (kept.new ≡ kept.old) }
{
    map.replace(header)?;
    *kept = read;
    Ok(())
}

fn is_named(header: &Header, name: &str) -> bool
    ensures { result ≡ str_eq_ignore_ascii_case header.now.name name.now }
{
    header.name().as_str().eq_ignore_ascii_case(name)
}

/// Whether a header that is added becomes the first of this name.
fn is_first(headers: &HeaderMap, header: &Header, name: &str) -> bool
    ensures named { IsTrue result → IsTrue (str_eq_ignore_ascii_case header.now.name name.now) }
    ensures first { MatchBool result (first_value (added headers.now header.now) name.now ≡ Some header.now.value)
        (first_value (added headers.now header.now) name.now ≡ first_value headers.now name.now) }
{
    if !is_named(header, name) {
        return false;
    }
    headers.get_one(name).is_none()
}

impl RequestHeaders {
    /// No headers, which take no memory.
    pub(crate) fn none(alloc: Global) -> RequestHeaders
        ensures { result ≡ [] }
    {
        RequestHeaders {
            alloc,
            map: HeaderMap::new(alloc),
            content_type: None,
            accept: None,
            any: MediaType::any(alloc),
        }
    }

    pub(crate) fn new(alloc: Global, map: HeaderMap) -> Result<RequestHeaders, NoMemory>
        ensures { IfOk result (λ headers. headers ≡ map) }
    {
        let (content_type, accept) = read_firsts(alloc, &map)?;
        Ok(RequestHeaders {
            alloc,
            map,
            content_type,
            accept,
            any: MediaType::any(alloc),
        })
    }

    pub(crate) fn map(&self) -> &HeaderMap
        ensures { result.now ≡ self.now }
    {
        &self.map
    }

    pub(crate) fn content_type(&self) -> Option<&ContentType>
        ensures { IsContentType self.now (option_copied result) }
    {
        self.content_type.as_ref()
    }

    pub(crate) fn accept(&self) -> Option<&Accept>
        ensures { IsAccept self.now (option_copied result) }
    {
        self.accept.as_ref()
    }

    /// The media type of anything.
    pub(crate) fn any(&self) -> &MediaType
        ensures { result.now ≡ known_media Any }
    {
        &self.any
    }

    /// Adds a header behind those of its name.
    pub(crate) fn add(&mut self, header: Header) -> Result<(), NoMemory>
        ensures ok { OnOk result (self.new ≡ added self.old header) }
        ensures err { OnErr result (self.new ≡ self.old) }
    {
        if is_first(&self.map, &header, "Content-Type") {
            return self.add_content_type(header);
        }
        if is_first(&self.map, &header, "Accept") {
            return self.add_accept(header);
        }
        self.map.add(header)?;
        Ok(())
    }

    /// Adds a header that becomes the first Content-Type.
    fn add_content_type(&mut self, header: Header) -> Result<(), NoMemory>
        requires first { first_value (added self.old header) (codes "Content-Type") ≡ Some header.value }
        requires others { first_value (added self.old header) (codes "Accept") ≡ first_value self.old (codes "Accept") }
        ensures ok { OnOk result (self.new ≡ added self.old header) }
        ensures err { OnErr result (self.new ≡ self.old) }
    {
        let content_type = read_content_type(self.alloc, header.value())?;
        add_with(&mut self.map, header, &mut self.content_type, content_type)
    }

    /// Adds a header that becomes the first Accept.
    fn add_accept(&mut self, header: Header) -> Result<(), NoMemory>
        requires first { first_value (added self.old header) (codes "Accept") ≡ Some header.value }
        requires others { first_value (added self.old header) (codes "Content-Type")
            ≡ first_value self.old (codes "Content-Type") }
        ensures ok { OnOk result (self.new ≡ added self.old header) }
        ensures err { OnErr result (self.new ≡ self.old) }
    {
        let accept = read_accept(self.alloc, header.value())?;
        add_with(&mut self.map, header, &mut self.accept, accept)
    }

    /// Puts a header in place of those of its name.
    pub(crate) fn replace(&mut self, header: Header) -> Result<(), NoMemory>
        ensures ok { OnOk result (self.new ≡ replaced self.old header) }
        ensures err { OnErr result (self.new ≡ self.old) }
    {
        if is_named(&header, "Content-Type") {
            return self.replace_content_type(header);
        }
        if is_named(&header, "Accept") {
            return self.replace_accept(header);
        }
        self.map.replace(header)?;
        Ok(())
    }

    /// Puts a header in place of those that are called Content-Type, as it is.
    fn replace_content_type(&mut self, header: Header) -> Result<(), NoMemory>
        requires { IsTrue (str_eq_ignore_ascii_case header.name (codes "Content-Type")) }
        ensures ok { OnOk result (self.new ≡ replaced self.old header) }
        ensures err { OnErr result (self.new ≡ self.old) }
    {
        let content_type = read_content_type(self.alloc, header.value())?;
        replace_with(&mut self.map, header, &mut self.content_type, content_type)
    }

    /// Puts a header in place of those that are called Accept, as it is.
    fn replace_accept(&mut self, header: Header) -> Result<(), NoMemory>
        requires { IsTrue (str_eq_ignore_ascii_case header.name (codes "Accept")) }
        ensures ok { OnOk result (self.new ≡ replaced self.old header) }
        ensures err { OnErr result (self.new ≡ self.old) }
    {
        let accept = read_accept(self.alloc, header.value())?;
        replace_with(&mut self.map, header, &mut self.accept, accept)
    }
}

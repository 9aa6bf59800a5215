//! A response.
ghost use Rattle.std.specs.Option.{ForSome};
ghost use Rattle.std.specs.Prelude.{◌≡◌, ◌+◌, List, ℕ, None, Some, IfOk, OnOk, OnErr, codes, drop, is_some, max, option_map, unwrap_or};
ghost use Rattle.rkt_http.specs.Headers.{added, first_value, group_of, removed, replaced, values_of};
ghost use Rattle.rkt_http.specs.Reading.{MaybeReadAs, ReadAs};
ghost use Rattle.rkt_media.specs.MediaText.{SpellsMedia};
ghost use Rattle.rkt_message.specs.declared.content.Content.{Content};

use crate::body::Body;
use crate::builder::Builder;
use rkt_base::{NoMemory, Want, accepted};
use rkt_cookie::Cookie;
use rkt_data::Source;
use rkt_http::{ContentType, Header, HeaderMap, Status};
use std::alloc::{AllocError, Global};
use std::marker::Model;

/// A response: a status where one is set, headers, and a body.
#[derive(Drop)]
pub struct Response<S> {
    alloc: Global,
    status: Option<Status>,
    headers: HeaderMap,
    pub(crate) body: Body<S>,
}

/// The content type that a text spells.
fn read_content_type(alloc: Global, text: &str) -> Result<Option<ContentType>, NoMemory>
    ensures { IfOk result (ReadAs SpellsMedia text.now) }
{
    accepted(ContentType::parse(alloc, text))
}

impl<S> Model for Response<S> {
    ghost use Rattle.std.specs.Prelude.{option_map};
    ghost use Rattle.rkt_message.specs.Response.{ResponseOf};

    ghost Value = { ResponseOf S };

    ghost view = { λ r. record { status = option_map (λ s. s.code) r.status; headers = r.headers; body = r.body } };
}

impl<S: Source> Response<S> {
    ghost use Rattle.rkt_message.specs.Body.{body_of, stripped};
    ghost use Rattle.rkt_message.specs.Response.{ReadsCookies, empty_response, joined, merged, with_body, with_headers};

    /// With nothing set.
    pub fn new(alloc: Global) -> Response<S>
        ensures { result ≡ empty_response }
    {
        Response {
            alloc,
            status: None,
            headers: HeaderMap::new(alloc),
            body: Body::none(),
        }
    }

    /// With nothing set.
    pub fn default(alloc: Global) -> Response<S>
        ensures { result ≡ empty_response }
    {
        Response::new(alloc)
    }

    /// Builds on a response with nothing set.
    pub fn build(alloc: Global) -> Builder<S>
        ensures { result ≡ empty_response }
    {
        Builder::new(Response::new(alloc))
    }

    /// Builds on another response.
    pub fn build_from(other: Response<S>) -> Builder<S>
        ensures { result ≡ other }
    {
        Builder::new(other)
    }

    pub(crate) fn alloc(&self) -> Global {
        self.alloc
    }

    /// The status, which is 200 where none is set.
    pub fn status(&self) -> Status
        ensures { result.code ≡ unwrap_or self.now.status 200 }
    {
        self.status.unwrap_or(Status::Ok)
    }

    pub fn set_status(&mut self, status: Status)
        ensures { self.new ≡ record self.old { status = Some status.code } }
    {
        self.status = Some(status);
    }

    /// What the first Content-Type says, read afresh.
    pub fn content_type(&self) -> Result<Option<ContentType>, NoMemory>
        ensures { IfOk result (λ found. MaybeReadAs SpellsMedia (first_value self.now.headers (codes "Content-Type")) found) }
    {
        match self.headers.get_one("Content-Type") {
            None => Ok(None),
            Some(text) => read_content_type(self.alloc, text),
        }
    }

    /// The cookies of all Set-Cookie headers that are read as one.
    pub fn cookies(&self) -> Result<Vec<Cookie>, NoMemory>
        ensures { IfOk result (λ cookies. ReadsCookies (values_of self.now.headers (codes "Set-Cookie")) cookies.items) }
    {
        let mut cookies = Vec::new(self.alloc);
        for text in self.headers.get("Set-Cookie") {
            match Cookie::parse_encoded(self.alloc, text) {
                Ok(cookie) => cookies.push(cookie)?,
                Err(Want::Refused(_)) => {}
                Err(Want::NoMemory) => return Err(AllocError),
            }
        }
        Ok(cookies)
    }

    pub fn headers(&self) -> &HeaderMap
        ensures { result.now ≡ self.now.headers }
    {
        &self.headers
    }

    /// Leaves this header alone under its name, and answers whether there was one. It keeps the place of the one before.
    pub fn set_header(&mut self, header: Header) -> Result<bool, NoMemory>
        ensures ok { OnOk result (self.new ≡ with_headers self.old (replaced self.old.headers header)) }
        ensures there { IfOk result (λ there. there ≡ is_some (group_of self.old.headers header.name)) }
        ensures err { OnErr result (self.new ≡ self.old) }
    {
        self.headers.replace(header)
    }

    /// `set_header` of a name and a value.
    pub fn set_raw_header(&mut self, name: &str, value: &str) -> Result<bool, NoMemory>
        ensures ok { OnOk result
            (self.new ≡ with_headers self.old (replaced self.old.headers (record { name = name.now; value = value.now }))) }
        ensures there { IfOk result (λ there. there ≡ is_some (group_of self.old.headers name.now)) }
        ensures err { OnErr result (self.new ≡ self.old) }
    {
        let header = Header::new(self.alloc, name, value)?;
        self.set_header(header)
    }

    /// Adds a header behind those of its name.
    pub fn adjoin_header(&mut self, header: Header) -> Result<(), NoMemory>
        ensures ok { OnOk result (self.new ≡ with_headers self.old (added self.old.headers header)) }
        ensures err { OnErr result (self.new ≡ self.old) }
    {
        self.headers.add(header)
    }

    /// `adjoin_header` of a name and a value.
    pub fn adjoin_raw_header(&mut self, name: &str, value: &str) -> Result<(), NoMemory>
        ensures ok { OnOk result
            (self.new ≡ with_headers self.old (added self.old.headers (record { name = name.now; value = value.now }))) }
        ensures err { OnErr result (self.new ≡ self.old) }
    {
        let header = Header::new(self.alloc, name, value)?;
        self.adjoin_header(header)
    }

    /// Takes all headers of a name away.
    pub fn remove_header(&mut self, name: &str)
        ensures { self.new ≡ with_headers self.old (removed self.old.headers name.now) }
    {
        self.headers.remove(name);
    }

    pub fn body(&self) -> &Body<S>
        ensures { result.now ≡ self.now.body }
    {
        &self.body
    }

    /// Sets a body of bytes, and their size where it is not to be counted.
    pub fn set_sized_body(&mut self, size: Option<usize>, bytes: Vec<u8>)
        ensures { self.new ≡ with_body self.old (body_of (Content.Sized bytes.items size)) }
    {
        self.body = Body::with_sized(bytes, 0, size);
    }

    /// Sets a body that a source gives.
    pub fn set_streamed_body(&mut self, stream: S)
        ensures { self.new ≡ with_body self.old (body_of (Content.Streamed stream)) }
    {
        self.body = Body::with_unsized(stream);
    }

    /// Sets the most bytes of the body that are sent at once; 0 counts as 1.
    pub fn set_max_chunk_size(&mut self, size: usize)
        ensures { self.new ≡ with_body self.old (record self.old.body { chunk = max size 1 }) }
    {
        self.body.set_max_chunk_size(size);
    }

    /// Takes the bytes of the body away, as `Body::strip` does.
    pub fn strip_body(&mut self)
        ensures { self.new ≡ with_body self.old (stripped self.old.body) }
    {
        self.body.strip();
    }

    /// Takes over what is set in another response: its status, its body, and its headers, which replace those of their
    /// names.
    pub fn merge(&mut self, other: Response<S>) -> Result<(), NoMemory>
        ensures ok { OnOk result (self.new ≡ merged self.old other) }
        // Headers that the other has none of stay.
        ensures stays { OnOk result ((name : List ℕ)
            → group_of other.headers name ≡ None
            → group_of self.new.headers name ≡ group_of self.old.headers name) }
        ensures err { OnErr result (self.new ≡ self.old) }
    {
        self.headers.overwrite(other.headers)?;
        self.status = other.status.or(self.status);
        if other.body.is_some() {
            self.body = other.body;
        }
        Ok(())
    }

    /// Takes over what another response has and this one has not: status and body, where none is set. The other's
    /// headers are added behind those of their names.
    pub fn join(&mut self, other: Response<S>) -> Result<(), NoMemory>
        ensures ok { OnOk result (self.new ≡ joined self.old other) }
        // A status that is set stays.
        ensures stays { ForSome self.old.status (λ status. self.new.status ≡ Some status) }
        ensures err { OnErr result (self.new ≡ self.old) }
    {
        self.headers.append(other.headers)?;
        self.status = self.status.or(other.status);
        if self.body.is_none() {
            self.body = other.body;
        }
        Ok(())
    }
}

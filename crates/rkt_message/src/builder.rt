//! Builds a response.
ghost use Rattle.std.specs.Prelude.{◌≡◌, Ok, Some, OnOk, OnErr, max};
ghost use Rattle.rkt_http.specs.Headers.{added, replaced};
ghost use Rattle.rkt_message.specs.declared.content.Content.{Content};

use crate::response::Response;
use rkt_base::NoMemory;
use rkt_data::Source;
use rkt_http::{Header, Status};
use std::alloc::Global;
use std::marker::Model;

/// Builds a response by calls that can be written one behind another. It is seen as the response that it has so far.
#[derive(Drop)]
pub struct Builder<S> {
    alloc: Global,
    response: Response<S>,
}

impl<S> Model for Builder<S> {
    ghost use Rattle.rkt_message.specs.Response.{ResponseOf};

    ghost Value = { ResponseOf S };

    ghost view = { λ b. b.response };
}

impl<S: Source> Builder<S> {
    ghost use Rattle.rkt_message.specs.Body.{body_of};
    ghost use Rattle.rkt_message.specs.Response.{empty_response, joined, merged, with_body, with_headers};

    /// Builds on a response.
    pub fn new(base: Response<S>) -> Builder<S>
        ensures { result ≡ base }
    {
        Builder {
            alloc: base.alloc(),
            response: base,
        }
    }

    /// `Response::set_status`.
    pub fn status(&mut self, status: Status) -> &mut Builder<S>
        ensures itself { result.ghost_name ≡ self.entry.ghost_name }
        ensures value { result.now ≡ record self.old { status = Some status.code } }
    {
        self.response.set_status(status);
        self
    }

    /// `Response::set_header`.
    pub fn header(&mut self, header: Header) -> Result<(), NoMemory>
        ensures ok { OnOk result (self.new ≡ with_headers self.old (replaced self.old.headers header)) }
        ensures err { OnErr result (self.new ≡ self.old) }
    {
        self.response.set_header(header)?;
        Ok(())
    }

    /// `Response::adjoin_header`.
    pub fn header_adjoin(&mut self, header: Header) -> Result<(), NoMemory>
        ensures ok { OnOk result (self.new ≡ with_headers self.old (added self.old.headers header)) }
        ensures err { OnErr result (self.new ≡ self.old) }
    {
        self.response.adjoin_header(header)
    }

    /// `Response::set_raw_header`.
    pub fn raw_header(&mut self, name: &str, value: &str) -> Result<(), NoMemory>
        ensures ok { OnOk result
            (self.new ≡ with_headers self.old (replaced self.old.headers (record { name = name.now; value = value.now }))) }
        ensures err { OnErr result (self.new ≡ self.old) }
    {
        self.response.set_raw_header(name, value)?;
        Ok(())
    }

    /// `Response::adjoin_raw_header`.
    pub fn raw_header_adjoin(&mut self, name: &str, value: &str) -> Result<(), NoMemory>
        ensures ok { OnOk result
            (self.new ≡ with_headers self.old (added self.old.headers (record { name = name.now; value = value.now }))) }
        ensures err { OnErr result (self.new ≡ self.old) }
    {
        self.response.adjoin_raw_header(name, value)
    }

    /// `Response::set_sized_body`.
    pub fn sized_body(&mut self, size: Option<usize>, bytes: Vec<u8>) -> &mut Builder<S>
        ensures itself { result.ghost_name ≡ self.entry.ghost_name }
        ensures value { result.now ≡ with_body self.old (body_of (Content.Sized bytes.items size)) }
    {
        self.response.set_sized_body(size, bytes);
        self
    }

    /// `Response::set_streamed_body`.
    pub fn streamed_body(&mut self, stream: S) -> &mut Builder<S>
        ensures itself { result.ghost_name ≡ self.entry.ghost_name }
        ensures value { result.now ≡ with_body self.old (body_of (Content.Streamed stream)) }
    {
        self.response.set_streamed_body(stream);
        self
    }

    /// `Response::set_max_chunk_size`.
    pub fn max_chunk_size(&mut self, size: usize) -> &mut Builder<S>
        ensures itself { result.ghost_name ≡ self.entry.ghost_name }
        ensures value { result.now ≡ with_body self.old (record self.old.body { chunk = max size 1 }) }
    {
        self.response.set_max_chunk_size(size);
        self
    }

    /// `Response::merge`.
    pub fn merge(&mut self, other: Response<S>) -> Result<(), NoMemory>
        ensures ok { OnOk result (self.new ≡ merged self.old other) }
        ensures err { OnErr result (self.new ≡ self.old) }
    {
        self.response.merge(other)
    }

    /// `Response::join`.
    pub fn join(&mut self, other: Response<S>) -> Result<(), NoMemory>
        ensures ok { OnOk result (self.new ≡ joined self.old other) }
        ensures err { OnErr result (self.new ≡ self.old) }
    {
        self.response.join(other)
    }

    /// The response that was built. It leaves one with nothing set.
    pub fn finalize(&mut self) -> Response<S>
        ensures built { result ≡ self.old }
        ensures empty { self.new ≡ empty_response }
    {
        std::mem::replace(&mut self.response, Response::new(self.alloc))
    }

    /// `finalize`, as an answer that is always Ok.
    pub fn ok<E>(&mut self) -> Result<Response<S>, E>
        ensures built { result ≡ Ok self.old }
        ensures empty { self.new ≡ empty_response }
    {
        Ok(self.finalize())
    }
}

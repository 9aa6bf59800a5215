//! The body of a response.
ghost use Rattle.std.specs.Prelude.{◌≡◌, ◌<◌, ◌++◌, [], Ok, IfSome, IfNone, drop, length, max, min, not, take};
ghost use Rattle.rkt_base.specs.declared.poll.Poll.TheVariants.{Ready};
ghost use Rattle.rkt_message.specs.declared.content.Content.{Content};

use crate::content::{Content, Rest};
use rkt_base::Poll;
use rkt_data::{Gate, Source, SourceError};
use std::alloc::Global;
use std::marker::Model;

const DEFAULT_CHUNK: usize = 4096;

/// The body of a response: bytes from a position on, a source, or nothing.
#[derive(Drop)]
pub struct Body<S> {
    content: Content<S>,
    chunk: usize,
}

impl<S> Model for Body<S> {
    ghost use Rattle.std.specs.Prelude.{◌<◌};
    ghost use Rattle.rkt_message.specs.Body.{BodyOf};

    ghost Value = { BodyOf S };

    ghost view = { λ b. record { content = b.content; chunk = b.chunk } };

    ghost invariant = { λ b. 0 < b.chunk };
}

impl<S> Default for Body<S> {
    ghost use Rattle.std.specs.Prelude.{◌≡◌};
    ghost use Rattle.rkt_message.specs.Body.{body_of};
    ghost use Rattle.rkt_message.specs.declared.content.Content.TheVariants as content;

    ghost is_default = { λ b. b ≡ body_of content.None };

    fn default() -> Body<S> {
        Body::none()
    }
}

impl<S> Body<S> {
    ghost use Rattle.rkt_message.specs.Body.{body_of};

    /// The most bytes that are sent at once, where no other number was set.
    pub const DEFAULT_MAX_CHUNK: usize = DEFAULT_CHUNK;

    fn of_content(content: Content<S>) -> Body<S>
        ensures { result ≡ body_of content }
    {
        Body {
            content,
            chunk: DEFAULT_CHUNK,
        }
    }

    /// No body, of size 0.
    pub fn none() -> Body<S>
        ensures { result ≡ body_of Content.None }
    {
        Body::of_content(Content::None)
    }

    /// No body, of no size.
    pub fn unsized_none() -> Body<S>
        ensures { result ≡ body_of Content.UnsizedNone }
    {
        Body::of_content(Content::UnsizedNone)
    }

    /// Bytes from a position on, and their size where it is not to be counted. A position past the end counts as the
    /// end.
    pub fn with_sized(bytes: Vec<u8>, position: usize, size: Option<usize>) -> Body<S>
        ensures { result ≡ body_of (Content.Sized (drop position bytes.items) size) }
    {
        let rest = Rest::new(bytes, position);
        Body::of_content(Content::Sized { rest, size })
    }

    /// All that a source gives.
    pub fn with_unsized(stream: S) -> Body<S>
        ensures { result ≡ body_of (Content.Streamed stream) }
    {
        Body::of_content(Content::Streamed(stream))
    }
}

impl<S: Source> Body<S> {
    ghost use Rattle.rkt_message.specs.Body.{body_of, is_some_content, lowered, preset_of, resized, size_of, stripped};
    ghost use Rattle.rkt_data.specs.CountedSource.{ending_of};
    ghost use Rattle.rkt_message.specs.Reading.{ByGate, Follows, Reads, ReadsSource};

    /// Sets the most bytes that are sent at once; 0 counts as 1.
    pub(crate) fn set_max_chunk_size(&mut self, size: usize)
        ensures { self.new ≡ record self.old { chunk = max size 1 } }
    {
        self.chunk = size.max(1);
    }

    /// Takes the bytes away. A body of bytes keeps its size and the size of its chunks; any other becomes no body of no
    /// size.
    pub fn strip(&mut self)
        ensures { self.new ≡ stripped self.old }
    {
        let content = std::mem::replace(&mut self.content, Content::UnsizedNone);
        self.content = content.stripped();
        if self.is_none() {
            self.chunk = DEFAULT_CHUNK;
        }
    }

    /// Whether it is what a source gives.
    pub(crate) fn is_streamed(&self) -> bool {
        matches!(self.content, Content::Streamed(_))
    }

    /// What it is.
    pub(crate) fn content(&self) -> &Content<S>
        ensures { result.now ≡ self.now.content }
    {
        &self.content
    }

    /// Whether there is no body. One that was stripped of its bytes is still a body.
    pub fn is_none(&self) -> bool
        ensures { result ≡ not (is_some_content self.now.content) }
    {
        !self.is_some()
    }

    /// Whether there is a body.
    pub fn is_some(&self) -> bool
        ensures { result ≡ is_some_content self.now.content }
    {
        self.content.is_some()
    }

    /// The size that the body was given, or that `size` has counted.
    pub fn preset_size(&self) -> Option<usize>
        ensures { result ≡ preset_of self.now.content }
    {
        self.content.preset_size()
    }

    /// The most bytes that are sent at once.
    pub fn max_chunk_size(&self) -> usize
        ensures size { result ≡ self.now.chunk }
        ensures some { 0 < result }
    {
        self.chunk
    }

    /// The preset size, or else the number of bytes that are left, which is the preset size from then on.
    pub fn size(&mut self) -> Option<usize>
        ensures size { result ≡ size_of self.old.content }
        ensures preset { self.new ≡ record self.old { content = resized self.old.content result } }
    {
        self.content.size()
    }

    /// Moves the body out and leaves none.
    pub fn take(&mut self) -> Body<S>
        ensures taken { result ≡ self.old }
        ensures none { self.new ≡ body_of Content.None }
    {
        std::mem::replace(self, Body::none())
    }

    /// Moves the bytes out, where there are any to be read.
    pub(crate) fn take_bytes(&mut self, alloc: Global) -> Option<Vec<u8>>
        ensures some { IfSome result (λ bytes. (size : _)
            × (self.old.content ≡ Content.Sized bytes.items size)
            × (self.new ≡ record self.old { content = Content.Sized [] size })) }
        ensures none { IfNone result (self.new ≡ self.old) }
    {
        self.content.take_bytes(alloc)
    }

    /// Takes what was read from the preset size.
    pub(crate) fn lower(&mut self, count: usize)
        ensures { self.new ≡ record self.old { content = resized self.old.content (lowered self.old.content count) } }
    {
        self.content.lower(count);
    }

    /// Reads the next bytes into the front of a buffer and answers how many; 0 is the end, where the buffer is not
    /// empty.
    pub fn poll_read(&mut self, gate: Gate, buf: &mut [u8]) -> Poll<Result<usize, SourceError>>
        ensures empty { length buf.old ≡ 0 → (result ≡ Ready (Ok 0)) × (self.new ≡ self.old) }
        ensures follows { Follows S.meaning gate.tripped self.old self.new }
        ensures preset { preset_of self.new.content ≡ preset_of self.old.content }
        ensures by_gate { ByGate S.polled gate (ending_of result) self.old.content self.new.content }
        ensures answer { Reads S.meaning self.old.content self.new.content buf.old buf.new result }
        // A source is asked once with all the room, where the buffer takes a byte.
        ensures source { (s : _)
            → self.old.content ≡ Content.Streamed s
            → 0 < length buf.old
            → ReadsSource S.meaning S.polled gate s self.new.content buf.old buf.new result }
        // Bytes are read as many as the buffer takes.
        ensures bytes { (rest : _) (size : _) → self.old.content ≡ Content.Sized rest size
            → let count = min (length buf.old) (length rest) in
            (result ≡ Ready (Ok count)) × (self.new.content ≡ Content.Sized (drop count rest) size) }
        // The buffer behind them stays as it was.
        ensures behind { (rest : _) (size : _)
            → self.old.content ≡ Content.Sized rest size
            → let count = min (length buf.old) (length rest) in buf.new ≡ take count rest ++ drop count buf.old }
    {
        self.content.poll_read(gate, buf)
    }
}

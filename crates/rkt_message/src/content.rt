//! What a body is.
ghost use Rattle.std.specs.Prelude.{◌≡◌, ◌<◌, ◌++◌, [], Ok, IfSome, IfNone, drop, length, min, take};
ghost use Rattle.rkt_base.specs.declared.poll.Poll.TheVariants.{Ready};
ghost use Rattle.rkt_source.specs.Source.{Keeps, Answers};
ghost use Rattle.rkt_data.specs.CountedSource.{PollsTo, ending_of};

use rkt_base::Poll;
use rkt_data::{Gate, Source, SourceError};
use std::alloc::Global;
use std::marker::Model;

/// What a body is.
#[derive(Drop)]
pub enum Content<S> {
    /// No body, whose size is 0.
    None,
    /// No body, which has no size.
    UnsizedNone,
    /// Bytes, and the size that they were given or that was asked for.
    Sized { rest: Rest, size: Option<usize> },
    /// How many bytes there were, which are there no more, and the size as above.
    Phantom { length: usize, size: Option<usize> },
    /// A source.
    Streamed(S),
}

/// Bytes, from a position on. Contracts see those that are left.
#[derive(Debug, Drop)]
pub struct Rest {
    bytes: Vec<u8>,
    position: usize,
}

impl Model for Rest {
    ghost use Rattle.std.specs.Prelude.{◌≤◌, List, ℕ, drop, vec_len};

    ghost Value = { List ℕ };

    ghost view = { λ r. drop r.position r.bytes.items };

    ghost invariant = { λ r. r.position ≤ vec_len r.bytes };
}

impl Rest {
    /// The bytes from a position on; none where it is past the end.
    pub fn new(bytes: Vec<u8>, position: usize) -> Rest
        ensures { result ≡ drop position bytes.items }
    {
        let position = position.min(bytes.len());
        Rest { bytes, position }
    }

    pub fn len(&self) -> usize
        ensures { result ≡ length self.now }
    {
        self.bytes.len() - self.position
    }

    /// Moves the next bytes into the front of a buffer, and answers how many. With the last one the memory goes.
    pub fn read(&mut self, buf: &mut [u8]) -> usize
        ensures count { result ≡ min (length buf.old) (length self.old) }
        ensures rest { self.new ≡ drop result self.old }
        ensures buf { buf.new ≡ take result self.old ++ drop result buf.old }
    {
        let count = self.read_on(buf);
        self.let_go();
        count
    }

    fn read_on(&mut self, buf: &mut [u8]) -> usize
        ensures count { result ≡ min (length buf.old) (length self.old) }
        ensures rest { self.new ≡ drop result self.old }
        ensures buf { buf.new ≡ take result self.old ++ drop result buf.old }
    {
        let rest = &self.bytes[self.position..];
        let count = buf.len().min(rest.len());
        buf[..count].copy_from_slice(&rest[..count]);
        self.position += count;
        count
    }

    // Lets the memory go of bytes that were all read.
    #[tactic(auto, using(std::proofs::lemmas::List::drop_all))]
    fn let_go(&mut self)
        ensures { self.new ≡ self.old }
    {
        if self.position < self.bytes.len() {
            return;
        }
        self.bytes.clear();
        self.bytes.shrink_to_fit();
        self.position = 0;
    }

    /// Moves all bytes out, in the memory that holds them.
    pub fn take(&mut self, alloc: Global) -> Vec<u8>
        ensures bytes { result.items ≡ self.old }
        ensures rest { self.new ≡ [] }
    {
        let mut bytes = std::mem::replace(&mut self.bytes, Vec::new(alloc));
        let position = std::mem::replace(&mut self.position, 0);
        let len = bytes.len();
        bytes.copy_within(position..len, 0);
        bytes.truncate(len - position);
        bytes
    }
}

impl<S: Source> Content<S> {
    ghost use Rattle.rkt_message.specs.declared.content.Content.{Content};
    ghost use Rattle.rkt_message.specs.Body.{is_some_content, lowered, preset_of, resized, size_of, stripped_content};
    ghost use Rattle.rkt_message.specs.Reading.{ByGate, Reads, ReadsOn, ReadsSource};

    pub fn is_some(&self) -> bool
        ensures { result ≡ is_some_content self.now }
    {
        match self {
            Content::None | Content::UnsizedNone => false,
            Content::Sized { .. } | Content::Phantom { .. } | Content::Streamed(_) => true,
        }
    }

    pub fn preset_size(&self) -> Option<usize>
        ensures { result ≡ preset_of self.now }
    {
        match self {
            Content::None => Some(0),
            Content::UnsizedNone | Content::Streamed(_) => None,
            Content::Sized { size, .. } => *size,
            Content::Phantom { size, .. } => *size,
        }
    }

    /// The preset size, or else the number of bytes that are left.
    pub fn known_size(&self) -> Option<usize>
        ensures { result ≡ size_of self.now }
    {
        match self {
            Content::None => Some(0),
            Content::UnsizedNone | Content::Streamed(_) => None,
            Content::Sized { rest, size } => Some(size.unwrap_or(rest.len())),
            Content::Phantom { length, size } => Some(size.unwrap_or(*length)),
        }
    }

    /// The same, which is the preset size from then on.
    pub fn size(&mut self) -> Option<usize>
        ensures size { result ≡ size_of self.old }
        ensures preset { self.new ≡ resized self.old result }
    {
        let known = self.known_size();
        match self {
            Content::Sized { size, .. } => *size = known,
            Content::Phantom { size, .. } => *size = known,
            Content::None | Content::UnsizedNone | Content::Streamed(_) => {}
        }
        known
    }

    /// Without its bytes.
    pub fn stripped(self) -> Content<S>
        ensures { result ≡ stripped_content self }
    {
        match self {
            Content::Sized { rest, size } => Content::Phantom {
                length: rest.len(),
                size,
            },
            Content::Phantom { length, size } => Content::Phantom { length, size },
            Content::None | Content::UnsizedNone | Content::Streamed(_) => Content::UnsizedNone,
        }
    }

    /// Moves the bytes out, where there are any to be read.
    pub fn take_bytes(&mut self, alloc: Global) -> Option<Vec<u8>>
        ensures some { IfSome result (λ bytes.
            (size : _) × (self.old ≡ Content.Sized bytes.items size) × (self.new ≡ Content.Sized [] size)) }
        ensures none { IfNone result (self.new ≡ self.old) }
    {
        match self {
            Content::Sized { rest, .. } => Some(rest.take(alloc)),
            _ => None,
        }
    }

    /// Takes what was read from the size that was given or asked for.
    pub fn lower(&mut self, count: usize)
        ensures { self.new ≡ resized self.old (lowered self.old count) }
    {
        match self {
            Content::Sized { size, .. } => *size = size.map(|size| size.saturating_sub(count)),
            Content::Phantom { size, .. } => *size = size.map(|size| size.saturating_sub(count)),
            Content::None | Content::UnsizedNone | Content::Streamed(_) => {}
        }
    }

    pub fn poll_read(&mut self, gate: Gate, buf: &mut [u8]) -> Poll<Result<usize, SourceError>>
        ensures empty { length buf.old ≡ 0 → (result ≡ Ready (Ok 0)) × (self.new ≡ self.old) }
        ensures follows { ReadsOn S.meaning gate.tripped self.old self.new }
        ensures preset { preset_of self.new ≡ preset_of self.old }
        ensures by_gate { ByGate S.polled gate (ending_of result) self.old self.new }
        ensures answer { Reads S.meaning self.old self.new buf.old buf.new result }
        // A source is asked once with all the room, where the buffer takes a byte.
        ensures source { (s : _)
            → self.old ≡ Content.Streamed s
            → 0 < length buf.old
            → ReadsSource S.meaning S.polled gate s self.new buf.old buf.new result }
        ensures bytes { (rest : _) (size : _) → self.old ≡ Content.Sized rest size
            → let count = min (length buf.old) (length rest) in
            (result ≡ Ready (Ok count)) × (self.new ≡ Content.Sized (drop count rest) size) }
        ensures behind { (rest : _) (size : _)
            → self.old ≡ Content.Sized rest size
            → let count = min (length buf.old) (length rest) in buf.new ≡ take count rest ++ drop count buf.old }
    {
        match self {
            Content::Sized { rest, .. } => Poll::Ready(Ok(rest.read(buf))),
            Content::Streamed(stream) => poll_stream(stream, gate, buf),
            Content::None | Content::UnsizedNone | Content::Phantom { .. } => Poll::Ready(Ok(0)),
        }
    }
}

// A read into an empty buffer does not call the source.
fn poll_stream<S: Source>(
    stream: &mut S,
    gate: Gate,
    buf: &mut [u8],
) -> Poll<Result<usize, SourceError>>
    ensures empty { length buf.old ≡ 0 → (result ≡ Ready (Ok 0)) × (stream.new ≡ stream.old) }
    ensures polled { 0 < length buf.old → S.polled stream.old gate (length buf.old) result stream.new }
    ensures by_gate { PollsTo S.polled gate (ending_of result) stream.old stream.new }
    ensures kept { Keeps gate.tripped (S.meaning stream.old) (S.meaning stream.new) }
    ensures answer { Answers (S.meaning stream.old) (S.meaning stream.new) buf.old buf.new result }
{
    if buf.is_empty() {
        return Poll::Ready(Ok(0));
    }
    stream.poll_read(gate, buf)
}

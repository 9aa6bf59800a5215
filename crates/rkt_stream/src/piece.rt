//! Bytes that are handed out from the front.
ghost use Rattle.std.specs.Prelude.{◌≡◌, ◌++◌, ◌==◌, [], drop, length, min, take};

use std::marker::Model;

/// The bytes of a buffer that were not handed out yet.
#[derive(Drop)]
pub(crate) struct Piece {
    bytes: Option<Vec<u8>>,
    at: usize,
}

impl Model for Piece {
    ghost use Rattle.std.specs.Prelude.{◌≤◌, List, drop, length, ℕ};
    ghost use Rattle.rkt_source.specs.Buffer.{items_of};

    ghost Value = { List ℕ };

    ghost view = { λ p. drop p.at (items_of p.bytes) };

    ghost invariant = { λ p. p.at ≤ length (items_of p.bytes) };
}

impl Piece {
    pub(crate) fn empty() -> Piece
        ensures { result ≡ [] }
    {
        Piece { bytes: None, at: 0 }
    }

    pub(crate) fn new(bytes: Vec<u8>) -> Piece
        ensures { result ≡ bytes.items }
    {
        Piece {
            bytes: Some(bytes),
            at: 0,
        }
    }

    pub(crate) fn is_empty(&self) -> bool
        ensures { result ≡ (length self.now == 0) }
    {
        match &self.bytes {
            None => true,
            Some(bytes) => self.at == bytes.len(),
        }
    }

    // Copies the next bytes to the front of a buffer, and answers how many.
    pub(crate) fn give(&mut self, buf: &mut [u8]) -> usize
        ensures count { result ≡ min (length buf.old) (length self.old) }
        ensures rest { self.new ≡ drop result self.old }
        ensures copied { buf.new ≡ take result self.old ++ drop result buf.old }
    {
        match &self.bytes {
            None => 0,
            Some(bytes) => {
                let rest = &bytes[self.at..];
                let count = buf.len().min(rest.len());
                buf[..count].copy_from_slice(&rest[..count]);
                self.at += count;
                count
            }
        }
    }
}

ghost use Rattle.std.specs.Prelude.{◌≡◌, [], ◌∷◌, ◌↔◌, IsTrue, MatchOption, map};
ghost use Rattle.std.specs.Char.{to_ascii_lowercase};
ghost use Rattle.rkt_config.specs.Limits.{IsFront};
ghost use Rattle.rkt_config.specs.Joined.{bytes_of};

/// The bytes of some pieces with a slash between each two, which are never put together.
#[derive(Clone, Copy)]
pub(crate) struct Joined<'a> {
    pub(crate) piece: &'a [u8],
    pub(crate) pieces: &'a [String],
}

impl Joined<'_> {
    /// The next byte.
    fn next_byte(&mut self) -> Option<u8>
        ensures { MatchOption result (bytes_of self.old ≡ []) (λ b. bytes_of self.old ≡ b ∷ bytes_of self.new) }
    {
        if let Some((byte, others)) = self.piece.split_first() {
            self.piece = others;
            return Some(*byte);
        }
        let (piece, others) = self.pieces.split_first()?;
        self.piece = piece.as_bytes();
        self.pieces = others;
        Some(b'/')
    }

    /// Whether a folded name is a front of whole layers of these bytes, in any case.
    pub(crate) fn has_front(mut self, front: &str) -> bool
        ensures { IsTrue result ↔ IsFront front.now (map to_ascii_lowercase (bytes_of self.entry)) }
    {
        for byte in front.as_bytes() {
            let Some(other) = self.next_byte() else {
                return false;
            };
            if other.to_ascii_lowercase() != *byte {
                return false;
            }
        }
        match self.next_byte() {
            None => true,
            Some(other) => other == b'/',
        }
    }
}

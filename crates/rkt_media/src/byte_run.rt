//! Runs of bytes at the front of a text.

ghost use Rattle.std.specs.Prelude.{◌≡◌, length};
ghost use Rattle.rkt_media.specs.Runs.{run, behind_run};
ghost use Rattle.rkt_media.specs.ByteClass.{is_of};

use crate::media_place::is_space;
use rkt_grammar::is_token_byte;

/// Bytes that are read in one run.
#[derive(Clone, Copy)]
pub(crate) enum ByteClass {
    Token,
    Blank,
    /// What may stand between the media types of a list: blanks and commas.
    Gap,
}

impl ByteClass {
    pub(crate) fn has(self, byte: u8) -> bool
        ensures { result ≡ is_of self byte }
    {
        match self {
            ByteClass::Token => is_token_byte(byte),
            ByteClass::Blank => is_space(byte),
            ByteClass::Gap => is_space(byte) || byte == b',',
        }
    }
}

/// How many bytes of a class stand at the front.
pub(crate) fn run_len(class: ByteClass, bytes: &[u8]) -> usize
    ensures { result ≡ length (run (is_of class) bytes.now) }
{
    for (at, byte) in bytes.iter().enumerate() {
        if !class.has(*byte) {
            return at;
        }
    }
    bytes.len()
}

/// The bytes of a class that a text begins with, and the rest.
pub(crate) fn run_cut(class: ByteClass, text: &str) -> (&str, &str)
    ensures run { result.0.now ≡ run (is_of class) text.now }
    ensures rest { result.1.now ≡ behind_run (is_of class) text.now }
{
    text.split_at(run_len(class, text.as_bytes()))
}

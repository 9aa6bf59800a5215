ghost use Rattle.std.specs.Prelude.{◌≡◌};
ghost use Rattle.std.specs.List.{list_all};
ghost use Rattle.rkt_grammar.specs.Grammar.{is_token_byte};

/// Whether a token may have this byte (RFC 9110, 5.6.2).
pub fn is_token_byte(byte: u8) -> bool
    ensures { result ≡ is_token_byte byte }
{
    byte.is_ascii_alphanumeric() || b"!#$%&'*+-.^_`|~".contains(&byte)
}

/// Whether a text has no other bytes. An empty one is no token, and has none.
pub fn has_token_bytes(text: &str) -> bool
    ensures { result ≡ list_all is_token_byte text.now }
{
    text.as_bytes().iter().all(|byte| is_token_byte(*byte))
}

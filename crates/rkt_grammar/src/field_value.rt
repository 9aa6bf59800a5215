ghost use Rattle.std.specs.Prelude.{◌≡◌};
ghost use Rattle.std.specs.List.{list_all};
ghost use Rattle.rkt_grammar.specs.Grammar.{is_field_value_byte};

/// Whether a field's value may have this byte (RFC 9110, 5.5).
pub fn is_field_value_byte(byte: u8) -> bool
    ensures { result ≡ is_field_value_byte byte }
{
    byte == b'\t' || byte >= b' ' && byte != 127
}

/// Whether a text has no other bytes.
pub fn has_field_value_bytes(text: &str) -> bool
    ensures { result ≡ list_all is_field_value_byte text.now }
{
    text.as_bytes()
        .iter()
        .all(|byte| is_field_value_byte(*byte))
}

ghost use Rattle.std.specs.Prelude.{◌≡◌, ◌==◌, slice_index};
ghost use Rattle.rkt_grammar.specs.Bytes.{plus_sign};
ghost use Rattle.rkt_config.specs.Numbers.{number_below, number_without_zeros, has_leading_zero};

/// Whether a sign stands first, which std would read.
fn has_plus(text: &str) -> bool
    ensures { result ≡ (slice_index text.now 0 == plus_sign) }
{
    !text.is_empty() && text.as_bytes()[0] == b'+'
}

fn has_leading_zero(text: &str) -> bool
    ensures { result ≡ has_leading_zero text.now }
{
    text.len() > 1 && text.as_bytes()[0] == b'0'
}

/// The number that a text of decimal digits spells, where a `u64` holds it.
pub(crate) fn number(text: &str) -> Option<u64>
    ensures { result ≡ number_below 64 text.now }
{
    if has_plus(text) {
        return None;
    }
    text.parse().ok()
}

/// The same for a `u32`, where a text with a zero in front of other digits spells none.
pub(crate) fn number_without_zeros(text: &str) -> Option<u32>
    ensures { result ≡ number_without_zeros text.now }
{
    if has_leading_zero(text) || has_plus(text) {
        return None;
    }
    text.parse().ok()
}

//! The parts of a media type's text.

ghost use Rattle.std.specs.Prelude.{◌≡◌, ◌≢◌, ◌∷◌, ◌<◌, ◌≤◌, ◌-◌, List, ℕ, [], false, Some, length, take, drop, slice_index, IsNone, IfSome, IsSomeAnd, IfOk, MatchOption};
ghost use Rattle.std.specs.Str.{IsUtf8, IsCharBoundary};
ghost use Rattle.rkt_media.specs.Runs.{run, behind_run};
ghost use Rattle.rkt_media.specs.Media.{Media, Parameter};
ghost use Rattle.rkt_grammar.specs.Grammar.{is_token_byte};
ghost use Rattle.rkt_grammar.specs.Bytes.{quotation_mark};
ghost use Rattle.rkt_media.specs.MediaText.{is_blank, behind_quoted, quote_step, ValueThen, SemicolonThen, ParametersThen, MediaThen, Exactly, NoSemicolon};

use crate::byte_run::{ByteClass, run_cut, run_len};
use rkt_base::{NoMemory, Text};
use std::alloc::Global;

/// The token that a text begins with, and the rest.
fn token_cut(text: &str) -> (&str, &str)
    ensures token { result.0.now ≡ run is_token_byte text.now }
    ensures rest { result.1.now ≡ behind_run is_token_byte text.now }
{
    run_cut(ByteClass::Token, text)
}

fn skip_blanks(text: &str) -> &str
    ensures { result.now ≡ behind_run is_blank text.now }
{
    run_cut(ByteClass::Blank, text).1
}

/// Whether a byte stands behind a backslash, one byte on in a quoted string; nothing at the closing mark.
fn quote_after(escaped: bool, byte: u8) -> Option<bool>
    ensures { result ≡ quote_step escaped byte }
{
    if escaped {
        Some(false)
    } else if byte == b'"' {
        None
    } else {
        Some(byte == b'\\')
    }
}

/// How long a quoted string is behind its opening mark, with its closing one.
fn quoted_len(inside: &[u8]) -> usize
    ensures within { result ≤ length inside.now }
    ensures closes { result < length inside.now → (0 < result) × (slice_index inside.now (result - 1) ≡ quotation_mark) }
    ensures rest { (more : List ℕ) → behind_quoted false inside.now ≡ Some more → more ≡ drop result inside.now }
{
    let mut escaped = false;
    for (at, byte) in inside.iter().enumerate() {
        match quote_after(escaped, *byte) {
            Some(next) => escaped = next,
            None => return at + 1,
        }
    }
    inside.len()
}

/// How long the value is that bytes begin with.
fn value_len(bytes: &[u8]) -> usize
    ensures boundary { IsUtf8 bytes.now → IsCharBoundary bytes.now result }
    ensures value { (value more : List ℕ) → ValueThen bytes.now value (Exactly more) →
        (take result bytes.now ≡ value) × (drop result bytes.now ≡ more) }
{
    let Some((first, inside)) = bytes.split_first() else {
        return 0;
    };
    if *first != b'"' {
        return run_len(ByteClass::Token, bytes);
    }
    quoted_len(inside) + 1
}

/// The value that a text begins with, and the rest.
fn value_cut(text: &str) -> (&str, &str)
    ensures value { (value more : List ℕ) → ValueThen text.now value (Exactly more) →
        (result.0.now ≡ value) × (result.1.now ≡ more) }
    ensures shorter { length result.1.now ≤ length text.now }
{
    text.split_at(value_len(text.as_bytes()))
}

/// What follows a mark that a text begins with.
fn behind_mark(text: &str, mark: char) -> Option<&str>
    requires { mark < 128 }
    ensures { MatchOption result ((rest : List ℕ) → text.now ≢ mark ∷ rest) (λ x. text.now ≡ mark ∷ x.now) }
{
    text.strip_prefix(mark)
}

/// The first parameter's name and value, and the rest.
pub(crate) fn parameter_cut(text: &str) -> Option<(&str, &str, &str)>
    ensures reads { (p : Parameter) (more : List ℕ) → SemicolonThen text.now p (Exactly more) →
        IsSomeAnd result (λ x. (x.0.now ≡ p.0) × (x.1.now ≡ p.1) × (x.2.now ≡ more)) }
    ensures none { NoSemicolon text.now → IsNone result }
    ensures shorter { IfSome result (λ x. length x.2.now < length text.now) }
{
    let behind = behind_mark(skip_blanks(text), ';')?;
    let (name, behind) = token_cut(skip_blanks(behind));
    let (value, rest) = value_cut(behind_mark(behind, '=')?);
    Some((name, value, rest))
}

/// The type, the subtype, and what is behind them.
pub(crate) fn kind_cut(text: &str) -> (&str, &str, &str)
    ensures { (m : Media) (more : List ℕ) → MediaThen text.now m (Exactly more) →
        (result.0.now ≡ m.top) × (result.1.now ≡ m.sub) × ParametersThen m.parameters (Exactly more) result.2.now }
{
    let (top, behind) = token_cut(text);
    let (sub, rest) = token_cut(behind_mark(behind, '/').unwrap_or(""));
    (top, sub, rest)
}

/// The parameters that a text spells.
pub(crate) fn read_parameters(alloc: Global, text: &str) -> Result<Vec<(Text, Text)>, NoMemory>
    ensures { (ps : List Parameter) → ParametersThen ps (Exactly []) text.now → IfOk result (λ v. v.items ≡ ps) }
{
    let mut parameters = Vec::new(alloc);
    let mut rest = text;
    'reading: loop {
        match parameter_cut(rest) {
            Some((name, value, behind)) => {
                parameters.push((Text::new(alloc, name)?, Text::new(alloc, value)?))?;
                rest = behind;
            }
            None => return Ok(parameters),
        }
    }
}

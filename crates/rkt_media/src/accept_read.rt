//! The entries of a list of accepted media types.

ghost use Rattle.std.specs.Prelude.{◌≡◌, ◌∷◌, ◌++◌, ◌<◌, List, ℕ, [], not, filter, map, length, IfOk, OnOk, OnErr};
ghost use Rattle.rkt_media.specs.Runs.{behind_run};
ghost use Rattle.rkt_media.specs.Media.{Media, Parameter};
ghost use Rattle.rkt_media.specs.MediaText.{MediaThen, ParametersThen, Exactly, NoSemicolon};
ghost use Rattle.rkt_media.specs.Accept.{Weighed, is_weight, weight_of, weight_said, weight_in, weighed};
ghost use Rattle.rkt_media.specs.AcceptText.{is_gap, SpellsAccept, IsAccept};

use crate::accept_entry::Entry;
use crate::byte_run::{ByteClass, run_cut};
use crate::media_read::{kind_cut, parameter_cut};
use crate::media_type::MediaType;
use rkt_base::{NoMemory, Text};
use std::alloc::Global;

/// The weight of a media type that has none.
const FULL_WEIGHT: u16 = 1000;

/// What follows blanks and commas.
fn skip_gap(text: &str) -> &str
    ensures { result.now ≡ behind_run is_gap text.now }
{
    run_cut(ByteClass::Gap, text).1
}

/// A weight in thousandths.
fn thousandths(weight: &str) -> u16
    ensures { result ≡ weight_of weight.now }
{
    let bytes = weight.as_bytes();
    let mut sum = 0;
    let mut unit = FULL_WEIGHT;
    for byte in bytes {
        if byte.is_ascii_digit() {
            sum += unit * u16::from(*byte - b'0');
            unit /= 10;
        }
    }
    sum
}

/// Keeps a parameter, or gives the weight that it is.
fn take_parameter(
    alloc: Global,
    kept: &mut Vec<(Text, Text)>,
    name: &str,
    value: &str,
) -> Result<Option<u16>, NoMemory>
    ensures weight { IfOk result (λ weight. weight ≡ weight_said (name.now, value.now)) }
    ensures kept { OnOk result
        (kept.new.items ≡ kept.old.items ++ filter (λ p. not (is_weight p)) ((name.now, value.now) ∷ [])) }
{
    if name.eq_ignore_ascii_case("q") {
        return Ok(Some(thousandths(value)));
    }
    kept.push((Text::new(alloc, name)?, Text::new(alloc, value)?))?;
    Ok(None)
}

/// The parameters without the weights, the first weight, and the rest.
fn weighed_parameters(alloc: Global, text: &str) -> Result<(Vec<(Text, Text)>, u16, &str), NoMemory>
    ensures { (ps : List Parameter) (more : List ℕ) → ParametersThen ps (Exactly more) text.now → NoSemicolon more →
        IfOk result (λ x. (x.0.items ≡ filter (λ p. not (is_weight p)) ps) × (x.1 ≡ weight_in ps) × (x.2.now ≡ more)) }
{
    let mut parameters = Vec::new(alloc);
    let mut weight = None;
    let mut rest = text;
    'reading: loop {
        match parameter_cut(rest) {
            Some((name, value, behind)) => {
                let said = take_parameter(alloc, &mut parameters, name, value)?;
                weight = weight.or(said);
                rest = behind;
            }
            None => return Ok((parameters, weight.unwrap_or(FULL_WEIGHT), rest)),
        }
    }
}

/// The first entry of a text, and the rest.
fn entry_cut(alloc: Global, text: &str) -> Result<(Entry, &str), NoMemory>
    requires { (m : Media) × (more : List ℕ) × MediaThen text.now m (Exactly more) × NoSemicolon more }
    ensures value { (m : Media) (more : List ℕ) → MediaThen text.now m (Exactly more) → NoSemicolon more →
        IfOk result (λ x. (x.0 ≡ weighed m) × (x.1.now ≡ more)) }
    ensures shorter { IfOk result (λ x. length x.1.now < length text.now) }
{
    let (top, sub, behind) = kind_cut(text);
    let (parameters, weight, rest) = weighed_parameters(alloc, behind)?;
    let media_type = MediaType::from_parts(alloc, top, sub, parameters)?;
    Ok((Entry { media_type, weight }, rest))
}

/// The entries that a text spells.
pub(crate) fn read_entries(alloc: Global, text: &str) -> Result<Vec<Entry>, NoMemory>
    requires { IsAccept text.now }
    ensures { (entries : List Weighed) → SpellsAccept text.now entries → IfOk result (λ v. v.items ≡ entries) }
{
    let mut entries = Vec::new(alloc);
    let mut rest = skip_gap(text);
    'reading: while !rest.is_empty() {
        let (entry, behind) = entry_cut(alloc, rest)?;
        entries.push(entry)?;
        rest = skip_gap(behind);
    }
    Ok(entries)
}

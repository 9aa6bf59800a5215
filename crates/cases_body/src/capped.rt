//! What was read under a limit, as a value tells it.
use crate::gathered::push_n;
use crate::shown::{push_count, push_flag};
use crate::words::quoted;
use cases::{CaseError, first_word, parsed, written};
use rkt_base::NoMemory;
use rkt_data::{Capped, N};
use std::alloc::Global;

fn push_told(alloc: Global, capped: &Capped<u64>, out: &mut String) -> Result<(), NoMemory> {
    push_count(alloc, "value", **capped, out)?;
    push_n(alloc, capped.n, out)
}

fn push_asked(alloc: Global, capped: &Capped<u64>, out: &mut String) -> Result<(), NoMemory> {
    push_flag(alloc, "is_complete", capped.is_complete(), out)?;
    push_flag(alloc, "is_empty", capped.is_empty(), out)
}

/// Writes through a value, of which a copy was made before: adds the copy, and then the value.
fn push_changed(
    alloc: Global,
    mut capped: Capped<u64>,
    new: u64,
    out: &mut String,
) -> Result<(), NoMemory> {
    let copy = capped;
    *capped = new;
    push_told(alloc, &copy, out)?;
    push_told(alloc, &capped, out)?;
    push_asked(alloc, &capped, out)
}

/// How many bytes were read, of `WRITTEN COMPLETE`.
fn parse_n(words: &str) -> Result<N, CaseError> {
    let (written, complete) = first_word(words);
    Ok(N {
        written: parsed::<u64>(written)?,
        complete: parsed::<bool>(complete)?,
    })
}

/// `capped WRITTEN COMPLETE | VALUE NEW`
pub fn capped_answer(
    alloc: Global,
    words: &str,
    steps: &str,
    out: &mut String,
) -> Result<(), CaseError> {
    let n = parse_n(words)?;
    let (value, new) = first_word(steps);
    let capped = Capped::new(parsed::<u64>(value)?, n);
    written(push_changed(alloc, capped, parsed::<u64>(new)?, out))
}

/// `mapped WRITTEN COMPLETE | VALUE`: the value plus one, how many bytes were read, and the value alone.
pub fn mapped_answer(
    alloc: Global,
    words: &str,
    value: &str,
    out: &mut String,
) -> Result<(), CaseError> {
    let n = parse_n(words)?;
    let capped = Capped::new(parsed::<u64>(value)?, n).map(|value: u64| value.saturating_add(1));
    push_told(alloc, &capped, out)?;
    push_count(alloc, "written", *capped.n, out)?;
    written(push_count(alloc, "inner", capped.into_inner(), out))
}

/// `whole "TEXT"`: a value that was read whole, of the text and of its length.
pub fn whole_answer(alloc: Global, words: &str, out: &mut String) -> Result<(), CaseError> {
    let (text, _) = quoted(words)?;
    let length = Capped::from(text.as_bytes()).map(|bytes| bytes.len() as u64);
    push_told(alloc, &length, out)?;
    written(push_asked(alloc, &Capped::complete(0u64, text.len()), out))
}

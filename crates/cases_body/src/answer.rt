//! What a line asks for.
use crate::body::use_body;
use crate::capped::{capped_answer, mapped_answer, whole_answer};
use crate::chunks::{push_chunks, push_join};
use crate::made::{made_peer, made_pieces, made_sources};
use crate::objects::{Counts, Listed};
use crate::shown::push_count;
use crate::steps::{take_chain_steps, take_cut_steps, take_steps};
use crate::words::{both_sides, first_step, quoted};
use cases::{Answers, CaseError, first_word, parsed, written};
use rkt_base::NoMemory;
use rkt_data::stream::ReaderStream;
use rkt_data::{CancellableIo, Chain, Data, MemorySource, Source, StreamReader};
use std::alloc::Global;
use std::cell::Cell;

/// The program, which keeps nothing from line to line.
#[derive(Drop)]
pub struct Program;

/// What is done with a source.
#[derive(Clone, Copy)]
enum Use {
    Steps,
    Body,
    Chunks(usize),
}

/// What is done with a source, how lines say it, and the steps behind it.
#[derive(Clone, Copy)]
struct Case<'a> {
    usage: Use,
    words: &'a str,
    steps: &'a str,
}

impl<'a> Case<'a> {
    fn new(usage: Use, words: &'a str, steps: &'a str) -> Case<'a> {
        Case {
            usage,
            words,
            steps,
        }
    }
}

fn use_source<S: Source>(
    alloc: Global,
    source: S,
    case: Case<'_>,
    out: &mut String,
) -> Result<(), CaseError> {
    match case.usage {
        Use::Steps => take_steps(alloc, source, case.steps, out),
        Use::Body => use_body(alloc, Data::from_source(alloc, source)?, case.steps, out),
        Use::Chunks(cap) => written(push_chunks(alloc, source, cap, out)),
    }
}

/// `"TEXT" NAME=VALUE ..`
fn over_peer(
    alloc: Global,
    counts: &Counts,
    case: Case<'_>,
    out: &mut String,
) -> Result<(), CaseError> {
    let peer = made_peer(alloc, counts, case.words)?;
    use_source(alloc, peer, case, out)
}

/// `cut PEER`
fn over_cut(
    alloc: Global,
    counts: &Counts,
    case: Case<'_>,
    out: &mut String,
) -> Result<(), CaseError> {
    let peer = made_peer(alloc, counts, case.words)?;
    let object = CancellableIo::new(peer);
    match case.usage {
        Use::Steps => take_cut_steps(alloc, object, case.steps, out),
        _ => use_source(alloc, object, case, out),
    }
}

/// `one PEER`
fn over_one(
    alloc: Global,
    counts: &Counts,
    case: Case<'_>,
    out: &mut String,
) -> Result<(), CaseError> {
    let peer = made_peer(alloc, counts, case.words)?;
    use_source(alloc, ReaderStream::one(peer), case, out)
}

/// `chain PEER + PEER`
fn over_chain(
    alloc: Global,
    counts: &Counts,
    case: Case<'_>,
    out: &mut String,
) -> Result<(), CaseError> {
    let (first, second) = both_sides(case.words)?;
    let second = made_peer(alloc, counts, second)?;
    let first = made_peer(alloc, counts, first)?;
    let chain = Chain::new(CancellableIo::new(first), second);
    match case.usage {
        Use::Steps => take_chain_steps(alloc, chain, case.steps, out),
        _ => use_source(alloc, chain, case, out),
    }
}

/// `pieces "TEXT" "TEXT" .. NAME=VALUE ..`
fn over_pieces(alloc: Global, case: Case<'_>, out: &mut String) -> Result<(), CaseError> {
    let stream = made_pieces(alloc, case.words)?;
    use_source(alloc, StreamReader::new(stream), case, out)
}

/// `sources "TEXT" "TEXT" .. NAME=VALUE ..`
fn over_sources(alloc: Global, case: Case<'_>, out: &mut String) -> Result<(), CaseError> {
    let stream = made_sources(alloc, case.words)?;
    use_source(alloc, ReaderStream::from(stream), case, out)
}

/// `nothing`
fn over_nothing(alloc: Global, case: Case<'_>, out: &mut String) -> Result<(), CaseError> {
    let reader: StreamReader<Listed<Vec<u8>>> = StreamReader::empty();
    use_source(alloc, reader, case, out)
}

/// A source that stands on streams.
fn over_stream(
    alloc: Global,
    kind: &str,
    case: Case<'_>,
    out: &mut String,
) -> Result<(), CaseError> {
    match kind {
        "pieces" => over_pieces(alloc, case, out),
        "sources" => over_sources(alloc, case, out),
        "nothing" => over_nothing(alloc, case, out),
        _ => Err(CaseError::Line),
    }
}

/// The source that the first word names, or that the line says at once.
fn over_source(
    alloc: Global,
    counts: &Counts,
    case: Case<'_>,
    out: &mut String,
) -> Result<(), CaseError> {
    if case.words.starts_with('"') {
        return over_peer(alloc, counts, case, out);
    }
    let (kind, words) = first_word(case.words);
    let case = Case { words, ..case };
    match kind {
        "cut" => over_cut(alloc, counts, case, out),
        "one" => over_one(alloc, counts, case, out),
        "chain" => over_chain(alloc, counts, case, out),
        _ => over_stream(alloc, kind, case, out),
    }
}

/// `local "TEXT"`
fn over_local(alloc: Global, words: &str, steps: &str, out: &mut String) -> Result<(), CaseError> {
    let (text, _) = quoted(words)?;
    let body: Data<MemorySource> = Data::local(text.as_bytes().to_vec(alloc)?);
    use_body(alloc, body, steps, out)
}

/// What stands on no source.
fn over_value(alloc: Global, words: &str, steps: &str, out: &mut String) -> Result<(), CaseError> {
    let (kind, words) = first_word(words);
    match kind {
        "join" => push_join(alloc, words, parsed::<usize>(steps)?, out),
        "capped" => capped_answer(alloc, words, steps, out),
        "mapped" => mapped_answer(alloc, words, steps, out),
        "whole" => whole_answer(alloc, words, out),
        _ => Err(CaseError::Line),
    }
}

/// `chunks CAP SOURCE`
fn over_chunks(
    alloc: Global,
    counts: &Counts,
    rest: &str,
    out: &mut String,
) -> Result<(), CaseError> {
    let (cap, words) = first_word(rest);
    let case = Case::new(Use::Chunks(parsed::<usize>(cap)?), words, "");
    over_source(alloc, counts, case, out)
}

fn is_value(kind: &str) -> bool {
    matches!(kind, "join" | "capped" | "mapped" | "whole")
}

fn take_case(
    alloc: Global,
    counts: &Counts,
    line: &str,
    out: &mut String,
) -> Result<(), CaseError> {
    let (words, steps) = first_step(line);
    let (kind, rest) = first_word(words);
    if is_value(kind) {
        return over_value(alloc, words, steps, out);
    }
    match kind {
        "local" => over_local(alloc, rest, steps, out),
        "body" => over_source(alloc, counts, Case::new(Use::Body, rest, steps), out),
        "chunks" => over_chunks(alloc, counts, rest, out),
        _ => over_source(alloc, counts, Case::new(Use::Steps, words, steps), out),
    }
}

/// Adds how many reads the sources had, and how many bytes they gave.
fn push_counts(alloc: Global, counts: &Counts, out: &mut String) -> Result<(), NoMemory> {
    push_count(alloc, "reads", counts.reads.get(), out)?;
    push_count(alloc, "given", counts.bytes.get(), out)
}

/// Takes the case of a line, and adds the counts where its last step asks for them.
fn take_line(alloc: Global, line: &str, out: &mut String) -> Result<(), CaseError> {
    let counts = Counts {
        reads: Cell::new(0),
        bytes: Cell::new(0),
    };
    let Some(line) = line.strip_suffix(" | counts") else {
        return take_case(alloc, &counts, line, out);
    };
    take_case(alloc, &counts, line, out)?;
    written(push_counts(alloc, &counts, out))
}

impl Answers for Program {
    fn answer(&mut self, alloc: Global, line: &str, out: &mut String) -> Result<(), CaseError> {
        take_line(alloc, line, out)
    }
}

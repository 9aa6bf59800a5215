//! The program: reads the words and the script, serves, and writes.
ghost use Rattle.std.specs.Prelude.{◌≡◌, ◌⊎◌, ◌≤◌, ◌+◌, List, ℕ, IfOk, false, map, string_bytes};
ghost use Rattle.rkt_base.specs.Counts.{Rose};
ghost use Rattle.rkt_demo.specs.Program.{OfCommand, IsAccepted, OfScript, IsScript, IsGoodScript, IsFirstBadLine, IsText, IsAllRead, refusal};
ghost use Rattle.rkt_demo.specs.Shown.{ShowsScript};
ghost use Rattle.rkt_script.specs.Streams.{ReadsToEnd, ReadsUntil, Refuses, RunsOut, Takes, TakesUnlessRefused};
ghost use Rattle.rkt_script.specs.Words.{Commands, IsCommand, IsStatus, Table};
ghost use Rattle.rkt_script.specs.declared.stream.TheConstants.{GATE};

use crate::serving::serve_with;
use rkt_base::{NoMemory, Want};
use rkt_data::{Sink, Source};
use rkt_script::{
    SCRIPT_LIMIT, StreamError, USAGE, parse_script, read_all, read_command, sets_once, write_all,
};
use rkt_serve::Clock;
use std::alloc::Global;
use std::sync::Wait;
use std::thread::Threads;

/// What to write where a setting does not take its text.
pub const CONFIG_REFUSAL: &str = "error 18 aborting due to invalid configuration\n";

// Says how the program is called.
fn refuse_words<R: Wait, K: Sink>(rt: &R, sink: &mut K) -> u8
    ensures known { (result ≡ 2) ⊎ (result ≡ 6) }
    ensures usage { result ≡ 2 → TakesUnlessRefused K.meaning K.written sink.old USAGE.now sink.new }
    ensures starved { result ≡ 6 → RunsOut K.meaning K.written sink.old USAGE.now sink.new }
{
    match write_all(rt, sink, USAGE.as_bytes()) {
        Ok(()) => 2,
        Err(StreamError::Fault) => 2,
        Err(StreamError::NoMemory) => 6,
    }
}

// How the first line that is not of the grammar is named.
fn refusal_text(alloc: Global, number: usize) -> Result<String, NoMemory>
    ensures { IfOk result (λ text. string_bytes text ≡ refusal number) }
{
    format!(in alloc; "script line {number}\n")
}

// Names the first line that is not of the grammar.
fn refuse_line<R: Wait, K: Sink>(rt: &R, alloc: Global, sink: &mut K, number: usize) -> u8
    ensures known { (result ≡ 3) ⊎ (result ≡ 6) }
    ensures script { result ≡ 3 → TakesUnlessRefused K.meaning K.written sink.old (refusal number) sink.new }
    ensures starved { result ≡ 6 → (sink.new ≡ sink.old) ⊎ RunsOut K.meaning K.written sink.old (refusal number) sink.new }
{
    let Ok(text) = refusal_text(alloc, number) else {
        return 6;
    };
    match write_all(rt, sink, text.as_bytes()) {
        Ok(()) => 3,
        Err(StreamError::Fault) => 3,
        Err(StreamError::NoMemory) => 6,
    }
}

// Says that a setting does not take its text.
fn refuse_config<R: Wait, K: Sink>(rt: &R, sink: &mut K) -> u8
    ensures known { (result ≡ 1) ⊎ (result ≡ 6) }
    ensures config { result ≡ 1 → TakesUnlessRefused K.meaning K.written sink.old CONFIG_REFUSAL.now sink.new }
    ensures starved { result ≡ 6 → RunsOut K.meaning K.written sink.old CONFIG_REFUSAL.now sink.new }
{
    match write_all(rt, sink, CONFIG_REFUSAL.as_bytes()) {
        Ok(()) => 1,
        Err(StreamError::Fault) => 1,
        Err(StreamError::NoMemory) => 6,
    }
}

// Writes the text.
fn write_text<R: Wait, K: Sink>(rt: &R, sink: &mut K, text: &[u8]) -> u8
    ensures known { (result ≡ 0) ⊎ (result ≡ 5) ⊎ (result ≡ 6) }
    ensures whole { result ≡ 0 → Takes K.meaning K.written sink.old text.now sink.new }
    ensures refused { result ≡ 5 → Refuses K.meaning K.written sink.old text.now sink.new }
    ensures starved { result ≡ 6 → RunsOut K.meaning K.written sink.old text.now sink.new }
    ensures cause { result ≡ 5 → Rose (K.meaning sink.old).faults (K.meaning sink.new).faults }
{
    match write_all(rt, sink, text) {
        Ok(()) => 0,
        Err(StreamError::Fault) => 5,
        Err(StreamError::NoMemory) => 6,
    }
}

/// Serves the script that a source gives, and writes to a sink how its requests ended. Answers the exit status.
pub fn run<R: Wait + Threads, S: Source, K: Sink, C: Clock>(
    rt: &R,
    alloc: Global,
    words: &[String],
    source: &mut S,
    sink: &mut K,
    clock: C,
) -> u8
    requires unwarned { (S.meaning source.old).warned ≡ false }
    ensures known { IsStatus result }

    // 2: the words are no command, and the usage line says what is one. Nothing was read.
    ensures usage { result ≡ 2 → ¬ IsCommand (map string_bytes words.now) }
    ensures no_command { ¬ IsCommand (map string_bytes words.now) → (result ≡ 2) ⊎ (result ≡ 6) }
    ensures unread { ¬ IsCommand (map string_bytes words.now) → source.new ≡ source.old }
    ensures usage_text { result ≡ 2 → TakesUnlessRefused K.meaning K.written sink.old USAGE.now sink.new }

    // 4: the source refused the last read, and nothing was written. At no other status was a read refused, and none was made
    // behind the end.
    ensures read { result ≡ 4 → Rose (S.meaning source.old).faults (S.meaning source.new).faults }
    ensures reads_until { result ≡ 4 → ReadsUntil S.polled GATE source.old source.new }
    ensures reads_on { ¬ (result ≡ 4) → ReadsToEnd S.polled GATE source.old source.new }
    ensures read_text { result ≡ 4 → sink.new ≡ sink.old }

    // 3: a line is not of the grammar, and the first such is named.
    ensures script { result ≡ 3 → OfScript (S.meaning source.old) (λ script. (number : ℕ)
        × IsFirstBadLine script number × TakesUnlessRefused K.meaning K.written sink.old (refusal number) sink.new) }
    ensures good { (result ≡ 0) ⊎ (result ≡ 1) ⊎ (result ≡ 5) → OfScript (S.meaning source.old) IsGoodScript }

    // 1: the script is good, a setting does not take its text, and the error says so.
    ensures config { result ≡ 1 → OfCommand (map string_bytes words.now) (λ table. ¬ IsAccepted table) }
    ensures config_text { result ≡ 1 → TakesUnlessRefused K.meaning K.written sink.old CONFIG_REFUSAL.now sink.new }

    // 5: the sink refused a write of the text, and has taken a front of it.
    ensures write { result ≡ 5 → Rose (K.meaning sink.old).faults (K.meaning sink.new).faults }
    ensures write_text { result ≡ 5
        → OfCommand (map string_bytes words.now) (λ table. IsAccepted table
        × OfScript (S.meaning source.old) (λ script. (text : List ℕ)
        × ShowsScript table (C.meaning clock).window script text
        × Refuses K.meaning K.written sink.old text sink.new)) }

    // 6: there was no memory, and nothing was written, or it was the sink that had none for what was left.
    ensures memory_usage { result ≡ 6 → ¬ IsCommand (map string_bytes words.now) → (sink.new ≡ sink.old)
        ⊎ RunsOut K.meaning K.written sink.old USAGE.now sink.new }
    ensures memory_text { result ≡ 6 → IsCommand (map string_bytes words.now) → (sink.new ≡ sink.old)
        ⊎ OfCommand (map string_bytes words.now) (λ table. OfScript (S.meaning source.old) (λ script.
        (text : List ℕ) × IsText table (C.meaning clock).window script text
        × RunsOut K.meaning K.written sink.old text sink.new)) }

    // 0: no write was refused, and the text shows as many requests of the script as may be served: all of them where
    // none is for `/stop`. Where the same is told of each, there is one such text for that number, as a law of texts
    // says, unless a read of the body of a request from the first one for `/stop` on may have been refused. Where none
    // is for `/stop`, or over moments that are all within the grace, there is just one, as other laws say, where there
    // was memory for each request.
    ensures text { result ≡ 0
        → OfCommand (map string_bytes words.now) (λ table. IsAccepted table
        × OfScript (S.meaning source.old) (λ script. (text : List ℕ)
        × ShowsScript table (C.meaning clock).window script text
        × Takes K.meaning K.written sink.old text sink.new)) }

    // Words and script of the grammar, settings that take their texts, and no fault of a stream: nothing but want of memory is
    // in the way. One command sets one table, as a law says.
    ensures complete { (table : Table) (script : List ℕ)
        → Commands (map string_bytes words.now) table
        → IsAccepted table
        → IsScript (S.meaning source.old) script
        → IsGoodScript script
        → ¬ Rose (S.meaning source.old).faults (S.meaning source.new).faults
        → ¬ Rose (K.meaning sink.old).faults (K.meaning sink.new).faults
        → (result ≡ 0) ⊎ (result ≡ 6) }

    // How much was read, and that no trip was shown to the source.
    ensures taken { (result ≡ 0) ⊎ (result ≡ 1) ⊎ (result ≡ 3) ⊎ (result ≡ 5)
        → IsAllRead (S.meaning source.old) (S.meaning source.new) }
    ensures bound { (S.meaning source.new).taken ≤ (S.meaning source.old).taken + SCRIPT_LIMIT + 1 }
    ensures unwarned { (S.meaning source.new).warned ≡ false }
{
    sets_once();
    let table = match read_command(alloc, words) {
        Ok(table) => table,
        Err(Want::Refused(_)) => return refuse_words(rt, sink),
        Err(Want::NoMemory) => return 6,
    };
    let script = match read_all(rt, alloc, source, SCRIPT_LIMIT + 1) {
        Ok(script) => script,
        Err(StreamError::Fault) => {
            // By calls, in which that is proved once for each type.
            drop(table);
            return 4;
        }
        Err(StreamError::NoMemory) => {
            drop(table);
            return 6;
        }
    };
    let requests = match parse_script(alloc, script.as_slice()) {
        Ok(requests) => requests,
        Err(Want::Refused(bad)) => {
            drop(script);
            drop(table);
            return refuse_line(rt, alloc, sink, bad.number);
        }
        Err(Want::NoMemory) => {
            drop(script);
            drop(table);
            return 6;
        }
    };
    drop(script);
    match serve_with(rt, alloc, table, requests, clock) {
        Ok(text) => write_text(rt, sink, text.as_slice()),
        Err(Want::Refused(_)) => refuse_config(rt, sink),
        Err(Want::NoMemory) => 6,
    }
}

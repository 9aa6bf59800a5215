//! A body, which is peeked, opened, read, and then gathered or sent.
use crate::gathered::{gather_bytes, gather_text};
use crate::sent::{send, send_precise};
use crate::setting::parse_setting;
use crate::shown::{push_bytes, push_count, push_flag, push_read};
use crate::words::{first_step, last_step, open_gate};
use cases::{CaseError, first_word, parsed, push_item, written};
use rkt_base::Poll;
use rkt_data::{ByteUnit, Data, DataStream, Source};
use std::alloc::Global;

/// `peek COUNT`
fn peek_step<S: Source>(
    alloc: Global,
    body: &mut Data<S>,
    rest: &str,
    out: &mut String,
) -> Result<(), CaseError> {
    match body.peek(open_gate(0), parsed::<usize>(rest)?) {
        Poll::Ready(bytes) => written(push_bytes(alloc, bytes, out)),
        Poll::Pending => written(push_item(out, "pending")),
    }
}

fn step<S: Source>(
    alloc: Global,
    body: &mut Data<S>,
    step: &str,
    out: &mut String,
) -> Result<(), CaseError> {
    let (word, rest) = first_word(step);
    match word {
        "" => Ok(()),
        "peek" => peek_step(alloc, body, rest, out),
        "complete" => written(push_flag(alloc, "complete", body.peek_complete(), out)),
        _ => Err(CaseError::Line),
    }
}

fn take_steps<S: Source>(
    alloc: Global,
    body: &mut Data<S>,
    steps: &str,
    out: &mut String,
) -> Result<(), CaseError> {
    for text in steps.split(" | ") {
        step(alloc, body, text, out)?;
    }
    Ok(())
}

/// `read SIZE`
fn read_step<S: Source>(
    alloc: Global,
    stream: &mut DataStream<S>,
    rest: &str,
    out: &mut String,
) -> Result<(), CaseError> {
    let mut buf = vec![in alloc; 0; parsed::<usize>(rest)?]?;
    let answer = stream.poll_read(open_gate(0), buf.as_mut_slice());
    written(push_read(alloc, buf.as_slice(), answer, out))
}

fn stream_step<S: Source>(
    alloc: Global,
    stream: &mut DataStream<S>,
    step: &str,
    out: &mut String,
) -> Result<(), CaseError> {
    let (word, rest) = first_word(step);
    match word {
        "" => Ok(()),
        "read" => read_step(alloc, stream, rest, out),
        "hint" => written(push_count(alloc, "hint", stream.hint() as u64, out)),
        _ => Err(CaseError::Line),
    }
}

fn take_stream_steps<S: Source>(
    alloc: Global,
    stream: &mut DataStream<S>,
    steps: &str,
    out: &mut String,
) -> Result<(), CaseError> {
    for text in steps.split(" | ") {
        stream_step(alloc, stream, text, out)?;
    }
    Ok(())
}

/// The last step, which may use the stream up.
fn finish<S: Source>(
    alloc: Global,
    mut stream: DataStream<S>,
    step: &str,
    out: &mut String,
) -> Result<(), CaseError> {
    let (word, rest) = first_word(step);
    match word {
        "bytes" => written(gather_bytes(alloc, stream, out)),
        "text" => written(gather_text(alloc, stream, out)),
        "send" => send(alloc, stream, parse_setting(rest)?, out),
        "send_precise" => send_precise(alloc, stream, parse_setting(rest)?, out),
        _ => stream_step(alloc, &mut stream, step, out),
    }
}

fn use_stream<S: Source>(
    alloc: Global,
    mut stream: DataStream<S>,
    steps: &str,
    out: &mut String,
) -> Result<(), CaseError> {
    let (steps, last) = last_step(steps);
    take_stream_steps(alloc, &mut stream, steps, out)?;
    finish(alloc, stream, last, out)
}

/// Opens the body under the limit that stands before the other steps.
fn open<S: Source>(
    alloc: Global,
    body: Data<S>,
    rest: &str,
    out: &mut String,
) -> Result<(), CaseError> {
    let (limit, steps) = first_step(rest);
    let limit = ByteUnit(parsed::<u64>(limit)?);
    use_stream(alloc, body.open(limit), steps, out)
}

/// Takes the steps before `open LIMIT`, opens, and takes those behind it.
pub fn use_body<S: Source>(
    alloc: Global,
    mut body: Data<S>,
    steps: &str,
    out: &mut String,
) -> Result<(), CaseError> {
    let Some((before, rest)) = steps.split_once("open ") else {
        return take_steps(alloc, &mut body, steps, out);
    };
    take_steps(alloc, &mut body, before, out)?;
    open(alloc, body, rest, out)
}

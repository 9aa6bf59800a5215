//! Reads a script.
ghost use Rattle.std.specs.Prelude.{◌≡◌, ◌<◌, ◌∷◌, ◌++◌, [], List, ℕ, IfOk, IfSome, IfNone, IsTrue, OnOk, length};
ghost use Rattle.std.specs.List.{list_all, take_while};
ghost use Rattle.rkt_base.specs.Want.{IfRefused};
ghost use Rattle.rkt_grammar.specs.Grammar.{is_token_byte};
ghost use Rattle.rkt_script.specs.Script.{Adds, AreGood, IsFirstBad, IsHeader, IsPiece, IsRequest, Offers};
ghost use Rattle.rkt_script.specs.Script.{content_of, is_capital, is_shutdown, is_visible, is_word, lines_of};
ghost use Rattle.rkt_script.specs.Script.{with_header, with_piece};
ghost use Rattle.rkt_script.specs.declared.script.ScriptRequest.{ScriptRequest as SeenRequest};

use rkt_base::{Bytes, NoMemory, Seq, Text, Want};
use rkt_grammar::is_token_byte;
use rkt_request::Head;
use std::alloc::Global;
use std::mem;

/// A request of a script.
#[derive(Drop)]
pub struct ScriptRequest {
    pub head: Head,
    pub body: Bytes,
}

/// The most bytes that a script may have.
pub const SCRIPT_LIMIT: usize = 16_777_216;

/// The first line that leaves the grammar, by its number, counted from 1.
#[derive(Clone, Copy, Debug, Drop, PartialEq, Eq)]
pub struct BadLine {
    pub number: usize,
}

// The first line with its line feed, and what is behind it.
fn first_line(script: &[u8]) -> (&[u8], &[u8])
    requires { 0 < length script.now }
    ensures lines { lines_of script.now ≡ result.0.now ∷ lines_of result.1.now }
    ensures parts { script.now ≡ result.0.now ++ result.1.now }
    ensures moves { 0 < length result.0.now }
{
    for (at, byte) in script.iter().enumerate() {
        if *byte == b'\n' {
            return script.split_at(at + 1);
        }
    }
    (script, &[])
}

fn content_of(line: &[u8]) -> &[u8]
    ensures { result.now ≡ content_of line.now }
{
    match line {
        [content @ .., b'\r', b'\n'] => content,
        [content @ .., b'\n'] => content,
        _ => line,
    }
}

// A line that is not of the grammar, where it stands.
#[derive(Clone, Copy, Debug, Drop, PartialEq, Eq)]
struct BadContent;

fn is_capital(byte: u8) -> bool
    ensures { result ≡ is_capital byte }
{
    byte.is_ascii_uppercase()
}

fn is_visible(byte: u8) -> bool
    ensures { result ≡ is_visible byte }
{
    byte.is_ascii_graphic()
}

fn has_only_capitals(text: &str) -> bool
    ensures { result ≡ list_all is_capital text.now }
{
    text.as_bytes().iter().all(|byte| is_capital(*byte))
}

fn is_all_visible(text: &str) -> bool
    ensures { result ≡ list_all is_visible text.now }
{
    text.as_bytes().iter().all(|byte| is_visible(*byte))
}

fn is_method(text: &str) -> bool
    ensures { result ≡ is_word is_capital text.now }
{
    !text.is_empty() && has_only_capitals(text)
}

fn is_target(text: &str) -> bool
    ensures { result ≡ is_word is_visible text.now }
{
    !text.is_empty() && is_all_visible(text)
}

// The words of a request line.
fn read_words(content: &[u8]) -> Option<(&str, &str)>
    ensures read { IfSome result (λ words. IsRequest content.now words.0.now words.1.now) }
    ensures refused { IfNone result ((method target : List ℕ) → ¬ IsRequest content.now method target) }
{
    let Ok(text) = str::from_utf8(content) else {
        return None;
    };
    let Some((method, target)) = text.split_once(' ') else {
        return None;
    };
    if is_method(method) && is_target(target) {
        Some((method, target))
    } else {
        None
    }
}

// Adds the request that a line asks.
fn read_request(
    alloc: Global,
    requests: &mut Vec<ScriptRequest>,
    content: &[u8],
) -> Result<(), Want<BadContent>>
    ensures read { OnOk result (Adds requests.old.items content.now requests.new.items) }
    ensures refused { IfRefused result (λ _. (method target : List ℕ) → ¬ IsRequest content.now method target) }
{
    let Some((method, target)) = read_words(content) else {
        return Err(Want::Refused(BadContent));
    };
    let head = Head {
        method: Text::new(alloc, method)?,
        target: Text::new(alloc, target)?,
        headers: Seq::new(alloc),
        remote: None,
    };
    requests.push(ScriptRequest {
        head,
        body: Bytes::new(alloc),
    })?;
    Ok(())
}

// The longest token that begins a text, and what is behind it.
fn split_token(text: &[u8]) -> (&[u8], &[u8])
    ensures token { result.0.now ≡ take_while is_token_byte text.now }
    ensures parts { text.now ≡ result.0.now ++ result.1.now }
{
    for (at, byte) in text.iter().enumerate() {
        if !is_token_byte(*byte) {
            return text.split_at(at);
        }
    }
    (text, &[])
}

// What is behind a mark and a space.
fn behind(mark: u8, text: &[u8]) -> Option<&[u8]>
    ensures some { IfSome result (λ rest. text.now ≡ mark ∷ 32 ∷ rest.now) }
    ensures none { IfNone result ((rest : List ℕ) → ¬ (text.now ≡ mark ∷ 32 ∷ rest)) }
{
    match text {
        [first, b' ', rest @ ..] if *first == mark => Some(rest),
        _ => None,
    }
}

// The name and the value of a header line.
fn read_field(content: &[u8]) -> Option<(&str, &[u8])>
    ensures read { IfSome result (λ field. IsHeader content.now field.0.now field.1.now) }
    ensures refused { IfNone result ((name value : List ℕ) → ¬ IsHeader content.now name value) }
{
    let text = behind(b':', content)?;
    let (name, rest) = split_token(text);
    let value = behind(b':', rest)?;
    match str::from_utf8(name) {
        Ok(name) if !name.is_empty() => Some((name, value)),
        _ => None,
    }
}

fn push_header(
    alloc: Global,
    request: &mut ScriptRequest,
    name: &str,
    value: &[u8],
) -> Result<(), NoMemory>
    ensures { OnOk result (request.new ≡ with_header name.now value.now request.old) }
{
    let name = Text::new(alloc, name)?;
    let value = Bytes::from_vec(value.to_vec(alloc)?);
    request.head.headers.push((name, value))
}

// Adds the header that a line has to the last request.
fn read_header(
    alloc: Global,
    requests: &mut Vec<ScriptRequest>,
    content: &[u8],
) -> Result<(), Want<BadContent>>
    ensures read { OnOk result (Adds requests.old.items content.now requests.new.items) }
    ensures refused { IfRefused result (λ _.
        0 < length requests.old.items → (name value : List ℕ) → ¬ IsHeader content.now name value) }
{
    let Some((name, value)) = read_field(content) else {
        return Err(Want::Refused(BadContent));
    };
    match requests.last_mut() {
        Some(request) => Ok(push_header(alloc, request, name, value)?),
        None => Err(Want::Refused(BadContent)),
    }
}

fn push_piece(alloc: Global, request: &mut ScriptRequest, bytes: &[u8]) -> Result<(), NoMemory>
    ensures { OnOk result (request.new ≡ with_piece bytes.now request.old) }
{
    let mut body = mem::replace(&mut request.body, Bytes::new(alloc)).into_vec();
    body.extend_from_slice(bytes)?;
    request.body = Bytes::from_vec(body);
    Ok(())
}

// Adds the bytes that a line has to the body of the last request.
fn read_piece(
    alloc: Global,
    requests: &mut Vec<ScriptRequest>,
    content: &[u8],
) -> Result<(), Want<BadContent>>
    ensures read { OnOk result (Adds requests.old.items content.now requests.new.items) }
    ensures refused { IfRefused result (λ _. 0 < length requests.old.items → (bytes : List ℕ) → ¬ IsPiece content.now bytes) }
{
    let Some(bytes) = behind(b'=', content) else {
        return Err(Want::Refused(BadContent));
    };
    match requests.last_mut() {
        Some(request) => Ok(push_piece(alloc, request, bytes)?),
        None => Err(Want::Refused(BadContent)),
    }
}

fn is_shutdown(content: &[u8]) -> bool
    ensures { result ≡ is_shutdown content.now }
{
    content == b"shutdown".as_slice()
}

// Leaves no request for the lines behind a `shutdown`.
fn read_shutdown(requests: &mut Vec<ScriptRequest>, content: &[u8]) -> Result<(), Want<BadContent>>
    ensures read { OnOk result (Adds requests.old.items content.now requests.new.items) }
    ensures refused { IfRefused result (λ _. ¬ IsTrue (is_shutdown content.now)) }
{
    if !is_shutdown(content) {
        return Err(Want::Refused(BadContent));
    }
    requests.clear();
    Ok(())
}

// Reads a line behind the requests that stand behind the last `shutdown`.
fn read_line(
    alloc: Global,
    requests: &mut Vec<ScriptRequest>,
    content: &[u8],
) -> Result<(), Want<BadContent>>
    ensures read { OnOk result (Adds requests.old.items content.now requests.new.items) }
    ensures refused { IfRefused result (λ _. (next : List SeenRequest) → ¬ Adds requests.old.items content.now next) }
{
    match content {
        [] | [b'#', ..] => Ok(()),
        [b':', ..] => read_header(alloc, requests, content),
        [b'=', ..] => read_piece(alloc, requests, content),
        [b's', ..] => read_shutdown(requests, content),
        _ => read_request(alloc, requests, content),
    }
}

/// The requests that a script offers, in order. Those behind its first `shutdown` are read, and not offered.
pub fn parse_script(alloc: Global, script: &[u8]) -> Result<Vec<ScriptRequest>, Want<BadLine>>
    ensures good { IfOk result (λ requests. AreGood SCRIPT_LIMIT [] (lines_of script.now)) }
    ensures requests { IfOk result (λ requests. Offers script.now requests.items) }
    ensures line { IfRefused result (λ bad. IsFirstBad 1 SCRIPT_LIMIT [] (lines_of script.now) bad.number) }
{
    let mut offered = None;
    let mut requests = Vec::new(alloc);
    let mut rest = script;
    let mut room = SCRIPT_LIMIT;
    let mut number = 1usize;
    while !rest.is_empty() {
        let (line, after) = first_line(rest);
        if line.len() > room {
            return Err(Want::Refused(BadLine { number }));
        }
        let content = content_of(line);
        if offered.is_none() && is_shutdown(content) {
            offered = Some(mem::replace(&mut requests, Vec::new(alloc)));
        }
        match read_line(alloc, &mut requests, content) {
            Ok(()) => {}
            Err(Want::Refused(_)) => return Err(Want::Refused(BadLine { number })),
            Err(Want::NoMemory) => return Err(Want::NoMemory),
        }
        room -= line.len();
        rest = after;
        number += 1;
    }
    Ok(offered.unwrap_or(requests))
}

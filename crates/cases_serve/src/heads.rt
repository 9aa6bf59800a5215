//! Requests and the links that ask them.
ghost use Rattle.std.specs.Prelude.{IfOk};
ghost use Rattle.std.specs.List.{AllByRecursion};
ghost use Rattle.rkt_link.specs.Listener.{IsFresh};
ghost use Rattle.rkt_link.specs.Memory.{IsUnused, listener_meaning};

use crate::setting::{Pair, Setting};
use cases::first_word;
use rkt_base::{Bytes, NoMemory, Seq, Text};
use rkt_request::Head;
use rkt_serve::{ListListener, MemoryLink};
use std::alloc::Global;

type Headers = Seq<(Text, Bytes)>;

fn push_header(alloc: Global, headers: &mut Headers, header: &Pair) -> Result<(), NoMemory> {
    let value = Seq::from_vec(header.right.as_bytes().to_vec(alloc)?);
    let name = Text::new(alloc, header.left.as_str())?;
    headers.push((name, value))
}

fn headers_of(alloc: Global, header: Option<&Pair>) -> Result<Headers, NoMemory> {
    let mut headers = Seq::new(alloc);
    if let Some(header) = header {
        push_header(alloc, &mut headers, header)?;
    }
    Ok(headers)
}

/// The head of `METHOD TARGET`.
pub fn head_of(alloc: Global, setting: &Setting, text: &str) -> Result<Head, NoMemory> {
    let (method, target) = first_word(text);
    let method = Text::new(alloc, method)?;
    let target = Text::new(alloc, target)?;
    let headers = headers_of(alloc, setting.header.as_ref())?;
    Ok(Head {
        method,
        target,
        headers,
        remote: None,
    })
}

/// A link that asks `METHOD TARGET`.
pub fn link_of(alloc: Global, setting: &Setting, text: &str) -> Result<MemoryLink, NoMemory>
    ensures { IfOk result IsUnused }
{
    let head = head_of(alloc, setting, text)?;
    let fails = setting.sends.clone()?;
    MemoryLink::new(alloc, head, Vec::new(alloc), fails)
}

fn links_of(alloc: Global, setting: &Setting, text: &str) -> Result<Vec<MemoryLink>, NoMemory>
    ensures { IfOk result (λ links. AllByRecursion IsUnused links.items) }
{
    let mut links = Vec::new(alloc);
    if text.is_empty() {
        return Ok(links);
    }
    for piece in text.split(" | ") {
        links.push(link_of(alloc, setting, piece)?)?;
    }
    Ok(links)
}

/// A listener over the links of `METHOD TARGET | METHOD TARGET ..`, whose polls of these numbers are Pending.
pub fn listener_of(
    alloc: Global,
    setting: &Setting,
    pends: Vec<u64>,
    text: &str,
) -> Result<ListListener, NoMemory>
    ensures { IfOk result (λ listener. IsFresh (listener_meaning listener)) }
{
    let links = links_of(alloc, setting, text)?;
    let fails = setting.polls.clone()?;
    ListListener::new(alloc, links, pends, fails)
}

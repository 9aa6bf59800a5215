//! Cases of methods, statuses and default pages.
use cases::{CaseError, parsed, written};
use rkt_base::{NoMemory, Text};
use rkt_http::{Method, Status, default_page};
use std::alloc::Global;

/// Adds a method's name, and whether its requests carry a payload.
fn push_method_or_none(method: Option<Method>, out: &mut String) -> Result<(), NoMemory> {
    match method {
        Some(method) => {
            let (name, payload) = (method.as_str(), method.supports_payload());
            write!(out, "{name} payload={payload}")
        }
        None => out.push_str("none"),
    }
}

/// Adds what a command answers of a method's name.
pub fn push_method(command: &str, text: &str, out: &mut String) -> Result<(), NoMemory> {
    match command {
        "wire" => push_method_or_none(Method::from_wire(text), out),
        _ => push_method_or_none(Method::from_str(text), out),
    }
}

/// Adds the size of a page in bytes, and the page.
fn push_page(page: &Text, out: &mut String) -> Result<(), NoMemory> {
    write!(out, "{} {:?}", page.len(), page.as_str())
}

fn push_html(alloc: Global, status: Status, out: &mut String) -> Result<(), NoMemory> {
    let page = default_page::html(alloc, status)?;
    push_page(&page, out)
}

fn push_json(alloc: Global, status: Status, out: &mut String) -> Result<(), NoMemory> {
    let page = default_page::json(alloc, status)?;
    push_page(&page, out)
}

/// Adds its class and its reason.
fn push_kind(status: Status, out: &mut String) -> Result<(), NoMemory> {
    let (class, reason) = (status.class(), status.reason());
    write!(out, "class={class:?} reason={reason:?}")
}

/// Adds what a command answers of a status.
pub fn push_status(
    alloc: Global,
    command: &str,
    text: &str,
    out: &mut String,
) -> Result<(), CaseError> {
    let status = Status::new(parsed::<u16>(text)?);
    match command {
        "html" => written(push_html(alloc, status, out)),
        "json" => written(push_json(alloc, status, out)),
        _ => written(push_kind(status, out)),
    }
}

//! Messages that came with a request.
use crate::flash::push_sent;
use crate::shown::Asked;
use rkt_base::NoMemory;
use rkt_cookie::{Cookie, CookieJar};
use rkt_http::{Outcome, Status};
use rkt_request::Ctx;
use rkt_response::FlashMessage;
use sample_app::{Sample, context};
use std::alloc::Global;

fn add_original(alloc: Global, jar: &mut CookieJar, value: &str) -> Result<(), NoMemory> {
    let cookie = Cookie::new(alloc, "_flash", value)?;
    jar.add_original(cookie)
}

/// A context with whose request this flash cookie came.
fn came(alloc: Global, value: &str) -> Result<Ctx<Sample>, NoMemory> {
    let mut jar = CookieJar::new(alloc);
    add_original(alloc, &mut jar, value)?;
    context(alloc, jar)
}

/// The message that the guard gives, or the status with which it errs.
fn guarded(
    alloc: Global,
    request: &Asked<'_>,
    ctx: &mut Ctx<Sample>,
) -> Result<Result<FlashMessage, Status>, NoMemory> {
    match request.guard::<FlashMessage>(alloc, ctx)? {
        Outcome::Success(message) => Ok(Ok(message)),
        Outcome::Error((status, ())) => Ok(Err(status)),
        Outcome::Forward(status) => Ok(Err(status)),
    }
}

fn push_changes(jar: &CookieJar, out: &mut String) -> Result<(), NoMemory> {
    write!(out, ", changes {}", jar.log().len())
}

fn push_error(status: Status, jar: &CookieJar, out: &mut String) -> Result<(), NoMemory> {
    write!(out, "error {}", status.code)?;
    push_changes(jar, out)
}

/// Adds kind and message at once.
fn push_taken(
    alloc: Global,
    message: FlashMessage,
    jar: &mut CookieJar,
    out: &mut String,
) -> Result<(), NoMemory> {
    let (kind, text) = message.into_inner(alloc, jar)?;
    write!(out, "{}|{}", kind.as_str(), text.as_str())?;
    push_changes(jar, out)
}

fn push_guard(
    alloc: Global,
    request: &Asked<'_>,
    ctx: &mut Ctx<Sample>,
    out: &mut String,
) -> Result<(), NoMemory> {
    match guarded(alloc, request, ctx)? {
        Ok(message) => push_taken(alloc, message, ctx.cookies_mut(), out),
        Err(status) => push_error(status, ctx.cookies(), out),
    }
}

/// Adds what the guard gives where a cookie came that says this.
pub fn guard(
    alloc: Global,
    request: &Asked<'_>,
    value: &str,
    out: &mut String,
) -> Result<(), NoMemory> {
    let mut ctx = came(alloc, value)?;
    push_guard(alloc, request, &mut ctx, out)
}

/// Adds what the guard gives where no cookie came.
pub fn no_cookie(alloc: Global, request: &Asked<'_>, out: &mut String) -> Result<(), NoMemory> {
    let mut ctx = context(alloc, CookieJar::new(alloc))?;
    push_guard(alloc, request, &mut ctx, out)
}

fn push_kind(
    alloc: Global,
    message: &mut FlashMessage,
    jar: &mut CookieJar,
    out: &mut String,
) -> Result<(), NoMemory> {
    let kind = message.kind(alloc, jar)?;
    write!(out, "{kind}|")
}

fn push_message(
    alloc: Global,
    message: &mut FlashMessage,
    jar: &mut CookieJar,
    out: &mut String,
) -> Result<(), NoMemory> {
    let text = message.message(alloc, jar)?;
    out.push_str(text)
}

/// Adds kind and message, one after another.
fn push_both(
    alloc: Global,
    message: &mut FlashMessage,
    jar: &mut CookieJar,
    out: &mut String,
) -> Result<(), NoMemory> {
    push_kind(alloc, message, jar, out)?;
    push_message(alloc, message, jar, out)?;
    push_changes(jar, out)?;
    push_sent(alloc, jar, 31_536_001, out)
}

fn push_one_by_one(
    alloc: Global,
    request: &Asked<'_>,
    ctx: &mut Ctx<Sample>,
    out: &mut String,
) -> Result<(), NoMemory> {
    match guarded(alloc, request, ctx)? {
        Ok(mut message) => push_both(alloc, &mut message, ctx.cookies_mut(), out),
        Err(status) => push_error(status, ctx.cookies(), out),
    }
}

/// Adds kind and message one after another, and what the jar sends then.
pub fn message(
    alloc: Global,
    request: &Asked<'_>,
    value: &str,
    out: &mut String,
) -> Result<(), NoMemory> {
    let mut ctx = came(alloc, value)?;
    push_one_by_one(alloc, request, &mut ctx, out)
}

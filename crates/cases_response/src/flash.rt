//! Flashes, and the cookies that they are sent as.
use crate::shown::{Asked, respond_under};
use cases::{CaseError, first_word, written};
use rkt_base::NoMemory;
use rkt_cookie::{Cookie, CookieJar};
use rkt_request::Ctx;
use rkt_response::Flash;
use sample_app::{Sample, context};
use std::alloc::Global;

/// The flash of a kind and a message.
fn made(alloc: Global, line: &str) -> Result<Flash<()>, NoMemory> {
    let (kind, message) = first_word(line);
    match kind {
        "success" => Flash::success(alloc, (), message),
        "warning" => Flash::warning(alloc, (), message),
        "error" => Flash::error(alloc, (), message),
        _ => Flash::new(alloc, (), kind, message),
    }
}

fn push_cookie(alloc: Global, cookie: &Cookie, out: &mut String) -> Result<(), NoMemory> {
    let text = cookie.encoded(alloc)?;
    write!(out, " | {}", text.as_str())
}

fn push_cookies(alloc: Global, cookies: &[Cookie], out: &mut String) -> Result<(), NoMemory> {
    for cookie in cookies {
        push_cookie(alloc, cookie, out)?;
    }
    Ok(())
}

/// Adds what a jar sends at a moment, each cookie behind a bar.
pub fn push_sent(
    alloc: Global,
    jar: &mut CookieJar,
    moment: u64,
    out: &mut String,
) -> Result<(), NoMemory> {
    let cookies = jar.take_delta(moment)?;
    push_cookies(alloc, cookies.as_slice(), out)
}

fn push_value(alloc: Global, flash: &Flash<()>, out: &mut String) -> Result<(), NoMemory> {
    let cookie = flash.cookie(alloc)?;
    out.push_str(cookie.value())
}

fn push_added(alloc: Global, flash: &Flash<()>, out: &mut String) -> Result<(), NoMemory> {
    let mut jar = CookieJar::new(alloc);
    flash.add_to(alloc, &mut jar)?;
    push_sent(alloc, &mut jar, 1000, out)
}

fn push_flash(alloc: Global, flash: &Flash<()>, out: &mut String) -> Result<(), NoMemory> {
    push_value(alloc, flash, out)?;
    push_added(alloc, flash, out)
}

/// Adds what a flash's cookie says, and what a jar sends of it.
pub fn flash(alloc: Global, line: &str, out: &mut String) -> Result<(), NoMemory> {
    let flash = made(alloc, line)?;
    let pushed = push_flash(alloc, &flash, out);
    flash.into_inner();
    pushed
}

fn flashing_under(
    alloc: Global,
    request: &Asked<'_>,
    ctx: &mut Ctx<Sample>,
    line: &str,
    out: &mut String,
) -> Result<(), CaseError> {
    let flash = made(alloc, line)?;
    respond_under(alloc, request, ctx, flash, out)?;
    written(push_sent(alloc, ctx.cookies_mut(), 1000, out))
}

/// Adds what the empty response answers with a flash, and what the jar of the request sends.
pub fn flashing(
    alloc: Global,
    request: &Asked<'_>,
    line: &str,
    out: &mut String,
) -> Result<(), CaseError> {
    let mut ctx = context(alloc, CookieJar::new(alloc))?;
    flashing_under(alloc, request, &mut ctx, line, out)
}

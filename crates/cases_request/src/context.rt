//! Cases of a context, which is kept from line to line.
use crate::kept::new_context;
use cases::{CaseError, first_word, pair, parsed, written};
use rkt_base::NoMemory;
use rkt_cookie::Cookie;
use rkt_http::Key;
use rkt_request::Ctx;
use sample_app::{Sample, Stopped, gate_at};
use std::alloc::Global;
use std::mem;

fn add(alloc: Global, ctx: &mut Ctx<Sample>, text: &str) -> Result<(), CaseError> {
    let (name, value) = pair(text, "=")?;
    let cookie = Cookie::new(alloc, name, value)?;
    written(ctx.cookies_mut().add(cookie))
}

fn renew(ctx: &mut Ctx<Sample>, made: Result<Ctx<Sample>, NoMemory>) -> Result<(), CaseError> {
    *ctx = made?;
    Ok(())
}

fn set_gate(ctx: &mut Ctx<Sample>, text: &str) -> Result<(), CaseError> {
    ctx.set_gate(gate_at(parsed::<u64>(text)?));
    Ok(())
}

fn notify(ctx: &mut Ctx<Sample>) -> Result<(), CaseError> {
    ctx.shutdown().notify(Stopped);
    Ok(())
}

/// Changes a context.
pub fn change_ctx(
    alloc: Global,
    ctx: &mut Ctx<Sample>,
    command: &str,
    text: &str,
) -> Result<(), CaseError> {
    match command {
        "new" => renew(ctx, new_context(alloc)),
        "add" => add(alloc, ctx, text),
        "gate" => set_gate(ctx, text),
        "notify" => notify(ctx),
        _ => Err(CaseError::Line),
    }
}

/// Adds the number that is cached under a key.
fn push_cached(ctx: &mut Ctx<Sample>, text: &str, out: &mut String) -> Result<(), CaseError> {
    let (key, value) = first_word(text);
    let key = Key(u32::from(parsed::<u8>(key)?));
    let value = parsed::<u8>(value)?;
    let cached = ctx.local_cache(key, || value)?;
    written(write!(out, "{cached}"))
}

fn push_told(ctx: &Ctx<Sample>, out: &mut String) -> Result<(), NoMemory> {
    let (cached, changes) = (ctx.cached(), ctx.cookies().log().len());
    let moment = ctx.gate().moment;
    write!(out, "cached={cached} changes={changes} moment={moment}")
}

fn push_entry(key: Key, value: u8, out: &mut String) -> Result<(), NoMemory> {
    write!(out, " {}={value}", key.0)
}

/// Adds what was changed in a jar, which word the wire's handle has seen, and what was cached.
fn push_counts(
    changes: usize,
    seen: u64,
    cache: &[(Key, u8)],
    out: &mut String,
) -> Result<(), NoMemory> {
    write!(out, "changes={changes} seen={seen} cached")?;
    for (key, value) in cache {
        push_entry(*key, *value, out)?;
    }
    Ok(())
}

fn push_parts(ctx: Ctx<Sample>, out: &mut String) -> Result<(), NoMemory> {
    let (jar, cache, shutdown) = ctx.into_parts();
    push_counts(jar.log().len(), shutdown.seen(), cache.as_slice(), out)
}

/// Takes the context apart, and leaves a new one in its place.
fn take_apart(alloc: Global, ctx: &mut Ctx<Sample>, out: &mut String) -> Result<(), NoMemory> {
    let other = new_context(alloc)?;
    push_parts(mem::replace(ctx, other), out)
}

/// Adds what a context answers that is asked.
pub fn push_ctx(
    alloc: Global,
    ctx: &mut Ctx<Sample>,
    command: &str,
    text: &str,
    out: &mut String,
) -> Result<(), CaseError> {
    match command {
        "cache" => push_cached(ctx, text, out),
        "tell" => written(push_told(ctx, out)),
        _ => written(take_apart(alloc, ctx, out)),
    }
}

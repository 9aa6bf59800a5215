//! Cases of a jar, which is kept from line to line.
use crate::made::made_cookie;
use crate::shown::push_text;
use cases::{CaseError, first_word, parsed};
use rkt_base::NoMemory;
use rkt_cookie::{Cookie, CookieJar, SharedJar};
use std::alloc::Global;
use std::mem;
use std::sync::Wait;

fn push_found(alloc: Global, cookie: Option<&Cookie>, out: &mut String) -> Result<(), NoMemory> {
    match cookie {
        Some(cookie) => push_text(alloc, cookie, out),
        None => out.push_str("none"),
    }
}

/// Adds a cookie's text behind its mark.
fn push_marked(
    alloc: Global,
    mark: &str,
    cookie: &Cookie,
    out: &mut String,
) -> Result<(), NoMemory> {
    out.push_str(mark)?;
    push_text(alloc, cookie, out)
}

/// Adds how many originals there are, and each behind a bar.
fn push_originals(alloc: Global, jar: &CookieJar, out: &mut String) -> Result<(), NoMemory> {
    write!(out, "{}", jar.iter().count())?;
    for cookie in jar.iter() {
        push_marked(alloc, "|", cookie, out)?;
    }
    Ok(())
}

/// Adds how many changes there are, and each behind a bar and its sign.
fn push_changes(alloc: Global, jar: &CookieJar, out: &mut String) -> Result<(), NoMemory> {
    write!(out, "{}", jar.log().len())?;
    for change in jar.log() {
        let mark = if change.removal { "|- " } else { "|+ " };
        push_marked(alloc, mark, &change.cookie, out)?;
    }
    Ok(())
}

/// Adds how many cookies there are, and each behind a bar.
fn push_list(alloc: Global, cookies: &[Cookie], out: &mut String) -> Result<(), NoMemory> {
    write!(out, "{}", cookies.len())?;
    for cookie in cookies {
        push_marked(alloc, "|", cookie, out)?;
    }
    Ok(())
}

/// Adds the cookies that are sent at a moment.
fn push_delta(
    alloc: Global,
    jar: &mut CookieJar,
    moment: u64,
    out: &mut String,
) -> Result<(), NoMemory> {
    let cookies = jar.take_delta(moment)?;
    push_list(alloc, cookies.as_slice(), out)
}

/// Changes the jar by a cookie.
fn take_cookie(jar: &mut CookieJar, command: &str, cookie: Cookie) -> Result<(), NoMemory> {
    match command {
        "original" => jar.add_original(cookie),
        "add" => jar.add(cookie),
        _ => jar.remove(cookie),
    }
}

/// Changes the jar by the cookie that the rest of the line says.
fn change(alloc: Global, jar: &mut CookieJar, command: &str, rest: &str) -> Result<(), CaseError> {
    let cookie = made_cookie(alloc, rest)?;
    Ok(take_cookie(jar, command, cookie)?)
}

/// Adds what a jar tells that is only asked.
fn push_told(
    alloc: Global,
    jar: &mut CookieJar,
    command: &str,
    rest: &str,
    out: &mut String,
) -> Result<(), CaseError> {
    match command {
        "get" => Ok(push_found(alloc, jar.get(rest), out)?),
        "pending" => Ok(push_found(alloc, jar.get_pending(rest), out)?),
        "originals" => Ok(push_originals(alloc, jar, out)?),
        "changes" => Ok(push_changes(alloc, jar, out)?),
        "delta" => Ok(push_delta(alloc, jar, parsed::<u64>(rest)?, out)?),
        _ => Err(CaseError::Line),
    }
}

/// Whatever threads share may cross between them.
fn crosses<T: Send + Sync>(_value: &T) {}

/// Changes a shared jar by the cookie that a step says.
fn share_step<R: Wait>(
    rt: &R,
    alloc: Global,
    shared: &SharedJar,
    step: &str,
) -> Result<(), CaseError> {
    let (command, rest) = first_word(step);
    let cookie = made_cookie(alloc, rest)?;
    match command {
        "add" => Ok(shared.add(rt, cookie)?),
        "remove" => Ok(shared.remove(rt, cookie)?),
        _ => Err(CaseError::Line),
    }
}

fn share_steps<R: Wait>(
    rt: &R,
    alloc: Global,
    shared: &SharedJar,
    steps: &str,
) -> Result<(), CaseError> {
    for step in steps.split(" | ") {
        share_step(rt, alloc, shared, step)?;
    }
    Ok(())
}

fn closed(shared: SharedJar) -> CookieJar {
    match shared.close() {
        Ok(jar) => jar,
        Err(jar) => jar,
    }
}

/// Opens the jar to be shared, takes the steps, and closes it.
fn share<R: Wait>(
    rt: &R,
    alloc: Global,
    jar: &mut CookieJar,
    steps: &str,
) -> Result<(), CaseError> {
    let shared = SharedJar::open(mem::replace(jar, CookieJar::new(alloc)));
    crosses(&shared);
    let taken = share_steps(rt, alloc, &shared, steps);
    *jar = closed(shared);
    taken
}

/// Adds what a jar answers to a command.
pub fn push_jar<R: Wait>(
    rt: &R,
    alloc: Global,
    jar: &mut CookieJar,
    line: &str,
    out: &mut String,
) -> Result<(), CaseError> {
    let (command, rest) = first_word(line);
    match command {
        "new" => *jar = CookieJar::new(alloc),
        "reset" => jar.reset_delta(),
        "copy" => *jar = jar.try_clone()?,
        "share" => share(rt, alloc, jar, rest)?,
        "original" | "add" | "remove" => change(alloc, jar, command, rest)?,
        _ => return push_told(alloc, jar, command, rest, out),
    }
    Ok(out.push_str("done")?)
}

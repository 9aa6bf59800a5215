use crate::jar::push_jar;
use crate::made::made_cookie;
use crate::shown::{push_copy, push_fields, push_text};
use cases::{Answers, CaseError, first_word};
use rkt_base::NoMemory;
use rkt_cookie::{Cookie, CookieJar};
use std::alloc::Global;
use std::sync::Wait;

/// The jar that is kept from line to line.
#[derive(Drop)]
pub struct Kept<'a, R> {
    rt: &'a R,
    jar: CookieJar,
}

impl<'a, R> Kept<'a, R> {
    pub fn new(rt: &'a R, alloc: Global) -> Kept<'a, R> {
        Kept {
            rt,
            jar: CookieJar::new(alloc),
        }
    }
}

fn push_cookie(
    alloc: Global,
    command: &str,
    cookie: &Cookie,
    out: &mut String,
) -> Result<(), NoMemory> {
    match command {
        "copy" => push_copy(alloc, cookie, out),
        "fields" => push_fields(cookie, out),
        _ => push_text(alloc, cookie, out),
    }
}

/// Answers by the cookie that a line says.
fn answer_cookie(
    alloc: Global,
    command: &str,
    line: &str,
    out: &mut String,
) -> Result<(), CaseError> {
    let cookie = made_cookie(alloc, line)?;
    Ok(push_cookie(alloc, command, &cookie, out)?)
}

impl<R: Wait> Answers for Kept<'_, R> {
    fn answer(&mut self, alloc: Global, line: &str, out: &mut String) -> Result<(), CaseError> {
        let (command, rest) = first_word(line);
        match command {
            "jar" => push_jar(self.rt, alloc, &mut self.jar, rest, out),
            "copy" | "fields" => answer_cookie(alloc, command, rest, out),
            _ => answer_cookie(alloc, command, line, out),
        }
    }
}

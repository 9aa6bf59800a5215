//! What is done to a response before it is sent.
ghost use Rattle.std.specs.Prelude.{◌≡◌, IfOk, OnOk, OnErr};
ghost use Rattle.rkt_http.specs.Headers.{added};
ghost use Rattle.rkt_message.specs.Response.{with_headers};
ghost use Rattle.rkt_dispatch.specs.Finalizing.{pending_cookies, set_cookie, settled, with_body_rule, with_cookies, with_server, without_content};

use rkt_base::NoMemory;
use rkt_cookie::Cookie;
use rkt_data::Source;
use rkt_http::Status;
use rkt_message::{Body, Response};
use rkt_request::{Ctx, Types};
use std::alloc::Global;

fn adjoin_cookie<S: Source>(
    alloc: Global,
    response: &mut Response<S>,
    cookie: &Cookie,
) -> Result<(), NoMemory>
    ensures { OnOk result (response.new ≡ with_headers response.old (added response.old.headers (set_cookie cookie.now))) }
{
    let text = cookie.encoded(alloc)?;
    response.adjoin_raw_header("Set-Cookie", text.as_str())
}

// Adds a Set-Cookie header for each cookie.
fn adjoin_cookies<S: Source>(
    alloc: Global,
    response: &mut Response<S>,
    cookies: &[Cookie],
) -> Result<(), NoMemory>
    ensures { OnOk result (response.new ≡ with_cookies response.old cookies.now) }
{
    for cookie in cookies.iter() {
        adjoin_cookie(alloc, response, cookie)?;
    }
    Ok(())
}

// The cookies that are pending, after which none is.
fn take_cookies<T: Types>(ctx: &mut Ctx<T>, moment: u64) -> Result<Vec<Cookie>, NoMemory>
    ensures cookies { IfOk result (λ cookies. cookies.items ≡ pending_cookies ctx.old.kept moment) }
    ensures kept { IfOk result (λ cookies. ctx.new.kept ≡ settled ctx.old.kept) }
    ensures err { OnErr result (ctx.new ≡ ctx.old) }
{
    ctx.cookies_mut().take_delta(moment)
}

// Names the server, where there is a name and the response has none.
fn name_server<S: Source>(response: &mut Response<S>, ident: &str) -> Result<(), NoMemory>
    ensures { OnOk result (response.new ≡ with_server ident.now response.old) }
{
    if ident.is_empty() || response.headers().contains("Server") {
        return Ok(());
    }
    response.adjoin_raw_header("Server", ident)
}

/// Sends the cookies that are pending, and names the server. Where there is no memory, a part of that may be done:
/// whoever calls it then lets response and context go.
pub fn finalize<T: Types>(
    alloc: Global,
    ctx: &mut Ctx<T>,
    ident: &str,
    moment: u64,
    response: &mut Response<T::Stream>,
) -> Result<(), NoMemory>
    ensures response { OnOk result
        (response.new ≡ with_server ident.now (with_cookies response.old (pending_cookies ctx.old.kept moment))) }
    ensures kept { OnOk result (ctx.new.kept ≡ settled ctx.old.kept) }
    ensures shutdown { ctx.new.kept.shutdown ≡ ctx.old.kept.shutdown }
{
    let cookies = take_cookies(ctx, moment)?;
    adjoin_cookies(alloc, response, cookies.as_slice())?;
    name_server(response, ident)
}

fn remove_content<S: Source>(response: &mut Response<S>)
    ensures { response.new ≡ without_content response.old }
{
    response.remove_header("Content-Length");
    response.remove_header("Transfer-Encoding");
    *response.body_mut() = Body::unsized_none();
}

/// Takes away what may not be sent with this status, or where HEAD was asked.
pub fn keep_body_rule<S: Source>(response: &mut Response<S>, head: bool)
    ensures { response.new ≡ with_body_rule head response.old }
{
    let status = response.status();
    if status == Status::NoContent {
        return remove_content(response);
    }
    if head || status == Status::NotModified {
        response.strip_body();
    }
}

//! The parts of a head, each as it is read.
ghost use Rattle.std.specs.Prelude.{◌≡◌, ◌∷◌, [], IfOk, OnOk, IsUtf8, MatchOption, Option, codes, unwrap_or};
ghost use Rattle.rkt_cookie.specs.Reading.{Reads};
ghost use Rattle.rkt_http.specs.Headers.{values_of};
ghost use Rattle.rkt_uri.specs.Host.{SpellsHost};
ghost use Rattle.rkt_uri.specs.Origin.{Spells, Target};
ghost use Rattle.rkt_uri.specs.declared.origin_place.Profile.TheVariants.{Request as OfRequest};
ghost use Rattle.rkt_request.specs.Incoming.{AddsCookies, IsJar, cookie_pieces, faults_of, headers_of, root};
ghost use Rattle.rkt_request.specs.Seen.{MaybeReadAs, ReadAs, first_value};

use crate::bad::Bad;
use crate::request_headers::RequestHeaders;
use rkt_base::{Bytes, NoMemory, Seq, Text, accepted};
use rkt_cookie::{Cookie, CookieJar};
use rkt_http::{Header, HeaderMap, Host, Method, Origin};
use std::alloc::{AllocError, Global};

/// The origin that a target spells.
fn read_target(alloc: Global, target: &str) -> Result<Option<Origin>, NoMemory>
    ensures { IfOk result (ReadAs (Spells OfRequest) target.now) }
{
    accepted(Origin::parse(alloc, target))
}

/// An origin, or else `/`.
fn or_root(alloc: Global, target: Option<Origin>) -> Result<Origin, NoMemory>
    ensures { IfOk result (λ origin. origin ≡ unwrap_or target root) }
{
    match target {
        Some(origin) => Ok(origin),
        None => match Origin::parse(alloc, "/") {
            Ok(origin) => Ok(origin),
            Err(_) => Err(AllocError),
        },
    }
}

/// What is wrong with a head of which these were read.
fn faults_of(
    alloc: Global,
    method: Option<Method>,
    target: &Option<Origin>,
) -> Result<Seq<Bad>, NoMemory>
    ensures { IfOk result (λ faults. faults ≡ faults_of method target.now) }
{
    let mut faults = Seq::new(alloc);
    if method.is_none() {
        faults.push(Bad::BadMethod)?;
    }
    if target.is_none() {
        faults.push(Bad::InvalidUri)?;
    }
    Ok(faults)
}

/// The origin that a target spells, or else `/`, and what is wrong with a head of this method and this target.
pub(crate) fn read_origin(
    alloc: Global,
    method: Option<Method>,
    target: &str,
) -> Result<(Origin, Seq<Bad>), NoMemory>
    ensures { IfOk result (λ read. (found : Option Target)
        × ReadAs (Spells OfRequest) target.now found
        × (read.0 ≡ unwrap_or found root)
        × (read.1 ≡ faults_of method found)) }
{
    let target = read_target(alloc, target)?;
    let faults = faults_of(alloc, method, &target)?;
    let origin = or_root(alloc, target)?;
    Ok((origin, faults))
}

/// The bytes as a text, where they are UTF-8.
fn as_text(bytes: &[u8]) -> Option<&str>
    ensures { MatchOption result (¬ IsUtf8 bytes.now) (λ text. IsUtf8 bytes.now × (text.now ≡ bytes.now)) }
{
    str::from_utf8(bytes).ok()
}

/// The headers whose values are texts.
fn read_headers(alloc: Global, headers: &[(Text, Bytes)]) -> Result<HeaderMap, NoMemory>
    ensures { IfOk result (λ map. map ≡ headers_of headers.now) }
{
    let mut map = HeaderMap::new(alloc);
    for (name, value) in headers {
        if let Some(value) = as_text(value.as_slice()) {
            map.add(Header::new(alloc, name.as_str(), value)?)?;
        }
    }
    Ok(map)
}

/// The host that a text spells.
fn read_host(alloc: Global, text: &str) -> Result<Option<Host>, NoMemory>
    ensures { IfOk result (ReadAs SpellsHost text.now) }
{
    accepted(Host::parse(alloc, text))
}

/// The host that the first Host header spells.
fn first_host(alloc: Global, headers: &HeaderMap) -> Result<Option<Host>, NoMemory>
    ensures { IfOk result (MaybeReadAs SpellsHost (first_value headers.now (codes "Host"))) }
{
    match headers.get_one("Host") {
        Some(text) => read_host(alloc, text),
        None => Ok(None),
    }
}

/// The jar of the Cookie headers.
fn read_jar(alloc: Global, headers: &HeaderMap) -> Result<CookieJar, NoMemory>
    ensures { IfOk result (IsJar (values_of headers.now (codes "Cookie"))) }
{
    let mut jar = CookieJar::new(alloc);
    for value in headers.get("Cookie") {
        add_header_cookies(alloc, &mut jar, value)?;
    }
    Ok(jar)
}

fn add_header_cookies(alloc: Global, jar: &mut CookieJar, value: &str) -> Result<(), NoMemory>
    ensures { OnOk result (AddsCookies (cookie_pieces value.now) jar.old jar.new) }
{
    for piece in value.split(';') {
        add_cookie(alloc, jar, piece.trim())?;
    }
    Ok(())
}

/// Keeps the cookie that a piece says, where it says one.
fn add_cookie(alloc: Global, jar: &mut CookieJar, piece: &str) -> Result<(), NoMemory>
    ensures { OnOk result (AddsCookies (piece.now ∷ []) jar.old jar.new) }
{
    match read_cookie(alloc, piece)? {
        Some(cookie) => jar.add_original(cookie),
        None => Ok(()),
    }
}

fn read_cookie(alloc: Global, piece: &str) -> Result<Option<Cookie>, NoMemory>
    ensures { IfOk result (ReadAs Reads piece.now) }
{
    accepted(Cookie::parse_encoded(alloc, piece))
}

/// What the headers of a head say: those whose values are texts, the host, and the cookies.
pub(crate) fn read_fields(
    alloc: Global,
    headers: &[(Text, Bytes)],
) -> Result<(RequestHeaders, Option<Host>, CookieJar), NoMemory>
    ensures headers { IfOk result (λ said. said.0 ≡ headers_of headers.now) }
    ensures host { IfOk result (λ said. MaybeReadAs SpellsHost (first_value (headers_of headers.now) (codes "Host")) said.1) }
    ensures cookies { IfOk result (λ said. IsJar (values_of (headers_of headers.now) (codes "Cookie")) said.2) }
{
    let map = read_headers(alloc, headers)?;
    let host = first_host(alloc, &map)?;
    let jar = read_jar(alloc, &map)?;
    let headers = RequestHeaders::new(alloc, map)?;
    Ok((headers, host, jar))
}

//! The pieces of a cookie's text, read one by one.

ghost use Rattle.std.specs.Prelude.{◌≡◌, IfOk, IsUtf8};
ghost use Rattle.httpdate.specs.Date.{parse_secs};
ghost use Rattle.std.specs.Char.{is_ascii_digit};
ghost use Rattle.std.specs.List.{after_first, list_all};
ghost use Rattle.std.specs.Option.{option_copied};
ghost use Rattle.std.specs.Str.{str_eq_ignore_ascii_case};
ghost use Rattle.percent_encoding.specs.Percent as percent;
ghost use Rattle.rkt_base.specs.Want.{IfRefused};
ghost use Rattle.rkt_cookie.specs.Cookie.{bare};
ghost use Rattle.rkt_cookie.specs.Reading.{IsPair, IsNoPair, attribute_of, domain_of, first_piece, is_semicolon, name_in, seconds_of, site_of, value_in, valued};

use crate::attribute::Attribute;
use crate::same_site::SameSite;
use httpdate::HttpDate;
use percent_encoding::percent_decode;
use rkt_base::{NoMemory, Text, Want};
use std::alloc::Global;
use thiserror::Error;

/// A text whose first piece has no value, no name, or escapes that make no text.
#[derive(Clone, Copy, Debug, PartialEq, Eq, Drop, Error)]
#[error("invalid cookie")]
pub struct InvalidCookie;

/// What stands before the first semicolon.
pub(crate) fn before_semicolon(text: &str) -> &str
    ensures { result.now ≡ first_piece text.now }
{
    match text.split_once(';') {
        Some((piece, _)) => piece,
        None => text,
    }
}

/// What stands behind it.
pub(crate) fn behind_semicolon(text: &str) -> &str
    ensures { result.now ≡ after_first is_semicolon text.now }
{
    match text.split_once(';') {
        Some((_, rest)) => rest,
        None => "",
    }
}

fn name_of(piece: &str) -> &str
    ensures { result.now ≡ name_in piece.now }
{
    match piece.split_once('=') {
        Some((name, _)) => name.trim(),
        None => piece.trim(),
    }
}

fn value_of(piece: &str) -> Option<&str>
    ensures { option_copied result ≡ value_in piece.now }
{
    match piece.split_once('=') {
        Some((_, value)) => Some(value.trim()),
        None => None,
    }
}

fn unescape(alloc: Global, part: &str) -> Result<Text, Want<InvalidCookie>>
    ensures accepted { IfOk result (λ t. IsUtf8 t × (t ≡ percent.percent_decode part.now)) }
    ensures refused { IfRefused result (λ _. ¬ IsUtf8 (percent.percent_decode part.now)) }
{
    let mut bytes = Vec::new(alloc);
    percent_decode(part.as_bytes()).append_to(&mut bytes)?;
    match String::from_utf8(bytes) {
        Ok(text) => Ok(Text::from_string(text)),
        Err(_) => Err(Want::Refused(InvalidCookie)),
    }
}

/// The name and the value that a first piece says.
pub(crate) fn parse_pair(alloc: Global, piece: &str) -> Result<(Text, Text), Want<InvalidCookie>>
    ensures accepted { IfOk result (λ pair. IsPair piece.now pair.0 pair.1) }
    ensures refused { IfRefused result (λ _. IsNoPair piece.now) }
{
    let name = name_of(piece);
    let Some(value) = value_of(piece) else {
        return Err(Want::Refused(InvalidCookie));
    };
    if name.is_empty() {
        return Err(Want::Refused(InvalidCookie));
    }
    Ok((unescape(alloc, name)?, unescape(alloc, value)?))
}

/// In any case.
fn is_named(name: &str, known: &str) -> bool
    ensures { result ≡ str_eq_ignore_ascii_case name.now known.now }
{
    name.eq_ignore_ascii_case(known)
}

fn parse_same_site(value: &str) -> Option<SameSite>
    ensures { result ≡ site_of value.now }
{
    if is_named(value, "Strict") {
        Some(SameSite::Strict)
    } else if is_named(value, "Lax") {
        Some(SameSite::Lax)
    } else if is_named(value, "None") {
        Some(SameSite::None)
    } else {
        None
    }
}

fn is_decimal(value: &str) -> bool
    ensures { result ≡ list_all is_ascii_digit value.now }
{
    value.as_bytes().iter().all(|b| b.is_ascii_digit())
}

fn parse_seconds(value: &str) -> Option<u64>
    ensures { result ≡ seconds_of value.now }
{
    if !is_decimal(value) {
        return None;
    }
    value.parse().ok()
}

fn parse_date(value: &str) -> Option<u64>
    ensures { result ≡ parse_secs value.now }
{
    match HttpDate::parse_ascii(value.as_bytes()) {
        Ok(date) => Some(date.unix_secs()),
        Err(_) => None,
    }
}

fn parse_domain(alloc: Global, value: &str) -> Result<Option<Text>, NoMemory>
    ensures { IfOk result (λ domain. domain ≡ domain_of value.now) }
{
    if value.is_empty() {
        return Ok(None);
    }
    Ok(Some(Text::new(alloc, value)?))
}

/// The attribute of this name with this value.
fn parse_valued(alloc: Global, name: &str, value: &str) -> Result<Option<Attribute>, NoMemory>
    ensures { IfOk result (λ attribute. attribute ≡ valued name.now value.now) }
{
    if is_named(name, "SameSite") {
        Ok(parse_same_site(value).map(Attribute::SameSite))
    } else if is_named(name, "Path") {
        Ok(Some(Attribute::Path(Text::new(alloc, value)?)))
    } else if is_named(name, "Domain") {
        Ok(parse_domain(alloc, value)?.map(Attribute::Domain))
    } else if is_named(name, "Max-Age") {
        Ok(parse_seconds(value).map(Attribute::MaxAge))
    } else if is_named(name, "Expires") {
        Ok(parse_date(value).map(Attribute::Expires))
    } else {
        Ok(None)
    }
}

/// The attribute that a later piece says, if it says one.
pub(crate) fn parse_attribute(alloc: Global, piece: &str) -> Result<Option<Attribute>, NoMemory>
    ensures { IfOk result (λ attribute. attribute ≡ attribute_of piece.now) }
{
    let name = name_of(piece);
    if is_named(name, "HttpOnly") {
        return Ok(Some(Attribute::HttpOnly));
    }
    if is_named(name, "Secure") {
        return Ok(Some(Attribute::Secure));
    }
    match value_of(piece) {
        Some(value) => parse_valued(alloc, name, value),
        None => Ok(None),
    }
}

//! The parts of a cookie's text, each added to the text so far.

ghost use Rattle.std.specs.Prelude.{◌≡◌, ◌++◌, ◌<◌, ◌^◌, OnOk, string_bytes};
ghost use Rattle.std.specs.List.{flat_map};
ghost use Rattle.std.specs.Option.{ForSome};
ghost use Rattle.percent_encoding.specs.Percent as percent;
ghost use Rattle.rkt_cookie.specs.Attribute.{flag, listed, shown_secure};
ghost use Rattle.httpdate.specs.Date.{date_text};
ghost use Rattle.rkt_cookie.specs.Date.{dated, moment_text};
ghost use Rattle.rkt_cookie.specs.Encoded.{appended, escaped};

use crate::attribute::Attribute;
use crate::same_site::SameSite;
use httpdate::HttpDate;
use percent_encoding::{AsciiSet, CONTROLS, ascii_set, utf8_percent_encode};
use rkt_base::{NoMemory, Text};
use std::fmt::Write;

/// The bytes that name and value have escaped, besides those outside ASCII.
const ESCAPED: AsciiSet = ascii_set!(
    CONTROLS
        .add(b' ')
        .add(b'"')
        .add(b'<')
        .add(b'>')
        .add(b'#')
        .add(b'?')
        .add(b'{')
        .add(b'}')
        .add(b'/')
        .add(b':')
        .add(b';')
        .add(b'=')
        .add(b'@')
        .add(b'[')
        .add(b'\\')
        .add(b']')
        .add(b'^')
        .add(b'|')
        .add(b'%')
        .add(b'(')
        .add(b')')
        .add(b',')
        .add(b'`')
);

/// The last second of the year 9999, and of the dates that IMF-fixdate has.
const LAST_SECOND: u64 = 253_402_300_799;

pub(crate) fn push_escaped(text: &mut String, part: &str) -> Result<(), NoMemory>
    ensures added { OnOk result (string_bytes text.new ≡ string_bytes text.old ++ escaped part.now) }
    // Nothing of the part is lost.
    ensures undone { percent.percent_decode (escaped part.now) ≡ part.now }
{
    utf8_percent_encode(part, ESCAPED).append_to(text)
}

pub(crate) fn push_http_only(text: &mut String, http_only: Option<bool>) -> Result<(), NoMemory>
    ensures { OnOk result (string_bytes text.new
        ≡ string_bytes text.old ++ flat_map appended (flag http_only Attribute.HttpOnly)) }
{
    match http_only {
        Some(true) => text.push_str("; HttpOnly"),
        _ => Ok(()),
    }
}

fn same_site_text(same_site: SameSite) -> &'static str
    ensures { result.now ≡ appended (Attribute.SameSite same_site) }
{
    match same_site {
        SameSite::Strict => "; SameSite=Strict",
        SameSite::Lax => "; SameSite=Lax",
        SameSite::None => "; SameSite=None",
    }
}

pub(crate) fn push_same_site(text: &mut String, same_site: Option<SameSite>) -> Result<(), NoMemory>
    ensures { OnOk result (string_bytes text.new
        ≡ string_bytes text.old ++ flat_map appended (listed Attribute.SameSite same_site)) }
{
    match same_site {
        Some(same_site) => text.push_str(same_site_text(same_site)),
        None => Ok(()),
    }
}

fn is_secure(secure: Option<bool>, same_site: Option<SameSite>) -> Option<bool>
    ensures { result ≡ shown_secure secure same_site }
{
    match (secure, same_site) {
        (None, Some(SameSite::None)) => Some(true),
        _ => secure,
    }
}

pub(crate) fn push_secure(
    text: &mut String,
    secure: Option<bool>,
    same_site: Option<SameSite>,
) -> Result<(), NoMemory>
    ensures { OnOk result (string_bytes text.new
        ≡ string_bytes text.old ++ flat_map appended (flag (shown_secure secure same_site) Attribute.Secure)) }
{
    match is_secure(secure, same_site) {
        Some(true) => text.push_str("; Secure"),
        _ => Ok(()),
    }
}

pub(crate) fn push_path(text: &mut String, path: &Option<Text>) -> Result<(), NoMemory>
    ensures { OnOk result (string_bytes text.new
        ≡ string_bytes text.old ++ flat_map appended (listed Attribute.Path path.now)) }
{
    match path {
        Some(path) => {
            text.push_str("; Path=")?;
            text.push_str(path.as_str())
        }
        None => Ok(()),
    }
}

pub(crate) fn push_domain(text: &mut String, domain: &Option<Text>) -> Result<(), NoMemory>
    ensures { OnOk result (string_bytes text.new
        ≡ string_bytes text.old ++ flat_map appended (listed Attribute.Domain domain.now)) }
{
    match domain {
        Some(domain) => {
            text.push_str("; Domain=")?;
            text.push_str(domain.as_str())
        }
        None => Ok(()),
    }
}

pub(crate) fn push_max_age(text: &mut String, max_age: Option<u64>) -> Result<(), NoMemory>
    ensures added { OnOk result (string_bytes text.new
        ≡ string_bytes text.old ++ flat_map appended (listed Attribute.MaxAge max_age)) }
    ensures fits { ForSome max_age (λ seconds. seconds < 2 ^ 64) }
{
    match max_age {
        Some(seconds) => write!(text, "; Max-Age={seconds}"),
        None => Ok(()),
    }
}

/// The date of a moment, or the last date that there is.
fn date(moment: u64) -> HttpDate
    ensures { date_text result ≡ moment_text (dated moment) }
{
    HttpDate::from_unix_secs(moment.min(LAST_SECOND)).unwrap()
}

pub(crate) fn push_expires(text: &mut String, expires: Option<u64>) -> Result<(), NoMemory>
    ensures { OnOk result (string_bytes text.new
        ≡ string_bytes text.old ++ flat_map appended (listed (λ moment. Attribute.Expires (dated moment)) expires)) }
{
    match expires {
        Some(moment) => {
            let date = date(moment);
            write!(text, "; Expires={date}")
        }
        None => Ok(()),
    }
}

use cases::{CaseError, pair, parsed};
use rkt_cookie::SameSite;

/// What a piece `NAME=VALUE` behind the first one asks of a cookie.
pub enum Attribute<'a> {
    Path(&'a str),
    Domain(&'a str),
    SameSite(SameSite),
    Secure(bool),
    HttpOnly(bool),
    MaxAge(u64),
    Expires(u64),
    /// That it becomes a removal at this moment.
    Removal(u64),
    /// Nothing, as the empty piece says behind a pair alone.
    Nothing,
}

fn same_site(text: &str) -> Result<SameSite, CaseError> {
    match text {
        "Strict" => Ok(SameSite::Strict),
        "Lax" => Ok(SameSite::Lax),
        "None" => Ok(SameSite::None),
        _ => Err(CaseError::Line),
    }
}

fn flag(text: &str) -> Result<bool, CaseError> {
    match text {
        "true" => Ok(true),
        "false" => Ok(false),
        _ => Err(CaseError::Line),
    }
}

/// The attribute of this name with a number.
fn numbered<'a>(name: &str, number: u64) -> Result<Attribute<'a>, CaseError> {
    match name {
        "max_age" => Ok(Attribute::MaxAge(number)),
        "expires" => Ok(Attribute::Expires(number)),
        "removal" => Ok(Attribute::Removal(number)),
        _ => Err(CaseError::Line),
    }
}

/// The attribute of this name with a truth value.
fn flagged<'a>(name: &str, flag: bool) -> Attribute<'a> {
    match name {
        "secure" => Attribute::Secure(flag),
        _ => Attribute::HttpOnly(flag),
    }
}

/// The attribute of this name with a text.
fn texted<'a>(name: &str, text: &'a str) -> Attribute<'a> {
    match name {
        "path" => Attribute::Path(text),
        _ => Attribute::Domain(text),
    }
}

/// The attribute that a piece says.
pub fn parse_attribute(piece: &str) -> Result<Attribute<'_>, CaseError> {
    if piece.is_empty() {
        return Ok(Attribute::Nothing);
    }
    let (name, value) = pair(piece, "=")?;
    match name {
        "path" | "domain" => Ok(texted(name, value)),
        "secure" | "http_only" => Ok(flagged(name, flag(value)?)),
        "same_site" => Ok(Attribute::SameSite(same_site(value)?)),
        _ => numbered(name, parsed::<u64>(value)?),
    }
}

ghost use Rattle.std.specs.List.{slice_split};
ghost use Rattle.std.specs.Prelude.{◌≡◌, ◌++◌, [], IfOk, OnOk, OnErr, Some, None, fold, string_bytes};
ghost use Rattle.std.specs.Option.{option_copied};
ghost use Rattle.rkt_base.specs.Want.{IfRefused, GivesUnlessNoMemory};
ghost use Rattle.rkt_cookie.specs.Attribute.{with_attribute};
ghost use Rattle.rkt_cookie.specs.Cookie.{Parts, bare, removal};
ghost use Rattle.rkt_cookie.specs.Encoded.{encoded_text};
ghost use Rattle.rkt_cookie.specs.Jar.{is_named};
ghost use Rattle.rkt_cookie.specs.ReadBack.{IsPrintable, read_back};
ghost use Rattle.rkt_cookie.specs.Reading.{IsNoPair, Reads, first_piece, is_semicolon, with_piece};

use crate::attribute::Attribute;
use crate::builder::CookieBuilder;
use crate::encode::{
    push_domain, push_escaped, push_expires, push_http_only, push_max_age, push_path,
    push_same_site, push_secure,
};
use crate::parse::{
    InvalidCookie, before_semicolon, behind_semicolon, parse_attribute, parse_pair,
};
use crate::same_site::SameSite;
use rkt_base::{NoMemory, Text, Want};
use std::alloc::Global;
use std::marker::Model;

/// The seconds of a year of 365 days.
const YEAR: u64 = 31_536_000;

/// A name and a value, with what the attributes say that are set.
#[derive(Debug, Drop)]
pub struct Cookie {
    name: Text,
    value: Text,
    http_only: Option<bool>,
    same_site: Option<SameSite>,
    secure: Option<bool>,
    path: Option<Text>,
    domain: Option<Text>,
    max_age: Option<u64>,
    expires: Option<u64>,
}

impl Model for Cookie {
    ghost use Rattle.rkt_cookie.specs.Cookie.{Parts};

    ghost Value = { Parts };

    ghost view = { λ c. record {
      name = c.name;
      value = c.value;
      http_only = c.http_only;
      same_site = c.same_site;
      secure = c.secure;
      path = c.path;
      domain = c.domain;
      max_age = c.max_age;
      expires = c.expires;
    } };
}

/// A copy of a text, where there is one.
fn try_clone_text(alloc: Global, text: &Option<Text>) -> Result<Option<Text>, NoMemory>
    ensures { IfOk result (λ copy. copy ≡ text.now) }
{
    match text {
        Some(text) => Ok(Some(text.try_clone(alloc)?)),
        None => Ok(None),
    }
}

fn as_str(text: &Option<Text>) -> Option<&str>
    ensures { option_copied result ≡ text.now }
{
    match text {
        Some(text) => Some(text.as_str()),
        None => None,
    }
}

impl Cookie {
    /// A cookie with no attribute.
    pub fn new(alloc: Global, name: &str, value: &str) -> Result<Cookie, NoMemory>
        ensures { IfOk result (λ c. c ≡ bare name.now value.now) }
    {
        Ok(Cookie::of_parts(Text::new(alloc, name)?, Text::new(alloc, value)?))
    }

    /// Begins a cookie with no attribute, to which others are added.
    pub fn build(alloc: Global, name: &str, value: &str) -> Result<CookieBuilder, NoMemory>
        ensures { IfOk result (λ b. b ≡ bare name.now value.now) }
    {
        Ok(CookieBuilder::new(Cookie::new(alloc, name, value)?))
    }

    pub(crate) fn of_parts(name: Text, value: Text) -> Cookie
        ensures { result ≡ bare name value }
    {
        Cookie {
            name,
            value,
            http_only: None,
            same_site: None,
            secure: None,
            path: None,
            domain: None,
            max_age: None,
            expires: None,
        }
    }

    /// A copy, by an allocator that is handed in.
    pub fn try_clone(&self, alloc: Global) -> Result<Cookie, NoMemory>
        ensures { IfOk result (λ c. c ≡ self.now) }
    {
        Ok(Cookie {
            name: self.name.try_clone(alloc)?,
            value: self.value.try_clone(alloc)?,
            http_only: self.http_only,
            same_site: self.same_site,
            secure: self.secure,
            path: try_clone_text(alloc, &self.path)?,
            domain: try_clone_text(alloc, &self.domain)?,
            max_age: self.max_age,
            expires: self.expires,
        })
    }

    pub(crate) fn is_named(&self, name: &str) -> bool
        ensures { result ≡ is_named name.now self.now }
    {
        name == self.name()
    }

    pub fn name(&self) -> &str
        ensures { result.now ≡ self.now.name }
    {
        self.name.as_str()
    }

    pub fn value(&self) -> &str
        ensures { result.now ≡ self.now.value }
    {
        self.value.as_str()
    }

    pub fn path(&self) -> Option<&str>
        ensures { option_copied result ≡ self.now.path }
    {
        as_str(&self.path)
    }

    pub fn domain(&self) -> Option<&str>
        ensures { option_copied result ≡ self.now.domain }
    {
        as_str(&self.domain)
    }

    pub fn same_site(&self) -> Option<SameSite>
        ensures { result ≡ self.now.same_site }
    {
        self.same_site
    }

    pub fn secure(&self) -> Option<bool>
        ensures { result ≡ self.now.secure }
    {
        self.secure
    }

    pub fn http_only(&self) -> Option<bool>
        ensures { result ≡ self.now.http_only }
    {
        self.http_only
    }

    /// In whole seconds.
    pub fn max_age(&self) -> Option<u64>
        ensures { result ≡ self.now.max_age }
    {
        self.max_age
    }

    /// A moment, in whole seconds since 1970.
    pub fn expires(&self) -> Option<u64>
        ensures { result ≡ self.now.expires }
    {
        self.expires
    }

    pub fn set_path(&mut self, alloc: Global, path: &str) -> Result<(), NoMemory>
        ensures ok { OnOk result (self.new ≡ record self.old { path = Some path.now }) }
        ensures err { OnErr result (self.new ≡ self.old) }
    {
        self.path = Some(Text::new(alloc, path)?);
        Ok(())
    }

    pub fn set_domain(&mut self, alloc: Global, domain: &str) -> Result<(), NoMemory>
        ensures ok { OnOk result (self.new ≡ record self.old { domain = Some domain.now }) }
        ensures err { OnErr result (self.new ≡ self.old) }
    {
        self.domain = Some(Text::new(alloc, domain)?);
        Ok(())
    }

    pub fn set_same_site(&mut self, same_site: SameSite)
        ensures { self.new ≡ record self.old { same_site = Some same_site } }
    {
        self.same_site = Some(same_site);
    }

    pub fn set_secure(&mut self, secure: bool)
        ensures { self.new ≡ record self.old { secure = Some secure } }
    {
        self.secure = Some(secure);
    }

    pub fn set_http_only(&mut self, http_only: bool)
        ensures { self.new ≡ record self.old { http_only = Some http_only } }
    {
        self.http_only = Some(http_only);
    }

    /// In whole seconds.
    pub fn set_max_age(&mut self, seconds: u64)
        ensures { self.new ≡ record self.old { max_age = Some seconds } }
    {
        self.max_age = Some(seconds);
    }

    /// To a moment, in whole seconds since 1970.
    pub fn set_expires(&mut self, moment: u64)
        ensures { self.new ≡ record self.old { expires = Some moment } }
    {
        self.expires = Some(moment);
    }

    /// Reads a cookie: a name and a value, and then attributes. One that is not known, or whose value does not read, is
    /// passed over.
    pub fn parse_encoded(alloc: Global, text: &str) -> Result<Cookie, Want<InvalidCookie>>
        // What is accepted is read so.
        ensures accepted { IfOk result (λ cookie. Reads text.now cookie) }
        // What is read so is accepted, unless memory runs out.
        ensures complete { (cookie : Parts) → Reads text.now cookie → GivesUnlessNoMemory result cookie }
        // Only a text whose first piece names no cookie is refused.
        ensures refused { IfRefused result (λ _. IsNoPair (first_piece text.now)) }
    {
        let (name, value) = parse_pair(alloc, before_semicolon(text))?;
        let mut cookie = Cookie::of_parts(name, value);
        cookie.set_pieces(alloc, behind_semicolon(text))?;
        Ok(cookie)
    }

    /// Sets what each piece of a text says.
    fn set_pieces(&mut self, alloc: Global, pieces: &str) -> Result<(), NoMemory>
        ensures { OnOk result (self.new ≡ fold with_piece self.old (slice_split is_semicolon pieces.now)) }
    {
        for piece in pieces.split(';') {
            if let Some(attribute) = parse_attribute(alloc, piece)? {
                self.set(attribute);
            }
        }
        Ok(())
    }

    fn set(&mut self, attribute: Attribute)
        ensures { self.new ≡ with_attribute self.old attribute }
    {
        match attribute {
            Attribute::HttpOnly => self.http_only = Some(true),
            Attribute::SameSite(same_site) => self.same_site = Some(same_site),
            Attribute::Secure => self.secure = Some(true),
            Attribute::Path(path) => self.path = Some(path),
            Attribute::Domain(domain) => self.domain = Some(domain),
            Attribute::MaxAge(seconds) => self.max_age = Some(seconds),
            Attribute::Expires(moment) => self.expires = Some(moment),
        }
    }

    /// The text that the cookie is sent as.
    pub fn encoded(&self, alloc: Global) -> Result<String, NoMemory>
        ensures printed { IfOk result (λ text. string_bytes text ≡ encoded_text self.now) }
        // The text is read again as the same cookie.
        ensures read_again { IfOk result (λ text. IsPrintable self.now → Reads (string_bytes text) (read_back self.now)) }
    {
        let mut text = String::new(alloc);
        self.push_to(&mut text)?;
        Ok(text)
    }

    /// Adds the text that the cookie is sent as.
    fn push_to(&self, text: &mut String) -> Result<(), NoMemory>
        ensures printed { OnOk result (string_bytes text.new ≡ string_bytes text.old ++ encoded_text self.now) }
        ensures read_again { OnOk result (IsPrintable self.now → Reads (encoded_text self.now) (read_back self.now)) }
    {
        push_escaped(text, self.name())?;
        text.push_str("=")?;
        push_escaped(text, self.value())?;
        push_http_only(text, self.http_only)?;
        push_same_site(text, self.same_site)?;
        push_secure(text, self.secure, self.same_site)?;
        push_path(text, &self.path)?;
        push_domain(text, &self.domain)?;
        push_max_age(text, self.max_age)?;
        push_expires(text, self.expires)?;
        Ok(())
    }

    /// Makes this the cookie that takes itself away from a client, at a moment in seconds since 1970. Path and domain
    /// stay, since a client looks for the cookie by them.
    pub fn make_removal(&mut self, moment: u64)
        ensures { self.new ≡ removal self.old moment }
    {
        self.value.truncate(0);
        self.max_age = Some(0);
        self.expires = Some(moment.max(YEAR) - YEAR);
    }
}

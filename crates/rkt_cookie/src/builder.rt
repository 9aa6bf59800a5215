ghost use Rattle.std.specs.Prelude.{◌≡◌, IfOk, Some};

use crate::cookie::Cookie;
use crate::same_site::SameSite;
use rkt_base::NoMemory;
use std::alloc::Global;
use std::marker::Model;

/// A cookie that is being made, by one call after another.
#[derive(Debug, Drop)]
pub struct CookieBuilder {
    cookie: Cookie,
}

impl Model for CookieBuilder {
    ghost use Rattle.rkt_cookie.specs.Cookie.{Parts};

    ghost Value = { Parts };

    ghost view = { λ b. b.cookie };
}

impl CookieBuilder {
    pub(crate) fn new(cookie: Cookie) -> CookieBuilder
        ensures { result ≡ cookie }
    {
        CookieBuilder { cookie }
    }

    pub fn path(mut self, alloc: Global, path: &str) -> Result<CookieBuilder, NoMemory>
        ensures { IfOk result (λ b. b ≡ record self { path = Some path.now }) }
    {
        self.cookie.set_path(alloc, path)?;
        Ok(self)
    }

    pub fn domain(mut self, alloc: Global, domain: &str) -> Result<CookieBuilder, NoMemory>
        ensures { IfOk result (λ b. b ≡ record self { domain = Some domain.now }) }
    {
        self.cookie.set_domain(alloc, domain)?;
        Ok(self)
    }

    pub fn same_site(mut self, same_site: SameSite) -> CookieBuilder
        ensures { result ≡ record self { same_site = Some same_site } }
    {
        self.cookie.set_same_site(same_site);
        self
    }

    pub fn secure(mut self, secure: bool) -> CookieBuilder
        ensures { result ≡ record self { secure = Some secure } }
    {
        self.cookie.set_secure(secure);
        self
    }

    pub fn http_only(mut self, http_only: bool) -> CookieBuilder
        ensures { result ≡ record self { http_only = Some http_only } }
    {
        self.cookie.set_http_only(http_only);
        self
    }

    /// In whole seconds.
    pub fn max_age(mut self, seconds: u64) -> CookieBuilder
        ensures { result ≡ record self { max_age = Some seconds } }
    {
        self.cookie.set_max_age(seconds);
        self
    }

    /// At a moment, in whole seconds since 1970.
    pub fn expires(mut self, moment: u64) -> CookieBuilder
        ensures { result ≡ record self { expires = Some moment } }
    {
        self.cookie.set_expires(moment);
        self
    }

    pub fn build(self) -> Cookie
        ensures { result ≡ self }
    {
        self.cookie
    }
}

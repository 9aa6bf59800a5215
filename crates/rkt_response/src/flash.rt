//! A message that one response leaves for the next request, in a cookie.
ghost use Rattle.std.specs.Prelude.{◌≡◌, ◌⊎◌, ◌<◌, ◌++◌, ◌∷◌, [], All, Some, IfOk, OnOk, OnErr, codes, string_bytes};
ghost use Rattle.rkt_cookie.specs.Cookie.{bare};
ghost use Rattle.rkt_cookie.specs.Encoded.{encoded_text};
ghost use Rattle.rkt_cookie.specs.Jar.{addition};
ghost use Rattle.rkt_cookie.specs.Reading.{first_piece};
ghost use Rattle.rkt_response.specs.Flash.{LeavesJar, ReadsFlash, SaysFlash, flash_cookie, flash_name, flash_text, flashing, with_flash};

use crate::responder::{Responder, ResponseResult};
use rkt_base::{NoMemory, Text, Want};
use rkt_cookie::{Cookie, CookieJar};
use rkt_request::{Ctx, Request, Types};
use std::alloc::Global;
use std::marker::Model;

/// The name of the cookie.
pub(crate) const NAME: &str = "_flash";

/// The seconds that a client keeps it.
const MAX_AGE: u64 = 300;

/// A responder, with a message of some kind that the client hands back with its next request.
#[derive(Drop)]
pub struct Flash<R> {
    responder: R,
    kind: Text,
    message: Text,
}

impl<R> Model for Flash<R> {
    ghost use Rattle.rkt_response.specs.Flash.{FlashOf};

    ghost Value = { FlashOf R };

    ghost view = { λ f. record { responder = f.responder; flashed = record { kind = f.kind; message = f.message } } };
}

/// The cookie that holds a text.
fn cookie_of(alloc: Global, text: &str) -> Result<Cookie, NoMemory>
    ensures value { IfOk result (λ cookie. cookie ≡ record (bare flash_name text.now) { max_age = Some 300 }) }
    ensures bytes { All (λ b. b < 256) text.now }
{
    let mut cookie = Cookie::new(alloc, NAME, text)?;
    cookie.set_max_age(MAX_AGE);
    Ok(cookie)
}

impl<R: Drop> Flash<R> {
    pub fn new(alloc: Global, responder: R, kind: &str, message: &str) -> Result<Flash<R>, NoMemory>
        ensures { IfOk result (λ flash.
            flash ≡ record { responder = responder; flashed = record { kind = kind.now; message = message.now } }) }
    {
        Ok(Flash {
            responder,
            kind: Text::new(alloc, kind)?,
            message: Text::new(alloc, message)?,
        })
    }

    /// Of the kind `success`.
    pub fn success(alloc: Global, responder: R, message: &str) -> Result<Flash<R>, NoMemory>
        ensures { IfOk result (λ flash.
            flash ≡ record { responder = responder; flashed = record { kind = codes "success"; message = message.now } }) }
    {
        Flash::new(alloc, responder, "success", message)
    }

    /// Of the kind `warning`.
    pub fn warning(alloc: Global, responder: R, message: &str) -> Result<Flash<R>, NoMemory>
        ensures { IfOk result (λ flash.
            flash ≡ record { responder = responder; flashed = record { kind = codes "warning"; message = message.now } }) }
    {
        Flash::new(alloc, responder, "warning", message)
    }

    /// Of the kind `error`.
    pub fn error(alloc: Global, responder: R, message: &str) -> Result<Flash<R>, NoMemory>
        ensures { IfOk result (λ flash.
            flash ≡ record { responder = responder; flashed = record { kind = codes "error"; message = message.now } }) }
    {
        Flash::new(alloc, responder, "error", message)
    }

    fn text(&self, alloc: Global) -> Result<String, NoMemory>
        ensures value { IfOk result (λ text. string_bytes text ≡ flash_text self.now.flashed) }
        ensures says { IfOk result (λ text. SaysFlash (string_bytes text) self.now.flashed) }
    {
        let mut text = self.kind.len().to_string(alloc)?;
        text.push_str(":")?;
        text.push_str(self.kind.as_str())?;
        text.push_str(self.message.as_str())?;
        Ok(text)
    }

    /// The cookie that holds kind and message.
    pub fn cookie(&self, alloc: Global) -> Result<Cookie, NoMemory>
        ensures value { IfOk result (λ cookie. cookie ≡ flash_cookie self.now.flashed) }
        // As a jar sends it, it is read as the same kind and message.
        ensures read_again { IfOk result (λ cookie. ReadsFlash (encoded_text (addition cookie).cookie) self.now.flashed) }
        // So it is as a client hands it back, without attributes.
        ensures handed_back { IfOk result (λ cookie.
            ReadsFlash (first_piece (encoded_text (addition cookie).cookie)) self.now.flashed) }
    {
        let text = self.text(alloc)?;
        cookie_of(alloc, text.as_str())
    }

    /// Adds the cookie to a jar.
    pub fn add_to(&self, alloc: Global, jar: &mut CookieJar) -> Result<(), NoMemory>
        ensures ok { OnOk result (jar.new ≡ with_flash self.now.flashed jar.old) }
        ensures err { OnErr result (jar.new ≡ jar.old) }
    {
        let cookie = self.cookie(alloc)?;
        jar.add(cookie)
    }

    /// The responder.
    pub fn into_inner(self) -> R
        ensures { result ≡ self.responder }
    {
        self.responder
    }
}

/// The response of the responder, which runs behind the flash's cookie. Where memory runs out, the jar is as it was.
impl<T: Types, R: Responder<T> + Drop> Responder<T> for Flash<R> {
    ghost may = { λ flash seen before answer after. R.may flash.responder seen (flashing flash.flashed before) answer after };

    ghost starves = { λ flash seen before after.
        (after ≡ before) ⊎ LeavesJar (R.starves flash.responder seen (flashing flash.flashed before)) before after };

    fn respond_to(
        self,
        alloc: Global,
        request: &Request<'_, T>,
        ctx: &mut Ctx<T>,
    ) -> ResponseResult<T::Stream> {
        let changes = ctx.cookies().changes();
        self.add_to(alloc, ctx.cookies_mut())?;
        match self.into_inner().respond_to(alloc, request, ctx) {
            Ok(response) => Ok(response),
            Err(Want::Refused(status)) => Err(Want::Refused(status)),
            Err(Want::NoMemory) => {
                ctx.cookies_mut().take_back(changes);
                Err(Want::NoMemory)
            }
        }
    }
}

//! A message that an earlier response left in a cookie.
ghost use Rattle.std.specs.Prelude.{◌≡◌, false, true, Option, IfOk, MatchOption, MatchResult, OnOk, OnErr, option_map, string_bytes};
ghost use Rattle.rkt_request.specs.FromRequest.{Answers};
ghost use Rattle.rkt_response.specs.Flash.{Flashed, IsFlashOf, SaysFlash, answer_of, without_flash};

use crate::flash::NAME;
use rkt_base::{NoMemory, Text};
use rkt_cookie::{Cookie, CookieJar};
use rkt_http::{Outcome, Status};
use rkt_request::{Ctx, FromRequest, GuardOutcome, Request, Types};
use std::alloc::Global;
use std::marker::Model;

/// A kind and a message that came with a request. The first call that reads one of them removes the cookie.
#[derive(Drop)]
pub struct FlashMessage {
    kind: Text,
    message: Text,
    removed: bool,
}

impl Model for FlashMessage {
    ghost use Rattle.rkt_response.specs.Flash.{Received};

    ghost Value = { Received };

    ghost view = { λ f. record { flashed = record { kind = f.kind; message = f.message }; removed = f.removed } };
}

/// The kind and the message that a cookie's value says, if it says any.
fn parts(text: &str) -> Option<(&str, &str)>
    ensures { MatchOption result ((flashed : Flashed) → ¬ SaysFlash text.now flashed) (λ parts.
        SaysFlash text.now (record { kind = parts.0.now; message = parts.1.now })) }
{
    let (number, rest) = text.split_once(':')?;
    let length = number.parse::<usize>().ok()?;
    rest.split_at_checked(length)
}

impl FlashMessage {
    ghost use Rattle.std.specs.Prelude.{⊤};
    ghost use Rattle.std.specs.Borrow.{sem};
    ghost use mathlib.Core.Option.{none};
    ghost use denote.Follow.{follows_so};
    ghost use Rattle.rkt_response.specs.contracts.flash_message.FlashMessage.{the_row};

    fn read(alloc: Global, jar: &CookieJar) -> Result<Option<FlashMessage>, NoMemory>
        ensures { IfOk result (λ found. (flashed : Option Flashed)
            × IsFlashOf jar.now flashed
            × (found ≡ option_map (λ f. record { flashed = f; removed = false }) flashed)) }
    {
        let Some(cookie) = jar.get(NAME) else {
            return Ok(None);
        };
        let Some((kind, message)) = parts(cookie.value()) else {
            return Ok(None);
        };
        Ok(Some(FlashMessage {
            kind: Text::new(alloc, kind)?,
            message: Text::new(alloc, message)?,
            removed: false,
        }))
    }

    fn remove(&mut self, alloc: Global, jar: &mut CookieJar) -> Result<(), NoMemory>
        ensures removes { OnOk result (jar.new ≡ without_flash self.old.removed jar.old) }
        ensures removed { OnOk result (self.new ≡ record self.old { removed = true }) }
        ensures jar_stays { OnErr result (jar.new ≡ jar.old) }
        ensures stays { OnErr result (self.new ≡ self.old) }
    {
        if !self.removed {
            let cookie = Cookie::new(alloc, NAME, "")?;
            jar.remove(cookie)?;
            self.removed = true;
        }
        Ok(())
    }

    pub fn kind(&mut self, alloc: Global, jar: &mut CookieJar) -> Result<&str, NoMemory>
        ensures* rests { sem 𝓛 (follows_so the_row the_row self.entry.ghost_name none (λ _ _. ⊤)
            (λ after. MatchResult result (λ _. after ≡ record self.old { removed = true }) (λ _. after ≡ self.old))) }
        ensures value { IfOk result (λ kind. kind.now ≡ self.old.flashed.kind) }
        ensures removes { OnOk result (jar.new ≡ without_flash self.old.removed jar.old) }
        ensures err { OnErr result (jar.new ≡ jar.old) }
    {
        self.remove(alloc, jar)?;
        Ok(self.kind.as_str())
    }

    pub fn message(&mut self, alloc: Global, jar: &mut CookieJar) -> Result<&str, NoMemory>
        ensures* rests { sem 𝓛 (follows_so the_row the_row self.entry.ghost_name none (λ _ _. ⊤)
            (λ after. MatchResult result (λ _. after ≡ record self.old { removed = true }) (λ _. after ≡ self.old))) }
        ensures value { IfOk result (λ message. message.now ≡ self.old.flashed.message) }
        ensures removes { OnOk result (jar.new ≡ without_flash self.old.removed jar.old) }
        ensures err { OnErr result (jar.new ≡ jar.old) }
    {
        self.remove(alloc, jar)?;
        Ok(self.message.as_str())
    }

    /// The kind and the message.
    pub fn into_inner(
        mut self,
        alloc: Global,
        jar: &mut CookieJar,
    ) -> Result<(String, String), NoMemory>
        ensures kind { IfOk result (λ parts. string_bytes parts.0 ≡ self.flashed.kind) }
        ensures message { IfOk result (λ parts. string_bytes parts.1 ≡ self.flashed.message) }
        ensures removes { OnOk result (jar.new ≡ without_flash self.removed jar.old) }
        ensures err { OnErr result (jar.new ≡ jar.old) }
    {
        self.remove(alloc, jar)?;
        Ok((self.kind.into_string(), self.message.into_string()))
    }
}

impl<'a, T: Types> FromRequest<Request<'a, T>, Ctx<T>> for FlashMessage {
    type Error = ();

    ghost may = { λ seen before outcome after.
        (found : Option Flashed) × IsFlashOf before.kept.jar found × Answers outcome (answer_of found) before after };

    fn from_request(
        alloc: Global,
        _request: &Request<'a, T>,
        ctx: &mut Ctx<T>,
    ) -> Result<GuardOutcome<FlashMessage, ()>, NoMemory> {
        match FlashMessage::read(alloc, ctx.cookies())? {
            Some(message) => Ok(Outcome::Success(message)),
            None => Ok(Outcome::Error((Status::BadRequest, ()))),
        }
    }
}

//! Handlers and catchers as an author writes them who says nothing of them to the prover.
use crate::author::{Point, Site, Token};
use rkt_answers::{Answers, AnswersIf, AnswersWith, Catches, CatchesWith};
use rkt_base::NoMemory;
use rkt_cookie::Cookie;
use rkt_http::{Outcome, Status};
use rkt_life::{AnswersData, PlainText};
use rkt_request::{Ctx, Parsed, Request, Types};
use std::alloc::Global;

/// Greets who is named by the first segment, where there is one.
#[derive(Drop)]
pub struct Greets;

impl<T: Types> Answers<T> for Greets {
    type Value = Option<String>;

    fn answer(&self, alloc: Global, request: &Request<'_, T>) -> Result<Option<String>, NoMemory> {
        let Some(name) = request.routed_segment(0) else {
            return Ok(None);
        };
        let text = format!(in alloc; "hello {name}")?;
        Ok(Some(text))
    }
}

/// Answers its motto, and promises so.
#[derive(Drop)]
pub struct Motto;

impl<T: Types> Answers<T> for Motto {
    ghost use Rattle.std.specs.Prelude.{◌≡◌, codes};

    type Value = &'static str;

    // It answers nothing else, whatever the request.
    ghost may = { λ motto request text. text.now ≡ codes "we prove it" };

    fn answer(&self, _alloc: Global, _request: &Request<'_, T>) -> Result<&'static str, NoMemory> {
        Ok("we prove it")
    }
}

/// Shows the token of a request, where its guard allows it.
#[derive(Drop)]
pub struct Shows;

impl AnswersIf<Site> for Shows {
    type Value = String;

    fn answer(
        &self,
        alloc: Global,
        request: &Request<'_, Site>,
        ctx: &mut Ctx<Site>,
    ) -> Result<Outcome<String, Status, Status>, NoMemory> {
        match request.guard::<Token>(alloc, ctx)? {
            Outcome::Success(token) => Ok(Outcome::Success(token.text)),
            Outcome::Error((status, _)) => Ok(Outcome::Error(status)),
            Outcome::Forward(status) => Ok(Outcome::Forward(status)),
        }
    }
}

/// Says where the point is that a body spells.
#[derive(Drop)]
pub struct Places;

impl<T: Types> AnswersData<T> for Places {
    type Data = Parsed<Point>;

    type Value = PlainText;

    fn answer(
        &self,
        alloc: Global,
        _request: &Request<'_, T>,
        taken: Parsed<Point>,
        _ctx: &mut Ctx<T>,
    ) -> Result<PlainText, NoMemory> {
        let Parsed(Point { x, y }) = taken;
        Ok(PlainText(format!(in alloc; "{x} right, {y} up")?))
    }
}

/// Leaves a cookie that says that there was a visit, and welcomes.
#[derive(Drop)]
pub struct Visits;

impl<T: Types> AnswersWith<T> for Visits {
    type Value = &'static str;

    fn answer(
        &self,
        alloc: Global,
        _request: &Request<'_, T>,
        ctx: &mut Ctx<T>,
    ) -> Result<&'static str, NoMemory> {
        let cookie = Cookie::new(alloc, "visited", "1")?;
        ctx.cookies_mut().add(cookie)?;
        Ok("welcome")
    }
}

/// Says a status, and what was asked for.
#[derive(Drop)]
pub struct Says;

impl<T: Types> Catches<T> for Says {
    type Value = (Status, String);

    fn catch(
        &self,
        alloc: Global,
        status: Status,
        request: &Request<'_, T>,
    ) -> Result<(Status, String), NoMemory> {
        let text = format!(in alloc; "{} at {}", status.code, request.uri().as_str())?;
        Ok((status, text))
    }
}

/// Leaves each status to the default page, and a cookie that says that there was one.
#[derive(Drop)]
pub struct Notes;

impl<T: Types> CatchesWith<T> for Notes {
    type Value = Status;

    fn catch(
        &self,
        alloc: Global,
        status: Status,
        _request: &Request<'_, T>,
        ctx: &mut Ctx<T>,
    ) -> Result<Status, NoMemory> {
        let cookie = Cookie::new(alloc, "failed", "1")?;
        ctx.cookies_mut().add(cookie)?;
        Ok(status)
    }
}

//! What an author writes who says nothing of it to the prover: an application, a guard, two
//! parameters, a guard of a body and a responder.
use rkt_base::{NoMemory, Want};
use rkt_data::MemorySource;
use rkt_http::{Outcome, Segments, Status};
use rkt_request::{
    Ctx, FromParam, FromRequest, FromSegments, FromText, GuardOutcome, Request, Types,
};
use rkt_response::{Responder, ResponseResult};
use rkt_turn::Reason;
use std::alloc::Global;

/// The application, by its types.
pub struct Site;

/// The one reason for which it may be shut down.
#[derive(Clone, Copy)]
pub struct Stopped;

impl Reason for Stopped {
    fn word(self) -> u64 {
        1
    }
}

impl Types for Site {
    type Source = MemorySource;

    type Stream = MemorySource;

    type Cached = u8;

    type Value = u8;

    type Reason = Stopped;
}

/// The token that a request shows.
#[derive(Drop)]
pub struct Token {
    pub text: String,
}

/// It shows an empty one.
#[derive(Clone, Copy, Debug, Drop)]
pub struct NoToken;

impl<'a, T: Types> FromRequest<Request<'a, T>, Ctx<T>> for Token {
    type Error = NoToken;

    fn from_request(
        alloc: Global,
        request: &Request<'a, T>,
        _ctx: &mut Ctx<T>,
    ) -> Result<GuardOutcome<Token, NoToken>, NoMemory> {
        let Some(text) = request.headers().get_one("X-Token") else {
            return Ok(Outcome::Forward(Status::Unauthorized));
        };
        if text.is_empty() {
            return Ok(Outcome::Error((Status::BadRequest, NoToken)));
        }
        let text = String::from_str(alloc, text)?;
        Ok(Outcome::Success(Token { text }))
    }
}

/// A number to the base 16.
#[derive(Clone, Copy, Debug, Drop)]
pub struct Hex(pub u64);

/// A text is none.
#[derive(Clone, Copy, Debug, Drop)]
pub struct NotHex;

impl FromParam for Hex {
    type Error = NotHex;

    fn from_param(_alloc: Global, param: &str) -> Result<Hex, Want<NotHex>> {
        match u64::from_str_radix(param, 16) {
            Ok(number) => Ok(Hex(number)),
            Err(_) => Err(Want::Refused(NotHex)),
        }
    }
}

/// How many segments there are, of three at most.
#[derive(Clone, Copy, Debug, Drop)]
pub struct Depth(pub usize);

/// There are more.
#[derive(Clone, Copy, Debug, Drop)]
pub struct TooDeep;

impl FromSegments for Depth {
    type Error = TooDeep;

    fn from_segments(_alloc: Global, segments: Segments<'_>) -> Result<Depth, Want<TooDeep>> {
        match segments.len() {
            depth @ 0..=3 => Ok(Depth(depth)),
            _ => Err(Want::Refused(TooDeep)),
        }
    }
}

/// A point, spelled `X,Y`.
#[derive(Clone, Copy, Debug, Drop)]
pub struct Point {
    pub x: u32,
    pub y: u32,
}

/// A text is none.
#[derive(Clone, Copy, Debug, Drop)]
pub struct NoPoint;

impl FromText for Point {
    type Error = NoPoint;

    fn from_text(_alloc: Global, text: &str) -> Result<Point, Want<NoPoint>> {
        let Some((x, y)) = text.split_once(',') else {
            return Err(Want::Refused(NoPoint));
        };
        match (x.parse::<u32>(), y.parse::<u32>()) {
            (Ok(x), Ok(y)) => Ok(Point { x, y }),
            _ => Err(Want::Refused(NoPoint)),
        }
    }
}

/// A text, in capitals.
#[derive(Drop)]
pub struct Loud {
    pub text: String,
}

impl<T: Types> Responder<T> for Loud {
    fn respond_to(
        self,
        alloc: Global,
        request: &Request<'_, T>,
        ctx: &mut Ctx<T>,
    ) -> ResponseResult<T::Stream> {
        let mut text = self.text;
        if text.is_empty() {
            return Err(Want::Refused(Status::NotFound));
        }
        text.make_ascii_uppercase();
        text.respond_to(alloc, request, ctx)
    }
}

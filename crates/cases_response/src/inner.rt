//! Responders in others.
use either::{Either, Left, Right};
use rkt_http::Status;

/// A status, the empty response, or a text.
pub type Inner<'a> = Either<Status, Either<(), &'a str>>;

/// The responder that a text says.
pub fn inner(text: &str) -> Inner<'_> {
    if text == "-" {
        return Right(Left(()));
    }
    match text.parse() {
        Ok(code) => Left(Status::new(code)),
        Err(_) => Right(Right(text)),
    }
}

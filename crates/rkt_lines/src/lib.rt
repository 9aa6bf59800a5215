//! An application served over lines: each line of standard input is METHOD TARGET, and is answered on standard output. What an
//! author names for this is offered here too, so that such a program imports this crate alone. What serves and prints promises
//! nothing but what its types say.
#![tactic(auto)]

mod adds_header;
mod building;
mod into_handler;
mod lines;
mod printed;
mod simple;

pub use adds_header::AddsHeader;
pub use building::Builds;
pub use into_handler::IntoHandler;
pub use lines::serve_lines;
pub use rkt_life::{
    AdHoc, Answering, AnsweringData, AnsweringIf, AnsweringWith, Answers, AnswersData, AnswersIf,
    AnswersWith, App, Build, BuildError, Catcher, Catches, CatchesWith, ChangesResponse, Cookie,
    Ctx, DefaultCatcher, FromData, FromText, Ignite, Key, MemorySource, Method, NoFairing,
    NoMemory, OnResponse, OneOf, Outcome, Parsed, PlainText, Request, Responder, Response, Rocket,
    Route, Slot, Status, Stopped, Types,
};
pub use simple::{Answered, Caught, Simple};
pub use std::alloc::Global;
pub use std::io;

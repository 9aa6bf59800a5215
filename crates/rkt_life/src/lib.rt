//! A rocket, and the phases that it goes through. What an application names of the crates below is offered here too.
#![tactic(auto)]

mod build_error;
mod building;
mod handed;
mod igniting;
mod ignition;
mod lends;
mod no_fairing;
mod phase;
mod rocket;
mod state;
mod stopped;

pub use build_error::BuildError;
pub use handed::Handed;
pub use igniting::{IgnitedOf, Igniting, Orbiting};
pub use no_fairing::NoFairing;
pub use phase::{Build, Ignite, Orbit, Phase};
pub use rkt_adhoc::{AdHoc, AtOnce, ChangesRequest, ChangesResponse, OnRequest, OnResponse};
pub use rkt_answers::{
    Answering, AnsweringData, AnsweringIf, AnsweringWith, Answers, AnswersData, AnswersIf,
    AnswersWith, Catches, CatchesWith, DefaultCatcher, OneOf, PlainText, Taking,
};
pub use rkt_base::{NoMemory, Want};
pub use rkt_cookie::Cookie;
pub use rkt_data::MemorySource;
pub use rkt_exchange::{Ended, EndedOf, Exchange, ExchangeOf, Run, RunOf, Tables, TablesOf};
pub use rkt_fairing::{
    App, Attach, Fairing, Fairings, Info, InvalidBase, Kind, Parts, Quiet, RequestCallback,
    ResponseCallback, Slot,
};
pub use rkt_http::{Key, Method, Outcome, Status};
pub use rkt_ignition::{Aborted, IgniteAnswer, IgniteCall, IgniteError};
pub use rkt_request::{
    Body0, Config, ConfigTable, Ctx, FromData, FromText, Managed, Parsed, Request, Types,
};
pub use rkt_response::{Responder, Response, ResponseResult};
pub use rkt_router::{Catcher, Route, Router};
pub use rkt_routing::{Answer, Call, Which};
pub use rkt_turn::Reason;
pub use rocket::{Rocket, RocketOf};
pub use state::{State, StateOf, StateRef, Stateful};
pub use stopped::Stopped;

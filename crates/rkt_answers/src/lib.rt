//! Handlers and catchers that are written as one answer: a value that a responder makes the response of.
#![tactic(auto)]

mod answers;
mod answers_data;
mod default_catcher;
mod one_of;
mod outcome;
mod plain_text;

pub use answers::{
    Answering, AnsweringIf, AnsweringWith, Answers, AnswersIf, AnswersWith, Catches, CatchesWith,
};
pub use answers_data::{AnsweringData, AnswersData, Taking};
pub use default_catcher::DefaultCatcher;
pub use one_of::OneOf;
pub use outcome::{from, try_from};
pub use plain_text::PlainText;

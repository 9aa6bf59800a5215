//! What the programs of cases share. Such a program reads lines, each of which says a case, and writes each again behind an
//! arrow with its answer; empty lines and those that begin with `#` are headings, and are written as they are. Here are the
//! loop over the lines, the words that they are cut into, and what a case answers that has no answer. As the functions of
//! the programs, these promise nothing but what their types say.
#![tactic(auto)]

mod error;
mod lines;
mod words;

pub use crate::error::{CaseError, done, written};
pub use crate::lines::{Answers, answer_lines, answer_lines_if_made, is_heading, print_answer};
pub use crate::words::{cut, first_word, numbers, pair, parsed, plain, push_item};

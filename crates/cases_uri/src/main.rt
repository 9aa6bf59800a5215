//! The cases of URIs: each line of standard input says one, and standard output has it again with its answer.
//! `stdout` is the table of cases with the answers that are wanted; `stdin` has its lines up to the arrow.
//!
//! TEXT is the rest of the line. Between double quotes it is what stands between them, so that it may be empty or end
//! in a blank. A list is answered as its length and each item behind a bar.
//!
//! | Line | Answer |
//! |---|---|
//! | `origin TEXT` | the path and the query of the origin of a request |
//! | `route TEXT` | the same of the origin of a route |
//! | `text TEXT` | the origin's text |
//! | `segments TEXT` | the decoded segments of its path |
//! | `raw TEXT` | the pieces of its path as they stand |
//! | `fields TEXT` | the decoded fields of its query |
//! | `normal TEXT` | the text of its normal form |
//! | `cleared TEXT` | the text of the origin without its query |
//! | `segment NUMBER TEXT` | the segment of this number, from 0 |
//! | `behind NUMBER TEXT` | the segments behind the first so many |
//! | `path NUMBER TEXT` | the path of the file system that those walk to |
//! | `dotted NUMBER TEXT` | the same, where a name may begin with a dot |
//! | `names TEXT` | the path that segments walk to which the commas of the text part, and which may be empty |
//! | `front TEXT OTHER` | whether the segments are the first of the other's |
//! | `same TEXT OTHER` | whether the segments are the other's |
//! | `host TEXT` | its domain and its port |
//! | `absolute TEXT` | scheme, host and port of an absolute URI |
//! | `whole TEXT` | the text of an absolute URI |
//! | `reference TEXT` | the text of a reference |
//!
//! A refused text answers its fault, with the place where it leaves the grammar; any other line answers `? line`. What
//! `origin`, `host`, `absolute` and `reference` answer is told by a copy. Empty lines and those that begin with `#` are
//! headings, and are written as they are.
#![tactic(auto)]

mod answer;
mod origin;
mod other;
mod path;
mod refusal;
mod shown;
mod words;

use crate::answer::Program;
use cases::answer_lines;
use std::io;

fn main(rt: HostRuntime) -> io::Result<()> {
    let alloc = rt.alloc();
    answer_lines(&rt, alloc, Program)
}

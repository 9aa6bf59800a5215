//! The cases of what a server is set to: each line of standard input says one, and standard output has it again with
//! its answer. `stdout` is the table of cases with the answers that are wanted; `stdin` has its lines up to the arrow.
//! An empty line and one that begins with `#` are headings. What is no line of these is answered with `? line`.
//!
//!     limits new             from here on there are no limits; as every change, it answers how the limits print
//!     limits default         from here on there are the default limits
//!     limits set NAME BYTES  sets the limit of a name
//!     limits get NAME        the limit of a name, or `none`
//!     limits find LAYERS     the limit of some layers, each behind a bar, as `|file|png`; or `none`
//!     limits same NAME BYTES whether a copy of the limits, in which this one is set, equals them
//!     table new              from here on the table is empty
//!     table set NAME=TEXT    gives a name of the table a text
//!     table get NAME         the text of a name, or `none`
//!     config default         the default configuration, field by field
//!     config table           the configuration that the table says, or what refuses it
//!     managed new            from here on nothing is managed
//!     managed set KEY VALUE  manages a number under a key; or what refuses it, with the number that is handed back
//!     managed get KEY        the number under a key, or `none`
//!     state KEY VALUE        the state under a key from 0 to 3, or `none`: how it prints, the number that it lends,
//!                            whether it equals that of the other number, and how it compares with it
//!
//! In a TEXT, `\n` is a line feed and `\t` a tab.
#![tactic(auto)]

mod answer;
mod configs;
mod limits;
mod managed;
mod words;

use crate::answer::Kept;
use cases::answer_lines;
use std::io;

fn main(rt: HostRuntime) -> io::Result<()> {
    let alloc = rt.alloc();
    answer_lines(&rt, alloc, Kept::new(alloc))
}

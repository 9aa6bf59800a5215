//! The cases of parameters: each line of standard input says one, and standard output has it again with its answer.
//! `stdout` is the table of cases with the answers that are wanted; `stdin` has its lines up to the arrow.
//! An empty line and one that begins with `#` are headings. What is no line of these is answered with `? line`.
//!
//!     TYPE TEXT           what a decoded segment gives as a value of this type, or `refused` with the error
//!     segments TYPE LIST  what these decoded segments give as a value of this type; each of them stands behind a bar,
//!                         as in `|a|b c`
//!
//! The types of a segment: `u8` `u16` `u32` `u64` `u128` `usize` and the same of `i`; `NonZeroU8` and so on of all of
//! these; `bool`; `IpAddr` `Ipv4Addr` `Ipv6Addr` `SocketAddr` `SocketAddrV4` `SocketAddrV6`; `String` and `PathBuf`;
//! `Option<T>` and `Result<T>` of `u8`, `String` and `PathBuf`.
//! The types of segments: `PathBuf` and `Vec<String>`, and `Option<T>` and `Result<T>` of `PathBuf`.
#![tactic(auto)]

mod addresses;
mod answer;
mod kept;
mod numbers;
mod read;
mod segments;
mod shown;

use crate::answer::Program;
use cases::answer_lines;
use std::io;

fn main(rt: HostRuntime) -> io::Result<()> {
    let alloc = rt.alloc();
    answer_lines(&rt, alloc, Program)
}

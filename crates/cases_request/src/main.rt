//! The cases of requests: each line of standard input says one, and standard output has it again with its answer.
//! `stdout` is the table of cases with the answers that are wanted; `stdin` has its lines up to the arrow.
//! An empty line and one that begins with `#` are headings. What is no line of these is answered with `? line`.
//!
//!     config NAME=TEXT; ..        from here on this is the configuration
//!     managed KEY=NUMBER; ..      from here on these numbers below 256 are managed
//!     head HEAD                   what the request tells that this head makes, its faults, and the cookies that came
//!     copy HEAD                   a copy of the head, part by part
//!     tell REQUEST                what this request tells
//!     segment N REQUEST           its decoded segment behind the base of the route, or `none`
//!     segments N REQUEST          its decoded segments from one on
//!     param N TYPE REQUEST        that segment as a `String`, `u8`, `Option<u8>` or `PathBuf`, or `none`
//!     params N TYPE REQUEST       these segments as a `PathBuf`, `Option<PathBuf>`, `Result<PathBuf>` or `Vec<String>`
//!     guard TYPE REQUEST          the outcome of a guard: `Method`, `Mounted`, `SocketAddr`, `IpAddr`, `State` (of the
//!                                 key 2), `Origin`, `Host`, `Limits`, `ContentType`, `Accept`; or `Option<T>` of
//!                                 `Method` and `Mounted`, `Result<T>` of `Mounted` and `State`, `Outcome<State>`
//!     body TYPE CHUNK FAILS BYTES the outcome of a guard of a body, whose source gives so many bytes at a read and
//!                                 fails at these reads (from 0, parted by commas, or `-`): `Data`, `String`, `Vec<u8>`,
//!                                 `Capped<String>`, `Capped<Vec<u8>>`, `Option<String>`, `Result<String>`
//!     ctx new | ctx gate MOMENT   from here on the context is new, or has the Gate of this moment
//!     ctx cache KEY NUMBER        the number that is cached under a key, which is this one where there was none
//!     ctx cached | ctx add NAME=VALUE | ctx notify
//!                                 how many are cached; adds a cookie; trips the wire
//!     ctx tell | ctx parts        what the context tells; the parts that it gives back, after which it is new
//!
//! A HEAD is `METHOD TARGET | FIELD | ..`, in which a FIELD is `NAME: VALUE` or `from ADDRESS`. A REQUEST is
//! `METHOD TARGET | STEP | ..`, in which a STEP is `method METHOD`, `uri TARGET`, `host HOST`, `remote ADDRESS`,
//! `route POSITION SEGMENTS`, `add NAME: VALUE` or `replace NAME: VALUE`. In BYTES and in the VALUE of a head a
//! backslash with two digits behind it is the byte of this hexadecimal number.
#![tactic(auto)]

mod answer;
mod bodies;
mod context;
mod guards;
mod heads;
mod kept;
mod params;
mod question;
mod requests;
mod shown;
mod told;
mod words;

use crate::kept::Kept;
use cases::answer_lines_if_made;
use std::io;

fn main(rt: HostRuntime) -> io::Result<()> {
    let alloc = rt.alloc();
    answer_lines_if_made(&rt, alloc, Kept::new(alloc))
}

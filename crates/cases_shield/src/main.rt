//! The cases of security headers: each line of standard input says one, and standard output has it again with its answer.
//! `stdout` is the table of cases with the answers that are wanted; `stdin` has its lines up to the arrow.
//! An empty line and one that begins with `#` are headings. What is no line of these is answered with `? line`.
//!
//! | Line | Answer |
//! |---|---|
//! | `header POLICY` | the header of the policy, or `refused` |
//! | `features` | the names of all features |
//! | `get FEATURE RULES` | who may use the feature by these rules: a list, `nobody` where it is empty, or `none` |
//! | `rules RULES` | each feature of the rules with the same, parted by bars |
//! | `same RULES <=> RULES` | whether the two permissions are the same |
//! | `shield new`, `shield default` | the headers of the shield, which from then on is this one |
//! | `shield enable POLICY`, `shield disable NAME` | its headers, after a policy was enabled or disabled |
//! | `shield enabled NAME` | whether a policy of this name is enabled |
//! | `map new`, `map add NAME: VALUE` | the headers of the map, which is empty from then on, or has one more |
//! | `map apply` | the same, after the shield was applied to it |
//!
//! Shield and map are kept from line to line, and both are empty at first. Headers stand behind bars; where there is none,
//! the answer is `none`.
//!
//! A POLICY is a NAME and `default` or a variant: `referrer`, `no_sniff`, `frame`, `xss_filter` and `prefetch` with the
//! variant's name, `hsts VARIANT SECONDS`, `expect_ct Enforce SECONDS`, `expect_ct Report SECONDS URI`,
//! `expect_ct ReportAndEnforce SECONDS URI`, and `permission RULES`.
//!
//! RULES begin with `default`, `allowed FEATURE LIST` or `blocked FEATURE`, and go on with ` | allow FEATURE LIST` or
//! ` | block FEATURE`. A LIST has `*`, `self` and URIs, parted by blanks. Where an origin of a list has no host, the
//! answer is `refused`.
#![tactic(auto)]

mod answer;
mod features;
mod map;
mod permission;
mod plain;
mod policy;
mod shield;

use crate::answer::Kept;
use cases::answer_lines;
use std::io;

fn main(rt: HostRuntime) -> io::Result<()> {
    let alloc = rt.alloc();
    answer_lines(&rt, alloc, Kept::new(alloc))
}

//! Redirects.
use rkt_base::NoMemory;
use rkt_response::Redirect;
use std::alloc::Global;

/// The redirect of a command, if it is one.
pub fn made_redirect(
    alloc: Global,
    command: &str,
    uri: &str,
) -> Option<Result<Redirect, NoMemory>> {
    match command {
        "to" => Some(Redirect::to(alloc, uri)),
        "temporary" => Some(Redirect::temporary(alloc, uri)),
        "permanent" => Some(Redirect::permanent(alloc, uri)),
        "found" => Some(Redirect::found(alloc, uri)),
        "moved" => Some(Redirect::moved(alloc, uri)),
        _ => None,
    }
}

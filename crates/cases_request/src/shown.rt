//! Values, as answers show them.
use crate::told::push_media;
use cases::{CaseError, written};
use rkt_base::NoMemory;
use rkt_data::Capped;
use rkt_http::{Accept, ContentType, Host, Method, Origin, Outcome, PathBuf, Status};
use rkt_request::{Limits, Mounted, State};
use std::alloc::Global;
use std::fmt::Debug;
use std::net::{IpAddr, SocketAddr};

/// A value with a text for the answer.
pub trait Shown {
    /// Adds the text.
    fn show(&self, alloc: Global, out: &mut String) -> Result<(), CaseError>;
}

/// Adds a value between brackets, behind the name of its variant.
pub fn show_named<V: Shown>(
    alloc: Global,
    name: &str,
    value: &V,
    out: &mut String,
) -> Result<(), CaseError> {
    write!(out, "{name}(")?;
    value.show(alloc, out)?;
    written(out.push_str(")"))
}

/// Adds the error of an outcome.
pub fn show_error<E: Debug>(status: Status, error: &E, out: &mut String) -> Result<(), NoMemory> {
    write!(out, "Error({}, {error:?})", status.code)
}

/// Adds the forward of an outcome.
pub fn show_forward(status: Status, out: &mut String) -> Result<(), NoMemory> {
    write!(out, "Forward({})", status.code)
}

fn debug<V: Debug>(value: &V, out: &mut String) -> Result<(), CaseError> {
    written(write!(out, "{value:?}"))
}

impl Shown for u8 {
    fn show(&self, _alloc: Global, out: &mut String) -> Result<(), CaseError> {
        debug(self, out)
    }
}

impl Shown for String {
    fn show(&self, _alloc: Global, out: &mut String) -> Result<(), CaseError> {
        debug(self, out)
    }
}

impl Shown for Vec<String> {
    fn show(&self, _alloc: Global, out: &mut String) -> Result<(), CaseError> {
        debug(self, out)
    }
}

impl Shown for Vec<u8> {
    fn show(&self, _alloc: Global, out: &mut String) -> Result<(), CaseError> {
        debug(self, out)
    }
}

impl Shown for PathBuf {
    fn show(&self, _alloc: Global, out: &mut String) -> Result<(), CaseError> {
        debug(&self.as_str(), out)
    }
}

impl Shown for Method {
    fn show(&self, _alloc: Global, out: &mut String) -> Result<(), CaseError> {
        written(out.push_str(self.as_str()))
    }
}

impl Shown for Mounted {
    fn show(&self, _alloc: Global, out: &mut String) -> Result<(), CaseError> {
        debug(self, out)
    }
}

impl Shown for SocketAddr {
    fn show(&self, _alloc: Global, out: &mut String) -> Result<(), CaseError> {
        debug(self, out)
    }
}

impl Shown for IpAddr {
    fn show(&self, _alloc: Global, out: &mut String) -> Result<(), CaseError> {
        debug(self, out)
    }
}

impl<const KEY: u32> Shown for State<'_, u8, KEY> {
    fn show(&self, _alloc: Global, out: &mut String) -> Result<(), CaseError> {
        written(write!(out, "{self}"))
    }
}

impl Shown for Origin {
    fn show(&self, _alloc: Global, out: &mut String) -> Result<(), CaseError> {
        written(out.push_str(self.as_str()))
    }
}

impl Shown for Host {
    fn show(&self, _alloc: Global, out: &mut String) -> Result<(), CaseError> {
        debug(&(self.domain(), self.port()), out)
    }
}

impl Shown for Limits {
    fn show(&self, _alloc: Global, out: &mut String) -> Result<(), CaseError> {
        written(write!(out, "{self}"))
    }
}

impl Shown for ContentType {
    fn show(&self, alloc: Global, out: &mut String) -> Result<(), CaseError> {
        written(push_media(alloc, self.media_type(), out))
    }
}

/// The media type that is preferred.
impl Shown for Accept {
    fn show(&self, alloc: Global, out: &mut String) -> Result<(), CaseError> {
        written(push_media(alloc, self.preferred(), out))
    }
}

impl<V: Shown> Shown for Option<V> {
    fn show(&self, alloc: Global, out: &mut String) -> Result<(), CaseError> {
        match self {
            Some(value) => show_named(alloc, "Some", value, out),
            None => written(out.push_str("None")),
        }
    }
}

impl<V: Shown, E: Debug> Shown for Result<V, E> {
    fn show(&self, alloc: Global, out: &mut String) -> Result<(), CaseError> {
        match self {
            Ok(value) => show_named(alloc, "Ok", value, out),
            Err(error) => written(write!(out, "Err({error:?})")),
        }
    }
}

impl<V: Shown, E: Debug> Shown for Outcome<V, (Status, E), Status> {
    fn show(&self, alloc: Global, out: &mut String) -> Result<(), CaseError> {
        match self {
            Outcome::Success(value) => show_named(alloc, "Success", value, out),
            Outcome::Error((status, error)) => written(show_error(*status, error, out)),
            Outcome::Forward(status) => written(show_forward(*status, out)),
        }
    }
}

impl<V: Shown> Shown for Capped<V> {
    fn show(&self, alloc: Global, out: &mut String) -> Result<(), CaseError> {
        self.value.show(alloc, out)?;
        let (length, complete) = (self.n.written, self.n.complete);
        written(write!(out, " written={length} complete={complete}"))
    }
}

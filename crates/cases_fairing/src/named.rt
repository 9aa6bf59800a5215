//! A fairing that has what it tells.
use crate::kinds::read_kind;
use cases::{CaseError, first_word, parsed};
use rkt_fairing::{Attach, Info, Kind};
use rkt_http::Key;

/// A fairing that is told what to tell.
#[derive(Drop)]
pub struct Named {
    name: &'static str,
    key: u32,
    kind: Kind,
}

impl Named {
    /// One that is called for requests.
    pub fn for_requests() -> Named {
        Named {
            name: "bob",
            key: 2,
            kind: Kind::Request,
        }
    }

    pub fn name(&self) -> &'static str {
        self.name
    }
}

impl Attach for Named {
    ghost key = { λ f. record { 0 = f.key } };

    ghost info = { λ f. record { name = f.name.now; kind = f.kind } };

    fn key(&self) -> Key {
        Key(self.key)
    }

    fn info(&self) -> Info {
        Info {
            name: self.name,
            kind: self.kind,
        }
    }
}

fn read_name(text: &str) -> Result<&'static str, CaseError> {
    match text {
        "ada" => Ok("ada"),
        "bob" => Ok("bob"),
        "cy" => Ok("cy"),
        _ => Err(CaseError::Line),
    }
}

/// The fairing that a line says.
pub fn read_named(text: &str) -> Result<Named, CaseError> {
    let (name, rest) = first_word(text);
    let (key, kinds) = first_word(rest);
    Ok(Named {
        name: read_name(name)?,
        key: parsed::<u32>(key)?,
        kind: read_kind(kinds)?,
    })
}

/// The fairing of this name, for requests.
pub fn read_called(text: &str) -> Result<Named, CaseError> {
    let mut named = Named::for_requests();
    named.name = read_name(text)?;
    Ok(named)
}

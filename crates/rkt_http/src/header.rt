ghost use Rattle.std.specs.Prelude.{◌≡◌, IfOk};

use crate::uncased::Uncased;
use rkt_base::{NoMemory, Text};
use std::alloc::Global;
use std::marker::Model;

/// A header field: its name and its value (RFC 9110, 5).
#[derive(Debug, Drop)]
pub struct Header {
    name: Uncased,
    value: Text,
}

impl Model for Header {
    ghost use Rattle.rkt_http.specs.Headers.{Field};

    ghost Value = { Field };

    ghost view = { λ h. record { name = h.name; value = h.value } };
}

impl Header {
    pub fn new(alloc: Global, name: &str, value: &str) -> Result<Header, NoMemory>
        ensures { IfOk result (λ h. h ≡ record { name = name.now; value = value.now }) }
    {
        Ok(Header {
            name: Uncased::new(alloc, name)?,
            value: Text::new(alloc, value)?,
        })
    }

    pub fn name(&self) -> &Uncased
        ensures { result.now ≡ self.now.name }
    {
        &self.name
    }

    pub fn value(&self) -> &str
        ensures { result.now ≡ self.now.value }
    {
        self.value.as_str()
    }

    /// The same header, in texts of its own.
    pub fn try_clone(&self, alloc: Global) -> Result<Header, NoMemory>
        ensures { IfOk result (λ h. h ≡ self.now) }
    {
        Ok(Header {
            name: self.name.try_clone(alloc)?,
            value: self.value.try_clone(alloc)?,
        })
    }

    /// The value, which takes no memory.
    pub(crate) fn into_value(self) -> Text
        ensures { result ≡ self.value }
    {
        self.value
    }

    /// The name and the value, which takes no memory.
    pub(crate) fn into_parts(self) -> (Uncased, Text)
        ensures name { result.0 ≡ self.name }
        ensures value { result.1 ≡ self.value }
    {
        (self.name, self.value)
    }
}

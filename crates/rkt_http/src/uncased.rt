ghost use Rattle.std.specs.Prelude.{◌≡◌, List, ℕ, IfOk};

use rkt_base::{NoMemory, Text};
use std::alloc::Global;
use std::marker::Model;

/// A text that is compared without regard to ASCII case.
#[derive(Debug, Drop)]
pub struct Uncased {
    text: Text,
}

impl Model for Uncased {
    ghost Value = { List ℕ };

    ghost view = { λ u. u.text };
}

impl Uncased {
    pub fn new(alloc: Global, text: &str) -> Result<Uncased, NoMemory>
        ensures { IfOk result (λ u. u ≡ text.now) }
    {
        Ok(Uncased {
            text: Text::new(alloc, text)?,
        })
    }

    /// The same, in a text of its own.
    pub fn try_clone(&self, alloc: Global) -> Result<Uncased, NoMemory>
        ensures { IfOk result (λ u. u ≡ self.now) }
    {
        Ok(Uncased {
            text: self.text.try_clone(alloc)?,
        })
    }

    /// The text in its own case.
    pub fn as_str(&self) -> &str
        ensures { result.now ≡ self.now }
    {
        self.text.as_str()
    }
}

impl PartialEq for Uncased {
    ghost use Rattle.std.specs.Cmp.{partial_equiv_from_equiv};
    ghost use Rattle.std.specs.Cmp.Lexicographic.{on_texts_equal};
    ghost use Rattle.std.specs.Str.{str_to_ascii_lowercase, str_eq_ignore_ascii_case};

    ghost eq = { str_eq_ignore_ascii_case };

    ghost laws = { partial_equiv_from_equiv (on_texts_equal str_to_ascii_lowercase) };

    fn eq(&self, other: &Uncased) -> bool {
        self.as_str().eq_ignore_ascii_case(other.as_str())
    }
}

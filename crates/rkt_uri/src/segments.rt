ghost use Rattle.std.specs.Prelude.{◌≡◌, ◌↔◌, [], List, ℕ, length, drop, option_copied, slice_get, IfOk, IsTrue};
ghost use Rattle.rkt_base.specs.Want.{Gives};
ghost use Rattle.rkt_grammar.specs.Grammar.{IsFrontOf};
ghost use Rattle.rkt_uri.specs.PathBuf.{path_of_names};
ghost use Rattle.rkt_uri.specs.FileNames.{GoesDown};

use crate::path_buf::{PathBuf, PathError, path_of};
use rkt_base::{Text, Want};
use std::alloc::Global;
use std::marker::Model;

/// Decoded segments, in order.
#[derive(Drop)]
pub struct Segments<'a> {
    items: &'a [Text],
}

impl<'a> Model for Segments<'a> {
    ghost Value = { List (List ℕ) };

    ghost view = { λ s. s.items.now };
}

impl<'a> Segments<'a> {
    /// Segments that are decoded already.
    pub fn new(items: &'a [Text]) -> Segments<'a>
        ensures { result ≡ items.entry.now }
    {
        Segments { items }
    }

    pub fn is_empty(&self) -> bool
        ensures { IsTrue result ↔ (self.now ≡ []) }
    {
        self.items.is_empty()
    }

    pub fn len(&self) -> usize
        ensures { result ≡ length self.now }
    {
        self.items.len()
    }

    pub fn get(&self, n: usize) -> Option<&'a str>
        ensures { option_copied result ≡ slice_get self.now n }
    {
        match self.items.get(n) {
            Some(segment) => Some(segment.as_str()),
            None => None,
        }
    }

    /// Without the first `n`.
    pub fn skip(self, n: usize) -> Segments<'a>
        ensures { result ≡ drop n self.entry }
    {
        Segments {
            items: &self.items[n.min(self.items.len())..],
        }
    }

    /// The path of the file system that these are. An empty segment and `.` stay where it is, and `..` goes one up, but
    /// not past the start.
    pub fn to_path_buf(
        self,
        alloc: Global,
        allow_dotfiles: bool,
    ) -> Result<PathBuf, Want<PathError>>
        ensures value { Gives (λ path. path) result (path_of_names allow_dotfiles self.entry) }
        // A path that is given stays below where it begins, whatever the segments are.
        ensures down { IfOk result GoesDown }
    {
        path_of(alloc, allow_dotfiles, self.items)
    }

    /// Whether these are the first of the others.
    pub fn prefix_of(self, other: Segments<'_>) -> bool
        ensures { IsTrue result ↔ IsFrontOf self.entry other.entry }
    {
        other.items.starts_with(self.items)
    }
}

impl<'a> PartialEq for Segments<'a> {
    ghost use Rattle.std.specs.Prelude.{◌≡◌, ◌↔◌, IsTrue, nat_eq};
    ghost use Rattle.std.specs.Cmp.{partial_equiv_from_equiv};
    ghost use Rattle.std.specs.Cmp.Lexicographic.{pointwise, lists_equiv, nat_list_eq_equiv};

    ghost eq = { pointwise (pointwise nat_eq) };

    ghost laws = { partial_equiv_from_equiv (lists_equiv nat_list_eq_equiv) };

    fn eq(&self, other: &Segments<'a>) -> bool
        ensures value { result ≡ pointwise (pointwise nat_eq) self.now other.now }
        ensures same { IsTrue result ↔ (self.now ≡ other.now) }
    {
        self.items == other.items
    }
}

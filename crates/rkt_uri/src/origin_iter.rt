ghost use Rattle.std.specs.Prelude.{◌≡◌, List, ℕ, length};
ghost use Rattle.rkt_grammar.specs.Bytes.{slash};
ghost use Rattle.rkt_uri.specs.Origin.{pieces};

use rkt_base::Text;
use rkt_grammar::cut;
use std::marker::Model;

/// The pieces of a path as they stand.
#[derive(Drop)]
pub struct RawSegments<'a> {
    rest: &'a str,
}

impl<'a> Model for RawSegments<'a> {
    ghost Value = { List (List ℕ) };

    ghost view = { λ s. pieces slash s.rest.now };
}

impl<'a> RawSegments<'a> {
    pub(crate) fn new(path: &'a str) -> RawSegments<'a>
        ensures { result ≡ pieces slash path.entry.now }
    {
        RawSegments { rest: path }
    }
}

impl<'a> Iterator for RawSegments<'a> {
    ghost use Rattle.std.specs.Iterator.{YieldsFirstRef, item_count};

    type Item = &'a str;

    ghost next_gives = { YieldsFirstRef (λ s. s) };

    ghost remaining = { item_count (λ s. s) };

    fn next(&mut self) -> Option<&'a str> {
        while !self.rest.is_empty() {
            let (piece, rest) = cut(self.rest, '/');
            self.rest = rest;
            if !piece.is_empty() {
                return Some(piece);
            }
        }
        None
    }
}

/// The decoded fields of a query, in order.
#[derive(Drop)]
pub struct QueryFields<'a> {
    fields: &'a [(Text, Text)],
}

impl<'a> Model for QueryFields<'a> {
    ghost Value = { List (List ℕ × List ℕ) };

    ghost view = { λ s. s.fields.now };
}

impl<'a> QueryFields<'a> {
    pub(crate) fn new(fields: &'a [(Text, Text)]) -> QueryFields<'a>
        ensures { result ≡ fields.entry.now }
    {
        QueryFields { fields }
    }
}

impl<'a> Iterator for QueryFields<'a> {
    ghost use Rattle.std.specs.Iterator.{YieldsFirstBy, item_count};

    type Item = (&'a str, &'a str);

    ghost next_gives = { YieldsFirstBy (λ x. (x.0.now, x.1.now)) (λ s. s) };

    ghost remaining = { item_count (λ s. s) };

    fn next(&mut self) -> Option<(&'a str, &'a str)> {
        let (first, others) = self.fields.split_first()?;
        self.fields = others;
        Some((first.0.as_str(), first.1.as_str()))
    }
}

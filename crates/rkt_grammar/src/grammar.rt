ghost use Rattle.std.specs.Prelude.{◌≡◌, ◌↔◌, ℕ, Bool, true, List, [], ◌∷◌, Option, MatchOption, IfNone, IfSome};
ghost use Rattle.rkt_grammar.specs.Grammar.{LeavesAt, Begins};

/// Where a reader stands in a text. What may follow is a grammar of its own.
pub trait Place: Copy {
    /// The place behind one more byte, if some text goes on with it.
    ghost place_after: { Self → ℕ → Option Self };

    /// The text may end here.
    ghost may_end: { Self → Bool };

    /// What may follow.
    ghost rest_of: { Self → List ℕ → Type 0 };

    fn after(self, byte: u8) -> Option<Self>
        ensures { result ≡ place_after self byte };

    fn can_end(self) -> bool
        ensures { result ≡ may_end self };

    ghost ends: { (place : Self) → (may_end place ≡ true) ↔ rest_of place [] };

    ghost goes_on: { (place : Self) (b : ℕ) (rest : List ℕ) →
        MatchOption (place_after place b) (¬ rest_of place (b ∷ rest)) (λ next. rest_of next rest ↔ rest_of place (b ∷ rest)) };

    ghost leads_on: { (place : Self) → Begins (rest_of place) [] };
}

/// The place at which a text leaves the grammar of what may follow `start`.
pub fn first_fault<P: Place>(start: P, text: &str) -> Option<usize>
    ensures none { IfNone result (P.rest_of start text.now) }
    ensures some { IfSome result (LeavesAt (P.rest_of start) text.now) }
{
    first_fault_in(start, text.as_bytes())
}

fn first_fault_in<P: Place>(start: P, text: &[u8]) -> Option<usize>
    ensures none { IfNone result (P.rest_of start text.now) }
    ensures some { IfSome result (LeavesAt (P.rest_of start) text.now) }
{
    let mut place = start;
    for (at, byte) in text.iter().enumerate() {
        match place.after(*byte) {
            Some(next) => place = next,
            None => return Some(at),
        }
    }
    if place.can_end() {
        None
    } else {
        Some(text.len())
    }
}

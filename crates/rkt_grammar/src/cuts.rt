//! Where a text is cut: at the first of a mark.
ghost use Rattle.std.specs.Prelude.{◌≡◌, ◌<◌, ◌==◌, option_copied};
ghost use Rattle.std.specs.List.{before_first, after_first};
ghost use Rattle.rkt_grammar.specs.Grammar.{behind_first};

/// What stands before the first of a mark and what stands behind it; where there is none, all and nothing.
pub fn cut(text: &str, mark: char) -> (&str, &str)
    requires { mark < 128 }
    ensures before { result.0.now ≡ before_first (λ b. b == mark) text.now }
    ensures behind { result.1.now ≡ after_first (λ b. b == mark) text.now }
{
    text.split_once(mark).unwrap_or((text, ""))
}

/// What stands before the first of a mark, or all where there is none.
pub fn before_first(text: &str, mark: char) -> &str
    requires { mark < 128 }
    ensures { result.now ≡ before_first (λ b. b == mark) text.now }
{
    cut(text, mark).0
}

/// What stands behind the first of a mark, if there is one.
pub fn behind_first(text: &str, mark: char) -> Option<&str>
    requires { mark < 128 }
    ensures { option_copied result ≡ behind_first (λ b. b == mark) text.now }
{
    match text.split_once(mark) {
        Some((_, rest)) => Some(rest),
        None => None,
    }
}

//! Why a rocket is shut down, where an application tells no reasons apart.
use rkt_turn::Reason;

/// The one reason of an application that has no reasons of its own.
#[derive(Clone, Copy, Debug, PartialEq, Eq)]
pub struct Stopped;

impl Reason for Stopped {
    ghost use Rattle.std.specs.Prelude.{◌≡◌};

    ghost says = { λ reason word. word ≡ 1 };

    ghost allowed = { λ word. word ≡ 1 };

    fn word(self) -> u64 {
        1
    }
}

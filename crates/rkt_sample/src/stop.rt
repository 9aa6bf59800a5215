//! Why the application may be shut down.
ghost use Rattle.std.specs.Prelude.{◌≡◌, ℕ};

use rkt_turn::Reason;

/// The reasons of an application that `/stop` shuts down.
pub trait StopReason: Reason {
    /// The word that stands once `/stop` has notified, or 0 where it tells nobody.
    ghost stop_word: { ℕ };

    /// The reason that `/stop` notifies.
    fn stop() -> Self
        ensures { (word : ℕ) → Self.says result word → word ≡ stop_word };

    /// No other word may stand.
    ghost alone: { (word : ℕ) → Self.allowed word → word ≡ stop_word };
}

//! What a fairing tells of itself.
ghost use Rattle.std.specs.Prelude.{◌≡◌};
ghost use Rattle.rkt_fairing.specs.Info.{SeenInfo, seen_info};

use crate::Kind;
use rkt_http::Key;

/// What a fairing tells of itself.
#[derive(Clone, Copy, Debug, Drop)]
pub struct Info {
    pub name: &'static str,
    pub kind: Kind,
}

/// What can be attached to a rocket: it has a key, which stands for its type, and tells what it is.
pub trait Attach {
    ghost use Rattle.rkt_http.specs.declared.key.Key.{Key};

    /// The key that it tells.
    ghost key: { Self → Key };

    /// What it tells of itself.
    ghost info: { Self → SeenInfo };

    /// Singletons of one key take each other's place.
    fn key(&self) -> Key
        ensures { result ≡ key self.now };

    /// Its name, and the kinds that it is of.
    fn info(&self) -> Info
        ensures { seen_info result ≡ info self.now };
}

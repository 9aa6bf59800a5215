ghost use Rattle.std.specs.Prelude.{◌≡◌, ◌++◌, ◌∷◌, [], Ok, Some, None, IfOk, OnErr, length};
ghost use Rattle.rkt_request.specs.Lent.{cached_at, with_cache};

use crate::types::Types;
use rkt_base::NoMemory;
use rkt_cookie::CookieJar;
use rkt_data::Gate;
use rkt_http::Key;
use rkt_turn::Shutdown;
use std::alloc::Global;
use std::marker::Model;

/// What a callback is lent beside the request.
#[derive(Drop)]
pub struct Ctx<T: Types> {
    pub(crate) jar: CookieJar,
    cache: Vec<(Key, T::Cached)>,
    pub(crate) shutdown: Shutdown<T::Reason>,
    gate: Gate,
}

impl<T: Types> Model for Ctx<T> {
    ghost use Rattle.rkt_request.specs.Lent.{Lent};

    ghost Value = { Lent T.Cached };

    ghost view = { λ c. record { kept = record { jar = c.jar; cache = c.cache.items; shutdown = c.shutdown }; gate = c.gate } };
}

impl<T: Types> Ctx<T> {
    /// With nothing cached.
    pub fn new(alloc: Global, jar: CookieJar, shutdown: Shutdown<T::Reason>, gate: Gate) -> Ctx<T>
        ensures { result ≡ record { kept = record { jar = jar; cache = []; shutdown = shutdown }; gate = gate } }
    {
        Ctx {
            jar,
            cache: Vec::new(alloc),
            shutdown,
            gate,
        }
    }

    pub fn cookies(&self) -> &CookieJar
        ensures { result.now ≡ self.now.kept.jar }
    {
        &self.jar
    }

    fn cached_at(&self, key: Key) -> Option<T::Cached>
        ensures { result ≡ cached_at key self.now.kept.cache }
    {
        let entry = self.cache.iter().find(|entry| entry.0.0 == key.0)?;
        Some(entry.1)
    }

    /// The value that is cached under a key, which is the closure's where there was none.
    pub fn local_cache<F: FnOnce() -> T::Cached>(
        &mut self,
        key: Key,
        f: F,
    ) -> Result<T::Cached, NoMemory>
        requires { F.pre f }
        ensures kept { (value : T.Cached)
            → cached_at key self.old.kept.cache ≡ Some value
            → (result ≡ Ok value) × (self.new ≡ self.old) }
        ensures made { cached_at key self.old.kept.cache ≡ None
            → IfOk result (λ value.
            F.post f value × (self.new ≡ with_cache self.old (self.old.kept.cache ++ (key, value) ∷ []))) }
        ensures err { OnErr result (self.new ≡ self.old) }
    {
        if let Some(value) = self.cached_at(key) {
            return Ok(value);
        }
        let value = f();
        self.cache.push((key, value))?;
        Ok(value)
    }

    /// The number of cached values.
    pub fn cached(&self) -> usize
        ensures { result ≡ length self.now.kept.cache }
    {
        self.cache.len()
    }

    /// The word that the wire's handle has seen, or 0. It does not look at the wire.
    pub fn word(&self) -> u64
        ensures { result ≡ self.now.kept.shutdown.seen }
    {
        self.shutdown.seen()
    }

    pub fn gate(&self) -> Gate
        ensures { result ≡ self.now.gate }
    {
        self.gate
    }

    pub fn set_gate(&mut self, gate: Gate)
        ensures { self.new ≡ record self.old { gate = gate } }
    {
        self.gate = gate;
    }

    /// The jar, the cached values in the order in which they came, and the handle.
    pub fn into_parts(self) -> (CookieJar, Vec<(Key, T::Cached)>, Shutdown<T::Reason>)
        ensures jar { result.0 ≡ self.kept.jar }
        ensures cache { result.1.items ≡ self.kept.cache }
        ensures shutdown { result.2 ≡ self.kept.shutdown }
    {
        (self.jar, self.cache, self.shutdown)
    }
}

//! A jar that threads share.
ghost use Rattle.std.specs.Prelude.{◌≡◌, All, IfOk, IfErr};
ghost use Rattle.rkt_cookie.specs.Jar.{HasFurther, HasDefaults};

use crate::change::Change;
use crate::cookie::Cookie;
use crate::jar::{CookieJar, added, removed};
use rkt_base::NoMemory;
use std::marker::Model;
use std::sync::{Mutex, Wait};

// The changes that threads have made. What a lock keeps is said in a type.
#[derive(Drop)]
struct Further {
    changes: Vec<Change>,
    ghost each: { All HasDefaults changes.items },
}

impl Further {
    fn push(&mut self, change: Change) -> Result<(), NoMemory>
        requires { HasDefaults change }
    {
        Ok(self.changes.push(change)?)
    }
}

/// A jar to which several threads add changes. What it was opened with stays as it is until it is closed.
#[derive(Drop)]
pub struct SharedJar {
    jar: CookieJar,
    further: Mutex<Further>,
}

impl Model for SharedJar {
    ghost use Rattle.rkt_cookie.specs.Jar.{JarParts};

    ghost Value = { JarParts };

    ghost view = { λ s. s.jar };
}

impl SharedJar {
    /// Shares a jar, which takes no memory.
    pub fn open(jar: CookieJar) -> SharedJar
        ensures { result ≡ jar }
    {
        let changes = Vec::new(jar.allocator());
        SharedJar {
            jar,
            further: Mutex::new(Further { changes }),
        }
    }

    /// Logs that a cookie is added, behind the changes so far of all threads.
    pub fn add<R: Wait>(&self, rt: &R, cookie: Cookie) -> Result<(), NoMemory> {
        let change = added(self.jar.allocator(), cookie)?;
        self.further.lock(rt).push(change)
    }

    /// Logs that the cookie of this name, path and domain is removed.
    pub fn remove<R: Wait>(&self, rt: &R, cookie: Cookie) -> Result<(), NoMemory> {
        let change = removed(self.jar.allocator(), cookie)?;
        self.further.lock(rt).push(change)
    }

    /// The jar, with the changes of all threads. For want of memory it is as it was given.
    pub fn close(self) -> Result<CookieJar, CookieJar>
        ensures ok { IfOk result (λ jar. HasFurther self jar) }
        ensures err { IfErr result (λ jar. jar ≡ self) }
    {
        let SharedJar { mut jar, further } = self;
        let Further { mut changes } = further.into_inner();
        match jar.append(&mut changes) {
            Ok(()) => Ok(jar),
            Err(_) => Err(jar),
        }
    }
}

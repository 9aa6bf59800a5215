use crate::cookie::Cookie;
use rkt_base::{NoMemory, TryClone};
use std::alloc::Global;

/// A cookie that a handler added or removed.
#[derive(Debug, Drop)]
pub struct Change {
    pub cookie: Cookie,
    pub removal: bool,
}

impl TryClone for Change {
    fn try_clone(&self, alloc: Global) -> Result<Change, NoMemory> {
        Ok(Change {
            cookie: self.cookie.try_clone(alloc)?,
            removal: self.removal,
        })
    }
}

ghost use Rattle.std.specs.Prelude.{◌≡◌, ◌≤◌, ◌++◌, ◌∷◌, [], if◌then◌else◌, List, ℕ, Some, IfOk, OnOk, OnErr, length, option_to_list, take};
ghost use Rattle.std.specs.Option.{option_copied};
ghost use Rattle.std.specs.Iterator.{YieldsFirstRef, item_count};
ghost use Rattle.rkt_cookie.specs.JarEntries.{IsByName, cookies_in};
ghost use Rattle.rkt_cookie.specs.Jar.{NamesAscend, addition, cookie_of, delta, is_named, last_change, left_by, pending_changes, removal_of, sent, with_cookie, with_defaults};

use crate::change::Change;
use crate::cookie::Cookie;
use crate::same_site::SameSite;
use rkt_base::{NoMemory, copy_all};
use std::alloc::Global;
use std::collections::btree_map::Values;
use std::collections::{BTreeMap, BTreeSet};
use std::marker::Model;

/// The cookies that came with a request, and what was added and removed since.
#[derive(Drop)]
pub struct CookieJar {
    originals: BTreeMap<String, Cookie>,
    log: Vec<Change>,
    floor: usize,
}

impl Model for CookieJar {
    ghost use Rattle.std.specs.Prelude.{◌≤◌, length};
    ghost use Rattle.rkt_cookie.specs.Jar.{JarParts};
    ghost use Rattle.rkt_cookie.specs.JarEntries.{IsByName, cookies_in};

    ghost Value = { JarParts };

    ghost view = { λ j. record { originals = cookies_in j.originals.entries; log = j.log.items; floor = j.floor } };

    ghost invariant = { λ j. IsByName j.originals.entries × (j.floor ≤ length j.log.items) };
}

/// A cookie with the defaults of a change: the path `/` and this SameSite, where it has none of its own.
fn default_cookie(
    alloc: Global,
    mut cookie: Cookie,
    same_site: SameSite,
) -> Result<Cookie, NoMemory>
    ensures { IfOk result (λ c. c ≡ with_defaults same_site cookie) }
{
    if cookie.path().is_none() {
        cookie.set_path(alloc, "/")?;
    }
    if cookie.same_site().is_none() {
        cookie.set_same_site(same_site);
    }
    Ok(cookie)
}

/// The change by which a cookie is added.
pub(crate) fn added(alloc: Global, cookie: Cookie) -> Result<Change, NoMemory>
    ensures { IfOk result (λ change. change ≡ addition cookie) }
{
    Ok(Change {
        cookie: default_cookie(alloc, cookie, SameSite::Strict)?,
        removal: false,
    })
}

/// The change by which a cookie is removed.
pub(crate) fn removed(alloc: Global, cookie: Cookie) -> Result<Change, NoMemory>
    ensures { IfOk result (λ change. change ≡ removal_of cookie) }
{
    Ok(Change {
        cookie: default_cookie(alloc, cookie, SameSite::Lax)?,
        removal: true,
    })
}

fn push_any(cookies: &mut Vec<Cookie>, cookie: Option<Cookie>) -> Result<(), NoMemory>
    ensures { OnOk result (cookies.new.items ≡ cookies.old.items ++ option_to_list cookie) }
{
    match cookie {
        Some(cookie) => Ok(cookies.push(cookie)?),
        None => Ok(()),
    }
}

/// Keeps a cookie under its name.
fn insert_named(
    alloc: Global,
    cookies: &mut BTreeMap<String, Cookie>,
    cookie: Cookie,
) -> Result<(), NoMemory>
    requires { IsByName cookies.old.entries }
    ensures by_name { IsByName cookies.new.entries }
    ensures ok { OnOk result (cookies_in cookies.new.entries ≡ with_cookie (cookies_in cookies.old.entries) cookie) }
    ensures err { OnErr result (cookies.new.entries ≡ cookies.old.entries) }
{
    let name = String::from_str(alloc, cookie.name())?;
    cookies.insert(name, cookie)?;
    Ok(())
}

impl CookieJar {
    /// A jar without cookies, which takes no memory until the first one comes.
    pub fn new(alloc: Global) -> CookieJar
        ensures { result ≡ record { originals = []; log = []; floor = 0 } }
    {
        CookieJar {
            originals: BTreeMap::new(alloc),
            log: Vec::new(alloc),
            floor: 0,
        }
    }

    fn copied_originals(&self) -> Result<CookieJar, NoMemory>
        ensures { IfOk result (λ jar. jar ≡ record { originals = self.now.originals; log = []; floor = 0 }) }
    {
        let alloc = *self.log.allocator();
        let mut copy = CookieJar::new(alloc);
        for cookie in self.iter() {
            copy.add_original(cookie.try_clone(alloc)?)?;
        }
        Ok(copy)
    }

    /// A copy, by the allocator of this jar.
    pub fn try_clone(&self) -> Result<CookieJar, NoMemory>
        ensures { IfOk result (λ jar. jar ≡ self.now) }
    {
        let CookieJar {
            originals,
            log: _,
            floor: _,
        } = self.copied_originals()?;
        Ok(CookieJar {
            originals,
            log: copy_all(*self.log.allocator(), self.log.as_slice())?,
            floor: self.floor,
        })
    }

    pub(crate) fn allocator(&self) -> Global {
        *self.log.allocator()
    }

    /// Logs further changes, which are taken where there is room for all.
    pub(crate) fn append(&mut self, changes: &mut Vec<Change>) -> Result<(), NoMemory>
        ensures ok { OnOk result (self.new ≡ record self.old { log = self.old.log ++ changes.old.items }) }
        ensures err { OnErr result (self.new ≡ self.old) }
    {
        self.log.append(changes)
    }

    /// The original of a name.
    pub fn get(&self, name: &str) -> Option<&Cookie>
        ensures { option_copied result ≡ cookie_of name.now self.now.originals }
    {
        self.originals.get(name)
    }

    fn pending(&self) -> &[Change]
        ensures { result.now ≡ pending_changes self.now }
    {
        &self.log[self.floor..]
    }

    fn last_change(&self, name: &str) -> Option<&Change>
        ensures { option_copied result ≡ last_change name.now (pending_changes self.now) }
    {
        self.pending()
            .iter()
            .rev()
            .find(|change| change.cookie.is_named(name))
    }

    /// What the changes above the floor leave of a name, and its original where none of them has it.
    pub fn get_pending(&self, name: &str) -> Option<&Cookie>
        ensures { option_copied result
            ≡ left_by (last_change name.now (pending_changes self.now)) (cookie_of name.now self.now.originals) }
    {
        match self.last_change(name) {
            Some(change) => {
                if change.removal {
                    None
                } else {
                    Some(&change.cookie)
                }
            }
            None => self.get(name),
        }
    }

    /// Keeps a cookie that came with the request, in place of an earlier one of its name.
    pub fn add_original(&mut self, cookie: Cookie) -> Result<(), NoMemory>
        // It is found under its name, and under any other name what was found before.
        ensures found { OnOk result ((name : List ℕ)
            → cookie_of name self.new.originals
            ≡ (if is_named name cookie then Some cookie else cookie_of name self.old.originals)) }
        ensures ok { OnOk result (self.new ≡ record self.old { originals = with_cookie self.old.originals cookie }) }
        ensures err { OnErr result (self.new ≡ self.old) }
    {
        insert_named(*self.log.allocator(), &mut self.originals, cookie)?;
        Ok(())
    }

    /// Logs that a cookie is added.
    pub fn add(&mut self, cookie: Cookie) -> Result<(), NoMemory>
        ensures ok { OnOk result (self.new ≡ record self.old { log = self.old.log ++ addition cookie ∷ [] }) }
        ensures err { OnErr result (self.new ≡ self.old) }
    {
        let change = added(*self.log.allocator(), cookie)?;
        Ok(self.log.push(change)?)
    }

    /// Logs that the cookie of this name, path and domain is removed.
    pub fn remove(&mut self, cookie: Cookie) -> Result<(), NoMemory>
        ensures ok { OnOk result (self.new ≡ record self.old { log = self.old.log ++ removal_of cookie ∷ [] }) }
        ensures err { OnErr result (self.new ≡ self.old) }
    {
        let change = removed(*self.log.allocator(), cookie)?;
        Ok(self.log.push(change)?)
    }

    /// The originals, names ascending.
    pub fn iter(&self) -> CookieIter<'_>
        ensures cookies { result ≡ self.now.originals }
        ensures ascending { NamesAscend self.now.originals }
    {
        CookieIter {
            cookies: self.originals.values(),
        }
    }

    /// All changes, also those below the floor.
    pub fn log(&self) -> &[Change]
        ensures { result.now ≡ self.now.log }
    {
        self.log.as_slice()
    }

    /// How many changes there are, also below the floor.
    pub fn changes(&self) -> usize
        ensures count { result ≡ length self.now.log }
        ensures floor { self.now.floor ≤ result }
    {
        self.log.len()
    }

    /// Takes back the changes behind the first so many.
    pub fn take_back(&mut self, changes: usize)
        requires { self.old.floor ≤ changes }
        ensures { self.new ≡ record self.old { log = take changes self.old.log } }
    {
        self.log.truncate(changes);
    }

    /// What is sent of a change: a removal only where there is an original to remove.
    fn sent(&self, change: &Change, moment: u64) -> Result<Option<Cookie>, NoMemory>
        ensures { IfOk result (λ cookie. option_to_list cookie ≡ sent self.now.originals moment change.now) }
    {
        if change.removal && self.get(change.cookie.name()).is_none() {
            return Ok(None);
        }
        let mut cookie = change.cookie.try_clone(*self.log.allocator())?;
        if change.removal {
            cookie.make_removal(moment);
        }
        Ok(Some(cookie))
    }

    fn delta(&self, moment: u64) -> Result<Vec<Cookie>, NoMemory>
        ensures { IfOk result (λ cookies. cookies.items ≡ delta self.now.originals self.now.log self.now.floor moment) }
    {
        let alloc = *self.log.allocator();
        let mut seen = BTreeSet::new(alloc);
        let mut cookies = Vec::new(alloc);
        for change in self.pending().iter().rev() {
            if !seen.insert(change.cookie.name())? {
                continue;
            }
            let cookie = self.sent(change, moment)?;
            push_any(&mut cookies, cookie)?;
        }
        cookies.reverse();
        Ok(cookies)
    }

    /// The cookies to send: of each name that changed since the last time, its last change. The floor rises to the end of
    /// the log.
    pub fn take_delta(&mut self, moment: u64) -> Result<Vec<Cookie>, NoMemory>
        ensures delta { IfOk result
            (λ cookies. cookies.items ≡ delta self.old.originals self.old.log self.old.floor moment) }
        ensures ok { OnOk result (self.new ≡ record self.old { floor = length self.old.log }) }
        ensures err { OnErr result (self.new ≡ self.old) }
    {
        let cookies = self.delta(moment)?;
        self.reset_delta();
        Ok(cookies)
    }

    /// Forgets the changes so far: the floor rises to the end of the log.
    pub fn reset_delta(&mut self)
        ensures { self.new ≡ record self.old { floor = length self.old.log } }
    {
        self.floor = self.log.len();
    }
}

/// The originals of a jar, names ascending.
#[derive(Drop)]
pub struct CookieIter<'a> {
    cookies: Values<'a, String, Cookie>,
}

impl<'a> Model for CookieIter<'a> {
    ghost use Rattle.std.specs.Prelude.{List};
    ghost use Rattle.rkt_cookie.specs.Cookie.{Parts};

    ghost Value = { List Parts };

    ghost view = { λ i. i.cookies };
}

impl<'a> Iterator for CookieIter<'a> {
    type Item = &'a Cookie;

    ghost next_gives = { YieldsFirstRef (λ cookies. cookies) };

    ghost remaining = { item_count (λ cookies. cookies) };

    fn next(&mut self) -> Option<&'a Cookie> {
        self.cookies.next()
    }
}

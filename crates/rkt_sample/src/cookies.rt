//! Cookies that a callback adds.
ghost use Rattle.std.specs.Prelude.{◌≡◌, Some, OnOk, OnErr};
ghost use Rattle.rkt_sample.specs.Added.{mark_of, with_added};

use rkt_base::NoMemory;
use rkt_cookie::Cookie;
use rkt_request::{Ctx, Types};
use std::alloc::Global;

/// Adds the cookie of a name, with the value 1.
pub(crate) fn mark<T: Types>(alloc: Global, name: &str, ctx: &mut Ctx<T>) -> Result<(), NoMemory>
    ensures ok { OnOk result (ctx.new ≡ record ctx.old { kept = with_added (Some (mark_of name.now)) ctx.old.kept }) }
    ensures err { OnErr result (ctx.new ≡ ctx.old) }
{
    let cookie = Cookie::new(alloc, name, "1")?;
    ctx.cookies_mut().add(cookie)
}

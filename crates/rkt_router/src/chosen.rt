ghost use Rattle.std.specs.Prelude.{◌≡◌, ◌↔◌, ◌<◌, IfSome, IsTrue, length};
ghost use Rattle.rkt_router.specs.Catchers.{Catches, IsChosen, Outranks};
ghost use Rattle.rkt_router.specs.Choice.{BeatsBest};

use crate::Catcher;
use rkt_http::Status;
use rkt_request::{Request, Types};

/// Whether a catcher is for a status of a request.
fn catches<C, T: Types>(catcher: &Catcher<C>, status: Status, request: &Request<'_, T>) -> bool
    ensures { IsTrue result ↔ Catches catcher.now status.code request.now }
{
    let base = catcher.base.origin();
    is_for(catcher.code, status.code) && base.segments().prefix_of(request.uri().segments())
}

fn is_for(code: Option<u16>, status: u16) -> bool
    ensures { IsTrue result ↔ IfSome code (λ code. code ≡ status) }
{
    match code {
        Some(code) => code == status,
        None => true,
    }
}

/// Whether one catcher goes before another.
fn outranks<C>(one: &Catcher<C>, other: &Catcher<C>) -> bool
    ensures { IsTrue result ↔ Outranks one.now other.now }
{
    let (count, other_count) = (
        one.base.origin().segments().len(),
        other.base.origin().segments().len(),
    );
    other_count < count || (count == other_count && one.code.is_some() && other.code.is_none())
}

/// Whether the catcher at a position goes before the best so far, if there is one.
fn beats_best<C>(catchers: &[Catcher<C>], position: usize, best: Option<usize>) -> bool
    requires position { position < length catchers.now }
    requires best { IfSome best (λ p. p < length catchers.now) }
    ensures { IsTrue result ↔ BeatsBest catchers.now position best }
{
    match best {
        Some(best) => outranks(&catchers[position], &catchers[best]),
        None => true,
    }
}

/// The position of the catcher that is chosen for a status.
pub(crate) fn chosen<C, T: Types>(
    catchers: &[Catcher<C>],
    status: Status,
    request: &Request<'_, T>,
) -> Option<usize>
    ensures { IsChosen catchers.now status.code request.now result }
{
    let mut best = None;
    for (position, catcher) in catchers.iter().enumerate() {
        if !catches(catcher, status, request) {
            continue;
        }
        if beats_best(catchers, position, best) {
            best = Some(position);
        }
    }
    best
}

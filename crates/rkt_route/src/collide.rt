ghost use Rattle.std.specs.Prelude.{◌≡◌, ◌↔◌, IsTrue, option_copied};
ghost use Rattle.rkt_http.specs.Method.{carries_payload};
ghost use Rattle.rkt_uri.specs.Origin.{segments_of};
ghost use Rattle.rkt_route.specs.Collisions.{CatchersCollide, FormatsCollide, FormatsMeet, MayEnd, MediaCollide, PartsCollide, PathsCollide, RoutesCollide, SegmentsMeet};

use crate::{Catcher, Route, Segment};
use rkt_http::MediaType;

/// What may answer, or stand for, the same thing as another of its kind.
pub trait Collide {
    ghost collides: { Self → Self → Type 0 };

    /// Whether the two collide.
    fn collides_with(&self, other: &Self) -> bool
        ensures { IsTrue result ↔ collides self.now other.now };
}

fn parts_collide(one: &str, other: &str) -> bool
    ensures { IsTrue result ↔ PartsCollide one.now other.now }
{
    one.eq_ignore_ascii_case(other) || one == "*" || other == "*"
}

impl Collide for MediaType {
    ghost collides = { MediaCollide };

    fn collides_with(&self, other: &MediaType) -> bool {
        parts_collide(self.top(), other.top()) && parts_collide(self.sub(), other.sub())
    }
}

/// Whether some name may be both.
fn segments_meet(one: &Segment, other: &Segment) -> bool
    ensures { IsTrue result ↔ SegmentsMeet one.now other.now }
{
    one.dynamic || other.dynamic || one.value == other.value
}

/// Whether nothing is left of a path, or a trailing segment, which may take nothing.
fn may_end(left: &[Segment]) -> bool
    ensures { IsTrue result ↔ MayEnd left.now }
{
    match left.first() {
        Some(segment) => segment.trailing,
        None => true,
    }
}

/// Whether some path may be both.
fn paths_collide(mut one: &[Segment], mut other: &[Segment]) -> bool
    ensures { IsTrue result ↔ PathsCollide one.now other.now }
{
    while let (Some((a, more)), Some((b, others))) = (one.split_first(), other.split_first()) {
        if a.trailing || b.trailing {
            return true;
        }
        if !segments_meet(a, b) {
            return false;
        }
        one = more;
        other = others;
    }
    may_end(one) && may_end(other)
}

/// Whether some media type may be both, where both are there.
fn formats_meet(one: Option<&MediaType>, other: Option<&MediaType>) -> bool
    ensures { IsTrue result ↔ FormatsMeet (option_copied one.entry) (option_copied other.entry) }
{
    match (one, other) {
        (Some(one), Some(other)) => one.collides_with(other),
        _ => true,
    }
}

impl<H, S> Collide for Route<H, S> {
    ghost collides = { RoutesCollide };

    fn collides_with(&self, other: &Route<H, S>) -> bool {
        self.method == other.method
            && self.rank == other.rank
            && paths_collide(self.uri.segments(), other.uri.segments())
            && (!self.method.supports_payload()
                || formats_meet(self.format.as_ref(), other.format.as_ref()))
    }
}

impl<C> Collide for Catcher<C> {
    ghost collides = { CatchersCollide };

    fn collides_with(&self, other: &Catcher<C>) -> bool {
        self.code == other.code && self.base.origin().segments() == other.base.origin().segments()
    }
}
